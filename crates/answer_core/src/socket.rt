//! A socket at a path.

ghost use Rattle.std.specs.Prelude.{◌≡◌, IfOk, string_bytes};
ghost use Rattle.answer_core.specs.Places.{path_in};

use command_line::request::Address;
use std::fs::{self, File, OpenOptions, Permissions, TryLockError};
use std::io::{self, ErrorKind};
use std::os::unix::fs::{FileTypeExt, MetadataExt, PermissionsExt};
use std::os::unix::net::UnixListener;

// Its owner and its group may connect.
const MODE: u32 = 0o660;

/// A socket that a server has made at a path, and the lock by which no other server listens there.
#[derive(Drop)]
pub struct Socket {
    path: String,
    // The file that was made.
    file: u64,
    lock: File,
}

impl Socket {
    /// Removes it, where it is still the one that was made.
    pub fn remove(self, rt: &HostRuntime) {
        let path = self.path.as_str();
        if let Ok(found) = fs::symlink_metadata(rt, path) {
            if found.ino() == self.file {
                let _ = fs::remove_file(rt, path);
            }
        }
        drop(self.lock);
    }
}

// A path with an ending.
fn with_ending(rt: &HostRuntime, path: &str, ending: &str) -> io::Result<String> {
    let mut out = String::from_str(rt.alloc(), path)?;
    out.push_str(ending)?;
    Ok(out)
}

// Takes a path for this server alone, as long as what is given stays open: by a lock of the file `PATH.lock`, which stays.
fn lock_path(rt: &HostRuntime, path: &str) -> io::Result<File> {
    let name = with_ending(rt, path, ".lock")?;
    let lock = OpenOptions::new()
        .write(true)
        .create(true)
        .open(rt, name.as_str())?;
    match lock.try_lock() {
        Ok(()) => Ok(lock),
        Err(TryLockError::WouldBlock) => Err(io::Error::from(ErrorKind::AddrInUse)),
        Err(TryLockError::Error(error)) => Err(error),
    }
}

// Nothing is at this path, or a socket.
fn is_free(rt: &HostRuntime, path: &str) -> io::Result<bool> {
    match fs::symlink_metadata(rt, path) {
        Ok(found) => Ok(found.file_type().is_socket()),
        Err(error) => if error.kind() == ErrorKind::NotFound {
            Ok(true)
        } else {
            Err(error)
        },
    }
}

/// Listens at the path of a socket. It is made as `PATH.new`, gets its mode, and is then renamed: so nobody connects before
/// that, and one that a killed server left is replaced in one step.
///
/// An error is `AddrInUse` where another server listens there, `AlreadyExists` where something else than a socket is
/// there, or what the system says; nothing that was there is touched then, but for `PATH.new` and `PATH.lock`.
pub fn socket_at(rt: &HostRuntime, path: &str) -> io::Result<(UnixListener, Socket)>
    // That path, and no other one, is removed later.
    ensures { IfOk result (λ made. string_bytes made.1.path ≡ path.now) }
{
    let lock = lock_path(rt, path)?;
    if !is_free(rt, path)? {
        return Err(io::Error::from(ErrorKind::AlreadyExists));
    }
    let new = with_ending(rt, path, ".new")?;
    let _ = fs::remove_file(rt, new.as_str());
    let listener = UnixListener::bind(rt, new.as_str())?;
    fs::set_permissions(rt, new.as_str(), Permissions::from_mode(MODE))?;
    let file = fs::symlink_metadata(rt, new.as_str())?.ino();
    fs::rename(rt, new.as_str(), path)?;
    let path = String::from_str(rt.alloc(), path)?;
    Ok((listener, Socket { path, file, lock }))
}

/// The path of a socket, where a server is to listen at one; else no text.
pub fn path_of(address: Address<'_>) -> &str
    ensures { result.now ≡ path_in address.entry }
{
    match address {
        Address::Path(path) => path,
        Address::Port(_) => "",
    }
}
