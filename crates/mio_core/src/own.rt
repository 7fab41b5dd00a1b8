//! Files that are their owner's alone.

ghost use Rattle.std.specs.Prelude.{◌≡◌, ◌↔◌, IsTrue};
ghost use Rattle.mio_core.specs.Modes.{IsOwners, owners as the_owners};

use std::alloc::Allocator;
use std::fs::{Metadata, OpenFile, OpenOptions, Permissions};
use std::io::{self, PipeReader, PipeWriter};
use std::os::fd::BorrowedFd;
use std::os::unix::fs::{MetadataExt, OpenOptionsExt, PermissionsExt};
use std::os::unix::net::SocketAddr;
use std::path::PathBuf;
use std::rt::Files;

/// The mode of a file that is made.
pub const FILE_MODE: u32 = 0o600;

/// The mode of a folder that is made.
pub const FOLDER_MODE: u32 = 0o700;

/// Whether a mode lets nobody but its owner read a folder, or enter it.
pub fn is_own(mode: u32) -> bool
    ensures { IsTrue result ↔ IsOwners mode }
{
    mode & 0o055 == 0
}

/// What a mode gives to its owner.
pub fn owners(mode: u32) -> u32
    ensures { result ≡ the_owners mode }
{
    mode & 0o700
}

/// Has an open file be its owner's alone, where it is one. The error is that of the system; then it is as it was.
pub fn close_to_others<F: OpenFile>(file: &F) -> io::Result<()> {
    let found = file.metadata()?;
    let mode = found.mode();
    if found.is_file() && mode & 0o077 != 0 {
        file.set_permissions(Permissions::from_mode(owners(mode)))?;
    }
    Ok(())
}

/// The files of a system. One that is made is its owner's alone, whatever the mask of the process lets through, and so is
/// one that is opened to be written, where the system lets that be. A copy has the mode of what it is of.
#[derive(Clone, Copy, Drop)]
pub struct OwnFiles<R> {
    rt: R,
}

impl<R> OwnFiles<R> {
    /// Those of this system.
    pub fn new(rt: R) -> OwnFiles<R>
        ensures { result.rt ≡ rt }
    {
        OwnFiles { rt }
    }
}

impl<R: Alloc> Alloc for OwnFiles<R> {
    type A = R::A;

    fn alloc(&self) -> R::A {
        self.rt.alloc()
    }
}

impl<R: Files> Files for OwnFiles<R> {
    type File = R::File;

    type Dir = R::Dir;

    fn open_file(&self, how: &OpenOptions, path: &str) -> io::Result<R::File> {
        let mut how = how.clone()?;
        how.mode(FILE_MODE);
        let file = self.rt.open_file(&how, path)?;
        if how.asks_write() || how.asks_append() {
            let _closed = close_to_others(&file);
        }
        Ok(file)
    }

    fn open_dir(&self, path: &str) -> io::Result<R::Dir> {
        self.rt.open_dir(path)
    }

    fn metadata(&self, path: &str) -> io::Result<Metadata> {
        self.rt.metadata(path)
    }

    fn symlink_metadata(&self, path: &str) -> io::Result<Metadata> {
        self.rt.symlink_metadata(path)
    }

    fn copy(&self, from: &str, to: &str) -> io::Result<u64> {
        self.rt.copy(from, to)
    }

    fn rename(&self, from: &str, to: &str) -> io::Result<()> {
        self.rt.rename(from, to)
    }

    fn remove_file(&self, path: &str) -> io::Result<()> {
        self.rt.remove_file(path)
    }

    fn create_dir(&self, path: &str) -> io::Result<()> {
        self.rt.create_dir_with_mode(path, FOLDER_MODE)
    }

    fn remove_dir(&self, path: &str) -> io::Result<()> {
        self.rt.remove_dir(path)
    }

    fn remove_dir_all<B: Allocator>(&self, alloc: B, path: &str) -> io::Result<()> {
        self.rt.remove_dir_all(alloc, path)
    }

    fn canonicalize<B: Allocator>(&self, alloc: B, path: &str) -> io::Result<PathBuf<B>> {
        self.rt.canonicalize(alloc, path)
    }

    fn read_link<B: Allocator>(&self, alloc: B, path: &str) -> io::Result<PathBuf<B>> {
        self.rt.read_link(alloc, path)
    }

    fn hard_link(&self, original: &str, link: &str) -> io::Result<()> {
        self.rt.hard_link(original, link)
    }

    fn set_permissions(&self, path: &str, perm: Permissions) -> io::Result<()> {
        self.rt.set_permissions(path, perm)
    }

    fn symlink(&self, original: &str, link: &str) -> io::Result<()> {
        self.rt.symlink(original, link)
    }

    fn pipe(&self) -> io::Result<(PipeReader, PipeWriter)> {
        self.rt.pipe()
    }

    fn chown(&self, path: &str, uid: Option<u32>, gid: Option<u32>) -> io::Result<()> {
        self.rt.chown(path, uid, gid)
    }

    fn lchown(&self, path: &str, uid: Option<u32>, gid: Option<u32>) -> io::Result<()> {
        self.rt.lchown(path, uid, gid)
    }

    fn create_dir_with_mode(&self, path: &str, mode: u32) -> io::Result<()> {
        self.rt.create_dir_with_mode(path, owners(mode))
    }

    fn bind_unix(&self, socket: BorrowedFd<'_>, addr: &SocketAddr) -> io::Result<()> {
        self.rt.bind_unix(socket, addr)
    }
}
