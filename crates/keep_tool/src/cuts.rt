//! Files of journals of which a part is cut off: each is kept whole, as `NAME.000003.trace.cut` by the number of its epoch.

ghost use Rattle.std.specs.Prelude.{IfErr};
ghost use Rattle.answer_core.specs.Status.{IsFault};

use crate::folder::bytes_at;
use crate::notes::note;
use crate::sources::write_new;
use crate::unread::tell_fault;
use answer_core::failure::ToolFailure;
use cause_core::cause::cause_of;
use cause_core::fault::{FileFault, FileTask};
use keep_log::log::Log;
use std::fs::{self, File};
use std::io::{self, ErrorKind, Write};

/// The file of a journal that is taken up to a line.
#[derive(Drop)]
pub(crate) struct CutFile {
    /// The name of the object, and which epoch it is.
    pub(crate) name: String,
    pub(crate) epoch: u64,
    /// Up to this line it is taken, and so many bytes behind that are not 0.
    pub(crate) line: u64,
    pub(crate) behind: u64,
    /// All of it.
    pub(crate) bytes: Vec<u8>,
}

/// Whether a file of that name is there that is another one: it is not written over.
pub(crate) fn is_taken(rt: &HostRuntime, path: &str, bytes: &[u8]) -> io::Result<bool> {
    match bytes_at(rt, path) {
        Ok(found) => Ok(found.as_slice() != bytes),
        Err(error) => {
            if error.kind() == ErrorKind::NotFound {
                return Ok(false);
            }
            Err(error)
        }
    }
}

// Keeps a file, where no other one has its name.
fn put(rt: &HostRuntime, folder: &str, path: &str, bytes: &[u8]) -> io::Result<()> {
    let fresh = format!(in rt.alloc(); "{path}.new")?;
    write_new(rt, fresh.as_str(), bytes)?;
    match fs::hard_link(rt, fresh.as_str(), path) {
        Ok(()) => {}
        Err(error) => {
            if error.kind() != ErrorKind::AlreadyExists {
                return Err(error);
            }
        }
    }
    fs::remove_file(rt, fresh.as_str())?;
    File::open(rt, folder)?.sync_all()
}

// Keeps one, and tells of it.
fn keep_one<E: Write, L: Write>(
    rt: &HostRuntime,
    folder: &str,
    cut: &CutFile,
    error: &mut E,
    log: &mut Log<HostRuntime, L>,
) -> Result<(), ToolFailure>
    ensures { IfErr result IsFault }
{
    let (name, epoch) = (cut.name.as_str(), cut.epoch);
    let path = format!(in rt.alloc(); "{folder}/{name}.{epoch:06}.trace.cut")?;
    match put(rt, folder, path.as_str(), &cut.bytes) {
        Ok(()) => {}
        Err(fault) => {
            if fault.kind() == ErrorKind::OutOfMemory {
                return Err(ToolFailure::Memory);
            }
            let fault = FileFault {
                task: FileTask::Write,
                cause: cause_of(&fault),
            };
            tell_fault(rt, path.as_str(), fault);
            return Err(ToolFailure::WriteFault);
        }
    }
    let (line, behind) = (cut.line, cut.behind);
    let said = if behind == 0 {
        format!(in rt.alloc();
            "{name}.journal line {line}: the file ends behind it, {path} is as it was\n"
        )?
    } else {
        format!(in rt.alloc();
            "{name}.journal line {line}: {behind} bytes behind it are cut off, {path} has them\n"
        )?
    };
    note(said.as_bytes(), error, log);
    Ok(())
}

/// Keeps these files, and tells of each. A failure is `WriteFault` where one could not be kept, which is told, or `Memory`.
pub(crate) fn keep_cuts<E: Write, L: Write>(
    rt: &HostRuntime,
    folder: &str,
    cuts: &[CutFile],
    error: &mut E,
    log: &mut Log<HostRuntime, L>,
) -> Result<(), ToolFailure>
    ensures { IfErr result IsFault }
{
    for cut in cuts {
        keep_one(rt, folder, cut, error, log)?;
    }
    Ok(())
}
