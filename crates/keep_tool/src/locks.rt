//! The locks by which no other server has a folder.

ghost use Rattle.std.specs.Prelude.{IfErr};
ghost use Rattle.answer_core.specs.Status.{IsFault};

use crate::unread::tell_fault;
use answer_core::failure::ToolFailure;
use answer_core::inputs::lock_folder;
use answer_core::lack::{Lacking, Wanted};
use answer_core::said::told;
use cause_core::cause::{Cause, cause_of};
use cause_core::fault::{FileFault, FileTask, why_no_file};
use mio_core::own::{FILE_MODE, close_to_others};
use std::fs::{self, File, OpenOptions, TryLockError};
use std::os::unix::fs::OpenOptionsExt;

/// A folder that no other server has, as long as this is there: it is locked, as a program of before does it, and so is its
/// file `lock`, which only its owner can open.
#[derive(Drop)]
pub struct FolderLocks {
    folder: File,
    file: File,
}

// The file at a path, opened to be locked. It is made where it is not there; what is no file is not opened.
fn lock_file(rt: &HostRuntime, path: &str) -> Result<File, FileFault> {
    let task = match fs::metadata(rt, path) {
        Ok(found) => {
            if let Some(cause) = why_no_file(&found) {
                return Err(FileFault {
                    task: FileTask::Open,
                    cause,
                });
            }
            FileTask::Open
        }
        Err(_) => FileTask::Make,
    };
    match OpenOptions::new()
        .write(true)
        .create(true)
        .mode(FILE_MODE)
        .open(rt, path)
    {
        Ok(file) => Ok(file),
        Err(error) => Err(FileFault {
            task,
            cause: cause_of(&error),
        }),
    }
}

// What a start ends with that could not do this with the file of its lock, which is told, but for a want of memory.
fn unlocked(rt: &HostRuntime, path: &str, fault: FileFault) -> ToolFailure
    ensures { IsFault result }
{
    if fault.cause == Cause::NoMemory {
        return ToolFailure::Memory;
    }
    tell_fault(rt, path, fault);
    ToolFailure::WriteFault
}

/// Takes a folder for this server alone: it is locked, and then its file `lock`, which is made where it is not there, and
/// stays. What it lacks is told. Where another program has the folder or that file nothing is changed.
///
/// A failure is `ReadFault` where it is no folder, cannot be opened, or another program has one of the two, `WriteFault` where
/// the file could not be made or opened, or `Memory`.
pub(crate) fn lock_both(rt: &HostRuntime, folder: &str) -> Result<FolderLocks, ToolFailure>
    ensures { IfErr result IsFault }
{
    let locked = match lock_folder(rt, folder) {
        Ok(locked) => locked,
        Err(lacking) => return Err(told(rt, lacking, folder)),
    };
    let path = format!(in rt.alloc(); "{folder}/lock")?;
    let file = match lock_file(rt, path.as_str()) {
        Ok(file) => file,
        Err(fault) => return Err(unlocked(rt, path.as_str(), fault)),
    };
    match file.try_lock() {
        Ok(()) => {
            let _closed = close_to_others(&file);
            Ok(FolderLocks {
                folder: locked,
                file,
            })
        }
        Err(TryLockError::WouldBlock) => {
            Err(told(rt, Lacking::at(Wanted::Lock, Cause::Unknown), folder))
        }
        Err(TryLockError::Error(error)) => Err(told(
            rt,
            Lacking::of(Wanted::Folder, error),
            folder,
        )),
    }
}
