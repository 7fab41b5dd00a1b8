//! The files of an object in a folder.

use cause_core::cause::{Cause, cause_of};
use cause_core::fault::why_no_file;
use std::alloc::{AllocError, Global};
use std::fs::{self, File};
use std::io::{self, ErrorKind, Read};
use std::rt::Files;

/// Why a folder is not audited to its end.
#[derive(Debug, Drop)]
pub enum FolderFault {
    /// The file at this path cannot be read, for this reason.
    Unread(String, Cause),
    /// Memory was refused.
    Memory,
}

impl From<AllocError> for FolderFault {
    fn from(_: AllocError) -> FolderFault {
        FolderFault::Memory
    }
}

// The name of the file of the epoch that goes on.
pub(crate) fn journal_of(alloc: Global, object: &str) -> Result<String, AllocError> {
    format!(in alloc; "{object}.journal")
}

// The name of the file of an epoch that has ended.
pub(crate) fn trace_of(alloc: Global, object: &str, epoch: u64) -> Result<String, AllocError> {
    format!(in alloc; "{object}.{epoch:06}.trace")
}

// The path of a file.
fn path_of(alloc: Global, folder: &str, name: &str) -> Result<String, AllocError> {
    format!(in alloc; "{folder}/{name}")
}

// The bytes of a file.
fn read_file<R: Files + AllocGlobal>(rt: &R, path: &str) -> io::Result<Vec<u8>> {
    let mut file = File::open(rt, path)?;
    let mut bytes = Vec::new(rt.alloc());
    file.read_to_end(&mut bytes)?;
    Ok(bytes)
}

// The bytes of the file at a path, or `None` where it is not there. What is no file is not opened.
fn read_at<R: Files + AllocGlobal>(rt: &R, path: &str) -> Result<Option<Vec<u8>>, Cause> {
    let found = match fs::metadata(rt, path) {
        Ok(found) => found,
        Err(error) => return match cause_of(&error) {
            Cause::NotThere => Ok(None),
            cause => Err(cause),
        },
    };
    if let Some(cause) = why_no_file(&found) {
        return Err(cause);
    }
    match read_file(rt, path) {
        Ok(bytes) => Ok(Some(bytes)),
        Err(error) => Err(cause_of(&error)),
    }
}

// The bytes of a file of a folder, or `None` where it is not there.
pub(crate) fn bytes_of<R: Files + AllocGlobal>(
    rt: &R,
    folder: &str,
    name: &str,
) -> Result<Option<Vec<u8>>, FolderFault> {
    let path = path_of(rt.alloc(), folder, name)?;
    match read_at(rt, path.as_str()) {
        Ok(found) => Ok(found),
        Err(Cause::NoMemory) => Err(FolderFault::Memory),
        Err(cause) => Err(FolderFault::Unread(path, cause)),
    }
}

// Whether there is a file of this name in a folder.
fn is_there<R: Files + AllocGlobal>(rt: &R, folder: &str, name: &str) -> Result<bool, AllocError> {
    let path = path_of(rt.alloc(), folder, name)?;
    match fs::metadata(rt, path.as_str()) {
        Ok(_) => Ok(true),
        Err(error) => Ok(error.kind() != ErrorKind::NotFound),
    }
}

// The oldest epoch of an object, at most this one, from which on each one has a file in a folder.
pub(crate) fn first_of<R: Files + AllocGlobal>(
    rt: &R,
    folder: &str,
    object: &str,
    epoch: u64,
) -> Result<u64, AllocError> {
    for back in 1..epoch {
        let number = epoch - back;
        let name = trace_of(rt.alloc(), object, number)?;
        if !is_there(rt, folder, name.as_str())? {
            return Ok(number + 1);
        }
    }
    Ok(1)
}
