//! What is told where a start cannot read a file of its folder.

ghost use Rattle.std.specs.Prelude.{IfErr};
ghost use Rattle.answer_core.specs.Status.{IsFault};

use crate::folder::bytes_at;
use answer_core::failure::ToolFailure;
use answer_core::lack::{Lacking, Wanted};
use answer_core::said::told;
use cause_core::cause::{Cause, cause_of};
use cause_core::fault::{FileFault, FileTask, push_fault};
use decl_core::object::{Object, Part};
use std::alloc::AllocError;
use value_core::write_whole;

/// Tells standard error what could not be done with the file at a path, and why.
pub(crate) fn tell_fault(rt: &HostRuntime, path: &str, fault: FileFault) {
    let mut line = Vec::new(rt.alloc());
    if push_fault(&mut line, path.as_bytes(), fault).is_ok() {
        let _ = write_whole(&mut rt.stderr(), &line);
    }
}

/// Tells that the file at a path could not be opened or read, and gives what the program ends with: `Memory` where memory
/// was refused, which is not told here, else `ReadFault`.
pub(crate) fn told_unread(rt: &HostRuntime, path: &str, task: FileTask, cause: Cause) -> ToolFailure
    ensures { IsFault result }
{
    if cause == Cause::NoMemory {
        return ToolFailure::Memory;
    }
    tell_fault(rt, path, FileFault { task, cause });
    ToolFailure::ReadFault
}

// The path of the file that has the value of a part.
fn part_path(
    rt: &HostRuntime,
    folder: &str,
    object: &Object,
    part: &Part,
) -> Result<Vec<u8>, AllocError> {
    let mut path = folder.as_bytes().to_vec(rt.alloc())?;
    path.push(b'/')?;
    path.extend_from_slice(object.name.as_bytes())?;
    path.push(b'.')?;
    path.extend_from_slice(part.name.as_bytes())?;
    path.extend_from_slice(b".part")?;
    Ok(path)
}

// Why the file at a path cannot be read, where it is there.
fn why_unread(rt: &HostRuntime, path: &str) -> Option<Cause> {
    match bytes_at(rt, path) {
        Ok(_) => None,
        Err(error) => match cause_of(&error) {
            Cause::NotThere => None,
            cause => Some(cause),
        },
    }
}

// Looks whether the file of a part can be read, where there is one.
fn look_at_part(
    rt: &HostRuntime,
    folder: &str,
    object: &Object,
    part: &Part,
) -> Result<(), ToolFailure>
    ensures { IfErr result IsFault }
{
    let Ok(path) = String::from_utf8(part_path(rt, folder, object, part)?) else {
        // Names are ASCII: this does not come.
        return Ok(());
    };
    match why_unread(rt, path.as_str()) {
        None => Ok(()),
        Some(cause) => Err(told_unread(rt, path.as_str(), FileTask::Read, cause)),
    }
}

/// Looks whether the files of the parts of an object can be read, where they are there: no pipe is waited for. The first
/// that cannot is told. A failure is `ReadFault` or `Memory`.
pub(crate) fn look_at_parts(
    rt: &HostRuntime,
    folder: &str,
    object: &Object,
) -> Result<(), ToolFailure>
    ensures { IfErr result IsFault }
{
    for part in &object.parts {
        look_at_part(rt, folder, object, part)?;
    }
    Ok(())
}

/// Tells that a part of the folder could not be read behind that look, where that is what ended a start.
pub(crate) fn told_parts(rt: &HostRuntime, folder: &str, failure: ToolFailure) -> ToolFailure
    ensures { IsFault failure → IsFault result }
{
    match failure {
        ToolFailure::ReadFault => told(rt, Lacking::at(Wanted::Parts, Cause::Unknown), folder),
        failure => failure,
    }
}
