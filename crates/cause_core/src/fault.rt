//! What could not be done with a file.

ghost use Rattle.std.specs.Prelude.{◌≡◌, ◌++◌, OnOk, codes, Some, None};
ghost use Rattle.std.specs.Fs.{file_type, IsDir, IsFile};
ghost use Rattle.cause_core.specs.declared.cause.Cause.TheVariants.{IsFolder, NoFile};
ghost use Rattle.cause_core.specs.Causes.{cause_text};
ghost use Rattle.cause_core.specs.Faults.{fault_text};
ghost use Rattle.cause_core.specs.Faults.{task_words as the_task_words};

use crate::cause::{Cause, push_cause};
use std::alloc::AllocError;
use std::fs::Metadata;

/// What could not be done.
#[derive(Clone, Copy, Debug, PartialEq, Eq)]
pub enum FileTask {
    Open,
    Make,
    Read,
    Write,
    /// What was written could not be had on the disk.
    Store,
    Rename,
    Remove,
    /// The names of a folder could not be had on the disk.
    StoreFolder,
}

/// What could not be done with a file, and why.
#[derive(Clone, Copy, Debug, PartialEq, Eq)]
pub struct FileFault {
    pub task: FileTask,
    pub cause: Cause,
}

// What is said of what could not be done.
fn task_words(task: FileTask) -> &'static [u8]
    ensures { result.now ≡ the_task_words task }
{
    match task {
        FileTask::Open => b": this file cannot be opened",
        FileTask::Make => b": this file cannot be made",
        FileTask::Read => b": this file cannot be read",
        FileTask::Write => b": this file cannot be written",
        FileTask::Store => b": this file cannot be stored",
        FileTask::Rename => b": this file cannot be renamed",
        FileTask::Remove => b": this file cannot be removed",
        FileTask::StoreFolder => b": this folder cannot be stored",
    }
}

// What could not be done with the file at a path.
fn push_task(out: &mut Vec<u8>, path: &[u8], task: FileTask) -> Result<(), AllocError>
    ensures { OnOk result (out.new.items ≡ out.old.items ++ (path.now ++ the_task_words task)) }
{
    out.extend_from_slice(path)?;
    out.extend_from_slice(task_words(task))?;
    Ok(())
}

// Why, and the end of the line.
fn push_end(out: &mut Vec<u8>, cause: Cause) -> Result<(), AllocError>
    ensures { OnOk result (out.new.items ≡ out.old.items ++ (cause_text (codes ": ") cause ++ codes "\n")) }
{
    push_cause(out, b": ", cause)?;
    out.extend_from_slice(b"\n")?;
    Ok(())
}

/// Adds the line that tells what could not be done with the file at a path, and why. The error is that memory was refused.
pub fn push_fault(out: &mut Vec<u8>, path: &[u8], fault: FileFault) -> Result<(), AllocError>
    ensures { OnOk result (out.new.items ≡ out.old.items ++ fault_text path.now fault) }
{
    push_task(out, path, fault.task)?;
    push_end(out, fault.cause)?;
    Ok(())
}

/// Why what was found at a path is no file, where it is none. To open a pipe would wait for whoever writes to it.
pub fn why_no_file(found: &Metadata) -> Option<Cause>
    ensures file { IsFile (file_type found.now) → result ≡ None }
    ensures folder { IsDir (file_type found.now) → result ≡ Some IsFolder }
    ensures other { (IsFile (file_type found.now) → ⊥) → (IsDir (file_type found.now) → ⊥) → result ≡ Some NoFile }
{
    if found.is_file() {
        return None;
    }
    if found.is_dir() {
        return Some(Cause::IsFolder);
    }
    Some(Cause::NoFile)
}
