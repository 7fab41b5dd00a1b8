//! What stands in a folder of kept objects: the names of its files, and the file of a journal.

ghost use Rattle.std.specs.Prelude.{IfErr};
ghost use Rattle.answer_core.specs.Status.{IsFault};

use answer_core::failure::ToolFailure;
use answer_core::lack::{Lacking, Wanted};
use answer_core::said::told;
use mio_core::traces::epoch_of;
use std::alloc::{AllocError, Global};
use std::io::ErrorKind;
use std::{fs, io};
use taken_core::taken::take_file;

/// The names of the files of a folder.
#[derive(Drop)]
pub(crate) struct FolderNames {
    names: Vec<String>,
}

/// What stands in a folder of an object.
#[derive(Drop)]
pub(crate) enum FoundJournal {
    /// Neither a journal nor an epoch that has ended.
    Nothing,
    /// No journal, and an epoch that has ended, or the front of one that was to begin.
    Ended,
    /// These bytes, in the file of its journal.
    File(Vec<u8>),
    /// The name of the journal, and no file behind it.
    Lost,
}

// Whether these digits are those of the name of an ended epoch: six at least.
fn is_number(digits: &[u8]) -> bool {
    for byte in digits {
        if *byte < b'0' || *byte > b'9' {
            return false;
        }
    }
    digits.len() >= 6
}

// Whether this is the name of the file of an ended epoch of an object, or of what was kept of a cut one.
fn is_ended(file: &[u8], object: &[u8]) -> bool {
    let Some(rest) = file.strip_prefix(object) else {
        return false;
    };
    let Some(rest) = rest.strip_prefix(b".".as_slice()) else {
        return false;
    };
    match rest.strip_suffix(b".trace".as_slice()) {
        Some(digits) => is_number(digits),
        None => false,
    }
}

fn push_name(alloc: Global, names: &mut Vec<String>, name: &str) -> Result<(), AllocError> {
    names.push(String::from_str(alloc, name)?)?;
    Ok(())
}

impl FolderNames {
    // Those of this folder.
    fn read(rt: &HostRuntime, folder: &str) -> io::Result<FolderNames> {
        let mut names = Vec::new(rt.alloc());
        for entry in fs::read_dir(rt, folder)? {
            let entry = entry?;
            push_name(rt.alloc(), &mut names, entry.file_name())?;
        }
        Ok(FolderNames { names })
    }

    /// Those of this folder. Where it cannot be read that is told. A failure is `ReadFault` or `Memory`.
    pub(crate) fn look(rt: &HostRuntime, folder: &str) -> Result<FolderNames, ToolFailure>
        ensures { IfErr result IsFault }
    {
        match FolderNames::read(rt, folder) {
            Ok(names) => Ok(names),
            Err(error) => Err(told(rt, Lacking::of(Wanted::Folder, error), folder)),
        }
    }

    // Whether a file has this name.
    fn has(&self, name: &str) -> bool {
        self.names.iter().any(|file| file.as_str() == name)
    }

    // Whether an epoch of this object has ended.
    fn has_ended(&self, object: &str) -> bool {
        self.names
            .iter()
            .any(|file| is_ended(file.as_bytes(), object.as_bytes()))
    }

    /// The names of the objects of which there is a journal.
    pub(crate) fn journals(&self, alloc: Global) -> Result<Vec<String>, AllocError> {
        let mut all = Vec::new(alloc);
        for file in &self.names {
            if let Some(name) = file.as_str().strip_suffix(".journal") {
                push_name(alloc, &mut all, name)?;
            }
        }
        Ok(all)
    }
}

/// The bytes of the file at a path. What is no file is not opened: a pipe would be waited for.
pub(crate) fn bytes_at(rt: &HostRuntime, path: &str) -> io::Result<Vec<u8>> {
    let about = fs::metadata(rt, path)?;
    if about.is_dir() {
        return Err(io::Error::from(ErrorKind::IsADirectory));
    }
    if !about.is_file() {
        return Err(io::Error::from(ErrorKind::NotSeekable));
    }
    fs::read(rt, path)
}

/// The bytes of a file of a folder. `None`: there is none. Where it cannot be read that is told; a failure is `ReadFault` or
/// `Memory`.
pub(crate) fn file_in(
    rt: &HostRuntime,
    folder: &str,
    name: &str,
) -> Result<Option<Vec<u8>>, ToolFailure>
    ensures { IfErr result IsFault }
{
    let path = format!(in rt.alloc(); "{folder}/{name}")?;
    match bytes_at(rt, path.as_str()) {
        Ok(bytes) => Ok(Some(bytes)),
        Err(error) => {
            if error.kind() == ErrorKind::NotFound {
                return Ok(None);
            }
            Err(told(rt, Lacking::of(Wanted::File, error), path.as_str()))
        }
    }
}

// Which epoch the front tells of with which a file begins: 0 where it begins with none.
fn epoch_in(alloc: Global, file: &[u8]) -> Result<u64, AllocError> {
    match take_file(alloc, file, true)? {
        Ok(taken) => Ok(epoch_of(&taken.lines).unwrap_or(0)),
        Err(_) => Ok(0),
    }
}

// Whether a file of a folder that was to be a journal begins with the front of this epoch or a later one.
fn was_to_be(rt: &HostRuntime, folder: &str, name: &str, first: u64) -> Result<bool, ToolFailure>
    ensures { IfErr result IsFault }
{
    match file_in(rt, folder, name)? {
        Some(bytes) => Ok(epoch_in(rt.alloc(), &bytes)? >= first),
        None => Ok(false),
    }
}

// Whether an object without a journal had epochs: one has ended, or another was to begin. What a first start leaves that was
// killed counts for nothing.
fn had_epochs(
    rt: &HostRuntime,
    folder: &str,
    names: &FolderNames,
    name: &str,
) -> Result<bool, ToolFailure>
    ensures { IfErr result IsFault }
{
    if names.has_ended(name) {
        return Ok(true);
    }
    let next = format!(in rt.alloc(); "{name}.next")?;
    if names.has(next.as_str()) && was_to_be(rt, folder, next.as_str(), 1)? {
        return Ok(true);
    }
    let fresh = format!(in rt.alloc(); "{name}.journal.new")?;
    if names.has(fresh.as_str()) {
        return was_to_be(rt, folder, fresh.as_str(), 2);
    }
    Ok(false)
}

/// What stands in a folder with these files of an object of this name. Where a file cannot be read that is told; a failure is
/// `ReadFault` or `Memory`.
pub(crate) fn standing_of(
    rt: &HostRuntime,
    folder: &str,
    names: &FolderNames,
    name: &str,
) -> Result<FoundJournal, ToolFailure>
    ensures { IfErr result IsFault }
{
    let journal = format!(in rt.alloc(); "{name}.journal")?;
    if names.has(journal.as_str()) {
        return match file_in(rt, folder, journal.as_str())? {
            Some(bytes) => Ok(FoundJournal::File(bytes)),
            None => Ok(FoundJournal::Lost),
        };
    }
    if had_epochs(rt, folder, names, name)? {
        return Ok(FoundJournal::Ended);
    }
    Ok(FoundJournal::Nothing)
}
