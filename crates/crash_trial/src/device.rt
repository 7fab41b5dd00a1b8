//! A file in memory that keeps each call, so that a crash can be drawn behind each of them.

ghost use Rattle.std.specs.Prelude.{◌≡◌, ◌≤◌, ◌++◌, ◌∷◌, [], Some, length, IfOk, OnOk, OnErr};
ghost use Rattle.crash_trial.specs.Kept.{read_behind, MayLeave, LeftSince, counts, only};
ghost use Rattle.keep_loop.specs.Device.{with_bytes};

use crate::crash::mixed;
use keep_loop::device::{Device, DeviceError};
use std::alloc::{AllocError, Global};

/// A call that changed something.
#[derive(Drop)]
pub enum Happened {
    /// These bytes were written from this one on.
    Wrote(usize, Vec<u8>),
    /// All went to the disk.
    Stored,
    /// Other bytes were put in the place of all.
    Replaced(Vec<u8>),
    /// Other bytes were to be put in the place of all, and could not.
    Refused,
}

/// A file, and all that happened to it, the oldest first.
#[derive(Drop)]
pub struct RecordedFile {
    alloc: Global,
    file: Vec<u8>,
    happened: Vec<Happened>,
    // Which replacements are refused is drawn from this number.
    seed: u64,
    // So many were asked for.
    replacements: usize,
}

// The file with other bytes from a place on.
pub(crate) fn with(
    alloc: Global,
    file: &[u8],
    at: usize,
    bytes: &[u8],
) -> Result<Vec<u8>, AllocError>
    ensures { IfOk result (λ next. next.items ≡ with_bytes at bytes.now file.now) }
{
    let front = at.min(file.len());
    let behind = at.saturating_add(bytes.len()).min(file.len());
    let mut next = file[..front].to_vec(alloc)?;
    next.extend_from_slice(bytes)?;
    next.extend_from_slice(&file[behind..])?;
    Ok(next)
}

// What a read returns behind these calls.
fn read_of(alloc: Global, file: &[u8], happened: &[Happened]) -> Result<Vec<u8>, AllocError>
    ensures { IfOk result (λ bytes. bytes.items ≡ read_behind file.now happened.now) }
{
    match happened {
        [] => Ok(file.to_vec(alloc)?),
        [Happened::Wrote(at, bytes), happened @ ..] => {
            let next = with(alloc, file, *at, bytes)?;
            read_of(alloc, &next, happened)
        }
        [Happened::Stored, happened @ ..] => read_of(alloc, file, happened),
        [Happened::Replaced(bytes), happened @ ..] => read_of(alloc, bytes, happened),
        [Happened::Refused, happened @ ..] => read_of(alloc, file, happened),
    }
}

// Whether a replacement is refused, behind so many others: one in three, and never the first.
fn is_refused(seed: u64, before: usize) -> bool {
    before > 0 && mixed(seed, before, usize::MAX) % 3 == 0
}

// Notes a call.
fn note(happened: &mut Vec<Happened>, call: Happened) -> Result<(), AllocError>
    ensures ok { OnOk result (happened.new.items ≡ happened.old.items ++ call ∷ []) }
    ensures err { OnErr result (happened.new.items ≡ happened.old.items) }
{
    happened.push(call)?;
    Ok(())
}

impl RecordedFile {
    /// A file with these bytes, all of them on the disk, to which nothing happened yet. Of those replacements that come
    /// behind the first one some are refused, as `seed` draws it.
    pub fn new(alloc: Global, file: Vec<u8>, seed: u64) -> RecordedFile
        ensures file { result.file.items ≡ file.items }
        ensures nothing { result.happened.items ≡ [] }
    {
        RecordedFile {
            alloc,
            file,
            happened: Vec::new(alloc),
            seed,
            replacements: 0,
        }
    }

    /// What it was at first.
    pub fn first(&self) -> &[u8]
        ensures { result.now ≡ self.now.file.items }
    {
        &self.file
    }

    /// What happened, the oldest first.
    pub fn happened(&self) -> &[Happened]
        ensures { result.now ≡ self.now.happened.items }
    {
        &self.happened
    }
}

impl Device for RecordedFile {
    ghost seen = { λ d. Some (read_behind d.file.items d.happened.items) };

    ghost may_leave = { λ d c. MayLeave d.file.items d.happened.items c };

    ghost moment = { λ d. length d.happened.items };

    ghost left_since = { λ d t c. LeftSince d.file.items d.happened.items t c };

    ghost faults = { λ d. 0 };

    ghost counts_now = { λ d t c le now. counts d.file.items d.happened.items t c le now };

    ghost only_now = { λ d c left. only d.file.items d.happened.items c left };

    fn read(&mut self, alloc: Global) -> Result<Vec<u8>, DeviceError> {
        Ok(read_of(alloc, &self.file, &self.happened)?)
    }

    fn write_at(&mut self, at: usize, bytes: &[u8]) -> Result<(), DeviceError> {
        let bytes = bytes.to_vec(self.alloc)?;
        Ok(note(&mut self.happened, Happened::Wrote(at, bytes))?)
    }

    fn sync(&mut self) -> Result<(), DeviceError> {
        Ok(note(&mut self.happened, Happened::Stored)?)
    }

    fn replace(&mut self, bytes: &[u8]) -> Result<bool, DeviceError> {
        let before = self.replacements;
        self.replacements = before.saturating_add(1);
        if is_refused(self.seed, before) {
            note(&mut self.happened, Happened::Refused)?;
            return Ok(false);
        }
        let bytes = bytes.to_vec(self.alloc)?;
        note(&mut self.happened, Happened::Replaced(bytes))?;
        Ok(true)
    }
}
