//! Files in a folder, one for each number.

ghost use Rattle.std.specs.Prelude.{◌≡◌, IfOk};

use crate::folder::{count, fault_of, no_memory};
use crate::hand::{Hand, HandFault, Pen, Stamp};
use crate::numbers::Numbers;
use itoa::Buffer;
use std::alloc::AllocError;
use std::fs;
use std::fs::{File, OpenFile};
use std::io::Write;
use std::os::unix::fs::FileExt;
use std::rt::Files;
use std::sync::Arc;

// The most bytes that a path has beyond its folder: a slash, 20 digits and the ending.
const NAME_BYTES: usize = 25;

// How many files that a hand reads no more stay open until it retires one.
const MOST_IDLE: usize = 2;

// A file that is being written.
#[derive(Drop)]
struct Writing<F> {
    number: u64,
    // How many bytes it has, or `None` once an append has failed: then it can only be discarded.
    len: Option<usize>,
    file: F,
}

// A file that can be read.
#[derive(Drop)]
struct Reading<F> {
    number: u64,
    // How many bytes it had when it was sealed or asked for them, and 0 where it was not.
    len: u64,
    file: F,
}

// Whether a read ends with the last byte of a file of this stamp. It tells by itself whether the
// file has as many bytes.
fn ends_with(stamp: &Stamp, at: usize, count: usize) -> bool {
    count > 0 && at.checked_add(count) == Some(stamp.len)
}

/// A hand that keeps its files in a folder, the one of number N as `FOLDER/N.val`.
///
/// Nothing is known of what a folder holds, so no clause says that what was written is read. A file stays
/// open while it is written, and the one that was read or sealed last stays open for the next read. The one or two
/// before it are closed with the next `retire`, since that may cost more than a read where it is the last to let
/// a removed file go. Only `create` takes memory, where more files are being written at a time than ever before.
#[derive(Drop)]
pub struct DirHand<R: Files + AllocGlobal> {
    rt: R,
    folder: String,
    // The path that was used last.
    path: String,
    numbers: Arc<Numbers>,
    writing: Vec<Writing<R::File>>,
    // The file that was read or sealed last.
    reading: Option<Reading<R::File>>,
    // Those before it that are not yet closed, at most `MOST_IDLE`.
    idle: Vec<Reading<R::File>>,
    failures: u64,
}

impl<R: Files + AllocGlobal + Drop> DirHand<R> {
    /// A hand on this folder, which has to be there. It touches no file yet.
    pub fn new(rt: R, folder: &str, numbers: Arc<Numbers>) -> Result<DirHand<R>, AllocError>
        ensures { IfOk result (λ hand. hand.failures ≡ 0) }
    {
        let alloc = rt.alloc();
        let path = String::with_capacity(alloc, folder.len().saturating_add(NAME_BYTES))?;
        let folder = String::from_str(alloc, folder)?;
        let idle = Vec::with_capacity(alloc, MOST_IDLE)?;
        Ok(DirHand {
            rt,
            folder,
            path,
            numbers,
            writing: Vec::new(alloc),
            reading: None,
            idle,
            failures: 0,
        })
    }
}

impl<R: Files + AllocGlobal> DirHand<R>
where
    R::File: FileExt,
{
    // Puts the path of a file into the buffer.
    fn set_path(&mut self, number: u64) -> Result<(), HandFault>
        ensures { self.new.failures ≡ self.old.failures }
    {
        let mut digits = Buffer::new();
        self.path.clear();
        self.path.push_str(self.folder.as_str()).map_err(no_memory)?;
        self.path.push('/').map_err(no_memory)?;
        self.path
            .push_str(digits.format(number))
            .map_err(no_memory)?;
        self.path.push_str(".val").map_err(no_memory)?;
        Ok(())
    }

    // Removes a file from the folder.
    fn remove(&mut self, number: u64) -> Result<(), HandFault>
        ensures { self.new.failures ≡ self.old.failures }
    {
        self.set_path(number)?;
        fs::remove_file(&self.rt, self.path.as_str()).map_err(fault_of)
    }

    // Makes a file, which was not there before.
    fn create_file(&mut self, number: u64) -> Result<(), HandFault>
        ensures { self.new.failures ≡ self.old.failures }
    {
        self.set_path(number)?;
        self.writing.reserve(1).map_err(no_memory)?;
        let file = File::create_new(&self.rt, self.path.as_str()).map_err(fault_of)?;
        let writing = Writing {
            number,
            len: Some(0),
            file,
        };
        if self.writing.push(writing).is_err() {
            return Err(HandFault::Memory);
        }
        Ok(())
    }

    fn append_to(&mut self, number: u64, bytes: &[u8]) -> Result<(), HandFault>
        ensures { self.new.failures ≡ self.old.failures }
    {
        let Some(place) = self.writing.iter().position(|w| w.number == number) else {
            return Err(HandFault::Device);
        };
        let writing = &mut self.writing[place];
        // The length is put back once the bytes are written.
        let Some(len) = writing.len.take() else {
            return Err(HandFault::Device);
        };
        let Some(after) = len.checked_add(bytes.len()) else {
            return Err(HandFault::Device);
        };
        writing.file.write_all(bytes).map_err(fault_of)?;
        writing.len = Some(after);
        Ok(())
    }

    // Reads this file next, in place of the one that was read so far.
    fn turn_to(&mut self, reading: Reading<R::File>)
        ensures { self.new.failures ≡ self.old.failures }
    {
        let Some(before) = self.reading.replace(reading) else {
            return;
        };
        if self.idle.len() < MOST_IDLE {
            let _kept = self.idle.push(before);
        }
    }

    // Ends the writing of a file whose appends were all done, and answers its length. It stays open, to be read.
    fn close(&mut self, number: u64) -> Option<usize>
        ensures { self.new.failures ≡ self.old.failures }
    {
        let place = self.writing.iter().position(|w| w.number == number)?;
        let len = self.writing[place].len?;
        let Writing {
            number,
            len: _,
            file,
        } = self.writing.swap_remove(place);
        self.turn_to(Reading {
            number,
            len: len as u64,
            file,
        });
        Some(len)
    }

    // Closes and removes a file that is being written. It may stay if that fails.
    fn give_up(&mut self, number: u64)
        ensures { self.new.failures ≡ self.old.failures }
    {
        if let Some(place) = self.writing.iter().position(|w| w.number == number) {
            let _ = self.writing.swap_remove(place);
            let _ = self.remove(number);
        }
    }

    // Opens a file to read it next, where it is not the one that was read or sealed last.
    fn open(&mut self, number: u64) -> Result<(), HandFault>
        ensures { self.new.failures ≡ self.old.failures }
    {
        if let Some(reading) = &self.reading {
            if reading.number == number {
                return Ok(());
            }
        }
        self.set_path(number)?;
        let file = File::open(&self.rt, self.path.as_str()).map_err(fault_of)?;
        self.turn_to(Reading {
            number,
            len: 0,
            file,
        });
        Ok(())
    }

    // Whether the file that is read has so many bytes. The system is asked where that is not known.
    fn is_long(&mut self, len: usize) -> Result<bool, HandFault>
        ensures { self.new.failures ≡ self.old.failures }
    {
        let Some(reading) = &mut self.reading else {
            return Ok(false);
        };
        if reading.len < len as u64 {
            reading.len = reading.file.metadata().map_err(fault_of)?.len();
        }
        Ok(reading.len >= len as u64)
    }

    // Reads at a place of a file.
    fn read_at(&mut self, stamp: &Stamp, at: usize, into: &mut [u8]) -> Result<(), HandFault>
        ensures { self.new.failures ≡ self.old.failures }
    {
        self.open(stamp.number)?;
        if !ends_with(stamp, at, into.len()) && !self.is_long(stamp.len)? {
            return Err(HandFault::Device);
        }
        let Some(reading) = &self.reading else {
            return Err(HandFault::Device);
        };
        reading
            .file
            .read_exact_at(into, at as u64)
            .map_err(fault_of)
    }

    // Closes the files that are read no more, this one among them, and removes it.
    fn remove_sealed(&mut self, number: u64) -> Result<(), HandFault>
        ensures { self.new.failures ≡ self.old.failures }
    {
        self.idle.clear();
        if let Some(reading) = self.reading.take() {
            if reading.number != number {
                self.reading = Some(reading);
            }
        }
        self.remove(number)
    }
}

/// Each refusal of the system is `HandFault::Memory` where it wanted memory, and else `HandFault::Device`.
///
/// - `create` fails where a file of the drawn number is there. That number is not drawn again.
/// - `append` and `seal` fail by `Device` where no such file is being written, or an earlier append to it
///   failed. A failed append may have written a part of the bytes.
/// - `discard` removes the file, but leaves it where the system refuses that.
/// - `read` fails by `Device` where the file is shorter than its stamp says.
/// - `retire` removes the file; after a failure it is there or not.
impl<R: Files + AllocGlobal> Hand for DirHand<R>
where
    R::File: FileExt,
{
    // No clause can say what a folder holds, so no assignment agrees.
    ghost agrees = { λ h a. ⊥ };

    ghost pending = { λ h n b. Unit {0} };

    ghost serves = { λ h s. Unit {0} };

    // Nor can one say that it is in order.
    ghost works_for = { λ h n. ⊥ };

    ghost fails = { λ h. ⊥ };

    ghost makes = { λ h call k. Unit {0} };

    ghost failed = { λ h. h.failures };

    fn create(&mut self) -> Result<Pen, HandFault> {
        let number = self.numbers.draw();
        match self.create_file(number) {
            Ok(()) => Ok(Pen { number }),
            Err(fault) => Err(count(&mut self.failures, fault)),
        }
    }

    fn append(&mut self, pen: &mut Pen, bytes: &[u8]) -> Result<(), HandFault> {
        match self.append_to(pen.number, bytes) {
            Ok(()) => Ok(()),
            Err(fault) => Err(count(&mut self.failures, fault)),
        }
    }

    fn seal(&mut self, pen: Pen) -> Result<Stamp, (Pen, HandFault)> {
        match self.close(pen.number) {
            Some(len) => {
                let Pen { number } = pen;
                Ok(Stamp { number, len })
            }
            None => {
                let fault = count(&mut self.failures, HandFault::Device);
                Err((pen, fault))
            }
        }
    }

    fn discard(&mut self, pen: Pen) {
        let Pen { number } = pen;
        self.give_up(number);
    }

    fn read(&mut self, stamp: &Stamp, at: usize, into: &mut [u8]) -> Result<(), HandFault> {
        match self.read_at(stamp, at, into) {
            Ok(()) => Ok(()),
            Err(fault) => Err(count(&mut self.failures, fault)),
        }
    }

    fn retire(&mut self, stamp: &Stamp) -> Result<(), HandFault> {
        match self.remove_sealed(stamp.number) {
            Ok(()) => Ok(()),
            Err(fault) => Err(count(&mut self.failures, fault)),
        }
    }

    fn failures(&self) -> u64 {
        self.failures
    }
}
