//! What is asked of the value files of a folder.

ghost use Rattle.std.specs.Prelude.{IfOk};
ghost use Rattle.serve_core.specs.Numbers.{AreBetween};

use crate::folder::add_number;
use itoa::Buffer;
use std::alloc::{AllocError, Global};
use std::io::ErrorKind;
use std::rt::Files;
use std::{fs, io};

// The most bytes of a path behind the folder: a slash, 20 digits and the ending.
const NAME_BYTES: usize = 25;

/// The value files of a folder: which are there, and what is done to one, by its number.
///
/// The clauses say what was asked, so that who asks can say that nothing else was.
pub trait Values {
    ghost use Rattle.std.specs.Prelude.{IfOk};
    ghost use Rattle.serve_core.specs.Numbers.{AreBetween};
    ghost use Rattle.serve_core.specs.Deeds.{Deed, removes, opens, puts};

    /// What a call did: the files before it, the call with its answer, and the files after it. No law is known of it,
    /// so who stands over these files can show it only by making that very call.
    ghost does: { Self → Deed → Self → Type 0 };

    /// The numbers of the value files that are there, from `first` on and below `end`, in no order.
    ///
    /// The error is that of reading the folder, or of kind `OutOfMemory`.
    fn numbers(&self, alloc: Global, first: u64, end: u64) -> io::Result<Vec<u64>>
        ensures { IfOk result (λ numbers. AreBetween first end numbers.items) };

    /// Removes the value file of this number. It answers whether it did; where not, the file is left.
    fn remove(&mut self, number: u64) -> bool
        ensures { does self.old (removes number result) self.new };

    /// Makes a folder for files that an earlier run left, under a number from 1 on that none of them has, and answers
    /// this number. `None` where it could not be made.
    fn open_left(&mut self) -> Option<u64>
        ensures { does self.old (opens result) self.new };

    /// Moves the value file of a number into the folder of that number. It answers whether it is there; where not, it
    /// stays where it was.
    fn put_left(&mut self, number: u64, left: u64) -> bool
        ensures { does self.old (puts number left result) self.new };
}

/// The value files of a folder on the disk: that of number N is `FOLDER/N.val`, and the folders for those that an
/// earlier run left are `FOLDER/left/K`.
///
/// Nothing is known of what a folder holds, so no clause says what is there after a call. Each other name is left.
#[derive(Drop)]
pub struct DirValues<R: Files + AllocGlobal> {
    rt: R,
    folder: String,
    // The path of the file that was removed last. Its memory is taken at the start, so a removal takes none.
    path: String,
}

impl<R: Files + AllocGlobal + Drop> DirValues<R> {
    /// The value files of this folder. It touches no file yet. The error is that memory was refused.
    pub fn new(rt: R, folder: &str) -> Result<DirValues<R>, AllocError> {
        let path = String::with_capacity(rt.alloc(), folder.len().saturating_add(NAME_BYTES))?;
        let folder = String::from_str(rt.alloc(), folder)?;
        Ok(DirValues { rt, folder, path })
    }
}

impl<R: Files + AllocGlobal + Clone + Drop> DirValues<R> {
    // The numbers of the value files in the folder, from the first one up to the last one, which is left out.
    fn listed(&self, alloc: Global, first: u64, end: u64) -> io::Result<Vec<u64>>
        ensures { IfOk result (λ numbers. AreBetween first end numbers.items) }
    {
        let mut numbers = Vec::new(alloc);
        for entry in fs::read_dir(&self.rt, self.folder.as_str())? {
            let entry = entry?;
            add_number(&mut numbers, entry.file_name(), first, end)?;
        }
        Ok(numbers)
    }

    // Makes a folder in `FOLDER/left`, under the first number that none there has, and answers this number.
    fn make_left(&self) -> io::Result<u64> {
        let left = format!(in self.rt.alloc(); "{}/left", self.folder)?;
        if let Err(error) = fs::create_dir(&self.rt, left.as_str()) {
            if error.kind() != ErrorKind::AlreadyExists {
                return Err(error);
            }
        }
        for number in 1..u64::MAX {
            let path = format!(in self.rt.alloc(); "{}/left/{number}", self.folder)?;
            match fs::create_dir(&self.rt, path.as_str()) {
                Ok(()) => return Ok(number),
                Err(error) => {
                    if error.kind() != ErrorKind::AlreadyExists {
                        return Err(error);
                    }
                }
            }
        }
        Err(io::Error::from(ErrorKind::AlreadyExists))
    }

    // Moves a value file into that folder of `FOLDER/left`.
    fn rename(&self, number: u64, left: u64) -> io::Result<()> {
        let old = format!(in self.rt.alloc(); "{}/{number}.val", self.folder)?;
        let new = format!(in self.rt.alloc(); "{}/left/{left}/{number}.val", self.folder)?;
        fs::rename(&self.rt, old.as_str(), new.as_str())
    }

    // Removes a value file.
    fn unlink(&mut self, number: u64) -> io::Result<()> {
        let mut digits = Buffer::new();
        self.path.clear();
        self.path.push_str(self.folder.as_str())?;
        self.path.push('/')?;
        self.path.push_str(digits.format(number))?;
        self.path.push_str(".val")?;
        fs::remove_file(&self.rt, self.path.as_str())
    }
}

impl<R: Files + AllocGlobal + Clone + Drop> Values for DirValues<R> {
    // No clause can say what a folder holds.
    ghost does = { λ v deed w. Unit {0} };

    fn numbers(&self, alloc: Global, first: u64, end: u64) -> io::Result<Vec<u64>> {
        self.listed(alloc, first, end)
    }

    fn remove(&mut self, number: u64) -> bool {
        self.unlink(number).is_ok()
    }

    fn open_left(&mut self) -> Option<u64> {
        self.make_left().ok()
    }

    fn put_left(&mut self, number: u64, left: u64) -> bool {
        self.rename(number, left).is_ok()
    }
}
