//! A store of bytes under names, in a folder.

ghost use Rattle.std.specs.Prelude.{◌≡◌, IfOk};

use crate::folder::{count, fault_of, no_memory};
use crate::hand::HandFault;
use crate::shelf::Shelf;
use std::alloc::{AllocError, Global};
use std::fs::{File, OpenFile};
use std::io::{ErrorKind, Read, Write};
use std::rt::Files;
use std::{fs, io, str};

/// What a shelf keeps in its folder.
#[derive(Clone, Copy, Debug, PartialEq, Eq)]
pub enum ShelfKind {
    /// The values of parts, the one of NAME in `NAME.part`, which is written as `NAME.new`.
    Parts,
    /// Traces, the one of NAME in `NAME.trace`, which is written as `NAME.trace.new`.
    Traces,
}

impl ShelfKind {
    // The ending of a file, and the one that it has until it is whole.
    fn endings(self) -> (&'static str, &'static str) {
        match self {
            ShelfKind::Parts => ("part", "new"),
            ShelfKind::Traces => ("trace", "trace.new"),
        }
    }
}

/// A shelf that keeps what it has under NAME in the file `FOLDER/NAME.part`, or `FOLDER/NAME.trace`.
///
/// Nothing is known of what a folder holds, so no clause says that what was stored is loaded. A name's
/// bytes are in 33..=126, and none is `/`.
#[derive(Drop)]
pub struct DirShelf<R: Files + AllocGlobal> {
    rt: R,
    folder: String,
    kept: ShelfKind,
    failures: u64,
}

// Whether a name can be one of a file.
fn is_name(name: &[u8]) -> bool {
    name.iter()
        .all(|byte| matches!(byte, 33..=126) && *byte != b'/')
}

impl<R: Files + AllocGlobal + Drop> DirShelf<R> {
    /// A shelf of parts on this folder, which has to be there. It touches no file yet.
    pub fn new(rt: R, folder: &str) -> Result<DirShelf<R>, AllocError>
        ensures { IfOk result (λ shelf. shelf.failures ≡ 0) }
    {
        DirShelf::of(rt, folder, ShelfKind::Parts)
    }

    /// A shelf of parts or of traces on this folder, which has to be there. It touches no file yet.
    pub fn of(rt: R, folder: &str, kept: ShelfKind) -> Result<DirShelf<R>, AllocError>
        ensures { IfOk result (λ shelf. shelf.failures ≡ 0) }
    {
        let folder = String::from_str(rt.alloc(), folder)?;
        Ok(DirShelf {
            rt,
            folder,
            kept,
            failures: 0,
        })
    }
}

impl<R: Files + AllocGlobal> DirShelf<R> {
    // The path of a file in the folder, by its name and its ending.
    fn path(&self, name: &[u8], ending: &str) -> Result<String, HandFault> {
        if !is_name(name) {
            return Err(HandFault::Device);
        }
        let Ok(name) = str::from_utf8(name) else {
            return Err(HandFault::Device);
        };
        format!(in self.rt.alloc(); "{}/{name}.{ending}", self.folder).map_err(no_memory)
    }

    fn load_file(&self, alloc: Global, name: &[u8]) -> Result<Option<Vec<u8>>, HandFault> {
        let (ending, _) = self.kept.endings();
        let path = self.path(name, ending)?;
        let mut file = match File::open(&self.rt, path.as_str()) {
            Ok(file) => file,
            Err(error) => {
                if error.kind() == ErrorKind::NotFound {
                    return Ok(None);
                }
                return Err(fault_of(error));
            }
        };
        let mut bytes = Vec::new(alloc);
        file.read_to_end(&mut bytes).map_err(fault_of)?;
        Ok(Some(bytes))
    }

    // Writes the bytes beside what is there, and only when they lie on the disk puts them in its place. It answers when
    // the folder lies on the disk, too: before that, a loss of power can bring back what was there.
    fn store_file(&self, name: &[u8], bytes: &[u8]) -> Result<(), HandFault> {
        let (ending, fresh_ending) = self.kept.endings();
        let fresh = self.path(name, fresh_ending)?;
        let path = self.path(name, ending)?;
        let stored = match self.write_through(fresh.as_str(), bytes) {
            Ok(()) => fs::rename(&self.rt, fresh.as_str(), path.as_str()),
            Err(error) => Err(error),
        };
        match stored {
            Ok(()) => self.sync_folder().map_err(fault_of),
            Err(error) => {
                // Nobody reads what was begun, and the disk may be full.
                let _ = fs::remove_file(&self.rt, fresh.as_str());
                Err(fault_of(error))
            }
        }
    }

    // Writes a file, and returns when it lies on the disk.
    fn write_through(&self, path: &str, bytes: &[u8]) -> io::Result<()> {
        let mut file = File::create(&self.rt, path)?;
        file.write_all(bytes)?;
        file.sync_all()
    }

    // Returns when the names of the folder's files lie on the disk.
    fn sync_folder(&self) -> io::Result<()> {
        File::open(&self.rt, self.folder.as_str())?.sync_all()
    }
}

/// Each refusal of the system is `HandFault::Memory` where it wanted memory, and else `HandFault::Device`.
///
/// - Another name than the ones above fails by `Device`, and no file is touched.
/// - `load` answers `None` where the file is not there.
/// - `store` writes another file first (`ShelfKind`), has it go to the disk, renames it, and then has the folder go to the
///   disk. Where the write fails, what was there stays; where the renaming fails, either is there. The other file is
///   removed then. Where the folder does not go to the disk, the new bytes are there, and after a loss of power either.
impl<R: Files + AllocGlobal> Shelf for DirShelf<R> {
    // No clause can say what a folder holds.
    ghost holds = { λ s papers. ⊥ };

    ghost failed = { λ s. s.failures };

    fn load(&mut self, alloc: Global, name: &[u8]) -> Result<Option<Vec<u8>>, HandFault> {
        match self.load_file(alloc, name) {
            Ok(found) => Ok(found),
            Err(fault) => Err(count(&mut self.failures, fault)),
        }
    }

    fn store(&mut self, name: &[u8], bytes: &[u8]) -> Result<(), HandFault> {
        match self.store_file(name, bytes) {
            Ok(()) => Ok(()),
            Err(fault) => Err(count(&mut self.failures, fault)),
        }
    }

    fn failures(&self) -> u64 {
        self.failures
    }
}
