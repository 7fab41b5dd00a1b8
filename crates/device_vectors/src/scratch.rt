//! A folder of a test's own, and what others do there.

use crate::shelf_calls::Bytes;
use std::fs::Permissions;
use std::os::unix::fs::PermissionsExt;
use std::rt::Files;
use std::{fs, io};

/// What someone does with a file, or what is said of it.
#[derive(Clone, Copy, Drop)]
pub enum Deed {
    /// It has these bytes.
    Has(Bytes),
    /// There is none.
    Lacks,
    /// It is written, in place of what was there.
    Write(Bytes),
    /// It is removed.
    Remove,
    /// A folder is made under its name.
    MakeFolder,
    /// The empty folder of its name is removed.
    RemoveFolder,
    /// Who may use it is changed.
    Mode(u32),
}

/// A folder that is there for one test, under a name that no other test has.
#[derive(Drop)]
pub struct Scratch<R: Files + AllocGlobal> {
    rt: R,
    folder: String,
}

// Does what someone does with the file of a path, or tells whether what is said of it is so.
fn is_done<R: Files + AllocGlobal>(rt: &R, path: &str, deed: Deed) -> bool {
    match deed {
        Deed::Has(want) => match fs::read(rt, path) {
            Ok(bytes) => bytes.as_slice() == want,
            Err(_) => false,
        },
        Deed::Lacks => match fs::exists(rt, path) {
            Ok(exists) => !exists,
            Err(_) => false,
        },
        Deed::Write(bytes) => fs::write(rt, path, bytes).is_ok(),
        Deed::Remove => fs::remove_file(rt, path).is_ok(),
        Deed::MakeFolder => fs::create_dir(rt, path).is_ok(),
        Deed::RemoveFolder => fs::remove_dir(rt, path).is_ok(),
        Deed::Mode(mode) => fs::set_permissions(rt, path, Permissions::from_mode(mode)).is_ok(),
    }
}

impl<R: Files + AllocGlobal + Copy + Drop> Scratch<R> {
    /// Makes the folder, of the process of this number and of this name. What an earlier process of this
    /// number left there is removed.
    pub fn new(rt: R, process: u32, name: &str) -> io::Result<Scratch<R>> {
        let folder = format!(in rt.alloc(); "/tmp/pathserve-{name}-{process}")?;
        let _ = fs::remove_dir_all(&rt, folder.as_str());
        fs::create_dir(&rt, folder.as_str())?;
        Ok(Scratch { rt, folder })
    }

    /// The path of a file in it.
    pub fn path(&self, name: &str) -> io::Result<String> {
        let path = format!(in self.rt.alloc(); "{}/{name}", self.folder)?;
        Ok(path)
    }

    /// Does what someone does with the file of this name in it, or tells whether what is said of it is so.
    pub fn does(&self, name: &str, deed: Deed) -> bool {
        match self.path(name) {
            Ok(path) => is_done(&self.rt, path.as_str(), deed),
            Err(_) => false,
        }
    }

    /// Removes it with all that it has.
    pub fn remove(self) -> io::Result<()> {
        fs::remove_dir_all(&self.rt, self.folder.as_str())
    }
}
