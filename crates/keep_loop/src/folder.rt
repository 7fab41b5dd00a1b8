//! A file in a folder. No clause can say what a folder holds, so nothing is known of it: that it does what `Device`
//! says is the premise of all that is proved of a journal on a disk.

ghost use Rattle.std.specs.Prelude.{◌≡◌, ◌<◌, ◌≤◌, None, length};
ghost use Rattle.keep_loop.specs.Device.{HasCause, Rises};
ghost use Rattle.keep_loop.specs.declared.device.DeviceError.TheVariants.{Failed, Full};

use crate::device::{Device, DeviceError};
use cause_core::cause::{Cause, cause_of};
use cause_core::fault::{FileFault, FileTask, push_fault};
use std::alloc::{AllocError, Global};
use std::fs::{File, OpenFile, OpenOptions};
use std::io::{ErrorKind, Read, Seek, SeekFrom, Write};
use std::rt::Files;
use std::{fs, io};

/// The file `FOLDER/NAME.journal`, which need not be there yet. Its replacement is `FOLDER/NAME.next` with other bytes, which
/// is called `FOLDER/NAME.journal.new` before the first of them is written; where no such file stands ready it is made by
/// that name. Then it is renamed. Where it cannot be written whole, it is removed.
#[derive(Drop)]
pub struct FolderFile<R: Files + AllocGlobal> {
    rt: R,
    folder: String,
    path: String,
    fresh: String,
    // A file of bytes 0, where there is one.
    ready: String,
    file: Option<R::File>,
    faults: u64,
    // What could not be done last.
    failed: PlaceFault,
    // How often it was to be replaced.
    tries: u64,
}

// The files of a journal, and their folder.
#[derive(Clone, Copy)]
enum FolderPlace {
    Journal,
    Fresh,
    Folder,
}

// What could not be done with one of them, and why.
#[derive(Clone, Copy)]
struct PlaceFault {
    place: FolderPlace,
    fault: FileFault,
}

// What came of a call of the system for one of them.
fn done<T: Drop>(came: io::Result<T>, place: FolderPlace, task: FileTask) -> Result<T, PlaceFault> {
    match came {
        Ok(made) => Ok(made),
        Err(error) => Err(PlaceFault {
            place,
            fault: FileFault {
                task,
                cause: cause_of(&error),
            },
        }),
    }
}

// So many bytes are looked at at once.
const PIECE: usize = 4_096;

// The fault for such a cause: a want of memory, or one of the disk, which is counted.
fn count(faults: &mut u64, cause: Cause) -> DeviceError
    ensures later { faults.old ≤ faults.new }
    ensures rises { result ≡ Failed → Rises faults.old faults.new }
    ensures not_full { result ≡ Full → ⊥ }
{
    if cause == Cause::NoMemory {
        return DeviceError::Memory;
    }
    *faults = faults.saturating_add(1);
    DeviceError::Failed
}

// A file that is there, to be read and written.
fn open_there<R: Files>(rt: &R, path: &str) -> io::Result<R::File> {
    OpenOptions::new().read(true).write(true).open(rt, path)
}

// A file that is there, to be read and written, or none where nothing has that name in its folder. A link to nothing is an
// error.
fn open_found<R: Files>(rt: &R, folder: &str, path: &str) -> io::Result<Option<R::File>> {
    match open_there(rt, path) {
        Ok(file) => Ok(Some(file)),
        Err(error) => {
            if error.kind() != ErrorKind::NotFound || fs::symlink_metadata(rt, path).is_ok() {
                return Err(error);
            }
            fs::metadata(rt, folder)?;
            Ok(None)
        }
    }
}

// Removes what has a name, where anything has it.
fn remove<R: Files>(rt: &R, path: &str) -> io::Result<()> {
    match fs::remove_file(rt, path) {
        Ok(()) => Ok(()),
        Err(error) => {
            if error.kind() == ErrorKind::NotFound {
                return Ok(());
            }
            Err(error)
        }
    }
}

/// A new file of this name, empty, to be read and written. What had the name is removed, and a link is not followed. The
/// error is that of the system.
pub fn make_anew<R: Files>(rt: &R, path: &str) -> io::Result<R::File> {
    remove(rt, path)?;
    OpenOptions::new()
        .read(true)
        .write(true)
        .create_new(true)
        .open(rt, path)
}

/// Whether each of these bytes is 0.
pub fn are_zeros(bytes: &[u8]) -> bool {
    let (words, rest) = bytes.as_chunks::<8>();
    let mut all: u64 = 0;
    for word in words {
        all |= u64::from_ne_bytes(*word);
    }
    for byte in rest {
        all |= u64::from(*byte);
    }
    all == 0
}

// How many bytes these are without pieces at their end in which each is 0.
fn front_len(bytes: &[u8]) -> usize
    ensures { result ≤ length bytes.now }
{
    let mut size = bytes.len();
    while size >= PIECE {
        if !are_zeros(&bytes[size - PIECE..size]) {
            return size;
        }
        size -= PIECE;
    }
    size
}

fn read_all<F: Read + Seek>(file: &mut F, alloc: Global) -> io::Result<Vec<u8>> {
    file.seek(SeekFrom::Start(0))?;
    let mut bytes = Vec::new(alloc);
    file.read_to_end(&mut bytes)?;
    Ok(bytes)
}

fn write_all_at<F: Write + Seek>(file: &mut F, at: u64, bytes: &[u8]) -> io::Result<()> {
    file.seek(SeekFrom::Start(at))?;
    file.write_all(bytes)
}

// Writes to a file, which has to be there.
fn write_in<F: Write + Seek>(file: &mut Option<F>, at: u64, bytes: &[u8]) -> io::Result<()> {
    match file {
        Some(file) => write_all_at(file, at, bytes),
        None => Err(io::Error::from(ErrorKind::NotFound)),
    }
}

// Has a file go to the disk, which has to be there.
fn sync_in<F: OpenFile>(file: &Option<F>) -> io::Result<()> {
    match file {
        Some(file) => file.sync_data(),
        None => Err(io::Error::from(ErrorKind::NotFound)),
    }
}

// Puts these bytes in place of those of a file that has so many of them, each of which is 0.
fn fill<F: Write + Seek + OpenFile>(file: &mut F, has: u64, bytes: &[u8]) -> io::Result<()> {
    let has = usize::try_from(has).unwrap_or(usize::MAX);
    if has > bytes.len() {
        file.set_len(bytes.len() as u64)?;
    }
    let front = front_len(bytes);
    write_all_at(file, 0, &bytes[..front])?;
    let lacks = front.max(has);
    if lacks < bytes.len() {
        write_all_at(file, lacks as u64, &bytes[lacks..])?;
    }
    Ok(())
}

impl<R: Files + AllocGlobal + Drop> FolderFile<R> {
    /// The file of this name, or what stands for it where it is not there yet; nothing is made. An `Err` is that of the
    /// system, also where the name is a link to nothing, or a want of memory.
    pub fn open(rt: R, folder: &str, name: &str) -> io::Result<FolderFile<R>> {
        let folder = String::from_str(rt.alloc(), folder)?;
        let path = format!(in rt.alloc(); "{folder}/{name}.journal")?;
        let fresh = format!(in rt.alloc(); "{folder}/{name}.journal.new")?;
        let ready = format!(in rt.alloc(); "{folder}/{name}.next")?;
        let file = open_found(&rt, folder.as_str(), path.as_str())?;
        Ok(FolderFile {
            rt,
            folder,
            path,
            fresh,
            ready,
            file,
            faults: 0,
            failed: PlaceFault {
                place: FolderPlace::Journal,
                fault: FileFault {
                    task: FileTask::Write,
                    cause: Cause::Unknown,
                },
            },
            tries: 0,
        })
    }
}

impl<R: Files + AllocGlobal> FolderFile<R> {
    /// Why the last call failed that did, or the file could not be replaced; `Unknown` where none did.
    pub fn cause(&self) -> Cause {
        self.failed.fault.cause
    }

    /// How often the file was to be replaced.
    pub fn tries(&self) -> u64 {
        self.tries
    }

    // The path of one of its files, or of the folder.
    fn path_of(&self, place: FolderPlace) -> &str {
        match place {
            FolderPlace::Journal => self.path.as_str(),
            FolderPlace::Fresh => self.fresh.as_str(),
            FolderPlace::Folder => self.folder.as_str(),
        }
    }

    /// Adds the line that tells what could not be done last, with which file, and why. The error is that memory was refused.
    pub fn push_failed(&self, out: &mut Vec<u8>) -> Result<(), AllocError> {
        let path = self.path_of(self.failed.place);
        push_fault(out, path.as_bytes(), self.failed.fault)
    }

    // The file that stands ready, with these bytes, all of them on the disk. Before the first one is written it loses its
    // name: what has that name has bytes 0 alone.
    fn fill_ready(&self, bytes: &[u8]) -> io::Result<R::File> {
        let found = fs::symlink_metadata(&self.rt, self.ready.as_str())?;
        if !found.is_file() {
            return Err(io::Error::from(ErrorKind::NotFound));
        }
        fs::rename(&self.rt, self.ready.as_str(), self.fresh.as_str())?;
        let mut file = open_there(&self.rt, self.fresh.as_str())?;
        fill(&mut file, found.len(), bytes)?;
        file.sync_all()?;
        Ok(file)
    }

    // Another file with these bytes, beside it, all of them on the disk.
    fn write_fresh(&self, bytes: &[u8]) -> Result<R::File, PlaceFault> {
        let made = make_anew(&self.rt, self.fresh.as_str());
        let mut file = done(made, FolderPlace::Fresh, FileTask::Make)?;
        done(file.write_all(bytes), FolderPlace::Fresh, FileTask::Write)?;
        done(file.sync_all(), FolderPlace::Fresh, FileTask::Store)?;
        Ok(file)
    }

    // The same: the one that stands ready, or a new one. What was written of one that failed takes no room then.
    fn fresh_of(&self, bytes: &[u8]) -> Result<R::File, PlaceFault> {
        if let Ok(file) = self.fill_ready(bytes) {
            return Ok(file);
        }
        match self.write_fresh(bytes) {
            Ok(file) => Ok(file),
            Err(failed) => {
                let _removed = fs::remove_file(&self.rt, self.fresh.as_str());
                Err(failed)
            }
        }
    }

    // The name of the other file becomes that of this one. Where it could not, no other file is left.
    fn rename(&self) -> Result<(), PlaceFault> {
        let renamed = fs::rename(&self.rt, self.fresh.as_str(), self.path.as_str());
        if renamed.is_err() {
            let _removed = fs::remove_file(&self.rt, self.fresh.as_str());
        }
        done(renamed, FolderPlace::Fresh, FileTask::Rename)
    }

    // The names of the folder go to the disk.
    fn sync_folder(&self) -> io::Result<()> {
        File::open(&self.rt, self.folder.as_str())?.sync_all()
    }

    // The other file takes the place of this one, and the folder goes to the disk. After an error nobody knows which of
    // them stands there: a folder on another machine may say that a renaming failed which was done.
    fn put(&mut self, file: R::File) -> Result<(), PlaceFault>
        ensures { self.new.faults ≡ self.old.faults }
    {
        self.rename()?;
        self.file = Some(file);
        done(
            self.sync_folder(),
            FolderPlace::Folder,
            FileTask::StoreFolder,
        )
    }

    // The fault of what could not be done, which is noted.
    fn fault(&mut self, failed: PlaceFault) -> DeviceError
        ensures later { self.old.faults ≤ self.new.faults }
        ensures rises { result ≡ Failed → Rises self.old.faults self.new.faults }
        ensures not_full { result ≡ Full → ⊥ }
    {
        self.failed = failed;
        count(&mut self.faults, failed.fault.cause)
    }

    // What came of a call of the system for the journal. What could not be done is noted.
    fn came<T: Drop>(&mut self, came: io::Result<T>, task: FileTask) -> Result<T, DeviceError>
        ensures cause { HasCause self.old.faults self.new.faults result }
    {
        match done(came, FolderPlace::Journal, task) {
            Ok(made) => Ok(made),
            Err(failed) => Err(self.fault(failed)),
        }
    }
}

impl<R: Files + AllocGlobal> Device for FolderFile<R> {
    ghost seen = { λ f. None };

    ghost may_leave = { λ f c. ⊥ };

    ghost moment = { λ f. 0 };

    ghost left_since = { λ f t c. ⊥ };

    ghost faults = { λ f. f.faults };

    ghost counts_now = { λ f t c le now. now };

    ghost only_now = { λ f c left. left };

    fn read(&mut self, alloc: Global) -> Result<Vec<u8>, DeviceError> {
        let Some(file) = &mut self.file else {
            return Ok(Vec::new(alloc));
        };
        let came = read_all(file, alloc);
        self.came(came, FileTask::Read)
    }

    fn write_at(&mut self, at: usize, bytes: &[u8]) -> Result<(), DeviceError> {
        let came = write_in(&mut self.file, at as u64, bytes);
        self.came(came, FileTask::Write)
    }

    fn sync(&mut self) -> Result<(), DeviceError> {
        let came = sync_in(&self.file);
        self.came(came, FileTask::Store)
    }

    fn replace(&mut self, bytes: &[u8]) -> Result<bool, DeviceError> {
        self.tries = self.tries.saturating_add(1);
        let file = match self.fresh_of(bytes) {
            Ok(file) => file,
            Err(failed) => {
                self.failed = failed;
                return Ok(false);
            }
        };
        match self.put(file) {
            Ok(()) => Ok(true),
            Err(failed) => Err(self.fault(failed)),
        }
    }
}
