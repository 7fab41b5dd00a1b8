//! The files of epochs that have ended: `NAME.000001.trace` and so on, by the number of the epoch.

use crate::others::tells_same;
use cause_core::cause::Cause;
use std::fs::{self, OpenFile, OpenOptions};
use std::io::{self, ErrorKind};
use std::rt::Files;

// So many files are removed at most, at a start and where an epoch ends.
const MOST_AT_START: u32 = 1_000_000;

const MOST_AT_END: u32 = 64;

// What is known of the files of one object.
#[derive(Drop)]
struct TraceRow {
    name: String,
    // The number of the oldest file, and one more than that of the newest; both are 0 where there is none.
    oldest: u64,
    behind: u64,
    // Their bytes.
    bytes: u64,
    // Whether no new epoch could be written, which was told, and for what cause.
    kept: Option<Cause>,
}

/// The files of the ended epochs of objects, in a folder. What fails with them changes nothing else: standard error is told
/// the first time.
#[derive(Drop)]
pub struct Traces<R: Files + AllocGlobal> {
    rt: R,
    folder: String,
    // The most bytes of all of them.
    most: u64,
    rows: Vec<TraceRow>,
    told: bool,
}

// The number that these digits spell, if they spell one as the name of a file does: with six digits at least, and no more
// than it needs.
fn number_of(digits: &[u8]) -> Option<u64> {
    if digits.len() < 6 || (digits.len() > 6 && digits[0] == b'0') {
        return None;
    }
    let mut number: u64 = 0;
    for at in 0..digits.len() {
        let digit = digits[at].checked_sub(b'0')?;
        if digit > 9 {
            return None;
        }
        number = number.checked_mul(10)?.checked_add(u64::from(digit))?;
    }
    Some(number)
}

// The number of the epoch of which this is the name of the file, if it is one of this object.
pub(crate) fn epoch_in(file: &[u8], object: &[u8]) -> Option<u64> {
    let digits = file
        .strip_prefix(object)?
        .strip_prefix(b".".as_slice())?
        .strip_suffix(b".trace".as_slice())?;
    number_of(digits)
}

/// The number of the epoch of which these are the lines: the first line ends with it. `None`: there is no line.
pub fn epoch_of(lines: &[u8]) -> Option<u64> {
    let mut number: u64 = 0;
    for at in 0..lines.len() {
        let byte = lines[at];
        if byte == b'\n' {
            return Some(number);
        }
        number = match byte.checked_sub(b'0') {
            Some(digit) if digit < 10 => number.saturating_mul(10).saturating_add(u64::from(digit)),
            _ => 0,
        };
    }
    None
}

impl TraceRow {
    // One file more.
    fn count(&mut self, number: u64, bytes: u64) {
        if self.behind == 0 {
            self.oldest = number;
        }
        self.oldest = self.oldest.min(number);
        self.behind = self.behind.max(number.saturating_add(1));
        self.bytes = self.bytes.saturating_add(bytes);
    }

    // The oldest file is gone, of so many bytes.
    fn drop_oldest(&mut self, bytes: u64) {
        self.oldest = self.oldest.saturating_add(1);
        self.bytes = self.bytes.saturating_sub(bytes);
        if self.oldest >= self.behind {
            self.bytes = 0;
        }
    }
}

impl<R: Files + AllocGlobal + Copy + Eprint + Drop> Traces<R> {
    /// The files of the ended epochs of these objects. They have so many bytes at most, all together: where they have more,
    /// the oldest are removed. `None`: memory was refused.
    pub fn look(rt: R, folder: &str, names: &[String], most: u64) -> Option<Traces<R>> {
        let alloc = rt.alloc();
        let mut rows = Vec::new(alloc);
        for name in names {
            let row = TraceRow {
                name: String::from_str(alloc, name.as_str()).ok()?,
                oldest: 0,
                behind: 0,
                bytes: 0,
                kept: None,
            };
            rows.push(row).ok()?;
        }
        let mut traces = Traces {
            rt,
            folder: String::from_str(alloc, folder).ok()?,
            most,
            rows,
            told: false,
        };
        if traces.list().is_err() {
            traces.tell("the files of ended epochs cannot be listed");
        }
        traces.trim(MOST_AT_START);
        Some(traces)
    }

    // Counts the files that are there.
    fn list(&mut self) -> io::Result<()> {
        let rt = self.rt;
        for entry in fs::read_dir(&rt, self.folder.as_str())? {
            let entry = entry?;
            let file = entry.file_name().as_bytes();
            if file.ends_with(b".trace".as_slice()) {
                self.count(file, entry.metadata()?.len());
            }
        }
        Ok(())
    }

    // Counts a file of so many bytes, where it is one of an epoch.
    fn count(&mut self, file: &[u8], bytes: u64) {
        for at in 0..self.rows.len() {
            if let Some(row) = self.rows.get_mut(at) {
                if let Some(number) = epoch_in(file, row.name.as_bytes()) {
                    row.count(number, bytes);
                }
            }
        }
    }
}

impl<R: Files + AllocGlobal + Eprint + Drop> Traces<R> {
    // Tells standard error what failed, the first time.
    fn tell(&mut self, said: &str) {
        if self.told {
            return;
        }
        self.told = true;
        let folder = self.folder.as_str();
        let _ = eprint!(self.rt; "{folder}: {said}\n");
    }

    // The path of the file of an epoch.
    fn path(&self, at: usize, epoch: u64) -> io::Result<String> {
        let Some(row) = self.rows.get(at) else {
            return Err(io::Error::from(ErrorKind::NotFound));
        };
        let folder = self.folder.as_str();
        let name = row.name.as_str();
        Ok(format!(in self.rt.alloc(); "{folder}/{name}.{epoch:06}.trace")?)
    }

    // The path of the journal.
    fn journal(&self, at: usize) -> io::Result<String> {
        let Some(row) = self.rows.get(at) else {
            return Err(io::Error::from(ErrorKind::NotFound));
        };
        let folder = self.folder.as_str();
        let name = row.name.as_str();
        Ok(format!(in self.rt.alloc(); "{folder}/{name}.journal")?)
    }

    // How many bytes the file at a path has; 0 where that is not known.
    fn bytes_at(&self, path: &str) -> u64 {
        match fs::metadata(&self.rt, path) {
            Ok(found) => found.len(),
            Err(_) => 0,
        }
    }

    // Removes the file at a path, where it is there.
    fn remove(&self, path: &str) -> io::Result<()> {
        match fs::remove_file(&self.rt, path) {
            Ok(()) => Ok(()),
            Err(error) => {
                if error.kind() == ErrorKind::NotFound {
                    return Ok(());
                }
                Err(error)
            }
        }
    }

    // Gives the journal a second name. What has that name stays: where it tells the same, a crash has left it, and else it
    // is of another history.
    fn try_link(&mut self, at: usize, epoch: u64) -> io::Result<()> {
        let journal = self.journal(at)?;
        let path = self.path(at, epoch)?;
        let Err(error) = fs::hard_link(&self.rt, journal.as_str(), path.as_str()) else {
            return Ok(());
        };
        if error.kind() != ErrorKind::AlreadyExists
            || !tells_same(&self.rt, path.as_str(), journal.as_str())?
        {
            return Err(error);
        }
        // It was counted, and will be again.
        let bytes = self.bytes_at(path.as_str());
        if let Some(row) = self.rows.get_mut(at) {
            row.bytes = row.bytes.saturating_sub(bytes);
        }
        Ok(())
    }

    /// The journal of an object will be begun anew, and this epoch ends: the file of its lines gets a name that stays.
    /// False: it gets none.
    pub fn link(&mut self, at: usize, epoch: u64) -> bool {
        match self.try_link(at, epoch) {
            Ok(()) => true,
            Err(_) => {
                self.tell("an epoch that ends cannot be kept");
                false
            }
        }
    }

    /// The epoch goes on: its file has the name of the journal alone.
    pub fn unlink(&mut self, at: usize, epoch: u64) {
        let removed = match self.path(at, epoch) {
            Ok(path) => self.remove(path.as_str()),
            Err(error) => Err(error),
        };
        if removed.is_err() {
            self.tell("the file of an epoch that goes on cannot be removed");
        }
    }

    // Cuts the file of an epoch to its lines, and has it go to the disk.
    fn cut(&self, at: usize, epoch: u64, size: u64) -> io::Result<()> {
        let path = self.path(at, epoch)?;
        let file = OpenOptions::new()
            .write(true)
            .open(&self.rt, path.as_str())?;
        file.set_len(size)?;
        file.sync_all()
    }

    /// An epoch has ended of which the file has a name that stays: it is cut to its lines, which have so many bytes. Where
    /// the files of all ended epochs have more bytes than they may, the oldest are removed.
    pub fn ended(&mut self, at: usize, epoch: u64, size: u64) {
        if self.cut(at, epoch, size).is_err() {
            self.tell("an epoch that has ended cannot be cut to its lines");
        }
        if let Some(row) = self.rows.get_mut(at) {
            row.count(epoch, size);
        }
        self.trim(MOST_AT_END);
    }

    // How many bytes the files have.
    fn bytes(&self) -> u64 {
        let mut bytes: u64 = 0;
        for row in &self.rows {
            bytes = bytes.saturating_add(row.bytes);
        }
        bytes
    }

    // The object whose files have the most bytes.
    fn fullest(&self) -> usize {
        let mut found = 0;
        let mut most = 0;
        for at in 0..self.rows.len() {
            if self.rows[at].bytes > most {
                found = at;
                most = self.rows[at].bytes;
            }
        }
        found
    }

    // Removes files, so many at most, until no more bytes are there than may be: of the object whose files have the most
    // bytes the oldest.
    fn trim(&mut self, tries: u32) {
        for _ in 0..tries {
            if self.bytes() <= self.most {
                return;
            }
            let at = self.fullest();
            self.remove_oldest(at);
        }
    }

    // Removes the oldest file of an object. One that cannot be removed is not tried again.
    fn remove_oldest(&mut self, at: usize) {
        let Some(row) = self.rows.get(at) else {
            return;
        };
        let epoch = row.oldest;
        let Ok(path) = self.path(at, epoch) else {
            return;
        };
        let bytes = self.bytes_at(path.as_str());
        if self.remove(path.as_str()).is_err() {
            self.tell("the file of an ended epoch cannot be removed");
        }
        if let Some(row) = self.rows.get_mut(at) {
            row.drop_oldest(bytes);
        }
    }

    /// A new epoch of an object has begun.
    pub fn note_begun(&mut self, at: usize) {
        if let Some(row) = self.rows.get_mut(at) {
            row.kept = None;
        }
    }

    /// Tells standard error that the epoch of an object goes on, since no new one could be written, and why, in a line, if
    /// that is known. It is told once, until one begins or the cause is another one.
    pub fn tell_kept(&mut self, at: usize, cause: Cause, why: &str) {
        let Some(row) = self.rows.get_mut(at) else {
            return;
        };
        if row.kept == Some(cause) {
            return;
        }
        row.kept = Some(cause);
        let name = row.name.as_str();
        if why.is_empty() {
            let _ = eprint!(self.rt;
                "{name}: no new epoch could be written, the old one goes on\n"
            );
            return;
        }
        let _ = eprint!(self.rt;
            "{name}: no new epoch could be written, the old one goes on: {why}"
        );
    }

    /// Tells standard error that the journal of an object cannot be written, for a cause that is not known.
    pub(crate) fn tell_shut(&self, at: usize) {
        if let Ok(path) = self.journal(at) {
            let path = path.as_str();
            let _ = eprint!(self.rt; "{path}: this file cannot be written\n");
        }
    }
}
