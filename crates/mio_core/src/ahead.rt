//! The files that stand ready for the next epochs of objects.
//!
//! `NAME.next` has bytes 0 alone, as many as the journal that goes on has, and `SPARE` more. It is written ahead, a piece
//! behind each round, as `NAME.next.new`, and renamed once all of it is on the disk: so its name says that it is whole.
//! `keep_loop::folder::FolderFile` uses it up. One object after the other gets its file.

ghost use Rattle.std.specs.Prelude.{◌≡◌, ◌≤◌, ◌<◌, length, take, IfSome};

use crate::own::OwnFiles;
use keep_loop::folder::{are_zeros, make_anew};
use std::fs::{self, File, OpenFile};
use std::io::{self, ErrorKind, Read, Seek, SeekFrom, Write};
use std::rt::Files;

// So many bytes are written at most behind a round.
const PIECE: usize = 262_144;

/// A file that stands ready has so many bytes more than the journal that goes on: the front of the next one may be longer.
pub const SPARE: u64 = 1_048_576;

// The file of one object.
#[derive(Drop)]
struct AheadRow {
    name: String,
    // It has so many bytes; 0 where it does not stand ready.
    has: u64,
    // It is to have so many at least.
    least: u64,
    // So many stand behind the front of the journal.
    room: u64,
}

/// The files that stand ready for the next epochs of objects, in a folder.
#[derive(Drop)]
pub struct Ahead<R: Files + AllocGlobal> {
    rt: R,
    folder: String,
    rows: Vec<AheadRow>,
    // A piece of bytes 0.
    zeros: Vec<u8>,
    // The file that is being made, where there is one: whose it is, and how many bytes it has for sure.
    file: Option<R::File>,
    at: usize,
    size: u64,
    // Nothing is tried before this second.
    later: u64,
}

// Whether an error is that there is no room for more bytes.
fn lacks_room(kind: ErrorKind) -> bool {
    kind == ErrorKind::StorageFull || kind == ErrorKind::QuotaExceeded
}

// Whether all that is still to be read of a file are bytes 0.
fn is_zeros<F: Read>(file: &mut F, piece: &mut Vec<u8>) -> io::Result<bool> {
    for _ in 0..u64::MAX {
        let got = file.read(piece.as_mut_slice())?.min(piece.len());
        if got == 0 {
            return Ok(true);
        }
        if !are_zeros(&piece[..got]) {
            return Ok(false);
        }
    }
    Ok(false)
}

fn write_at<F: Write + Seek>(file: &mut F, at: u64, bytes: &[u8]) -> io::Result<()> {
    file.seek(SeekFrom::Start(at))?;
    file.write_all(bytes)
}

// As many of these bytes as a file lacks that has so many and is to have so many.
fn lacking(zeros: &[u8], has: u64, wanted: u64) -> &[u8]
    ensures { length result.now ≤ length zeros.now }
{
    let lacks = usize::try_from(wanted.saturating_sub(has)).unwrap_or(usize::MAX);
    &zeros[..lacks.min(zeros.len())]
}

impl<R: Files + AllocGlobal + Copy + Drop> Ahead<R> {
    /// Of these objects, before their journals are begun: a file that stands ready is kept where it is a file of bytes 0
    /// alone, and else removed, and so is one that was not whole. `None`: memory was refused.
    pub fn look(rt: R, folder: &str, names: &[String]) -> Option<Ahead<R>> {
        let alloc = rt.alloc();
        let mut rows = Vec::new(alloc);
        for name in names {
            let row = AheadRow {
                name: String::from_str(alloc, name.as_str()).ok()?,
                has: 0,
                least: 0,
                room: 0,
            };
            rows.push(row).ok()?;
        }
        let mut ahead = Ahead {
            rt,
            folder: String::from_str(alloc, folder).ok()?,
            rows,
            zeros: vec![in alloc; 0u8; PIECE].ok()?,
            file: None,
            at: 0,
            size: 0,
            later: 0,
        };
        let mut piece = vec![in alloc; 0u8; PIECE].ok()?;
        for at in 0..names.len() {
            ahead.clear(at, &mut piece);
        }
        Some(ahead)
    }
}

impl<R: Files + AllocGlobal + Drop> Ahead<R> {
    // The path of a file of an object, with these letters behind its name.
    fn path(&self, at: usize, behind: &str) -> io::Result<String> {
        let Some(row) = self.rows.get(at) else {
            return Err(io::Error::from(ErrorKind::NotFound));
        };
        let folder = self.folder.as_str();
        let name = row.name.as_str();
        Ok(format!(in self.rt.alloc(); "{folder}/{name}{behind}")?)
    }

    // Removes a file of an object.
    fn remove(&self, at: usize, behind: &str) -> io::Result<()> {
        let path = self.path(at, behind)?;
        fs::remove_file(&self.rt, path.as_str())
    }

    // How many bytes a file of an object has, where it is one, and no link.
    fn bytes_of(&self, at: usize, behind: &str) -> io::Result<Option<u64>> {
        let path = self.path(at, behind)?;
        let found = fs::symlink_metadata(&self.rt, path.as_str())?;
        if !found.is_file() {
            return Ok(None);
        }
        Ok(Some(found.len()))
    }

    // Whether the file that stands ready is one of bytes 0 alone.
    fn is_whole(&self, at: usize, piece: &mut Vec<u8>) -> io::Result<bool> {
        if self.bytes_of(at, ".next")?.is_none() {
            return Ok(false);
        }
        let path = self.path(at, ".next")?;
        let mut file = File::open(&self.rt, path.as_str())?;
        is_zeros(&mut file, piece)
    }

    // Removes what was left of an earlier run and is of no use.
    fn clear(&self, at: usize, piece: &mut Vec<u8>) {
        let _removed = self.remove(at, ".next.new");
        match self.is_whole(at, piece) {
            Ok(true) => {}
            _ => {
                let _removed = self.remove(at, ".next");
            }
        }
    }

    /// The journal of an object has begun anew with a front of so many bytes, or it could not (`went` is false).
    pub fn changed(&mut self, at: usize, front: usize, went: bool) {
        let front = front as u64;
        let stands = match self.bytes_of(at, ".journal") {
            Ok(Some(bytes)) => bytes,
            _ => 0,
        };
        let has = match self.bytes_of(at, ".next") {
            Ok(Some(bytes)) => bytes,
            _ => 0,
        };
        let Some(row) = self.rows.get_mut(at) else {
            return;
        };
        row.has = has;
        if went {
            row.room = stands.saturating_sub(front);
            row.least = stands;
        } else {
            row.least = row.least.max(front.saturating_add(row.room));
        }
    }

    // Gives a file of an object another name.
    fn rename(&self, at: usize, behind: &str, new: &str) -> io::Result<()> {
        let from = self.path(at, behind)?;
        let to = self.path(at, new)?;
        fs::rename(&self.rt, from.as_str(), to.as_str())
    }

    /// What stands ready of an object is not to be used until it is put back. `false`: nothing does, or it stays.
    pub fn set_aside(&self, at: usize) -> bool {
        self.rename(at, ".next", ".next.new").is_ok()
    }

    /// It may be used again.
    pub fn put_back(&self, at: usize) {
        let _renamed = self.rename(at, ".next.new", ".next");
    }

    // The next object whose file does not stand ready, this one or one behind it, or before it.
    fn next_lacking(&self) -> Option<usize> {
        let count = self.rows.len();
        for step in 0..count {
            let at = self.at.saturating_add(step) % count;
            match self.rows.get(at) {
                Some(row) => {
                    if row.has < row.least {
                        return Some(at);
                    }
                }
                None => {}
            }
        }
        None
    }

    // Begins the file of an object.
    fn begin(&mut self, at: usize) -> io::Result<()> {
        self.at = at;
        self.size = 0;
        let _removed = self.remove(at, ".next");
        let path = self.path(at, ".next.new")?;
        self.file = Some(make_anew(&OwnFiles::new(&self.rt), path.as_str())?);
        Ok(())
    }

    // How many bytes the file has at least that is being made.
    fn least(&self) -> u64 {
        match self.rows.get(self.at) {
            Some(row) => row.least,
            None => 0,
        }
    }

    // Writes the next piece of the file that is being made. `true`: it has all that it is to have. It has that also where
    // there is no room for more than the least.
    fn write_more(&mut self) -> io::Result<bool> {
        let wanted = self.least().saturating_add(SPARE);
        let piece = lacking(&self.zeros, self.size, wanted);
        let Some(file) = &mut self.file else {
            return Ok(false);
        };
        match write_at(file, self.size, piece) {
            Ok(()) => {
                self.size = self.size.saturating_add(piece.len() as u64);
                Ok(self.size >= wanted)
            }
            Err(error) => {
                if self.size > 0 && self.size >= self.least() {
                    return Ok(true);
                }
                Err(error)
            }
        }
    }

    // Has the file go to the disk, and gives it its name.
    fn finish(&mut self) -> io::Result<()> {
        let Some(file) = self.file.take() else {
            return Ok(());
        };
        file.set_len(self.size)?;
        file.sync_all()?;
        self.rename(self.at, ".next.new", ".next")?;
        if let Some(row) = self.rows.get_mut(self.at) {
            row.has = self.size;
        }
        Ok(())
    }

    // Goes on with the file that is being made.
    fn make(&mut self) -> io::Result<()> {
        if self.write_more()? {
            self.finish()?;
        }
        Ok(())
    }

    // What could not be done is tried again a second later: the same piece, where there was no room for it, and else the
    // file of the next object.
    fn put_off(&mut self, kind: ErrorKind, second: u64) {
        self.later = second.saturating_add(1);
        if self.file.is_some() && lacks_room(kind) {
            return;
        }
        self.file = None;
        let _removed = self.remove(self.at, ".next.new");
        self.at = self.at.saturating_add(1) % self.rows.len().max(1);
    }

    /// Writes a piece of the next file that is to stand ready, if one is, and has it go to the disk behind the last piece.
    /// It is this second: what fails is tried again in the next one.
    pub fn go_on(&mut self, second: u64) {
        if second < self.later {
            return;
        }
        if self.file.is_none() {
            let Some(at) = self.next_lacking() else {
                return;
            };
            if let Err(error) = self.begin(at) {
                self.put_off(error.kind(), second);
                return;
            }
        }
        if let Err(error) = self.make() {
            self.put_off(error.kind(), second);
        }
    }
}
