//! The file of a status.

ghost use Rattle.std.specs.Prelude.{◌≡◌, IfErr};
ghost use Rattle.std.specs.IoError.{error_kind};
ghost use Rattle.std.specs.declared.io.ErrorKind.TheVariants.{OutOfMemory};

use crate::framed::{before_up, push_framed, room_for};
use crate::unread::tell_fault;
use cause_core::cause::{Cause, cause_of};
use cause_core::fault::{FileFault, FileTask};
use keep_log::log::Log;
use keep_log::sink::Sink;
use keep_loop::folder::make_anew;
use mio_core::own::OwnFiles;
use std::fs::{self, File, OpenOptions};
use std::io::{self, ErrorKind, Read, Seek, SeekFrom, Write};
use std::time::{Clock, SystemTime};

// A page of memory has so many bytes.
const PAGE: u64 = 4_096;

/// `DIR/status.prom`, which is its owner's alone. It is written as `DIR/status.prom.new`, which is then renamed; where that
/// cannot be, as on a full disk, the file that stands is written over, in the bytes that it has. It need not be on the disk.
#[derive(Drop)]
pub struct StatusFile<E: Write> {
    rt: HostRuntime,
    path: String,
    fresh: String,
    log: Log<HostRuntime, E>,
    // What stands in it before the number that tells whether the server is there.
    before: Vec<u8>,
    // What it is to have, as it is made.
    framed: Vec<u8>,
    // The file that stands, where it is known, and how many bytes it has.
    file: Option<File>,
    size: usize,
    // Whether it was said that it cannot be written.
    has_told: bool,
}

// The file of this path, to be written over, and how many bytes it has. A link is not followed.
fn standing(rt: &HostRuntime, path: &str) -> io::Result<(File, usize)> {
    if !fs::symlink_metadata(rt, path)?.is_file() {
        return Err(io::Error::from(ErrorKind::NotFound));
    }
    let file = OpenOptions::new()
        .read(true)
        .write(true)
        .open(&OwnFiles::new(*rt), path)?;
    let size = file.metadata()?.len();
    Ok((file, usize::try_from(size).unwrap_or(0)))
}

// Writes over what a file has from a place on.
fn write_at(file: &File, at: u64, bytes: &[u8]) -> io::Result<()> {
    let mut file = file;
    file.seek(SeekFrom::Start(at))?;
    file.write_all(bytes)
}

/// The time, in seconds since the beginning of 1970; 0 where the clock fails.
pub fn seconds_now(rt: &HostRuntime) -> u64 {
    match SystemTime::now(rt) {
        Ok(time) => match time.duration_since(SystemTime::UNIX_EPOCH) {
            Ok(since) => since.as_secs(),
            Err(_) => 0,
        },
        Err(_) => 0,
    }
}

// The second one of the numbers that a text begins with; 0 where there is none.
fn second_number(text: &[u8]) -> u64 {
    let mut number: u64 = 0;
    let mut behind = false;
    for at in 0..text.len() {
        match text[at].checked_sub(b'0') {
            Some(digit) if digit < 10 => {
                if behind {
                    number = number.saturating_mul(10).saturating_add(u64::from(digit));
                }
            }
            _ => {
                if behind {
                    return number;
                }
                behind = true;
            }
        }
    }
    number
}

// How many pages of memory the system gave the server.
fn pages(rt: &HostRuntime) -> io::Result<u64> {
    let mut piece = [0; 256];
    let n = File::open(rt, "/proc/self/statm")?.read(&mut piece)?;
    Ok(second_number(&piece[..n.min(256)]))
}

impl<E: Write + Drop> StatusFile<E> {
    /// The file of a status in this folder. The log is told, once, where it cannot be written. The error is that memory was
    /// refused.
    pub fn new(
        rt: &HostRuntime,
        folder: &str,
        log: Log<HostRuntime, E>,
    ) -> io::Result<StatusFile<E>>
        ensures { IfErr result (λ error. error_kind error ≡ OutOfMemory) }
    {
        Ok(StatusFile {
            rt: *rt,
            path: format!(in rt.alloc(); "{folder}/status.prom")?,
            fresh: format!(in rt.alloc(); "{folder}/status.prom.new")?,
            log,
            before: before_up(rt.alloc(), folder.as_bytes())?,
            framed: Vec::new(rt.alloc()),
            file: None,
            size: 0,
            has_told: false,
        })
    }

    // Makes what a file of this length is to have. The error is that memory was refused.
    fn frame(&mut self, text: &[u8], size: usize) -> io::Result<()> {
        self.framed.clear();
        push_framed(&mut self.framed, &self.before, text, size)?;
        Ok(())
    }

    // Writes another file, which then takes the place of the one before. No link is followed.
    fn write_anew(&mut self, text: &[u8]) -> io::Result<()> {
        let length = self
            .before
            .len()
            .saturating_add(2)
            .saturating_add(text.len());
        let size = room_for(self.size, length);
        self.frame(text, size)?;
        let fresh = self.fresh.as_str();
        let mut file = make_anew(&OwnFiles::new(self.rt), fresh)?;
        file.write_all(&self.framed)?;
        fs::rename(&self.rt, fresh, self.path.as_str())?;
        self.file = Some(file);
        self.size = size;
        Ok(())
    }

    // Looks for the file that stands, where it is not known yet.
    fn find(&mut self) -> io::Result<()> {
        if self.file.is_none() {
            let (file, size) = standing(&self.rt, self.path.as_str())?;
            self.file = Some(file);
            self.size = size;
        }
        Ok(())
    }

    // Writes over the file that stands, in the bytes that it has. The error is also that it is too short.
    fn write_over(&mut self, text: &[u8]) -> io::Result<()> {
        self.find()?;
        self.frame(text, self.size)?;
        if self.framed.len() > self.size {
            return Err(io::Error::from(ErrorKind::StorageFull));
        }
        match &self.file {
            Some(file) => write_at(file, 0, &self.framed),
            None => Err(io::Error::from(ErrorKind::NotFound)),
        }
    }

    // Writes it, as another file or over the one that stands. The error is that of the first.
    fn write(&mut self, text: &[u8]) -> io::Result<()> {
        let Err(error) = self.write_anew(text) else {
            return Ok(());
        };
        let _ = fs::remove_file(&self.rt, self.fresh.as_str());
        match self.write_over(text) {
            Ok(()) => Ok(()),
            Err(_) => Err(error),
        }
    }

    // Says that it cannot be written, and why.
    fn tell(&mut self, cause: Cause) {
        if self.log.is_on() {
            self.log.no_status(self.path.as_bytes(), cause);
            return;
        }
        let fault = FileFault {
            task: FileTask::Write,
            cause,
        };
        tell_fault(&self.rt, self.path.as_str(), fault);
    }

    /// The server has ended: the file tells that, and stays.
    pub fn end(&self) {
        if let Some(file) = &self.file {
            let _ = write_at(file, self.before.len() as u64, b"0");
        }
    }
}

impl<E: Write + Drop> Sink for StatusFile<E> {
    fn now(&mut self) -> u64 {
        seconds_now(&self.rt)
    }

    fn nanos(&mut self) -> u64 {
        match self.rt.monotonic() {
            Ok(time) => u64::try_from(time.as_nanos()).unwrap_or(u64::MAX),
            Err(_) => 0,
        }
    }

    fn memory(&mut self) -> u64 {
        match pages(&self.rt) {
            Ok(pages) => pages.saturating_mul(PAGE),
            Err(_) => 0,
        }
    }

    fn put(&mut self, text: &[u8]) {
        let Err(error) = self.write(text) else {
            self.has_told = false;
            return;
        };
        if !self.has_told {
            self.has_told = true;
            self.tell(cause_of(&error));
        }
    }
}
