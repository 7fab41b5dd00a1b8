//! Readers and writers: some give and take so many bytes, others wait for what was written.

use session_core::serve::Connection;
use std::alloc::Global;
use std::io;
use std::io::{Read, Write};
use std::process::Abort;
use std::sync::Arc;
use std::sync::atomic::{AtomicU64, Ordering};

/// A reader that gives so many bytes a read, and fails at the end or not.
#[derive(Drop)]
pub struct Pieces<'a> {
    pub rest: &'a [u8],
    pub step: usize,
    pub fails: bool,
}

impl Read for Pieces<'_> {
    fn read(&mut self, buf: &mut [u8]) -> io::Result<usize> {
        if self.rest.is_empty() && self.fails {
            return Err(io::Error::from(io::ErrorKind::Other));
        }
        let len = self.rest.len().min(buf.len()).min(self.step);
        buf[..len].copy_from_slice(&self.rest[..len]);
        self.rest = &self.rest[len..];
        Ok(len)
    }
}

/// A writer that takes so many bytes, and then fails, or takes no more.
#[derive(Drop)]
pub struct LimitedWriter {
    pub bytes: Vec<u8>,
    pub left: usize,
    pub fails: bool,
}

impl Write for LimitedWriter {
    fn write(&mut self, buf: &[u8]) -> io::Result<usize> {
        let len = buf.len().min(self.left);
        if len == 0 && self.fails {
            return Err(io::Error::from(io::ErrorKind::BrokenPipe));
        }
        if len == 0 || self.bytes.extend_from_slice(&buf[..len]).is_err() {
            return Ok(0);
        }
        self.left -= len;
        Ok(len)
    }

    fn flush(&mut self) -> io::Result<()> {
        Ok(())
    }
}

/// How the two sides of a connection behave: so many bytes a read, and a writer that takes so many bytes. At their end
/// both fail, or there is no more.
#[derive(Clone, Copy)]
pub struct Streams {
    pub step: usize,
    pub takes: usize,
    pub fails: bool,
}

impl Streams {
    /// Streams without a fault, so many bytes a read, whose writer takes what the tests write.
    pub fn whole(step: usize) -> Streams {
        Streams {
            step,
            takes: 4096,
            fails: false,
        }
    }
}

/// A connection over which these lines are read.
pub fn connected<'a>(
    alloc: Global,
    lines: &'a [u8],
    streams: Streams,
) -> Connection<Pieces<'a>, LimitedWriter> {
    let Streams { step, takes, fails } = streams;
    let reader = Pieces {
        rest: lines,
        step,
        fails,
    };
    let writer = LimitedWriter {
        bytes: Vec::new(alloc),
        left: takes,
        fails,
    };
    Connection { reader, writer }
}

// After so many turns nobody comes any more.
const MOST_TURNS: u64 = 20_000_000_000;

/// Turns until so many lines were written, or nobody comes any more.
pub fn await_lines(written: &AtomicU64, count: u64) {
    await_within(written, count, MOST_TURNS);
}

/// Takes so many turns at most until so many lines were written.
pub fn await_within(written: &AtomicU64, count: u64, turns: u64) {
    for _ in 0..turns {
        if written.load(Ordering::SeqCst) >= count {
            break;
        }
    }
}

/// A counter at 0.
pub fn counter(rt: &impl Abort, alloc: Global) -> Arc<AtomicU64> {
    match Arc::new(alloc, AtomicU64::new(0)) {
        Ok(count) => count,
        Err(_) => panic!(rt; "no memory"),
    }
}

/// The same counter once more.
pub fn shared(rt: &impl Abort, count: &Arc<AtomicU64>) -> Arc<AtomicU64> {
    match Arc::try_clone(count) {
        Ok(count) => count,
        Err(_) => panic!(rt; "no memory"),
    }
}

/// A reader that gives each line only once so many lines were written.
#[derive(Drop)]
pub struct PacedReader {
    pub lines: &'static [(u64, &'static [u8])],
    pub written: Arc<AtomicU64>,
}

impl Read for PacedReader {
    fn read(&mut self, buf: &mut [u8]) -> io::Result<usize> {
        match self.lines {
            [] => Ok(0),
            [(count, line), rest @ ..] => {
                await_lines(&self.written, *count);
                let len = line.len().min(buf.len());
                buf[..len].copy_from_slice(&line[..len]);
                self.lines = rest;
                Ok(len)
            }
        }
    }
}

/// A writer that counts the lines that were written.
#[derive(Drop)]
pub struct CountingWriter {
    pub bytes: Vec<u8>,
    pub written: Arc<AtomicU64>,
}

impl Write for CountingWriter {
    fn write(&mut self, buf: &[u8]) -> io::Result<usize> {
        if self.bytes.extend_from_slice(buf).is_err() {
            return Ok(0);
        }
        for byte in buf {
            if *byte == b'\n' {
                self.written.fetch_add(1, Ordering::SeqCst);
            }
        }
        Ok(buf.len())
    }

    fn flush(&mut self) -> io::Result<()> {
        Ok(())
    }
}

/// A writer that has what it was told.
pub trait Told {
    fn told(&self) -> &[u8];
}

impl Told for CountingWriter {
    fn told(&self) -> &[u8] {
        &self.bytes
    }
}
