//! Readers and writers that fail where a test wants it, and objects.

use decl_core::object::Object;
use decl_read::read::read_objects;
use std::alloc::Global;
use std::io::{self, ErrorKind, Read, Write};
use std::process::Abort;

/// A reader that gives at most `most` bytes a read, and fails at the read of number `fails_at`,
/// counted from 0.
#[derive(Drop)]
pub struct Choppy<'a> {
    pub rest: &'a [u8],
    pub most: usize,
    pub reads: u64,
    pub fails_at: u64,
    pub kind: ErrorKind,
}

impl Read for Choppy<'_> {
    fn read(&mut self, buf: &mut [u8]) -> io::Result<usize> {
        let read = self.reads;
        self.reads = read.saturating_add(1);
        if read == self.fails_at {
            return Err(io::Error::from(self.kind));
        }
        let count = self.rest.len().min(self.most).min(buf.len());
        buf[..count].copy_from_slice(&self.rest[..count]);
        self.rest = &self.rest[count..];
        Ok(count)
    }
}

/// A reader that gives one space a read, and never ends.
#[derive(Drop)]
pub struct Endless {
    pub reads: u64,
}

impl Read for Endless {
    fn read(&mut self, buf: &mut [u8]) -> io::Result<usize> {
        self.reads = self.reads.saturating_add(1);
        let count = buf.len().min(1);
        buf[..count].copy_from_slice(&b" "[..count]);
        Ok(count)
    }
}

/// What a `Shy` does with a write.
#[derive(Clone, Copy)]
pub enum Mood {
    /// It takes at most so many bytes of it, and fails where it has no room.
    Takes(usize),
    TakesNone,
    Broken,
    BrokenEachSecond,
}

/// A writer with so much room, which counts the writes.
#[derive(Clone, Copy, Drop)]
pub struct Shy {
    pub mood: Mood,
    pub writes: u64,
    pub room: usize,
}

impl Write for Shy {
    fn write(&mut self, buf: &[u8]) -> io::Result<usize> {
        self.writes = self.writes.saturating_add(1);
        match self.mood {
            Mood::Takes(most) => {
                let count = buf.len().min(most).min(self.room);
                if count == 0 {
                    return Err(io::Error::from(ErrorKind::BrokenPipe));
                }
                self.room -= count;
                Ok(count)
            }
            Mood::TakesNone => Ok(0),
            Mood::BrokenEachSecond if self.writes % 2 == 0 => Ok(buf.len()),
            _ => Err(io::Error::from(ErrorKind::Interrupted)),
        }
    }

    fn flush(&mut self) -> io::Result<()> {
        Ok(())
    }
}

/// An object with one part.
pub const CELL: &[u8] = b"object cell;
  path 1:([get], put) end;
  var v : array [1] of integer;
  entry function get : integer; begin get := v[0] end;
  entry procedure put(x : integer); begin v[0] := x end;
end;
";

/// The object of a source that has one.
pub fn only_object(rt: &impl Abort, alloc: Global, text: &[u8]) -> Object {
    let mut objects = match read_objects(alloc, text) {
        Ok(objects) => objects,
        Err(_) => panic!(rt; "no objects"),
    };
    match objects.pop() {
        Some((_name, object)) => object,
        None => panic!(rt; "no object"),
    }
}
