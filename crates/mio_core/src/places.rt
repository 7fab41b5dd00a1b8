//! The sockets of connections, each at the place of its number.

ghost use Rattle.std.specs.Prelude.{◌≤◌, IfSome, length};

use crate::stream::Stream;
use std::alloc::{AllocError, Global};
use std::io::ErrorKind;

// So many reads are made of what nobody hears, before a connection is closed.
const LAST_READS: u32 = 16;

// So often a write is tried that a signal broke off.
const MOST_TRIES: u32 = 8;

#[derive(Drop)]
struct Wire {
    who: u64,
    stream: Stream,
    // Whether its client sends no more. What it sent before may be there still.
    is_ending: bool,
}

/// Sockets, each at the place of its number.
#[derive(Drop)]
pub(crate) struct Places {
    wires: Vec<Option<Wire>>,
    piece: Vec<u8>,
}

/// What came of a read.
pub(crate) enum Got {
    /// Some bytes, and maybe more.
    Some,
    /// Some bytes, which may be none, and no more for now.
    All,
    End,
    Broken,
}

// Reads once.
fn read_from(
    wire: &mut Wire,
    buffer: &mut Vec<u8>,
    piece: &mut Vec<u8>,
) -> Result<Got, AllocError> {
    match wire.stream.read(buffer.as_mut_slice()) {
        Ok(0) => Ok(Got::End),
        Ok(n) => {
            let got = n.min(buffer.len());
            piece.extend_from_slice(&buffer[..got])?;
            if got == buffer.len() || wire.is_ending {
                Ok(Got::Some)
            } else {
                Ok(Got::All)
            }
        }
        Err(error) => match error.kind() {
            ErrorKind::WouldBlock => Ok(Got::All),
            ErrorKind::Interrupted => Ok(Got::Some),
            _ => Ok(Got::Broken),
        },
    }
}

impl Places {
    /// So many places, for pieces of so many bytes. The error is that memory was refused.
    pub fn new(alloc: Global, count: usize, piece: usize) -> Result<Places, AllocError> {
        let mut wires = Vec::with_capacity(alloc, count)?;
        for _place in 0..count {
            wires.push(None)?;
        }
        Ok(Places {
            wires,
            piece: vec![in alloc; 0u8; piece]?,
        })
    }

    fn place_of(&self, who: u64) -> usize {
        if self.wires.is_empty() {
            return 0;
        }
        (who % self.wires.len() as u64) as usize
    }

    fn wire(&mut self, who: u64) -> Option<&mut Wire> {
        let place = self.place_of(who);
        match self.wires.get_mut(place) {
            Some(Some(wire)) => { if wire.who == who { Some(wire) } else { None } }
            _ => None,
        }
    }

    /// The socket of a connection that comes.
    pub fn put(&mut self, who: u64, stream: Stream) {
        let place = self.place_of(who);
        if let Some(wire) = self.wires.get_mut(place) {
            *wire = Some(Wire {
                who,
                stream,
                is_ending: false,
            });
        }
    }

    /// The client of a connection sends no more.
    pub fn set_ending(&mut self, who: u64) {
        if let Some(wire) = self.wire(who) {
            wire.is_ending = true;
        }
    }

    /// Whether the client of a connection sends no more.
    pub fn is_ending(&mut self, who: u64) -> bool {
        match self.wire(who) {
            Some(wire) => wire.is_ending,
            None => true,
        }
    }

    /// Reads once, in place of what is in `piece`. The error is that memory was refused.
    pub fn read(&mut self, who: u64, piece: &mut Vec<u8>) -> Result<Got, AllocError> {
        piece.clear();
        let place = self.place_of(who);
        match self.wires.get_mut(place) {
            Some(Some(wire)) => {
                if wire.who == who {
                    read_from(wire, &mut self.piece, piece)
                } else {
                    Ok(Got::Broken)
                }
            }
            _ => Ok(Got::Broken),
        }
    }

    /// Writes a front of these bytes, and says how many it took, or `None` where the connection broke.
    pub fn write(&mut self, who: u64, bytes: &[u8]) -> Option<usize>
        ensures { IfSome result (λ n. n ≤ length bytes.now) }
    {
        let wire = self.wire(who)?;
        for _try in 0..MOST_TRIES {
            match wire.stream.write(bytes) {
                Ok(n) => return Some(n.min(bytes.len())),
                Err(error) => match error.kind() {
                    ErrorKind::WouldBlock => return Some(0),
                    ErrorKind::Interrupted => {}
                    _ => return None,
                },
            }
        }
        None
    }

    /// Closes a connection. What came of it and was not read is let go first, since the system might else take back what
    /// was written.
    pub fn close(&mut self, who: u64) {
        let place = self.place_of(who);
        let Some(found) = self.wires.get_mut(place) else {
            return;
        };
        let Some(mut wire) = found.take() else {
            return;
        };
        if wire.who != who {
            *found = Some(wire);
            return;
        }
        wire.stream.shut();
        for _read in 0..LAST_READS {
            match wire.stream.read(self.piece.as_mut_slice()) {
                Ok(n) => {
                    if n == 0 {
                        return;
                    }
                }
                Err(_) => return,
            }
        }
    }
}
