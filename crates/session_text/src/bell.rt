//! A bell that tells sessions to end.

use std::io::{self, Read};
use std::sync::atomic::{AtomicBool, Ordering};

/// A bell that is rung once, for all sessions.
#[derive(Drop)]
pub struct Bell {
    rung: AtomicBool,
}

impl Bell {
    /// It has not rung.
    pub fn new() -> Bell {
        Bell {
            rung: AtomicBool::new(false),
        }
    }

    /// Rings it. Each session that has it ends then, as at the end of its input.
    pub fn ring(&self) {
        self.rung.store(true, Ordering::SeqCst);
    }

    /// Whether it has rung.
    pub fn has_rung(&self) -> bool {
        self.rung.load(Ordering::SeqCst)
    }
}

/// A reader whose input ends when a bell has rung. A read that waits then is not broken off: it has to return by
/// itself, as one whose time runs out does.
#[derive(Drop)]
pub struct UntilBell<'a, I: Read + Drop> {
    reader: I,
    bell: &'a Bell,
}

impl<'a, I: Read + Drop> UntilBell<'a, I> {
    /// The reader, up to the bell.
    pub fn new(reader: I, bell: &'a Bell) -> UntilBell<'a, I> {
        UntilBell { reader, bell }
    }
}

impl<I: Read + Drop> Read for UntilBell<'_, I> {
    fn read(&mut self, buf: &mut [u8]) -> io::Result<usize> {
        if self.bell.has_rung() {
            return Ok(0);
        }
        self.reader.read(buf)
    }
}
