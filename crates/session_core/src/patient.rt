//! A writer that does not wait for ever.

ghost use Rattle.std.specs.Prelude.{◌≡◌};

use session_text::bell::Bell;
use session_text::reader::is_pause;
use std::io::{self, Write};

/// How often a write may take nothing, one after the other, before it fails.
pub const MOST_PAUSES: u32 = 40;

/// How many such writes there may be in all once the bell has rung.
pub const LAST_PAUSES: u32 = 4;

/// A writer over one whose writes return after a while where nothing is taken, as those of a socket with a time-out do.
/// A write that takes nothing is made again: at most 40 times in a row, and once the bell has rung at most four times
/// in all. With a time-out of 250 ms these are ten seconds, and one. What was written to it is what the writer inside has.
#[derive(Drop)]
pub struct Patient<'a, W: Write + Drop> {
    writer: W,
    bell: &'a Bell,
    // writes that took nothing since the bell has rung
    late: u32,
}

impl<'a, W: Write + Drop> Patient<'a, W> {
    /// Nothing is written yet.
    pub fn new(writer: W, bell: &'a Bell) -> Patient<'a, W>
        ensures { W.contents result.writer ≡ W.contents writer }
    {
        Patient {
            writer,
            bell,
            late: 0,
        }
    }

    // Whether a write that takes nothing may be made again.
    fn goes_on(&mut self) -> bool
        ensures { W.contents self.new.writer ≡ W.contents self.old.writer }
    {
        if !self.bell.has_rung() {
            return true;
        }
        self.late = self.late.saturating_add(1);
        self.late < LAST_PAUSES
    }
}

impl<W: Write + Drop> Write for Patient<'_, W> {
    ghost contents = { λ p. W.contents p.writer };

    fn write(&mut self, buf: &[u8]) -> io::Result<usize> {
        if self.late >= LAST_PAUSES {
            return Err(io::Error::from(io::ErrorKind::TimedOut));
        }
        for _ in 0..MOST_PAUSES {
            match self.writer.write(buf) {
                Ok(count) => return Ok(count),
                Err(e) => {
                    if !is_pause(e.kind()) {
                        return Err(e);
                    }
                }
            }
            if !self.goes_on() {
                break;
            }
        }
        Err(io::Error::from(io::ErrorKind::TimedOut))
    }

    fn flush(&mut self) -> io::Result<()> {
        self.writer.flush()
    }
}
