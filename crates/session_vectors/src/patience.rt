//! Writers that take nothing for a while.

use session_core::patient::{LAST_PAUSES, MOST_PAUSES, Patient};
use session_text::bell::Bell;
use std::alloc::Global;
use std::io::{self, Write};

// A writer that takes nothing so often, and then one byte a write.
#[derive(Drop)]
struct Pausing {
    pauses: u32,
    bytes: Vec<u8>,
}

impl Write for Pausing {
    fn write(&mut self, buf: &[u8]) -> io::Result<usize> {
        if self.pauses > 0 {
            self.pauses -= 1;
            return Err(io::Error::from(io::ErrorKind::WouldBlock));
        }
        if buf.is_empty() || self.bytes.extend_from_slice(&buf[..1]).is_err() {
            return Ok(0);
        }
        Ok(1)
    }

    fn flush(&mut self) -> io::Result<()> {
        Ok(())
    }
}

// Whether a line is written over a writer that takes nothing so often, before or after the bell.
fn is_written(alloc: Global, pauses: u32, has_rung: bool) -> bool {
    let bell = Bell::new();
    if has_rung {
        bell.ring();
    }
    let writer = Pausing {
        pauses,
        bytes: Vec::new(alloc),
    };
    let mut writer = Patient::new(writer, &bell);
    writer.write_all(b"done 1\n").is_ok()
}

// Catches `waits_for_ever_for_a_client`.
#[test]
fn a_write_that_takes_nothing_fails_after_a_time(rt: HostRuntime) {
    let alloc = rt.alloc();
    for pauses in 0..MOST_PAUSES + 3 {
        assert!(rt; is_written(alloc, pauses, false) == (pauses < MOST_PAUSES));
        assert!(rt; is_written(alloc, pauses, true) == (pauses < LAST_PAUSES));
    }
}
