//! Clients that read nothing, and sessions that are stopped.

use crate::make::{BUFFER, EMPTY, TURNS, ZERO, offices, tells};
use crate::streams::{CountingWriter, PacedReader, Told, await_lines, counter, shared};
use device_core::memory::MemHand;
use session_core::serve::{Connection, serve_session};
use session_text::bell::Bell;
use std::io::{self, Read, Write};
use std::sync::Arc;
use std::sync::atomic::{AtomicU64, Ordering};
use std::thread;

// How far a client that reads nothing has come: a write to it waits, it was let go in time, or not.
const WAITS: u64 = 1;

const IN_TIME: u64 = 2;

const TOO_LATE: u64 = 3;

// How many lines the other client is to be told first.
const OTHERS: u64 = 5;

// So often all turns are taken before a client counts as held up.
const ROUNDS: u32 = 100;

// A writer that takes one write at once, and the next one only once another client was told all of its lines.
#[derive(Drop)]
struct Stuck {
    bytes: Vec<u8>,
    came: Arc<AtomicU64>,
    others: Arc<AtomicU64>,
}

impl Stuck {
    fn stand(&self) {
        self.came.store(WAITS, Ordering::SeqCst);
        for _ in 0..ROUNDS {
            await_lines(&self.others, OTHERS);
        }
        let went = if self.others.load(Ordering::SeqCst) >= OTHERS {
            IN_TIME
        } else {
            TOO_LATE
        };
        self.came.store(went, Ordering::SeqCst);
    }
}

impl Write for Stuck {
    fn write(&mut self, buf: &[u8]) -> io::Result<usize> {
        if !self.bytes.is_empty() && self.came.load(Ordering::SeqCst) == 0 {
            self.stand();
        }
        if self.bytes.extend_from_slice(buf).is_err() {
            return Ok(0);
        }
        Ok(buf.len())
    }

    fn flush(&mut self) -> io::Result<()> {
        Ok(())
    }
}

impl Told for Stuck {
    fn told(&self) -> &[u8] {
        &self.bytes
    }
}

const DEAF: &[(u64, &[u8])] = &[(0, b"open turns\n"), (0, b"call b\n"), (OTHERS, b"quit\n")];

const DEAF_TOLD: &[u8] = b"opened turns\naccepted 1\ndone 1\nbye\n";

// The second call of a client beside it waits for the end of the call of the first one.
const OTHER: &[(u64, &[u8])] = &[
    (WAITS, b"open turns\ncall a\ncall a\n"),
    (IN_TIME, b"quit\n"),
];

const OTHER_TOLD: &[u8] = b"opened turns\naccepted 2\ndone 2\naccepted 3\ndone 3\nbye\n";

// Catches `deaf_client_holds_its_object`: a client does not read `accepted 1`.
#[test]
fn a_client_that_does_not_read_holds_up_nobody(rt: HostRuntime) {
    let alloc = rt.alloc();
    let (all, hand) = offices(&rt, alloc, TURNS, ZERO);
    let (came, others) = (counter(&rt, alloc), counter(&rt, alloc));
    let waits = PacedReader {
        lines: DEAF,
        written: shared(&rt, &others),
    };
    let stuck = Stuck {
        bytes: Vec::new(alloc),
        came: shared(&rt, &came),
        others: shared(&rt, &others),
    };
    let follows = PacedReader {
        lines: OTHER,
        written: shared(&rt, &came),
    };
    let counted = CountingWriter {
        bytes: Vec::new(alloc),
        written: shared(&rt, &others),
    };
    let other = MemHand::new(alloc);
    let by = &rt;
    let (one, two) = thread::join(
        by,
        || tells(
            by,
            alloc,
            &all,
            Connection {
                reader: waits,
                writer: stuck,
            },
            hand,
            DEAF_TOLD,
        ),
        || tells(
            by,
            alloc,
            &all,
            Connection {
                reader: follows,
                writer: counted,
            },
            other,
            OTHER_TOLD,
        ),
    );
    assert!(rt; one.is_some() && two.is_some() && came.load(Ordering::SeqCst) == IN_TIME);
}

// A reader of one piece, which rings a bell with it.
#[derive(Drop)]
struct Ringing {
    text: &'static [u8],
    bell: Arc<Bell>,
}

impl Read for Ringing {
    fn read(&mut self, buf: &mut [u8]) -> io::Result<usize> {
        let len = self.text.len().min(buf.len());
        buf[..len].copy_from_slice(&self.text[..len]);
        self.text = &self.text[len..];
        self.bell.ring();
        Ok(len)
    }
}

// Catches `does_what_was_read_before_the_bell`.
#[test]
fn what_was_read_before_the_bell_is_sent_ahead(rt: HostRuntime) {
    let alloc = rt.alloc();
    let (all, hand) = offices(&rt, alloc, BUFFER, EMPTY);
    let bell = Arc::new(alloc, Bell::new()).expect(&rt, "memory");
    let reader = Ringing {
        text: b"open buffer\ncall deposit 1\ncancel 1\ncall remove\nquit\n",
        bell: Arc::try_clone(&bell).expect(&rt, "memory"),
    };
    let writer = CountingWriter {
        bytes: Vec::new(alloc),
        written: counter(&rt, alloc),
    };
    let end = serve_session(&rt, alloc, Connection { reader, writer }, &bell, &all, hand);
    let told = b"opened buffer\nno Gone\ncancel 1 Unknown\nno Gone\nbye\n";
    assert!(rt; end.fault.is_none() && end.writer.bytes.as_slice() == told.as_slice());
}
