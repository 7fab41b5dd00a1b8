//! Sessions that meet a call of somebody else, and names that are in use.

use crate::make::{
    BUFFER, EMPTY, STEPS, ZERO, begun, ends, first_of, name, offices, seat_of, serve, tells,
};
use crate::streams::{
    CountingWriter, PacedReader, Streams, await_lines, connected, counter, shared,
};
use office_core::office::Office;
use path_tree::name::Name;
use session_core::fault::SessionFault;
use session_core::serve::Connection;
use std::alloc::Global;
use std::io::{self, Read};
use std::process::Abort;
use std::sync::atomic::{AtomicU64, Ordering};
use std::sync::{Arc, Wait};
use std::thread;

// A reader of lines that come one after the other, whose input ends only once it may. It tells when it
// is asked for its end.
#[derive(Drop)]
struct Lingering {
    gate: PacedReader,
    asked: Arc<AtomicU64>,
    may_end: Arc<AtomicU64>,
}

impl Read for Lingering {
    fn read(&mut self, buf: &mut [u8]) -> io::Result<usize> {
        if self.gate.lines.is_empty() {
            self.asked.store(1, Ordering::SeqCst);
            await_lines(&self.may_end, 1);
        }
        self.gate.read(buf)
    }
}

// How often a name is asked for that is in use.
const TRIES: u64 = 100_000;

// Whether this name is in use all the time.
fn is_in_use<R: Wait>(rt: &R, office: &Office, name: &Name) -> bool {
    for _ in 0..TRIES {
        if office.seat_named(rt, name).is_ok() {
            return false;
        }
    }
    true
}

// Cancels call 1 once the session beside it waits for the end of its input, and lets that end only when the name was in
// use for a while after the session wrote its last line.
fn lingers<R: Wait>(
    rt: &R,
    office: &Office,
    name: &Name,
    written: &AtomicU64,
    asked: &AtomicU64,
    may_end: &AtomicU64,
) -> bool {
    await_lines(asked, 1);
    office.cancel(rt, 1);
    await_lines(written, 4);
    let is_out = is_in_use(rt, office, name);
    may_end.store(1, Ordering::SeqCst);
    is_out
}

const LINGERS: &[(u64, &[u8])] = &[
    (0, b"open buffer as ann\n"),
    (1, b"call #1 remove\n"),
    (2, b"quit\n"),
];

const LINGERS_TOLD: &[u8] = b"opened buffer next 1\naccepted 1\ncancelled 1\nbye\n";

// Catches `park_before_join`: the second thread of a session that ends by `quit` behind a waiting call leaves the object
// at the end of its input. So nobody gets the name before.
#[test]
fn a_name_is_in_use_until_the_input_ends(rt: HostRuntime) {
    let alloc = rt.alloc();
    let (all, hand) = offices(&rt, alloc, BUFFER, EMPTY);
    let office = first_of(&rt, &all);
    let name = name(&rt, alloc, b"ann");
    let (written, asked) = (counter(&rt, alloc), counter(&rt, alloc));
    let may_end = counter(&rt, alloc);
    let reader = Lingering {
        gate: PacedReader {
            lines: LINGERS,
            written: shared(&rt, &written),
        },
        asked: shared(&rt, &asked),
        may_end: shared(&rt, &may_end),
    };
    let writer = CountingWriter {
        bytes: Vec::new(alloc),
        written: shared(&rt, &written),
    };
    let by = &rt;
    let (hand, is_out) = thread::join(
        by,
        || tells(
            by,
            alloc,
            &all,
            Connection { reader, writer },
            hand,
            LINGERS_TOLD,
        ),
        || lingers(by, office, &name, &written, &asked, &may_end),
    );
    assert!(rt; is_out && hand.is_some());
    assert!(rt; office.seat_named(&rt, &name).is_ok());
}

// Catches `nothing_is_sent_before_a_call`: where a call of another session runs, what stands ready is sent before the
// next call is submitted. Here that cannot be sent, so the session has left, and the call gets no number.
#[test]
fn lines_are_sent_before_a_call_that_is_held_back(rt: HostRuntime) {
    let alloc = rt.alloc();
    let (all, hand) = offices(&rt, alloc, STEPS, ZERO);
    let office = first_of(&rt, &all);
    let mut seat = seat_of(&rt, office);
    let ticket = begun(&rt, office, &mut seat);
    let deaf = Streams {
        step: 4096,
        takes: 0,
        fails: true,
    };
    let end = serve(
        &rt,
        alloc,
        &all,
        connected(alloc, b"open steps\ncall a\n", deaf),
        hand,
    );
    assert!(rt; end.fault == Some(SessionFault::WriteFault) && end.receipts.is_empty());
    let mut hand = end.hand;
    assert!(rt; ends(&rt, alloc, office, &mut seat, ticket, &mut hand) == 1);
    let ticket = begun(&rt, office, &mut seat);
    assert!(rt; ends(&rt, alloc, office, &mut seat, ticket, &mut hand) == 2);
}
