//! Clients to whom nothing can be written, while a call of theirs waits.

use crate::make::{STEPS, TURNS, ZERO, begun, ends, first_of, offices, seat_of, serve};
use crate::streams::{LimitedWriter, await_within, counter, shared};
use device_core::memory::MemHand;
use office_core::seat::Seat;
use session_core::end::SessionEnd;
use session_core::order::Named;
use session_core::serve::Connection;
use std::alloc::Global;
use std::io::{self, Read};
use std::process::Abort;
use std::sync::atomic::{AtomicU64, Ordering};
use std::sync::{Arc, Wait};
use std::thread::Threads;
use std::time::Clock;

// So often a reader pauses before its input ends, so long: a session that does not end by then does not end by itself.
const PAUSES: u32 = 100;

const PAUSE_TURNS: u64 = 1_000_000_000;

// A reader of one piece, which then pauses, each time for a while, and says when its input ends.
#[derive(Drop)]
struct Silent {
    text: &'static [u8],
    pauses: u32,
    ended: Arc<AtomicU64>,
}

impl Read for Silent {
    fn read(&mut self, buf: &mut [u8]) -> io::Result<usize> {
        let len = self.text.len().min(buf.len());
        if len > 0 {
            buf[..len].copy_from_slice(&self.text[..len]);
            self.text = &self.text[len..];
            return Ok(len);
        }
        if self.pauses == 0 {
            self.ended.store(1, Ordering::SeqCst);
            return Ok(0);
        }
        self.pauses -= 1;
        await_within(&self.ended, 1, PAUSE_TURNS);
        Err(io::Error::from(io::ErrorKind::WouldBlock))
    }
}

// A client says this and then nothing, and nothing can be written to it. Its session ends by a fault, before its input
// does, and without a receipt. It gives the seat and the hand.
fn visits<R: Abort + Threads + Wait + Clock + Sync>(
    rt: &R,
    alloc: Global,
    all: &Vec<Named>,
    hand: MemHand,
    text: &'static [u8],
) -> (Seat, MemHand) {
    let ended = counter(rt, alloc);
    let reader = Silent {
        text,
        pauses: PAUSES,
        ended: shared(rt, &ended),
    };
    let writer = LimitedWriter {
        bytes: Vec::new(alloc),
        left: 0,
        fails: true,
    };
    let SessionEnd {
        object: _,
        seat,
        receipts,
        writer: _,
        hand,
        fault,
    } = serve(rt, alloc, all, Connection { reader, writer }, hand);
    assert!(rt; fault.is_some() && receipts.is_empty() && ended.load(Ordering::SeqCst) == 0);
    match seat {
        Some(seat) => (seat, hand),
        None => panic!(rt; "no seat"),
    }
}

// Its waiting call is cancelled, since nobody is told of it, and no other session leaves for that. Catches
// `deaf_client_throws_out_the_first_session` and `waiting_call_of_a_deaf_client_stays`.
#[test]
fn a_client_that_hears_nothing_is_let_go_alone(rt: HostRuntime) {
    let alloc = rt.alloc();
    let (all, hand) = offices(&rt, alloc, TURNS, ZERO);
    let office = first_of(&rt, &all);
    let first = seat_of(&rt, office);
    let (seat, _hand) = visits(&rt, alloc, &all, hand, b"open turns\ncall b\n");
    assert!(rt; first.session() == 1 && seat.session() == 2);
    assert!(rt; office.kept(&rt, &first, 1, "b", &[]).is_ok());
    assert!(rt; office.kept(&rt, &seat, 1, "b", &[]).is_err());
}

// Before a call is submitted that has waited for its turn, what stands ready is sent. Where that fails, the call is not
// taken. Catches `call_of_a_deaf_client_is_taken`.
#[test]
fn a_call_of_a_client_that_hears_nothing_is_not_taken(rt: HostRuntime) {
    let alloc = rt.alloc();
    let (all, hand) = offices(&rt, alloc, STEPS, ZERO);
    let office = first_of(&rt, &all);
    let mut first = seat_of(&rt, office);
    let ticket = begun(&rt, office, &mut first);
    let (seat, mut hand) = visits(&rt, alloc, &all, hand, b"open steps\ncall a\n");
    assert!(rt; office.next_key(&rt, &seat) == 1);
    assert!(rt; ends(&rt, alloc, office, &mut first, ticket, &mut hand) == 1);
}
