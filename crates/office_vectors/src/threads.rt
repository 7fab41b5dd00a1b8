//! Two bodies that run at once, and 64 threads that call, cancel and leave at random.

use crate::make::{office_of, seat_of, ticket_of};
use device_core::memory::MemHand;
use guest_core::answer::SubmitFault;
use office_core::office::Office;
use office_core::seat::{Seat, Started, Submitted};
use run_core::perform::perform;
use run_core::run::Run;
use std::alloc::Global;
use std::process::Abort;
use std::sync::atomic::{AtomicU64, Ordering};
use std::sync::{Mutex, Wait};
use std::thread;
use value_core::datum::Datum;

// After so many turns nobody comes any more.
const MOST_TURNS: u64 = 4_000_000_000;

// Turns until the word has this value, and tells whether it had it in time.
fn meets(word: &AtomicU64, value: u64) -> bool {
    for _ in 0..MOST_TURNS {
        if word.load(Ordering::SeqCst) == value {
            return true;
        }
    }
    false
}

// Call 1: its body goes on only once call 2 was completed.
fn first<R: Abort + Wait>(
    rt: &R,
    alloc: Global,
    office: &Office,
    hand: &mut MemHand,
    word: &AtomicU64,
) -> bool {
    let mut seat = seat_of(rt, office);
    let ticket = ticket_of(rt, office, &mut seat, "get", &[]);
    word.store(1, Ordering::SeqCst);
    let met = meets(word, 2);
    let outcome = perform(Run::new(alloc, ticket), hand);
    office.complete(rt, &mut seat, outcome).is_ok() && met
}

// Call 2, from beginning to end, while call 1 runs.
fn second<R: Abort + Wait>(
    rt: &R,
    alloc: Global,
    office: &Office,
    hand: &mut MemHand,
    word: &AtomicU64,
) -> bool {
    let met = meets(word, 1);
    let mut seat = seat_of(rt, office);
    let ticket = ticket_of(rt, office, &mut seat, "get", &[]);
    let outcome = perform(Run::new(alloc, ticket), hand);
    let is_taken = office.complete(rt, &mut seat, outcome).is_ok();
    word.store(2, Ordering::SeqCst);
    met && is_taken
}

// Catches `lock_held_while_body_runs`.
#[test]
fn two_gets_meet(rt: HostRuntime) {
    let alloc = rt.alloc();
    let mut one = MemHand::new(alloc);
    let mut two = MemHand::new(alloc);
    let office = office_of(&rt, alloc, &mut one);
    // Both hands have the file of the part, under one number.
    let _same = office_of(&rt, alloc, &mut two);
    let word = AtomicU64::new(0);
    let (first, second) = thread::join(
        &rt,
        || first(&rt, alloc, &office, &mut one, &word),
        || second(&rt, alloc, &office, &mut two, &word),
    );
    assert!(rt; first && second);
}

const THREADS: usize = 64;

// So many calls does a thread make.
const CALLS: u32 = 24;

// A drawn number behind this one.
fn draw(state: u64) -> u64 {
    let state = state ^ (state << 13);
    let state = state ^ (state >> 7);
    state ^ (state << 17)
}

// Cancels a call or leaves, or does nothing, as is drawn.
fn disturb<R: Wait>(rt: &R, office: &Office, session: u32, number: u32, drawn: u64) {
    match drawn % 64 {
        0 => office.leave(rt, session),
        1..=8 => {
            let _ = office.cancel(rt, number);
        }
        9..=12 => {
            let _ = office.cancel(rt, number / 2 + 1);
        }
        _ => {}
    }
}

// Whether a call that starts is taken when it has ended; else it was cancelled.
fn ends<R: Abort + Wait>(
    rt: &R,
    alloc: Global,
    office: &Office,
    hand: &Mutex<MemHand>,
    seat: &mut Seat,
    submitted: Submitted,
) -> bool {
    match office.await_start(rt, submitted) {
        Started::Ticket(ticket) => {
            let outcome = perform(Run::new(alloc, ticket), &mut *hand.lock(rt));
            office.complete(rt, seat, outcome).is_ok()
        }
        Started::Cancelled => true,
        _ => panic!(rt; "a stranger"),
    }
}

// Makes calls until the session has left, and tells whether nothing came that may not come.
fn calls<R: Abort + Wait>(
    rt: &R,
    alloc: Global,
    office: &Office,
    hand: &Mutex<MemHand>,
    seat: &mut Seat,
) -> bool {
    let session = seat.session();
    let mut state = u64::from(session).wrapping_mul(7919);
    for _ in 0..CALLS {
        state = draw(state);
        let value = Datum::Integer(session);
        let answer = if state % 4 == 3 {
            office.submit(rt, seat, "put", &[value])
        } else {
            office.submit(rt, seat, "get", &[])
        };
        let submitted = match answer {
            Ok(submitted) => submitted,
            Err(fault) => return fault == SubmitFault::Gone,
        };
        disturb(rt, office, session, submitted.number(), state / 1024);
        if !ends(rt, alloc, office, hand, seat, submitted) {
            return false;
        }
    }
    true
}

// The work of one thread, which leaves its seat with the others.
fn work<R: Abort + Wait>(
    rt: &R,
    alloc: Global,
    office: &Office,
    hand: &Mutex<MemHand>,
    seats: &Mutex<Vec<Seat>>,
) -> bool {
    let mut seat = seat_of(rt, office);
    let is_well = calls(rt, alloc, office, hand, &mut seat);
    let is_left = seats.lock(rt).push(seat).is_ok();
    is_well && is_left
}

// Catches `nobody_is_woken`. The seats have seen as many calls as have ended.
#[test]
fn many_threads_close(rt: HostRuntime) {
    let alloc = rt.alloc();
    let mut files = MemHand::new(alloc);
    let office = office_of(&rt, alloc, &mut files);
    let hand = Mutex::new(files);
    let seats = Mutex::new(Vec::new(alloc));
    let all = thread::map_indices(
        &rt,
        alloc,
        THREADS,
        &|_| work(&rt, alloc, &office, &hand, &seats),
    );
    for is_well in all.expect(&rt, "memory") {
        assert!(rt; is_well);
    }
    match office.close(seats.into_inner(), &[]) {
        Ok(closed) => assert!(rt; closed.desk.history().len() > THREADS),
        Err(_) => panic!(rt; "not closed"),
    }
}
