//! The lock round an inside.

ghost use Rattle.std.specs.Prelude.{◌≡◌, ◌<◌, ◌≤◌, ◌+◌, IfErr, IfOk, IfSome, length, vec_capacity};
ghost use Rattle.office_core.specs.Insides.{InsideView};
ghost use Rattle.office_core.specs.declared.seat.Submitted.{Submitted as Ask};
ghost use Rattle.office_core.specs.Submissions.{Asks, IsStartOf, Tells};
ghost use Rattle.office_core.specs.Seats.{ReceivesInPlace, CompletedIn};
ghost use Rattle.office_core.specs.Closing.{ClosesBySlips};

use crate::client_seat::Seat;
use crate::deadline::Deadline;
use crate::inside::{CloseRefused, Closed, Inside, SeatsFull};
use crate::seat::{NotTaken, Started, Submitted, Tried};
use crate::slip::Slip;
use crate::turns::Pace;
use board_core::answer::Finished;
use board_core::event::TraceEvent;
use desk_core::desk::Desk;
use guest_core::answer::{Cancelled, SubmitFault};
use page_core::outcome::Outcome;
use std::alloc::{AllocError, Global};
use std::hint::spin_loop;
use std::sync::{Condvar, Mutex, MutexGuard, Wait};
use std::thread::yield_now;
use std::time::{Clock, Duration};
use value_core::datum::Datum;

/// How often a thread looks whether the inside is free before it sleeps. An inside is held for a microsecond or two, and a
/// thread that sleeps is woken in tens of them. One pause between two looks lasts up to 140 cycles: with more of them an
/// inside that is free stands empty. So long, some 80 microseconds, since each thread that comes while
/// one sleeps sleeps too.
const LOOKS: usize = 1024;

/// How often a thread looks whether the call that its own would wait for has ended, before it sleeps or submits all the
/// same. Between two looks it pauses a little and lets another thread run, for who looks may stand in the way of the
/// one that is waited for. A call that writes one small file ends in less than half of that time: so mostly somebody
/// looks when it does, and nobody has to be woken.
const GLANCES: usize = 160;

const PAUSES: usize = 4;

/// After so many of these looks it reads the clock: where others are to run too, each look may last as long as they do.
const LOOKS_A_CLOCK: usize = 16;

/// How long it sleeps then, in microseconds, if nobody wakes it.
const NAP: u64 = 1000;

/// How often it does so at most before it submits its call all the same. A queue of calls stays a queue as long as
/// calls join it, and each of them lasts as long as a thread takes to be woken: in so many naps one of fifteen ends
/// also where that is a millisecond.
const NAPS: usize = 16;

/// How long it is held back at most by [`Office::submit_and_try`], in milliseconds, however busy the machine is, but
/// for the time until the thread runs again.
const HOLD: u64 = 10;

/// How many places there are at which waiters sleep: session `n` sleeps at `n % BEDS`.
const BEDS: usize = 64;

/// An inside that threads share.
#[derive(Drop)]
pub struct Office {
    // The inside lies elsewhere: who looks for the lock writes where the lock lies.
    pub(crate) inside: Mutex<Box<Inside>>,
    beds: Vec<Condvar>,
    // Where those sleep whose call is not yet submitted.
    door: Condvar,
    ghost all: { length beds.items ≡ 64 },
}

// The bed of a session.
pub(crate) fn bed_of(session: u32) -> usize
    ensures { result < 64 }
{
    session as usize % BEDS
}

// The bed of the session that made a call.
fn bed_for(desk: &Desk, number: u32) -> usize
    ensures { result < 64 }
{
    match desk.call(number) {
        Some(call) => bed_of(call.session()),
        None => 0,
    }
}

// The beds of the sessions whose calls started since the trace was so long, a bit each. The inside notes these starts.
pub(crate) fn started(inside: &mut Inside, before: usize) -> u64 {
    let mut beds = 0u64;
    for place in before..inside.desk().trace().len() {
        if let Some(TraceEvent::Start(number)) = inside.desk().trace().get(place) {
            beds |= 1u64 << bed_for(inside.desk(), number);
            inside.note_start(number);
        }
    }
    beds
}

// Adds so many beds, for which there is room.
fn add_beds(beds: &mut Vec<Condvar>, count: usize)
    requires { length beds.old.items + count ≤ vec_capacity beds.old }
    ensures { length beds.new.items ≡ length beds.old.items + count }
{
    if count == 0 {
        return;
    }
    beds.push_reserved(Condvar::new());
    add_beds(beds, count - 1);
}

// Submits a call, and looks whether it has started.
fn submit_and_look(
    inside: &mut Inside,
    seat: &mut Seat,
    op: &str,
    args: &[Datum],
) -> Result<(u32, Tried), SubmitFault>
    ensures tells { IfOk result (λ r. (s : Ask) × Asks op.now args.now s × (r.0 ≡ s.number) × Tells s r.1) }
    ensures seat { seat.new ≡ seat.old }
{
    let submitted = match inside.submit(seat, op, args) {
        Ok(submitted) => submitted,
        Err(fault) => return Err(fault),
    };
    let number = submitted.number();
    let tried = inside.look(submitted);
    if let Tried::Ticket(_) = &tried {
        inside.note_start(number);
    }
    Ok((number, tried))
}

impl Office {
    /// An office with this inside. The error is that memory was refused.
    pub fn open(alloc: Global, inside: Inside) -> Result<Office, AllocError> {
        let inside = Box::new(alloc, inside)?;
        let mut beds = Vec::with_capacity(alloc, BEDS)?;
        add_beds(&mut beds, BEDS);
        Ok(Office {
            inside: Mutex::new(inside),
            beds,
            door: Condvar::new(),
        })
    }

    // The inside, once no other thread has it.
    pub(crate) fn enter<R: Wait>(&self, rt: &R) -> MutexGuard<'_, Box<Inside>> {
        for _ in 0..LOOKS {
            if let Some(inside) = self.inside.try_lock() {
                return inside;
            }
            spin_loop();
        }
        self.inside.lock(rt)
    }

    // Looks for some microseconds whether there were more notifications at the door than these, but no longer
    // than the watch tells.
    fn glance<R: Clock>(&self, rt: &R, seen: u64, deadline: &mut Deadline) -> bool {
        for look in 0..GLANCES {
            if self.door.notifications() != seen {
                return true;
            }
            if look % LOOKS_A_CLOCK == LOOKS_A_CLOCK - 1 && deadline.is_over(rt) {
                return false;
            }
            for _ in 0..PAUSES {
                spin_loop();
            }
            yield_now();
        }
        false
    }

    // The inside, once a call of this operation would not wait long. Nothing where the time of the watch is over before
    // that. A call that is submitted while one runs that excludes it stands in a queue: its thread has to be woken for
    // its turn, and no other call of its operation can run until it is. One that is submitted when the other has ended
    // starts at once.
    fn enter_in_turn<R: Wait + Clock>(
        &self,
        rt: &R,
        op: &str,
        deadline: &mut Deadline,
    ) -> Option<MutexGuard<'_, Box<Inside>>> {
        for _ in 0..NAPS {
            let inside = self.enter(rt);
            let pace = inside.pace(op);
            let seen = self.door.notifications();
            match pace {
                Pace::Now => return Some(inside),
                Pace::Soon => {
                    drop(inside);
                    if deadline.is_over(rt) {
                        return None;
                    }
                    if !self.glance(rt, seen, deadline) {
                        return Some(self.enter(rt));
                    }
                }
                Pace::InTurn => {
                    drop(inside);
                    if deadline.is_over(rt) {
                        return None;
                    }
                    if !self.glance(rt, seen, deadline) {
                        self.door.sleep(rt, seen, Duration::from_micros(NAP));
                    }
                }
            }
        }
        None
    }

    // Wakes who sleeps in these beds.
    pub(crate) fn wake(&self, beds: u64) {
        if beds == 0 {
            return;
        }
        for bed in 0..BEDS {
            if (beds >> bed) & 1 == 1 {
                self.beds[bed].notify_all();
            }
        }
    }

    /// The next session, from 1 to 1,024. The error is that there is none left, and tells how many were given out.
    pub fn seat<R: Wait>(&self, rt: &R) -> Result<Seat, SeatsFull>
        ensures full { IfErr result (λ e. 1024 ≤ e.given) }
        ensures ok { IfOk result (λ s. (0 < s.session) × (s.session ≤ 1024) × (s.seen ≡ 0) × (s.count ≡ 0)) }
    {
        self.enter(rt).seat()
    }

    /// Submits a call of this seat's session, and looks under the same lock whether it has started. It answers the
    /// number of the call, and what the look tells. A fault is one of `submit`.
    ///
    /// While a call runs that this one would wait for, it holds the submission back, for 10 milliseconds at most.
    pub fn submit_and_try<R: Wait + Clock>(
        &self,
        rt: &R,
        seat: &mut Seat,
        op: &str,
        args: &[Datum],
    ) -> Result<(u32, Tried), SubmitFault>
        ensures tells { IfOk result (λ r. (s : Ask) × Asks op.now args.now s × (r.0 ≡ s.number) × Tells s r.1) }
        ensures seat { seat.new ≡ seat.old }
    {
        let mut deadline = Deadline::new(Duration::from_millis(HOLD));
        let mut guard = match self.enter_in_turn(rt, op, &mut deadline) {
            Some(guard) => guard,
            None => self.enter(rt),
        };
        submit_and_look(&mut guard, seat, op, args)
    }

    /// Submits a call of this seat's session once its turn has come, and looks under the same lock whether it has
    /// started. It answers the number of the call, and what the look tells; a fault is one of `submit`. Where the time
    /// of the watch is over before the call's turn, nothing is submitted, and it answers `None`.
    pub fn submit_in_turn<R: Wait + Clock>(
        &self,
        rt: &R,
        seat: &mut Seat,
        op: &str,
        args: &[Datum],
        deadline: &mut Deadline,
    ) -> Option<Result<(u32, Tried), SubmitFault>>
        ensures tells { IfSome result (λ found.
            IfOk found (λ r. (s : Ask) × Asks op.now args.now s × (r.0 ≡ s.number) × Tells s r.1)) }
        ensures seat { seat.new ≡ seat.old }
    {
        let mut guard = match self.enter_in_turn(rt, op, deadline) {
            Some(guard) => guard,
            None => return None,
        };
        Some(submit_and_look(&mut guard, seat, op, args))
    }

    /// Looks whether a submitted call has started or was cancelled, as [`Inside::try_start`]. Where the call waits, it
    /// waits for it, at most so long, and looks once more.
    pub fn try_start_within<R: Wait>(&self, rt: &R, submitted: Submitted, most: Duration) -> Tried
        ensures { Tells submitted result }
    {
        let mut inside = self.enter(rt);
        let waiting = match inside.try_start(submitted) {
            Tried::Waiting(back) => back,
            other => return other,
        };
        let bed = &self.beds[bed_for(inside.desk(), waiting.number)];
        let seen = bed.notifications();
        drop(inside);
        bed.sleep(rt, seen, most);
        self.enter(rt).try_start(waiting)
    }

    /// Waits until a submitted call has started or was cancelled, as [`Inside::try_start`] finds it.
    pub fn await_start<R: Wait>(&self, rt: &R, submitted: Submitted) -> Started
        ensures { IsStartOf submitted result }
    {
        let mut submitted = submitted;
        let mut inside = self.enter(rt);
        for _ in rt.forever() {
            match inside.try_start(submitted) {
                Tried::Ticket(ticket) => return Started::Ticket(ticket),
                Tried::Cancelled => return Started::Cancelled,
                Tried::Stranger(back) => return Started::Stranger(back),
                Tried::Waiting(back) => {
                    let bed = bed_for(inside.desk(), back.number);
                    submitted = back;
                    inside = self.beds[bed].wait(rt, inside);
                }
            }
        }
        unreachable!()
    }

    /// Takes the outcome of a call that runs here, and leaves it where it lies, as [`Inside::complete_in_place`].
    pub fn complete_in_place<R: Wait>(
        &self,
        rt: &R,
        seat: &mut Seat,
        outcome: &mut Outcome,
    ) -> Result<Finished, NotTaken>
        ensures seat { ReceivesInPlace seat.old outcome.old result outcome.new seat.new }
        // So some inside of this office took it: what it hands out as free nobody needed then.
        ensures inside { CompletedIn seat.old outcome.old result outcome.new }
    {
        let number = outcome.number();
        let mut inside = self.enter(rt);
        let before = inside.desk().trace().len();
        let answer = inside.complete_in_place(seat, outcome);
        let ended = answer.is_ok() && inside.note_end(number);
        // What happened first is the end of this call, where it was taken. Mostly no call starts by it.
        let beds = if inside.desk().trace().len() > before.saturating_add(1) {
            started(&mut inside, before.saturating_add(1))
        } else {
            0
        };
        let opens = ended && inside.is_open();
        drop(inside);
        self.wake(beds);
        if opens {
            self.door.notify_one();
        }
        answer
    }

    /// Takes a waiting call out, as [`Inside::cancel`].
    pub fn cancel<R: Wait>(&self, rt: &R, number: u32) -> Cancelled {
        let mut inside = self.enter(rt);
        let before = inside.desk().trace().len();
        let answer = inside.cancel(number);
        let beds = started(&mut inside, before) | 1u64 << bed_for(inside.desk(), number);
        drop(inside);
        if answer == Cancelled::Cancelled {
            self.wake(beds);
        }
        answer
    }

    /// A session leaves, as by [`Inside::leave`].
    pub fn leave<R: Wait>(&self, rt: &R, session: u32) {
        let mut inside = self.enter(rt);
        let before = inside.desk().trace().len();
        inside.leave(session);
        let beds = started(&mut inside, before) | 1u64 << bed_of(session);
        drop(inside);
        self.wake(beds);
    }

    /// Takes the inside out of the lock and closes it by slips, as [`Inside::close_by_slips`].
    pub fn close_by_slips(self, seats: Vec<Seat>, slips: &[Slip]) -> Result<Closed, CloseRefused>
        ensures { (r : InsideView) × ClosesBySlips r seats.items slips.now result }
    {
        let inside = Box::into_inner(self.inside.into_inner());
        inside.close_by_slips(seats, slips)
    }
}
