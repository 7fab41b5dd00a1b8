//! What lies under the lock.

ghost use Rattle.std.specs.Prelude.{◌≡◌, ◌+◌, ◌≤◌, ◌<◌, length, IfOk, IfErr, IfSome, IfNone, Ok, Err, []};
ghost use Rattle.board_core.specs.Board.{opened, Rests};
ghost use Rattle.board_core.specs.Sound.{IsSound};
ghost use Rattle.board_core.specs.Answers.{Cancels};
ghost use Rattle.board_core.specs.Started.{Settles};
ghost use Rattle.board_core.specs.Board.{released, marked};
ghost use Rattle.std.specs.Prelude.{◌⊎◌};
ghost use Rattle.office_core.specs.Insides.{KeepsSeats, Submits};
ghost use Rattle.office_core.specs.Submissions.{Asks, IsOf, Tells, Tries};
ghost use Rattle.office_core.specs.ClientSeats.{IsFresh};
ghost use Rattle.office_core.specs.Seats.{ReceivesInPlace, CompletesInPlace};
ghost use Rattle.office_core.specs.Closing.{ClosesBySlips, IsIdle, AreSeatsOf, IsOpen};

use crate::client_seat::Seat;
use crate::clients::Clients;
use crate::find::{first_mismatched_slip, is_of};
use crate::seat::{NotTaken, Submitted, Tried};
use crate::seats::are_seats;
use crate::slip::Slip;
use crate::turns::{Pace, Turns};
use board_core::answer::{Collected, Finished};
use decl_core::analyse::Accepted;
use desk_core::desk::Desk;
use guest_core::answer::{Cancelled, SubmitFault};
use page_core::outcome::Outcome;
use page_core::pins::Pins;
use std::alloc::{AllocError, Global};
use std::marker::Model;
use value_core::datum::Datum;

/// The most sessions that an inside gives out.
pub const MOST_SESSIONS: u32 = 1024;

/// A desk, how many sessions were given out, and the names under which some of them were.
///
/// A contract sees it as a board, that number and the names. The board is that of a desk: what holds of each such board
/// (`IsSound`, `Rests`) holds of it, as [`Inside::desk`] says.
#[derive(Drop)]
pub struct Inside {
    pub(crate) desk: Desk,
    pub(crate) given: u32,
    pub(crate) clients: Clients,
    // Which call runs that others wait for. No clause hangs on it.
    turns: Turns,
}

impl Model for Inside {
    ghost use Rattle.office_core.specs.Insides.{InsideView};
    ghost use Rattle.desk_core.specs.contracts.desk.Desk as d;
    ghost use Rattle.office_core.specs.contracts.clients.Clients as k;
    ghost use Rattle.office_core.specs.Clients.{AreClients};
    ghost use Rattle.std.specs.Prelude.{◌≤◌};
    ghost use Rattle.std.specs.Coded.{codes};

    ghost Value = { InsideView };

    ghost coded = { Prim.hlevel (codes, d.the_row.coded, k.the_row.coded) };

    ghost view = { λ r. record { board = r.desk; given = r.given; clients = r.clients } };

    ghost invariant = { λ r. (r.given ≤ 1024) × AreClients r.given r.clients };
}

/// All sessions are given out.
#[derive(Clone, Copy, Debug, PartialEq, Eq)]
pub struct SeatsFull {
    /// How many.
    pub given: u32,
}

/// Why an inside is not closed. The first that applies is told.
#[derive(Clone, Copy, Debug, PartialEq, Eq)]
pub enum CloseFault {
    /// A call waits or runs.
    Outstanding,
    /// The seats, with those that are parked here, are not those of the sessions given out, each once, or their counts
    /// do not add up to the history's length.
    SeatMissing,
    /// The receipt or slip of this index, from 0, the first such one, does not tell of the entry at its place.
    Mismatch { receipt: usize, place: usize },
}

/// What a refused close hands back, and why it was refused.
#[derive(Drop)]
pub struct CloseRefused {
    pub inside: Inside,
    pub seats: Vec<Seat>,
    pub why: CloseFault,
}

/// What is left of an inside when all is done.
#[derive(Drop)]
pub struct Closed {
    /// The desk.
    pub desk: Desk,
}

// Takes apart a submission that has been answered.
fn spend(submitted: Submitted) {
    let Submitted { number: _, call: _ } = submitted;
}

impl Inside {
    /// An inside with the desk that `Desk::open` gives, and no sessions given out. The error is that memory was
    /// refused.
    pub fn open(alloc: Global, accepted: Accepted, pins: Pins) -> Result<Inside, AllocError>
        requires { length pins ≡ length accepted.parts.items }
        ensures { IfOk result (λ r. r ≡ record { board = opened accepted pins; given = 0; clients = [] }) }
    {
        let turns = Turns::new(&accepted);
        let desk = Desk::open(alloc, accepted, pins)?;
        Ok(Inside {
            desk,
            given: 0,
            clients: Clients::new(alloc),
            turns,
        })
    }

    /// The desk.
    pub fn desk(&self) -> &Desk
        ensures desk { result.now ≡ self.now.board }
        ensures sound { IsSound self.now.board }
        ensures rests { Rests self.now.board }
    {
        // Called for its contract alone: the board is sound.
        let _history = self.desk.history();
        &self.desk
    }

    /// The next session, from 1 to 1,024, under no name. The error is that there is none left, and tells how many were
    /// given out; nothing is changed.
    pub fn seat(&mut self) -> Result<Seat, SeatsFull>
        ensures ok { IfOk result (λ seat. IsFresh (self.old.given + 1) seat × (self.old.given < 1024)
            × (self.new.given ≡ self.old.given + 1)) }
        ensures full { IfErr result (λ e. (e.given ≡ self.old.given) × (1024 ≤ e.given)
            × (self.new.given ≡ self.old.given)) }
        ensures board { self.new.board ≡ self.old.board }
        ensures clients { self.new.clients ≡ self.old.clients }
    {
        if self.given >= MOST_SESSIONS {
            return Err(SeatsFull { given: self.given });
        }
        self.given += 1;
        Ok(Seat::new(self.given))
    }

    /// Takes a call of this seat's session, as the desk's `submit` does. The errors are those of `submit`, in its
    /// order, and change nothing.
    pub fn submit(
        &mut self,
        seat: &mut Seat,
        op: &str,
        args: &[Datum],
    ) -> Result<Submitted, SubmitFault>
        ensures asks { IfOk result (λ s. Asks op.now args.now s) }
        ensures board { IfOk result (λ s. Submits self.old.board (record
            { session = seat.old.session; name = op.now; arguments = args.now }) (Ok s.number) self.new.board) }
        ensures accepted { IfOk result (λ s. IsOf self.new.board s) }
        ensures refused { IfErr result (λ fault.
            Submits self.old.board (record { session = seat.old.session; name = op.now; arguments = args.now })
            (Err fault) self.new.board) }
        ensures given { KeepsSeats self.old self.new }
        ensures seat { seat.new ≡ seat.old }
    {
        match self.desk.submit_and_share(seat.session(), op, args) {
            Ok((number, call)) => return Ok(Submitted { number, call }),
            Err(fault) => return Err(fault),
        }
    }

    /// Looks whether a submitted call has started, as the desk's `collect` does, where the call of that number has
    /// the operation and the arguments of the submission; else, and where `collect` knows of no such call, the
    /// submission is a stranger, and nothing is changed. It takes no memory.
    pub fn try_start(&mut self, submitted: Submitted) -> Tried
        ensures tells { Tells submitted result }
        ensures inside { Tries self.old submitted result self.new }
    {
        if !is_of(&self.desk, &submitted) {
            return Tried::Stranger(submitted);
        }
        self.look(submitted)
    }

    /// Looks whether a submitted call has started, as the desk's `collect` does, where the submission was just made
    /// here, or is known to be of the call of its number. Where `collect` knows of no such call, the submission is a
    /// stranger, and nothing is changed. It takes no memory.
    pub(crate) fn look(&mut self, submitted: Submitted) -> Tried
        requires { IsOf self.old.board submitted }
        ensures tells { Tells submitted result }
        ensures inside { Tries self.old submitted result self.new }
    {
        // Called for its contract alone: the board is sound.
        let _history = self.desk.history();
        match self.desk.collect(submitted.number) {
            Collected::Ticket(ticket) => {
                spend(submitted);
                return Tried::Ticket(ticket);
            }
            Collected::Waiting => return Tried::Waiting(submitted),
            Collected::Cancelled => {
                spend(submitted);
                return Tried::Cancelled;
            }
            Collected::Unknown => return Tried::Stranger(submitted),
        }
    }

    /// Takes the outcome of a call that runs here, and leaves it where it lies, as the desk's `finish_in_place` does:
    /// the seat has then seen the place of its entry, and counts one receipt more. It takes no memory.
    ///
    /// The errors, in this order, change nothing: the place that it would get is not past the greatest that the seat
    /// has seen (`Front`), or no running call has it, or it was handed in before (`Stranger`).
    pub fn complete_in_place(
        &mut self,
        seat: &mut Seat,
        outcome: &mut Outcome,
    ) -> Result<Finished, NotTaken>
        ensures seat { ReceivesInPlace seat.old outcome.old result outcome.new seat.new }
        ensures inside { CompletesInPlace self.old seat.old outcome.old result outcome.new self.new }
        ensures sound { IsSound self.old.board }
    {
        let found = self.desk.history().len() + 1;
        let seen = seat.seen();
        if found <= seen {
            return Err(NotTaken::Front { seen, found });
        }
        let Some(finished) = self.desk.finish_in_place(outcome) else {
            return Err(NotTaken::Stranger);
        };
        *seat = seat.after(finished.place);
        Ok(finished)
    }

    // When a call of the operation of this name is best submitted.
    pub(crate) fn pace(&self, op: &str) -> Pace {
        let operations = &self.desk.accepted().object().operations;
        self.turns.pace(operations, op.as_bytes())
    }

    // Notes that the call of this number started.
    pub(crate) fn note_start(&mut self, number: u32)
        ensures { self.new ≡ self.old }
    {
        let Some(call) = self.desk.call(number) else {
            return;
        };
        let op = call.op();
        self.turns.note_start(number, op);
    }

    // Notes that the call of this number ended, and answers whether others may have waited for it.
    pub(crate) fn note_end(&mut self, number: u32) -> bool
        ensures { self.new ≡ self.old }
    {
        self.turns.note_end(number)
    }

    // Whether no call runs that others would wait for.
    pub(crate) fn is_open(&self) -> bool {
        self.turns.is_open()
    }

    /// Takes a waiting call out, as the desk's `cancel` does. It takes no memory.
    pub fn cancel(&mut self, number: u32) -> Cancelled
        ensures board { Cancels self.old.board number result self.new.board }
        ensures given { KeepsSeats self.old self.new }
    {
        self.desk.cancel(number)
    }

    /// A session leaves, as by the desk's `disconnect`: that of a name is back once its seat was parked and is given
    /// out again. It takes no memory.
    pub fn leave(&mut self, session: u32)
        ensures left { 0 < session → session ≤ 1024 →
            Settles (marked (released self.old.board session) session) self.new.board }
        ensures none { (session ≡ 0) ⊎ (1024 < session) → self.new.board ≡ self.old.board }
        ensures given { KeepsSeats self.old self.new }
    {
        self.desk.disconnect(session);
    }

    // What keeps the inside open with these seats, whatever receipts there are.
    pub(crate) fn missing(&self, seats: &[Seat]) -> Option<CloseFault>
        ensures some { IfSome result (IsOpen self.now seats.now) }
        ensures none { IfNone result (IsIdle self.now.board × AreSeatsOf self.now seats.now) }
    {
        if !self.desk.is_idle() {
            return Some(CloseFault::Outstanding);
        }
        if !are_seats(&self.clients, seats, self.given, self.desk.history().len()) {
            return Some(CloseFault::SeatMissing);
        }
        None
    }

    // What is left of an inside that is closed.
    pub(crate) fn closed(self) -> Closed
        ensures { result.desk ≡ self.board }
    {
        let Inside {
            desk,
            given: _,
            clients: _,
            turns: _,
        } = self;
        Closed { desk }
    }

    /// Ends the work by slips, each of which tells what a receipt told: where no call waits or runs, the seats, with
    /// those that are parked here, are those of the sessions given out, each once, their counts add up to the history's
    /// length, and each slip tells of the entry at its place. It takes no memory.
    ///
    /// The errors hand inside and seats back, with the first cause of [`CloseFault`] that applies.
    pub fn close_by_slips(self, seats: Vec<Seat>, slips: &[Slip]) -> Result<Closed, CloseRefused>
        ensures { ClosesBySlips self seats.items slips.now result }
    {
        if let Some(why) = self.missing(&seats) {
            return Err(CloseRefused {
                inside: self,
                seats,
                why,
            });
        }
        if let Some((receipt, place)) = first_mismatched_slip(self.desk.history(), slips) {
            return Err(CloseRefused {
                inside: self,
                seats,
                why: CloseFault::Mismatch { receipt, place },
            });
        }
        Ok(self.closed())
    }
}
