//! Public calls that no program makes: they are there for laws and tests, off the path of a call.
//!
//! Of an office each answer of these is a receipt, and a call that waits is tried. What a server makes in their place
//! takes no memory, and keeps slips: `submit_in_turn`, `complete_in_place`, `close_by_slips` and `kept`.

ghost use Rattle.std.specs.Prelude.{◌≡◌, ◌↔◌, IsTrue, IfOk, IfSome, IfNone};
ghost use Rattle.board_core.specs.declared.receipt.Receipt.{Receipt as AReceipt};
ghost use Rattle.board_core.specs.Answers.{IsGone};
ghost use Rattle.board_core.specs.Board.{Board};
ghost use Rattle.board_core.specs.Keyed.{SubmitsKeyed};
ghost use Rattle.board_core.specs.Keys.{next_key};
ghost use Rattle.page_core.specs.Lists.{Every};
ghost use Rattle.board_core.specs.Sound.{IsSound};
ghost use Rattle.office_core.specs.Closing.{Closes, Stands, Misses, place_of_receipt};
ghost use Rattle.office_core.specs.Insides.{InsideView, KeepsSeats};
ghost use Rattle.office_core.specs.Keyed.{answer_of, Resubmits};
ghost use Rattle.office_core.specs.Seats.{Completes, Receives, fault_with};
ghost use Rattle.office_core.specs.Submissions.{Asks, Tells};

use crate::client_seat::Seat;
use crate::inside::{CloseFault, CloseRefused, Closed, Inside};
use crate::office::Office;
use crate::seat::{CompleteFault, NotTaken, Submitted, Tried};
use crate::slip::Slip;
use apply_core::reply::Reply;
use board_core::answer::EarlierCall;
use board_core::receipt::Receipt;
use board_core::uncalled::is_entry_of;
use guest_core::answer::{KeyedFault, SubmitFault};
use page_core::entry::Entry;
use page_core::outcome::Outcome;
use std::sync::Wait;
use value_core::datum::Datum;

/// What a call under a key is answered. A submission has to be spent, by a wait for its start.
pub enum Resubmitted {
    /// The call was taken.
    New(Submitted),
    /// The session made it before, under this key, and this became of it.
    Kept(EarlierCall),
}

// Why an outcome was not taken, with the outcome, which is handed back.
fn with_outcome(why: NotTaken, outcome: Outcome) -> CompleteFault
    ensures { result ≡ fault_with why outcome }
{
    match why {
        NotTaken::Front { seen, found } => CompleteFault::Front {
            seen,
            found,
            outcome,
        },
        NotTaken::Stranger => CompleteFault::Stranger(outcome),
    }
}

// Whether a receipt tells of the entry at its place.
fn stands(history: &[Entry], receipt: &Receipt) -> bool
    ensures { IsTrue result ↔ Stands history.now receipt.now }
{
    if receipt.place == 0 {
        return false;
    }
    match history.get(receipt.place - 1) {
        None => false,
        Some(entry) => is_entry_of(entry, &receipt.noted),
    }
}

// The index and the place of the first receipt that tells of no entry at its place.
fn first_mismatch(history: &[Entry], receipts: &[Receipt]) -> Option<(usize, usize)>
    ensures none { IfNone result (Every (Stands history.now) receipts.now) }
    ensures some { IfSome result (λ k. Misses AReceipt (Stands history.now) place_of_receipt receipts.now k.0 k.1) }
{
    for k in 0..receipts.len() {
        if !stands(history, &receipts[k]) {
            return Some((k, receipts[k].place));
        }
    }
    None
}

impl Inside {
    /// Takes a call of this seat's session under a key, as the desk's `submit_keyed` does: under the key of the
    /// session's next call it is a [`Inside::submit`]; under that of an earlier one it answers what became of that call,
    /// changes nothing and takes no memory.
    ///
    /// The errors are those of `submit_keyed`, in its order, and change nothing.
    pub fn submit_keyed(
        &mut self,
        seat: &mut Seat,
        key: u32,
        op: &str,
        args: &[Datum],
    ) -> Result<Resubmitted, KeyedFault>
        ensures told { Resubmits self.new.board (record {
          session = seat.old.session;
          name = op.now;
          arguments = args.now;
        }) key result }
        ensures board { SubmitsKeyed self.old.board (record {
          session = seat.old.session;
          name = op.now;
          arguments = args.now;
        }) key (answer_of result) self.new.board }
        ensures given { KeepsSeats self.old self.new }
        ensures seat { seat.new ≡ seat.old }
    {
        match self.kept(seat, key, op, args) {
            Ok(None) => self.submit_next(seat, op, args),
            Ok(Some(kept)) => Ok(Resubmitted::Kept(kept)),
            Err(fault) => Err(fault),
        }
    }

    // Takes a call of this seat's session under its next key.
    fn submit_next(
        &mut self,
        seat: &mut Seat,
        op: &str,
        args: &[Datum],
    ) -> Result<Resubmitted, KeyedFault>
        requires here { IsGone self.old.board seat.old.session → ⊥ }
        requires sound { IsSound self.old.board }
        ensures told { Resubmits self.new.board (record {
          session = seat.old.session;
          name = op.now;
          arguments = args.now;
        }) (next_key self.old.board.calls seat.old.session) result }
        ensures board { SubmitsKeyed self.old.board (record {
          session = seat.old.session;
          name = op.now;
          arguments = args.now;
        }) (next_key self.old.board.calls seat.old.session) (answer_of result) self.new.board }
        ensures given { KeepsSeats self.old self.new }
        ensures seat { seat.new ≡ seat.old }
    {
        match self.submit(seat, op, args) {
            Ok(submitted) => Ok(Resubmitted::New(submitted)),
            Err(fault) => Err(KeyedFault::Submit(fault)),
        }
    }

    /// Takes the outcome of a call that runs here, as the desk's `finish` does: the seat has then seen the place of
    /// its entry, and counts one receipt more. It takes no memory.
    ///
    /// The errors, in this order, hand the outcome back and change nothing: the place that it would get is not past
    /// the greatest that the seat has seen (`Front`), or no running call has it, or it was handed in before
    /// (`Stranger`).
    pub fn complete(&mut self, seat: &mut Seat, outcome: Outcome) -> Result<Receipt, CompleteFault>
        ensures seat { Receives seat.old outcome result seat.new }
        ensures inside { Completes self.old seat.old outcome result self.new }
    {
        let mut outcome = outcome;
        match self.complete_in_place(seat, &mut outcome) {
            Ok(finished) => Ok(finished.receipt(outcome)),
            Err(why) => Err(with_outcome(why, outcome)),
        }
    }

    /// Ends the work: where no call waits or runs, the seats, with those that are parked here, are those of the
    /// sessions given out, each once, their counts add up to the history's length, and each receipt tells of the entry
    /// at its place. It takes no memory.
    ///
    /// The errors hand inside and seats back, with the first cause of [`CloseFault`] that applies.
    pub fn close(self, seats: Vec<Seat>, receipts: &[Receipt]) -> Result<Closed, CloseRefused>
        ensures { Closes self seats.items receipts.now result }
    {
        if let Some(why) = self.missing(&seats) {
            return Err(CloseRefused {
                inside: self,
                seats,
                why,
            });
        }
        if let Some((receipt, place)) = first_mismatch(self.desk.history(), receipts) {
            return Err(CloseRefused {
                inside: self,
                seats,
                why: CloseFault::Mismatch { receipt, place },
            });
        }
        Ok(self.closed())
    }
}

impl Office {
    /// Submits a call of this seat's session, as [`Inside::submit`].
    pub fn submit<R: Wait>(
        &self,
        rt: &R,
        seat: &mut Seat,
        op: &str,
        args: &[Datum],
    ) -> Result<Submitted, SubmitFault>
        ensures asks { IfOk result (λ s. Asks op.now args.now s) }
        ensures seat { seat.new ≡ seat.old }
    {
        // The only call that a submission may start is its own, for which nobody waits yet.
        self.enter(rt).submit(seat, op, args)
    }

    /// Looks whether a submitted call has started or was cancelled, as [`Inside::try_start`]. It does not wait for that.
    pub fn try_start<R: Wait>(&self, rt: &R, submitted: Submitted) -> Tried
        ensures { Tells submitted result }
    {
        self.enter(rt).try_start(submitted)
    }

    /// Submits a call of this seat's session under a key, as [`Inside::submit_keyed`]. Of a call that the session made
    /// before it answers what some board of this office has of it.
    pub fn submit_keyed<R: Wait>(
        &self,
        rt: &R,
        seat: &mut Seat,
        key: u32,
        op: &str,
        args: &[Datum],
    ) -> Result<Resubmitted, KeyedFault>
        ensures told { (b : Board) × Resubmits b (record {
          session = seat.old.session;
          name = op.now;
          arguments = args.now;
        }) key result }
        ensures seat { seat.new ≡ seat.old }
    {
        // The only call that a submission may start is its own, for which nobody waits yet.
        self.enter(rt).submit_keyed(seat, key, op, args)
    }

    /// Takes the outcome of a call that runs here, as [`Inside::complete`].
    pub fn complete<R: Wait>(
        &self,
        rt: &R,
        seat: &mut Seat,
        outcome: Outcome,
    ) -> Result<Receipt, CompleteFault>
        ensures seat { Receives seat.old outcome result seat.new }
    {
        let mut outcome = outcome;
        match self.complete_in_place(rt, seat, &mut outcome) {
            Ok(finished) => Ok(finished.receipt(outcome)),
            Err(why) => Err(with_outcome(why, outcome)),
        }
    }

    /// Takes the inside out of the lock and closes it, as [`Inside::close`].
    pub fn close(self, seats: Vec<Seat>, receipts: &[Receipt]) -> Result<Closed, CloseRefused>
        ensures { (r : InsideView) × Closes r seats.items receipts.now result }
    {
        let inside = Box::into_inner(self.inside.into_inner());
        inside.close(seats, receipts)
    }
}

impl Slip {
    /// What the call replied.
    pub fn reply(&self) -> Reply
        ensures { result ≡ self.now.reply }
    {
        self.reply.reply()
    }
}
