//! A desk: its tables, in which no waiting call may start.

ghost use Rattle.std.specs.Prelude.{◌≡◌, ◌+◌, ◌<◌, ◌≤◌, ◌⊎◌, ◌↔◌, length, IfOk, IfErr, OnOk, IfSome, IfNone, IsTrue};
ghost use Rattle.std.specs.Prelude.{true, false, Some, None, slice_get};
ghost use Rattle.std.specs.Arc.{arc_value};
ghost use Rattle.page_core.specs.ObjectCalls.{AcceptedCall};
ghost use Rattle.board_core.specs.Board.{opened, joined, released, marked, call_at, Rests};
ghost use Rattle.board_core.specs.Started.{Settles};
ghost use Rattle.board_core.specs.Keys.{next_key, resumed};
ghost use Rattle.board_core.specs.Keyed.{Finds, SubmitsKeyed};
ghost use Rattle.board_core.specs.Sound.{IsSound};
ghost use Rattle.decl_core.specs.ObjectMap.{object_of};
ghost use Rattle.word_core.specs.Text.{trace_text as text_of};
ghost use Rattle.desk_core.specs.Told.{lines_told};
ghost use Rattle.board_core.specs.Answers.{IsGone, IsTaken, IsRefused, Cancels, Collects, Finishes, IsStranger};
ghost use Rattle.board_core.specs.Answers.{receipt_by, waits_in, runs_in, runs_by};

use crate::roster::{MOST_SESSIONS, Roster};
use board_core::answer::{Collected, EarlierCall, Finished, Keyed, Stranger};
use board_core::event::TraceEvent;
use board_core::receipt::Receipt;
use decl_core::analyse::Accepted;
use guest_core::answer::{Cancelled, KeyedFault, SubmitFault};
use page_core::call::Call;
use page_core::entry::Entry;
use page_core::outcome::Outcome;
use page_core::pins::Pins;
use std::alloc::{AllocError, Global};
use std::marker::Model;
use std::sync::Arc;
use value_core::datum::Datum;
use value_core::value::Value;

/// The calls of an object: those that wait, those that run, and the history of those that finished.
///
/// A contract sees it as a `Board`. No waiting call may start between the calls of a desk.
#[derive(Drop)]
pub struct Desk {
    roster: Roster,
}

impl Model for Desk {
    ghost use Rattle.board_core.specs.Board.{Board, Rests};
    ghost use Rattle.decl_core.specs.contracts.object.Object as o;
    ghost use Rattle.decl_core.specs.contracts.object.Operation as e;
    ghost use Rattle.std.specs.Coded.{codes};

    ghost Value = { Board };

    ghost coded = { Prim.hlevel (codes, o.the_row.coded, e.the_row.coded) };

    ghost view = { λ d. d.roster };

    ghost invariant = { λ d. Rests d.roster };
}

/// What happened to the calls of a desk, in order: starts and ends.
#[derive(Clone, Copy)]
pub struct Trace<'a> {
    desk: &'a Desk,
}

impl Trace<'_> {
    /// How many events there are.
    pub fn len(&self) -> usize
        ensures { result ≡ length self.now.desk.now.trace }
    {
        let desk = self.desk;
        desk.roster.trace_len()
    }

    /// The event at this place, from 0, or `None` behind the last.
    pub fn get(&self, place: usize) -> Option<TraceEvent>
        ensures { result ≡ slice_get self.now.desk.now.trace place }
    {
        let desk = self.desk;
        desk.roster.event(place)
    }
}

impl Desk {
    /// The desk of an object whose parts stand under these pins, one for each part, without calls. The error is
    /// that memory was refused.
    pub fn open(alloc: Global, accepted: Accepted, pins: Pins) -> Result<Desk, AllocError>
        requires { length pins ≡ length accepted.parts.items }
        ensures { IfOk result (λ d. d ≡ opened accepted pins) }
    {
        let roster = Roster::open(alloc, accepted, pins)?;
        Ok(Desk { roster })
    }

    /// Takes a call of a session, of the operation of this name, in any case: it gets the next number, from 1,
    /// waits, and starts as soon as every path admits it.
    ///
    /// The errors, of which the first that applies is told, are those of [`SubmitFault`]; a refused submission
    /// takes no number and changes nothing. All the memory that the call will need is taken here.
    pub fn submit(&mut self, session: u32, op: &str, args: &[Datum]) -> Result<u32, SubmitFault>
        ensures number { IfOk result (λ n. n ≡ length self.old.calls + 1) }
        ensures board { OnOk result ((call : AcceptedCall)
            × IsTaken self.old (record { session = session; name = op.now; arguments = args.now }) call
            × Settles (joined self.old call) self.new) }
        ensures refused { IfErr result (λ f.
            IsRefused self.old (record { session = session; name = op.now; arguments = args.now }) f
            × (self.new ≡ self.old)) }
        ensures history { self.new.history ≡ self.old.history }
        ensures pins { self.new.pins ≡ self.old.pins }
    {
        match self.submit_and_share(session, op, args) {
            Ok((number, _call)) => return Ok(number),
            Err(fault) => return Err(fault),
        }
    }

    /// Takes a call of a session, of the operation of this name, in any case, as [`Desk::submit`], and hands out the
    /// call beside its number, shared.
    ///
    /// The errors, of which the first that applies is told, are those of [`SubmitFault`]; a refused submission takes no
    /// number and changes nothing. All the memory that the call will need is taken here.
    pub fn submit_and_share(
        &mut self,
        session: u32,
        op: &str,
        args: &[Datum],
    ) -> Result<(u32, Arc<Call>), SubmitFault>
        ensures number { IfOk result (λ r. r.0 ≡ length self.old.calls + 1) }
        ensures taken { IfOk result (λ r. IsTaken self.old (record {
          session = session;
          name = op.now;
          arguments = args.now;
        }) (arc_value r.1)) }
        ensures board { IfOk result (λ r. Settles (joined self.old (arc_value r.1)) self.new) }
        ensures refused { IfErr result (λ f.
            IsRefused self.old (record { session = session; name = op.now; arguments = args.now }) f
            × (self.new ≡ self.old)) }
        ensures history { self.new.history ≡ self.old.history }
        ensures pins { self.new.pins ≡ self.old.pins }
    {
        let place = match self.roster.asked(session, op.as_bytes(), args) {
            Ok(place) => place,
            Err(fault) => return Err(fault),
        };
        match self.roster.join(session, place, args) {
            Ok((number, call)) => {
                self.roster.admit();
                Ok((number, call))
            }
            Err(AllocError) => Err(SubmitFault::Memory),
        }
    }

    /// What is known of a key of a session, for a call of the operation of this name, in any case, with these
    /// arguments: the call that the session made under it, or `None` where it is the key of the session's next call.
    /// The key of a call is its rank, from 1, among the accepted calls of its session, cancelled ones included. No
    /// search grows with the history.
    ///
    /// The errors are the first three of [`KeyedFault`], of which the first that applies is told.
    pub fn kept(
        &self,
        session: u32,
        key: u32,
        op: &str,
        args: &[Datum],
    ) -> Result<Option<EarlierCall>, KeyedFault>
        ensures { Finds self.now (record { session = session; name = op.now; arguments = args.now }) key result }
    {
        self.roster.kept(session, key, op.as_bytes(), args)
    }

    /// Takes a call of a session under a key. Under the key of the session's next call it is a [`Desk::submit`]. Under
    /// that of an earlier one, which has to be of the same operation and arguments, it answers what became of that
    /// call, also while a call of the session waits or runs: nothing is changed then, and no memory is taken.
    ///
    /// The errors, of which the first that applies is told, are those of [`KeyedFault`]; a refused call takes no key
    /// and changes nothing.
    pub fn submit_keyed(
        &mut self,
        session: u32,
        key: u32,
        op: &str,
        args: &[Datum],
    ) -> Result<Keyed, KeyedFault>
        ensures board { SubmitsKeyed self.old (record { session = session; name = op.now; arguments = args.now }) key
            result self.new }
        ensures history { self.new.history ≡ self.old.history }
        ensures pins { self.new.pins ≡ self.old.pins }
    {
        match self.kept(session, key, op, args) {
            Ok(None) => self.submit_next(session, op, args),
            Ok(Some(kept)) => Ok(Keyed::Kept(kept)),
            Err(fault) => Err(fault),
        }
    }

    // Takes a call under the session's next key.
    fn submit_next(&mut self, session: u32, op: &str, args: &[Datum]) -> Result<Keyed, KeyedFault>
        requires here { IsGone self.old session → ⊥ }
        ensures board { SubmitsKeyed self.old (record { session = session; name = op.now; arguments = args.now })
            (next_key self.old.calls session) result self.new }
        ensures history { self.new.history ≡ self.old.history }
        ensures pins { self.new.pins ≡ self.old.pins }
    {
        match self.submit(session, op, args) {
            Ok(number) => Ok(Keyed::New(number)),
            Err(fault) => Err(KeyedFault::Submit(fault)),
        }
    }

    /// The key of the session's next call. What has no number from 1 to 1,024 is no session: 1.
    pub fn next_key(&self, session: u32) -> u32
        ensures key { 0 < session → session ≤ 1024 → result ≡ next_key self.now.calls session }
        ensures none { (session ≡ 0) ⊎ (1024 < session) → result ≡ 1 }
    {
        if session == 0 || session as usize > MOST_SESSIONS {
            return 1;
        }
        self.roster.next_key(session)
    }

    /// What became of a call: its ticket, once, with the pins that were published at its start.
    pub fn collect(&mut self, number: u32) -> Collected
        ensures board { Collects self.old number result self.new }
        ensures history { self.new.history ≡ self.old.history }
        ensures pins { self.new.pins ≡ self.old.pins }
    {
        if let Some(place) = self.roster.place_of_left(number) {
            match self.roster.collect(place) {
                Some(ticket) => return Collected::Ticket(ticket),
                None => unreachable!(),
            }
        }
        if self.roster.waits(number) {
            return Collected::Waiting;
        }
        if self.roster.runs(number) {
            return Collected::Unknown;
        }
        if self.roster.is_ended(number) {
            return Collected::Unknown;
        }
        match self.roster.call(number) {
            Some(_) => return Collected::Cancelled,
            None => return Collected::Unknown,
        }
    }

    /// Takes the outcome of a call that runs here: it has finished, what it staged is published if it was done,
    /// and its entry is the history's last. The error hands back each other outcome, and nothing is changed.
    ///
    /// A running call is the outcome's if its number, its operation, by its whole declaration, its arguments
    /// and its pins are. An outcome that was handed in before is taken no more.
    pub fn finish(&mut self, outcome: Outcome) -> Result<Receipt, Stranger>
        ensures board { IfOk result (λ receipt. Finishes self.old outcome receipt self.new) }
        ensures stranger { IfErr result (λ s. (s.0 ≡ outcome) × (self.new ≡ self.old) × IsStranger self.old outcome) }
    {
        let mut outcome = outcome;
        match self.finish_in_place(&mut outcome) {
            Some(finished) => Ok(finished.receipt(outcome)),
            None => Err(Stranger(outcome)),
        }
    }

    /// Takes the outcome of a call that runs here, as [`Desk::finish`], but leaves it where it lies, since to hand one
    /// in and out moves a kilobyte each time. What its entry and its receipt keep is taken out of it; what it tells of
    /// its call stays. It answers what a receipt has beside it, or `None` where it is a stranger, and nothing is
    /// changed.
    pub fn finish_in_place(&mut self, outcome: &mut Outcome) -> Option<Finished>
        ensures board { IfSome result (λ f. Finishes self.old outcome.old (receipt_by f outcome.new) self.new) }
        ensures stranger { IfNone result ((self.new ≡ self.old) × (outcome.new ≡ outcome.old)
            × IsStranger self.old outcome.old) }
    {
        let Some(place) = self.roster.place_to_end(outcome) else {
            return None;
        };
        let news = outcome.take_entry();
        let session = self
            .roster
            .end(place, outcome.reply(), outcome.new_pins(), news);
        self.roster.admit();
        let mut free = outcome.take_free();
        self.roster.pick(&mut free);
        let place = self.roster.history().len();
        Some(Finished {
            place,
            session,
            free,
        })
    }

    /// Takes a waiting call out. A running call goes on.
    pub fn cancel(&mut self, number: u32) -> Cancelled
        ensures board { Cancels self.old number result self.new }
        ensures history { self.new.history ≡ self.old.history }
        ensures pins { self.new.pins ≡ self.old.pins }
    {
        if self.roster.waits(number) {
            self.roster.dismiss(number);
            self.roster.admit();
            return Cancelled::Cancelled;
        }
        if self.roster.runs(number) {
            return Cancelled::Running;
        }
        match self.roster.call(number) {
            Some(_) => return Cancelled::Ended,
            None => return Cancelled::Unknown,
        }
    }

    /// A session leaves: its waiting call is cancelled, its running call goes on, and its later submissions are
    /// refused as Gone, until a [`Desk::resume`]. What has no number from 1 to 1,024 is no session.
    pub fn disconnect(&mut self, session: u32)
        ensures left { 0 < session → session ≤ 1024 → Settles (marked (released self.old session) session) self.new }
        ensures none { (session ≡ 0) ⊎ (1024 < session) → self.new ≡ self.old }
        ensures history { self.new.history ≡ self.old.history }
        ensures pins { self.new.pins ≡ self.old.pins }
    {
        if session == 0 || session as usize > MOST_SESSIONS {
            return;
        }
        self.roster.release(session);
        self.roster.mark(session);
        self.roster.admit();
    }

    /// A session is back: where it had left, its submissions are taken again, and nothing else changes. It answers
    /// whether there is such a session: they have the numbers from 1 to 1,024. It takes no memory.
    pub fn resume(&mut self, session: u32) -> bool
        ensures back { 0 < session → session ≤ 1024 → (result ≡ true) × (self.new ≡ resumed self.old session) }
        ensures none { (session ≡ 0) ⊎ (1024 < session) → (result ≡ false) × (self.new ≡ self.old) }
        ensures history { self.new.history ≡ self.old.history }
        ensures pins { self.new.pins ≡ self.old.pins }
    {
        if session == 0 || session as usize > MOST_SESSIONS {
            return false;
        }
        self.roster.unmark(session);
        true
    }

    /// Whether the call of this number waits.
    pub fn waits(&self, number: u32) -> bool
        ensures { result ≡ waits_in self.now number }
    {
        self.roster.waits(number)
    }

    /// Whether the call of this number runs.
    pub fn runs(&self, number: u32) -> bool
        ensures { result ≡ runs_in self.now number }
    {
        self.roster.runs(number)
    }

    /// Whether a call of this session runs.
    pub fn runs_for(&self, session: u32) -> bool
        ensures { result ≡ runs_by self.now session }
    {
        self.roster.runs_for(session)
    }

    /// Whether no call waits or runs.
    pub fn is_idle(&self) -> bool
        ensures { IsTrue result ↔ (length self.now.waiting + length self.now.running ≡ 0) }
    {
        self.roster.open_calls() == 0
    }

    /// The object.
    pub fn accepted(&self) -> &Accepted
        ensures { result.now ≡ self.now.object }
    {
        self.roster.accepted()
    }

    /// What happened to the calls, in order. No event has to be looked for or copied: a desk keeps the reply of an end
    /// once, in its entry.
    pub fn trace(&self) -> Trace<'_>
        ensures { result.desk.now ≡ self.now }
    {
        Trace { desk: self }
    }

    /// The text of the trace (docs/LANGUAGE.md), with these opening values, one for each part, in order: what happened
    /// to the calls, the oldest first. The error is that memory was refused.
    pub fn trace_text(&self, opening: &[Value]) -> Result<Vec<u8>, AllocError>
        ensures { IfOk result (λ text. text.items
            ≡ text_of (object_of self.now.object) opening.now (lines_told self.now)) }
    {
        self.roster.trace_text(opening)
    }

    /// The calls that have finished, in order.
    pub fn history(&self) -> &[Entry]
        ensures history { result.now ≡ self.now.history }
        ensures sound { IsSound self.now }
        ensures rests { Rests self.now }
    {
        self.roster.history()
    }

    /// The published pins.
    pub fn pins(&self) -> Pins
        ensures { result ≡ self.now.pins }
    {
        self.roster.pins()
    }

    /// The pins of the beginning.
    pub fn opening_pins(&self) -> Pins
        ensures { result ≡ self.now.opening }
    {
        self.roster.opening_pins()
    }

    /// The accepted call of this number, also where it was cancelled or has finished.
    pub fn call(&self, number: u32) -> Option<&Call>
        ensures some { IfSome result (λ x. call_at self.now.calls number ≡ Some x.now) }
        ensures none { IfNone result (call_at self.now.calls number ≡ None) }
    {
        self.roster.call(number)
    }
}
