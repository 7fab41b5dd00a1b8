//! An object that is kept.

ghost use Rattle.std.specs.Prelude.{◌≡◌, ◌≢◌, ◌+◌, ◌-◌, ◌<◌, List, [], ◌∷◌, ◌++◌, length, Ok, true, false, IsTrue, IfOk, IfErr};
ghost use Rattle.std.specs.Prelude.{ℕ, IfSome, IfNone, OnErr, Some, slice_get};
ghost use Rattle.path_count.specs.Past.{events_of};
ghost use Rattle.word_core.specs.Events.{Called};
ghost use Rattle.live_core.specs.declared.call.Carried.{Carried as ACarried};
ghost use Rattle.live_core.specs.Hall.{Every, Told, IsKept, IsHeld};
ghost use Rattle.live_core.specs.Settles.{with_all};
ghost use Rattle.live_core.specs.Steps.{joined, IsFixed, IsSame, Leaves, SettlesTo};
ghost use Rattle.live_core.specs.Epochs.{IsBegun, told_behind};
ghost use Rattle.live_core.specs.Answers.{asked, carried_from, IsTaken, IsRefused, IsSetUp};

use crate::call::{Carried, Limits, LiveCall, Ran};
use crate::hall::Hall;
use decl_core::object::Object;
use guest_core::answer::SubmitFault;
use path_count::counters::Counters;
use path_count::past::PastEvent;
use path_tree::node::OpId;
use std::alloc::{AllocError, Global};
use std::marker::Model;
use value_core::datum::Datum;
use value_core::value::Value;

/// An object, in one hand. No call of it runs, and no waiting call may start.
#[derive(Drop)]
pub struct Live {
    alloc: Global,
    hall: Hall,
}

impl Model for Live {
    ghost use Rattle.live_core.specs.Hall.{Hall as AHall, Told, IsHeld};
    ghost use Rattle.decl_core.specs.contracts.object.Object as o;
    ghost use Rattle.std.specs.Coded.{codes};
    ghost use Rattle.value_core.specs.Code.{contents_code};

    ghost Value = { AHall };

    ghost coded = { Prim.hlevel (codes, o.the_row.coded, contents_code) };

    ghost view = { λ l. l.hall };

    ghost invariant = { λ l. (t : Told) × IsHeld l.hall t };
}

/// A call that was taken. Where it is not among those that ran it waits.
#[derive(Drop)]
pub struct Taken {
    /// Its number.
    pub number: u32,
    /// The calls that ran, in their order.
    pub ran: Vec<Ran>,
}

// Takes out the first of these.
fn take_first(carried: &mut Vec<Carried>) -> Carried
    requires { 0 < length carried.old.items }
    ensures { (c : ACarried) (more : List ACarried) → carried.old.items ≡ c ∷ more →
        (result ≡ c) × (carried.new.items ≡ more) }
{
    carried.remove(0)
}

// Takes a call that is carried among those that wait. It answers false where it is refused.
fn carry_one(hall: &mut Hall, call: Carried) -> Result<bool, AllocError>
    ensures kept { (t : Told) → IsKept hall.old t → IsKept hall.new t }
    ensures fixed { IsFixed hall.old hall.new }
    ensures waits { IfOk result (λ yes. IsTrue yes →
        (hall.new.waiting ≡ hall.old.waiting ++ carried_from hall.old.given (call ∷ []))
        × (hall.new.given ≡ hall.old.given + 1)) }
{
    let Carried {
        session,
        operation,
        arguments,
    } = call;
    if hall.refusal(session, operation, &arguments).is_some() {
        return Ok(false);
    }
    hall.join(session, operation, arguments)?;
    Ok(true)
}

// Takes the calls that are carried among those that wait, in order. It answers false where one is refused.
fn carry(hall: &mut Hall, mut carried: Vec<Carried>) -> Result<bool, AllocError>
    ensures kept { (t : Told) → IsKept hall.old t → IsKept hall.new t }
    ensures fixed { IsFixed hall.old hall.new }
    ensures waits { IfOk result (λ yes. IsTrue yes →
        hall.new.waiting ≡ hall.old.waiting ++ carried_from hall.old.given carried.items) }
    ensures given { IfOk result (λ yes. IsTrue yes → hall.new.given ≡ hall.old.given + length carried.items) }
{
    while carried.len() > 0 {
        let call = take_first(&mut carried);
        if !carry_one(hall, call)? {
            return Ok(false);
        }
    }
    Ok(true)
}

impl Live {
    /// An object of these contents, behind a past, with the calls that were waiting, which get the numbers from 1.
    /// `None`: a value is not of its part's kind; the paths did not let the past happen, it has more than 65,536 calls,
    /// or a call of it runs at its end; or a carried call is refused, or may start. The error is that memory was
    /// refused.
    pub fn behind(
        alloc: Global,
        object: Object,
        past: &[PastEvent],
        contents: Vec<Value>,
        carried: Vec<Carried>,
        limits: Limits,
    ) -> Result<Option<Live>, AllocError>
        ensures held { IfOk result (λ found. IfSome found (λ l. IsHeld l (record {
          past = events_of past.now;
          opening = contents.items;
          happened = [];
        }))) }
        ensures waits { IfOk result (λ found. IfSome found (λ l. l.waiting ≡ carried_from 0 carried.items)) }
        ensures given { IfOk result (λ found. IfSome found (λ l. l.given ≡ length carried.items)) }
        ensures fixed { IfOk result (λ found. IfSome found (λ l. IsSetUp object limits past.now l)) }
    {
        let Some(mut hall) = Hall::behind(alloc, object, past, contents, limits)? else {
            return Ok(None);
        };
        if !carry(&mut hall, carried)? {
            return Ok(None);
        }
        match hall.next() {
            Some(_) => Ok(None),
            None => Ok(Some(Live { alloc, hall })),
        }
    }

    /// A waiting call is cancelled: nothing starts for that. False: no call of this number waits, and nothing changes.
    pub fn cancel(&mut self, number: u32) -> bool
        ensures gone { IsTrue result → (c : Called) × (c.number ≡ number) × Leaves self.old c self.new }
        ensures none { result ≡ false → (self.new ≡ self.old)
            × Every (λ (c : Called). c.number ≢ number) self.old.waiting }
        ensures held { (t : Told) → IsHeld self.old t → IsHeld self.new t }
    {
        match self.hall.place(number) {
            None => false,
            Some(place) => {
                self.hall.drop_at(place);
                true
            }
        }
    }

    /// A session has left: its waiting call waits no more, and nothing starts for that. False: it had none, and nothing
    /// changes.
    pub fn leave(&mut self, session: u32) -> bool
        ensures gone { IsTrue result → (c : Called) × (c.session ≡ session) × Leaves self.old c self.new }
        ensures none { result ≡ false → (self.new ≡ self.old)
            × Every (λ (c : Called). c.session ≢ session) self.old.waiting }
        ensures held { (t : Told) → IsHeld self.old t → IsHeld self.new t }
    {
        match self.hall.place_by(session) {
            None => false,
            Some(place) => {
                self.hall.drop_at(place);
                true
            }
        }
    }

    /// Ends this epoch and begins the next one, with the contents of now, behind a past that leaves the counters of now; a
    /// short one is found by `path_count::finder`. The calls that wait get the numbers from 1, in their order.
    ///
    /// False: the past does not leave these counters, or too few numbers for the calls that wait. Then, and where memory is
    /// refused, this epoch goes on.
    pub fn epoch(&mut self, past: &[PastEvent]) -> Result<bool, AllocError>
        ensures begun { result ≡ Ok true → IsBegun self.old past.now self.new }
        ensures held { result ≡ Ok true → (t : Told) → IsHeld self.old t →
            IsHeld self.new (told_behind past.now self.old.contents) }
        ensures none { result ≡ Ok false → self.new ≡ self.old }
        ensures err { OnErr result (self.new ≡ self.old) }
    {
        self.hall.epoch(past)
    }

    /// The object.
    pub fn object(&self) -> &Object
        ensures { result.now ≡ self.now.object }
    {
        self.hall.object()
    }

    /// What its paths have counted: a past that leaves the same counters stands for all that happened.
    pub fn counters(&self) -> &Counters
        ensures { result.now ≡ self.now.counters }
    {
        self.hall.counters()
    }

    /// The values of its parts, in their order.
    pub fn contents(&self) -> &[Value]
        ensures { result.now ≡ self.now.contents }
    {
        self.hall.contents()
    }

    /// The calls that wait, in the order of their numbers.
    pub fn waiting(&self) -> &[LiveCall]
        ensures { result.now ≡ self.now.waiting }
    {
        self.hall.waiting()
    }

    // The waiting call of a session.
    pub(crate) fn call_of(&self, session: u32) -> Option<&LiveCall>
        ensures some { IfSome result (λ c. (k : ℕ) × (slice_get self.now.waiting k ≡ Some c.now)
            × (c.now.session ≡ session)) }
        ensures none { IfNone result (Every (λ (c : Called). c.session ≢ session) self.now.waiting) }
    {
        self.hall.call_of(session)
    }

    // The waiting call of this number.
    pub(crate) fn call_numbered(&self, number: u32) -> Option<&LiveCall>
        ensures { IfSome result (λ c. (k : ℕ) × (slice_get self.now.waiting k ≡ Some c.now)
            × (c.now.number ≡ number)) }
    {
        self.hall.call_numbered(number)
    }

    /// How many calls more this epoch takes before `HistoryFull`.
    pub fn numbers_left(&self) -> u32
        ensures { result ≡ 65536 - (self.now.before + self.now.given) }
    {
        self.hall.numbers_left()
    }

    /// What this epoch ends with: the contents and the calls that wait.
    pub fn end(self) -> (Vec<Value>, Vec<LiveCall>)
        ensures contents { result.0.items ≡ self.contents }
        ensures waiting { result.1.items ≡ self.waiting }
    {
        self.hall.end()
    }

    /// Takes a call of a session, of the operation at this place of the object. Where it may start, it is done now, and
    /// then each waiting call that may start then, in the order of their numbers; else it waits.
    ///
    /// The errors are those of [`SubmitFault`], in their order; a refused call takes no number and changes nothing. Where
    /// memory is refused to a body, its call fails (`failed N memory`).
    pub fn submit(
        &mut self,
        session: u32,
        operation: OpId,
        arguments: Vec<Datum>,
    ) -> Result<Taken, SubmitFault>
        ensures number { IfOk result (λ a. a.number ≡ self.old.given + 1) }
        ensures taken { IfOk result (λ a. IsTaken self.old (asked self.old session operation arguments.items)) }
        ensures settles { IfOk result (λ a. (t : Told) → IsHeld self.old t →
            SettlesTo (joined self.old (asked self.old session operation arguments.items)) t a.ran.items self.new) }
        ensures same { IfOk result (λ a. IsSame (joined self.old (asked self.old session operation arguments.items))
            self.new) }
        ensures held { IfOk result (λ a. (t : Told) → IsHeld self.old t → IsHeld self.new (with_all t a.ran.items)) }
        ensures refused { IfErr result (λ f. IsRefused self.old (asked self.old session operation arguments.items) f
            × (self.new ≡ self.old)) }
    {
        if let Some(refusal) = self.hall.refusal(session, operation, &arguments) {
            return Err(refusal);
        }
        let Ok(mut ran) = Vec::with_capacity(self.alloc, self.hall.waits() + 1) else {
            return Err(SubmitFault::Memory);
        };
        match self.hall.join(session, operation, arguments) {
            Err(AllocError) => Err(SubmitFault::Memory),
            Ok(number) => {
                self.hall.settle(&mut ran);
                Ok(Taken { number, ran })
            }
        }
    }
}
