//! What the hand of an object holds.

ghost use Rattle.std.specs.Prelude.{◌≡◌, ◌≢◌, ℕ, ◌+◌, ◌-◌, ◌*◌, ◌<◌, ◌≤◌, ◌↔◌, [], ◌∷◌, ◌++◌, List, length, map, take};
ghost use Rattle.std.specs.Prelude.{drop};
ghost use Rattle.std.specs.Prelude.{IsTrue, Ok, true, false, IfOk, OnOk, OnErr, IfSome, IfNone, Some, slice_get, vec_capacity};
ghost use Rattle.path_tree.specs.Path.{Path};
ghost use Rattle.path_tree.specs.Trace.{Event, Call as PathCall, Start, End, IsFresh, running_calls};
ghost use Rattle.path_tree.specs.Satisfies.{MayStart};
ghost use Rattle.path_count.specs.Stands.{StandsFor, started_calls};
ghost use Rattle.decl_core.specs.ObjectMap.{object_of};
ghost use Rattle.path_count.specs.Past.{events_of, AreBefore};
ghost use Rattle.word_core.specs.Events.{Called};
ghost use Rattle.live_core.specs.declared.call.Ran.{Ran as ARan};
ghost use Rattle.live_core.specs.Hall.{Told, trace, IsKept, IsHeld, IsCallOf, Every, Rests};
ghost use Rattle.live_core.specs.Bodies.{IsFirstAt, IsNumberedAt, IsOfSessionAt};
ghost use Rattle.live_core.specs.Epochs.{IsBegun, IsShortOf, told_behind};
ghost use Rattle.live_core.specs.Answers.{asked, IsTaken, IsRefused, IsSetUp};
ghost use Rattle.guest_core.specs.declared.answer.SubmitFault.TheVariants.{Memory as OutOfMemory};
ghost use Rattle.live_core.specs.Steps.{joined, Leaves, IsSame, RunsOne, SettlesTo};

use crate::body::{are_of, do_call, fits};
use crate::call::{Limits, LiveCall, Ran};
use crate::waiters::Waiters;
use decl_core::object::Object;
use guest_core::answer::SubmitFault;
use path_count::counters::Counters;
use path_count::past::{PastEvent, counters_behind};
use path_tree::node::OpId;
use std::alloc::{AllocError, Global};
use std::marker::Model;
use value_core::datum::Datum;
use value_core::value::Value;

/// The most calls of an epoch and its past.
pub const MOST_NUMBERS: u32 = 65_536;

// Counts a start of an operation and its finish.
fn pass(counters: &mut Counters, op: OpId)
    ensures { (n : ℕ) (paths : List Path) (t : List Event) (call : PathCall) → StandsFor counters.old n paths t →
        call.operation ≡ op → op < n → MayStart paths op t → started_calls t < 65536 → IsFresh call.number t →
        StandsFor counters.new n paths (End call ∷ Start call ∷ t) }
{
    counters.start(op);
    counters.finish(op);
}

// What the hand of an object holds. Between two of its own calls a waiting call may start, unlike between those of
// `Live`.
#[derive(Drop)]
pub(crate) struct Hall {
    alloc: Global,
    object: Object,
    counters: Counters,
    parts: Vec<Value>,
    waiting: Waiters,
    // the numbers that were given out in this epoch
    given: u32,
    // the calls of the past
    before: u32,
    limits: Limits,
}

impl Model for Hall {
    ghost use Rattle.live_core.specs.Hall.{Hall as AHall, Told, IsKept};
    ghost use Rattle.decl_core.specs.contracts.object.Object as o;
    ghost use Rattle.std.specs.Coded.{codes};

    ghost Value = { AHall };

    ghost use Rattle.value_core.specs.Code.{contents_code};

    ghost coded = { Prim.hlevel (codes, o.the_row.coded, contents_code) };

    ghost use Rattle.live_core.specs.View.{hall_of};

    ghost view = { hall_of };

    ghost invariant = { λ a. (t : Told) × IsKept (hall_of a) t };
}

// The counters of an object behind a past.
fn counters_of(
    alloc: Global,
    object: &Object,
    past: &[PastEvent],
) -> Result<Option<Counters>, AllocError>
    ensures stands { IfOk result (λ found. IfSome found (λ c. StandsFor c (length (object_of object.now).operations)
        (object_of object.now).paths (events_of past.now))) }
    ensures quiet { IfOk result (λ found. IfSome found (λ c. running_calls (events_of past.now) ≡ [])) }
    ensures before { AreBefore (events_of past.now) }
    ensures starts { IfOk result (λ found. IfSome found (λ c.
        2 * started_calls (events_of past.now) ≡ length past.now)) }
{
    counters_behind(alloc, &object.paths, object.operations.len() as OpId, past)
}

// The counters that a past leaves, where these are the same.
fn counters_left(
    alloc: Global,
    object: &Object,
    counters: &Counters,
    past: &[PastEvent],
) -> Result<Option<Counters>, AllocError>
    ensures { IfOk result (λ found. IfSome found (λ left.
        IsShortOf (object_of object.now) counters.now past.now left)) }
{
    let Some(left) = counters_of(alloc, object, past)? else {
        return Ok(None);
    };
    if !left.leaves_same(counters) {
        return Ok(None);
    }
    Ok(Some(left))
}

impl Hall {
    // An object of these contents, behind a past. `None`: the paths did not let the past happen, a call runs at its
    // end, or a value is not of its part's kind.
    pub(crate) fn behind(
        alloc: Global,
        object: Object,
        past: &[PastEvent],
        parts: Vec<Value>,
        limits: Limits,
    ) -> Result<Option<Hall>, AllocError>
        ensures kept { IfOk result (λ found. IfSome found (λ h. IsKept h (record {
          past = events_of past.now;
          opening = parts.items;
          happened = [];
        }))) }
        ensures none { IfOk result (λ found. IfSome found (λ h. (h.waiting ≡ []) × (h.given ≡ 0))) }
        ensures fixed { IfOk result (λ found. IfSome found (λ h. IsSetUp object limits past.now h)) }
    {
        if !are_of(&parts, &object.parts) {
            return Ok(None);
        }
        let calls = past.len() / 2;
        if calls > MOST_NUMBERS as usize {
            return Ok(None);
        }
        let Some(counters) = counters_of(alloc, &object, past)? else {
            return Ok(None);
        };
        let waiting = Waiters::new(alloc, limits.sessions)?;
        Ok(Some(Hall {
            alloc,
            object,
            counters,
            parts,
            waiting,
            given: 0,
            before: calls as u32,
            limits,
        }))
    }

    // The place of the waiting call that is next to start.
    pub(crate) fn next(&self) -> Option<usize>
        ensures some { (t : Told) → IsKept self.now t →
            IfSome result (IsFirstAt (object_of self.now.object).paths (trace t) self.now.waiting) }
        ensures none { (t : Told) → IsKept self.now t →
            IfNone result (Rests (object_of self.now.object) self.now.waiting t) }
    {
        self.waiting
            .next(&self.counters, self.object.operations.len() as OpId)
    }

    // Starts the call at this place, does it and ends it.
    pub(crate) fn run(&mut self, place: usize) -> Ran
        requires within { place < length self.old.waiting }
        requires first { (t : Told) → IsKept self.old t →
            IsFirstAt (object_of self.old.object).paths (trace t) self.old.waiting place }
        ensures runs { (t : Told) → IsKept self.old t → RunsOne self.old t result self.new }
        ensures same { IsSame self.old self.new }
        ensures fewer { length self.new.waiting + 1 ≡ length self.old.waiting }
    {
        let call = self.waiting.take(place);
        pass(&mut self.counters, call.operation());
        let reply = do_call(self.alloc, &self.object, &call, &mut self.parts);
        Ran { call, reply }
    }

    // Starts, does and ends the first waiting call that may start, until none may.
    pub(crate) fn settle(&mut self, all: &mut Vec<Ran>)
        requires room { length self.old.waiting + length all.old.items ≤ vec_capacity all.old }
        ensures settles { (t : Told) → IsKept self.old t → (ran : List ARan) × (all.new.items ≡ all.old.items ++ ran)
            × SettlesTo self.old t ran self.new }
        ensures same { IsSame self.old self.new }
    {
        let turns = self.waiting.len();
        for turn in 0..turns {
            match self.next() {
                None => return,
                Some(place) => {
                    let ran = self.run(place);
                    all.push_reserved(ran);
                }
            }
        }
    }

    // Begins an epoch more, with the contents of now, behind a past that leaves the same counters: the calls that wait get
    // the numbers from 1. False: it does not leave them, or too few numbers for those calls; then nothing changes.
    pub(crate) fn epoch(&mut self, past: &[PastEvent]) -> Result<bool, AllocError>
        ensures begun { result ≡ Ok true → IsBegun self.old past.now self.new }
        ensures kept { result ≡ Ok true → (t : Told) → IsKept self.old t →
            IsKept self.new (told_behind past.now self.old.contents) }
        ensures rests { result ≡ Ok true → (t : Told) → IsHeld self.old t →
            Rests (object_of self.new.object) self.new.waiting (told_behind past.now self.old.contents) }
        ensures none { result ≡ Ok false → self.new ≡ self.old }
        ensures err { OnErr result (self.new ≡ self.old) }
    {
        let Some(counters) = counters_left(self.alloc, &self.object, &self.counters, past)? else {
            return Ok(false);
        };
        let calls = past.len() / 2;
        if calls + self.waiting.len() > MOST_NUMBERS as usize {
            return Ok(false);
        }
        self.waiting.renumber();
        self.counters = counters;
        self.given = self.waiting.len() as u32;
        self.before = calls as u32;
        Ok(true)
    }

    // How many calls wait.
    pub(crate) fn waits(&self) -> usize
        ensures { result ≡ length self.now.waiting }
    {
        self.waiting.len()
    }

    // Why a call is refused, if it is.
    pub(crate) fn refusal(
        &self,
        session: u32,
        operation: OpId,
        arguments: &[Datum],
    ) -> Option<SubmitFault>
        ensures refused { IfSome result (λ f. (f ≢ OutOfMemory)
            × IsRefused self.now (asked self.now session operation arguments.now) f) }
        ensures taken { IfNone result (IsTaken self.now (asked self.now session operation arguments.now)) }
    {
        if session == 0 || session > u32::from(self.limits.sessions) {
            return Some(SubmitFault::Gone);
        }
        if operation as usize >= self.object.operations.len() {
            return Some(SubmitFault::UnknownOp);
        }
        if !fits(&self.object, operation, arguments) {
            return Some(SubmitFault::BadArgs);
        }
        if self.waiting.place_for(session).is_some() {
            return Some(SubmitFault::SessionBusy);
        }
        if self.waiting.len() >= self.limits.waiting as usize {
            return Some(SubmitFault::Full);
        }
        if self.before >= MOST_NUMBERS || self.given >= MOST_NUMBERS - self.before {
            return Some(SubmitFault::HistoryFull);
        }
        None
    }

    // The place of the waiting call of this number.
    pub(crate) fn place(&self, number: u32) -> Option<usize>
        ensures some { IfSome result (IsNumberedAt self.now.waiting number) }
        ensures none { IfNone result (Every (λ (c : Called). c.number ≢ number) self.now.waiting) }
    {
        self.waiting.place_of(number)
    }

    // The place of the waiting call of this session.
    pub(crate) fn place_by(&self, session: u32) -> Option<usize>
        ensures some { IfSome result (IsOfSessionAt self.now.waiting session) }
        ensures none { IfNone result (Every (λ (c : Called). c.session ≢ session) self.now.waiting) }
    {
        self.waiting.place_for(session)
    }

    // The waiting call of this session.
    pub(crate) fn call_of(&self, session: u32) -> Option<&LiveCall>
        ensures some { IfSome result (λ c. (k : ℕ) × (slice_get self.now.waiting k ≡ Some c.now)
            × (c.now.session ≡ session)) }
        ensures none { IfNone result (Every (λ (c : Called). c.session ≢ session) self.now.waiting) }
    {
        self.waiting.call_of(session)
    }

    // The waiting call of this number.
    pub(crate) fn call_numbered(&self, number: u32) -> Option<&LiveCall>
        ensures { IfSome result (λ c. (k : ℕ) × (slice_get self.now.waiting k ≡ Some c.now)
            × (c.now.number ≡ number)) }
    {
        self.waiting.call_numbered(number)
    }

    pub(crate) fn object(&self) -> &Object
        ensures { result.now ≡ self.now.object }
    {
        &self.object
    }

    pub(crate) fn counters(&self) -> &Counters
        ensures { result.now ≡ self.now.counters }
    {
        &self.counters
    }

    pub(crate) fn contents(&self) -> &[Value]
        ensures { result.now ≡ self.now.contents }
    {
        &self.parts
    }

    pub(crate) fn waiting(&self) -> &[LiveCall]
        ensures { result.now ≡ self.now.waiting }
    {
        self.waiting.calls()
    }

    // How many numbers are left.
    pub(crate) fn numbers_left(&self) -> u32
        ensures { result ≡ 65536 - (self.now.before + self.now.given) }
    {
        MOST_NUMBERS - self.before - self.given
    }

    // What an epoch ends with: the contents, and the calls that wait.
    pub(crate) fn end(self) -> (Vec<Value>, Vec<LiveCall>)
        ensures contents { result.0.items ≡ self.contents }
        ensures waiting { result.1.items ≡ self.waiting }
    {
        let Hall { parts, waiting, .. } = self;
        (parts, waiting.into_calls())
    }

    // Takes out the waiting call at this place.
    pub(crate) fn drop_at(&mut self, place: usize) -> LiveCall
        requires { place < length self.old.waiting }
        ensures left { Leaves self.old result self.new }
        ensures there { (c : Called) → slice_get self.old.waiting place ≡ Some c → result ≡ c }
        ensures kept { (t : Told) → IsKept self.old t → IsKept self.new t }
        ensures rests { (t : Told) → Rests (object_of self.old.object) self.old.waiting t →
            Rests (object_of self.new.object) self.new.waiting t }
    {
        self.waiting.take(place)
    }

    // Takes a call among those that wait, with the next number.
    pub(crate) fn join(
        &mut self,
        session: u32,
        operation: OpId,
        arguments: Vec<Datum>,
    ) -> Result<u32, AllocError>
        requires call { IsCallOf (object_of self.old.object) (record {
          number = self.old.given + 1;
          session = session;
          operation = operation;
          arguments = arguments.items;
        }) }
        requires few { self.old.before + self.old.given < 65536 }
        requires free { Every (λ (c : Called). c.session ≢ session) self.old.waiting }
        ensures number { IfOk result (λ n. n ≡ self.old.given + 1) }
        ensures ok { OnOk result (self.new ≡ joined self.old (record {
          number = self.old.given + 1;
          session = session;
          operation = operation;
          arguments = arguments.items;
        })) }
        ensures kept { OnOk result ((t : Told) → IsKept self.old t → IsKept self.new t) }
        ensures err { OnErr result (self.new ≡ self.old) }
    {
        let number = self.given + 1;
        self.waiting
            .add(LiveCall::new(number, session, operation, arguments))?;
        self.given = number;
        Ok(number)
    }
}
