//! The tables of a world, and what each event does to them.

ghost use Rattle.std.specs.Prelude.{◌≡◌, ◌≢◌, ◌↔◌, IsTrue, ◌≤◌, ◌<◌, ◌⊎◌, ℕ, List, [], ◌∷◌, ◌++◌, length, map, IfSome};
ghost use Rattle.std.specs.Prelude.{IfNone, IfOk, Some, None, true, false, vec_capacity, slice_get};
ghost use Rattle.device_core.specs.declared.hand.Stamp.{Stamp};
ghost use Rattle.device_core.specs.Device.{Assignment, IsFree};
ghost use Rattle.device_core.specs.Files.{HasFiles, IsOpen, Serves, files_of};
ghost use Rattle.apply_core.specs.declared.reply.Failure.TheVariants as failures;
ghost use Rattle.apply_core.specs.declared.reply.Reply.TheVariants as replies;
ghost use Rattle.apply_core.specs.declared.need.Need.TheVariants as needs;
ghost use Rattle.run_core.specs.Runs.{run_call, run_ending, run_place, run_sealed, run_pen, PenHolds, SoFar};
ghost use Rattle.run_core.specs.Steps.{Starts, Follows, FailsWith, AreServed, PinsServed};
ghost use Rattle.run_core.specs.Phases.{step_answer};
ghost use Rattle.apply_core.specs.History.{leads_to};
ghost use Rattle.page_core.specs.Lists.{Every};
ghost use Rattle.page_core.specs.ObjectCalls.{RunningCall, WaitingCall};
ghost use Rattle.board_core.specs.Board.{taken_at, Rests};
ghost use Rattle.board_core.specs.Started.{run_of};
ghost use Rattle.board_core.specs.Chain.{history_of};
ghost use Rattle.world_core.specs.declared.slot.Slot.{Slot as ASlot};
ghost use Rattle.world_core.specs.Events.{call as calls, call_key as calls_by, step as steps, finish as finishes};
ghost use Rattle.world_core.specs.Events.{cancel as cancels, leave as leaves, resume as resumes, look as looks};
ghost use Rattle.world_core.specs.Scene.{Standing, AreBegun, collected, call_running};
ghost use Rattle.world_core.specs.Answers.{Answers};
ghost use Rattle.world_core.specs.Kept.{IsKept, IsStaged, HasNew, standing_of, scene_of};

use crate::event::{EventAnswer, EventRefusal, WorldAnswer};
use crate::pens::{pens_are_open, pens_stay};
use crate::read::read_value;
use crate::slot::Slot;
use apply_core::need::Need;
use board_core::answer::{Collected, Keyed};
use board_core::event::TraceEvent;
use board_core::laws::{chained_are_legal, truth_is_noted};
use desk_core::desk::Desk;
use device_core::fuse::FuseHand;
use device_core::memory::MemHand;
use guest_core::answer::Cancelled;
use run_core::run::Run;
use run_core::step::StepAnswer;
use std::alloc::{AllocError, Global};
use std::mem;
use value_core::datum::Datum;
use value_core::value::Value;

/// The most calls that wait and run.
pub(crate) const MOST_OPEN: usize = 256;

// The tables of a world.
pub(crate) struct WorldTables {
    pub(crate) alloc: Global,
    pub(crate) desk: Desk,
    pub(crate) opening: Vec<Value>,
    pub(crate) hand: MemHand,
    pub(crate) runs: Vec<Slot>,
}

// An answer to an event that started no call.
fn only(answer: WorldAnswer) -> EventAnswer
    ensures { result ≡ record { answer = answer; starts = 0 } }
{
    EventAnswer { answer, starts: 0 }
}

// The place of the run of the call of this number.
fn place_of(runs: &[Slot], number: u32) -> Option<usize>
    ensures some { IfSome result (λ k. (slot : ASlot) × (slice_get runs.now k ≡ Some slot) × (slot.number ≡ number)) }
    ensures none { IfNone result (Every (λ (slot : ASlot). slot.number ≢ number) runs.now) }
{
    for k in 0..runs.len() {
        if runs[k].number == number {
            return Some(k);
        }
    }
    None
}

// Whether a run that needs this has ended.
fn is_done(need: Need) -> bool
    ensures { IsTrue result ↔ (need ≡ needs.Done) }
{
    match need {
        Need::Done => true,
        _ => false,
    }
}

// Makes one step of a run, which works, or fails for the device.
fn step_run(alloc: Global, hand: &mut MemHand, run: &mut Run, works: bool) -> StepAnswer
    ensures call { run_call run.new ≡ run_call run.old }
    ensures kept { (a : Assignment) → HasFiles (files_of hand.new) a → HasFiles (files_of hand.old) a }
    ensures found { PenHolds (λ n b. IsOpen (files_of hand.old) n b) run.old → (a : Assignment) →
        HasFiles (files_of hand.new) a → SoFar a run.old → SoFar a run.new }
    ensures pen { PenHolds (λ n b. IsOpen (files_of hand.old) n b) run.old →
        PenHolds (λ n b. IsOpen (files_of hand.new) n b) run.new }
    ensures moves { Follows (run_call run.old) (run_place run.old) (run_place run.new) }
    ensures unused { (n : ℕ) → run_pen run.new ≡ Some n →
        (run_pen run.old ≡ Some n) ⊎ IsFree (λ a. HasFiles (files_of hand.new) a)
        (λ n b. IsOpen (files_of hand.old) n b) n }
    ensures others { (n : ℕ) (b : List ℕ) → run_pen run.old ≢ Some n → IsOpen (files_of hand.old) n b →
        IsOpen (files_of hand.new) n b }
    ensures serves { (s : Stamp) → Serves (files_of hand.old) s → Serves (files_of hand.new) s }
    ensures written { AreServed (λ s. Serves (files_of hand.old) s) (run_sealed run.old) →
        AreServed (λ s. Serves (files_of hand.new) s) (run_sealed run.new) }
    ensures works { works ≡ true → PenHolds (λ n b. IsOpen (files_of hand.old) n b) run.old →
        PinsServed (λ s. Serves (files_of hand.old) s) (run_call run.old) → run_ending run.old ≡ None →
        run_ending run.new ≡ Some (replies.Failed failures.Device) → ⊥ }
    ensures fails { works ≡ false → FailsWith (run_place run.old) (run_ending run.new) }
    ensures answer { result ≡ step_answer (run_ending run.old) (run_ending run.new) }
{
    if works {
        return run.step(hand);
    }
    let mut broken = FuseHand::new(mem::replace(hand, MemHand::new(alloc)), 0);
    let answer = run.step(&mut broken);
    *hand = broken.into_inner();
    answer
}

impl WorldTables {
    // Begins the run of a call that has started.
    fn begin_run(&mut self, number: u32)
        requires kept { IsKept self.old.desk (files_of self.old.hand) self.old.runs.items self.old.opening.items }
        requires next { (r : RunningCall) × (slice_get self.old.desk.running (length self.old.runs.items) ≡ Some r)
            × (r.number ≡ number) }
        requires room { length self.old.runs.items < vec_capacity self.old.runs }
        ensures kept { IsKept self.new.desk (files_of self.new.hand) self.new.runs.items self.new.opening.items }
        ensures desk { (r : RunningCall) → slice_get self.old.desk.running (length self.old.runs.items) ≡ Some r →
            self.new.desk ≡ taken_at self.old.desk (length self.old.runs.items) r }
        ensures runs { (r : RunningCall) → slice_get self.old.desk.running (length self.old.runs.items) ≡ Some r
            → (slot : ASlot) × (self.new.runs.items ≡ self.old.runs.items ++ slot ∷ [])
            × (run_call slot.run ≡ call_running r) × Starts (run_call slot.run) (run_place slot.run) }
        ensures files { files_of self.new.hand ≡ files_of self.old.hand }
        ensures opening { self.new.opening.items ≡ self.old.opening.items }
        ensures room { vec_capacity self.new.runs ≡ vec_capacity self.old.runs }
    {
        match self.desk.collect(number) {
            Collected::Ticket(ticket) => {
                let run = Run::new(self.alloc, ticket);
                self.runs.push_reserved(Slot {
                    alloc: self.alloc,
                    number,
                    run,
                });
                // The board is sound.
                self.desk.history();
            }
            Collected::Waiting | Collected::Cancelled | Collected::Unknown => unreachable!(),
        }
    }

    // Begins the runs of the calls that started from this place of the trace on, and says how many they are.
    fn begin(&mut self, from: usize) -> usize
        requires kept { IsKept self.old.desk (files_of self.old.hand) self.old.runs.items self.old.opening.items }
        requires new { (ones : List WaitingCall) × HasNew self.old.desk (length self.old.runs.items) from ones }
        requires room { 256 ≤ vec_capacity self.old.runs }
        ensures staged { IsStaged self.new }
        ensures desk { collected self.new.desk ≡ collected self.old.desk }
        ensures starts { (ones : List WaitingCall) → HasNew self.old.desk (length self.old.runs.items) from ones
            → (result ≡ length ones) × ((begun : List Standing) × AreBegun (map (run_of self.old.desk.pins) ones) begun
            × (map standing_of self.new.runs.items ≡ map standing_of self.old.runs.items ++ begun)) }
        ensures files { files_of self.new.hand ≡ files_of self.old.hand }
        ensures opening { self.new.opening.items ≡ self.old.opening.items }
    {
        if from >= self.desk.trace().len() {
            return 0;
        }
        match self.desk.trace().get(from) {
            Some(TraceEvent::Start(number)) => {
                self.begin_run(number);
                let others = self.begin(from + 1);
                1 + others
            }
            Some(TraceEvent::End(_, _)) => unreachable!(),
            None => unreachable!(),
        }
    }

    // A session calls.
    pub(crate) fn call(&mut self, session: u32, op: &str, args: &[Datum]) -> EventAnswer
        requires staged { IsStaged self.old }
        ensures answers { Answers (scene_of self.old) (calls (record
            { session = session; name = op.now; arguments = args.now })) result (scene_of self.new) }
        ensures staged { IsStaged self.new }
        ensures rests { Rests self.old.desk → Rests self.new.desk }
    {
        let before = self.desk.trace().len();
        match self.desk.submit(session, op, args) {
            Ok(number) => {
                self.desk.history();
                let starts = self.begin(before);
                EventAnswer {
                    answer: WorldAnswer::Number(number),
                    starts,
                }
            }
            Err(fault) => only(WorldAnswer::Refused(EventRefusal::Submit(fault))),
        }
    }

    // A session calls under a key.
    pub(crate) fn call_key(
        &mut self,
        session: u32,
        key: u32,
        op: &str,
        args: &[Datum],
    ) -> EventAnswer
        requires staged { IsStaged self.old }
        ensures answers { Answers (scene_of self.old) (calls_by (record
            { session = session; name = op.now; arguments = args.now }) key) result (scene_of self.new) }
        ensures staged { IsStaged self.new }
        ensures rests { Rests self.old.desk → Rests self.new.desk }
    {
        let before = self.desk.trace().len();
        match self.desk.submit_keyed(session, key, op, args) {
            Ok(Keyed::New(number)) => {
                self.desk.history();
                let starts = self.begin(before);
                EventAnswer {
                    answer: WorldAnswer::Number(number),
                    starts,
                }
            }
            Ok(Keyed::Kept(kept)) => only(WorldAnswer::Kept(kept)),
            Err(fault) => only(WorldAnswer::Refused(EventRefusal::Keyed(fault))),
        }
    }

    // A run makes a step.
    pub(crate) fn step(&mut self, number: u32, works: bool) -> EventAnswer
        requires staged { IsStaged self.old }
        ensures answers { Answers (scene_of self.old) (steps number works) result (scene_of self.new) }
        ensures staged { IsStaged self.new }
        ensures rests { Rests self.old.desk → Rests self.new.desk }
    {
        let place = match place_of(&self.runs, number) {
            Some(place) => place,
            None => return only(WorldAnswer::Refused(EventRefusal::NotRunning)),
        };
        let need = self.runs[place].run.next();
        if is_done(need) {
            return only(WorldAnswer::Refused(EventRefusal::NoStep));
        }
        let slot = &mut self.runs[place];
        let answer = step_run(self.alloc, &mut self.hand, &mut slot.run, works);
        // What the other runs have found stays true, and no published part is damaged.
        self.hand.agrees_with_some();
        pens_stay();
        pens_are_open();
        chained_are_legal();
        only(WorldAnswer::Stepped(need, answer))
    }

    // The call of the run at this place, which has ended, finishes.
    fn publish(&mut self, place: usize) -> EventAnswer
        requires staged { IsStaged self.old }
        requires done { (slot : ASlot) × (slice_get self.old.runs.items place ≡ Some slot)
            × (run_ending slot.run ≢ None) }
        ensures answers { (slot : ASlot) → slice_get self.old.runs.items place ≡ Some slot →
            Answers (scene_of self.old) (finishes slot.number) result (scene_of self.new) }
        ensures staged { IsStaged self.new }
        ensures rests { Rests self.old.desk → Rests self.new.desk }
    {
        let before = self.desk.trace().len();
        let outcome = self.runs.remove(place).into_outcome();
        match self.desk.finish(outcome) {
            Ok(receipt) => {
                truth_is_noted();
                self.desk.history();
                let reply = *receipt.noted.reply();
                // The end stands in the trace, so one place more is no more than its length.
                let _all = self.desk.trace().len();
                let starts = self.begin(before + 1);
                EventAnswer {
                    answer: WorldAnswer::Ended(reply),
                    starts,
                }
            }
            Err(_) => unreachable!(),
        }
    }

    // A call finishes.
    pub(crate) fn finish(&mut self, number: u32) -> EventAnswer
        requires staged { IsStaged self.old }
        ensures answers { Answers (scene_of self.old) (finishes number) result (scene_of self.new) }
        ensures staged { IsStaged self.new }
        ensures rests { Rests self.old.desk → Rests self.new.desk }
    {
        let place = match place_of(&self.runs, number) {
            Some(place) => place,
            None => return only(WorldAnswer::Refused(EventRefusal::NotRunning)),
        };
        let need = self.runs[place].run.next();
        if !is_done(need) {
            return only(WorldAnswer::Refused(EventRefusal::NotDone));
        }
        self.publish(place)
    }

    // A call is cancelled, if it waits.
    pub(crate) fn cancel(&mut self, number: u32) -> EventAnswer
        requires staged { IsStaged self.old }
        ensures answers { Answers (scene_of self.old) (cancels number) result (scene_of self.new) }
        ensures staged { IsStaged self.new }
        ensures rests { Rests self.old.desk → Rests self.new.desk }
    {
        let before = self.desk.trace().len();
        let answer = self.desk.cancel(number);
        match answer {
            Cancelled::Cancelled => {
                self.desk.history();
                let starts = self.begin(before);
                EventAnswer {
                    answer: WorldAnswer::Cancel(Cancelled::Cancelled),
                    starts,
                }
            }
            _ => only(WorldAnswer::Cancel(answer)),
        }
    }

    // A session leaves.
    pub(crate) fn leave(&mut self, session: u32) -> EventAnswer
        requires staged { IsStaged self.old }
        ensures answers { Answers (scene_of self.old) (leaves session) result (scene_of self.new) }
        ensures staged { IsStaged self.new }
        ensures rests { Rests self.old.desk → Rests self.new.desk }
    {
        if session == 0 || session > 1024 {
            return only(WorldAnswer::Refused(EventRefusal::NoSession));
        }
        let before = self.desk.trace().len();
        self.desk.disconnect(session);
        self.desk.history();
        let starts = self.begin(before);
        EventAnswer {
            answer: WorldAnswer::Dropped,
            starts,
        }
    }

    // A session is back.
    pub(crate) fn resume(&mut self, session: u32) -> EventAnswer
        requires staged { IsStaged self.old }
        ensures answers { Answers (scene_of self.old) (resumes session) result (scene_of self.new) }
        ensures staged { IsStaged self.new }
        ensures rests { Rests self.old.desk → Rests self.new.desk }
    {
        if !self.desk.resume(session) {
            return only(WorldAnswer::Refused(EventRefusal::NoSession));
        }
        // The board is sound.
        self.desk.history();
        only(WorldAnswer::Resumed)
    }

    // The contents under the published pins.
    fn contents(&mut self) -> Result<Vec<Value>, AllocError>
        requires staged { IsStaged self.old }
        ensures values { IfOk result (λ values.
            values.items ≡ leads_to (history_of self.old.desk.history) self.old.opening.items) }
        ensures staged { IsStaged self.new }
        ensures same { scene_of self.new ≡ scene_of self.old }
    {
        let pins = self.desk.pins();
        let count = pins.len();
        let mut values = Vec::with_capacity(self.alloc, count)?;
        for part in 0..count {
            let kind = self.desk.accepted().object().parts[part].kind;
            let Some(pin) = pins.get(part) else {
                unreachable!();
            };
            let value = read_value(self.alloc, &mut self.hand, &pin, kind)?;
            values.push(value)?;
        }
        Ok(values)
    }

    // The contents are asked for.
    pub(crate) fn look(&mut self) -> EventAnswer
        requires staged { IsStaged self.old }
        ensures answers { Answers (scene_of self.old) (looks) result (scene_of self.new) }
        ensures staged { IsStaged self.new }
        ensures rests { Rests self.old.desk → Rests self.new.desk }
    {
        match self.contents() {
            Ok(values) => only(WorldAnswer::Shown(values)),
            Err(AllocError) => only(WorldAnswer::Refused(EventRefusal::Memory)),
        }
    }
}
