//! Runs of calls.

ghost use Rattle.std.specs.Prelude.{◌≡◌, ◌≢◌, ◌+◌, ◌<◌, ◌≤◌, ◌⊎◌, ◌↔◌, [], ℕ, List, Some, None, IfOk, IfErr};
ghost use Rattle.std.specs.Arc.{arc_value};
ghost use Rattle.decl_core.specs.Bodies.{body_of};
ghost use Rattle.decl_core.specs.Touched.{Reads, Writes};
ghost use Rattle.device_core.specs.declared.hand.Stamp.{Stamp};
ghost use Rattle.device_core.specs.Device.{Assignment, IsFree, Failed as DeviceFailed};
ghost use Rattle.apply_core.specs.declared.reply.Failure.TheVariants as failures;
ghost use Rattle.apply_core.specs.declared.reply.Reply.TheVariants as replies;
ghost use Rattle.page_core.specs.Truths.{IsTrueOf, PinsAreWhole};
ghost use Rattle.run_core.specs.Tasks.{task_call};
ghost use Rattle.run_core.specs.Steps.{Starts, Follows, FailsWith, AreServed, PinsServed, ReadsItsPart, place_in};
ghost use Rattle.run_core.specs.Steps.{need_at};
ghost use Rattle.run_core.specs.Phases.{ending_of, sealed_in, news_in, pen_in, FoundBy, HasItsReads, IsRenewedBy};
ghost use Rattle.run_core.specs.Phases.{IsSettled, step_answer};
ghost use Rattle.page_core.specs.PartPins.{pin_at};

use crate::advance::advance;
use crate::conclude::conclude;
use crate::ending::{nothing, outcome_of};
use crate::phase::{Phase, ReadingRun, let_go};
use crate::seen::Seen;
use crate::seen_laws::{all_is_seen, next_is_seen, none_is_seen};
use crate::step::StepAnswer;
use crate::task::Task;
use apply_core::need::Need;
use apply_core::reply::{Failure, Reply};
use device_core::hand::Hand;
use page_core::outcome::Outcome;
use page_core::ticket::Ticket;
use std::alloc::Global;
use std::mem;

/// A run of a call: it reads the pages of the parts that its operation reads, evaluates the body, and writes each
/// page that the body changed into a new file. It has to be spent, by [`Run::outcome`].
pub struct Run {
    pub(crate) alloc: Global,
    pub(crate) task: Task,
    pub(crate) phase: Phase,
    // it has new page lists of parts of its operation's writes alone
    ghost inside: { (p : ℕ) → pin_at (news_in phase) p ≢ None →
        (Writes (body_of (arc_value task.operation)).statements p → ⊥) → ⊥ },
    // it reads parts of its operation's reads alone
    ghost reading: { ReadsItsPart (task_call task) (place_in phase) },
    // where its body wants more, there are bytes of each part that it reads
    ghost reads: { HasItsReads (arc_value task.operation) phase },
}

// Where a new run stands.
fn first_phase(alloc: Global, task: &Task) -> Phase
    ensures found { (a : Assignment) → PinsAreWhole a (task_call task.now) → FoundBy a (task_call task.now) result }
    ensures reads { HasItsReads (arc_value task.now.operation) result }
    ensures settled { ((p : ℕ) → Reads (body_of (arc_value task.now.operation)).statements p → ⊥) →
        IsSettled (ending_of result) }
    ensures begun { (p : ℕ) → Reads (body_of (arc_value task.now.operation)).statements p → ending_of result ≡ None }
    ensures starts { Starts (task_call task.now) (place_in result) }
    ensures pen { pen_in result ≡ None }
    ensures sealed { sealed_in result ≡ [] }
    ensures news { (p : ℕ) → pin_at (news_in result) p ≢ None →
        Writes (body_of (arc_value task.now.operation)).statements p }
{
    // Nothing is seen before the first part, and all where there is none.
    none_is_seen();
    next_is_seen();
    all_is_seen();
    match task.next_part(0) {
        Some(part) => Phase::Reading(ReadingRun {
            part,
            page: 0,
            seen: Seen::new(alloc),
            got: Vec::new(alloc),
        }),
        None => conclude(alloc, task, Seen::new(alloc)),
    }
}

impl Run {
    ghost use Rattle.page_core.specs.Tickets.{ticket_call};
    ghost use Rattle.page_core.specs.Outcomes.{outcome_call, outcome_reply, outcome_sealed, outcome_news, outcome_gone};
    ghost use Rattle.page_core.specs.Outcomes.{outcome_pins, IsFresh};
    ghost use Rattle.apply_core.specs.declared.need.Need.TheVariants as needs;
    ghost use Rattle.run_core.specs.Runs.{run_call, run_ending, run_sealed, run_pen, run_place, run_work, RunMakes};
    ghost use Rattle.run_core.specs.Runs.{PenHolds, SoFar};

    /// A run that has made no call. It takes no memory. Where the operation reads no part, its body is
    /// evaluated here, and the run has ended.
    pub fn new(alloc: Global, ticket: Ticket) -> Run
        ensures call { run_call result ≡ ticket_call ticket }
        // What it has found is true of each assignment.
        ensures fresh { (a : Assignment) → SoFar a result }
        // An operation that reads no part is done or refused at once.
        ensures settled { ((p : ℕ) → Reads (body_of (ticket_call ticket).operation).statements p → ⊥) →
            IsSettled (run_ending result) }
        ensures begun { (p : ℕ) → Reads (body_of (ticket_call ticket).operation).statements p →
            run_ending result ≡ None }
        // It stands at the first part that the operation reads.
        ensures starts { Starts (run_call result) (run_place result) }
        ensures pen { run_pen result ≡ None }
        ensures sealed { run_sealed result ≡ [] }
    {
        let task = Task::new(ticket);
        let phase = first_phase(alloc, &task);
        Run { alloc, task, phase }
    }

    /// The device call that the next step makes. It is none exactly where the run has ended.
    pub fn next(&self) -> Need
        ensures need { result ≡ need_at (run_place self.now) }
        ensures done { (result ≡ needs.Done) ↔ (run_ending self.now ≢ None) }
    {
        match &self.phase {
            Phase::Reading(_) | Phase::Paging(_) => Need::Read,
            Phase::Creating(_) => Need::Create,
            Phase::Appending(_, _) => Need::Append,
            Phase::Sealing(_, _) => Need::Seal,
            Phase::Ended(_, _) => Need::Done,
        }
    }

    /// Makes one device call, and gives up the file that is written where the call failed. Where memory for the
    /// call is refused it makes none. A run that has ended stays as it is.
    pub fn step<H: Hand>(&mut self, hand: &mut H) -> StepAnswer
        ensures call { run_call self.new ≡ run_call self.old }
        // An assignment that agrees after the call agreed before it.
        ensures kept { (a : Assignment) → H.agrees hand.new a → H.agrees hand.old a }
        // What the run has found stays true of each assignment that agrees with the call.
        ensures found { PenHolds (H.pending hand.old) self.old → (a : Assignment) → H.agrees hand.new a →
            SoFar a self.old → SoFar a self.new }
        ensures pen { PenHolds (H.pending hand.old) self.old → PenHolds (H.pending hand.new) self.new }
        // Where it stands after the step, by the rule of steps.
        ensures steps { Follows (run_call self.old) (run_place self.old) (run_place self.new) }
        // It makes the call that `next` names alone; where that fails so does the run, and each file sealed is told.
        ensures makes { RunMakes H.makes self.old (run_ending self.new) (run_sealed self.new) hand.old hand.new }
        // A file that it begins has the number of no other that is being written, and what those have stays.
        ensures unused { (n : ℕ) → run_pen self.new ≡ Some n →
            (run_pen self.old ≡ Some n) ⊎ IsFree (H.agrees hand.new) (H.pending hand.old) n }
        ensures others { (n : ℕ) (b : List ℕ) → run_pen self.old ≢ Some n → H.pending hand.old n b →
            H.pending hand.new n b }
        // Of other files than its own none is begun.
        ensures earlier { (n : ℕ) (b : List ℕ) → run_pen self.old ≢ Some n → H.pending hand.new n b →
            H.pending hand.old n b ⊎ (run_pen self.new ≡ Some n) }
        // A file that it writes no longer is sealed or given up.
        ensures released { (n : ℕ) → run_pen self.old ≡ Some n → run_pen self.new ≢ Some n →
            IsFree (H.agrees hand.new) (H.pending hand.new) n }
        // What could be read can be read, and at most one call counts.
        ensures serves { (s : Stamp) → H.serves hand.old s → H.serves hand.new s }
        ensures works { (n : ℕ) → H.works_for hand.old n → H.works_for hand.old (n + 1) → H.works_for hand.new n }
        // What it has sealed can be read.
        ensures written { AreServed (H.serves hand.old) (run_sealed self.old) →
            AreServed (H.serves hand.new) (run_sealed self.new) }
        // On a device that is in order and can read the pins of the call, it does not fail for the device.
        ensures in_order { H.works_for hand.old 1 → PenHolds (H.pending hand.old) self.old →
            PinsServed (H.serves hand.old) (run_call self.old) → run_ending self.old ≡ None →
            run_ending self.new ≡ Some (replies.Failed failures.Device) → ⊥ }
        // On a device whose next call fails, it fails for the device, or for memory before a read.
        ensures fails { H.fails hand.old → FailsWith (run_place self.old) (run_ending self.new) }
        // Where the device failed in this very call, so did the run, and it fails for the device only there.
        ensures rises { H.failed hand.old < H.failed hand.new →
            run_ending self.new ≡ Some (replies.Failed failures.Device) }
        ensures counted { H.failed hand.old ≤ H.failed hand.new }
        ensures cause { run_ending self.new ≡ Some (replies.Failed failures.Device) →
            (run_ending self.old ≡ Some (replies.Failed failures.Device))
            ⊎ DeviceFailed (H.failed hand.old) (H.failed hand.new) }
        // It answers that the run failed exactly where it failed in this step.
        ensures answer { result ≡ step_answer (run_ending self.old) (run_ending self.new) }
        ensures falls { run_ending self.old ≡ None → run_work self.new < run_work self.old }
        ensures ended { run_ending self.old ≢ None → self.new ≡ self.old }
    {
        let phase = mem::replace(
            &mut self.phase,
            Phase::Ended(
                Reply::Failed(Failure::Memory),
                nothing(self.alloc, Vec::new(self.alloc)),
            ),
        );
        let (phase, answer) = advance(self.alloc, hand, &self.task, phase);
        let old = mem::replace(&mut self.phase, phase);
        let_go(old);
        answer
    }

    /// How the run ended, or the run itself, where it has not ended.
    pub fn outcome(self) -> Result<Outcome, Run>
        // The outcome is true of each assignment of which all that the run found is true.
        ensures told { IfOk result (λ o. (a : Assignment) → SoFar a self →
            IsTrueOf a (outcome_call o) (outcome_reply o) (outcome_pins o)) }
        // Where the body was done its new page lists are those of a plan, over the bytes under the pins.
        ensures renewed { IfOk result (λ o. (a : Assignment) → SoFar a self → PinsAreWhole a (outcome_call o) →
            IsRenewedBy a (outcome_call o) (outcome_reply o) (outcome_sealed o) (outcome_news o) (outcome_gone o)) }
        ensures call { IfOk result (λ o. outcome_call o ≡ run_call self) }
        ensures reply { IfOk result (λ o. run_ending self ≡ Some (outcome_reply o)) }
        ensures sealed { IfOk result (λ o. outcome_sealed o ≡ run_sealed self) }
        // It can be handed in.
        ensures fresh { IfOk result (λ o. IsFresh o) }
        // Its new page lists are of parts that the operation writes.
        ensures writes { IfOk result (λ o. (p : ℕ) → pin_at (outcome_pins o) p ≢ None →
            Writes (body_of (outcome_call o).operation).statements p) }
        ensures back { IfErr result (λ run. run ≡ self) }
        ensures begun { IfErr result (λ run. run_ending run ≡ None) }
    {
        let Run { alloc, task, phase } = self;
        match phase {
            Phase::Ended(reply, left) => Ok(outcome_of(task, reply, left)),
            Phase::Reading(read) => Err(Run {
                alloc,
                task,
                phase: Phase::Reading(read),
            }),
            Phase::Paging(more) => Err(Run {
                alloc,
                task,
                phase: Phase::Paging(more),
            }),
            Phase::Creating(plan) => Err(Run {
                alloc,
                task,
                phase: Phase::Creating(plan),
            }),
            Phase::Appending(plan, pen) => Err(Run {
                alloc,
                task,
                phase: Phase::Appending(plan, pen),
            }),
            Phase::Sealing(plan, pen) => Err(Run {
                alloc,
                task,
                phase: Phase::Sealing(plan, pen),
            }),
        }
    }
}
