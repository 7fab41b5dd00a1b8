//! One step of a run, by where it stands.

ghost use Rattle.std.specs.Prelude.{◌≡◌, ◌≢◌, ◌+◌, ◌<◌, ◌≤◌, ◌⊎◌, ℕ, List, Some, None};
ghost use Rattle.std.specs.Arc.{arc_value};
ghost use Rattle.decl_core.specs.Bodies.{body_of};
ghost use Rattle.decl_core.specs.Touched.{Writes};
ghost use Rattle.page_core.specs.PartPins.{pin_at};
ghost use Rattle.device_core.specs.declared.hand.Stamp.{Stamp};
ghost use Rattle.device_core.specs.Device.{Assignment, IsFree, Failed as DeviceFailed};
ghost use Rattle.apply_core.specs.declared.reply.Failure.TheVariants as failures;
ghost use Rattle.apply_core.specs.declared.reply.Reply.TheVariants as replies;
ghost use Rattle.run_core.specs.Calling.{StepMakes};
ghost use Rattle.run_core.specs.Tasks.{task_call};
ghost use Rattle.page_core.specs.Truths.{PinsAreWhole};
ghost use Rattle.run_core.specs.Steps.{Follows, FailsWith, AreServed, ReadIsServed, place_in};
ghost use Rattle.run_core.specs.Phases.{ending_of, sealed_in, news_in, answer_to, step_answer, PenHoldsIn, HasItsReads};
ghost use Rattle.run_core.specs.Phases.{pen_in, FoundBy, work_in};

use crate::phase::Phase;
use crate::read::{page_step, read_step};
use crate::step::StepAnswer;
use crate::task::Task;
use crate::write::{append_step, create_step, seal_step};
use apply_core::reply::{Failure, Reply};
use device_core::hand::{Hand, HandFault};
use std::alloc::Global;

// What a step answers that left a run here that had not ended.
fn answer(phase: &Phase) -> StepAnswer
    ensures { result ≡ answer_to (ending_of phase.now) }
{
    match phase {
        Phase::Ended(Reply::Failed(Failure::Device), _) => StepAnswer::Failed(HandFault::Device),
        Phase::Ended(Reply::Failed(Failure::Memory), _) => StepAnswer::Failed(HandFault::Memory),
        _ => StepAnswer::Went,
    }
}

// Makes one device call, where the run has not ended.
pub(crate) fn advance<H: Hand>(
    alloc: Global,
    hand: &mut H,
    task: &Task,
    phase: Phase,
) -> (Phase, StepAnswer)
    requires { HasItsReads (arc_value task.now.operation) phase }
    ensures kept { (a : Assignment) → H.agrees hand.new a → H.agrees hand.old a }
    ensures found { PenHoldsIn (H.pending hand.old) phase → (a : Assignment) → H.agrees hand.new a →
        PinsAreWhole a (task_call task.now) → FoundBy a (task_call task.now) phase →
        FoundBy a (task_call task.now) result.0 }
    ensures steps { Follows (task_call task.now) (place_in phase) (place_in result.0) }
    ensures reads { HasItsReads (arc_value task.now.operation) result.0 }
    ensures pen { PenHoldsIn (H.pending hand.old) phase → PenHoldsIn (H.pending hand.new) result.0 }
    ensures others { (n : ℕ) (b : List ℕ) → pen_in phase ≢ Some n → H.pending hand.old n b → H.pending hand.new n b }
    ensures earlier { (n : ℕ) (b : List ℕ) → pen_in phase ≢ Some n → H.pending hand.new n b →
        H.pending hand.old n b ⊎ (pen_in result.0 ≡ Some n) }
    ensures unused { (n : ℕ) → pen_in result.0 ≡ Some n →
        (pen_in phase ≡ Some n) ⊎ IsFree (H.agrees hand.new) (H.pending hand.old) n }
    ensures serves { (s : Stamp) → H.serves hand.old s → H.serves hand.new s }
    ensures news { (p : ℕ) → pin_at (news_in result.0) p ≢ None →
        (pin_at (news_in phase) p ≢ None) ⊎ Writes (body_of (arc_value task.now.operation)).statements p }
    ensures written { AreServed (H.serves hand.old) (sealed_in phase) →
        AreServed (H.serves hand.new) (sealed_in result.0) }
    ensures works { (n : ℕ) → H.works_for hand.old n → H.works_for hand.old (n + 1) → H.works_for hand.new n }
    ensures in_order { H.works_for hand.old 1 → PenHoldsIn (H.pending hand.old) phase → ending_of phase ≡ None →
        ReadIsServed (H.serves hand.old) (task_call task.now) (place_in phase) →
        ending_of result.0 ≡ Some (replies.Failed failures.Device) → ⊥ }
    ensures fails { H.fails hand.old → FailsWith (place_in phase) (ending_of result.0) }
    ensures rises { H.failed hand.old < H.failed hand.new → ending_of result.0 ≡ Some (replies.Failed failures.Device) }
    ensures released { (n : ℕ) → pen_in phase ≡ Some n → pen_in result.0 ≢ Some n →
        IsFree (H.agrees hand.new) (H.pending hand.new) n }
    ensures makes { StepMakes H.makes (task_call task.now) phase (ending_of result.0) (sealed_in result.0)
        hand.old hand.new }
    ensures counted { H.failed hand.old ≤ H.failed hand.new }
    ensures cause { ending_of result.0 ≡ Some (replies.Failed failures.Device) →
        (ending_of phase ≡ Some (replies.Failed failures.Device))
        ⊎ DeviceFailed (H.failed hand.old) (H.failed hand.new) }
    ensures answer { result.1 ≡ step_answer (ending_of phase) (ending_of result.0) }
    ensures falls { (ending_of phase ≡ None) → work_in result.0 < work_in phase }
    ensures ended { ending_of phase ≢ None → result.0 ≡ phase }
{
    let next = match phase {
        Phase::Reading(r) => read_step(alloc, hand, task, r),
        Phase::Paging(m) => page_step(alloc, hand, task, m),
        Phase::Creating(plan) => create_step(alloc, hand, plan),
        Phase::Appending(plan, pen) => append_step(alloc, hand, plan, pen),
        Phase::Sealing(plan, pen) => seal_step(alloc, hand, plan, pen),
        Phase::Ended(reply, left) => {
            return (Phase::Ended(reply, left), StepAnswer::AlreadyDone);
        }
    };
    let told = answer(&next);
    (next, told)
}
