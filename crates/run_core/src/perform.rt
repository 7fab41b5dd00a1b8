//! Whole runs.

ghost use Rattle.std.specs.Prelude.{◌≡◌, ◌≢◌, ◌⊎◌, ◌<◌, ◌≤◌, ℕ, Some, None};
ghost use Rattle.decl_core.specs.Bodies.{body_of};
ghost use Rattle.decl_core.specs.Touched.{Writes};
ghost use Rattle.device_core.specs.declared.hand.Stamp.{Stamp};
ghost use Rattle.device_core.specs.Device.{Assignment, Always, Failed as DeviceFailed};
ghost use Rattle.apply_core.specs.declared.reply.Failure.TheVariants as failures;
ghost use Rattle.apply_core.specs.declared.reply.Reply.TheVariants as replies;
ghost use Rattle.page_core.specs.Truths.{IsTrueOf, PinsAreWhole};
ghost use Rattle.run_core.specs.Phases.{IsRenewedBy};
ghost use Rattle.run_core.specs.Runs.{run_call, run_ending, run_place, run_sealed, PenHolds, SoFar};
ghost use Rattle.run_core.specs.Steps.{Leads, AreServed, PinsServed, at_end};
ghost use Rattle.page_core.specs.Outcomes.{outcome_call, outcome_reply, outcome_sealed, outcome_news, outcome_gone};
ghost use Rattle.page_core.specs.Outcomes.{outcome_pins, IsFresh};
ghost use Rattle.page_core.specs.PartPins.{pin_at};

use crate::run::Run;
use device_core::hand::Hand;
use page_core::outcome::Outcome;

/// Steps until the run has ended.
pub fn perform<H: Hand>(run: Run, hand: &mut H) -> Outcome
    ensures call { outcome_call result ≡ run_call run }
    // It ends where steps from the run's place lead.
    ensures steps { Leads (run_call run) (run_place run) (at_end (outcome_reply result) (outcome_sealed result)) }
    ensures kept { (a : Assignment) → H.agrees hand.new a → H.agrees hand.old a }
    // The outcome is true of each assignment that agrees with all calls, and of which what the run had found is true.
    ensures told { PenHolds (H.pending hand.old) run → (a : Assignment) → H.agrees hand.new a → SoFar a run →
        IsTrueOf a (outcome_call result) (outcome_reply result) (outcome_pins result) }
    // Where the body was done its new page lists are those of a plan, over the bytes under the pins.
    ensures renewed { PenHolds (H.pending hand.old) run → (a : Assignment) → H.agrees hand.new a → SoFar a run →
        PinsAreWhole a (outcome_call result) →
        IsRenewedBy a (outcome_call result) (outcome_reply result) (outcome_sealed result) (outcome_news result)
        (outcome_gone result) }
    // It can be handed in.
    ensures fresh { IsFresh result }
    // Its new page lists are of parts that the operation writes.
    ensures writes { (p : ℕ) → pin_at (outcome_pins result) p ≢ None →
        Writes (body_of (outcome_call result).operation).statements p }
    // What could be read can be read, and the device stays in order.
    ensures serves { (s : Stamp) → H.serves hand.old s → H.serves hand.new s }
    ensures works { Always (H.works_for hand.old) → Always (H.works_for hand.new) }
    // What it has sealed can be read.
    ensures written { AreServed (H.serves hand.old) (run_sealed run) →
        AreServed (H.serves hand.new) (outcome_sealed result) }
    // On a device that is in order and can read the pins of the call, it does not fail for the device.
    ensures in_order { Always (H.works_for hand.old) → PenHolds (H.pending hand.old) run →
        PinsServed (H.serves hand.old) (run_call run) → run_ending run ≡ None →
        outcome_reply result ≢ replies.Failed failures.Device }
    // Where the device failed in these calls, so did the run.
    ensures rises { H.failed hand.old < H.failed hand.new → outcome_reply result ≡ replies.Failed failures.Device }
    // A run that had not failed for the device does so only where the device failed in these calls.
    ensures counted { H.failed hand.old ≤ H.failed hand.new }
    ensures cause { outcome_reply result ≡ replies.Failed failures.Device →
        (run_ending run ≡ Some (replies.Failed failures.Device))
        ⊎ DeviceFailed (H.failed hand.old) (H.failed hand.new) }
{
    let mut run = run;
    loop {
        match run.outcome() {
            Ok(outcome) => return outcome,
            Err(back) => run = back,
        }
        run.step(hand);
    }
}
