//! The run of a running call.

ghost use Rattle.std.specs.Prelude.{◌≡◌, ◌≢◌, ◌≤◌, ℕ, List, length, Some, None};
ghost use Rattle.decl_core.specs.Bodies.{body_of};
ghost use Rattle.decl_core.specs.Touched.{Writes};
ghost use Rattle.device_core.specs.declared.hand.Stamp.{Stamp};
ghost use Rattle.device_core.specs.Device.{Assignment};
ghost use Rattle.page_core.specs.PartPins.{pin_at};
ghost use Rattle.page_core.specs.Truths.{IsTrueOf, PinsAreWhole};
ghost use Rattle.run_core.specs.Phases.{IsRenewedBy};
ghost use Rattle.run_core.specs.Runs.{run_call, run_ending, run_sealed, SoFar};
ghost use Rattle.page_core.specs.Outcomes.{outcome_call, outcome_reply, outcome_sealed, outcome_news, outcome_gone};
ghost use Rattle.page_core.specs.Outcomes.{outcome_pins, IsFresh};

use device_core::fuse::FuseHand;
use device_core::memory::MemHand;
use page_core::outcome::Outcome;
use run_core::perform::perform;
use run_core::run::Run;
use std::alloc::Global;

// A run, with the number of its call. A run has to be spent: one that is let go makes failing steps till it ends.
pub(crate) struct Slot {
    pub(crate) alloc: Global,
    pub(crate) number: u32,
    pub(crate) run: Run,
}

impl Slot {
    // The outcome of a run that has ended.
    pub(crate) fn into_outcome(self) -> Outcome
        requires { run_ending self.run ≢ None }
        ensures call { outcome_call result ≡ run_call self.run }
        ensures reply { run_ending self.run ≡ Some (outcome_reply result) }
        ensures sealed { outcome_sealed result ≡ run_sealed self.run }
        ensures renewed { (a : Assignment) → SoFar a self.run → PinsAreWhole a (outcome_call result) →
            IsRenewedBy a (outcome_call result) (outcome_reply result) (outcome_sealed result) (outcome_news result)
            (outcome_gone result) }
        ensures fresh { IsFresh result }
        ensures short { (p : ℕ) (pages : List Stamp) → pin_at (outcome_pins result) p ≡ Some pages → length pages ≤ 8 }
        ensures writes { (p : ℕ) → pin_at (outcome_pins result) p ≢ None →
            Writes (body_of (outcome_call result).operation).statements p }
        ensures told { (a : Assignment) → SoFar a self.run →
            IsTrueOf a (outcome_call result) (outcome_reply result) (outcome_pins result) }
    {
        let Slot {
            alloc,
            number: _,
            run,
        } = self;
        match run.outcome() {
            Ok(outcome) => {
                // Each of its new pins has 8 pages at most.
                let _news = outcome.new_pins();
                outcome
            }
            Err(run) => {
                give_up(alloc, run);
                unreachable!()
            }
        }
    }
}

impl Drop for Slot {
    fn drop(self) {
        let Slot {
            alloc,
            number: _,
            run,
        } = self;
        give_up(alloc, run);
    }
}

// Spends a run by steps that fail.
fn give_up(alloc: Global, run: Run) {
    let mut hand = FuseHand::new(MemHand::new(alloc), 0);
    let _outcome = perform(run, &mut hand);
}
