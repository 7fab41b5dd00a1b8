//! Public calls that no program makes: they are there for laws and tests, off the path of a call.

ghost use Rattle.std.specs.Prelude.{◌≡◌, ◌≢◌, ◌≤◌, ◌↔◌, ℕ, IsTrue, None};
ghost use Rattle.std.specs.Int.{bit_at};
ghost use Rattle.page_core.specs.CallPins.{HasPins};
ghost use Rattle.device_core.specs.Device.{Assignment};
ghost use Rattle.page_core.specs.PartPins.{pin_at};
ghost use Rattle.run_core.specs.Runs.{AreApart, PenHolds, run_call, run_place};
ghost use Rattle.run_core.specs.Steps.{Follows};

use crate::run::Run;
use crate::step::StepAnswer;
use decl_core::footprint::{is_in, reads};
use decl_core::id::MOST_PARTS;
use decl_core::object::Operation;
use device_core::hand::Hand;
use page_core::part_pins::PartPins;

// Whether a part has a pin.
fn has_pin(pins: &PartPins, part: usize) -> bool
    ensures { IsTrue result ↔ (pin_at pins.now part ≢ None) }
{
    match pins.pages(part) {
        Some(_) => true,
        None => false,
    }
}

// Whether each part from this one on whose bit is set has a pin.
fn have_pins(parts: u16, pins: &PartPins, from: usize) -> bool
    ensures { IsTrue result ↔ ((q : ℕ) → from ≤ q → bit_at parts q ≡ 1 → pin_at pins.now q ≢ None) }
{
    if from >= MOST_PARTS {
        return true;
    }
    if is_in(from, parts) && !has_pin(pins, from) {
        return false;
    }
    have_pins(parts, pins, from + 1)
}

/// Whether each part that the operation reads has a pin. It takes no memory.
pub fn pins_fit(operation: &Operation, pins: &PartPins) -> bool
    ensures { IsTrue result ↔ HasPins operation.now pins.now }
{
    have_pins(reads(operation), pins, 0)
}

/// A step of one run, beside another run that writes on the same hand: the two write no file together, and
/// what the resting one appended stays in its file.
pub fn step_beside<H: Hand>(hand: &mut H, resting: &Run, run: &mut Run) -> StepAnswer
    ensures call { run_call run.new ≡ run_call run.old }
    ensures steps { Follows (run_call run.old) (run_place run.old) (run_place run.new) }
    ensures held { (a : Assignment) → H.agrees hand.new a → PenHolds (H.pending hand.old) resting.now →
        AreApart resting.now run.old → PenHolds (H.pending hand.new) resting.now }
    ensures apart { (a : Assignment) → H.agrees hand.new a → PenHolds (H.pending hand.old) resting.now →
        AreApart resting.now run.old → AreApart resting.now run.new }
{
    run.step(hand)
}
