//! Files that nobody reads any more.

ghost use Rattle.std.specs.Prelude.{◌≡◌, ◌≢◌, ◌↔◌, ◌≤◌, ℕ, List, All};
ghost use Rattle.device_core.specs.declared.hand.Stamp.{Stamp as AStamp};
ghost use Rattle.device_core.specs.Device.{Assignment, FaultCause, Always};
ghost use Rattle.device_core.specs.Retired.{Left, RetiresAll, AreSome, files_left};

use crate::hand::{Hand, Stamp};

/// Retires each of these files once, in order, and gives back those whose retire failed, in order.
///
/// Where it gives some back, the count of failures rose, or stood at its end, or memory was refused. It takes no memory
/// but what the hand takes.
pub fn retire_all<H: Hand>(hand: &mut H, stamps: Vec<Stamp>) -> Vec<Stamp>
    ensures retired { (left : List Left) × RetiresAll H.makes hand.old stamps.items left hand.new
        × (result.items ≡ files_left left) × All (λ x. FaultCause (H.failed hand.old) (H.failed hand.new) x.1) left }
    ensures some { AreSome result.items stamps.items }
    ensures agrees { (a : Assignment) → H.agrees hand.new a ↔ H.agrees hand.old a }
    ensures others { (n : ℕ) (b : List ℕ) → H.pending hand.old n b → H.pending hand.new n b }
    ensures earlier { (n : ℕ) (b : List ℕ) → H.pending hand.new n b → H.pending hand.old n b }
    ensures serves { (s : AStamp) → All (λ x. s.number ≢ x.number) stamps.items → H.serves hand.old s →
        H.serves hand.new s }
    ensures works { Always (H.works_for hand.old) → Always (H.works_for hand.new) }
    ensures counted { H.failed hand.old ≤ H.failed hand.new }
{
    let mut stamps = stamps;
    let mut kept = 0;
    for at in 0..stamps.len() {
        let stamp = stamps[at];
        match hand.retire(&stamp) {
            Ok(()) => {}
            Err(_) => {
                stamps[kept] = stamp;
                kept += 1;
            }
        }
    }
    stamps.truncate(kept);
    stamps
}
