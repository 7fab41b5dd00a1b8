//! Whole files over any hand.

ghost use Rattle.std.specs.Prelude.{◌↔◌, ◌≤◌, ℕ, List, IfOk, OnErr, IfErr};
ghost use Rattle.device_core.specs.Device.{Assignment, FaultCause, Holds, Always};
ghost use Rattle.device_core.specs.Made.{IsDeviceErr};

use crate::hand::{Hand, HandFault, Stamp};

/// Writes a file of these bytes, in one call of `append`, and seals it.
///
/// The first call that fails gives the error; the file is given up then.
pub fn put<H: Hand>(hand: &mut H, bytes: &[u8]) -> Result<Stamp, HandFault>
    ensures ok { IfOk result (λ stamp. (a : Assignment) →
        H.agrees hand.new a ↔ H.agrees hand.old a × Holds a stamp bytes.now) }
    ensures err { OnErr result ((a : Assignment) → H.agrees hand.new a ↔ H.agrees hand.old a) }
    // It leaves no file that is being written.
    ensures closed { (a : Assignment) → H.agrees hand.new a → (n : ℕ) (b : List ℕ) → H.pending hand.new n b →
        H.pending hand.old n b }
    ensures served { IfOk result (λ stamp. H.serves hand.new stamp) }
    ensures serves { (s : Stamp) → H.serves hand.old s → H.serves hand.new s }
    ensures works { Always (H.works_for hand.old) → Always (H.works_for hand.new) }
    ensures in_order { Always (H.works_for hand.old) → IsDeviceErr result → ⊥ }
    ensures counted { H.failed hand.old ≤ H.failed hand.new }
    ensures cause { IfErr result (λ e. FaultCause (H.failed hand.old) (H.failed hand.new) e) }
{
    let mut pen = hand.create()?;
    if let Err(fault) = hand.append(&mut pen, bytes) {
        hand.discard(pen);
        return Err(fault);
    }
    match hand.seal(pen) {
        Ok(stamp) => Ok(stamp),
        Err((pen, fault)) => {
            hand.discard(pen);
            Err(fault)
        }
    }
}
