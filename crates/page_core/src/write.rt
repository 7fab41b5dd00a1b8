//! Pages that are written at once.

ghost use Rattle.std.specs.Prelude.{◌≡◌, ◌≢◌, ℕ, ◌+◌, ◌<◌, ◌≤◌, ◌++◌, ◌∷◌, [], List, Some, None, IfOk, IfErr, length};
ghost use Rattle.std.specs.Prelude.{vec_capacity, slice_set};
ghost use Rattle.device_core.specs.declared.hand.HandFault.TheVariants as faults;
ghost use Rattle.device_core.specs.declared.hand.Stamp.{Stamp as AStamp};
ghost use Rattle.device_core.specs.Device.{Assignment, FaultCause, Holds, Always, AreServed, Failed as DeviceFailed};
ghost use Rattle.device_core.specs.Made.{Made, IsDeviceErr};
ghost use Rattle.page_core.specs.Calls.{AreMade, WritesFile, WritesPages};
ghost use Rattle.page_core.specs.Renewed.{AreSealed, ArePlaces, with_sealed};

use crate::plan::PageWrite;
use device_core::hand::{Hand, HandFault, Stamp};

// Writes a file of these bytes: one call of each kind.
fn write_file<H: Hand>(hand: &mut H, bytes: &[u8]) -> Result<Stamp, HandFault>
    ensures kept { (a : Assignment) → H.agrees hand.new a → H.agrees hand.old a }
    ensures holds { IfOk result (λ s. (a : Assignment) → H.agrees hand.new a → Holds a s bytes.now) }
    ensures makes { (calls : List Made) × AreMade H.makes hand.old calls hand.new × WritesFile bytes.now calls result }
    ensures earlier { (a : Assignment) → H.agrees hand.new a → (n : ℕ) (b : List ℕ) → H.pending hand.new n b →
        H.pending hand.old n b }
    ensures serves { (s : AStamp) → H.serves hand.old s → H.serves hand.new s }
    ensures served { IfOk result (λ s. H.serves hand.new s) }
    ensures works { Always (H.works_for hand.old) → Always (H.works_for hand.new) }
    ensures in_order { Always (H.works_for hand.old) → IsDeviceErr result → ⊥ }
    ensures rises { H.failed hand.old < H.failed hand.new → IsDeviceErr result }
    ensures counted { H.failed hand.old ≤ H.failed hand.new }
    ensures cause { IfErr result (λ e. FaultCause (H.failed hand.old) (H.failed hand.new) e) }
{
    let mut pen = match hand.create() {
        Ok(pen) => pen,
        Err(fault) => return Err(fault),
    };
    match hand.append(&mut pen, bytes) {
        Ok(()) => {}
        Err(fault) => {
            hand.discard(pen);
            return Err(fault);
        }
    }
    match hand.seal(pen) {
        Ok(stamp) => Ok(stamp),
        Err((pen, fault)) => {
            hand.discard(pen);
            Err(fault)
        }
    }
}

// These stamps, and one more behind them, for which there is room.
fn with_one(sealed: Vec<Stamp>, stamp: Stamp) -> Vec<Stamp>
    requires { length sealed.items < vec_capacity sealed }
    ensures items { result.items ≡ sealed.items ++ stamp ∷ [] }
    ensures room { vec_capacity result ≡ vec_capacity sealed }
{
    let mut sealed = sealed;
    sealed.push_reserved(stamp);
    sealed
}

/// Writes pages, each into a file of its own, and adds their stamps to those that are sealed, for which there is room.
/// It answers all that are sealed, and the fault that ended it, if there was one.
pub fn write_pages<H: Hand>(
    hand: &mut H,
    writes: &[PageWrite],
    sealed: Vec<Stamp>,
) -> (Vec<Stamp>, Option<HandFault>)
    requires room { length sealed.items + length writes.now ≤ vec_capacity sealed }
    ensures kept { (a : Assignment) → H.agrees hand.new a → H.agrees hand.old a }
    ensures sealed { (more : List AStamp) × (result.0.items ≡ sealed.items ++ more)
        × ((a : Assignment) → H.agrees hand.new a → AreSealed a writes.now more) }
    ensures all { result.1 ≡ None → length result.0.items ≡ length sealed.items + length writes.now }
    // It writes the pages in order, each by one call of a kind, up to one that fails, and tells all that it sealed.
    ensures makes { (calls : List Made) × (more : List AStamp) × (result.0.items ≡ sealed.items ++ more)
        × AreMade H.makes hand.old calls hand.new × WritesPages writes.now calls more result.1 }
    // No file is left open.
    ensures earlier { (a : Assignment) → H.agrees hand.new a → (n : ℕ) (b : List ℕ) → H.pending hand.new n b →
        H.pending hand.old n b }
    // What could be read can be read, and so can what it sealed; a device that is in order does not fail.
    ensures serves { (s : AStamp) → H.serves hand.old s → H.serves hand.new s }
    ensures served { AreServed (H.serves hand.old) sealed.items → AreServed (H.serves hand.new) result.0.items }
    ensures works { Always (H.works_for hand.old) → Always (H.works_for hand.new) }
    ensures in_order { Always (H.works_for hand.old) → result.1 ≢ Some faults.Device }
    ensures rises { H.failed hand.old < H.failed hand.new → result.1 ≡ Some faults.Device }
    ensures counted { H.failed hand.old ≤ H.failed hand.new }
    ensures cause { result.1 ≡ Some faults.Device → DeviceFailed (H.failed hand.old) (H.failed hand.new) }
{
    let Some((write, rest)) = writes.split_first() else {
        return (sealed, None);
    };
    let stamp = match write_file(hand, write.bytes.as_slice()) {
        Ok(stamp) => stamp,
        Err(fault) => return (sealed, Some(fault)),
    };
    write_pages(hand, rest, with_one(sealed, stamp))
}

/// Puts the stamps of the pages that were written in their places.
pub fn put_sealed(stamps: &mut Vec<Stamp>, writes: &[PageWrite], sealed: &[Stamp])
    requires { ArePlaces (length stamps.old.items) writes.now }
    ensures { stamps.new.items ≡ with_sealed stamps.old.items writes.now sealed.now }
{
    match writes.split_first() {
        None => {}
        Some((write, rest)) => match sealed.split_first() {
            None => {}
            Some((stamp, others)) => {
                put_one(stamps, write.place, stamp);
                put_sealed(stamps, rest, others);
            }
        },
    }
}

// Puts a stamp in its place.
fn put_one(stamps: &mut Vec<Stamp>, place: usize, stamp: &Stamp)
    requires { place < length stamps.old.items }
    ensures stamps { stamps.new.items ≡ slice_set stamps.old.items place stamp.now }
    ensures many { length stamps.new.items ≡ length stamps.old.items }
{
    stamps[place] = *stamp;
}
