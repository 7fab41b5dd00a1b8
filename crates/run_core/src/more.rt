//! A page that is read when the body comes to it.

ghost use Rattle.std.specs.Prelude.{◌≡◌, ◌⊎◌, ◌+◌, ◌<◌, ◌≤◌, ℕ, List, Result, Some, length, take, drop, OnOk, IfErr};
ghost use Rattle.std.specs.Prelude.{slice_get, slice_index};
ghost use Rattle.std.specs.Int.{bit_at};
ghost use Rattle.std.specs.Result.{IsErr, IsErrOf};
ghost use Rattle.value_bytes.specs.Laws.{AreBytes};
ghost use Rattle.device_core.specs.declared.hand.Stamp.{Stamp as AStamp};
ghost use Rattle.device_core.specs.Device.{Assignment, FaultCause, Shows};
ghost use Rattle.device_core.specs.Made.{reads, IsDeviceErr};
ghost use Rattle.page_core.specs.PartPins.{pin_at};
ghost use Rattle.known_core.specs.Masks.{IsOneMore, unread};
ghost use Rattle.page_core.specs.CallPins.{Call};
ghost use Rattle.page_core.specs.Truths.{PinsAreWhole};
ghost use Rattle.run_core.specs.Seen.{IsPaged, IsSeen};
ghost use Rattle.run_core.specs.Placed.{IsPlaced};

use crate::seen::Seen;
use device_core::hand::{Hand, HandFault, Stamp};
use page_core::file_bytes::FileBytes;

// How many bytes a page of an array of integers has, but for the last.
const PAGE: usize = 1_024;

// Reads a whole file into these bytes, from this place on.
fn read_into<H: Hand>(
    hand: &mut H,
    stamp: &Stamp,
    at: usize,
    bytes: &mut [u8],
) -> Result<(), HandFault>
    requires { at + stamp.now.len ≤ length bytes.old }
    ensures kept { (a : Assignment) → H.agrees hand.new a → H.agrees hand.old a }
    ensures shown { OnOk result ((a : Assignment) → H.agrees hand.new a →
        Shows a stamp.now.number 0 (take stamp.now.len (drop at bytes.new))) }
    ensures placed { IsPlaced at stamp.now.len bytes.old bytes.new }
    ensures are { AreBytes bytes.new }
    ensures others { (n : ℕ) (b : List ℕ) → H.pending hand.old n b → H.pending hand.new n b }
    ensures earlier { (n : ℕ) (b : List ℕ) → H.pending hand.new n b → H.pending hand.old n b }
    ensures serves { (s : AStamp) → H.serves hand.old s → H.serves hand.new s }
    ensures works { (n : ℕ) → H.works_for hand.old (n + 1) → H.works_for hand.new n }
    ensures in_order { H.works_for hand.old 1 → H.serves hand.old stamp.now → IsDeviceErr result → ⊥ }
    ensures fails { H.fails hand.old → IsDeviceErr result }
    ensures makes { (b : List ℕ) × H.makes hand.old (reads stamp.now 0 b result) hand.new }
    ensures rises { H.failed hand.old < H.failed hand.new → IsDeviceErr result }
    ensures counted { H.failed hand.old ≤ H.failed hand.new }
    ensures cause { IfErr result (λ e. FaultCause (H.failed hand.old) (H.failed hand.new) e) }
{
    match hand.read(stamp, 0, &mut bytes[at..at + stamp.len]) {
        Ok(()) => Ok(()),
        Err(fault) => Err(fault),
    }
}

// Reads this file to this place of the bytes that were read of a part, in one device call. Where they end before the
// file would, memory is refused, and no call is made.
fn read_at<H: Hand>(
    hand: &mut H,
    stamp: &Stamp,
    at: usize,
    row: &mut FileBytes,
) -> Result<(), HandFault>
    ensures kept { (a : Assignment) → H.agrees hand.new a → H.agrees hand.old a }
    ensures shown { OnOk result ((a : Assignment) → H.agrees hand.new a →
        Shows a stamp.now.number 0 (take stamp.now.len (drop at row.new))) }
    ensures placed { OnOk result (IsPlaced at stamp.now.len row.old row.new) }
    ensures are { OnOk result (AreBytes row.new) }
    ensures within { OnOk result (at + stamp.now.len ≤ length row.old) }
    ensures others { (n : ℕ) (b : List ℕ) → H.pending hand.old n b → H.pending hand.new n b }
    ensures earlier { (n : ℕ) (b : List ℕ) → H.pending hand.new n b → H.pending hand.old n b }
    ensures serves { (s : AStamp) → H.serves hand.old s → H.serves hand.new s }
    ensures works { (n : ℕ) → H.works_for hand.old n → H.works_for hand.old (n + 1) → H.works_for hand.new n }
    ensures in_order { H.works_for hand.old 1 → H.serves hand.old stamp.now → IsDeviceErr result → ⊥ }
    ensures fails { H.fails hand.old → IsErr result }
    ensures makes { (IsErrOf result HandFault.Memory × (hand.new ≡ hand.old))
        ⊎ ((b : List ℕ) × H.makes hand.old (reads stamp.now 0 b result) hand.new) }
    ensures rises { H.failed hand.old < H.failed hand.new → IsDeviceErr result }
    ensures counted { H.failed hand.old ≤ H.failed hand.new }
    ensures cause { IfErr result (λ e. FaultCause (H.failed hand.old) (H.failed hand.new) e) }
{
    let bytes = row.as_mut_slice();
    if at > bytes.len() || stamp.len > bytes.len() - at {
        return Err(HandFault::Memory);
    }
    match read_into(hand, stamp, at, bytes) {
        Ok(()) => Ok(()),
        Err(fault) => Err(fault),
    }
}

/// Reads this file into the place of a page that is not known, in one device call; from then on the page is known.
/// Where that place is not as long as the file, memory is refused, and no call is made. Parts count from 0, below 16;
/// pages from 0, below 8.
pub fn read_more<H: Hand>(
    hand: &mut H,
    stamp: &Stamp,
    seen: &mut Seen,
    part: usize,
    page: usize,
) -> Result<(), HandFault>
    requires part { part < 16 }
    requires page { page < 8 }
    requires clear { bit_at (slice_index seen.old.known part) page ≡ 0 }
    ensures kept { (a : Assignment) → H.agrees hand.new a → H.agrees hand.old a }
    // Where it is a page of the pin of a part that is read page by page, all is seen as before, and this page too.
    ensures found { OnOk result ((a : Assignment) → H.agrees hand.new a → (call : Call) (pages : List AStamp) →
        IsPaged call part → pin_at call.pins part ≡ Some pages → slice_get pages page ≡ Some stamp.now →
        PinsAreWhole a call → IsSeen a call seen.old.known seen.old.read.items →
        IsSeen a call seen.new.known seen.new.read.items) }
    ensures more { OnOk result (IsOneMore seen.old.known seen.new.known part page) }
    ensures falls { OnOk result (unread seen.new.known + 1 ≡ unread seen.old.known) }
    ensures long { OnOk result (length seen.new.read.items ≡ length seen.old.read.items) }
    ensures others { (n : ℕ) (b : List ℕ) → H.pending hand.old n b → H.pending hand.new n b }
    ensures earlier { (n : ℕ) (b : List ℕ) → H.pending hand.new n b → H.pending hand.old n b }
    ensures serves { (s : AStamp) → H.serves hand.old s → H.serves hand.new s }
    ensures works { (n : ℕ) → H.works_for hand.old n → H.works_for hand.old (n + 1) → H.works_for hand.new n }
    ensures in_order { H.works_for hand.old 1 → H.serves hand.old stamp.now → IsDeviceErr result → ⊥ }
    ensures fails { H.fails hand.old → IsErr result }
    ensures makes { (IsErrOf result HandFault.Memory × (hand.new ≡ hand.old))
        ⊎ ((b : List ℕ) × H.makes hand.old (reads stamp.now 0 b result) hand.new) }
    ensures rises { H.failed hand.old < H.failed hand.new → IsDeviceErr result }
    ensures counted { H.failed hand.old ≤ H.failed hand.new }
    ensures cause { IfErr result (λ e. FaultCause (H.failed hand.old) (H.failed hand.new) e) }
{
    if part >= seen.read.len() {
        return Err(HandFault::Memory);
    }
    match read_at(hand, stamp, page * PAGE, &mut seen.read[part]) {
        Ok(()) => {}
        Err(fault) => return Err(fault),
    }
    seen.known = seen.known.with(part, page);
    Ok(())
}
