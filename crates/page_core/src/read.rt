//! Pages that are read.

ghost use Rattle.std.specs.Prelude.{◌≡◌, ◌⊎◌, ℕ, ◌+◌, ◌<◌, ◌≤◌, ◌++◌, List, Some, Result, OnOk, IfErr, length, take};
ghost use Rattle.std.specs.Prelude.{drop};
ghost use Rattle.std.specs.Result.{IsErr, IsErrOf};
ghost use Rattle.device_core.specs.declared.hand.Stamp.{Stamp as AStamp};
ghost use Rattle.device_core.specs.Device.{Assignment, FaultCause, Shows, Always, AreServed};
ghost use Rattle.device_core.specs.Made.{Made, reads, IsDeviceErr};
ghost use Rattle.page_core.specs.Bytes.{list_bytes, AreWhole, IsPage};
ghost use Rattle.page_core.specs.Calls.{AreMade, ReadInOrder};

use device_core::hand::{Hand, HandFault, Stamp};

// Reads a whole file into what stands from this place on to the end of the bytes.
fn read_end<H: Hand>(
    hand: &mut H,
    page: &Stamp,
    at: usize,
    bytes: &mut [u8],
) -> Result<(), HandFault>
    requires at { at ≤ length bytes.old }
    requires len { length bytes.old ≡ at + page.now.len }
    ensures kept { (a : Assignment) → H.agrees hand.new a → H.agrees hand.old a }
    ensures shown { OnOk result ((a : Assignment) → H.agrees hand.new a →
        Shows a page.now.number 0 (drop at bytes.new)) }
    ensures front { take at bytes.new ≡ take at bytes.old }
    ensures len { length bytes.new ≡ length bytes.old }
    ensures others { (n : ℕ) (b : List ℕ) → H.pending hand.old n b → H.pending hand.new n b }
    ensures earlier { (n : ℕ) (b : List ℕ) → H.pending hand.new n b → H.pending hand.old n b }
    ensures serves { (s : AStamp) → H.serves hand.old s → H.serves hand.new s }
    ensures works { (n : ℕ) → H.works_for hand.old (n + 1) → H.works_for hand.new n }
    ensures in_order { H.works_for hand.old 1 → H.serves hand.old page.now → IsDeviceErr result → ⊥ }
    ensures fails { H.fails hand.old → IsDeviceErr result }
    ensures makes { (b : List ℕ) × H.makes hand.old (reads page.now 0 b result) hand.new }
    ensures rises { H.failed hand.old < H.failed hand.new → IsDeviceErr result }
    ensures counted { H.failed hand.old ≤ H.failed hand.new }
    ensures cause { IfErr result (λ e. FaultCause (H.failed hand.old) (H.failed hand.new) e) }
{
    match hand.read(page, 0, &mut bytes[at..]) {
        Ok(()) => Ok(()),
        Err(fault) => Err(fault),
    }
}

/// Adds the bytes of a page, in one device call. Where memory for them is refused it makes none.
pub fn read_page<H: Hand>(hand: &mut H, page: &Stamp, got: &mut Vec<u8>) -> Result<(), HandFault>
    ensures kept { (a : Assignment) → H.agrees hand.new a → H.agrees hand.old a }
    ensures found { OnOk result ((bytes : List ℕ) × (got.new.items ≡ got.old.items ++ bytes)
        × ((a : Assignment) → H.agrees hand.new a → IsPage a page.now bytes)) }
    ensures others { (n : ℕ) (b : List ℕ) → H.pending hand.old n b → H.pending hand.new n b }
    ensures earlier { (n : ℕ) (b : List ℕ) → H.pending hand.new n b → H.pending hand.old n b }
    ensures serves { (s : AStamp) → H.serves hand.old s → H.serves hand.new s }
    ensures works { (n : ℕ) → H.works_for hand.old n → H.works_for hand.old (n + 1) → H.works_for hand.new n }
    ensures in_order { H.works_for hand.old 1 → H.serves hand.old page.now → IsDeviceErr result → ⊥ }
    // Where memory for the bytes is refused no call is made.
    ensures fails { H.fails hand.old → IsErr result }
    ensures makes { (IsErrOf result HandFault.Memory × (hand.new ≡ hand.old))
        ⊎ ((b : List ℕ) × H.makes hand.old (reads page.now 0 b result) hand.new) }
    ensures rises { H.failed hand.old < H.failed hand.new → IsDeviceErr result }
    ensures counted { H.failed hand.old ≤ H.failed hand.new }
    ensures cause { IfErr result (λ e. FaultCause (H.failed hand.old) (H.failed hand.new) e) }
{
    let at = got.len();
    let Some(end) = at.checked_add(page.len) else {
        return Err(HandFault::Memory);
    };
    match got.resize(end, 0) {
        Ok(()) => {}
        Err(_) => return Err(HandFault::Memory),
    }
    match read_end(hand, page, at, got) {
        Ok(()) => Ok(()),
        Err(fault) => Err(fault),
    }
}

/// Adds the bytes of a page list, page by page.
pub fn read_list<H: Hand>(hand: &mut H, pages: &[Stamp], got: &mut Vec<u8>) -> Result<(), HandFault>
    ensures kept { (a : Assignment) → H.agrees hand.new a → H.agrees hand.old a }
    // What was read are the bytes of the list, and it is whole.
    ensures found { OnOk result ((bytes : List ℕ) × (got.new.items ≡ got.old.items ++ bytes)
        × ((a : Assignment) → H.agrees hand.new a → (list_bytes a pages.now ≡ Some bytes) × AreWhole a pages.now)) }
    // It reads the pages in order, each once, up to one that fails, or for whose bytes memory is refused.
    ensures makes { (calls : List Made) × AreMade H.makes hand.old calls hand.new × ReadInOrder pages.now calls }
    // No file is begun.
    ensures earlier { (n : ℕ) (b : List ℕ) → H.pending hand.new n b → H.pending hand.old n b }
    // What could be read can be read, and a device that is in order and can read the list does not fail.
    ensures serves { (s : AStamp) → H.serves hand.old s → H.serves hand.new s }
    ensures works { Always (H.works_for hand.old) → Always (H.works_for hand.new) }
    ensures in_order { Always (H.works_for hand.old) → AreServed (H.serves hand.old) pages.now → IsDeviceErr result →
        ⊥ }
    ensures rises { H.failed hand.old < H.failed hand.new → IsDeviceErr result }
    ensures counted { H.failed hand.old ≤ H.failed hand.new }
    ensures cause { IfErr result (λ e. FaultCause (H.failed hand.old) (H.failed hand.new) e) }
{
    let Some((page, rest)) = pages.split_first() else {
        return Ok(());
    };
    match read_page(hand, page, got) {
        Ok(()) => {}
        Err(fault) => return Err(fault),
    }
    match read_list(hand, rest, got) {
        Ok(()) => Ok(()),
        Err(fault) => Err(fault),
    }
}
