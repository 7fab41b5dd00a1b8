//! Bytes that are put into files page by page, and read from them.

ghost use Rattle.std.specs.Prelude.{◌≡◌, ◌<◌, ◌≤◌, ◌++◌, ◌∷◌, [], ℕ, List, Some, IfOk, OnOk, IfErr, length, min};
ghost use Rattle.device_core.specs.Device.{Assignment, FaultCause, Holds, Always, AreServed};
ghost use Rattle.device_core.specs.Made.{IsDeviceErr};
ghost use Rattle.page_core.specs.Cut.{IsCut};
ghost use Rattle.page_core.specs.Bytes.{list_bytes, AreWhole};
ghost use Rattle.page_core.specs.Pages.{AreHeld, ArePut};

use crate::cut::{MOST_PAGES, page_size};
use crate::page_list::PageList;
use crate::read::read_list;
use device_core::hand::{Hand, HandFault, Stamp};
use device_core::whole::put;
use std::alloc::Global;

// The first page of some bytes, and what stands behind it.
fn first_page(size: usize, bytes: &[u8]) -> (&[u8], &[u8])
    ensures whole { bytes.now ≡ result.0.now ++ result.1.now }
    ensures len { length result.0.now ≡ min size (length bytes.now) }
{
    bytes.split_at(size.min(bytes.len()))
}

// Seals a page in a new file, and adds its stamp.
fn put_page<H: Hand>(hand: &mut H, page: &[u8], stamps: &mut Vec<Stamp>) -> Result<(), HandFault>
    ensures ok { OnOk result ((stamp : Stamp) × (stamps.new.items ≡ stamps.old.items ++ stamp ∷ [])
        × ((a : Assignment) → H.agrees hand.new a → Holds a stamp page.now) × H.serves hand.new stamp) }
    ensures kept { (a : Assignment) → H.agrees hand.new a → H.agrees hand.old a }
    ensures serves { (s : Stamp) → H.serves hand.old s → H.serves hand.new s }
    ensures works { Always (H.works_for hand.old) → Always (H.works_for hand.new) }
    ensures in_order { Always (H.works_for hand.old) → IsDeviceErr result → ⊥ }
    ensures counted { H.failed hand.old ≤ H.failed hand.new }
    ensures cause { IfErr result (λ e. FaultCause (H.failed hand.old) (H.failed hand.new) e) }
{
    let stamp = match put(hand, page) {
        Ok(stamp) => stamp,
        Err(fault) => return Err(fault),
    };
    match stamps.push(stamp) {
        Ok(()) => Ok(()),
        Err(_) => Err(HandFault::Memory),
    }
}

// Seals each page of some bytes in a new file, in order, and adds their stamps.
fn put_pages<H: Hand>(
    hand: &mut H,
    size: usize,
    bytes: &[u8],
    stamps: &mut Vec<Stamp>,
) -> Result<(), HandFault>
    requires size { 0 < size }
    ensures ok { OnOk result (ArePut (H.agrees hand.new) (H.serves hand.new) size bytes.now stamps.old.items
        stamps.new.items) }
    ensures kept { (a : Assignment) → H.agrees hand.new a → H.agrees hand.old a }
    ensures serves { (s : Stamp) → H.serves hand.old s → H.serves hand.new s }
    ensures works { Always (H.works_for hand.old) → Always (H.works_for hand.new) }
    ensures in_order { Always (H.works_for hand.old) → IsDeviceErr result → ⊥ }
    ensures counted { H.failed hand.old ≤ H.failed hand.new }
    ensures cause { IfErr result (λ e. FaultCause (H.failed hand.old) (H.failed hand.new) e) }
{
    if bytes.is_empty() {
        return Ok(());
    }
    let (page, rest) = first_page(size, bytes);
    match put_page(hand, page, stamps) {
        Ok(()) => {}
        Err(fault) => return Err(fault),
    }
    match put_pages(hand, size, rest, stamps) {
        Ok(()) => Ok(()),
        Err(fault) => Err(fault),
    }
}

/// Cuts bytes, from 1 to 2,097,152, into pages of the least size of which 8 hold them, and seals each page in a new
/// file of the hand, in order. Answers the list of these files.
///
/// `Memory` where room for the stamps is refused, and nothing is written then; else the first call of the hand that
/// fails gives the error. Files that were sealed before it are left.
pub fn put_cut<H: Hand>(alloc: Global, hand: &mut H, bytes: &[u8]) -> Result<PageList, HandFault>
    requires some { 0 < length bytes.now }
    requires few { length bytes.now ≤ 2097152 }
    ensures ok { IfOk result (λ pin. (pages : List (List ℕ)) × IsCut bytes.now pages
        × ((a : Assignment) → H.agrees hand.new a → AreHeld a pin pages)) }
    // Each page can be read.
    ensures served { IfOk result (λ pin. AreServed (H.serves hand.new) pin) }
    ensures kept { (a : Assignment) → H.agrees hand.new a → H.agrees hand.old a }
    ensures serves { (s : Stamp) → H.serves hand.old s → H.serves hand.new s }
    ensures works { Always (H.works_for hand.old) → Always (H.works_for hand.new) }
    ensures in_order { Always (H.works_for hand.old) → IsDeviceErr result → ⊥ }
    ensures counted { H.failed hand.old ≤ H.failed hand.new }
    ensures cause { IfErr result (λ e. FaultCause (H.failed hand.old) (H.failed hand.new) e) }
{
    let Some(size) = page_size(bytes.len()) else {
        unreachable!()
    };
    let mut stamps = match Vec::with_capacity(alloc, MOST_PAGES) {
        Ok(stamps) => stamps,
        Err(_) => return Err(HandFault::Memory),
    };
    match put_pages(hand, size, bytes, &mut stamps) {
        Ok(()) => Ok(PageList::of(&stamps)),
        Err(fault) => Err(fault),
    }
}

/// Reads the bytes of pages, one behind the other, in one call of `read` each.
///
/// `Memory` where memory for the bytes is refused; else the first read that fails gives the error.
pub fn fetch_pages<H: Hand>(
    alloc: Global,
    hand: &mut H,
    pages: &[Stamp],
) -> Result<Vec<u8>, HandFault>
    ensures ok { IfOk result (λ v. (a : Assignment) → H.agrees hand.new a →
        (list_bytes a pages.now ≡ Some v.items) × AreWhole a pages.now) }
    ensures kept { (a : Assignment) → H.agrees hand.new a → H.agrees hand.old a }
    ensures serves { (s : Stamp) → H.serves hand.old s → H.serves hand.new s }
    ensures works { Always (H.works_for hand.old) → Always (H.works_for hand.new) }
    ensures in_order { Always (H.works_for hand.old) → AreServed (H.serves hand.old) pages.now → IsDeviceErr result →
        ⊥ }
    ensures counted { H.failed hand.old ≤ H.failed hand.new }
    ensures cause { IfErr result (λ e. FaultCause (H.failed hand.old) (H.failed hand.new) e) }
{
    let mut bytes = Vec::new(alloc);
    match read_list(hand, pages, &mut bytes) {
        Ok(()) => Ok(bytes),
        Err(fault) => Err(fault),
    }
}
