//! The parts of an object, from a hand to a shelf.

ghost use Rattle.std.specs.Prelude.{◌≡◌, ◌≤◌, ◌⊎◌, ℕ, List, length, IfOk, IfErr, OnOk, OnErr};
ghost use Rattle.std.specs.FinMap.{insert};
ghost use Rattle.device_core.specs.declared.hand.Stamp.{Stamp};
ghost use Rattle.device_core.specs.Device.{Assignment, Failed, Always, AreServed};
ghost use Rattle.device_core.specs.Papers.{Papers, part_key};
ghost use Rattle.page_core.specs.Saved.{save_fault_of, IsFetched, AreFetched};
ghost use Rattle.page_core.specs.Saved.{with_parts, SaveCause, PinSaveCause, StoreCause, SaveLeaves, PartLeaves};
ghost use Rattle.page_core.specs.Saved.{StoreLeaves};
ghost use Rattle.page_core.specs.Pages.{ArePinsServed};

use crate::open::write_key;
use crate::page_list::PageList;
use crate::pages::fetch_pages;
use crate::part_at::PartAt;
use crate::pins::Pins;
use decl_core::object::Object;
use device_core::hand::{Hand, HandFault};
use device_core::shelf::Shelf;
use std::alloc::{AllocError, Global};
use thiserror::Error;
use value_bytes::decode::{DecodeFault, decode};

/// Why the parts of an object were not saved.
#[derive(Clone, Copy, Debug, PartialEq, Eq, Error)]
pub enum SaveFault {
    /// The bytes under the pin of this part, counted from 0, spell no value of the part's kind in the second format.
    /// Nothing was stored for it.
    #[error("Damaged {0}")]
    Damaged(usize),
    /// The shelf or the hand failed at this part, counted from 0. Its count of failures rose in this call,
    /// or stood at its end.
    #[error("Device {0}")]
    Device(usize),
    /// Memory was refused.
    #[error("Memory")]
    Memory,
}

impl From<AllocError> for SaveFault {
    ghost use Rattle.std.specs.Prelude.{◌≡◌};
    ghost use Rattle.page_core.specs.declared.save.SaveFault.TheVariants.{Memory};

    ghost from_gives = { λ _ e. e ≡ Memory };

    fn from(_: AllocError) -> SaveFault {
        SaveFault::Memory
    }
}

// A device's fault, as one of saving this part.
fn of_device(fault: HandFault, number: usize) -> SaveFault
    ensures { result ≡ save_fault_of fault number }
{
    match fault {
        HandFault::Device => SaveFault::Device(number),
        HandFault::Memory => SaveFault::Memory,
    }
}

// The bytes under a part's pin, which spell a value of its kind in the second format.
fn fetch_part<H: Hand>(
    alloc: Global,
    at: PartAt,
    pin: &PageList,
    hand: &mut H,
) -> Result<Vec<u8>, SaveFault>
    ensures ok { IfOk result (λ bytes. (a : Assignment) → H.agrees hand.new a →
        IsFetched a at.entry.part.now pin.now bytes.items) }
    ensures files { (a : Assignment) → H.agrees hand.new a → H.agrees hand.old a }
    ensures serves { (s : Stamp) → H.serves hand.old s → H.serves hand.new s }
    ensures works { Always (H.works_for hand.old) → Always (H.works_for hand.new) }
    ensures in_order { Always (H.works_for hand.old) → AreServed (H.serves hand.old) pin.now →
        IfErr result (λ e. (n : ℕ) → e ≡ SaveFault.Device n → ⊥) }
    ensures counted { H.failed hand.old ≤ H.failed hand.new }
    ensures cause { IfErr result (λ e. PinSaveCause (H.agrees hand.new) at.entry.part.now pin.now at.entry.number
        (Failed (H.failed hand.old) (H.failed hand.new)) e) }
{
    match fetch_pages(alloc, hand, pin.stamps()) {
        Ok(bytes) => match decode(alloc, at.part.kind, &bytes) {
            Ok(_) => Ok(bytes),
            Err(DecodeFault::Damaged) => Err(SaveFault::Damaged(at.number)),
            Err(DecodeFault::Memory) => Err(SaveFault::Memory),
        },
        Err(fault) => Err(of_device(fault, at.number)),
    }
}

// Stores bytes under a part's name.
fn store_part<S: Shelf>(
    at: PartAt,
    bytes: &[u8],
    shelf: &mut S,
    key: &mut Vec<u8>,
) -> Result<(), SaveFault>
    ensures ok { OnOk result ((papers : Papers) → S.holds shelf.new papers →
        (before : Papers) × S.holds shelf.old before
        × (papers ≡ insert before (part_key at.entry.object.now at.entry.part.now.name) bytes.now)) }
    ensures left { OnErr result (StoreLeaves (S.holds shelf.old) (S.holds shelf.new)
        (part_key at.entry.object.now at.entry.part.now.name) bytes.now) }
    ensures counted { S.failed shelf.old ≤ S.failed shelf.new }
    ensures cause { IfErr result (λ e. StoreCause at.entry.number
        (Failed (S.failed shelf.old) (S.failed shelf.new)) e) }
{
    match write_key(key, at.object, &at.part.name) {
        Ok(()) => {}
        Err(_) => return Err(SaveFault::Memory),
    }
    match shelf.store(key, bytes) {
        Ok(()) => Ok(()),
        Err(fault) => Err(of_device(fault, at.number)),
    }
}

/// Saves one part of an object: the bytes under its pin, those of its pages one behind the other, are read from the
/// hand, and stored on the shelf under the part's name, which `key` gets.
///
/// The faults are those of `save_parts`. Where the part is damaged nothing is stored; where a device failed or memory
/// was refused, nothing of it or all.
pub fn save_part<S: Shelf, H: Hand>(
    alloc: Global,
    at: PartAt,
    pin: &PageList,
    shelf: &mut S,
    hand: &mut H,
    key: &mut Vec<u8>,
) -> Result<(), SaveFault>
    ensures ok { OnOk result ((bytes : List ℕ)
        × ((a : Assignment) → H.agrees hand.new a → IsFetched a at.entry.part.now pin.now bytes)
        × ((papers : Papers) → S.holds shelf.new papers →
        (before : Papers) × S.holds shelf.old before
        × (papers ≡ insert before (part_key at.entry.object.now at.entry.part.now.name) bytes))) }
    ensures left { IfErr result (λ e. PartLeaves (H.agrees hand.new) (S.holds shelf.old) (S.holds shelf.new)
        at.entry.object.now at.entry.part.now pin.now e) }
    ensures files { (a : Assignment) → H.agrees hand.new a → H.agrees hand.old a }
    ensures serves { (s : Stamp) → H.serves hand.old s → H.serves hand.new s }
    ensures works { Always (H.works_for hand.old) → Always (H.works_for hand.new) }
    ensures in_order { Always (H.works_for hand.old) → AreServed (H.serves hand.old) pin.now →
        IfErr result (λ e. (n : ℕ) → e ≡ SaveFault.Device n → Failed (S.failed shelf.old) (S.failed shelf.new)) }
    ensures counted_shelf { S.failed shelf.old ≤ S.failed shelf.new }
    ensures counted_hand { H.failed hand.old ≤ H.failed hand.new }
    ensures cause { IfErr result (λ e. PinSaveCause (H.agrees hand.new) at.entry.part.now pin.now at.entry.number
        (Failed (S.failed shelf.old) (S.failed shelf.new) ⊎ Failed (H.failed hand.old) (H.failed hand.new)) e) }
{
    let bytes = match fetch_part(alloc, at, pin, hand) {
        Ok(bytes) => bytes,
        Err(fault) => return Err(fault),
    };
    match store_part(at, &bytes, shelf, key) {
        Ok(()) => Ok(()),
        Err(fault) => Err(fault),
    }
}

/// Saves each part of an object, in order: the bytes under its pin, those of its pages one behind the other, are read
/// from the hand, and stored on the shelf under the part's name.
///
/// The first fault on the way is told: `Damaged` where the bytes under a part's pin spell no value of its
/// kind, `Device` where the shelf or the hand failed at a part, `Memory` where memory was refused. The parts
/// before it are saved then, and nothing after it. Of the part itself nothing is stored where it is damaged;
/// where a device failed or memory was refused, nothing of it or all. No file is retired: each page can be read
/// as before.
pub fn save_parts<S: Shelf, H: Hand>(
    alloc: Global,
    object: &Object,
    pins: &Pins,
    shelf: &mut S,
    hand: &mut H,
) -> Result<(), SaveFault>
    requires { length pins.now ≡ length object.now.parts.items }
    ensures ok { OnOk result ((all : List (List ℕ))
        × ((a : Assignment) → H.agrees hand.new a → AreFetched a object.now.parts.items pins.now all)
        × (length all ≡ length object.now.parts.items)
        × ((papers : Papers) → S.holds shelf.new papers →
        (before : Papers) × S.holds shelf.old before
        × (papers ≡ with_parts before object.now.name object.now.parts.items all))) }
    ensures left { IfErr result (λ e. SaveLeaves (H.agrees hand.new) (S.holds shelf.old) (S.holds shelf.new)
        object.now.name object.now.parts.items pins.now e) }
    ensures files { (a : Assignment) → H.agrees hand.new a → H.agrees hand.old a }
    ensures serves { (s : Stamp) → H.serves hand.old s → H.serves hand.new s }
    ensures works { Always (H.works_for hand.old) → Always (H.works_for hand.new) }
    // Over a hand that works and pins whose pages can be read only the shelf can fail.
    ensures in_order { Always (H.works_for hand.old) → ArePinsServed (H.serves hand.old) pins.now →
        IfErr result (λ e. (n : ℕ) → e ≡ SaveFault.Device n → Failed (S.failed shelf.old) (S.failed shelf.new)) }
    ensures counted_shelf { S.failed shelf.old ≤ S.failed shelf.new }
    ensures counted_hand { H.failed hand.old ≤ H.failed hand.new }
    ensures cause { IfErr result (λ e. SaveCause (H.agrees hand.new) object.now.parts.items pins.now
        (Failed (S.failed shelf.old) (S.failed shelf.new) ⊎ Failed (H.failed hand.old) (H.failed hand.new)) e) }
{
    let lists = pins.as_slice();
    let mut key = Vec::new(alloc);
    for number in 0..object.parts.len() {
        let part = &object.parts[number];
        let pin = &lists[number];
        let at = PartAt {
            object: &object.name,
            part,
            number,
        };
        match save_part(alloc, at, pin, shelf, hand, &mut key) {
            Ok(()) => {}
            Err(fault) => return Err(fault),
        }
    }
    Ok(())
}
