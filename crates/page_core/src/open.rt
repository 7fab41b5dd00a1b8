//! The parts of an object, from a shelf to a hand.

ghost use Rattle.std.specs.Prelude.{◌≡◌, ◌≤◌, ◌⊎◌, [], ◌∷◌, ◌++◌, length, map, IfOk, OnOk, IfErr};
ghost use Rattle.std.specs.FinMap.{get};
ghost use Rattle.value_core.specs.Contents.{kind_of};
ghost use Rattle.value_core.specs.Kinds.{IsKind};
ghost use Rattle.device_core.specs.declared.hand.Stamp.{Stamp};
ghost use Rattle.device_core.specs.Device.{Assignment, Failed, Always, AreServed};
ghost use Rattle.device_core.specs.Papers.{Papers, part_key};
ghost use Rattle.page_core.specs.Opened.{open_fault_of, BeginsWith, IsPinned};
ghost use Rattle.page_core.specs.Opened.{AreLoaded, ArePinned, OpenCause, PartCause, PinCause};
ghost use Rattle.page_core.specs.Pages.{ArePinsServed};

use crate::page_list::PageList;
use crate::pages::put_cut;
use crate::part_at::PartAt;
use crate::pins::Pins;
use decl_core::object::Object;
use device_core::hand::{Hand, HandFault};
use device_core::shelf::Shelf;
use path_tree::name::Name;
use std::alloc::{AllocError, Global};
use thiserror::Error;
use value_bytes::decode::{DecodeFault, decode_kept};
use value_bytes::encode::encode;
use value_core::kind::Kind;
use value_core::value::Value;

/// Why the parts of an object were not opened.
#[derive(Clone, Copy, Debug, PartialEq, Eq, Error)]
pub enum OpenFault {
    /// What the shelf has under the name of this part, counted from 0, spells no value of the part's kind in either
    /// format.
    #[error("Damaged {0}")]
    Damaged(usize),
    /// The shelf or the hand failed. Its count of failures rose in this call, or stood at its end.
    #[error("Device")]
    Device,
    /// Memory was refused.
    #[error("Memory")]
    Memory,
}

impl From<AllocError> for OpenFault {
    ghost use Rattle.std.specs.Prelude.{◌≡◌};
    ghost use Rattle.page_core.specs.declared.open.OpenFault.TheVariants.{Memory};

    ghost from_gives = { λ _ e. e ≡ Memory };

    fn from(_: AllocError) -> OpenFault {
        OpenFault::Memory
    }
}

// A device's fault, as one of opening.
fn of_device(fault: HandFault) -> OpenFault
    ensures { result ≡ open_fault_of fault }
{
    match fault {
        HandFault::Device => OpenFault::Device,
        HandFault::Memory => OpenFault::Memory,
    }
}

/// Writes the name of a part on a shelf, `OBJECT.PART`, in place of what was in the buffer.
pub(crate) fn write_key(key: &mut Vec<u8>, object: &Name, part: &Name) -> Result<(), AllocError>
    ensures { OnOk result (key.new.items ≡ part_key object.now part.now) }
{
    key.clear();
    key.extend_from_slice(object.as_bytes())?;
    key.extend_from_slice(b".")?;
    key.extend_from_slice(part.as_bytes())
}

// The value with which a part of this kind begins.
fn load_value<S: Shelf>(
    alloc: Global,
    shelf: &mut S,
    key: &[u8],
    kind: Kind,
    number: usize,
) -> Result<Value, OpenFault>
    requires { IsKind kind }
    ensures ok { IfOk result (λ value. (papers : Papers) → S.holds shelf.new papers →
        BeginsWith kind (get papers key.now) value) }
    ensures kind { IfOk result (λ value. kind_of value ≡ kind) }
    ensures kept { (papers : Papers) → S.holds shelf.new papers → S.holds shelf.old papers }
    ensures counted { S.failed shelf.old ≤ S.failed shelf.new }
    ensures cause { IfErr result (λ e. PartCause (S.holds shelf.new) key.now kind number
        (Failed (S.failed shelf.old) (S.failed shelf.new)) e) }
{
    match shelf.load(alloc, key) {
        Ok(Some(bytes)) => match decode_kept(alloc, kind, &bytes) {
            Ok(value) => Ok(value),
            Err(DecodeFault::Damaged) => Err(OpenFault::Damaged(number)),
            Err(DecodeFault::Memory) => Err(OpenFault::Memory),
        },
        Ok(None) => {
            let value = Value::opening(alloc, kind)?;
            Ok(value)
        }
        Err(fault) => Err(of_device(fault)),
    }
}

// Seals the pages of the spelling of a value, each in a new file.
fn pin_value<H: Hand>(alloc: Global, hand: &mut H, value: &Value) -> Result<PageList, OpenFault>
    ensures ok { IfOk result (λ pin. (a : Assignment) → H.agrees hand.new a →
        IsPinned a (kind_of value.now) pin value.now) }
    ensures kept { (a : Assignment) → H.agrees hand.new a → H.agrees hand.old a }
    ensures served { IfOk result (λ pin. AreServed (H.serves hand.new) pin) }
    ensures serves { (s : Stamp) → H.serves hand.old s → H.serves hand.new s }
    ensures works { Always (H.works_for hand.old) → Always (H.works_for hand.new) }
    ensures in_order { Always (H.works_for hand.old) → IfErr result (λ e. e ≡ OpenFault.Device → ⊥) }
    ensures counted { H.failed hand.old ≤ H.failed hand.new }
    ensures cause { IfErr result (λ e. PinCause (Failed (H.failed hand.old) (H.failed hand.new)) e) }
{
    let bytes = encode(alloc, value)?;
    match put_cut(alloc, hand, &bytes) {
        Ok(pin) => Ok(pin),
        Err(fault) => Err(of_device(fault)),
    }
}

// Opens one part.
fn open_part<S: Shelf, H: Hand>(
    alloc: Global,
    at: PartAt,
    shelf: &mut S,
    hand: &mut H,
    key: &mut Vec<u8>,
) -> Result<(PageList, Value), OpenFault>
    ensures loaded { IfOk result (λ opened. (papers : Papers) → S.holds shelf.new papers →
        BeginsWith at.entry.part.now.kind (get papers (part_key at.entry.object.now at.entry.part.now.name)) opened.1) }
    ensures pinned { IfOk result (λ opened. (a : Assignment) → H.agrees hand.new a →
        IsPinned a at.entry.part.now.kind opened.0 opened.1) }
    ensures served { IfOk result (λ opened. AreServed (H.serves hand.new) opened.0) }
    ensures kind { IfOk result (λ opened. kind_of opened.1 ≡ at.entry.part.now.kind) }
    ensures papers { (papers : Papers) → S.holds shelf.new papers → S.holds shelf.old papers }
    ensures files { (a : Assignment) → H.agrees hand.new a → H.agrees hand.old a }
    ensures serves { (s : Stamp) → H.serves hand.old s → H.serves hand.new s }
    ensures works { Always (H.works_for hand.old) → Always (H.works_for hand.new) }
    ensures in_order { Always (H.works_for hand.old) →
        IfErr result (λ e. e ≡ OpenFault.Device → Failed (S.failed shelf.old) (S.failed shelf.new)) }
    ensures counted_shelf { S.failed shelf.old ≤ S.failed shelf.new }
    ensures counted_hand { H.failed hand.old ≤ H.failed hand.new }
    ensures cause { IfErr result (λ e. PartCause (S.holds shelf.new)
        (part_key at.entry.object.now at.entry.part.now.name) at.entry.part.now.kind at.entry.number
        (Failed (S.failed shelf.old) (S.failed shelf.new) ⊎ Failed (H.failed hand.old) (H.failed hand.new)) e) }
{
    write_key(key, at.object, &at.part.name)?;
    let value = load_value(alloc, shelf, key, at.part.kind, at.number)?;
    let pin = pin_value(alloc, hand, &value)?;
    Ok((pin, value))
}

// Adds the pin and the value of one part.
fn add(
    lists: &mut Vec<PageList>,
    values: &mut Vec<Value>,
    opened: (PageList, Value),
) -> Result<(), AllocError>
    ensures lists { OnOk result (lists.new.items ≡ lists.old.items ++ opened.0 ∷ []) }
    ensures values { OnOk result (values.new.items ≡ values.old.items ++ opened.1 ∷ []) }
{
    let (pin, value) = opened;
    lists.push(pin)?;
    values.push(value)?;
    Ok(())
}

/// Opens each part of an object, in order: its value is what the shelf has under its name, in either format, or the
/// opening value of its kind where nothing is there, and the value's spelling in the second format is cut into at most
/// 8 pages, of the least size that holds it so, each sealed in a new file of the hand. Answers a pin, the list of these
/// files, and a value for each part.
///
/// The first fault on the way is told: `Damaged` where the bytes of a part spell no value of its kind in either format,
/// `Device` where the shelf or the hand failed, `Memory` where memory was refused. Files that were sealed
/// before it are left.
pub fn open_parts<S: Shelf, H: Hand>(
    alloc: Global,
    object: &Object,
    shelf: &mut S,
    hand: &mut H,
) -> Result<(Pins, Vec<Value>), OpenFault>
    ensures loaded { IfOk result (λ opened. (papers : Papers) → S.holds shelf.new papers →
        AreLoaded papers object.now.name object.now.parts.items opened.1.items) }
    ensures pinned { IfOk result (λ opened. (a : Assignment) → H.agrees hand.new a →
        ArePinned a object.now.parts.items opened.0 opened.1.items) }
    // Each page of each pin can be read.
    ensures served { IfOk result (λ opened. ArePinsServed (H.serves hand.new) opened.0) }
    ensures many { IfOk result (λ opened. length opened.0 ≡ length object.now.parts.items) }
    ensures kinds { IfOk result (λ opened.
        map kind_of opened.1.items ≡ map (λ part. part.kind) object.now.parts.items) }
    ensures papers { (papers : Papers) → S.holds shelf.new papers → S.holds shelf.old papers }
    ensures files { (a : Assignment) → H.agrees hand.new a → H.agrees hand.old a }
    ensures serves { (s : Stamp) → H.serves hand.old s → H.serves hand.new s }
    ensures works { Always (H.works_for hand.old) → Always (H.works_for hand.new) }
    // Over a hand that works only the shelf can fail.
    ensures in_order { Always (H.works_for hand.old) →
        IfErr result (λ e. e ≡ OpenFault.Device → Failed (S.failed shelf.old) (S.failed shelf.new)) }
    ensures counted_shelf { S.failed shelf.old ≤ S.failed shelf.new }
    ensures counted_hand { H.failed hand.old ≤ H.failed hand.new }
    ensures cause { IfErr result (λ e. OpenCause (S.holds shelf.new) object.now.name object.now.parts.items
        (Failed (S.failed shelf.old) (S.failed shelf.new) ⊎ Failed (H.failed hand.old) (H.failed hand.new)) e) }
{
    let count = object.parts.len();
    let mut key = Vec::new(alloc);
    let mut lists = Vec::with_capacity(alloc, count)?;
    let mut values = Vec::with_capacity(alloc, count)?;
    for number in 0..count {
        let part = &object.parts[number];
        let at = PartAt {
            object: &object.name,
            part,
            number,
        };
        let opened = match open_part(alloc, at, shelf, hand, &mut key) {
            Ok(opened) => opened,
            Err(fault) => return Err(fault),
        };
        add(&mut lists, &mut values, opened)?;
    }
    Ok((Pins::new(&lists), values))
}
