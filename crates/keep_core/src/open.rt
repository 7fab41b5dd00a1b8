//! The office of an accepted object, whose parts are read from a folder.

ghost use Rattle.std.specs.Prelude.{◌≡◌, ◌⊎◌, ◌++◌, length, IfOk, IfErr, OnOk};
ghost use Rattle.device_core.specs.Device.{Assignment, Failed as DeviceFailed};
ghost use Rattle.device_core.specs.Papers.{Papers};
ghost use Rattle.page_core.specs.Opened.{AreLoaded, ArePinned};
ghost use Rattle.keep_core.specs.Lines.{part_text, damaged_line};
ghost use Rattle.keep_core.specs.Opening.{IsNotOpened, IsSealed, values_of};

use crate::close::Closing;
use crate::opening::ObjectOpening;
use decl_core::analyse::Accepted;
use decl_core::object::Object;
use device_core::hand::Hand;
use device_core::shelf::Shelf;
use office_core::inside::Inside;
use office_core::office::Office;
use page_core::open::{OpenFault, open_parts};
use page_core::pins::Pins;
use path_tree::name::Name;
use std::alloc::{AllocError, Global};
use value_core::LinesFault;
use value_core::value::Value;

/// An object that is open: its name, its office, and what its parts opened with.
#[derive(Drop)]
pub struct Opened {
    pub name: Name,
    pub office: Office,
    pub opening: ObjectOpening,
}

/// Why the parts of an object were not opened.
#[derive(Drop)]
pub enum NotOpened {
    /// What the folder has of a part is damaged, and the line that says so.
    Damaged(Vec<u8>),
    /// `ReadFault` where the folder failed; `Memory`.
    Fault(LinesFault),
}

impl From<AllocError> for NotOpened {
    ghost use Rattle.std.specs.Prelude.{◌≡◌};
    ghost use Rattle.value_core.specs.declared.machine.LinesFault.TheVariants.{Memory};
    ghost use Rattle.keep_core.specs.declared.open.NotOpened.TheVariants.{Fault};

    ghost from_gives = { λ _ e. e ≡ Fault Memory };

    fn from(_: AllocError) -> NotOpened {
        NotOpened::Fault(LinesFault::Memory)
    }
}

/// Adds `OBJECT.PART`, the part by its place.
pub fn push_part(out: &mut Vec<u8>, object: &Object, part: usize) -> Result<(), AllocError>
    ensures { OnOk result (out.new.items ≡ out.old.items ++ part_text object.now part) }
{
    out.extend_from_slice(object.name.as_bytes())?;
    out.extend_from_slice(b".")?;
    if let Some(part) = object.parts.get(part) {
        out.extend_from_slice(part.name.as_bytes())?;
    }
    Ok(())
}

/// Adds `part OBJECT.PART damaged`.
pub fn push_damaged(out: &mut Vec<u8>, object: &Object, part: usize) -> Result<(), AllocError>
    ensures { OnOk result (out.new.items ≡ out.old.items ++ damaged_line object.now part) }
{
    out.extend_from_slice(b"part ")?;
    push_part(out, object, part)?;
    out.extend_from_slice(b" damaged\n")
}

// Opens the parts of an object.
fn parts_of<S: Shelf, H: Hand>(
    alloc: Global,
    accepted: &Accepted,
    shelf: &mut S,
    hand: &mut H,
) -> Result<(Pins, Vec<Value>), NotOpened>
    ensures each { IfOk result (λ opened. length opened.0 ≡ length accepted.now.parts.items) }
    ensures loaded { IfOk result (λ opened. (papers : Papers) → S.holds shelf.new papers →
        AreLoaded papers accepted.now.name accepted.now.parts.items opened.1.items) }
    ensures pinned { IfOk result (λ opened. (a : Assignment) → H.agrees hand.new a →
        ArePinned a accepted.now.parts.items opened.0 opened.1.items) }
    ensures papers { (papers : Papers) → S.holds shelf.new papers → S.holds shelf.old papers }
    ensures files { (a : Assignment) → H.agrees hand.new a → H.agrees hand.old a }
    ensures not { IfErr result (IsNotOpened (S.holds shelf.new) (DeviceFailed (S.failed shelf.old) (S.failed shelf.new)
        ⊎ DeviceFailed (H.failed hand.old) (H.failed hand.new)) accepted.now) }
{
    match open_parts(alloc, accepted.object(), shelf, hand) {
        Ok(opened) => Ok(opened),
        Err(OpenFault::Damaged(part)) => {
            let mut line = Vec::new(alloc);
            push_damaged(&mut line, accepted.object(), part)?;
            Err(NotOpened::Damaged(line))
        }
        Err(OpenFault::Device) => Err(NotOpened::Fault(LinesFault::ReadFault)),
        Err(OpenFault::Memory) => Err(NotOpened::Fault(LinesFault::Memory)),
    }
}

/// Opens an object: its opening values are what the shelf has under the names of its parts, or those of their kinds
/// where nothing is there, and they are sealed as the pages of the pins with which its office begins. Where a fault ends
/// it, files that were sealed before it are left.
pub fn open_one<S: Shelf, H: Hand>(
    alloc: Global,
    accepted: Accepted,
    shelf: &mut S,
    hand: &mut H,
) -> Result<Opened, NotOpened>
    ensures name { IfOk result (λ opened. opened.name ≡ accepted.name) }
    ensures loaded { IfOk result (λ opened. (papers : Papers) → S.holds shelf.new papers →
        AreLoaded papers accepted.name accepted.parts.items (values_of opened.opening)) }
    ensures pinned { IfOk result (λ opened. IsSealed (H.agrees hand.new) accepted opened.opening) }
    ensures papers { (papers : Papers) → S.holds shelf.new papers → S.holds shelf.old papers }
    ensures files { (a : Assignment) → H.agrees hand.new a → H.agrees hand.old a }
    ensures not { IfErr result (IsNotOpened (S.holds shelf.new) (DeviceFailed (S.failed shelf.old) (S.failed shelf.new)
        ⊎ DeviceFailed (H.failed hand.old) (H.failed hand.new)) accepted) }
{
    let name = accepted.object().name.copy(alloc)?;
    let (pins, values) = parts_of(alloc, &accepted, shelf, hand)?;
    let opening = ObjectOpening { values, pins };
    let inside = Inside::open(alloc, accepted, pins)?;
    let office = Office::open(alloc, inside)?;
    Ok(Opened {
        name,
        office,
        opening,
    })
}

impl<S: Shelf + Drop, T: Shelf + Drop, H: Hand + Drop> Closing<S, T, H> {
    /// Opens an object from the shelf and with the hand that it will be closed with, as [`open_one`].
    pub fn open(&mut self, accepted: Accepted) -> Result<Opened, NotOpened>
        ensures name { IfOk result (λ opened. opened.name ≡ accepted.name) }
        ensures loaded { IfOk result (λ opened. (papers : Papers) → S.holds self.new.parts papers →
            AreLoaded papers accepted.name accepted.parts.items (values_of opened.opening)) }
        ensures pinned { IfOk result (λ opened. IsSealed (H.agrees self.new.hand) accepted opened.opening) }
        ensures papers { (papers : Papers) → S.holds self.new.parts papers → S.holds self.old.parts papers }
        ensures files { (a : Assignment) → H.agrees self.new.hand a → H.agrees self.old.hand a }
        ensures traces { self.new.traces ≡ self.old.traces }
        ensures trouble { self.new.trouble ≡ self.old.trouble }
        ensures not { IfErr result (IsNotOpened (S.holds self.new.parts)
            (DeviceFailed (S.failed self.old.parts) (S.failed self.new.parts)
            ⊎ DeviceFailed (H.failed self.old.hand) (H.failed self.new.hand)) accepted) }
    {
        open_one(self.alloc, accepted, &mut self.parts, &mut self.hand)
    }
}
