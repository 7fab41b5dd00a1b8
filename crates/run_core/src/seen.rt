//! What was read of the parts of a call.

ghost use Rattle.std.specs.Prelude.{◌≡◌, ◌+◌, ◌-◌, ◌<◌, ◌≤◌, ◌↔◌, ◌∷◌, ◌++◌, [], ℕ, length, replicate, Some, None};
ghost use Rattle.std.specs.Prelude.{OnOk, IfSome, IfNone, IsTrue, slice_get, slice_index};
ghost use Rattle.std.specs.Result.{IsErrOf};
ghost use Rattle.std.specs.Arc.{arc_value};
ghost use Rattle.value_core.specs.declared.kind.Elem.TheVariants as elems;
ghost use Rattle.value_core.specs.declared.kind.Kind.TheVariants as array_kinds;
ghost use Rattle.device_core.specs.Device.{Assignment};
ghost use Rattle.apply_core.specs.Fits.{IsNamed};
ghost use Rattle.known_core.specs.Masks.{unread};
ghost use Rattle.page_core.specs.Given.{IsDamaged};
ghost use Rattle.page_core.specs.CallPins.{Call};
ghost use Rattle.run_core.specs.Read.{PinIsRead};
ghost use Rattle.run_core.specs.Tasks.{task_call};
ghost use Rattle.page_core.specs.Truths.{PinHolds, PinsAreWhole};
ghost use Rattle.run_core.specs.Seen.{IsPaged, IsFront, IsPartRead, IsFramed, IsSeenBefore};

use crate::task::{Task, pages_of};
use apply_core::page::has_frame;
use decl_core::footprint::is_in;
use decl_core::id::MOST_PARTS;
use known_core::pages::Pages;
use page_core::cut::{are_full, total};
use page_core::file_bytes::FileBytes;
use std::alloc::{AllocError, Global};
use value_core::kind::{Elem, Kind};

// How many bytes a page of an array of integers has, but for the last.
const PAGE: usize = 1_024;

/// What a call has read of its parts.
#[derive(Drop)]
pub struct Seen {
    /// What was read of part p stands at place p, and nothing where a part is not read. In the place of a page that was
    /// not read stand zeros.
    pub read: Vec<FileBytes>,
    /// Which pages of each part are known.
    pub known: Pages,
    // so many pages may still be read
    ghost few: { unread known ≤ 128 },
}

/// Why what was read of a part is not taken.
#[derive(Clone, Copy, Debug, PartialEq, Eq)]
pub enum Miss {
    /// Its first page and its length are those of no array of its kind.
    Damaged,
    /// Memory was refused.
    Memory,
}

// How many elements an array of integers has.
fn many_in(kind: Kind) -> Option<u16>
    ensures some { IfSome result (λ count. kind ≡ array_kinds.Array count elems.Integer) }
    ensures none { IfNone result ((count : ℕ) → kind ≡ array_kinds.Array count elems.Integer → ⊥) }
{
    match kind {
        Kind::Array(count, Elem::Integer) => Some(count),
        _ => None,
    }
}

// How many elements a part has that is an array of integers.
fn many_at(kinds: &[Option<Kind>], part: usize) -> Option<u16>
    ensures some { IfSome result (λ count.
        slice_get kinds.now part ≡ Some (Some (array_kinds.Array count elems.Integer))) }
    ensures none { IfNone result ((count : ℕ) →
        slice_get kinds.now part ≡ Some (Some (array_kinds.Array count elems.Integer)) → ⊥) }
{
    match kinds.get(part) {
        Some(kind) => match kind {
            Some(kind) => many_in(*kind),
            None => None,
        },
        None => None,
    }
}

// How many elements a part has that is read page by page.
fn paged(task: &Task, part: usize) -> Option<u16>
    ensures some { IfSome result (λ count. IsPaged (task_call task.now) part
        × IsNamed (arc_value task.now.operation) part (array_kinds.Array count elems.Integer)) }
    ensures none { IfNone result (IsPaged (task_call task.now) part → ⊥) }
{
    if part >= MOST_PARTS || !is_in(part, task.reads) {
        return None;
    }
    match many_at(&task.operation.kinds, part) {
        None => None,
        Some(count) => {
            if are_full(PAGE, pages_of(&task.pins, part)) {
                return Some(count);
            }
            None
        }
    }
}

// How many elements a part has of which this is the first page that is read, and at first the only one.
fn front(task: &Task, part: usize, page: usize) -> Option<u16>
    ensures some { IfSome result (λ count. IsFront (task_call task.now) part page
        × IsNamed (arc_value task.now.operation) part (array_kinds.Array count elems.Integer)) }
    ensures none { IfNone result (IsFront (task_call task.now) part page → ⊥) }
{
    if page != 0 {
        return None;
    }
    match paged(task, part) {
        Some(count) => Some(count),
        None => None,
    }
}

/// Whether a part is read page by page: an array of integers that the call reads, and each page of its pin has 1,024
/// bytes but for the last. Parts count from 0.
pub fn is_paged(task: &Task, part: usize) -> bool
    ensures { IsTrue result ↔ IsPaged (task_call task.now) part }
{
    match paged(task, part) {
        Some(_) => true,
        None => false,
    }
}

// Puts bytes at this place, with empty ones before them where there are none.
fn put(
    alloc: Global,
    read: &mut Vec<FileBytes>,
    place: usize,
    bytes: Vec<u8>,
) -> Result<(), AllocError>
    ensures { OnOk result (read.new.items ≡ (read.old.items ++ replicate (place - length read.old.items) [])
        ++ bytes.items ∷ []) }
{
    while read.len() < place {
        match read.push(FileBytes::new(Vec::new(alloc))) {
            Ok(()) => {}
            Err(_) => return Err(AllocError),
        }
    }
    match read.push(FileBytes::new(bytes)) {
        Ok(()) => Ok(()),
        Err(_) => Err(AllocError),
    }
}

impl Seen {
    /// Nothing is read yet, and all pages count as known. It takes no memory.
    pub fn new(alloc: Global) -> Seen
        ensures read { result.read.items ≡ [] }
        ensures known { (p : ℕ) → p < 16 → slice_index result.known p ≡ 255 }
    {
        Seen {
            read: Vec::new(alloc),
            known: Pages::full(),
        }
    }

    /// Takes what was read of a part up to this page: its first page, where it is read page by page and this is the
    /// first, else all that is under its pin. The parts are taken in their order. An error leaves nothing that may be
    /// used: 1 `Damaged`, where a part is read page by page, and its first page and its length are those of
    /// no array of its kind;
    /// 2 `Memory`.
    pub fn take(
        &mut self,
        alloc: Global,
        task: &Task,
        part: usize,
        page: usize,
        got: Vec<u8>,
    ) -> Result<(), Miss>
        requires low { part < 16 }
        requires place { length self.old.read.items ≤ part }
        ensures found { OnOk result ((a : Assignment) → PinsAreWhole a (task_call task.now) →
            IsPartRead a (task_call task.now) part page got.items →
            IsSeenBefore a (task_call task.now) part self.old.known self.old.read.items →
            IsSeenBefore a (task_call task.now) (part + 1) self.new.known self.new.read.items) }
        ensures long { OnOk result (length self.new.read.items ≡ part + 1) }
        // Of a part that is read page by page, what is kept has the header and the length of an array of its kind.
        ensures framed { OnOk result (IsFront (task_call task.now) part page → (count : ℕ) →
            IsNamed (arc_value task.now.operation) part (array_kinds.Array count elems.Integer) →
            IsFramed count part self.new.read.items) }
        ensures front { IsErrOf result Miss.Damaged → IsFront (task_call task.now) part page }
        ensures damaged { IsErrOf result Miss.Damaged → (a : Assignment) → PinsAreWhole a (task_call task.now) →
            IsPartRead a (task_call task.now) part page got.items →
            IsDamaged (PinHolds a task.now.pins) (arc_value task.now.operation) }
    {
        match front(task, part, page) {
            Some(count) => self.take_front(alloc, task, part, count, got),
            None => self.take_whole(alloc, part, got),
        }
    }

    // Takes all that is under the pin of a part.
    fn take_whole(&mut self, alloc: Global, part: usize, got: Vec<u8>) -> Result<(), Miss>
        requires low { part < 16 }
        requires place { length self.old.read.items ≤ part }
        ensures found { OnOk result ((a : Assignment) (call : Call) → PinsAreWhole a call →
            PinIsRead a call.pins part got.items → IsSeenBefore a call part self.old.known self.old.read.items →
            IsSeenBefore a call (part + 1) self.new.known self.new.read.items) }
        ensures long { OnOk result (length self.new.read.items ≡ part + 1) }
        ensures memory { IsErrOf result Miss.Damaged → ⊥ }
    {
        match put(alloc, &mut self.read, part, got) {
            Ok(()) => Ok(()),
            Err(AllocError) => Err(Miss::Memory),
        }
    }

    // Takes the first page of a part that is read page by page, which has so many elements.
    fn take_front(
        &mut self,
        alloc: Global,
        task: &Task,
        part: usize,
        count: u16,
        got: Vec<u8>,
    ) -> Result<(), Miss>
        requires low { part < 16 }
        requires place { length self.old.read.items ≤ part }
        requires paged { IsPaged (task_call task.now) part }
        requires named { IsNamed (arc_value task.now.operation) part (array_kinds.Array count elems.Integer) }
        ensures found { OnOk result ((a : Assignment) → PinsAreWhole a (task_call task.now) →
            IsPartRead a (task_call task.now) part 0 got.items →
            IsSeenBefore a (task_call task.now) part self.old.known self.old.read.items →
            IsSeenBefore a (task_call task.now) (part + 1) self.new.known self.new.read.items) }
        ensures long { OnOk result (length self.new.read.items ≡ part + 1) }
        ensures framed { OnOk result (IsFramed count part self.new.read.items) }
        ensures damaged { IsErrOf result Miss.Damaged → (a : Assignment) → PinsAreWhole a (task_call task.now) →
            IsPartRead a (task_call task.now) part 0 got.items →
            IsDamaged (PinHolds a task.now.pins) (arc_value task.now.operation) }
    {
        let Some(len) = total(pages_of(&task.pins, part)) else {
            return Err(Miss::Memory);
        };
        let mut bytes = got;
        match bytes.resize(len, 0) {
            Ok(()) => {}
            Err(_) => return Err(Miss::Memory),
        }
        if !has_frame(count, &bytes) {
            return Err(Miss::Damaged);
        }
        match put(alloc, &mut self.read, part, bytes) {
            Ok(()) => {}
            Err(AllocError) => return Err(Miss::Memory),
        }
        self.known = self.known.front(part);
        Ok(())
    }
}
