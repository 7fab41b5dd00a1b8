//! The pins of some parts of an object.

ghost use Rattle.std.specs.Prelude.{◌≡◌, ◌↔◌, ◌+◌, ◌-◌, ◌*◌, ◌<◌, ◌≤◌, ◌++◌, [], IsTrue, IfSome, IfNone, Option, Some};
ghost use Rattle.std.specs.Prelude.{None, length, take, vec_capacity, List, ◌==◌, if◌then◌else◌};
ghost use Rattle.page_core.specs.Cut.{together};
ghost use Rattle.page_core.specs.PartPins.{pins_by, pin_at, pins_in, room_in, count_pages, added_if};
ghost use Rattle.std.specs.Int.{bit_at};
ghost use Rattle.device_core.specs.declared.hand.Stamp.{Stamp as AStamp};

use crate::page_list::PageList;
use crate::pins::Pins;
use decl_core::footprint::is_in;
use decl_core::id::MOST_PARTS;
use device_core::hand::Stamp;
use std::marker::Model;

/// The pins of some parts of an object, in the order of the parts: each is a page list. They stand one behind
/// the other, in memory that is taken ahead.
#[derive(Drop)]
pub struct PartPins {
    counts: [u8; MOST_PARTS],
    stamps: Vec<Stamp>,
}

impl Model for PartPins {
    ghost use Rattle.std.specs.Prelude.{List};
    ghost use Rattle.std.specs.Coded.{codes};
    ghost use Rattle.device_core.specs.contracts.hand.Stamp as e;
    ghost use Rattle.page_core.specs.PartPins.{PartPin};

    ghost Value = { List PartPin };

    ghost coded = { Prim.hlevel (codes, e.the_row.coded) };

    ghost use Rattle.page_core.specs.PartPins.{part_pins_of, IsKept};

    ghost view = { part_pins_of };

    ghost invariant = { IsKept };
}

// The pages of the part that stands so far behind the first of these.
fn pages_from<'a>(
    counts: &[u8],
    stamps: &'a [Stamp],
    behind: usize,
    part: usize,
) -> Option<&'a [Stamp]>
    requires counted { together counts.now ≤ length stamps.now }
    requires few { behind + length counts.now ≤ 16 }
    ensures some { IfSome result (λ pages. pin_at (pins_by behind counts.now stamps.now) part ≡ Some pages.now) }
    ensures none { IfNone result (pin_at (pins_by behind counts.now stamps.now) part ≡ None) }
{
    let (count, others) = counts.split_first()?;
    let (pages, rest) = stamps.split_at(*count as usize);
    if behind == part && *count > 0 {
        return Some(pages);
    }
    pages_from(others, rest, behind + 1, part)
}

// Adds stamps, for which there is room.
fn add_all(out: &mut Vec<Stamp>, pages: &[Stamp])
    requires { length out.old.items + length pages.now ≤ vec_capacity out.old }
    ensures items { out.new.items ≡ out.old.items ++ pages.now }
    ensures room { vec_capacity out.new ≡ vec_capacity out.old }
{
    match pages.split_first() {
        None => {}
        Some((page, rest)) => {
            out.push_reserved(*page);
            add_all(out, rest);
        }
    }
}

// Whether a set has this part.
fn is_read(parts: u16, part: usize) -> bool
    requires { part < 16 }
    ensures { result ≡ (bit_at parts part == 1) }
{
    is_in(part, parts)
}

// Adds the pages of a list, if so, where there is room, and tells how many they are.
fn add_if(read: bool, out: &mut Vec<Stamp>, list: &PageList) -> u8
    requires { length out.old.items + (if read then 8 else 0) ≤ vec_capacity out.old }
    ensures items { out.new.items ≡ out.old.items ++ added_if read list.now }
    ensures room { vec_capacity out.new ≡ vec_capacity out.old }
    ensures count { result ≡ length (added_if read list.now) }
    ensures few { length (added_if read list.now) ≤ (if read then 8 else 0) }
    ensures some { 0 < length list.now }
{
    let pages = list.stamps();
    if !read {
        return 0;
    }
    add_all(out, pages);
    pages.len() as u8
}

// Adds the pins of the parts in a set, of page lists of which the first is of this part; the counts are those from this
// part on.
fn fill(counts: &mut [u8], out: &mut Vec<Stamp>, parts: u16, part: usize, lists: &[PageList])
    requires none { together counts.old ≡ 0 }
    requires each { length lists.now ≤ length counts.old }
    requires few { part + length lists.now ≤ 16 }
    requires room { length out.old.items + room_in parts part (length lists.now) ≤ vec_capacity out.old }
    ensures filled { (more : List AStamp) × (out.new.items ≡ out.old.items ++ more)
        × (pins_by part counts.new more ≡ pins_in parts part lists.now) × (together counts.new ≡ length more) }
    ensures many { length counts.new ≡ length counts.old }
{
    let Some((list, rest)) = lists.split_first() else {
        return;
    };
    let Some((count, others)) = counts.split_first_mut() else {
        return;
    };
    *count = add_if(is_read(parts, part), out, list);
    fill(others, out, parts, part + 1, rest);
}

impl PartPins {
    /// The pins of these counts, one behind the other.
    pub fn from_counts(counts: [u8; MOST_PARTS], stamps: Vec<Stamp>) -> PartPins
        requires { together counts ≡ length stamps.items }
        ensures { result ≡ pins_by 0 counts stamps.items }
    {
        PartPins { counts, stamps }
    }

    /// The pins of the parts in a set, in a row that has room for them. It takes no memory.
    pub fn filled(room: Vec<Stamp>, parts: u16, pins: &Pins) -> PartPins
        requires empty { room.items ≡ [] }
        requires room { room_in parts 0 (length pins.now) ≤ vec_capacity room }
        ensures { result ≡ pins_in parts 0 pins.now }
    {
        let mut counts = [0; MOST_PARTS];
        let mut stamps = room;
        fill(&mut counts, &mut stamps, parts, 0, pins.as_slice());
        PartPins { counts, stamps }
    }

    /// How many pages they have.
    pub fn len(&self) -> usize
        ensures { result ≡ count_pages self.now }
    {
        let stamps: &[Stamp] = &self.stamps;
        stamps.len()
    }

    /// A copy of these pins in another row, which has room for them. It takes no memory.
    pub fn copy_into(&self, room: Vec<Stamp>) -> PartPins
        requires empty { room.items ≡ [] }
        requires room { count_pages self.now ≤ vec_capacity room }
        ensures { result ≡ self.now }
    {
        let mut stamps = room;
        add_all(&mut stamps, &self.stamps);
        PartPins {
            counts: self.counts,
            stamps,
        }
    }

    /// The pages of a part, or `None` where it has no pin here.
    pub fn pages(&self, part: usize) -> Option<&[Stamp]>
        ensures some { IfSome result (λ pages. pin_at self.now part ≡ Some pages.now) }
        ensures none { IfNone result (pin_at self.now part ≡ None) }
    {
        pages_from(&self.counts, &self.stamps, 0, part)
    }

    /// These pins in this row, where it has room for them, and else where they are. It takes no memory.
    pub fn within(self, room: Vec<Stamp>) -> PartPins
        requires { room.items ≡ [] }
        ensures { result ≡ self }
    {
        if self.len() <= room.capacity() {
            self.copy_into(room)
        } else {
            self
        }
    }

    /// Whether there are no pins. It takes no memory.
    pub fn is_empty(&self) -> bool
        ensures { IsTrue result ↔ (self.now ≡ []) }
    {
        let none = Vec::new(*self.stamps.allocator());
        self.is_same(&PartPins::from_counts([0; MOST_PARTS], none))
    }

    /// Whether both are the same pins. It takes no memory.
    pub fn is_same(&self, other: &PartPins) -> bool
        ensures { IsTrue result ↔ (self.now ≡ other.now) }
    {
        are_same(&self.counts, &other.counts, &self.stamps, &other.stamps)
    }
}

// Whether both are the same counts and the same stamps.
fn are_same(counts: &[u8], others: &[u8], stamps: &[Stamp], other_stamps: &[Stamp]) -> bool
    ensures { IsTrue result ↔ ((counts.now ≡ others.now) × (stamps.now ≡ other_stamps.now)) }
{
    same_counts(counts, others) && same_stamps(stamps, other_stamps)
}

// Whether both are the same counts.
fn same_counts(first: &[u8], second: &[u8]) -> bool
    ensures { IsTrue result ↔ (first.now ≡ second.now) }
{
    first == second
}

// Whether both are the same stamp.
fn same_stamp(first: &Stamp, second: &Stamp) -> bool
    ensures { IsTrue result ↔ (first.now ≡ second.now) }
{
    *first == *second
}

// Whether both are the same stamps.
fn same_stamps(first: &[Stamp], second: &[Stamp]) -> bool
    ensures { IsTrue result ↔ (first.now ≡ second.now) }
{
    match (first, second) {
        ([], []) => true,
        ([x, xs @ ..], [y, ys @ ..]) => same_stamp(x, y) && same_stamps(xs, ys),
        _ => false,
    }
}
