//! What a call writes of what its body changed.

ghost use Rattle.std.specs.Prelude.{◌≡◌, ◌≢◌, ℕ, ◌+◌, ◌<◌, ◌≤◌, ◌++◌, ◌∷◌, [], IfOk, IfSome, OnOk, Option, Some, None};
ghost use Rattle.std.specs.Prelude.{length, vec_capacity, slice_get, slice_set};
ghost use Rattle.std.specs.Result.{IsOk};
ghost use Rattle.std.specs.Arc.{arc_value};
ghost use Rattle.decl_core.specs.Bodies.{body_of};
ghost use Rattle.decl_core.specs.Touched.{Reads};
ghost use Rattle.run_core.specs.Written.{WritesInOrder, parts_changed};
ghost use Rattle.page_core.specs.declared.plan.PageWrite.{PageWrite as AWrite};
ghost use Rattle.page_core.specs.Cut.{IsPageSize, together};
ghost use Rattle.page_core.specs.PartPins.{pin_at};
ghost use Rattle.run_core.specs.CallPlanned.{IsPlanned, IsPlannedIn, ArePlansIn, AreShort};
ghost use Rattle.run_core.specs.Changed.{AreWithin, AreKnown};

use crate::judge::Change;
use crate::task::{Task, pages_of};
use decl_core::id::MOST_PARTS;
use device_core::hand::Stamp;
use page_core::cut::page_size;
use page_core::file_bytes::FileBytes;
use page_core::part_pins::PartPins;
use page_core::plan::{PageWrite, Planned, plan_part};
use std::alloc::{AllocError, Global};

/// What a call writes of what its body changed, and the new page lists.
#[derive(Drop)]
pub struct PagePlan {
    /// How many pages the new list of each part has, from 0 to 8: none where the part was not changed.
    pub counts: [u8; MOST_PARTS],
    /// The stamps of the new lists, one behind the other. Any stamp stands where a page is still to be written.
    pub stamps: Vec<Stamp>,
    /// The pages that are written, in order, each with its place among the stamps.
    pub writes: Vec<PageWrite>,
    /// The files of the old lists that are not in the new ones, in order.
    pub gone: Vec<Stamp>,
    /// The files that were sealed for the first of these pages, in order. There is room for one of each page.
    pub sealed: Vec<Stamp>,
    /// Memory for the stamps of the new lists once more, empty.
    pub entry: Vec<Stamp>,
    // the counts count the stamps
    ghost counted: { together counts ≡ length stamps.items },
    // each part has at most 8 pages
    ghost short: { AreShort counts },
    // each write has a place among the stamps
    ghost placed: { (k : ℕ) (write : AWrite) → slice_get writes.items k ≡ Some write →
        write.place < length stamps.items },
    // no more are sealed than are written
    ghost few: { length sealed.items ≤ length writes.items },
    // there is room for the file of each page
    ghost room: { length writes.items ≤ vec_capacity sealed },
    // there is room for each stamp once more
    ghost twice: { (entry.items ≡ []) × (length stamps.items ≤ vec_capacity entry) },
}

// What there is of the parts before a call changes them: their pins, and the bytes that were read of each.
#[derive(Clone, Copy)]
struct Before<'a> {
    pins: &'a PartPins,
    read: &'a [FileBytes],
}

// The size of the pages into which some bytes are cut.
fn cut_size(bytes: &[u8]) -> Option<usize>
    ensures { IfSome result (λ size. IsPageSize (length bytes.now) size × (0 < length bytes.now)) }
{
    if bytes.is_empty() {
        return None;
    }
    match page_size(bytes.len()) {
        Some(size) => Some(size),
        None => None,
    }
}

// Adds the plan for a changed part, and tells how many pages it has.
fn plan_change(
    alloc: Global,
    before: Before,
    change: &Change,
    planned: &mut Planned,
) -> Result<u8, AllocError>
    requires pinned { pin_at before.pins.now change.now.part ≢ None }
    requires read { change.now.part < length before.read.now }
    ensures { IfOk result (λ count. IsPlannedIn before.entry.pins.now before.entry.read.now change.now count
        planned.old planned.new) }
{
    let after = change.bytes.as_slice();
    let Some(size) = cut_size(after) else {
        return Err(AllocError);
    };
    let old = pages_of(before.pins, change.part);
    let read = before.read;
    let was = read[change.part].as_slice();
    let start = planned.stamps.len();
    match plan_part(alloc, size, old, was, after, planned) {
        Ok(()) => {}
        Err(AllocError) => return Err(AllocError),
    }
    Ok((planned.stamps.len() - start) as u8)
}

// Adds the plans for changed parts from this part on, and writes the counts of their pages.
fn plan_from(
    alloc: Global,
    before: Before,
    part: usize,
    changes: &[Change],
    counts: &mut [u8],
    planned: &mut Planned,
) -> Result<(), AllocError>
    requires within { AreWithin part (part + length counts.old) changes.now }
    requires known { AreKnown before.pins.now (length before.read.now) changes.now }
    requires none { together counts.old ≡ 0 }
    requires few { part + length counts.old ≤ 16 }
    ensures planned { OnOk result (ArePlansIn before.entry.pins.now before.entry.read.now part changes.now counts.new
        planned.old planned.new) }
    ensures many { length counts.new ≡ length counts.old }
{
    let Some((count, others)) = counts.split_first_mut() else {
        return Ok(());
    };
    let Some((change, rest)) = changes.split_first() else {
        return Ok(());
    };
    if change.part != part {
        return plan_from(alloc, before, part + 1, changes, others, planned);
    }
    match plan_change(alloc, before, change, planned) {
        Ok(pages) => *count = pages,
        Err(AllocError) => return Err(AllocError),
    }
    plan_from(alloc, before, part + 1, rest, others, planned)
}

// The plan of no change. It takes no memory.
fn no_plan(alloc: Global, pins: &PartPins, read: &[FileBytes]) -> PagePlan
    ensures planned { IsPlanned pins.now read.now [] result.counts result.stamps.items result.writes.items
        result.gone.items }
    ensures fresh { result.sealed.items ≡ [] }
{
    PagePlan {
        counts: [0; MOST_PARTS],
        stamps: Vec::new(alloc),
        writes: Vec::new(alloc),
        gone: Vec::new(alloc),
        sealed: Vec::new(alloc),
        entry: Vec::new(alloc),
    }
}

/// What a call writes of these changes, where the bytes read of part p stand at place p. No device is asked. The
/// error is that memory was refused; where nothing was changed none is taken.
pub fn plan_pages(
    alloc: Global,
    task: &Task,
    read: &[FileBytes],
    changes: &[Change],
) -> Result<PagePlan, AllocError>
    requires rising { WritesInOrder (body_of (arc_value task.now.operation)).statements 0 (parts_changed changes.now) }
    requires read { (p : ℕ) → Reads (body_of (arc_value task.now.operation)).statements p → p < length read.now }
    ensures planned { IfOk result (λ plan.
        IsPlanned task.now.pins read.now changes.now plan.counts plan.stamps.items plan.writes.items plan.gone.items) }
    ensures fresh { IfOk result (λ plan. plan.sealed.items ≡ []) }
    ensures none { changes.now ≡ [] → IsOk result }
{
    if changes.is_empty() {
        return Ok(no_plan(alloc, &task.pins, read));
    }
    let mut counts = [0; MOST_PARTS];
    let mut planned = Planned {
        stamps: Vec::new(alloc),
        writes: Vec::new(alloc),
        gone: Vec::new(alloc),
    };
    let before = Before {
        pins: &task.pins,
        read,
    };
    match plan_from(alloc, before, 0, changes, &mut counts, &mut planned) {
        Ok(()) => {}
        Err(AllocError) => return Err(AllocError),
    }
    let Planned {
        stamps,
        writes,
        gone,
    } = planned;
    let sealed = match Vec::with_capacity(alloc, writes.len()) {
        Ok(sealed) => sealed,
        Err(_) => return Err(AllocError),
    };
    let entry = match Vec::with_capacity(alloc, stamps.len()) {
        Ok(entry) => entry,
        Err(_) => return Err(AllocError),
    };
    Ok(PagePlan {
        counts,
        stamps,
        writes,
        gone,
        sealed,
        entry,
    })
}

impl PagePlan {
    /// The page that is written next.
    pub fn next(&self) -> &PageWrite
        requires { length self.now.sealed.items < length self.now.writes.items }
        ensures { slice_get self.now.writes.items (length self.now.sealed.items) ≡ Some result.now }
    {
        &self.writes[self.sealed.len()]
    }

    /// The plan once the page that is written next is sealed in this file: the file stands at that page's place, and is
    /// the last of those that were sealed. It takes no memory.
    pub fn with(self, stamp: Stamp) -> PagePlan
        requires { length self.sealed.items < length self.writes.items }
        ensures counts { result.counts ≡ self.counts }
        ensures stamps { (write : AWrite) → slice_get self.writes.items (length self.sealed.items) ≡ Some write →
            result.stamps.items ≡ slice_set self.stamps.items write.place stamp }
        ensures writes { result.writes.items ≡ self.writes.items }
        ensures gone { result.gone.items ≡ self.gone.items }
        ensures sealed { result.sealed.items ≡ self.sealed.items ++ stamp ∷ [] }
    {
        let place = self.next().place;
        let PagePlan {
            counts,
            stamps,
            writes,
            gone,
            sealed,
            entry,
        } = self;
        let mut stamps = stamps;
        put_at(&mut stamps, place, stamp);
        PagePlan {
            counts,
            stamps,
            writes,
            gone,
            sealed: with_one(sealed, stamp),
            entry,
        }
    }
}

// Puts a stamp in its place.
fn put_at(stamps: &mut Vec<Stamp>, place: usize, stamp: Stamp)
    requires { place < length stamps.old.items }
    ensures { stamps.new.items ≡ slice_set stamps.old.items place stamp }
{
    stamps[place] = stamp;
}

// These stamps, and one more behind them, for which there is room.
fn with_one(sealed: Vec<Stamp>, stamp: Stamp) -> Vec<Stamp>
    requires { length sealed.items < vec_capacity sealed }
    ensures items { result.items ≡ sealed.items ++ stamp ∷ [] }
    ensures room { vec_capacity result ≡ vec_capacity sealed }
{
    let mut sealed = sealed;
    sealed.push_reserved(stamp);
    sealed
}
