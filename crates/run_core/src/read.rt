//! The steps of a run that reads its parts.

ghost use Rattle.std.specs.Prelude.{◌≡◌, ◌≢◌, ◌+◌, ◌*◌, ◌-◌, ◌^◌, ◌<◌, ◌≤◌, ◌⊎◌, [], ℕ, List, length, Some, None};
ghost use Rattle.std.specs.Prelude.{IfSome, IsTrue, IsFalse, slice_get};
ghost use Rattle.std.specs.Arc.{arc_value};
ghost use Rattle.decl_core.specs.Bodies.{body_of};
ghost use Rattle.decl_core.specs.Touched.{Writes};
ghost use Rattle.device_core.specs.declared.hand.Stamp.{Stamp as AStamp};
ghost use Rattle.device_core.specs.Device.{Assignment, Failed as DeviceFailed};
ghost use Rattle.apply_core.specs.declared.reply.Failure.TheVariants as failures;
ghost use Rattle.apply_core.specs.declared.reply.Reply.TheVariants as replies;
ghost use Rattle.page_core.specs.PartPins.{pin_at};
ghost use Rattle.run_core.specs.Verdicts.{HasReads};
ghost use Rattle.run_core.specs.Tasks.{task_call};
ghost use Rattle.page_core.specs.Truths.{PinsAreWhole};
ghost use Rattle.run_core.specs.Seen.{IsFront, IsPartRead, IsSeenBefore};
ghost use Rattle.run_core.specs.Calling.{MakesRead};
ghost use Rattle.run_core.specs.Phases.{ending_of, sealed_in, news_in, HasNoPen, HasItsReads, IsReadSoFar};
ghost use Rattle.run_core.specs.Phases.{IsPagedSoFar, FoundBy, work_in};
ghost use Rattle.run_core.specs.Steps.{Follows, FailsWith, AreServed, IsLastAtFirst, ReadIsServed, place_in, at_read};

use crate::conclude::conclude;
use crate::ending::{ended, failed};
use crate::more::read_more;
use crate::phase::{More, Phase, ReadingRun};
use crate::seen::{Miss, Seen, is_paged};
use crate::seen_laws::{all_is_seen, next_is_seen};
use crate::task::Task;
use apply_core::reply::{Failure, Reply};
use device_core::hand::{Hand, HandFault, Stamp};
use page_core::read::read_page;
use std::alloc::Global;

// A page of the pin of a part, and how many pages that has.
pub(crate) fn page_of(task: &Task, part: usize, page: usize) -> Option<(Stamp, usize)>
    ensures there { IfSome result (λ x. (pages : List AStamp) × (pin_at task.now.pins part ≡ Some pages)
        × (slice_get pages page ≡ Some x.0) × (x.1 ≡ length pages)) }
    ensures below { IfSome result (λ x. page < x.1) }
{
    match task.pins.pages(part) {
        None => None,
        Some(pages) => match pages.get(page) {
            None => None,
            Some(stamp) => Some((*stamp, pages.len())),
        },
    }
}

// Whether this is the last page that is read at first of a part whose pin has so many.
fn is_last(task: &Task, part: usize, page: usize, count: usize) -> bool
    requires { page < count }
    ensures last { IsTrue result → (page + 1 ≡ count) ⊎ IsFront (task_call task.now) part page }
    ensures more { IsFalse result → (page + 1 < count) × (IsFront (task_call task.now) part page → ⊥) }
{
    if page + 1 == count {
        return true;
    }
    page == 0 && is_paged(task, part)
}

// After the last page that is read at first of a part the run goes on to the next part, or to what
// follows the last one.
fn next_part(
    alloc: Global,
    task: &Task,
    part: usize,
    page: usize,
    seen: Seen,
    got: Vec<u8>,
) -> Phase
    requires low { part < 16 }
    requires places { length seen.read.items ≤ part }
    ensures found { (a : Assignment) → PinsAreWhole a (task_call task.now) →
        IsSeenBefore a (task_call task.now) part seen.known seen.read.items →
        IsPartRead a (task_call task.now) part page got.items → FoundBy a (task_call task.now) result }
    ensures steps { IsLastAtFirst (task_call task.now) part page →
        Follows (task_call task.now) (at_read part page) (place_in result) }
    ensures reads { HasItsReads (arc_value task.now.operation) result }
    ensures pen { HasNoPen result }
    ensures news { (p : ℕ) → pin_at (news_in result) p ≢ None →
        Writes (body_of (arc_value task.now.operation)).statements p }
    ensures sealed { sealed_in result ≡ [] }
    ensures cause { ending_of result ≢ Some (replies.Failed failures.Device) }
    ensures less { work_in result < 2 ^ 73 + (16 - part) * 2 ^ 66 }
{
    // What is seen before the next part, and that all is seen after the last one.
    next_is_seen();
    all_is_seen();
    let mut seen = seen;
    match seen.take(alloc, task, part, page, got) {
        Ok(()) => {}
        Err(Miss::Damaged) => return ended(alloc, Reply::Failed(Failure::Damaged)),
        Err(Miss::Memory) => return failed(alloc, HandFault::Memory, Vec::new(alloc)),
    }
    match task.next_part(part + 1) {
        Some(next) => Phase::Reading(ReadingRun {
            part: next,
            page: 0,
            seen,
            got: Vec::new(alloc),
        }),
        None => conclude(alloc, task, seen),
    }
}

// Reads a page of a part, and goes on after the last one that is read at first.
pub(crate) fn read_step<H: Hand>(alloc: Global, hand: &mut H, task: &Task, r: ReadingRun) -> Phase
    ensures kept { (a : Assignment) → H.agrees hand.new a → H.agrees hand.old a }
    ensures found { (a : Assignment) → H.agrees hand.new a → PinsAreWhole a (task_call task.now) →
        IsReadSoFar a (task_call task.now) r → FoundBy a (task_call task.now) result }
    ensures steps { Follows (task_call task.now) (place_in (Phase.Reading r)) (place_in result) }
    ensures reads { HasItsReads (arc_value task.now.operation) result }
    ensures pen { HasNoPen result }
    ensures news { (p : ℕ) → pin_at (news_in result) p ≢ None →
        Writes (body_of (arc_value task.now.operation)).statements p }
    ensures written { AreServed (H.serves hand.new) (sealed_in result) }
    ensures others { (n : ℕ) (b : List ℕ) → H.pending hand.old n b → H.pending hand.new n b }
    ensures earlier { (n : ℕ) (b : List ℕ) → H.pending hand.new n b → H.pending hand.old n b }
    ensures falls { work_in result < work_in (Phase.Reading r) }
    ensures serves { (s : AStamp) → H.serves hand.old s → H.serves hand.new s }
    ensures works { (n : ℕ) → H.works_for hand.old n → H.works_for hand.old (n + 1) → H.works_for hand.new n }
    ensures in_order { H.works_for hand.old 1 →
        ReadIsServed (H.serves hand.old) (task_call task.now) (place_in (Phase.Reading r)) →
        ending_of result ≢ Some (replies.Failed failures.Device) }
    ensures fails { H.fails hand.old → FailsWith (place_in (Phase.Reading r)) (ending_of result) }
    ensures makes { MakesRead H.makes (task_call task.now) r.part r.page (ending_of result) hand.old hand.new }
    ensures rises { H.failed hand.old < H.failed hand.new → ending_of result ≡ Some (replies.Failed failures.Device) }
    ensures counted { H.failed hand.old ≤ H.failed hand.new }
    ensures cause { ending_of result ≡ Some (replies.Failed failures.Device) →
        DeviceFailed (H.failed hand.old) (H.failed hand.new) }
{
    let ReadingRun {
        part,
        page,
        seen,
        got,
    } = r;
    let (stamp, count) = match page_of(task, part, page) {
        Some(found) => found,
        None => return failed(alloc, HandFault::Memory, Vec::new(alloc)),
    };
    let mut got = got;
    match read_page(hand, &stamp, &mut got) {
        Ok(()) => {}
        Err(fault) => return failed(alloc, fault, Vec::new(alloc)),
    }
    if !is_last(task, part, page, count) {
        return Phase::Reading(ReadingRun {
            part,
            page: page + 1,
            seen,
            got,
        });
    }
    next_part(alloc, task, part, page, seen, got)
}

// Reads the page that the body comes to, and judges it anew.
pub(crate) fn page_step<H: Hand>(alloc: Global, hand: &mut H, task: &Task, m: More) -> Phase
    requires reads { HasReads (arc_value task.now.operation) m.seen.read.items }
    ensures kept { (a : Assignment) → H.agrees hand.new a → H.agrees hand.old a }
    ensures found { (a : Assignment) → H.agrees hand.new a → PinsAreWhole a (task_call task.now) →
        IsPagedSoFar a (task_call task.now) m → FoundBy a (task_call task.now) result }
    ensures steps { Follows (task_call task.now) (place_in (Phase.Paging m)) (place_in result) }
    ensures reads { HasItsReads (arc_value task.now.operation) result }
    ensures pen { HasNoPen result }
    ensures news { (p : ℕ) → pin_at (news_in result) p ≢ None →
        Writes (body_of (arc_value task.now.operation)).statements p }
    ensures written { AreServed (H.serves hand.new) (sealed_in result) }
    ensures others { (n : ℕ) (b : List ℕ) → H.pending hand.old n b → H.pending hand.new n b }
    ensures earlier { (n : ℕ) (b : List ℕ) → H.pending hand.new n b → H.pending hand.old n b }
    ensures falls { work_in result < work_in (Phase.Paging m) }
    ensures serves { (s : AStamp) → H.serves hand.old s → H.serves hand.new s }
    ensures works { (n : ℕ) → H.works_for hand.old n → H.works_for hand.old (n + 1) → H.works_for hand.new n }
    ensures in_order { H.works_for hand.old 1 →
        ReadIsServed (H.serves hand.old) (task_call task.now) (place_in (Phase.Paging m)) →
        ending_of result ≢ Some (replies.Failed failures.Device) }
    ensures fails { H.fails hand.old → FailsWith (place_in (Phase.Paging m)) (ending_of result) }
    ensures makes { MakesRead H.makes (task_call task.now) m.part m.page (ending_of result) hand.old hand.new }
    ensures rises { H.failed hand.old < H.failed hand.new → ending_of result ≡ Some (replies.Failed failures.Device) }
    ensures counted { H.failed hand.old ≤ H.failed hand.new }
    ensures cause { ending_of result ≡ Some (replies.Failed failures.Device) →
        DeviceFailed (H.failed hand.old) (H.failed hand.new) }
{
    let More { part, page, seen } = m;
    let stamp = match page_of(task, part, page) {
        Some((stamp, _)) => stamp,
        None => return failed(alloc, HandFault::Memory, Vec::new(alloc)),
    };
    let mut seen = seen;
    match read_more(hand, &stamp, &mut seen, part, page) {
        Ok(()) => {}
        Err(fault) => return failed(alloc, fault, Vec::new(alloc)),
    }
    conclude(alloc, task, seen)
}
