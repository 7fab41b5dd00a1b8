//! A call that is run at once.

ghost use Rattle.std.specs.Prelude.{◌≡◌, ◌≢◌, ◌+◌, ◌<◌, ◌≤◌, [], ℕ, List, length, Some, None, OnOk, IfOk};
ghost use Rattle.std.specs.Result.{IsErrOf};
ghost use Rattle.std.specs.Arc.{arc_value};
ghost use Rattle.decl_core.specs.Bodies.{body_of};
ghost use Rattle.decl_core.specs.Touched.{Reads};
ghost use Rattle.device_core.specs.declared.hand.HandFault.TheVariants as faults;
ghost use Rattle.device_core.specs.declared.hand.Stamp.{Stamp};
ghost use Rattle.device_core.specs.Device.{Assignment, Always, Failed as DeviceFailed};
ghost use Rattle.device_core.specs.Made.{Made, IsDeviceErr};
ghost use Rattle.apply_core.specs.declared.reply.Failure.TheVariants as failures;
ghost use Rattle.apply_core.specs.declared.reply.Reply.TheVariants as replies;
ghost use Rattle.page_core.specs.Calls.{AreMade, WritesPages};
ghost use Rattle.page_core.specs.PartPins.{pin_at, pins_by};
ghost use Rattle.page_core.specs.Renewed.{with_sealed, AreSealed};
ghost use Rattle.page_core.specs.Given.{IsDone, IsDamaged};
ghost use Rattle.run_core.specs.Verdicts.{HasReads};
ghost use Rattle.run_core.specs.Judged.{OnlyWrites};
ghost use Rattle.run_core.specs.Wholes.{AreChangesOf};
ghost use Rattle.run_core.specs.declared.judge.Verdict.TheVariants as verdicts;
ghost use Rattle.run_core.specs.Seen.{IsPartRead, IsSeen, IsSeenBefore, JudgedBy};
ghost use Rattle.run_core.specs.Written.{WritesInOrder, parts_changed};
ghost use Rattle.run_core.specs.Tasks.{task_call};
ghost use Rattle.page_core.specs.Tickets.{ticket_call};
ghost use Rattle.page_core.specs.Truths.{IsTrueOf, PinHolds, PinsAreWhole};
ghost use Rattle.page_core.specs.Outcomes.{outcome_call, outcome_reply, outcome_sealed, outcome_news, outcome_gone};
ghost use Rattle.page_core.specs.Outcomes.{outcome_pins, IsFresh};
ghost use Rattle.run_core.specs.AtOnce.{ReadsPart, ReadsParts, ReadsMore, WritesAll, GoesOn, RunsAtOnce};
ghost use Rattle.run_core.specs.Phases.{IsRenewedBy};
ghost use Rattle.run_core.specs.Steps.{PageIsServed, PinsServed, AreServed};

use crate::ending::{failure, nothing, outcome_of};
use crate::judge::{Change, Verdict};
use crate::judging::judge_seen;
use crate::more::read_more;
use crate::phase::Leaving;
use crate::plan::{PagePlan, plan_pages};
use crate::read::page_of;
use crate::seen::{Miss, Seen, is_paged};
use crate::seen_laws::{all_is_seen, next_is_seen, none_is_seen, plans_are_whole};
use crate::task::{Task, pages_of};
use apply_core::reply::{Failure, Reply};
use device_core::hand::{Hand, HandFault};
use page_core::outcome::Outcome;
use page_core::part_pins::PartPins;
use page_core::read::{read_list, read_page};
use page_core::ticket::Ticket;
use page_core::write::{put_sealed, write_pages};
use std::alloc::Global;
use value_core::datum::Datum;

// Reads the bytes that are read of a part at first: those of its first page, where it is read page by page, else all
// that are under its pin.
fn read_bytes<H: Hand>(
    hand: &mut H,
    task: &Task,
    part: usize,
    got: &mut Vec<u8>,
) -> Result<(), HandFault>
    requires next { pin_at task.now.pins part ≢ None }
    requires empty { got.old.items ≡ [] }
    ensures kept { (a : Assignment) → H.agrees hand.new a → H.agrees hand.old a }
    ensures found { OnOk result ((a : Assignment) → H.agrees hand.new a →
        IsPartRead a (task_call task.now) part 0 got.new.items) }
    ensures makes { (calls : List Made) × AreMade H.makes hand.old calls hand.new
        × ReadsPart (task_call task.now) part calls }
    ensures earlier { (n : ℕ) (b : List ℕ) → H.pending hand.new n b → H.pending hand.old n b }
    ensures serves { (s : Stamp) → H.serves hand.old s → H.serves hand.new s }
    ensures works { Always (H.works_for hand.old) → Always (H.works_for hand.new) }
    ensures in_order { Always (H.works_for hand.old) →
        ((page : ℕ) → PageIsServed (H.serves hand.old) (task_call task.now) part page) → IsDeviceErr result → ⊥ }
    ensures rises { H.failed hand.old < H.failed hand.new → IsDeviceErr result }
    ensures counted { H.failed hand.old ≤ H.failed hand.new }
    ensures cause { IsErrOf result HandFault.Device → DeviceFailed (H.failed hand.old) (H.failed hand.new) }
{
    let pages = pages_of(&task.pins, part);
    if is_paged(task, part) {
        if let Some(first) = pages.first() {
            return match read_page(hand, first, got) {
                Ok(()) => Ok(()),
                Err(fault) => Err(fault),
            };
        }
    }
    match read_list(hand, pages, got) {
        Ok(()) => Ok(()),
        Err(fault) => Err(fault),
    }
}

// Reads of a part what is read at first: its first page, where it is read page by page, else all that is under its pin.
fn read_part<H: Hand>(
    alloc: Global,
    hand: &mut H,
    task: &Task,
    part: usize,
    seen: &mut Seen,
) -> Result<(), Failure>
    requires next { pin_at task.now.pins part ≢ None }
    requires low { part < 16 }
    requires places { length seen.old.read.items ≤ part }
    ensures kept { (a : Assignment) → H.agrees hand.new a → H.agrees hand.old a }
    ensures found { OnOk result ((a : Assignment) → H.agrees hand.new a → PinsAreWhole a (task_call task.now) →
        IsSeenBefore a (task_call task.now) part seen.old.known seen.old.read.items →
        IsSeenBefore a (task_call task.now) (part + 1) seen.new.known seen.new.read.items) }
    ensures damaged { IsErrOf result Failure.Damaged → (a : Assignment) → H.agrees hand.new a →
        PinsAreWhole a (task_call task.now) → IsDamaged (PinHolds a task.now.pins) (arc_value task.now.operation) }
    ensures long { OnOk result (length seen.new.read.items ≡ part + 1) }
    ensures makes { (calls : List Made) × AreMade H.makes hand.old calls hand.new
        × ReadsPart (task_call task.now) part calls }
    ensures earlier { (n : ℕ) (b : List ℕ) → H.pending hand.new n b → H.pending hand.old n b }
    ensures serves { (s : Stamp) → H.serves hand.old s → H.serves hand.new s }
    ensures works { Always (H.works_for hand.old) → Always (H.works_for hand.new) }
    ensures in_order { Always (H.works_for hand.old) →
        ((page : ℕ) → PageIsServed (H.serves hand.old) (task_call task.now) part page) →
        IsErrOf result Failure.Device → ⊥ }
    ensures rises { H.failed hand.old < H.failed hand.new → IsErrOf result Failure.Device }
    ensures counted { H.failed hand.old ≤ H.failed hand.new }
    ensures cause { IsErrOf result Failure.Device → DeviceFailed (H.failed hand.old) (H.failed hand.new) }
{
    let mut got = Vec::new(alloc);
    match read_bytes(hand, task, part, &mut got) {
        Ok(()) => {}
        Err(fault) => return Err(failure(fault)),
    }
    match seen.take(alloc, task, part, 0, got) {
        Ok(()) => Ok(()),
        Err(Miss::Damaged) => Err(Failure::Damaged),
        Err(Miss::Memory) => Err(Failure::Memory),
    }
}

// Reads of the parts from this one on that the call reads what is read at first.
fn read_from<H: Hand>(
    alloc: Global,
    hand: &mut H,
    task: &Task,
    from: usize,
    seen: &mut Seen,
) -> Result<(), Failure>
    requires { length seen.old.read.items ≤ from }
    ensures kept { (a : Assignment) → H.agrees hand.new a → H.agrees hand.old a }
    ensures found { OnOk result ((a : Assignment) → H.agrees hand.new a → PinsAreWhole a (task_call task.now) →
        IsSeenBefore a (task_call task.now) from seen.old.known seen.old.read.items →
        IsSeen a (task_call task.now) seen.new.known seen.new.read.items) }
    ensures damaged { IsErrOf result Failure.Damaged → (a : Assignment) → H.agrees hand.new a →
        PinsAreWhole a (task_call task.now) → IsDamaged (PinHolds a task.now.pins) (arc_value task.now.operation) }
    ensures places { OnOk result ((p : ℕ) → Reads (body_of (arc_value task.now.operation)).statements p → from ≤ p →
        p < length seen.new.read.items) }
    ensures grows { OnOk result (length seen.old.read.items ≤ length seen.new.read.items) }
    ensures makes { (calls : List Made) × AreMade H.makes hand.old calls hand.new
        × ReadsParts (task_call task.now) from calls }
    ensures earlier { (n : ℕ) (b : List ℕ) → H.pending hand.new n b → H.pending hand.old n b }
    ensures serves { (s : Stamp) → H.serves hand.old s → H.serves hand.new s }
    ensures works { Always (H.works_for hand.old) → Always (H.works_for hand.new) }
    ensures in_order { Always (H.works_for hand.old) → PinsServed (H.serves hand.old) (task_call task.now) →
        IsErrOf result Failure.Device → ⊥ }
    ensures rises { H.failed hand.old < H.failed hand.new → IsErrOf result Failure.Device }
    ensures counted { H.failed hand.old ≤ H.failed hand.new }
    ensures cause { IsErrOf result Failure.Device → DeviceFailed (H.failed hand.old) (H.failed hand.new) }
{
    // What is seen before the next part, and that all is seen after the last one.
    next_is_seen();
    all_is_seen();
    let Some(part) = task.next_part(from) else {
        return Ok(());
    };
    match read_part(alloc, hand, task, part, seen) {
        Ok(()) => {}
        Err(failure) => return Err(failure),
    }
    match read_from(alloc, hand, task, part + 1, seen) {
        Ok(()) => Ok(()),
        Err(failure) => Err(failure),
    }
}

// What becomes of the body of a call: each page that it comes to is read, until it comes to none.
fn judged<H: Hand>(
    alloc: Global,
    hand: &mut H,
    task: &Task,
    seen: &mut Seen,
) -> Result<Verdict, HandFault>
    requires { HasReads (arc_value task.now.operation) seen.old.read.items }
    ensures kept { (a : Assignment) → H.agrees hand.new a → H.agrees hand.old a }
    ensures found { IfOk result (λ verdict. (a : Assignment) → H.agrees hand.new a →
        PinsAreWhole a (task_call task.now) → IsSeen a (task_call task.now) seen.old.known seen.old.read.items →
        IsSeen a (task_call task.now) seen.new.known seen.new.read.items
        × JudgedBy a (task_call task.now) seen.new.known seen.new.read.items verdict) }
    ensures over { IfOk result (λ verdict. (p k : ℕ) → verdict ≢ verdicts.Needs p k) }
    ensures writes { IfOk result (OnlyWrites (arc_value task.now.operation)) }
    ensures reads { OnOk result (HasReads (arc_value task.now.operation) seen.new.read.items) }
    ensures makes { (calls : List Made) × AreMade H.makes hand.old calls hand.new
        × ReadsMore (task_call task.now) seen.old.known calls }
    ensures earlier { (n : ℕ) (b : List ℕ) → H.pending hand.new n b → H.pending hand.old n b }
    ensures serves { (s : Stamp) → H.serves hand.old s → H.serves hand.new s }
    ensures works { Always (H.works_for hand.old) → Always (H.works_for hand.new) }
    ensures in_order { Always (H.works_for hand.old) → PinsServed (H.serves hand.old) (task_call task.now) →
        IsDeviceErr result → ⊥ }
    ensures rises { H.failed hand.old < H.failed hand.new → IsDeviceErr result }
    ensures counted { H.failed hand.old ≤ H.failed hand.new }
    ensures cause { IsErrOf result HandFault.Device → DeviceFailed (H.failed hand.old) (H.failed hand.new) }
{
    loop {
        let (part, page) = match judge_seen(alloc, task, seen) {
            Verdict::Needs(part, page) => (part, page),
            verdict => return Ok(verdict),
        };
        let Some((stamp, _)) = page_of(task, part, page) else {
            return Err(HandFault::Memory);
        };
        match read_more(hand, &stamp, seen, part, page) {
            Ok(()) => {}
            Err(fault) => return Err(fault),
        }
    }
}

// Writes the pages of a plan of which nothing is sealed, and tells what that leaves, and the fault that ended it, if
// there was one.
fn write_all<H: Hand>(hand: &mut H, pages: PagePlan) -> (Leaving, Option<HandFault>)
    requires { pages.sealed.items ≡ [] }
    ensures kept { (a : Assignment) → H.agrees hand.new a → H.agrees hand.old a }
    ensures news { result.0.news ≡ pins_by 0 pages.counts (with_sealed pages.stamps.items pages.writes.items
        result.0.sealed.items) }
    ensures gone { result.0.gone.items ≡ pages.gone.items }
    ensures sealed { (a : Assignment) → H.agrees hand.new a → AreSealed a pages.writes.items result.0.sealed.items }
    ensures all { result.1 ≡ None → length result.0.sealed.items ≡ length pages.writes.items }
    ensures makes { (calls : List Made) × AreMade H.makes hand.old calls hand.new
        × WritesPages pages.writes.items calls result.0.sealed.items result.1 }
    ensures earlier { (a : Assignment) → H.agrees hand.new a → (n : ℕ) (b : List ℕ) → H.pending hand.new n b →
        H.pending hand.old n b }
    ensures serves { (s : Stamp) → H.serves hand.old s → H.serves hand.new s }
    ensures works { Always (H.works_for hand.old) → Always (H.works_for hand.new) }
    ensures written { AreServed (H.serves hand.new) result.0.sealed.items }
    ensures in_order { Always (H.works_for hand.old) → result.1 ≢ Some faults.Device }
    ensures rises { H.failed hand.old < H.failed hand.new → result.1 ≡ Some faults.Device }
    ensures counted { H.failed hand.old ≤ H.failed hand.new }
    ensures cause { result.1 ≡ Some faults.Device → DeviceFailed (H.failed hand.old) (H.failed hand.new) }
{
    let PagePlan {
        counts,
        stamps,
        writes,
        gone,
        sealed,
        entry,
    } = pages;
    let (sealed, fault) = write_pages(hand, &writes, sealed);
    let mut stamps = stamps;
    put_sealed(&mut stamps, &writes, &sealed);
    let news = PartPins::from_counts(counts, stamps);
    let entry = news.copy_into(entry);
    let left = Leaving {
        news,
        gone,
        sealed,
        entry,
    };
    (left, fault)
}

// How a call ended that made no file.
fn over(alloc: Global, task: Task, reply: Reply) -> Outcome
    ensures call { outcome_call result ≡ task_call task }
    ensures reply { outcome_reply result ≡ reply }
    ensures news { outcome_news result ≡ [] }
    ensures sealed { outcome_sealed result ≡ [] }
    ensures gone { outcome_gone result ≡ [] }
    ensures fresh { IsFresh result }
{
    outcome_of(task, reply, nothing(alloc, Vec::new(alloc)))
}

// Writes the pages of what the body of a call changed. It is a call of its own, so that a call that changes nothing has
// no room for it to clear.
#[inline(never)]
fn written<H: Hand>(
    alloc: Global,
    hand: &mut H,
    task: Task,
    seen: &Seen,
    reply: Option<Datum>,
    changes: &[Change],
) -> Outcome
    requires read { HasReads (arc_value task.operation) seen.now.read.items }
    requires rising { WritesInOrder (body_of (arc_value task.operation)).statements 0 (parts_changed changes.now) }
    ensures call { outcome_call result ≡ task_call task }
    ensures kept { (a : Assignment) → H.agrees hand.new a → H.agrees hand.old a }
    ensures told { (a : Assignment) → H.agrees hand.new a → PinsAreWhole a (task_call task) →
        IsSeen a (task_call task) seen.now.known seen.now.read.items →
        IsDone (PinHolds a task.pins) (arc_value task.operation) task.args.items reply
        (AreChangesOf seen.now.known (arc_value task.operation) seen.now.read.items (PinHolds a task.pins)
        changes.now) → IsTrueOf a (outcome_call result) (outcome_reply result) (outcome_pins result) }
    ensures renewed { (a : Assignment) → H.agrees hand.new a → PinsAreWhole a (task_call task) →
        IsSeen a (task_call task) seen.now.known seen.now.read.items →
        IsDone (PinHolds a task.pins) (arc_value task.operation) task.args.items reply
        (AreChangesOf seen.now.known (arc_value task.operation) seen.now.read.items (PinHolds a task.pins)
        changes.now) → IsRenewedBy a (outcome_call result) (outcome_reply result) (outcome_sealed result)
        (outcome_news result) (outcome_gone result) }
    ensures makes { (calls : List Made) × AreMade H.makes hand.old calls hand.new
        × WritesAll (outcome_reply result) (outcome_sealed result) calls }
    ensures earlier { (a : Assignment) → H.agrees hand.new a → (n : ℕ) (b : List ℕ) → H.pending hand.new n b →
        H.pending hand.old n b }
    ensures serves { (s : Stamp) → H.serves hand.old s → H.serves hand.new s }
    ensures works { Always (H.works_for hand.old) → Always (H.works_for hand.new) }
    ensures written { AreServed (H.serves hand.new) (outcome_sealed result) }
    ensures in_order { Always (H.works_for hand.old) → outcome_reply result ≢ replies.Failed failures.Device }
    ensures rises { H.failed hand.old < H.failed hand.new → outcome_reply result ≡ replies.Failed failures.Device }
    ensures counted { H.failed hand.old ≤ H.failed hand.new }
    ensures cause { outcome_reply result ≡ replies.Failed failures.Device →
        DeviceFailed (H.failed hand.old) (H.failed hand.new) }
    ensures fresh { IsFresh result }
{
    // What is a plan of what was seen is one of the bytes under the pins.
    plans_are_whole();
    let pages = match plan_pages(alloc, &task, &seen.read, changes) {
        Ok(pages) => pages,
        Err(_) => return over(alloc, task, Reply::Failed(Failure::Memory)),
    };
    let (left, fault) = write_all(hand, pages);
    match fault {
        None => outcome_of(task, Reply::Done(reply), left),
        Some(fault) => {
            let Leaving {
                news: _,
                gone: _,
                sealed,
                entry: _,
            } = left;
            outcome_of(task, Reply::Failed(failure(fault)), nothing(alloc, sealed))
        }
    }
}

// Does the body of a call on what was read of its parts at first, and on each page that it comes to, and writes what it
// changed.
fn run_read<H: Hand>(alloc: Global, hand: &mut H, task: Task, seen: Seen) -> Outcome
    requires read { HasReads (arc_value task.operation) seen.read.items }
    ensures call { outcome_call result ≡ task_call task }
    ensures kept { (a : Assignment) → H.agrees hand.new a → H.agrees hand.old a }
    ensures told { (a : Assignment) → H.agrees hand.new a →
        (PinsAreWhole a (task_call task) → IsSeen a (task_call task) seen.known seen.read.items) →
        IsTrueOf a (outcome_call result) (outcome_reply result) (outcome_pins result) }
    ensures renewed { (a : Assignment) → H.agrees hand.new a → PinsAreWhole a (task_call task) →
        IsSeen a (task_call task) seen.known seen.read.items →
        IsRenewedBy a (outcome_call result) (outcome_reply result) (outcome_sealed result) (outcome_news result)
        (outcome_gone result) }
    ensures makes { (calls : List Made) × AreMade H.makes hand.old calls hand.new
        × GoesOn (task_call task) seen.known (outcome_reply result) (outcome_sealed result) calls }
    ensures earlier { (a : Assignment) → H.agrees hand.new a → (n : ℕ) (b : List ℕ) → H.pending hand.new n b →
        H.pending hand.old n b }
    ensures serves { (s : Stamp) → H.serves hand.old s → H.serves hand.new s }
    ensures works { Always (H.works_for hand.old) → Always (H.works_for hand.new) }
    ensures written { AreServed (H.serves hand.new) (outcome_sealed result) }
    ensures in_order { Always (H.works_for hand.old) → PinsServed (H.serves hand.old) (task_call task) →
        outcome_reply result ≢ replies.Failed failures.Device }
    ensures rises { H.failed hand.old < H.failed hand.new → outcome_reply result ≡ replies.Failed failures.Device }
    ensures counted { H.failed hand.old ≤ H.failed hand.new }
    ensures cause { outcome_reply result ≡ replies.Failed failures.Device →
        DeviceFailed (H.failed hand.old) (H.failed hand.new) }
    ensures fresh { IsFresh result }
{
    // So is the plan of no change.
    plans_are_whole();
    let mut seen = seen;
    let verdict = match judged(alloc, hand, &task, &mut seen) {
        Ok(verdict) => verdict,
        Err(fault) => return over(alloc, task, Reply::Failed(failure(fault))),
    };
    match verdict {
        Verdict::Done(reply, changes) => {
            if changes.is_empty() {
                over(alloc, task, Reply::Done(reply))
            } else {
                written(alloc, hand, task, &seen, reply, &changes)
            }
        }
        Verdict::Refused(word) => over(alloc, task, Reply::Refused(word)),
        Verdict::Damaged => over(alloc, task, Reply::Failed(Failure::Damaged)),
        _ => over(alloc, task, Reply::Failed(Failure::Memory)),
    }
}

/// Runs a call: its device calls one after the other, as a [`Run`](crate::run::Run) makes them, until it has ended. It
/// is what `perform` gives of a new run, in one go: a run of many steps moves all that it holds with each of them.
pub fn run_at_once<H: Hand>(alloc: Global, ticket: Ticket, hand: &mut H) -> Outcome
    ensures call { outcome_call result ≡ ticket_call ticket }
    ensures kept { (a : Assignment) → H.agrees hand.new a → H.agrees hand.old a }
    // The outcome is true of each assignment that agrees with all calls.
    ensures told { (a : Assignment) → H.agrees hand.new a →
        IsTrueOf a (outcome_call result) (outcome_reply result) (outcome_pins result) }
    // Where the body was done its new page lists are those of a plan, over the bytes under the pins.
    ensures renewed { (a : Assignment) → H.agrees hand.new a → PinsAreWhole a (outcome_call result) →
        IsRenewedBy a (outcome_call result) (outcome_reply result) (outcome_sealed result) (outcome_news result)
        (outcome_gone result) }
    // It reads the pages of its parts in order, then those that its body comes to, and then it writes the pages that its
    // body changed, up to a call that fails. It tells each file that it seals, also where it fails.
    ensures makes { (calls : List Made) × AreMade H.makes hand.old calls hand.new
        × RunsAtOnce (ticket_call ticket) (outcome_reply result) (outcome_sealed result) calls }
    // No file is left open.
    ensures earlier { (a : Assignment) → H.agrees hand.new a → (n : ℕ) (b : List ℕ) → H.pending hand.new n b →
        H.pending hand.old n b }
    // What could be read can be read, and the device stays in order.
    ensures serves { (s : Stamp) → H.serves hand.old s → H.serves hand.new s }
    ensures works { Always (H.works_for hand.old) → Always (H.works_for hand.new) }
    // What it has sealed can be read.
    ensures written { AreServed (H.serves hand.new) (outcome_sealed result) }
    // On a device that is in order and can read the pins of the call, it does not fail for the device.
    ensures in_order { Always (H.works_for hand.old) → PinsServed (H.serves hand.old) (ticket_call ticket) →
        outcome_reply result ≢ replies.Failed failures.Device }
    // Where the device failed in these calls, so did the call, and it fails for the device only there.
    ensures rises { H.failed hand.old < H.failed hand.new → outcome_reply result ≡ replies.Failed failures.Device }
    ensures counted { H.failed hand.old ≤ H.failed hand.new }
    ensures cause { outcome_reply result ≡ replies.Failed failures.Device →
        DeviceFailed (H.failed hand.old) (H.failed hand.new) }
    // It can be handed in.
    ensures fresh { IsFresh result }
{
    none_is_seen();
    let task = Task::new(ticket);
    let mut seen = Seen::new(alloc);
    match read_from(alloc, hand, &task, 0, &mut seen) {
        Ok(()) => {}
        Err(failure) => return over(alloc, task, Reply::Failed(failure)),
    }
    run_read(alloc, hand, task, seen)
}
