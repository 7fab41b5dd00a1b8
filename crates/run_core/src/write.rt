//! The steps of a run that writes the pages of what its body changed.

ghost use Rattle.std.specs.Prelude.{◌≡◌, ◌≢◌, ◌+◌, ◌-◌, ◌*◌, ◌<◌, ◌≤◌, ◌⊎◌, [], ℕ, List, length, Some, None, Option};
ghost use Rattle.device_core.specs.declared.hand.Stamp.{Stamp as AStamp};
ghost use Rattle.device_core.specs.Device.{Assignment, IsFree, Failed as DeviceFailed};
ghost use Rattle.apply_core.specs.declared.reply.Failure.TheVariants as failures;
ghost use Rattle.apply_core.specs.declared.reply.Reply.TheVariants as replies;
ghost use Rattle.page_core.specs.PartPins.{pin_at, pins_by};
ghost use Rattle.page_core.specs.CallPins.{Call};
ghost use Rattle.run_core.specs.Calling.{MakesCreate, MakesAppend, MakesSeal};
ghost use Rattle.run_core.specs.Phases.{ending_of, sealed_in, news_in, IsWritten, IsWrittenSoFar, PenHoldsIn, HasNoPen};
ghost use Rattle.run_core.specs.Phases.{pen_in, FoundBy, IsSettled, work_in};
ghost use Rattle.run_core.specs.Steps.{Follows, AreServed, place_in, at_create, at_end};

use crate::ending::{failed, renewed};
use crate::phase::{Phase, Plan};
use crate::plan::PagePlan;
use apply_core::reply::Reply;
use device_core::hand::{Hand, Pen, Stamp};
use std::alloc::Global;
use value_core::datum::Datum;

// The run goes on to the next page that is not sealed, or it is done.
pub(crate) fn go_on(reply: Option<Datum>, pages: PagePlan) -> Phase
    ensures found { (a : Assignment) (call : Call) → IsWritten a call reply pages → FoundBy a call result }
    ensures pen { HasNoPen result }
    ensures sealed { sealed_in result ≡ pages.sealed.items }
    ensures news { news_in result ≡ pins_by 0 pages.counts pages.stamps.items }
    ensures more { length pages.sealed.items < length pages.writes.items →
        place_in result ≡ at_create pages.writes.items pages.sealed.items }
    ensures done { length pages.writes.items ≤ length pages.sealed.items →
        place_in result ≡ at_end (replies.Done reply) pages.sealed.items }
    ensures cause { ending_of result ≢ Some (replies.Failed failures.Device) }
    ensures settled { pages.writes.items ≡ [] → IsSettled (ending_of result) }
    ensures less { work_in result ≤ (length pages.writes.items - length pages.sealed.items) * 3 }
{
    if pages.sealed.len() < pages.writes.len() {
        Phase::Creating(Plan { reply, pages })
    } else {
        Phase::Ended(Reply::Done(reply), renewed(pages))
    }
}

// The files that were sealed of a plan that is given up.
fn given_up(plan: Plan) -> Vec<Stamp>
    ensures { result.items ≡ plan.pages.sealed.items }
{
    let Plan { reply: _, pages } = plan;
    let PagePlan {
        counts: _,
        stamps: _,
        writes: _,
        gone: _,
        sealed,
        entry: _,
    } = pages;
    sealed
}

// Begins the file of the next page.
pub(crate) fn create_step<H: Hand>(alloc: Global, hand: &mut H, plan: Plan) -> Phase
    ensures kept { (a : Assignment) → H.agrees hand.new a → H.agrees hand.old a }
    ensures found { (a : Assignment) (call : Call) → IsWrittenSoFar a call plan → FoundBy a call result }
    ensures steps { (call : Call) → Follows call (place_in (Phase.Creating plan)) (place_in result) }
    ensures pen { PenHoldsIn (H.pending hand.new) result }
    ensures news { (p : ℕ) → pin_at (news_in result) p ≢ None → pin_at (news_in (Phase.Creating plan)) p ≢ None }
    ensures written { AreServed (H.serves hand.old) plan.pages.sealed.items →
        AreServed (H.serves hand.new) (sealed_in result) }
    ensures unused { (n : ℕ) → pen_in result ≡ Some n → IsFree (H.agrees hand.new) (H.pending hand.old) n }
    ensures makes { MakesCreate H.makes (ending_of result) hand.old hand.new }
    ensures others { (n : ℕ) (b : List ℕ) → H.pending hand.old n b → H.pending hand.new n b }
    ensures earlier { (n : ℕ) (b : List ℕ) → H.pending hand.new n b →
        H.pending hand.old n b ⊎ (pen_in result ≡ Some n) }
    ensures falls { work_in result < work_in (Phase.Creating plan) }
    ensures serves { (s : AStamp) → H.serves hand.old s → H.serves hand.new s }
    ensures works { (n : ℕ) → H.works_for hand.old (n + 1) → H.works_for hand.new n }
    ensures in_order { H.works_for hand.old 1 → ending_of result ≢ Some (replies.Failed failures.Device) }
    ensures fails { H.fails hand.old → ending_of result ≡ Some (replies.Failed failures.Device) }
    ensures rises { H.failed hand.old < H.failed hand.new → ending_of result ≡ Some (replies.Failed failures.Device) }
    ensures counted { H.failed hand.old ≤ H.failed hand.new }
    ensures cause { ending_of result ≡ Some (replies.Failed failures.Device) →
        DeviceFailed (H.failed hand.old) (H.failed hand.new) }
{
    match hand.create() {
        Ok(pen) => Phase::Appending(plan, pen),
        Err(fault) => failed(alloc, fault, given_up(plan)),
    }
}

// Adds the bytes of the page.
pub(crate) fn append_step<H: Hand>(alloc: Global, hand: &mut H, plan: Plan, pen: Pen) -> Phase
    ensures kept { (a : Assignment) → H.agrees hand.new a → H.agrees hand.old a }
    ensures found { (a : Assignment) (call : Call) → IsWrittenSoFar a call plan → FoundBy a call result }
    ensures steps { (call : Call) → Follows call (place_in (Phase.Appending plan pen)) (place_in result) }
    ensures pen { PenHoldsIn (H.pending hand.old) (Phase.Appending plan pen) → PenHoldsIn (H.pending hand.new) result }
    ensures news { (p : ℕ) → pin_at (news_in result) p ≢ None → pin_at (news_in (Phase.Appending plan pen)) p ≢ None }
    ensures written { AreServed (H.serves hand.old) plan.pages.sealed.items →
        AreServed (H.serves hand.new) (sealed_in result) }
    ensures same { (n : ℕ) → pen_in result ≡ Some n → pen.number ≡ n }
    ensures others { (n : ℕ) (b : List ℕ) → n ≢ pen.number → H.pending hand.old n b → H.pending hand.new n b }
    ensures earlier { (n : ℕ) (b : List ℕ) → n ≢ pen.number → H.pending hand.new n b → H.pending hand.old n b }
    ensures falls { work_in result < work_in (Phase.Appending plan pen) }
    ensures serves { (s : AStamp) → H.serves hand.old s → H.serves hand.new s }
    ensures works { (n : ℕ) → H.works_for hand.old (n + 1) → H.works_for hand.new n }
    ensures in_order { H.works_for hand.old 1 → PenHoldsIn (H.pending hand.old) (Phase.Appending plan pen) →
        ending_of result ≢ Some (replies.Failed failures.Device) }
    ensures fails { H.fails hand.old → ending_of result ≡ Some (replies.Failed failures.Device) }
    ensures rises { H.failed hand.old < H.failed hand.new → ending_of result ≡ Some (replies.Failed failures.Device) }
    ensures released { pen_in result ≢ Some pen.number → IsFree (H.agrees hand.new) (H.pending hand.new) pen.number }
    ensures makes { MakesAppend H.makes pen.number (ending_of result) hand.old hand.new }
    ensures counted { H.failed hand.old ≤ H.failed hand.new }
    ensures cause { ending_of result ≡ Some (replies.Failed failures.Device) →
        DeviceFailed (H.failed hand.old) (H.failed hand.new) }
{
    let mut pen = pen;
    match hand.append(&mut pen, plan.pages.next().bytes.as_slice()) {
        Ok(()) => Phase::Sealing(plan, pen),
        Err(fault) => {
            hand.discard(pen);
            failed(alloc, fault, given_up(plan))
        }
    }
}

// Seals the file of the page, and goes on to the next one.
pub(crate) fn seal_step<H: Hand>(alloc: Global, hand: &mut H, plan: Plan, pen: Pen) -> Phase
    ensures kept { (a : Assignment) → H.agrees hand.new a → H.agrees hand.old a }
    ensures found { PenHoldsIn (H.pending hand.old) (Phase.Sealing plan pen) → (a : Assignment) → H.agrees hand.new a →
        (call : Call) → IsWrittenSoFar a call plan → FoundBy a call result }
    ensures steps { (call : Call) → Follows call (place_in (Phase.Sealing plan pen)) (place_in result) }
    ensures pen { HasNoPen result }
    ensures news { (p : ℕ) → pin_at (news_in result) p ≢ None → pin_at (news_in (Phase.Sealing plan pen)) p ≢ None }
    ensures written { AreServed (H.serves hand.old) plan.pages.sealed.items →
        AreServed (H.serves hand.new) (sealed_in result) }
    ensures others { (n : ℕ) (b : List ℕ) → n ≢ pen.number → H.pending hand.old n b → H.pending hand.new n b }
    ensures earlier { (n : ℕ) (b : List ℕ) → n ≢ pen.number → H.pending hand.new n b → H.pending hand.old n b }
    ensures falls { work_in result < work_in (Phase.Sealing plan pen) }
    ensures serves { (s : AStamp) → H.serves hand.old s → H.serves hand.new s }
    ensures works { (n : ℕ) → H.works_for hand.old (n + 1) → H.works_for hand.new n }
    ensures in_order { H.works_for hand.old 1 → PenHoldsIn (H.pending hand.old) (Phase.Sealing plan pen) →
        ending_of result ≢ Some (replies.Failed failures.Device) }
    ensures fails { H.fails hand.old → ending_of result ≡ Some (replies.Failed failures.Device) }
    ensures rises { H.failed hand.old < H.failed hand.new → ending_of result ≡ Some (replies.Failed failures.Device) }
    ensures released { IsFree (H.agrees hand.new) (H.pending hand.new) pen.number }
    ensures makes { MakesSeal H.makes pen plan.pages.sealed.items (ending_of result) (sealed_in result) hand.old
        hand.new }
    ensures counted { H.failed hand.old ≤ H.failed hand.new }
    ensures cause { ending_of result ≡ Some (replies.Failed failures.Device) →
        DeviceFailed (H.failed hand.old) (H.failed hand.new) }
{
    match hand.seal(pen) {
        Ok(stamp) => {
            let Plan { reply, pages } = plan;
            go_on(reply, pages.with(stamp))
        }
        Err((pen, fault)) => {
            hand.discard(pen);
            failed(alloc, fault, given_up(plan))
        }
    }
}
