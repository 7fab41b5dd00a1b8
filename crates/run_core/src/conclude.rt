//! What follows a read of a run, when its body is judged.

ghost use Rattle.std.specs.Prelude.{◌≡◌, ◌≢◌, ◌+◌, ◌^◌, ◌<◌, ◌≤◌, [], ℕ, List, Some, None};
ghost use Rattle.std.specs.Arc.{arc_value};
ghost use Rattle.decl_core.specs.Bodies.{body_of};
ghost use Rattle.decl_core.specs.Touched.{Writes};
ghost use Rattle.device_core.specs.Device.{Assignment};
ghost use Rattle.apply_core.specs.declared.reply.Failure.TheVariants as failures;
ghost use Rattle.apply_core.specs.declared.reply.Reply.TheVariants as replies;
ghost use Rattle.known_core.specs.Masks.{unread};
ghost use Rattle.page_core.specs.Given.{IsDone};
ghost use Rattle.run_core.specs.Verdicts.{ReadsNone, HasReads};
ghost use Rattle.run_core.specs.Wholes.{AreChangesOf};
ghost use Rattle.run_core.specs.Written.{WritesInOrder, parts_changed};
ghost use Rattle.page_core.specs.PartPins.{pin_at};
ghost use Rattle.run_core.specs.Tasks.{task_call};
ghost use Rattle.page_core.specs.Truths.{PinHolds, PinsAreWhole};
ghost use Rattle.run_core.specs.Seen.{IsSeen};
ghost use Rattle.run_core.specs.Phases.{ending_of, sealed_in, news_in, HasNoPen, HasItsReads, FoundBy, IsSettled};
ghost use Rattle.run_core.specs.Phases.{work_in};
ghost use Rattle.run_core.specs.Steps.{IsJudged, place_in};

use crate::ending::{ended, failed};
use crate::judge::{Change, Verdict};
use crate::judging::judge_seen;
use crate::phase::{More, Phase};
use crate::plan::plan_pages;
use crate::seen::Seen;
use crate::seen_laws::plans_are_whole;
use crate::task::Task;
use crate::write::go_on;
use apply_core::reply::{Failure, Reply};
use device_core::hand::HandFault;
use std::alloc::Global;
use value_core::datum::Datum;

// The run goes on to the pages of what its body changed, or it is done.
fn begin(alloc: Global, task: &Task, seen: &Seen, reply: Option<Datum>, changes: &[Change]) -> Phase
    requires read { HasReads (arc_value task.now.operation) seen.now.read.items }
    requires rising { WritesInOrder (body_of (arc_value task.now.operation)).statements 0 (parts_changed changes.now) }
    ensures found { (a : Assignment) → PinsAreWhole a (task_call task.now) →
        IsSeen a (task_call task.now) seen.now.known seen.now.read.items →
        IsDone (PinHolds a task.now.pins) (arc_value task.now.operation) task.now.args.items reply
        (AreChangesOf seen.now.known (arc_value task.now.operation) seen.now.read.items (PinHolds a task.now.pins)
        changes.now) → FoundBy a (task_call task.now) result }
    ensures settled { changes.now ≡ [] → IsSettled (ending_of result) }
    ensures steps { (known : List ℕ) → IsJudged (task_call task.now) known (place_in result) }
    ensures reads { HasItsReads (arc_value task.now.operation) result }
    ensures pen { HasNoPen result }
    ensures sealed { sealed_in result ≡ [] }
    ensures news { (p : ℕ) → pin_at (news_in result) p ≢ None →
        Writes (body_of (arc_value task.now.operation)).statements p }
    ensures cause { ending_of result ≢ Some (replies.Failed failures.Device) }
    ensures less { work_in result < 2 ^ 72 }
{
    // What is a plan of what was seen is one of the bytes under the pins.
    plans_are_whole();
    match plan_pages(alloc, task, &seen.read, changes) {
        Ok(pages) => go_on(reply, pages),
        Err(_) => failed(alloc, HandFault::Memory, Vec::new(alloc)),
    }
}

// The run goes on to what the body changed, or to the page that it comes to, or it has ended.
pub(crate) fn conclude(alloc: Global, task: &Task, seen: Seen) -> Phase
    requires read { HasReads (arc_value task.now.operation) seen.read.items }
    ensures found { (a : Assignment) → PinsAreWhole a (task_call task.now) →
        IsSeen a (task_call task.now) seen.known seen.read.items → FoundBy a (task_call task.now) result }
    ensures settled { ReadsNone (arc_value task.now.operation) → IsSettled (ending_of result) }
    ensures steps { IsJudged (task_call task.now) seen.known (place_in result) }
    ensures reads { HasItsReads (arc_value task.now.operation) result }
    ensures pen { HasNoPen result }
    ensures sealed { sealed_in result ≡ [] }
    ensures news { (p : ℕ) → pin_at (news_in result) p ≢ None →
        Writes (body_of (arc_value task.now.operation)).statements p }
    ensures cause { ending_of result ≢ Some (replies.Failed failures.Device) }
    ensures less { work_in result ≤ 2 ^ 72 + unread seen.known }
{
    match judge_seen(alloc, task, &seen) {
        Verdict::Done(reply, changes) => begin(alloc, task, &seen, reply, &changes),
        Verdict::Refused(word) => ended(alloc, Reply::Refused(word)),
        Verdict::Needs(part, page) => Phase::Paging(More { part, page, seen }),
        Verdict::Damaged => ended(alloc, Reply::Failed(Failure::Damaged)),
        Verdict::Memory => ended(alloc, Reply::Failed(Failure::Memory)),
    }
}
