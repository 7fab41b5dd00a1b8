//! How a run ends.

ghost use Rattle.std.specs.Prelude.{◌≡◌, ◌≢◌, [], ℕ, List, Some, None};
ghost use Rattle.device_core.specs.Device.{Assignment};
ghost use Rattle.page_core.specs.CallPins.{Call};
ghost use Rattle.page_core.specs.Truths.{IsTrueAt};
ghost use Rattle.apply_core.specs.declared.reply.Reply.TheVariants as replies;
ghost use Rattle.std.specs.Arc.{arc_value};
ghost use Rattle.decl_core.specs.Bodies.{body_of};
ghost use Rattle.decl_core.specs.Touched.{Writes};
ghost use Rattle.run_core.specs.Tasks.{task_call};
ghost use Rattle.page_core.specs.PartPins.{PartPin, pin_at, pins_by};
ghost use Rattle.page_core.specs.Outcomes.{outcome_call, outcome_reply, outcome_sealed, outcome_news, outcome_gone};
ghost use Rattle.page_core.specs.Outcomes.{IsFresh};
ghost use Rattle.run_core.specs.Phases.{ending_of, sealed_in, news_in, failure_of, HasNoPen, pen_in, work_in, FoundBy};
ghost use Rattle.run_core.specs.Phases.{IsNotDone};
ghost use Rattle.run_core.specs.Steps.{place_in, at_end};

use crate::phase::{Leaving, Phase};
use crate::plan::PagePlan;
use crate::task::Task;
use apply_core::reply::{Failure, Reply};
use decl_core::id::MOST_PARTS;
use device_core::hand::{HandFault, Stamp};
use page_core::outcome::Outcome;
use page_core::part_pins::PartPins;
use page_core::ticket::Ticket;
use std::alloc::Global;

// How a run ends for a fault.
pub(crate) fn failure(fault: HandFault) -> Failure
    ensures { result ≡ failure_of fault }
{
    match fault {
        HandFault::Device => Failure::Device,
        HandFault::Memory => Failure::Memory,
    }
}

// What a run leaves that changed nothing, where it has sealed these files. It takes no memory.
pub(crate) fn nothing(alloc: Global, sealed: Vec<Stamp>) -> Leaving
    ensures news { result.news ≡ [] }
    ensures gone { result.gone.items ≡ [] }
    ensures sealed { result.sealed.items ≡ sealed.items }
{
    Leaving {
        news: PartPins::from_counts([0; MOST_PARTS], Vec::new(alloc)),
        gone: Vec::new(alloc),
        sealed,
        entry: PartPins::from_counts([0; MOST_PARTS], Vec::new(alloc)),
    }
}

// What a run leaves whose plan is sealed. It takes no memory.
pub(crate) fn renewed(pages: PagePlan) -> Leaving
    ensures news { result.news ≡ pins_by 0 pages.counts pages.stamps.items }
    ensures gone { result.gone.items ≡ pages.gone.items }
    ensures sealed { result.sealed.items ≡ pages.sealed.items }
{
    let PagePlan {
        counts,
        stamps,
        writes: _,
        gone,
        sealed,
        entry,
    } = pages;
    let news = PartPins::from_counts(counts, stamps);
    let entry = news.copy_into(entry);
    Leaving {
        news,
        gone,
        sealed,
        entry,
    }
}

// A run that failed, and has sealed these files.
pub(crate) fn failed(alloc: Global, fault: HandFault, sealed: Vec<Stamp>) -> Phase
    ensures place { place_in result ≡ at_end (replies.Failed (failure_of fault)) sealed.items }
    ensures ending { ending_of result ≡ Some (replies.Failed (failure_of fault)) }
    ensures sealed { sealed_in result ≡ sealed.items }
    ensures news { news_in result ≡ [] }
    ensures pen { HasNoPen result }
    ensures no_pen { pen_in result ≡ None }
    ensures work { work_in result ≡ 0 }
    ensures found { (a : Assignment) (call : Call) → FoundBy a call result }
{
    Phase::Ended(Reply::Failed(failure(fault)), nothing(alloc, sealed))
}

// A run that ended without a file.
pub(crate) fn ended(alloc: Global, reply: Reply) -> Phase
    ensures place { place_in result ≡ at_end reply [] }
    ensures ending { ending_of result ≡ Some reply }
    ensures sealed { sealed_in result ≡ [] }
    ensures news { news_in result ≡ [] }
    ensures pen { HasNoPen result }
    ensures work { work_in result ≡ 0 }
    ensures found { (a : Assignment) (call : Call) → ((news : List PartPin) → news ≡ [] → IsTrueAt a call reply news) →
        IsNotDone reply → FoundBy a call result }
{
    Phase::Ended(reply, nothing(alloc, Vec::new(alloc)))
}

// How a call ended.
pub(crate) fn outcome_of(task: Task, reply: Reply, left: Leaving) -> Outcome
    requires { (p : ℕ) → pin_at left.news p ≢ None → (Writes (body_of (arc_value task.operation)).statements p → ⊥) →
        ⊥ }
    ensures call { outcome_call result ≡ task_call task }
    ensures reply { outcome_reply result ≡ reply }
    ensures sealed { outcome_sealed result ≡ left.sealed.items }
    ensures news { outcome_news result ≡ left.news }
    ensures gone { outcome_gone result ≡ left.gone.items }
    ensures fresh { IsFresh result }
{
    let Task {
        number,
        operation,
        args,
        pins,
        reads: _,
    } = task;
    let Leaving {
        news,
        gone,
        sealed,
        entry,
    } = left;
    let ticket = Ticket::new(number, operation, args, pins);
    Outcome::of(ticket, reply, news, entry, gone, sealed)
}
