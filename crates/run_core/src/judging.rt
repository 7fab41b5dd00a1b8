//! What becomes of the body of a call on what it has seen.

ghost use Rattle.std.specs.Prelude.{◌≡◌, ℕ};
ghost use Rattle.std.specs.Arc.{arc_value};
ghost use Rattle.device_core.specs.Device.{Assignment};
ghost use Rattle.known_core.specs.Wanted.{IsNextPage};
ghost use Rattle.run_core.specs.Verdicts.{ReadsNone, HasReads};
ghost use Rattle.run_core.specs.Judged.{OnlyWrites, Settled};
ghost use Rattle.run_core.specs.declared.judge.Verdict.TheVariants as verdicts;
ghost use Rattle.run_core.specs.Tasks.{task_call};
ghost use Rattle.page_core.specs.Truths.{PinsAreWhole};
ghost use Rattle.run_core.specs.Seen.{IsSeen, JudgedBy};

use crate::judge::{Verdict, judge};
use crate::seen::Seen;
use crate::task::Task;
use std::alloc::Global;

/// What becomes of the body of a call on what it has seen of its parts. It makes no device call.
pub fn judge_seen(alloc: Global, task: &Task, seen: &Seen) -> Verdict
    requires { HasReads (arc_value task.now.operation) seen.now.read.items }
    // It tells of the contents that the bytes under the pins spell.
    ensures told { (a : Assignment) → PinsAreWhole a (task_call task.now) →
        IsSeen a (task_call task.now) seen.now.known seen.now.read.items →
        JudgedBy a (task_call task.now) seen.now.known seen.now.read.items result }
    // A page that it needs is there and not known.
    ensures next { (p k : ℕ) → result ≡ verdicts.Needs p k →
        IsNextPage seen.now.known (arc_value task.now.operation) p k }
    // It changes parts of its writes alone, at most 16, each once.
    ensures writes { OnlyWrites (arc_value task.now.operation) result }
    // A body that reads no part is done or refused at once.
    ensures settled { ReadsNone (arc_value task.now.operation) → Settled result }
{
    let known = seen.known.fit(&task.operation);
    judge(alloc, &task.operation, &task.args, &known, &seen.read)
}
