//! Sources whose objects have holds, checked and run.

ghost use Rattle.std.specs.Prelude.{◌≡◌, ◌≤◌, ◌⊎◌, ◌++◌, ℕ, List, IfOk, IfErr, IfSome, IsErrOf, length, take};
ghost use Rattle.std.specs.Io.KnownBytes.{Appends, Keeps};
ghost use Rattle.decl_core.specs.ObjectMap.{objects_of};
ghost use Rattle.decl_core.specs.HoldMap.{all_rules_of, holds_of as all_holds_of};
ghost use Rattle.check_core.specs.HeldReport.{IsHeldCheck};
ghost use Rattle.check_core.specs.declared.report.CheckEnd.{CheckEnd as TheEnd};
ghost use Rattle.world_core.specs.HoldRun.{IsHeldScript, IsHeldFront};
ghost use Rattle.world_core.specs.declared.script.ScriptEnd.{ScriptEnd as TheScriptEnd};
ghost use Rattle.answer_core.specs.Status.{check_status, IsFault};
ghost use Rattle.command_tool.specs.ScriptRun.{script_status};
ghost use Rattle.answer_core.specs.Telling.{IsHinted};
ghost use Rattle.answer_core.specs.declared.explanation.Telling.TheVariants.{Nothing, Hint};
ghost use Rattle.answer_core.specs.declared.failure.ToolFailure.TheVariants.{WriteFault, Memory};
ghost use Rattle.command_tool.specs.HeldRun.{IsHeldRun, IsHeldRunFront};

use crate::run_explanation::explained_script;
use crate::script_answer::{status_of_script, tell};
use answer_core::answer::status_of_check;
use answer_core::explanation::{Telling, explained};
use answer_core::failure::ToolFailure;
use answer_core::said::written;
use check_core::head::read_head;
use check_core::hold_report::held_report;
use check_core::open::{OpenedScript, open_script};
use decl_core::analyse::Accepted;
use decl_core::hold::{Hold, Rules};
use decl_core::object::Object;
use decl_read::held_read::Held;
use std::alloc::Global;
use std::io::{Read, Write};
use world_core::hold_script::run_held_script;

// The report of objects with holds, and the exit status.
fn report_held<W: Write>(
    alloc: Global,
    objects: Vec<Object>,
    rules: &[Rules],
    writer: &mut W,
) -> Result<u8, ToolFailure>
    requires { length objects.items ≡ length rules.now }
    ensures ended { IfOk result (λ status. (end : TheEnd) × (written : List ℕ)
        × Appends (W.contents writer.old) (W.contents writer.new) written
        × IsHeldCheck (objects_of objects.items) (all_rules_of rules.now) end written
        × (status ≡ check_status end)) }
    ensures status { IfOk result (λ status. status ≤ 1) }
    ensures fault { IfErr result (λ failure. (failure ≡ WriteFault) ⊎ (failure ≡ Memory)) }
    ensures cut { IsErrOf result WriteFault → (end : TheEnd) × (whole : List ℕ) × (count : ℕ)
        × IsHeldCheck (objects_of objects.items) (all_rules_of rules.now) end whole
        × Appends (W.contents writer.old) (W.contents writer.new) (take count whole) }
    ensures memory { IsErrOf result Memory → Keeps (W.contents writer.old) (W.contents writer.new) }
{
    match held_report(alloc, objects, rules) {
        Ok(report) => written(&report.text, status_of_check(report.end), writer),
        Err(_) => Err(ToolFailure::Memory),
    }
}

/// `pathserve check` of a source whose objects have holds: its report, and the exit status, 0 where no object is refused,
/// else 1. `error` gets why an object is refused, as far as that is to be told.
///
/// A failure is `Memory`, which leaves nothing, or `WriteFault`, which leaves a front of the report.
pub fn check_held<W: Write, E: Write>(
    alloc: Global,
    held: Held,
    telling: Telling,
    file: &str,
    writer: &mut W,
    error: &mut E,
) -> Result<u8, ToolFailure>
    ensures ended { IfOk result (λ status. (end : TheEnd) × (written : List ℕ)
        × Appends (W.contents writer.old) (W.contents writer.new) written
        × IsHeldCheck (objects_of held.objects.items) (all_rules_of held.rules.items) end written
        × (status ≡ check_status end)) }
    ensures status { IfOk result (λ status. status ≤ 1) }
    ensures fault { IfErr result (λ failure. (failure ≡ WriteFault) ⊎ (failure ≡ Memory)) }
    ensures cut { IsErrOf result WriteFault → (end : TheEnd) × (whole : List ℕ) × (count : ℕ)
        × IsHeldCheck (objects_of held.objects.items) (all_rules_of held.rules.items) end whole
        × Appends (W.contents writer.old) (W.contents writer.new) (take count whole) }
    ensures memory { IsErrOf result Memory → Keeps (W.contents writer.old) (W.contents writer.new) }
    ensures unasked { telling ≡ Nothing → Keeps (E.contents error.old) (E.contents error.new) }
    ensures hint { telling ≡ Hint → IsHinted (E.contents error.old) (E.contents error.new) }
{
    let Held {
        cut,
        objects,
        rules,
    } = held;
    if objects.len() != rules.len() {
        return Err(ToolFailure::Memory);
    }
    let ended = report_held(alloc, objects, &rules, writer);
    explained(alloc, ended, telling, file, &cut, None, error)
}

// The holds of the object that is accepted, among these objects and what each of them says.
fn holds_of(
    alloc: Global,
    accepted: &Accepted,
    objects: Vec<Object>,
    rules: Vec<Rules>,
) -> Vec<Hold> {
    let name = accepted.object().name.as_bytes();
    let mut rules = rules.into_iter();
    for object in objects {
        match rules.next() {
            Some(of_it) if object.name.as_bytes() == name => return of_it.holds,
            _ => {}
        }
    }
    Vec::new(alloc)
}

// Runs a script whose first bytes have been read, on an object with these holds.
fn run_on<R: Read, W: Write>(
    alloc: Global,
    accepted: Accepted,
    holds: Vec<Hold>,
    head: &[u8],
    reader: &mut R,
    writer: &mut W,
) -> Result<u8, ToolFailure>
    ensures ended { IfOk result (λ status. IfSome (R.remaining reader.old) (λ rest. (end : TheScriptEnd)
        × (written : List ℕ) × Appends (W.contents writer.old) (W.contents writer.new) written
        × IsHeldScript accepted (all_holds_of holds.items) (head.now ++ rest) end written
        × (status ≡ script_status end))) }
    ensures status { IfOk result (λ status. status ≤ 1) }
    ensures fault { IfErr result IsFault }
    ensures cut { IfErr result (λ failure. IsFault failure × IfSome (R.remaining reader.old) (λ rest. (written : List ℕ)
        × Appends (W.contents writer.old) (W.contents writer.new) written
        × IsHeldFront accepted (all_holds_of holds.items) (head.now ++ rest) written)) }
{
    let mut text = head.chain(reader);
    match run_held_script(alloc, accepted, holds, &mut text, writer) {
        Ok(end) => Ok(status_of_script(end)),
        Err(fault) => Err(ToolFailure::from(fault)),
    }
}

/// `pathserve run` of a source whose objects have holds, by the source without them, the objects, and what each of them
/// says: the script's answers, and the exit status, 0 where each line was answered, 1 where there is nothing to run on, or
/// a bad line ended the script. `error` gets why the object is refused, as far as that is to be told.
///
/// A failure is `ReadFault`, `WriteFault` or `Memory`, and leaves a front of the answers.
pub fn run_held<R: Read, W: Write, E: Write>(
    alloc: Global,
    cut: &[u8],
    objects: Vec<Object>,
    rules: Vec<Rules>,
    reader: &mut R,
    writer: &mut W,
    telling: Telling,
    file: &str,
    error: &mut E,
) -> Result<u8, ToolFailure>
    ensures ended { IfOk result (λ status. IfSome (R.remaining reader.old) (λ text. (written : List ℕ)
        × Appends (W.contents writer.old) (W.contents writer.new) written
        × IsHeldRun cut.now text status written)) }
    ensures status { IfOk result (λ status. status ≤ 1) }
    ensures fault { IfErr result IsFault }
    ensures cut { IfErr result (λ failure. IsFault failure × IfSome (R.remaining reader.old) (λ text. (written : List ℕ)
        × Appends (W.contents writer.old) (W.contents writer.new) written × IsHeldRunFront cut.now text written)) }
{
    let head = match read_head(alloc, reader) {
        Ok(head) => head,
        Err(fault) => return Err(ToolFailure::from(fault)),
    };
    match open_script(alloc, cut, &head) {
        Ok(OpenedScript::Ready(accepted)) => {
            let holds = holds_of(alloc, &accepted, objects, rules);
            run_on(alloc, accepted, holds, &head, reader, writer)
        }
        Ok(OpenedScript::Told(line)) => {
            let ended = tell(&line, writer);
            explained_script(alloc, ended, telling, file, cut, &head, error)
        }
        Err(_) => Err(ToolFailure::Memory),
    }
}
