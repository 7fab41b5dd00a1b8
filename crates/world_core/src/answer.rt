//! What the lines are answered.

ghost use Rattle.std.specs.Prelude.{◌≡◌, ◌++◌, ◌+◌, ◌<◌, ℕ, List, IfOk, OnOk};
ghost use Rattle.decl_core.specs.ObjectMap.{object_of};
ghost use Rattle.stuck_core.specs.Waits.{is_among as among};
ghost use Rattle.stuck_core.specs.ReasonViews.{whys_of};
ghost use Rattle.stuck_core.specs.Lacks.{Why};
ghost use Rattle.stuck_core.specs.Tells.{Tells};
ghost use Rattle.board_core.specs.Board.{call_at, paths_of, past_of};
ghost use Rattle.stuck_core.specs.Why.{why_text};
ghost use Rattle.world_core.specs.Asked.{view_of, why as why_asked, who as who_asked};
ghost use Rattle.world_core.specs.Counted.{HasCounted};
ghost use Rattle.world_core.specs.Told.{is_needed as needed, if_there_runs, running_there, IsTold, HasTold};
ghost use Rattle.world_core.specs.Told.{AreWaitLines};

use crate::question::Question;
use crate::replay::counters_of;
use desk_core::desk::Desk;
use path_count::counters::Counters;
use path_tree::node::OpId;
use std::alloc::{AllocError, Global};
use stuck_core::find::reasons_by;
use stuck_core::list::push_only;
use stuck_core::reason::Reason;
use stuck_core::who::{WaitingRow, push_waits, push_who};
use stuck_core::why::{CallStatus, RunningRow, push_state, push_why};

// No desk has more calls.
const MOST_CALLS: u32 = 65_536;

/// Lines, and how many they are.
#[derive(Drop)]
pub struct WaitLines {
    pub count: u64,
    pub text: Vec<u8>,
}

// Whether an operation is one of these.
fn is_among(operations: &[OpId], op: OpId) -> bool
    ensures { result ≡ among operations.now op }
{
    match operations {
        [] => false,
        [first, more @ ..] => op == *first || is_among(more, op),
    }
}

// Whether a finish of it is needed.
fn is_needed(reasons: &[Reason], op: OpId) -> bool
    ensures { result ≡ needed (whys_of reasons.now) op }
{
    match reasons {
        [] => false,
        [first, more @ ..] => is_among(&first.needs, op) || is_needed(more, op),
    }
}

// Adds the call of this number, if it runs and a finish of its operation is needed.
fn push_run(
    desk: &Desk,
    reasons: &[Reason],
    number: u32,
    runs: &mut Vec<RunningRow>,
) -> Result<(), AllocError>
    ensures { OnOk result (runs.new.items ≡ runs.old.items
        ++ if_there_runs desk.now (whys_of reasons.now) number (call_at desk.now.calls number)) }
{
    let Some(call) = desk.call(number) else {
        return Ok(());
    };
    if !desk.runs(number) {
        return Ok(());
    }
    if !is_needed(reasons, call.op()) {
        return Ok(());
    }
    runs.push(RunningRow {
        number: number as u64,
        session: call.session() as u64,
        operation: call.op(),
    })?;
    Ok(())
}

// The calls that run of the operations whose finish is needed.
fn runs_of(alloc: Global, desk: &Desk, reasons: &[Reason]) -> Result<Vec<RunningRow>, AllocError>
    ensures { IfOk result (λ runs. runs.items ≡ running_there desk.now (whys_of reasons.now)) }
{
    // Its board is sound: it has at most so many calls.
    desk.history();
    let mut runs = Vec::new(alloc);
    for place in 0..MOST_CALLS {
        push_run(desk, reasons, place + 1, &mut runs)?;
    }
    Ok(runs)
}

// Adds why a start of an operation is refused, for the call of this number.
fn push_refused(
    alloc: Global,
    desk: &Desk,
    number: u32,
    op: OpId,
    out: &mut Vec<u8>,
) -> Result<(), AllocError>
    ensures { OnOk result ((whys : List Why) × Tells (paths_of desk.now) op (past_of desk.now) whys
        × (out.new.items ≡ out.old.items ++ why_text (object_of desk.now.object) number whys
        (running_there desk.now whys))) }
{
    let object = desk.accepted().object();
    let counters = counters_of(alloc, desk)?;
    let reasons = reasons_by(alloc, &object.paths, &counters, op)?;
    let runs = runs_of(alloc, desk, &reasons)?;
    push_why(out, object, number as u64, &reasons, &runs)?;
    Ok(())
}

// Adds the answer to `why N`.
fn answer_why(alloc: Global, desk: &Desk, number: u32, out: &mut Vec<u8>) -> Result<(), AllocError>
    ensures { OnOk result ((text : List ℕ) × (out.new.items ≡ out.old.items ++ text)
        × IsTold desk.now (why_asked number) text) }
{
    let Some(call) = desk.call(number) else {
        push_state(out, number as u64, CallStatus::Unknown)?;
        return Ok(());
    };
    if desk.waits(number) {
        push_refused(alloc, desk, number, call.op(), out)?;
        return Ok(());
    }
    if desk.runs(number) {
        push_state(out, number as u64, CallStatus::Running)?;
        return Ok(());
    }
    push_state(out, number as u64, CallStatus::Ended)?;
    Ok(())
}

// Adds the lines of the call behind so many, if it waits, to those of these, and says how many lines there are then.
fn push_call(
    alloc: Global,
    desk: &Desk,
    counters: &Counters,
    place: u32,
    lines: u64,
    text: &mut Vec<u8>,
) -> Result<u64, AllocError>
    requires counted { HasCounted desk.now counters.now }
    requires told { HasTold desk.now place lines text.old.items }
    requires few { place < 65536 }
    ensures { IfOk result (λ count. HasTold desk.now (place + 1) count text.new.items) }
{
    let number = place + 1;
    let Some(call) = desk.call(number) else {
        return Ok(lines);
    };
    if !desk.waits(number) {
        return Ok(lines);
    }
    let object = desk.accepted().object();
    let reasons = reasons_by(alloc, &object.paths, counters, call.op())?;
    let waiting = WaitingRow {
        number: number as u64,
        session: call.session() as u64,
        operation: call.op(),
        seconds: None,
    };
    push_waits(text, object, waiting, &reasons)?;
    Ok(lines + reasons.len() as u64)
}

/// The lines of all calls that wait, one for each node that refuses one of them, in order, and how many they are. The
/// error is that memory was refused.
pub fn wait_lines(alloc: Global, desk: &Desk) -> Result<WaitLines, AllocError>
    ensures { IfOk result (λ lines. AreWaitLines desk.now lines.count lines.text.items) }
{
    // Its board is sound: it has at most so many calls.
    desk.history();
    let counters = counters_of(alloc, desk)?;
    let mut text = Vec::new(alloc);
    let mut count = 0;
    for place in 0..MOST_CALLS {
        count = push_call(alloc, desk, &counters, place, count, &mut text)?;
    }
    Ok(WaitLines { count, text })
}

// Adds the answer to `who`.
fn answer_who(alloc: Global, desk: &Desk, out: &mut Vec<u8>) -> Result<(), AllocError>
    ensures { OnOk result ((text : List ℕ) × (out.new.items ≡ out.old.items ++ text)
        × IsTold desk.now who_asked text) }
{
    let lines = wait_lines(alloc, desk)?;
    push_who(out, lines.count)?;
    out.extend_from_slice(&lines.text)?;
    Ok(())
}

/// Adds the answer to a question about the calls of a desk. The error is that memory was refused.
pub fn push_answer(
    alloc: Global,
    desk: &Desk,
    question: Question,
    out: &mut Vec<u8>,
) -> Result<(), AllocError>
    ensures { OnOk result ((text : List ℕ) × (out.new.items ≡ out.old.items ++ text)
        × IsTold desk.now (view_of question) text) }
{
    match question {
        Question::Why(number) => {
            answer_why(alloc, desk, number, out)?;
            Ok(())
        }
        Question::Who => {
            answer_who(alloc, desk, out)?;
            Ok(())
        }
        Question::List => {
            push_only(out, desk.accepted().object())?;
            Ok(())
        }
    }
}
