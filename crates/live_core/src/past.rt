//! Pasts, as lines tell them: a run of whole calls of one operation is one line.

ghost use Rattle.std.specs.Prelude.{◌≡◌, ◌++◌, ◌∷◌, [], IfOk, OnOk};
ghost use Rattle.path_count.specs.declared.past.PastEvent.TheVariants as event;
ghost use Rattle.live_core.specs.Past.{events_in, calls_of};

use path_count::past::PastEvent;
use path_tree::node::OpId;
use std::alloc::{AllocError, Global};

/// What a line of a past tells.
#[derive(Clone, Copy, Debug, PartialEq, Eq)]
pub enum PastRun {
    /// So many calls of the operation, 1 to 65,536, each of which started and ended before the next one.
    Calls(OpId, u32),
    /// A call of the operation started.
    Begins(OpId),
    /// A call of the operation ended.
    Ends(OpId),
}

// Adds the events of whole calls of an operation, so many.
fn push_calls(out: &mut Vec<PastEvent>, op: OpId, count: u32) -> Result<(), AllocError>
    ensures { OnOk result (out.new.items ≡ out.old.items ++ calls_of op count) }
{
    for done in 0..count {
        out.push(PastEvent::Start(op))?;
        out.push(PastEvent::End(op))?;
    }
    Ok(())
}

// Adds the events of a run.
fn push_run(out: &mut Vec<PastEvent>, run: &PastRun) -> Result<(), AllocError>
    ensures { OnOk result (out.new.items ≡ out.old.items ++ events_in (run.now ∷ [])) }
{
    match run {
        PastRun::Calls(op, count) => push_calls(out, *op, *count),
        PastRun::Begins(op) => {
            out.push(PastEvent::Start(*op))?;
            Ok(())
        }
        PastRun::Ends(op) => {
            out.push(PastEvent::End(*op))?;
            Ok(())
        }
    }
}

/// The events of a past that is told so, the oldest first. The error is that memory was refused.
pub fn events_of(alloc: Global, runs: &[PastRun]) -> Result<Vec<PastEvent>, AllocError>
    ensures { IfOk result (λ v. v.items ≡ events_in runs.now) }
{
    let mut out = Vec::new(alloc);
    for run in runs {
        push_run(&mut out, run)?;
    }
    Ok(out)
}

// Adds a whole call of an operation: to the last run, where that is one of its whole calls.
fn push_whole(out: &mut Vec<PastRun>, op: OpId) -> Result<(), AllocError>
    ensures { OnOk result (events_in out.new.items
        ≡ events_in out.old.items ++ event.Start op ∷ event.End op ∷ []) }
{
    match out.pop() {
        Some(PastRun::Calls(last, count)) => push_behind_calls(out, last, count, op),
        Some(other) => {
            out.push(other)?;
            out.push(PastRun::Calls(op, 1))?;
            Ok(())
        }
        None => {
            out.push(PastRun::Calls(op, 1))?;
            Ok(())
        }
    }
}

// Adds whole calls, so many, and one of this operation behind them.
fn push_behind_calls(
    out: &mut Vec<PastRun>,
    last: OpId,
    count: u32,
    op: OpId,
) -> Result<(), AllocError>
    ensures { OnOk result (events_in out.new.items
        ≡ (events_in out.old.items ++ calls_of last count) ++ event.Start op ∷ event.End op ∷ []) }
{
    if last == op && count < 65_536 {
        out.push(PastRun::Calls(op, count + 1))?;
        return Ok(());
    }
    out.push(PastRun::Calls(last, count))?;
    out.push(PastRun::Calls(op, 1))?;
    Ok(())
}

// Adds the end of a call: where the last that was told is the start of one of its operation, that is a whole call.
fn push_end(out: &mut Vec<PastRun>, op: OpId) -> Result<(), AllocError>
    ensures { OnOk result (events_in out.new.items ≡ events_in out.old.items ++ event.End op ∷ []) }
{
    match out.pop() {
        Some(PastRun::Begins(begun)) => push_end_behind(out, begun, op),
        Some(other) => {
            out.push(other)?;
            out.push(PastRun::Ends(op))?;
            Ok(())
        }
        None => {
            out.push(PastRun::Ends(op))?;
            Ok(())
        }
    }
}

// Adds the start of a call, and behind it the end of one.
fn push_end_behind(out: &mut Vec<PastRun>, begun: OpId, op: OpId) -> Result<(), AllocError>
    ensures { OnOk result (events_in out.new.items
        ≡ (events_in out.old.items ++ event.Start begun ∷ []) ++ event.End op ∷ []) }
{
    if begun == op {
        return push_whole(out, op);
    }
    out.push(PastRun::Begins(begun))?;
    out.push(PastRun::Ends(op))?;
    Ok(())
}

// Adds an event.
fn push_event(out: &mut Vec<PastRun>, event: PastEvent) -> Result<(), AllocError>
    ensures { OnOk result (events_in out.new.items ≡ events_in out.old.items ++ event ∷ []) }
{
    match event {
        PastEvent::Start(op) => {
            out.push(PastRun::Begins(op))?;
            Ok(())
        }
        PastEvent::End(op) => push_end(out, op),
    }
}

/// How a past is told: whole calls of one operation that follow each other are one run. The error is that memory was
/// refused.
pub fn runs_of(alloc: Global, past: &[PastEvent]) -> Result<Vec<PastRun>, AllocError>
    ensures { IfOk result (λ v. events_in v.items ≡ past.now) }
{
    let mut out = Vec::new(alloc);
    for place in 0..past.len() {
        push_event(&mut out, past[place])?;
    }
    Ok(out)
}
