//! The answer to `why N`.

ghost use Rattle.std.specs.Prelude.{◌≡◌, ◌++◌, ◌∷◌, [], ◌+◌, map, flat_map, OnOk};
ghost use Rattle.decl_core.specs.ObjectMap.{object_of};
ghost use Rattle.word_core.specs.Words.{words_text, behind_word};
ghost use Rattle.stuck_core.specs.ReasonViews.{why_of, whys_of};
ghost use Rattle.stuck_core.specs.Why.{state_word, state_line, name_word, needs_words, path_line, run_line, why_line, why_text};

use crate::reason::{Lack, Reason};
use decl_core::object::Object;
use path_tree::node::OpId;
use std::alloc::AllocError;
use word_core::event::name_of;
use word_core::line::{push_line, push_more, push_words};
use word_core::word::Written;

/// What a call is that does not wait.
#[derive(Clone, Copy, Debug, PartialEq, Eq)]
pub enum CallStatus {
    /// It runs.
    Running,
    /// It has ended, or was cancelled.
    Ended,
    /// There is no such call.
    Unknown,
}

/// A call that runs: its number, its session, and its operation by the place in the object, from 0.
#[derive(Clone, Copy, Debug, PartialEq, Eq)]
pub struct RunningRow {
    /// Its number.
    pub number: u64,
    /// Its session.
    pub session: u64,
    /// Its operation.
    pub operation: OpId,
}

fn word_of(state: CallStatus) -> &'static [u8]
    ensures { result.now ≡ state_word state }
{
    match state {
        CallStatus::Running => b"Running",
        CallStatus::Ended => b"Ended",
        CallStatus::Unknown => b"Unknown",
    }
}

/// Adds `why N Running`, `why N Ended` or `why N Unknown`: the call of this number does not wait.
pub fn push_state(out: &mut Vec<u8>, number: u64, state: CallStatus) -> Result<(), AllocError>
    ensures { OnOk result (out.new.items ≡ out.old.items ++ state_line number state) }
{
    push_line(
        out,
        &[
            Written::Bare(b"why"),
            Written::Integer(number),
            Written::Bare(word_of(state)),
        ],
    )
}

// Adds `path P node K full` or `path P node K turn J`, and `needs`.
fn push_place(out: &mut Vec<u8>, reason: &Reason) -> Result<(), AllocError>
    ensures { OnOk result (out.new.items ≡ out.old.items ++ words_text (needs_words (why_of reason.now))) }
{
    match reason.lack {
        Lack::Full => push_words(
            out,
            &[
                Written::Bare(b"path"),
                Written::Integer(reason.path as u64),
                Written::Bare(b"node"),
                Written::Integer(reason.node as u64),
                Written::Bare(b"full"),
                Written::Bare(b"needs"),
            ],
        ),
        Lack::Turn(turn) => push_words(
            out,
            &[
                Written::Bare(b"path"),
                Written::Integer(reason.path as u64),
                Written::Bare(b"node"),
                Written::Integer(reason.node as u64),
                Written::Bare(b"turn"),
                Written::Integer(turn as u64),
                Written::Bare(b"needs"),
            ],
        ),
    }
}

// Adds the names of operations, each behind a space.
fn push_names(out: &mut Vec<u8>, object: &Object, operations: &[OpId]) -> Result<(), AllocError>
    ensures { OnOk result (out.new.items ≡ out.old.items
        ++ behind_word (map (name_word (object_of object.now)) operations.now)) }
{
    match operations {
        [] => Ok(()),
        [first, more @ ..] => {
            push_more(out, &[Written::Bare(name_of(object, *first))])?;
            push_names(out, object, more)
        }
    }
}

// Adds the line of a node that refuses the call.
fn push_path(out: &mut Vec<u8>, object: &Object, reason: &Reason) -> Result<(), AllocError>
    ensures { OnOk result (out.new.items ≡ out.old.items ++ path_line (object_of object.now) (why_of reason.now)) }
{
    push_place(out, reason)?;
    push_names(out, object, &reason.needs)?;
    out.push(b'\n')?;
    Ok(())
}

// Adds these lines, in order.
fn push_paths(out: &mut Vec<u8>, object: &Object, reasons: &[Reason]) -> Result<(), AllocError>
    ensures { OnOk result (out.new.items ≡ out.old.items
        ++ flat_map (path_line (object_of object.now)) (whys_of reasons.now)) }
{
    match reasons {
        [] => Ok(()),
        [first, more @ ..] => {
            push_path(out, object, first)?;
            push_paths(out, object, more)
        }
    }
}

// Adds `runs M sS OP`.
fn push_run(out: &mut Vec<u8>, object: &Object, run: RunningRow) -> Result<(), AllocError>
    ensures { OnOk result (out.new.items ≡ out.old.items ++ run_line (object_of object.now) run) }
{
    push_line(
        out,
        &[
            Written::Bare(b"runs"),
            Written::Integer(run.number),
            Written::Session(run.session),
            Written::Bare(name_of(object, run.operation)),
        ],
    )
}

// Adds these lines, in order.
fn push_runs(out: &mut Vec<u8>, object: &Object, runs: &[RunningRow]) -> Result<(), AllocError>
    ensures { OnOk result (out.new.items ≡ out.old.items ++ flat_map (run_line (object_of object.now)) runs.now) }
{
    match runs {
        [] => Ok(()),
        [first, more @ ..] => {
            push_run(out, object, *first)?;
            push_runs(out, object, more)
        }
    }
}

// Adds `why N Waiting L`.
fn push_waiting(out: &mut Vec<u8>, number: u64, lines: u64) -> Result<(), AllocError>
    ensures { OnOk result (out.new.items ≡ out.old.items ++ why_line number lines) }
{
    push_line(
        out,
        &[
            Written::Bare(b"why"),
            Written::Integer(number),
            Written::Bare(b"Waiting"),
            Written::Integer(lines),
        ],
    )
}

/// Adds `why N Waiting L`, and L lines: one for each node that refuses the call of this number, with what it needs, and
/// one for each of the calls that run there.
pub fn push_why(
    out: &mut Vec<u8>,
    object: &Object,
    number: u64,
    reasons: &[Reason],
    runs: &[RunningRow],
) -> Result<(), AllocError>
    ensures { OnOk result (out.new.items ≡ out.old.items
        ++ why_text (object_of object.now) number (whys_of reasons.now) runs.now) }
{
    push_waiting(out, number, reasons.len() as u64 + runs.len() as u64)?;
    push_paths(out, object, reasons)?;
    push_runs(out, object, runs)
}
