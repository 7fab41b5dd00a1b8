//! Whether what is recovered behind a crash is what a crash may leave.

ghost use Rattle.std.specs.Prelude.{◌∷◌, [], IfOk, OnOk};
ghost use Rattle.crash_trial.specs.Standings.{Follows, StandsBehind, IsFrontOf, IsFileOf, IsJudged};

use crate::crash::{SurvivingBytes, crash};
use crate::device::Happened;
use decl_core::object::Object;
use keep_loop::taken::{lines_told, push_plain};
use recover_core::recover::{House, Recovered};
use recover_core::text_recover::recover;
use std::alloc::{AllocError, Global};
use taken_core::taken::take_file;

/// What stands in a journal behind some calls.
#[derive(Drop)]
pub struct Standing {
    /// How many times the file was begun anew.
    pub epochs: u64,
    /// All lines: the front, and what was added since, without those by which a file checks itself.
    pub text: Vec<u8>,
    /// So many bytes of them are on the disk for certain.
    pub stored: usize,
}

/// What a crash came to.
#[derive(Drop)]
pub enum CrashOutcome {
    /// It left a part of the lines with all that was stored, and this was recovered.
    Right(Recovered),
    /// It did not; this is wrong.
    Wrong(&'static str),
}

// One call more.
pub(crate) fn follow(
    alloc: Global,
    standing: &mut Standing,
    call: &Happened,
) -> Result<(), AllocError>
    ensures { OnOk result (Follows (call.now ∷ []) standing.old standing.new) }
{
    match call {
        Happened::Wrote(_, bytes) => push_plain(&mut standing.text, bytes),
        Happened::Stored => {
            standing.stored = standing.text.len();
            Ok(())
        }
        Happened::Replaced(bytes) => {
            standing.text = lines_told(alloc, bytes)?;
            standing.stored = standing.text.len();
            standing.epochs = standing.epochs.saturating_add(1);
            Ok(())
        }
        Happened::Refused => Ok(()),
    }
}

// So many more.
fn follow_all(
    alloc: Global,
    standing: &mut Standing,
    happened: &[Happened],
) -> Result<(), AllocError>
    ensures { OnOk result (Follows happened.now standing.old standing.new) }
{
    match happened {
        [] => Ok(()),
        [call, happened @ ..] => {
            follow(alloc, standing, call)?;
            follow_all(alloc, standing, happened)
        }
    }
}

/// What stands in a journal behind these calls, the oldest first. The error is that memory was refused.
pub fn standing_behind(alloc: Global, happened: &[Happened]) -> Result<Standing, AllocError>
    ensures { IfOk result (StandsBehind happened.now) }
{
    let mut standing = Standing {
        epochs: 0,
        text: Vec::new(alloc),
        stored: 0,
    };
    follow_all(alloc, &mut standing, happened)?;
    Ok(standing)
}

// What is recovered of lines that a crash left.
fn judge_lines(
    alloc: Global,
    object: &Object,
    house: House,
    standing: &Standing,
    lines: &[u8],
) -> Result<CrashOutcome, AllocError>
    ensures { IfOk result (IsFrontOf standing.now lines.now) }
{
    if !standing.text.starts_with(lines) {
        return Ok(CrashOutcome::Wrong("a line that was not written"));
    }
    match recover(alloc, object, house, lines)? {
        Err(_) => Ok(CrashOutcome::Wrong("it is refused")),
        Ok(recovered) => {
            if recovered.length < standing.stored {
                return Ok(CrashOutcome::Wrong("a stored line is gone"));
            }
            Ok(CrashOutcome::Right(recovered))
        }
    }
}

// What is recovered of a file that a crash left.
fn judge_file(
    alloc: Global,
    object: &Object,
    house: House,
    standing: &Standing,
    left: &[u8],
) -> Result<CrashOutcome, AllocError>
    ensures { IfOk result (IsFileOf standing.now left.now) }
{
    match take_file(alloc, left, false)? {
        Err(_) => Ok(CrashOutcome::Wrong("it is not taken")),
        Ok(_) => {
            let lines = lines_told(alloc, left)?;
            judge_lines(alloc, object, house, standing, &lines)
        }
    }
}

/// Draws a crash behind these calls, the oldest first, recovers, and says what came of it. The error is that memory was
/// refused.
pub fn judge(
    alloc: Global,
    object: &Object,
    house: House,
    file: &[u8],
    happened: &[Happened],
    how: &SurvivingBytes,
) -> Result<CrashOutcome, AllocError>
    ensures { IfOk result (IsJudged file.now happened.now) }
{
    let standing = standing_behind(alloc, happened)?;
    match crash(alloc, file, happened, how)? {
        None => Ok(CrashOutcome::Wrong("a write past the end of the file")),
        Some(left) => judge_file(alloc, object, house, &standing, &left),
    }
}
