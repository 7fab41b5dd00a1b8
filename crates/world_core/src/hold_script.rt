//! Scripts over one object with holds.

ghost use Rattle.std.specs.Prelude.{◌≡◌, ◌++◌, [], List, ℕ, IfOk, IfSome, OnErr, IsErrOf, unwrap_or};
ghost use Rattle.std.specs.Io.KnownBytes.{Appends, Consumes};
ghost use Rattle.value_core.specs.declared.machine.LinesFault.TheVariants.{ReadFault};
ghost use Rattle.decl_core.specs.HoldMap.{holds_of};
ghost use Rattle.world_core.specs.Run.{end_of as end_in};
ghost use Rattle.world_core.specs.HoldRun.{IsHeldScript, IsHeldFront, IsHeldScriptSoFar};

use crate::machine::HeldScript;
use crate::script::{ScriptEnd, ScriptFault};
use decl_core::analyse::Accepted;
use decl_core::hold::Hold;
use std::alloc::Global;
use std::io::{Read, Write};
use value_core::{LinesEnd, LinesFault, run_lines};

// How a script ended whose lines ended so.
fn end_of(end: LinesEnd) -> ScriptEnd
    ensures { result ≡ end_in end }
{
    match end {
        LinesEnd::Whole => ScriptEnd::Whole,
        LinesEnd::Stopped(line) => ScriptEnd::BadLine(line),
    }
}

/// Answers the lines of a script over a new world of an object with these holds. Line 1 is `object NAME` with its name,
/// in any case, and has no answer.
///
/// A text without any line has no line 1: it is `Whole`, and nothing is written. The faults, in this order: `ReadFault`
/// where a read failed or the text had not ended after 16,777,216 reads, `WriteFault` where a write failed or took no
/// byte, `Memory` where the room for a line, an event or an answer was refused. A want of memory in the run of a body
/// is none of these: the call fails for it. After a fault a front of the answers is written, after a `ReadFault` those
/// to all lines that have come whole.
pub fn run_held_script<R: Read, W: Write>(
    alloc: Global,
    accepted: Accepted,
    rules: Vec<Hold>,
    reader: &mut R,
    writer: &mut W,
) -> Result<ScriptEnd, ScriptFault>
    // Of any reader: what was written is the script over the text that was read and what is known to be left.
    ensures any { IfOk result (λ end. (text : List ℕ) × (written : List ℕ)
        × Consumes (R.remaining reader.old) (R.remaining reader.new) text
        × Appends (W.contents writer.old) (W.contents writer.new) written
        × IsHeldScript accepted (holds_of rules.items) (text ++ unwrap_or (R.remaining reader.new) []) end written) }

    // Of a reader whose text is known: the script over that text, and after a fault a front of it.
    ensures known { IfOk result (λ end. IfSome (R.remaining reader.old) (λ text.
        (written : List ℕ) × Appends (W.contents writer.old) (W.contents writer.new) written
        × IsHeldScript accepted (holds_of rules.items) text end written)) }
    ensures fault { OnErr result (IfSome (R.remaining reader.old) (λ text.
        (written : List ℕ) × Appends (W.contents writer.old) (W.contents writer.new) written
        × IsHeldFront accepted (holds_of rules.items) text written)) }
    // Each line that has come whole is answered before the next read: any read may fail.
    ensures unread { IsErrOf result ReadFault →
        (text : List ℕ) × (written : List ℕ) × Consumes (R.remaining reader.old) (R.remaining reader.new) text
        × Appends (W.contents writer.old) (W.contents writer.new) written
        × IsHeldScriptSoFar accepted (holds_of rules.items) text written }
{
    let mut script = HeldScript::new(alloc, accepted, rules)?;
    let ended = run_lines(alloc, &mut script, reader, writer);
    script.end();
    match ended {
        Ok(end) => Ok(end_of(end)),
        Err(fault) => Err(fault),
    }
}
