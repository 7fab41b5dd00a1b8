//! Scripts over one object.

pub mod answer;
mod machine;
mod steps;

ghost use Rattle.std.specs.Prelude.{◌≡◌, ◌++◌, [], List, ℕ, IfOk, IfSome, OnErr, IsErrOf, unwrap_or};
ghost use Rattle.std.specs.Io.KnownBytes.{Appends, Consumes};
ghost use Rattle.value_core.specs.declared.machine.LinesFault.TheVariants.{ReadFault};
ghost use Rattle.world_core.specs.Run.{IsScript, IsFront, IsScriptSoFar, end_of as end_in};

use decl_core::analyse::Accepted;
use machine::Script;
use std::alloc::Global;
use std::io::{Read, Write};
pub use value_core::LinesFault as ScriptFault;
use value_core::{LinesEnd, run_lines};

/// How a script ended.
#[derive(Clone, Copy, Debug, PartialEq, Eq)]
pub enum ScriptEnd {
    /// The text ended, and each of its lines was answered.
    Whole,
    /// The line of this number, counted from 1, says nothing that a script may say, or is a first line that does not
    /// name the object. It was answered by `bad line K`, and ended the script.
    BadLine(u64),
}

// How a script ended whose lines ended so.
fn end_of(end: LinesEnd) -> ScriptEnd
    ensures { result ≡ end_in end }
{
    match end {
        LinesEnd::Whole => ScriptEnd::Whole,
        LinesEnd::Stopped(line) => ScriptEnd::BadLine(line),
    }
}

/// Answers the lines of a script over a new world of the object. Line 1 is `object NAME` with its name, in any case,
/// and has no answer.
///
/// A text without any line has no line 1: it is `Whole`, and nothing is written. The faults, in this order: `ReadFault`
/// where a read failed or the text had not ended after 16,777,216 reads, `WriteFault` where a write failed or took no
/// byte, `Memory` where the room for a line, an event or an answer was refused. A want of memory in the run of a body
/// is none of these: the call fails for it. After a fault a front of the answers is written, after a `ReadFault` those
/// to all lines that have come whole: they are written before the next read.
pub fn run_script<R: Read, W: Write>(
    alloc: Global,
    accepted: Accepted,
    reader: &mut R,
    writer: &mut W,
) -> Result<ScriptEnd, ScriptFault>
    // Of any reader: what was written is the script over the text that was read and what is known to be left.
    ensures any { IfOk result (λ end. (text : List ℕ) × (written : List ℕ)
        × Consumes (R.remaining reader.old) (R.remaining reader.new) text
        × Appends (W.contents writer.old) (W.contents writer.new) written
        × IsScript accepted (text ++ unwrap_or (R.remaining reader.new) []) end written) }

    // Of a reader whose text is known: the script over that text, and after a fault a front of it.
    ensures known { IfOk result (λ end. IfSome (R.remaining reader.old) (λ text.
        (written : List ℕ) × Appends (W.contents writer.old) (W.contents writer.new) written
        × IsScript accepted text end written)) }
    ensures fault { OnErr result (IfSome (R.remaining reader.old) (λ text.
        (written : List ℕ) × Appends (W.contents writer.old) (W.contents writer.new) written
        × IsFront accepted text written)) }
    // Each line that has come whole is answered before the next read: any read may fail.
    ensures unread { IsErrOf result ReadFault →
        (text : List ℕ) × (written : List ℕ) × Consumes (R.remaining reader.old) (R.remaining reader.new) text
        × Appends (W.contents writer.old) (W.contents writer.new) written × IsScriptSoFar accepted text written }
{
    let mut script = Script::new(alloc, accepted)?;
    let ended = run_lines(alloc, &mut script, reader, writer);
    script.end();
    match ended {
        Ok(end) => Ok(end_of(end)),
        Err(fault) => Err(fault),
    }
}
