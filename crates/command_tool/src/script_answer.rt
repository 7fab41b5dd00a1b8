//! `pathserve run` over any reader and writer: what it writes, and the exit status that it ends with.

ghost use Rattle.std.specs.Prelude.{◌≡◌, ◌≤◌, ◌++◌, ℕ, List, IfOk, IfErr, IfSome, take};
ghost use Rattle.std.specs.Io.KnownBytes.{Appends};
ghost use Rattle.world_core.specs.Run.{IsScript, IsFront};
ghost use Rattle.world_core.specs.declared.script.ScriptEnd.{ScriptEnd as End};
ghost use Rattle.answer_core.specs.Status.{IsFault};
ghost use Rattle.command_tool.specs.ScriptRun.{IsScriptRun, IsScriptFront, script_status};

use crate::run_explanation::explained_script;
use answer_core::answer::{ACCEPTED, REFUSED};
use answer_core::explanation::Telling;
use answer_core::failure::ToolFailure;
use check_core::head::read_head;
use check_core::open::{OpenedScript, open_script};
use decl_core::analyse::Accepted;
use std::alloc::Global;
use std::io::{Read, Write};
use value_core::write_whole;
use world_core::script::{ScriptEnd, run_script};

/// The exit status of a script that ended so: 0 where each line was answered, 1 where a bad line ended it.
pub fn status_of_script(end: ScriptEnd) -> u8
    ensures is { result ≡ script_status end }
    ensures small { result ≤ 1 }
{
    match end {
        ScriptEnd::Whole => ACCEPTED,
        ScriptEnd::BadLine(_) => REFUSED,
    }
}

// Runs a script whose first bytes have been read.
fn run_on<R: Read, W: Write>(
    alloc: Global,
    accepted: Accepted,
    head: &[u8],
    reader: &mut R,
    writer: &mut W,
) -> Result<u8, ToolFailure>
    ensures ended { IfOk result (λ status. IfSome (R.remaining reader.old) (λ rest. (end : End) × (written : List ℕ)
        × Appends (W.contents writer.old) (W.contents writer.new) written
        × IsScript accepted (head.now ++ rest) end written × (status ≡ script_status end))) }
    ensures status { IfOk result (λ status. status ≤ 1) }
    ensures fault { IfErr result IsFault }
    ensures cut { IfErr result (λ failure. IsFault failure × IfSome (R.remaining reader.old) (λ rest. (written : List ℕ)
        × Appends (W.contents writer.old) (W.contents writer.new) written
        × IsFront accepted (head.now ++ rest) written)) }
{
    let mut text = head.chain(reader);
    match run_script(alloc, accepted, &mut text, writer) {
        Ok(end) => Ok(status_of_script(end)),
        Err(fault) => Err(ToolFailure::from(fault)),
    }
}

/// Writes the line that says why there is nothing to run on, and gives the exit status, 1.
///
/// A failure is `WriteFault`, and leaves a front of the line.
pub fn tell<W: Write>(line: &[u8], writer: &mut W) -> Result<u8, ToolFailure>
    ensures ended { IfOk result (λ status. Appends (W.contents writer.old) (W.contents writer.new) line.now
        × (status ≡ REFUSED)) }
    ensures status { IfOk result (λ status. status ≡ 1) }
    ensures fault { IfErr result IsFault }
    ensures cut { IfErr result (λ failure. IsFault failure
        × ((count : ℕ) × Appends (W.contents writer.old) (W.contents writer.new) (take count line.now))) }
{
    match write_whole(writer, line) {
        Ok(()) => Ok(REFUSED),
        Err(fault) => Err(ToolFailure::from(fault)),
    }
}

/// `pathserve run`: runs a script on the object of a source that its first line names, and gives the exit status: 0
/// where each line was answered, 1 where there is nothing to run on, or a bad line ended the script.
///
/// Where it is not, `error` gets why the source of the file, or the object, is refused, as far as that is to be told;
/// what is written to `writer`, and the exit status, are what they are without it.
///
/// A failure is `ReadFault`, `WriteFault` or `Memory`, and leaves a front of the answers. A `ReadFault` leaves those to
/// all lines that had come whole, but nothing where it came before the first line was whole.
pub fn answer_script<R: Read, W: Write, E: Write>(
    alloc: Global,
    source: &[u8],
    reader: &mut R,
    writer: &mut W,
    telling: Telling,
    file: &str,
    error: &mut E,
) -> Result<u8, ToolFailure>
    ensures ended { IfOk result (λ status. IfSome (R.remaining reader.old) (λ text. (written : List ℕ)
        × Appends (W.contents writer.old) (W.contents writer.new) written
        × IsScriptRun source.now text status written)) }
    ensures status { IfOk result (λ status. status ≤ 1) }
    ensures fault { IfErr result IsFault }
    ensures cut { IfErr result (λ failure. IsFault failure × IfSome (R.remaining reader.old) (λ text. (written : List ℕ)
        × Appends (W.contents writer.old) (W.contents writer.new) written × IsScriptFront source.now text written)) }
{
    let head = match read_head(alloc, reader) {
        Ok(head) => head,
        Err(fault) => return Err(ToolFailure::from(fault)),
    };
    match open_script(alloc, source, &head) {
        Ok(OpenedScript::Ready(accepted)) => run_on(alloc, accepted, &head, reader, writer),
        Ok(OpenedScript::Told(line)) => {
            let ended = tell(&line, writer);
            explained_script(alloc, ended, telling, file, source, &head, error)
        }
        Err(_) => Err(ToolFailure::Memory),
    }
}
