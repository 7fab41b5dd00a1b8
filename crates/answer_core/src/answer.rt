//! The subcommands over any reader and writer: what they write, and the exit status that they end with.

ghost use Rattle.std.specs.Prelude.{◌≡◌, ◌≤◌, ◌⊎◌, ℕ, List, IfOk, IfErr, IfSome, IsErrOf, take};
ghost use Rattle.std.specs.Io.KnownBytes.{Appends, Consumes, Keeps};
ghost use Rattle.value_core.specs.declared.machine.LinesEnd.{LinesEnd};
ghost use Rattle.path_count.specs.Run.{IsRun, IsFront, IsRunSoFar};
ghost use Rattle.check_core.specs.Report.{IsCheck};
ghost use Rattle.check_core.specs.declared.report.CheckEnd.{CheckEnd};
ghost use Rattle.answer_core.specs.Status.{paths_status, check_status, IsFault};
ghost use Rattle.answer_core.specs.Telling.{IsHinted};
ghost use Rattle.answer_core.specs.declared.explanation.Telling.TheVariants.{Nothing, Hint};
ghost use Rattle.answer_core.specs.declared.failure.ToolFailure.TheVariants.{ReadFault, WriteFault, Memory};

use crate::explanation::{Telling, explained};
use crate::failure::ToolFailure;
use crate::source::read_source;
use check_core::report::{CheckEnd, check_report};
use path_count::paths::{PathsEnd, run_paths};
use std::alloc::Global;
use std::io::{Read, Write};

// The exit status of a run that was accepted, and of one that was refused.
pub const ACCEPTED: u8 = 0;

pub const REFUSED: u8 = 1;

fn status_of_paths(end: PathsEnd) -> u8
    ensures is { result ≡ paths_status end }
    ensures small { result ≤ 1 }
{
    match end {
        PathsEnd::Whole => ACCEPTED,
        PathsEnd::Stopped(_) => REFUSED,
    }
}

/// The exit status of a check that ended so: 0 where no object was refused, else 1.
pub fn status_of_check(end: CheckEnd) -> u8
    ensures is { result ≡ check_status end }
    ensures small { result ≤ 1 }
{
    match end {
        CheckEnd::Counted { refused, .. } => { if refused == 0 { ACCEPTED } else { REFUSED } }
        CheckEnd::Faulty => REFUSED,
    }
}

/// `pathserve paths`: answers the lines of a reader, and gives the exit status: 0 where each was answered,
/// 1 where one was refused and ended the run.
///
/// A failure is `ReadFault`, `WriteFault` or `Memory`, and leaves a front of the answers; a `ReadFault` leaves
/// those to all lines that had come whole.
pub fn answer_lines<R: Read, W: Write>(
    alloc: Global,
    reader: &mut R,
    writer: &mut W,
) -> Result<u8, ToolFailure>
    ensures ended { IfOk result (λ status.
        IfSome (R.remaining reader.old) (λ text. (end : LinesEnd) × (written : List ℕ)
        × Appends (W.contents writer.old) (W.contents writer.new) written × IsRun text end written
        × (status ≡ paths_status end))) }
    ensures status { IfOk result (λ status. status ≤ 1) }
    ensures fault { IfErr result IsFault }
    ensures cut { IfErr result (λ failure. IsFault failure × IfSome (R.remaining reader.old) (λ text. (written : List ℕ)
        × Appends (W.contents writer.old) (W.contents writer.new) written × IsFront text written)) }
    ensures unread { IsErrOf result ReadFault →
        (text : List ℕ) × (written : List ℕ) × Consumes (R.remaining reader.old) (R.remaining reader.new) text
        × Appends (W.contents writer.old) (W.contents writer.new) written × IsRunSoFar text written }
{
    match run_paths(alloc, reader, writer) {
        Ok(end) => Ok(status_of_paths(end)),
        Err(fault) => Err(ToolFailure::from(fault)),
    }
}

// What `check` answers of a source: its report, and the exit status.
fn check_text<W: Write>(alloc: Global, source: &[u8], writer: &mut W) -> Result<u8, ToolFailure>
    ensures ended { IfOk result (λ status. (end : CheckEnd) × (written : List ℕ)
        × Appends (W.contents writer.old) (W.contents writer.new) written × IsCheck source.now end written
        × (status ≡ check_status end)) }
    ensures status { IfOk result (λ status. status ≤ 1) }
    ensures fault { IfErr result (λ failure. (failure ≡ WriteFault) ⊎ (failure ≡ Memory)) }
    ensures cut { IsErrOf result WriteFault → (end : CheckEnd) × (whole : List ℕ) × (count : ℕ)
        × IsCheck source.now end whole × Appends (W.contents writer.old) (W.contents writer.new) (take count whole) }
    ensures memory { IsErrOf result Memory → Keeps (W.contents writer.old) (W.contents writer.new) }
{
    match check_report(alloc, source, writer) {
        Ok(end) => Ok(status_of_check(end)),
        Err(fault) => Err(ToolFailure::from(fault)),
    }
}

/// `pathserve check`: checks the objects of a source, and gives the exit status: 0 where none is refused,
/// 1 where one is and where the source is no file of objects. Then `error` gets why the source of the file is refused,
/// as far as that is to be told; what is written to `writer`, and the exit status, are what they are without it.
///
/// A failure is `ReadFault`, `WriteFault` or `Memory`. A `WriteFault` leaves a front of the report, the others
/// leave nothing.
pub fn check_source<R: Read + Drop, W: Write, E: Write>(
    alloc: Global,
    reader: R,
    writer: &mut W,
    telling: Telling,
    file: &str,
    error: &mut E,
) -> Result<u8, ToolFailure>
    ensures ended { IfOk result (λ status. IfSome (R.remaining reader) (λ text. (end : CheckEnd) × (written : List ℕ)
        × Appends (W.contents writer.old) (W.contents writer.new) written × IsCheck text end written
        × (status ≡ check_status end))) }
    ensures status { IfOk result (λ status. status ≤ 1) }
    ensures fault { IfErr result IsFault }
    ensures cut { IsErrOf result WriteFault →
        IfSome (R.remaining reader) (λ text. (end : CheckEnd) × (whole : List ℕ) × (count : ℕ)
        × IsCheck text end whole × Appends (W.contents writer.old) (W.contents writer.new) (take count whole)) }
    ensures unread { IsErrOf result ReadFault → Keeps (W.contents writer.old) (W.contents writer.new) }
    ensures memory { IsErrOf result Memory → Keeps (W.contents writer.old) (W.contents writer.new) }
    ensures unasked { telling ≡ Nothing → Keeps (E.contents error.old) (E.contents error.new) }
    ensures hint { telling ≡ Hint → IsHinted (E.contents error.old) (E.contents error.new) }
{
    let source = match read_source(alloc, reader) {
        Ok(source) => source,
        Err(error) => return Err(ToolFailure::from(error)),
    };
    let ended = check_text(alloc, &source, writer);
    explained(alloc, ended, telling, file, &source, None, error)
}
