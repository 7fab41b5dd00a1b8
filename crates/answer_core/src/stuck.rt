//! `pathserve check --stuck` over any reader and writer: what it writes, and the exit status that it ends with.

ghost use Rattle.std.specs.Prelude.{◌≡◌, ◌≤◌, ◌⊎◌, ℕ, Bool, List, IfOk, IfErr, IfSome, IsErrOf, take};
ghost use Rattle.std.specs.Io.KnownBytes.{Appends, Keeps};
ghost use Rattle.check_core.specs.declared.report.CheckEnd.{CheckEnd};
ghost use Rattle.check_core.specs.StuckReport.{IsStuckCheck};
ghost use Rattle.answer_core.specs.Status.{stuck_status, IsFault};
ghost use Rattle.answer_core.specs.Telling.{IsHinted};
ghost use Rattle.answer_core.specs.declared.explanation.Telling.TheVariants.{Nothing, Hint};
ghost use Rattle.answer_core.specs.declared.failure.ToolFailure.TheVariants.{ReadFault, WriteFault, Memory};

use crate::answer::{REFUSED, status_of_check};
use crate::explanation::{Telling, explained_stuck};
use crate::failure::ToolFailure;
use crate::source::read_source;
use check_core::stuck_report::{StuckEnd, stuck_report};
use std::alloc::Global;
use std::io::{Read, Write};

fn status_of_stuck(ended: StuckEnd) -> u8
    ensures is { result ≡ stuck_status ended.end ended.lost }
    ensures small { result ≤ 1 }
{
    if ended.lost {
        REFUSED
    } else {
        status_of_check(ended.end)
    }
}

// What `check --stuck` answers of a source: its report, and the exit status.
fn check_text<W: Write>(alloc: Global, source: &[u8], writer: &mut W) -> Result<u8, ToolFailure>
    ensures ended { IfOk result (λ status. (end : CheckEnd) × (lost : Bool) × (written : List ℕ)
        × Appends (W.contents writer.old) (W.contents writer.new) written × IsStuckCheck source.now end lost written
        × (status ≡ stuck_status end lost)) }
    ensures status { IfOk result (λ status. status ≤ 1) }
    ensures fault { IfErr result (λ failure. (failure ≡ WriteFault) ⊎ (failure ≡ Memory)) }
    ensures cut { IsErrOf result WriteFault → (end : CheckEnd) × (lost : Bool) × (whole : List ℕ) × (count : ℕ)
        × IsStuckCheck source.now end lost whole
        × Appends (W.contents writer.old) (W.contents writer.new) (take count whole) }
    ensures memory { IsErrOf result Memory → Keeps (W.contents writer.old) (W.contents writer.new) }
{
    match stuck_report(alloc, source, writer) {
        Ok(ended) => Ok(status_of_stuck(ended)),
        Err(fault) => Err(ToolFailure::from(fault)),
    }
}

/// `pathserve check --stuck`: checks the objects of a source, says what can be lost, waited for and stuck, and gives the
/// exit status: 0 where no object is refused and no operation is lost, else 1, also where the source is no file of
/// objects. Then `error` gets why the source of the file is refused, or its object loses an operation, as far as that is
/// to be told; what is written to `writer`, and the exit status, are what they are without it.
///
/// A failure is `ReadFault`, `WriteFault` or `Memory`. A `WriteFault` leaves a front of the report, the others
/// leave nothing.
pub fn check_stuck<R: Read + Drop, W: Write, E: Write>(
    alloc: Global,
    reader: R,
    writer: &mut W,
    telling: Telling,
    file: &str,
    error: &mut E,
) -> Result<u8, ToolFailure>
    ensures ended { IfOk result (λ status. IfSome (R.remaining reader) (λ text. (end : CheckEnd) × (lost : Bool)
        × (written : List ℕ) × Appends (W.contents writer.old) (W.contents writer.new) written
        × IsStuckCheck text end lost written × (status ≡ stuck_status end lost))) }
    ensures status { IfOk result (λ status. status ≤ 1) }
    ensures fault { IfErr result IsFault }
    ensures cut { IsErrOf result WriteFault →
        IfSome (R.remaining reader) (λ text. (end : CheckEnd) × (lost : Bool) × (whole : List ℕ) × (count : ℕ)
        × IsStuckCheck text end lost whole
        × Appends (W.contents writer.old) (W.contents writer.new) (take count whole)) }
    ensures unread { IsErrOf result ReadFault → Keeps (W.contents writer.old) (W.contents writer.new) }
    ensures memory { IsErrOf result Memory → Keeps (W.contents writer.old) (W.contents writer.new) }
    ensures unasked { telling ≡ Nothing → Keeps (E.contents error.old) (E.contents error.new) }
    ensures hint { telling ≡ Hint → IsHinted (E.contents error.old) (E.contents error.new) }
{
    let source = match read_source(alloc, reader) {
        Ok(source) => source,
        Err(error) => return Err(ToolFailure::from(error)),
    };
    let ended = check_text(alloc, &source, writer);
    explained_stuck(alloc, ended, telling, file, &source, error)
}
