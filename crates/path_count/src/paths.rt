//! The engine of `pathserve paths`: paths, starts and finishes, line by line.

mod calls;
mod command;
mod machine;
mod operations;
mod path_line;
mod words;

ghost use Rattle.std.specs.Prelude.{◌++◌, [], List, ℕ, IfOk, IfSome, OnErr, IsErrOf, unwrap_or};
ghost use Rattle.std.specs.Io.KnownBytes.{Appends, Consumes};
ghost use Rattle.value_core.specs.declared.machine.LinesFault.TheVariants.{ReadFault};
ghost use Rattle.path_count.specs.Run.{IsRun, IsFront, IsRunSoFar};

use machine::Paths;
use std::alloc::Global;
use std::io::{Read, Write};
use value_core::run_lines;
pub use value_core::{LinesEnd as PathsEnd, LinesFault as PathsFault};

/// Answers the lines of a text: line 1 names operations, the next lines give paths, and then
/// operations start and finish.
///
/// `Whole` says that the text ended and each line was answered, `Stopped(k)` that line k, counted from
/// 1, is outside the format or a path with a fault, and was told so. The faults, in this order:
/// `ReadFault` where a read failed or the text had not ended after 16,777,216 reads, `WriteFault` where
/// a write failed or took no byte, `Memory` where the room for a line, a path or an answer was refused.
/// After a fault a front of the answers is written, after a `ReadFault` those to all lines that have come
/// whole: they are written before the next read.
pub fn run_paths<R: Read, W: Write>(
    alloc: Global,
    reader: &mut R,
    writer: &mut W,
) -> Result<PathsEnd, PathsFault>
    // Of any reader: what was written is the run over the text that was read and what is known to be left.
    ensures any { IfOk result (λ end. (text : List ℕ) × (written : List ℕ)
        × Consumes (R.remaining reader.old) (R.remaining reader.new) text
        × Appends (W.contents writer.old) (W.contents writer.new) written
        × IsRun (text ++ unwrap_or (R.remaining reader.new) []) end written) }

    // Of a reader whose text is known: the run over that text, and after a fault a front of it.
    ensures known { IfOk result (λ end. IfSome (R.remaining reader.old) (λ text.
        (written : List ℕ) × Appends (W.contents writer.old) (W.contents writer.new) written
        × IsRun text end written)) }
    ensures fault { OnErr result (IfSome (R.remaining reader.old) (λ text.
        (written : List ℕ) × Appends (W.contents writer.old) (W.contents writer.new) written × IsFront text written)) }
    // Each line that has come whole is answered before the next read: any read may fail.
    ensures unread { IsErrOf result ReadFault →
        (text : List ℕ) × (written : List ℕ) × Consumes (R.remaining reader.old) (R.remaining reader.new) text
        × Appends (W.contents writer.old) (W.contents writer.new) written × IsRunSoFar text written }
{
    let mut machine = Paths::new(alloc)?;
    let end = run_lines(alloc, &mut machine, reader, writer)?;
    Ok(end)
}
