//! `pathserve paths`.

ghost use Rattle.std.specs.Prelude.{◌≤◌, IfErr, IfOk};
ghost use Rattle.answer_core.specs.Status.{IsFault};

use answer_core::answer::answer_lines;
use answer_core::failure::ToolFailure;
use answer_core::lack::Wanted;
use answer_core::said::told_unread;
use note_core::kept::CopyingReader;
use std::io;

/// `pathserve paths`: answers the lines of standard input, and gives the exit status: 0 where each was answered, 1 where
/// one was refused and ended the run.
///
/// A failure is `ReadFault`, which is told, `WriteFault` or `Memory`, the first that was met.
pub fn run_paths(rt: &HostRuntime) -> Result<u8, ToolFailure>
    ensures status { IfOk result (λ status. status ≤ 1) }
    ensures fault { IfErr result IsFault }
{
    let mut kept = CopyingReader::new(rt.alloc(), rt.stdin(), 0);
    let ended = answer_lines(rt.alloc(), &mut kept, &mut io::writer(rt));
    told_unread(rt, ended, Wanted::Input, "", &kept)
}
