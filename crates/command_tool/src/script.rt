//! `pathserve run`.

ghost use Rattle.std.specs.Prelude.{◌≡◌, ◌≤◌, IfErr, IfOk};
ghost use Rattle.answer_core.specs.Status.{IsFault};

use crate::holds::run_held;
use crate::run_explanation::explained_run;
use crate::script_answer::answer_script;
use answer_core::explanation::Telling;
use answer_core::failure::ToolFailure;
use answer_core::holds::refuse_faulty;
use answer_core::inputs::{Inputs, inputs_of};
use answer_core::lack::Wanted;
use answer_core::said::{telling_of, told_unread};
use command_line::request::Explain;
use decl_read::held_read::{Held, Look, look_at};
use note_core::files::Files;
use note_core::kept::CopyingReader;
use std::fs::File;
use std::io;

// Tells what a script ended with that could not be read to its end, and explains what ended it; this is handed on.
fn told_script(
    rt: &HostRuntime,
    ended: Result<u8, ToolFailure>,
    files: Files<'_>,
    source: &[u8],
    kept: &CopyingReader<File>,
    telling: Telling,
) -> Result<u8, ToolFailure>
    ensures { result ≡ ended }
{
    let ended = told_unread(rt, ended, Wanted::File, files.text, kept);
    explained_run(
        rt.alloc(),
        ended,
        telling,
        files,
        source,
        kept.text(),
        &mut rt.stderr(),
    )
}

// Runs a script on an object of a source in which none has holds.
fn run_plain(
    rt: &HostRuntime,
    files: Files<'_>,
    source: &[u8],
    kept: &mut CopyingReader<File>,
    telling: Telling,
) -> Result<u8, ToolFailure>
    ensures status { IfOk result (λ status. status ≤ 1) }
    ensures fault { IfErr result IsFault }
{
    let ended = answer_script(
        rt.alloc(),
        source,
        kept,
        &mut io::writer(rt),
        telling,
        files.source,
        &mut rt.stderr(),
    );
    told_script(rt, ended, files, source, kept, telling)
}

// Runs it on one of a source whose objects have holds.
fn run_ruled(
    rt: &HostRuntime,
    files: Files<'_>,
    held: Held,
    kept: &mut CopyingReader<File>,
    telling: Telling,
) -> Result<u8, ToolFailure>
    ensures status { IfOk result (λ status. status ≤ 1) }
    ensures fault { IfErr result IsFault }
{
    let Held {
        cut,
        objects,
        rules,
    } = held;
    let ended = run_held(
        rt.alloc(),
        &cut,
        objects,
        rules,
        kept,
        &mut io::writer(rt),
        telling,
        files.source,
        &mut rt.stderr(),
    );
    told_script(rt, ended, files, &cut, kept, telling)
}

/// `pathserve run`: runs the script in the second file on the object of the source in the first one that its first line
/// names, and gives the exit status: 0 where each line was answered, 1 where there is nothing to run on, or a bad line
/// ended the script.
///
/// A failure is, in this order: `ReadFault`, which is told, where the source cannot be opened or read, and where the script
/// cannot be opened; `Memory`, `ReadFault` of the script or `WriteFault`, the first that was met.
pub fn run_script(rt: &HostRuntime, files: Files<'_>, when: Explain) -> Result<u8, ToolFailure>
    ensures status { IfOk result (λ status. status ≤ 1) }
    ensures fault { IfErr result IsFault }
{
    let telling = telling_of(rt, when);
    let Inputs { source, mut kept } = inputs_of(rt, files, telling)?;
    match look_at(rt.alloc(), &source)? {
        Look::Plain => run_plain(rt, files, &source, &mut kept, telling),
        Look::Held(held) => run_ruled(rt, files, held, &mut kept, telling),
        Look::Faulty(fault) => refuse_faulty(
            rt.alloc(),
            &source,
            fault,
            telling,
            files.source,
            &mut io::writer(rt),
            &mut rt.stderr(),
        ),
    }
}
