//! `pathserve check`.

ghost use Rattle.std.specs.Prelude.{◌≤◌, IfErr, IfOk};
ghost use Rattle.answer_core.specs.Status.{IsFault};

use crate::holds::check_held;
use answer_core::answer::{ACCEPTED, REFUSED, check_source};
use answer_core::explanation::Telling;
use answer_core::failure::ToolFailure;
use answer_core::inputs::open_file;
use answer_core::lack::Wanted;
use answer_core::said::{telling_of, told, told_unread};
use answer_core::source::read_source;
use answer_core::sources::{WithoutHolds, without_holds};
use answer_core::stuck::check_stuck;
use command_line::request::Explain;
use decl_read::held_read::{Look, look_at};
use note_core::kept::CopyingReader;
use note_core::pairs::explain_pairs;
use std::io;
use value_core::write_whole;

// `pathserve check` of a source that was read.
fn check_text(
    rt: &HostRuntime,
    source: Vec<u8>,
    path: &str,
    telling: Telling,
    stuck: bool,
) -> Result<u8, ToolFailure>
    ensures status { IfOk result (λ status. status ≤ 1) }
    ensures fault { IfErr result IsFault }
{
    if stuck {
        return match without_holds(rt, source, telling, path)? {
            WithoutHolds::Told(status) => Ok(status),
            WithoutHolds::Plain(source) => check_stuck(
                rt.alloc(),
                source.as_slice(),
                &mut io::writer(rt),
                telling,
                path,
                &mut rt.stderr(),
            ),
        };
    }
    match look_at(rt.alloc(), &source)? {
        Look::Held(held) => check_held(
            rt.alloc(),
            held,
            telling,
            path,
            &mut io::writer(rt),
            &mut rt.stderr(),
        ),
        Look::Faulty(_) => match without_holds(rt, source, telling, path)? {
            WithoutHolds::Told(status) => Ok(status),
            WithoutHolds::Plain(_) => Ok(REFUSED),
        },
        Look::Plain => check_source(
            rt.alloc(),
            source.as_slice(),
            &mut io::writer(rt),
            telling,
            path,
            &mut rt.stderr(),
        ),
    }
}

// What is said of each `a; b` of a source without a hold, where that is asked for.
fn pairs_of(rt: &HostRuntime, source: &[u8], path: &str, when: Explain) -> Vec<u8> {
    match when {
        Explain::Always => match explain_pairs(rt.alloc(), path.as_bytes(), source) {
            Ok(text) => text,
            Err(_) => Vec::new(rt.alloc()),
        },
        Explain::AtTerminal | Explain::Never => Vec::new(rt.alloc()),
    }
}

/// `pathserve check`: checks the objects of the file at this path, and gives the exit status: 0 where none is refused,
/// else 1, also where the source is no file of objects, and, where it is asked what can get stuck, where an operation is
/// lost.
///
/// A failure is, in this order: `ReadFault`, which is told, where the file cannot be opened or read; `Memory` or
/// `WriteFault`.
pub fn run_check(
    rt: &HostRuntime,
    path: &str,
    when: Explain,
    stuck: bool,
) -> Result<u8, ToolFailure>
    ensures status { IfOk result (λ status. status ≤ 1) }
    ensures fault { IfErr result IsFault }
{
    let file = match open_file(rt, path) {
        Ok(file) => file,
        Err(lacking) => return Err(told(rt, lacking, path)),
    };
    let mut kept = CopyingReader::new(rt.alloc(), file, 0);
    match read_source(rt.alloc(), &mut kept) {
        Ok(source) => {
            let pairs = pairs_of(rt, &source, path, when);
            let ended = check_text(rt, source, path, telling_of(rt, when), stuck);
            if let Ok(ACCEPTED) = &ended {
                let _ = write_whole(&mut rt.stderr(), pairs.as_slice());
            }
            ended
        }
        Err(error) => told_unread(rt, Err(ToolFailure::from(error)), Wanted::File, path, &kept),
    }
}
