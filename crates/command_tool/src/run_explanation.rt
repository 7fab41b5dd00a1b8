//! What standard error gets of why a script, or a trace, is refused, apart from what a command answers.

ghost use Rattle.std.specs.Prelude.{◌≡◌};
ghost use Rattle.std.specs.Io.KnownBytes.{Keeps};
ghost use Rattle.answer_core.specs.Telling.{IsHinted};
ghost use Rattle.answer_core.specs.declared.explanation.Telling.TheVariants.{Nothing, Hint};

use answer_core::answer::REFUSED;
use answer_core::explanation::{Telling, explained, push_explanation, push_text};
use answer_core::failure::ToolFailure;
use check_core::head::named_object;
use explain_trace::script::explain_script;
use explain_trace::trace::explain_trace;
use note_core::files::Files;
use std::alloc::Global;
use std::io::Write;

/// Hands on what a script ended with, which no explanation changes. Where it refused something `error` gets first, as
/// far as that is to be told, why the object is refused that this head names, or the fault of the source; where it
/// names none, nothing. Want of memory, and a write that fails, end the explanation alone.
#[tactic(auto, using(answer_core::proofs::Hints::no_hint))]
pub fn explained_script<E: Write>(
    alloc: Global,
    ended: Result<u8, ToolFailure>,
    telling: Telling,
    file: &str,
    source: &[u8],
    head: &[u8],
    error: &mut E,
) -> Result<u8, ToolFailure>
    ensures same { result ≡ ended }
    ensures unasked { telling ≡ Nothing → Keeps (E.contents error.old) (E.contents error.new) }
    ensures hint { telling ≡ Hint → IsHinted (E.contents error.old) (E.contents error.new) }
{
    match named_object(alloc, head) {
        Ok(Some(name)) => explained(
            alloc,
            ended,
            telling,
            file,
            source,
            Some(name.as_bytes()),
            error,
        ),
        _ => ended,
    }
}

// Writes what is wrong with lines of a script that came to its end, or to a bad line.
fn push_script<E: Write>(
    alloc: Global,
    ended: &Result<u8, ToolFailure>,
    files: Files<'_>,
    source: &[u8],
    text: Option<&[u8]>,
    error: &mut E,
) {
    let Some(script) = text else {
        return;
    };
    if ended.is_ok() {
        push_text(explain_script(alloc, files, source, script), error);
    }
}

/// Hands on what a script ended with, which no explanation changes. Where all is to be told, and what was read of the
/// script is given, `error` gets first what is wrong with the line that ended it, if one did, and with calls that its
/// object does not take. Want of memory, and a write that fails, end the explanation alone.
pub fn explained_run<E: Write>(
    alloc: Global,
    ended: Result<u8, ToolFailure>,
    telling: Telling,
    files: Files<'_>,
    source: &[u8],
    text: Option<&[u8]>,
    error: &mut E,
) -> Result<u8, ToolFailure>
    ensures same { result ≡ ended }
    ensures unasked { telling ≡ Nothing → Keeps (E.contents error.old) (E.contents error.new) }
    ensures hint { telling ≡ Hint → Keeps (E.contents error.old) (E.contents error.new) }
{
    match telling {
        Telling::Whole => push_script(alloc, &ended, files, source, text, error),
        Telling::Hint | Telling::Nothing => {}
    }
    ended
}

// Writes why the object of a trace is refused, and else, where all is to be told, what is wrong with the trace.
#[tactic(auto, using(answer_core::proofs::Hints::no_hint))]
fn push_trace<E: Write>(
    alloc: Global,
    telling: Telling,
    files: Files<'_>,
    source: &[u8],
    text: &[u8],
    error: &mut E,
)
    ensures unasked { telling ≡ Nothing → Keeps (E.contents error.old) (E.contents error.new) }
    ensures hint { telling ≡ Hint → IsHinted (E.contents error.old) (E.contents error.new) }
{
    if let Ok(Some(name)) = named_object(alloc, text) {
        push_explanation(
            alloc,
            telling,
            files.source,
            source,
            Some(name.as_bytes()),
            error,
        );
    }
    match telling {
        Telling::Whole => push_text(explain_trace(alloc, files, source, text), error),
        Telling::Hint | Telling::Nothing => {}
    }
}

/// Hands on what an audit ended with, which no explanation changes. Where it refused something, and the first bytes of
/// the trace are given, `error` gets first, as far as that is to be told, why the trace's object is refused, and what
/// is wrong with its first faulty line. Want of memory, and a write that fails, end the explanation alone.
#[tactic(auto, using(answer_core::proofs::Hints::no_hint))]
pub fn explained_audit<E: Write>(
    alloc: Global,
    ended: Result<u8, ToolFailure>,
    telling: Telling,
    files: Files<'_>,
    source: &[u8],
    text: Option<&[u8]>,
    error: &mut E,
) -> Result<u8, ToolFailure>
    ensures same { result ≡ ended }
    ensures unasked { telling ≡ Nothing → Keeps (E.contents error.old) (E.contents error.new) }
    ensures hint { telling ≡ Hint → IsHinted (E.contents error.old) (E.contents error.new) }
{
    if let Some(trace) = text {
        if matches!(&ended, Ok(REFUSED)) {
            push_trace(alloc, telling, files, source, trace, error);
        }
    }
    ended
}
