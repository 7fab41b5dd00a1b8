//! Sources whose objects have holds, where a command does not follow them.

ghost use Rattle.std.specs.Prelude.{◌≡◌, ℕ, List, IfErr, IfOk, OnOk};
ghost use Rattle.std.specs.Io.KnownBytes.{Appends};
ghost use Rattle.check_core.specs.Report.{fault_line};
ghost use Rattle.answer_core.specs.Status.{IsFault};
ghost use Rattle.answer_core.specs.Telling.{held_text};

use crate::answer::REFUSED;
use crate::explanation::Telling;
use crate::failure::ToolFailure;
use crate::said::written;
use check_core::report::push_source_fault;
use decl_read::fault::DeclFault;
use decl_read::held_read::Held;
use note_core::rules::explain_held;
use std::alloc::{AllocError, Global};
use std::io::Write;
use value_core::write_whole;

/// What a command answers of a source that has this fault in its holds: its line, and the exit status. `error` gets what
/// is wrong, as far as that is to be told.
///
/// A failure is `WriteFault` or `Memory`.
pub fn refuse_faulty<W: Write, E: Write>(
    alloc: Global,
    source: &[u8],
    fault: DeclFault,
    telling: Telling,
    file: &str,
    writer: &mut W,
    error: &mut E,
) -> Result<u8, ToolFailure>
    ensures told { OnOk result (Appends (W.contents writer.old) (W.contents writer.new) (fault_line fault)) }
    ensures status { IfOk result (λ given. given ≡ 1) }
    ensures fault { IfErr result IsFault }
{
    let mut line = Vec::new(alloc);
    push_source_fault(&mut line, fault)?;
    let status = written(&line, REFUSED, writer)?;
    match telling {
        Telling::Whole => {
            if let Ok(text) = explain_held(alloc, file.as_bytes(), source, fault) {
                let _ = write_whole(error, &text);
            }
        }
        Telling::Hint => {
            let _ = write_whole(error, b"--explain tells more\n");
        }
        Telling::Nothing => {}
    }
    Ok(status)
}

// The name of the first object that has a hold, or calls something again and again.
fn first_held(held: &Held) -> &[u8] {
    for (count, rules) in held.rules.iter().enumerate() {
        if !rules.holds.is_empty() || !rules.everies.is_empty() {
            return match held.objects.get(count) {
                Some(object) => object.name.as_bytes(),
                None => b"",
            };
        }
    }
    b""
}

// The line on an object that has a hold, or is called again and again, and what is to be used instead.
fn held_line(alloc: Global, name: &[u8], instead: &[u8]) -> Result<Vec<u8>, AllocError>
    ensures { IfOk result (λ line. line.items ≡ held_text name.now instead.now) }
{
    let mut line = Vec::new(alloc);
    line.extend_from_slice(b"object ")?;
    line.extend_from_slice(name)?;
    line.extend_from_slice(b" has a hold or an `every`: ")?;
    line.extend_from_slice(instead)?;
    line.extend_from_slice(b"\n")?;
    Ok(line)
}

// Writes it, and gives the exit status.
fn refuse_named<W: Write>(
    alloc: Global,
    name: &[u8],
    instead: &[u8],
    writer: &mut W,
) -> Result<u8, ToolFailure>
    ensures told { OnOk result (Appends (W.contents writer.old) (W.contents writer.new)
        (held_text name.now instead.now)) }
    ensures status { IfOk result (λ given. given ≡ 1) }
    ensures fault { IfErr result IsFault }
{
    let line = held_line(alloc, name, instead)?;
    written(&line, REFUSED, writer)
}

/// What a command answers of a source whose objects have holds where it does not follow them: a line with the name of the
/// first one that has some, and what is to be used instead; and the exit status, 1.
///
/// A failure is `WriteFault` or `Memory`.
pub fn refuse_held<W: Write>(
    alloc: Global,
    held: &Held,
    instead: &[u8],
    writer: &mut W,
) -> Result<u8, ToolFailure>
    ensures told { (name : List ℕ) × OnOk result (Appends (W.contents writer.old) (W.contents writer.new)
        (held_text name instead.now)) }
    ensures status { IfOk result (λ given. given ≡ 1) }
    ensures fault { IfErr result IsFault }
{
    refuse_named(alloc, first_held(held), instead, writer)
}
