//! Lines at a prompt over one object.

mod machine;

ghost use Rattle.std.specs.Prelude.{◌≡◌, ◌++◌, [], List, ℕ, IfOk, IfSome, OnErr, IsErrOf, unwrap_or};
ghost use Rattle.std.specs.Io.KnownBytes.{Appends, Consumes};
ghost use Rattle.value_core.specs.declared.machine.LinesFault.TheVariants.{ReadFault};
ghost use Rattle.world_core.specs.Tries.{texts_in};
ghost use Rattle.world_core.specs.PromptRun.{IsTried, IsTriedFront, IsTriedSoFar};

use decl_core::analyse::Accepted;
use machine::Prompt;
use std::alloc::Global;
use std::io::{Read, Write};
pub use value_core::LinesFault as PromptFault;
use value_core::run_lines;

/// What the lines `help` and `list` are answered, with the ends of their lines.
#[derive(Clone, Copy)]
pub struct Texts<'a> {
    pub help: &'a [u8],
    pub list: &'a [u8],
}

/// Answers lines over a new world of the object, each before the next read: those of a script, but for the one that
/// names the object, and `help` and `list`. A line that is none of these is answered `bad line K`, counted from 1, and
/// changes nothing.
///
/// The faults, in this order: `ReadFault` where a read failed or the text had not ended after 16,777,216 reads,
/// `WriteFault` where a write failed or took no byte, `Memory` where the room for a line, an event or an answer was
/// refused. After a fault a front of the answers is written, after a `ReadFault` those to all lines that have come
/// whole.
pub fn run_prompt<R: Read, W: Write>(
    alloc: Global,
    accepted: Accepted,
    texts: Texts<'_>,
    reader: &mut R,
    writer: &mut W,
) -> Result<(), PromptFault>
    // Of any reader: what was written is the answer to the text that was read and what is known to be left.
    ensures any { IfOk result (λ _. (text : List ℕ) × (written : List ℕ)
        × Consumes (R.remaining reader.old) (R.remaining reader.new) text
        × Appends (W.contents writer.old) (W.contents writer.new) written
        × IsTried accepted (texts_in texts.entry) (text ++ unwrap_or (R.remaining reader.new) []) written) }

    // Of a reader whose text is known: the answer to that text, and after a fault a front of it.
    ensures known { IfOk result (λ _. IfSome (R.remaining reader.old) (λ text.
        (written : List ℕ) × Appends (W.contents writer.old) (W.contents writer.new) written
        × IsTried accepted (texts_in texts.entry) text written)) }
    ensures fault { OnErr result (IfSome (R.remaining reader.old) (λ text.
        (written : List ℕ) × Appends (W.contents writer.old) (W.contents writer.new) written
        × IsTriedFront accepted (texts_in texts.entry) text written)) }
    // Each line that has come whole is answered before the next read: any read may fail.
    ensures unread { IsErrOf result ReadFault →
        (text : List ℕ) × (written : List ℕ) × Consumes (R.remaining reader.old) (R.remaining reader.new) text
        × Appends (W.contents writer.old) (W.contents writer.new) written
        × IsTriedSoFar accepted (texts_in texts.entry) text written }
{
    let mut prompt = Prompt::new(alloc, accepted, texts)?;
    let ended = run_lines(alloc, &mut prompt, reader, writer);
    prompt.end();
    match ended {
        Ok(_) => Ok(()),
        Err(fault) => Err(fault),
    }
}
