//! `pathserve try` over any reader and writer: what it writes, and the exit status that it ends with.

ghost use Rattle.std.specs.Prelude.{◌≡◌, ℕ, List, IfOk, IfErr, IfSome};
ghost use Rattle.std.specs.Io.KnownBytes.{Appends};
ghost use Rattle.world_core.specs.Tries.{texts_in};
ghost use Rattle.world_core.specs.PromptRun.{IsTried, IsTriedFront};
ghost use Rattle.answer_core.specs.Status.{IsFault};

use answer_core::answer::ACCEPTED;
use answer_core::failure::ToolFailure;
use decl_core::analyse::Accepted;
use std::alloc::Global;
use std::io::{Read, Write};
use world_core::prompt::{Texts, run_prompt};

/// `pathserve try`: answers lines over a new world of an object, and gives the exit status: 0, whatever they were
/// answered.
///
/// A failure is `ReadFault`, `WriteFault` or `Memory`, and leaves a front of the answers; a `ReadFault` leaves those to
/// all lines that had come whole.
pub fn answer_try<R: Read, W: Write>(
    alloc: Global,
    accepted: Accepted,
    texts: Texts<'_>,
    reader: &mut R,
    writer: &mut W,
) -> Result<u8, ToolFailure>
    ensures ended { IfOk result (λ status. (status ≡ ACCEPTED) × IfSome (R.remaining reader.old) (λ text.
        (written : List ℕ) × Appends (W.contents writer.old) (W.contents writer.new) written
        × IsTried accepted (texts_in texts.entry) text written)) }
    ensures status { IfOk result (λ status. status ≡ 0) }
    ensures fault { IfErr result IsFault }
    ensures cut { IfErr result (λ failure. IsFault failure × IfSome (R.remaining reader.old) (λ text. (written : List ℕ)
        × Appends (W.contents writer.old) (W.contents writer.new) written
        × IsTriedFront accepted (texts_in texts.entry) text written)) }
{
    match run_prompt(alloc, accepted, texts, reader, writer) {
        Ok(()) => Ok(ACCEPTED),
        Err(fault) => Err(ToolFailure::from(fault)),
    }
}
