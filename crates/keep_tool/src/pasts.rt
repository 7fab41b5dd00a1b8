//! What a command line of `keep` tells of what was done before a first start.

ghost use Rattle.std.specs.Prelude.{◌≡◌, map, IfErr};
ghost use Rattle.answer_core.specs.declared.failure.ToolFailure.TheVariants.{Memory, Usage};
ghost use Rattle.clap.specs.Values.{kind_of};
ghost use Rattle.clap.specs.declared.error.kind.ErrorKind.TheVariants.{OutOfMemory};
ghost use Rattle.command_line.specs.Forms.{Asks};
ghost use Rattle.keep_tool.specs.Untold.{IsUntold};

use answer_core::failure::ToolFailure;
use clap::Error;
use clap::error::ErrorKind as Mistake;
use command_line::mistakes::past_error;
use command_line::past::{MEANS, Past, past_in};
use command_line::request::{Request, pasts_of};
use std::alloc::Global;

// What words end the program with whose values of `--past` could not be read.
fn untold(error: Error) -> ToolFailure
    ensures memory { kind_of error ≡ OutOfMemory → result ≡ Memory }
    ensures mistake { (kind_of error ≡ OutOfMemory → ⊥) → result ≡ Usage error }
{
    match error.kind() {
        Mistake::OutOfMemory => ToolFailure::Memory,
        _ => ToolFailure::Usage(error),
    }
}

/// What the words of a command line tell of what was done before a first start. Where they ask for something a failure is
/// `Memory`, or `Usage` for a value of `--past` that says nothing.
pub fn pasts_in<'a>(alloc: Global, words: &'a [&'a str]) -> Result<Vec<Past<'a>>, ToolFailure>
    ensures { IfErr result (λ failure. (q : Request) → Asks (map (λ w. w.now) words.now) q → IsUntold failure) }
{
    let told = match pasts_of(alloc, words) {
        Ok(told) => told,
        Err(error) => return Err(untold(error)),
    };
    let mut pasts = Vec::new(alloc);
    for word in &told {
        let Some(past) = past_in(word) else {
            return Err(ToolFailure::Usage(past_error(alloc, word, MEANS)?));
        };
        if pasts.push(past).is_err() {
            return Err(ToolFailure::Memory);
        }
    }
    Ok(pasts)
}
