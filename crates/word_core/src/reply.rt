//! Replies, as lines tell them.

ghost use Rattle.std.specs.Prelude.{◌≡◌, ◌++◌, OnOk};
ghost use Rattle.word_core.specs.Words.{behind_word};
ghost use Rattle.word_core.specs.View.{ending_view};
ghost use Rattle.word_core.specs.Text.{failure_word, reply_ending, reply_words};

use crate::ending::{Ending, push_ending};
use apply_core::reply::{Failure, Reply};
use std::alloc::AllocError;

fn failure_word(failure: Failure) -> &'static [u8]
    ensures { result.now ≡ failure_word failure }
{
    match failure {
        Failure::Device => b"device",
        Failure::Memory => b"memory",
        Failure::Damaged => b"damaged",
    }
}

/// How a call ended that replied so. A failure is told by its word: `device`, `memory` or `damaged`.
pub fn reply_ending(reply: &Reply) -> Ending<'_>
    ensures { ending_view result ≡ reply_ending reply.now }
{
    match reply {
        Reply::Done(result) => Ending::Done(*result),
        Reply::Refused(word) => Ending::Refused(word.bytes()),
        Reply::Failed(failure) => Ending::Failed(failure_word(*failure)),
    }
}

/// Adds a reply behind other words: ` done`, ` done VALUE`, ` refused WORD` or ` failed WORD`.
///
/// The error is that memory was refused; how much of the reply then stands in `out` is not said.
pub fn push_reply(out: &mut Vec<u8>, reply: &Reply) -> Result<(), AllocError>
    ensures { OnOk result (out.new.items ≡ out.old.items ++ behind_word (reply_words reply.now)) }
{
    push_ending(out, &reply_ending(reply))
}
