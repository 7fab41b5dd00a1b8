//! Lines that ask what there is and why calls wait.

ghost use Rattle.std.specs.Prelude.{◌≡◌, IfOk, option_map};
ghost use Rattle.word_core.specs.View.{words_of as words_in};
ghost use Rattle.world_core.specs.Asked.{IsAskedBy, asked_of, asked_by, view_of};

use std::alloc::{AllocError, Global};
use value_core::words::is_same_word;
use word_core::word::Word;
use word_core::words::{bare_of, only_integer, words_of};

/// What a line asks.
#[derive(Clone, Copy, Debug, PartialEq, Eq)]
pub enum Question {
    /// `why N`: why the call of this number waits.
    Why(u32),
    /// `who`: which calls wait, and where.
    Who,
    /// `list`: which operations there are.
    List,
}

// What words ask behind this first one.
fn asked_behind(verb: &[u8], words: &[Word]) -> Option<Question>
    ensures { option_map view_of result ≡ asked_by verb.now (words_in words.now) }
{
    if is_same_word(verb, b"why") {
        let number = only_integer(words)?;
        return Some(Question::Why(number));
    }
    if !words.is_empty() {
        return None;
    }
    if is_same_word(verb, b"who") {
        return Some(Question::Who);
    }
    if is_same_word(verb, b"list") {
        return Some(Question::List);
    }
    None
}

// What words ask.
fn asked_in(words: &[Word]) -> Option<Question>
    ensures { option_map view_of result ≡ asked_of (words_in words.now) }
{
    let (verb, rest) = bare_of(words)?;
    asked_behind(verb, rest)
}

/// What a line asks, or `None` where it asks nothing of these. The error is that memory was refused.
pub fn question_of(alloc: Global, line: &[u8]) -> Result<Option<Question>, AllocError>
    ensures { IfOk result (IsAskedBy line.now) }
{
    match words_of(alloc, line)? {
        Some(words) => {
            let question = asked_in(&words);
            Ok(question)
        }
        None => Ok(None),
    }
}
