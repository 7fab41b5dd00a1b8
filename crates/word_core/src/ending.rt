//! How a call ended: `done`, `done VALUE`, `refused WORD` or `failed WORD`.

ghost use Rattle.std.specs.Prelude.{◌≡◌, ◌++◌, OnOk, option_map};
ghost use Rattle.word_core.specs.Words.{behind_word, line_of};
ghost use Rattle.word_core.specs.Ending.{ending_words, finish_words, ending_of as ending_in, ended_by as ended_in};
ghost use Rattle.word_core.specs.Ending.{done_of as done_in};
ghost use Rattle.word_core.specs.View.{words_of as words_in, ending_view};

use crate::line::{push_line, push_more};
use crate::number::datum_of;
use crate::word::{Word, Written};
use crate::words::{bare_of, only_bare};
use std::alloc::AllocError;
use value_core::datum::Datum;
use value_core::words::is_same_word;

/// How a call ended.
#[derive(Clone, Copy)]
pub enum Ending<'a> {
    /// It was done: what it replies, if that is anything.
    Done(Option<Datum>),
    /// It was refused, by this word.
    Refused(&'a [u8]),
    /// It failed: the word that says why.
    Failed(&'a [u8]),
}

/// Adds how a call ended behind other words.
pub fn push_ending(out: &mut Vec<u8>, ending: &Ending) -> Result<(), AllocError>
    ensures { OnOk result (out.new.items ≡ out.old.items ++ behind_word (ending_words (ending_view ending.now))) }
{
    match ending {
        Ending::Done(None) => push_more(out, &[Written::Bare(b"done")]),
        Ending::Done(Some(datum)) => {
            push_more(out, &[Written::Bare(b"done"), Written::Datum(datum)])
        }
        Ending::Refused(word) => {
            push_more(out, &[Written::Bare(b"refused"), Written::Bare(word)])
        }
        Ending::Failed(word) => push_more(out, &[Written::Bare(b"failed"), Written::Bare(word)]),
    }
}

/// Adds the line that tells how the call of a number ended.
pub fn push_finish(out: &mut Vec<u8>, number: u64, ending: &Ending) -> Result<(), AllocError>
    ensures { OnOk result (out.new.items ≡ out.old.items ++ line_of (finish_words number (ending_view ending.now))) }
{
    match ending {
        Ending::Done(None) => push_line(out, &[Written::Bare(b"done"), Written::Integer(number)]),
        Ending::Done(Some(datum)) => push_line(
            out,
            &[
                Written::Bare(b"done"),
                Written::Integer(number),
                Written::Datum(datum),
            ],
        ),
        Ending::Refused(word) => push_line(
            out,
            &[
                Written::Bare(b"refused"),
                Written::Integer(number),
                Written::Bare(word),
            ],
        ),
        Ending::Failed(word) => push_line(
            out,
            &[
                Written::Bare(b"failed"),
                Written::Integer(number),
                Written::Bare(word),
            ],
        ),
    }
}

/// How these words say that a call ended, or `None` where they say nothing of the kind.
pub fn ending_of<'a>(words: &[Word<'a>]) -> Option<Ending<'a>>
    ensures { option_map ending_view result ≡ ending_in (words_in words.now) }
{
    let (verb, rest) = bare_of(words)?;
    ended_by(verb, rest)
}

fn ended_by<'a>(verb: &[u8], words: &[Word<'a>]) -> Option<Ending<'a>>
    ensures { option_map ending_view result ≡ ended_in verb.now (words_in words.now) }
{
    if is_same_word(verb, b"done") {
        return done_of(words);
    }
    if is_same_word(verb, b"refused") {
        let word = only_bare(words)?;
        return Some(Ending::Refused(word));
    }
    if is_same_word(verb, b"failed") {
        let word = only_bare(words)?;
        return Some(Ending::Failed(word));
    }
    None
}

// A call that was done, with what stands behind `done`.
fn done_of<'a>(words: &[Word]) -> Option<Ending<'a>>
    ensures { option_map ending_view result ≡ done_in (words_in words.now) }
{
    match words {
        [] => Some(Ending::Done(None)),
        [word] => {
            let datum = datum_of(word)?;
            Some(Ending::Done(Some(datum)))
        }
        _ => None,
    }
}
