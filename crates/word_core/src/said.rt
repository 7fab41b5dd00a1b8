//! What a line of a script says.

ghost use Rattle.std.specs.Prelude.{◌≡◌, ◌↔◌, IfOk, IsTrue, option_map};
ghost use Rattle.word_core.specs.View.{words_of as words_in};
ghost use Rattle.word_core.specs.Data.{at_end};
ghost use Rattle.word_core.specs.Said.{IsSkipped, said_of as said_of_words, said_by as said_in, call_said as call_in};
ghost use Rattle.word_core.specs.Said.{call_by as call_by_in, named_said as named_in, digits_said as digits_in};
ghost use Rattle.word_core.specs.Said.{keyed_said as keyed_in, do_said as do_in, done_said as done_in};
ghost use Rattle.word_core.specs.Said.{resume_said as resume_in, works_of as works_in};
ghost use Rattle.word_core.specs.Said.{step_said as step_in, drop_said as drop_in, numbered, all_steps, a_finish};
ghost use Rattle.word_core.specs.Said.{a_cancel, a_show, a_trace};
ghost use Rattle.word_core.specs.ScriptView.{said_view, IsReadOf};

use crate::number::{integer_of, session_of};
use crate::operation::identifier_of;
use crate::word::Word;
use crate::words::{bare_of, data_of, only_bare, only_integer, words_of};
use std::alloc::{AllocError, Global};
use value_core::datum::Datum;
use value_core::words::{is_same_word, skip_spaces};

/// What a line of a script says.
#[derive(Drop)]
pub enum Said<'a> {
    /// `call sK OP ARG ..`: the session, the name of the operation as it is written, an identifier, and the arguments.
    Call(u32, &'a str, Vec<Datum>),
    /// `call sK #J OP ARG ..`: the same, with the key before the operation.
    CallKey(u32, u32, &'a str, Vec<Datum>),
    /// `do sK OP ARG ..`: the session, the name of the operation as it is written, an identifier, and the arguments.
    Do(u32, &'a str, Vec<Datum>),
    /// `step N ok` and `step N fail`: the call, and whether the device call of the step is to work.
    Step(u32, bool),
    /// `steps N`.
    Steps(u32),
    /// `finish N`.
    Finish(u32),
    /// `cancel N`.
    Cancel(u32),
    /// `drop sK`.
    Drop(u32),
    /// `resume sK`.
    Resume(u32),
    /// `show`.
    Show,
    /// `trace`.
    Trace,
}

/// Whether a line is skipped: it is blank, or begins with `#`, behind spaces too.
pub fn is_skipped(line: &[u8]) -> bool
    ensures { IsTrue result ↔ IsSkipped line.now }
{
    match skip_spaces(line) {
        [] => true,
        [first, ..] => *first == b'#',
    }
}

/// What a line says, or `None` where it says nothing that a script may say. Whether it is skipped is not asked here.
///
/// The error is that memory was refused.
pub fn read_line(alloc: Global, line: &[u8]) -> Result<Option<Said<'_>>, AllocError>
    ensures { IfOk result (IsReadOf line.now) }
{
    match words_of(alloc, line)? {
        Some(words) => {
            let said = said_of(alloc, &words)?;
            Ok(said)
        }
        None => Ok(None),
    }
}

/// What the words of a line say, or `None` where they say nothing that a script may say.
///
/// The error is that memory was refused.
pub fn said_of<'a>(alloc: Global, words: &[Word<'a>]) -> Result<Option<Said<'a>>, AllocError>
    ensures { IfOk result (λ found. option_map said_view found ≡ said_of_words (words_in words.now)) }
{
    match bare_of(words) {
        Some((verb, rest)) => said_by(alloc, verb, rest),
        None => Ok(None),
    }
}

// What a line of this first word says.
fn said_by<'a>(
    alloc: Global,
    verb: &[u8],
    words: &[Word<'a>],
) -> Result<Option<Said<'a>>, AllocError>
    ensures { IfOk result (λ found. option_map said_view found ≡ said_in verb.now (words_in words.now)) }
{
    if is_same_word(verb, b"call") {
        return call_said(alloc, words);
    }
    if is_same_word(verb, b"do") {
        return do_said(alloc, words);
    }
    if is_same_word(verb, b"step") {
        return Ok(step_said(words));
    }
    if is_same_word(verb, b"steps") {
        return Ok(steps_said(words));
    }
    if is_same_word(verb, b"finish") {
        return Ok(finish_said(words));
    }
    if is_same_word(verb, b"cancel") {
        return Ok(cancel_said(words));
    }
    if is_same_word(verb, b"drop") {
        return Ok(drop_said(words));
    }
    if is_same_word(verb, b"resume") {
        return Ok(resume_said(words));
    }
    if is_same_word(verb, b"show") {
        return Ok(show_said(words));
    }
    if is_same_word(verb, b"trace") {
        return Ok(trace_said(words));
    }
    Ok(None)
}

fn call_said<'a>(alloc: Global, words: &[Word<'a>]) -> Result<Option<Said<'a>>, AllocError>
    ensures { IfOk result (λ found. option_map said_view found ≡ call_in (words_in words.now)) }
{
    let Some((session, rest)) = bare_of(words) else {
        return Ok(None);
    };
    let Some(session) = session_of(session) else {
        return Ok(None);
    };
    let Some((word, rest)) = bare_of(rest) else {
        return Ok(None);
    };
    call_by(alloc, session, word, rest)
}

// What a call of this session says by this word and those behind it.
fn call_by<'a>(
    alloc: Global,
    session: u32,
    word: &'a [u8],
    words: &[Word<'a>],
) -> Result<Option<Said<'a>>, AllocError>
    ensures { IfOk result (λ found. option_map said_view found ≡ call_by_in session word.now (words_in words.now)) }
{
    match word {
        [] => Ok(None),
        [b'#', digits @ ..] => digits_said(alloc, session, digits, words),
        _ => named_said(alloc, session, word, words),
    }
}

fn named_said<'a>(
    alloc: Global,
    session: u32,
    word: &'a [u8],
    words: &[Word<'a>],
) -> Result<Option<Said<'a>>, AllocError>
    ensures { IfOk result (λ found. option_map said_view found ≡ named_in session word.now (words_in words.now)) }
{
    let Some(name) = identifier_of(word) else {
        return Ok(None);
    };
    match data_of(alloc, words)? {
        Some(arguments) => Ok(Some(Said::Call(session, name, arguments))),
        None => Ok(None),
    }
}

fn digits_said<'a>(
    alloc: Global,
    session: u32,
    digits: &[u8],
    words: &[Word<'a>],
) -> Result<Option<Said<'a>>, AllocError>
    ensures { IfOk result (λ found. option_map said_view found ≡ digits_in session digits.now (words_in words.now)) }
{
    let Some(key) = integer_of(digits) else {
        return Ok(None);
    };
    let Some((word, rest)) = bare_of(words) else {
        return Ok(None);
    };
    keyed_said(alloc, session, key, word, rest)
}

fn keyed_said<'a>(
    alloc: Global,
    session: u32,
    key: u32,
    word: &'a [u8],
    words: &[Word<'a>],
) -> Result<Option<Said<'a>>, AllocError>
    ensures { IfOk result (λ found. option_map said_view found ≡ keyed_in session key word.now (words_in words.now)) }
{
    let Some(name) = identifier_of(word) else {
        return Ok(None);
    };
    match data_of(alloc, words)? {
        Some(arguments) => Ok(Some(Said::CallKey(session, key, name, arguments))),
        None => Ok(None),
    }
}

fn do_said<'a>(alloc: Global, words: &[Word<'a>]) -> Result<Option<Said<'a>>, AllocError>
    ensures { IfOk result (λ found. option_map said_view found ≡ do_in (words_in words.now)) }
{
    let Some((session, rest)) = bare_of(words) else {
        return Ok(None);
    };
    let Some(session) = session_of(session) else {
        return Ok(None);
    };
    let Some((word, rest)) = bare_of(rest) else {
        return Ok(None);
    };
    done_said(alloc, session, word, rest)
}

// What a call of this session that is to be done says by this word and those behind it.
fn done_said<'a>(
    alloc: Global,
    session: u32,
    word: &'a [u8],
    words: &[Word<'a>],
) -> Result<Option<Said<'a>>, AllocError>
    ensures { IfOk result (λ found. option_map said_view found ≡ done_in session word.now (words_in words.now)) }
{
    let Some(name) = identifier_of(word) else {
        return Ok(None);
    };
    match data_of(alloc, words)? {
        Some(arguments) => Ok(Some(Said::Do(session, name, arguments))),
        None => Ok(None),
    }
}

fn step_said<'a>(words: &[Word<'a>]) -> Option<Said<'a>>
    ensures { option_map said_view result ≡ step_in (words_in words.now) }
{
    let (number, rest) = bare_of(words)?;
    let number = integer_of(number)?;
    let works = works_of(only_bare(rest)?)?;
    Some(Said::Step(number, works))
}

// Whether a step is to work.
fn works_of(word: &[u8]) -> Option<bool>
    ensures { result ≡ works_in word.now }
{
    if is_same_word(word, b"ok") {
        return Some(true);
    }
    if is_same_word(word, b"fail") {
        return Some(false);
    }
    None
}

fn steps_said<'a>(words: &[Word<'a>]) -> Option<Said<'a>>
    ensures { option_map said_view result ≡ numbered all_steps (words_in words.now) }
{
    let number = only_integer(words)?;
    Some(Said::Steps(number))
}

fn finish_said<'a>(words: &[Word<'a>]) -> Option<Said<'a>>
    ensures { option_map said_view result ≡ numbered a_finish (words_in words.now) }
{
    let number = only_integer(words)?;
    Some(Said::Finish(number))
}

fn cancel_said<'a>(words: &[Word<'a>]) -> Option<Said<'a>>
    ensures { option_map said_view result ≡ numbered a_cancel (words_in words.now) }
{
    let number = only_integer(words)?;
    Some(Said::Cancel(number))
}

fn drop_said<'a>(words: &[Word<'a>]) -> Option<Said<'a>>
    ensures { option_map said_view result ≡ drop_in (words_in words.now) }
{
    let session = session_of(only_bare(words)?)?;
    Some(Said::Drop(session))
}

fn resume_said<'a>(words: &[Word<'a>]) -> Option<Said<'a>>
    ensures { option_map said_view result ≡ resume_in (words_in words.now) }
{
    let session = session_of(only_bare(words)?)?;
    Some(Said::Resume(session))
}

fn show_said<'a>(words: &[Word<'a>]) -> Option<Said<'a>>
    ensures { option_map said_view result ≡ at_end (words_in words.now) a_show }
{
    if words.is_empty() {
        return Some(Said::Show);
    }
    None
}

fn trace_said<'a>(words: &[Word<'a>]) -> Option<Said<'a>>
    ensures { option_map said_view result ≡ at_end (words_in words.now) a_trace }
{
    if words.is_empty() {
        return Some(Said::Trace);
    }
    None
}
