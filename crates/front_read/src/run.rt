//! The rows of a past.
//!
//! Here and in the modules of the other rows a function takes the row at the beginning of a text, adds what it tells, and
//! gives what stands behind the row. It gives nothing where no such row stands there; then it adds nothing.

ghost use Rattle.std.specs.Prelude.{◌≡◌, IfOk, codes, option_map};
ghost use Rattle.decl_core.specs.ObjectMap.{object_of};
ghost use Rattle.word_core.specs.View.{words_of as words_in};
ghost use Rattle.word_core.specs.TraceLaws.{HasNames};
ghost use Rattle.live_core.specs.Front.{IsRun};
ghost use Rattle.live_core.specs.Text.{run_words};
ghost use Rattle.front_read.specs.Rows.{Finds, Takes, TakesThis, row_words};
ghost use Rattle.front_read.specs.Row.{FindsRun, two_in, event_in, count_in};

use crate::call::operation_of;
use crate::number::behind_verb;
use crate::text::{behind, first_line};
use decl_core::object::Object;
use live_core::past::PastRun;
use live_core::write::push_past;
use path_tree::node::OpId;
use std::alloc::{AllocError, Global};
use value_core::words::is_same_word;
use word_core::names::object_has_names;
use word_core::number::integer_of;
use word_core::word::Word;
use word_core::words::{bare_of, only_bare, words_of};

// The run that the words of a line of a past tell.
fn run_of(object: &Object, words: &[Word]) -> Option<PastRun>
    requires { HasNames (object_of object.now) }
    ensures { Finds (IsRun (object_of object.now)) (row_words (codes "past") (run_words (object_of object.now)))
        (λ run. run) (words_in words.now) result }
{
    match two_behind_past(words) {
        Some((first, second)) => run_by(object, first, second),
        None => None,
    }
}

// The two words behind `past`.
fn two_behind_past<'a>(words: &[Word<'a>]) -> Option<(&'a [u8], &'a [u8])>
    ensures { option_map (λ two. (two.0.now, two.1.now)) result ≡ two_in (words_in words.now) }
{
    let words = behind_verb(words, b"past")?;
    let (first, rest) = bare_of(words)?;
    let second = only_bare(rest)?;
    Some((first, second))
}

// The run that two words behind `past` tell.
fn run_by(object: &Object, first: &[u8], second: &[u8]) -> Option<PastRun>
    requires { HasNames (object_of object.now) }
    ensures { FindsRun (object_of object.now) first.now second.now result }
{
    match count_of(second) {
        Some(count) => match operation_of(object, first) {
            Some(operation) => Some(PastRun::Calls(operation, count)),
            None => None,
        },
        None => match operation_of(object, second) {
            Some(operation) => event_by(first, operation),
            None => None,
        },
    }
}

// The event of an operation that this word tells: `begin` or `end`.
fn event_by(word: &[u8], operation: OpId) -> Option<PastRun>
    ensures { result ≡ event_in word.now operation }
{
    if is_same_word(word, b"begin") {
        return Some(PastRun::Begins(operation));
    }
    if is_same_word(word, b"end") {
        return Some(PastRun::Ends(operation));
    }
    None
}

// How many calls a run has: 1 to 65,536.
fn count_of(word: &[u8]) -> Option<u32>
    ensures { result ≡ count_in word.now }
{
    let count = integer_of(word)?;
    if count == 0 {
        return None;
    }
    if count > 65_536 {
        return None;
    }
    Some(count)
}

// Takes the row of a run of a past.
pub(crate) fn take_run<'a>(
    alloc: Global,
    object: &Object,
    out: &mut Vec<PastRun>,
    text: &'a [u8],
) -> Result<Option<&'a [u8]>, AllocError>
    ensures { IfOk result (λ found. Takes (IsRun (object_of object.now)) (row_words (codes "past")
        (run_words (object_of object.now))) text.now out.old.items found out.new.items) }
{
    object_has_names(object);
    match words_of(alloc, first_line(text))? {
        Some(words) => match run_of(object, &words) {
            Some(run) => {
                let found = take_this_run(alloc, object, out, text, run)?;
                Ok(found)
            }
            None => Ok(None),
        },
        None => Ok(None),
    }
}

fn take_this_run<'a>(
    alloc: Global,
    object: &Object,
    out: &mut Vec<PastRun>,
    text: &'a [u8],
    run: PastRun,
) -> Result<Option<&'a [u8]>, AllocError>
    ensures { IfOk result (λ found. TakesThis (row_words (codes "past") (run_words (object_of object.now))) run text.now
        out.old.items found out.new.items) }
{
    let mut line = Vec::new(alloc);
    push_past(&mut line, object, &[run])?;
    match behind(text, &line) {
        Some(rest) => {
            out.push(run)?;
            Ok(Some(rest))
        }
        None => Ok(None),
    }
}
