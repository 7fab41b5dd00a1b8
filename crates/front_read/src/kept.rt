//! The rows of remembered calls.

ghost use Rattle.std.specs.Prelude.{◌≡◌, ◌++◌, ◌∷◌, [], IfOk, OnOk, codes, option_map};
ghost use Rattle.decl_core.specs.ObjectMap.{object_of};
ghost use Rattle.word_core.specs.View.{words_of as words_in};
ghost use Rattle.word_core.specs.TraceLaws.{HasNames};
ghost use Rattle.live_core.specs.Front.{IsKept};
ghost use Rattle.live_core.specs.Text.{kept_words, answer_of};
ghost use Rattle.front_read.specs.Words.{kept_head as kept_head_in, with_rest};
ghost use Rattle.front_read.specs.Rows.{Finds, Takes, TakesThis, row_words};
ghost use Rattle.front_read.specs.Answers.{answer_of_end};
ghost use Rattle.front_read.specs.Row.{kept_row, KeptBy};

use crate::answer::{RememberedEnd, answer_first, behind_first};
use crate::call::call_of;
use crate::number::{behind_verb, key_first, long_first, session_first};
use crate::text::{behind, first_line};
use apply_core::reply::Reply;
use apply_core::short::Short;
use apply_core::slim::Slims;
use decl_core::object::Object;
use live_core::front::{Answer, KeptCall};
use live_core::write::push_kept;
use path_tree::node::OpId;
use std::alloc::{AllocError, Global};
use value_core::datum::Datum;
use value_core::limits::MOST_TEXT_BYTES;
use word_core::names::object_has_names;
use word_core::word::Word;
use word_core::words::words_of;

// What stands in the line of a remembered call before its answer.
#[derive(Clone, Copy)]
struct KeptHead {
    session: u32,
    key: u64,
    told: u64,
}

fn kept_head<'a, 'b>(words: &'b [Word<'a>]) -> Option<(KeptHead, &'b [Word<'a>])>
    ensures { option_map with_rest result ≡ kept_head_in (words_in words.now) }
{
    let words = behind_verb(words, b"kept")?;
    let (session, words) = session_first(words)?;
    let (key, words) = key_first(words)?;
    let (told, words) = long_first(words)?;
    Some((KeptHead { session, key, told }, words))
}

// A remembered call, as its row tells it.
#[derive(Drop)]
struct KeptRow {
    head: KeptHead,
    ended: RememberedEnd,
    operation: OpId,
    arguments: Vec<Datum>,
}

// The remembered call that the words of its line tell.
fn kept_of(alloc: Global, object: &Object, words: &[Word]) -> Result<Option<KeptRow>, AllocError>
    requires { HasNames (object_of object.now) }
    ensures { IfOk result (Finds (IsKept (object_of object.now)) (row_words (codes "kept")
        (kept_words (object_of object.now))) kept_row (words_in words.now)) }
{
    match kept_head(words) {
        Some((head, rest)) => match answer_first(rest) {
            Some((ended, count)) => {
                kept_by(alloc, object, head, &ended, behind_first(rest, count))
            }
            None => Ok(None),
        },
        None => Ok(None),
    }
}

// The remembered call whose operation and arguments are these words.
fn kept_by(
    alloc: Global,
    object: &Object,
    head: KeptHead,
    ended: &RememberedEnd,
    words: &[Word],
) -> Result<Option<KeptRow>, AllocError>
    ensures { IfOk result (λ found. KeptBy (object_of object.now) head (answer_of_end ended.now) (words_in words.now) found) }
{
    match call_of(alloc, object, words)? {
        Some((operation, arguments)) => Ok(Some(KeptRow {
            head,
            ended: *ended,
            operation,
            arguments,
        })),
        None => Ok(None),
    }
}

// Takes the row of a remembered call.
pub(crate) fn take_kept<'a>(
    alloc: Global,
    object: &Object,
    out: &mut Vec<KeptCall>,
    text: &'a [u8],
) -> Result<Option<&'a [u8]>, AllocError>
    ensures { IfOk result (λ found. Takes (IsKept (object_of object.now)) (row_words (codes "kept")
        (kept_words (object_of object.now))) text.now out.old.items found out.new.items) }
{
    object_has_names(object);
    match words_of(alloc, first_line(text))? {
        Some(words) => match kept_of(alloc, object, &words)? {
            Some(row) => {
                let found = take_this_kept(alloc, object, out, text, &row)?;
                Ok(found)
            }
            None => Ok(None),
        },
        None => Ok(None),
    }
}

fn reply_in(ended: &RememberedEnd) -> Option<&Reply>
    ensures { answer_of result ≡ answer_of_end ended.now }
{
    match ended {
        RememberedEnd::Replied(reply) => Some(reply),
        RememberedEnd::Cancelled => None,
    }
}

// How a call ended, in memory of its own length.
fn kept_answer(alloc: Global, ended: &RememberedEnd) -> Result<Answer, AllocError>
    ensures { IfOk result (λ answer. answer ≡ answer_of_end ended.now) }
{
    match ended {
        RememberedEnd::Replied(reply) => {
            let mut room = Vec::with_capacity(alloc, MOST_TEXT_BYTES)?;
            Ok(Answer::Replied(Short::within(alloc, &mut room, reply)))
        }
        RememberedEnd::Cancelled => Ok(Answer::Cancelled),
    }
}

fn take_this_kept<'a>(
    alloc: Global,
    object: &Object,
    out: &mut Vec<KeptCall>,
    text: &'a [u8],
    row: &KeptRow,
) -> Result<Option<&'a [u8]>, AllocError>
    ensures { IfOk result (λ found. TakesThis (row_words (codes "kept") (kept_words (object_of object.now)))
        (kept_row row.now) text.now out.old.items found out.new.items) }
{
    let mut line = Vec::new(alloc);
    push_kept(
        &mut line,
        object,
        row.head.session,
        row.head.key,
        row.head.told,
        reply_in(&row.ended),
        row.operation,
        &row.arguments,
    )?;
    match behind(text, &line) {
        Some(rest) => {
            keep_call(alloc, out, row)?;
            Ok(Some(rest))
        }
        None => Ok(None),
    }
}

// Adds a remembered call.
fn keep_call(alloc: Global, out: &mut Vec<KeptCall>, row: &KeptRow) -> Result<(), AllocError>
    ensures { OnOk result (out.new.items ≡ out.old.items ++ kept_row row.now ∷ []) }
{
    let arguments = Slims::new(alloc, &row.arguments)?;
    let answer = kept_answer(alloc, &row.ended)?;
    out.push(KeptCall {
        session: row.head.session,
        key: row.head.key,
        told: row.head.told,
        answer,
        operation: row.operation,
        arguments,
    })?;
    Ok(())
}
