//! The rows of waiting calls.

ghost use Rattle.std.specs.Prelude.{◌≡◌, ◌++◌, ◌∷◌, [], IfOk, OnOk, codes, option_map};
ghost use Rattle.decl_core.specs.ObjectMap.{object_of};
ghost use Rattle.word_core.specs.View.{words_of as words_in};
ghost use Rattle.live_core.specs.Front.{IsCarried};
ghost use Rattle.live_core.specs.Text.{carried_words};
ghost use Rattle.front_read.specs.Words.{carried_head as carried_head_in, with_rest};
ghost use Rattle.front_read.specs.Rows.{Finds, Takes, TakesThis, row_words};
ghost use Rattle.front_read.specs.Row.{carried_row};

use crate::call::call_of;
use crate::number::{behind_verb, count_first, long_first, session_first};
use crate::text::{behind, first_line};
use apply_core::slim::Slims;
use decl_core::object::Object;
use live_core::front::CarriedCall;
use live_core::write::push_carried;
use path_tree::node::OpId;
use std::alloc::{AllocError, Global};
use value_core::datum::Datum;
use word_core::names::object_has_names;
use word_core::word::Word;
use word_core::words::words_of;

// What stands in the line of a waiting call before the call.
#[derive(Clone, Copy)]
struct CarriedHead {
    number: u32,
    told: u64,
    session: u32,
}

fn carried_head<'a, 'b>(words: &'b [Word<'a>]) -> Option<(CarriedHead, &'b [Word<'a>])>
    ensures { option_map with_rest result ≡ carried_head_in (words_in words.now) }
{
    let words = behind_verb(words, b"carried")?;
    let (number, words) = count_first(words)?;
    let (told, words) = long_first(words)?;
    let (session, words) = session_first(words)?;
    Some((
        CarriedHead {
            number,
            told,
            session,
        },
        words,
    ))
}

// A waiting call, as its row tells it.
#[derive(Drop)]
struct CarriedRow {
    head: CarriedHead,
    operation: OpId,
    arguments: Vec<Datum>,
}

// The waiting call that the words of its line tell.
fn carried_of(
    alloc: Global,
    object: &Object,
    words: &[Word],
) -> Result<Option<CarriedRow>, AllocError>
    ensures { IfOk result (Finds (IsCarried (object_of object.now)) (row_words (codes "carried")
        (carried_words (object_of object.now))) carried_row (words_in words.now)) }
{
    match carried_head(words) {
        Some((head, rest)) => match call_of(alloc, object, rest)? {
            Some((operation, arguments)) => Ok(Some(CarriedRow {
                head,
                operation,
                arguments,
            })),
            None => Ok(None),
        },
        None => Ok(None),
    }
}

// Takes the row of a waiting call.
pub(crate) fn take_carried<'a>(
    alloc: Global,
    object: &Object,
    out: &mut Vec<CarriedCall>,
    text: &'a [u8],
) -> Result<Option<&'a [u8]>, AllocError>
    ensures { IfOk result (λ found. Takes (IsCarried (object_of object.now)) (row_words (codes "carried")
        (carried_words (object_of object.now))) text.now out.old.items found out.new.items) }
{
    object_has_names(object);
    match words_of(alloc, first_line(text))? {
        Some(words) => match carried_of(alloc, object, &words)? {
            Some(row) => {
                let found = take_this_carried(alloc, object, out, text, &row)?;
                Ok(found)
            }
            None => Ok(None),
        },
        None => Ok(None),
    }
}

fn take_this_carried<'a>(
    alloc: Global,
    object: &Object,
    out: &mut Vec<CarriedCall>,
    text: &'a [u8],
    row: &CarriedRow,
) -> Result<Option<&'a [u8]>, AllocError>
    ensures { IfOk result (λ found. TakesThis (row_words (codes "carried") (carried_words (object_of object.now)))
        (carried_row row.now) text.now out.old.items found out.new.items) }
{
    let mut line = Vec::new(alloc);
    push_carried(
        &mut line,
        object,
        row.head.number,
        row.head.told,
        row.head.session,
        row.operation,
        &row.arguments,
    )?;
    match behind(text, &line) {
        Some(rest) => {
            keep_carried(alloc, out, row)?;
            Ok(Some(rest))
        }
        None => Ok(None),
    }
}

// Adds a waiting call.
fn keep_carried(
    alloc: Global,
    out: &mut Vec<CarriedCall>,
    row: &CarriedRow,
) -> Result<(), AllocError>
    ensures { OnOk result (out.new.items ≡ out.old.items ++ carried_row row.now ∷ []) }
{
    let arguments = Slims::new(alloc, &row.arguments)?;
    out.push(CarriedCall {
        number: row.head.number,
        told: row.head.told,
        session: row.head.session,
        operation: row.operation,
        arguments,
    })?;
    Ok(())
}
