//! The lines of a front that tell what is held, read.

ghost use Rattle.std.specs.Prelude.{◌≡◌, ◌<◌, ◌↔◌, ◌++◌, ◌∷◌, [], IfOk, IsTrue, Some, map, option_map};
ghost use Rattle.value_core.specs.Datum.{elem_of};
ghost use Rattle.decl_core.specs.ObjectMap.{object_of};
ghost use Rattle.word_core.specs.View.{words_of as words_in};
ghost use Rattle.word_core.specs.Words.{AreWords};
ghost use Rattle.word_core.specs.TraceLaws.{HasNames};
ghost use Rattle.decl_core.specs.HoldForm.{reply_sorts};
ghost use Rattle.decl_core.specs.HoldMap.{holds_of};
ghost use Rattle.front_read.specs.HeldLines.{held_with};
ghost use Rattle.recover_core.specs.HeldSo.{held_head as held_head_in, head_view, FindsRule, TakesHeld, TakesLine, TakesSo};

use decl_core::hold::Hold;
use decl_core::object::{Object, Param};
use front_read::call::{are_data, place_in};
use front_read::hold_lines::{HeldSo, push_held_so};
use front_read::number::{behind_verb, long_first, session_first};
use front_read::text::behind;
use guest_core::held::{Holds, hold_of_op};
use std::alloc::{AllocError, Global};
use value_core::datum::Datum;
use value_core::kind::Elem;
use word_core::names::object_has_names;
use word_core::word::Word;
use word_core::words::{bare_of, data_of, words_of};

// The session, the number and the name of the operation of a held line, and the words behind them.
fn held_head<'a, 'b>(words: &'b [Word<'a>]) -> Option<(u32, u64, &'a [u8], &'b [Word<'a>])>
    ensures { option_map head_view result ≡ held_head_in (words_in words.now) }
{
    let words = behind_verb(words, b"held")?;
    let (session, words) = session_first(words)?;
    let (number, words) = long_first(words)?;
    let (name, words) = bare_of(words)?;
    Some((session, number, name, words))
}

// Whether these are one of a sort, or none where there is no sort.
fn is_reply(reply: Option<Elem>, values: &[Datum]) -> bool
    ensures { IsTrue result ↔ (map elem_of values.now ≡ reply_sorts reply) }
{
    match reply {
        None => values.is_empty(),
        Some(elem) => match values {
            [value] => value.elem() == elem,
            _ => false,
        },
    }
}

// Whether these are of the sorts of parameters, and what a call replies stands behind them.
fn are_held_with(params: &[Param], reply: Option<Elem>, values: &[Datum]) -> bool
    ensures { IsTrue result ↔ (map elem_of values.now ≡ map (λ p. p.kind) params.now ++ reply_sorts reply) }
{
    match params {
        [] => is_reply(reply, values),
        [param, params @ ..] => match values {
            [] => false,
            [value, values @ ..] => value.elem() == param.kind
                && are_held_with(params, reply, values),
        },
    }
}

// The hold of the operation of this name, where that is held with this.
fn rule_for(object: &Object, holds: &[Hold], name: &[u8], values: &[Datum]) -> Option<usize>
    ensures { FindsRule (object_of object.now) (holds_of holds.now) name.now values.now result }
{
    let place = place_in(&object.operations, name)?;
    let rule = hold_of_op(holds, place)?;
    let operation = &object.operations[place as usize];
    if are_held_with(&operation.params, operation.result, values) {
        return Some(rule);
    }
    None
}

// Whether these are the end of a line.
fn is_feed(bytes: &[u8]) -> bool
    ensures { IsTrue result ↔ (bytes.now ≡ 10 ∷ []) }
{
    match bytes {
        [byte] => *byte == b'\n',
        _ => false,
    }
}

// Whether a text is this line, with its end.
fn is_line(text: &[u8], line: &[u8]) -> bool
    ensures { IsTrue result ↔ (text.now ≡ line.now ++ 10 ∷ []) }
{
    match behind(text, line) {
        None => false,
        Some(rest) => is_feed(rest),
    }
}

// Takes a call that is held so, where a line is spelled as its own would be.
fn take_so(
    alloc: Global,
    object: &Object,
    holds: &[Hold],
    line: &[u8],
    so: HeldSo,
    values: &[Datum],
    all: &mut Holds,
) -> Result<bool, AllocError>
    ensures { IfOk result (λ taken. TakesSo (object_of object.now) (holds_of holds.now) line.now (held_with so values.now) all.old taken
        all.new) }
{
    let mut own = Vec::new(alloc);
    push_held_so(&mut own, object, holds, so, values)?;
    if !is_line(&own, line) {
        return Ok(false);
    }
    all.add(alloc, so.number, so.session, so.rule, values)?;
    Ok(true)
}

// Takes the call that words behind `held sK N OP` tell.
fn take_by(
    alloc: Global,
    object: &Object,
    holds: &[Hold],
    line: &[u8],
    session: u32,
    number: u64,
    name: &[u8],
    values: &[Datum],
    all: &mut Holds,
) -> Result<bool, AllocError>
    ensures { IfOk result (λ taken. TakesLine (object_of object.now) (holds_of holds.now) (record {
      line = line.now;
      session = session;
      number = number;
      name = name.now;
      values = values.now;
    }) all.old taken all.new) }
{
    are_data(values);
    match rule_for(object, holds, name, values) {
        None => Ok(false),
        Some(rule) => {
            let so = HeldSo {
                session,
                number,
                rule,
            };
            let taken = take_so(alloc, object, holds, line, so, values, all)?;
            Ok(taken)
        }
    }
}

// Takes the call that words tell.
fn take_words(
    alloc: Global,
    object: &Object,
    holds: &[Hold],
    line: &[u8],
    words: &[Word],
    all: &mut Holds,
) -> Result<bool, AllocError>
    requires names { HasNames (object_of object.now) }
    requires words { AreWords line.now (words_in words.now) }
    ensures { IfOk result (λ taken. TakesHeld (object_of object.now) (holds_of holds.now) line.now all.old taken all.new) }
{
    match held_head(words) {
        None => Ok(false),
        Some((session, number, name, rest)) => match data_of(alloc, rest)? {
            None => Ok(false),
            Some(values) => {
                let taken = take_by(
                    alloc, object, holds, line, session, number, name, &values, all,
                )?;
                Ok(taken)
            }
        },
    }
}

/// Takes the call that a line tells, without its LF, which is held behind the others. False: the line is no held line of
/// this object, as it would be written, and nothing changes. The error is that memory was refused, and nothing changes.
pub fn take_held(
    alloc: Global,
    object: &Object,
    holds: &[Hold],
    line: &[u8],
    all: &mut Holds,
) -> Result<bool, AllocError>
    ensures { IfOk result (λ taken. TakesHeld (object_of object.now) (holds_of holds.now) line.now all.old taken all.new) }
{
    object_has_names(object);
    match words_of(alloc, line)? {
        None => Ok(false),
        Some(words) => {
            let taken = take_words(alloc, object, holds, line, &words, all)?;
            Ok(taken)
        }
    }
}
