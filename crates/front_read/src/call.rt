//! Operations by their names, and calls.

ghost use Rattle.std.specs.Prelude.{◌≡◌, ◌<◌, ◌≤◌, ℕ, IfOk, IfSome, MatchOption, Some, map, length};
ghost use Rattle.path_tree.specs.Known.{place_of};
ghost use Rattle.value_core.specs.Datum.{IsDatum};
ghost use Rattle.decl_core.specs.ObjectMap.{object_of, operations_of};
ghost use Rattle.word_core.specs.View.{words_of as words_in};
ghost use Rattle.live_core.specs.Front.{Every, IsCall};
ghost use Rattle.front_read.specs.Rows.{Finds};
ghost use Rattle.front_read.specs.Calls.{operation_in, IsAsked, asked_words, asked_of, FindsBy};

use apply_core::fits::arguments_fit;
use decl_core::object::{Object, Operation};
use path_tree::node::OpId;
use std::alloc::{AllocError, Global};
use std::sync::Arc;
use value_core::datum::Datum;
use value_core::words::is_same_word;
use word_core::word::Word;
use word_core::words::{bare_of, data_of};

/// The place of the first operation of this name.
pub fn place_in(operations: &[Arc<Operation>], name: &[u8]) -> Option<OpId>
    requires { length operations.now ≤ 32 }
    ensures place { result ≡ place_of (map (λ f. f.name) (operations_of operations.now)) name.now }
    ensures within { IfSome result (λ k. k < length operations.now) }
{
    match operations {
        [] => None,
        [first, rest @ ..] => {
            if is_same_word(first.name.as_bytes(), name) {
                Some(0)
            } else {
                let place = place_in(rest, name)?;
                Some(place + 1)
            }
        }
    }
}

// The first operation of this name.
pub(crate) fn operation_of(object: &Object, name: &[u8]) -> Option<OpId>
    ensures { result ≡ operation_in (object_of object.now) name.now }
{
    place_in(&object.operations, name)
}

// The operation of this name, where it takes such arguments.
fn operation_for(object: &Object, name: &[u8], arguments: &[Datum]) -> Option<OpId>
    ensures { FindsBy (object_of object.now) name.now arguments.now result }
{
    let place = place_in(&object.operations, name)?;
    if arguments_fit(&object.operations[place as usize], arguments) {
        return Some(place);
    }
    None
}

/// Integers and texts are what they should be.
pub fn are_data(all: &[Datum])
    ensures { Every IsDatum all.now }
{
    match all {
        [] => {}
        [datum, all @ ..] => {
            datum.elem();
            are_data(all);
        }
    }
}

// The call that the words `OP ARG ..` are.
pub(crate) fn call_of(
    alloc: Global,
    object: &Object,
    words: &[Word],
) -> Result<Option<(OpId, Vec<Datum>)>, AllocError>
    ensures { IfOk result (Finds (IsAsked (object_of object.now)) (asked_words (object_of object.now)) asked_of
        (words_in words.now)) }
{
    match bare_of(words) {
        Some((name, rest)) => match data_of(alloc, rest)? {
            Some(arguments) => Ok(call_by(object, name, arguments)),
            None => Ok(None),
        },
        None => Ok(None),
    }
}

// The call of an operation of this name, where it takes these arguments.
fn call_by(object: &Object, name: &[u8], arguments: Vec<Datum>) -> Option<(OpId, Vec<Datum>)>
    ensures { MatchOption result
        ((op : ℕ) → IsCall (object_of object.now) op arguments.items → operation_in (object_of object.now) name.now
        ≡ Some op → ⊥)
        (λ r. IsCall (object_of object.now) r.0 r.1.items × (operation_in (object_of object.now) name.now ≡ Some r.0)
        × (r.1.items ≡ arguments.items)) }
{
    are_data(&arguments);
    match operation_for(object, name, &arguments) {
        Some(operation) => Some((operation, arguments)),
        None => None,
    }
}
