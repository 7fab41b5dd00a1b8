//! Calls that an object does not take: of an operation that it has not, or with other arguments.

use crate::forms::verb_of;
use crate::rules::Want;
use decl_core::object::{Object, Operation};
use note_core::alike::are_alike;
use note_core::diagnostic::{Both, Diagnostic, Piece};
use note_core::line_words::LineWords;
use note_core::said::say;
use note_core::span::text_at;
use value_core::kind::Elem;

/// The operation of this name, in any case, and its place.
pub(crate) fn operation_named<'o>(
    object: &'o Object,
    name: &[u8],
) -> Option<(usize, &'o Operation)> {
    for (place, operation) in object.operations.iter().enumerate() {
        if operation.name.is_spelled_by(name) {
            return Some((place, operation));
        }
    }
    None
}

/// That an object has no operation of the name that is the word of this number, what helps, and which is meant. `@` stands
/// for the names of its operations.
pub(crate) fn unknown<'a>(
    object: &'a Object,
    words: &LineWords<'a>,
    number: usize,
    help: &'static str,
) -> Both<'a> {
    let span = words.span(number);
    let said = say("there is no operation `%` in object `$`", help);
    let name = Piece::Bytes(object.name.as_bytes());
    let found = Diagnostic::there(words, span, said).with(name, Piece::Operations(object));
    for operation in &object.operations {
        let other = operation.name.as_bytes();
        if are_alike(other, text_at(words.text, span)) {
            let meant = Diagnostic::at(None, say("is `%` meant?", ""), other);
            return (Some(found), Some(meant));
        }
    }
    (Some(found), None)
}

/// The number of the word that is wrong of those that are the arguments of an operation, from this number on, the name of
/// its parameter, and what is wrong with it.
pub(crate) fn misfit_of<'a>(
    operation: &'a Operation,
    words: &LineWords<'_>,
    first: usize,
) -> Option<(usize, &'a [u8], &'static str)> {
    let mut number = first;
    for param in operation.params.iter() {
        let sentence = match (words.all.get(number), param.kind) {
            (None, _) => "the argument `%` is missing here",
            (Some(placed), Elem::Integer) if !placed.is_bare => {
                "the argument `%` is an integer, and a text stands here"
            }
            (Some(placed), Elem::Text) if placed.is_bare => {
                "the argument `%` is a text, and an integer stands here"
            }
            _ => "",
        };
        if !sentence.is_empty() {
            return Some((number, param.name.as_bytes(), sentence));
        }
        number = number.saturating_add(1);
    }
    match words.at(number) {
        Some(_) => Some((number, b"", "`$` takes no further argument")),
        None => None,
    }
}

// What is wrong with the arguments of a call, from the word of this number on, and how its operation is declared.
fn wrong_arguments<'a>(
    operation: &'a Operation,
    words: &LineWords<'_>,
    first: usize,
) -> Option<Diagnostic<'a>> {
    let (number, param, sentence) = misfit_of(operation, words, first)?;
    let said = say(sentence, "the operation is declared as `$@`");
    let found = Diagnostic::at(Some(words.span(number)), said, param);
    let name = Piece::Bytes(operation.name.as_bytes());
    Some(found.with(name, Piece::Params(operation)))
}

// The number of the word that names an operation, in a line that calls.
fn operation_at(words: &LineWords<'_>) -> Option<usize> {
    for (number, rule) in verb_of(words)?.rules {
        if let Want::Name = rule.0 {
            return Some(*number);
        }
    }
    None
}

/// What is wrong with a line of a script that calls what its object does not take.
pub(crate) fn wrong_call<'a>(words: &LineWords<'a>, object: &'a Object) -> Both<'a> {
    let Some(number) = operation_at(words) else {
        return (None, None);
    };
    match operation_named(object, words.bare(number)) {
        Some((_, operation)) => (
            wrong_arguments(operation, words, number.saturating_add(1)),
            None,
        ),
        None => {
            let help = if object.operations.is_empty() {
                "it has no operations"
            } else {
                "its operations are: @"
            };
            unknown(object, words, number, help)
        }
    }
}
