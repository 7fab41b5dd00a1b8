//! Ends that tell another reply than the object gives, and ends of calls that do not run.

use crate::story::{FaultyLine, SeenCall, call_number, reply_to};
use decl_core::footprint::{is_in, reads};
use decl_core::id::MOST_PARTS;
use note_core::diagnostic::{Both, Diagnostic, NO_PIECE, Piece, push, push_both};
use note_core::line_words::LineWords;
use note_core::place::place_of;
use note_core::said::say;
use note_core::span::Span;
use std::alloc::{AllocError, Global};
use value_core::value::Value;

/// The call of the number that a faulty line has, where the lines before it told one.
pub(crate) fn call_of(faulty: FaultyLine<'_>) -> Option<SeenCall> {
    let number = call_number(faulty.words)?;
    match faulty.story.calls.get(number) {
        Some(call) => *call,
        None => None,
    }
}

// The name of the operation of a call.
fn name_of<'a>(faulty: FaultyLine<'a>, call: SeenCall) -> &'a [u8] {
    match faulty.object.operations.get(call.operation) {
        Some(operation) => operation.name.as_bytes(),
        None => b"",
    }
}

/// A finding at a line of a call: `%` stands for its operation, `$` for the number of the line, `@` for its own.
pub(crate) fn of_call<'a>(
    faulty: FaultyLine<'a>,
    call: SeenCall,
    line: Span,
    sentence: &'static str,
) -> Diagnostic<'a> {
    let number = place_of(faulty.page.source, line.start).line as u64;
    let found = Diagnostic::at(Some(line), say(sentence, ""), name_of(faulty, call));
    found.with(Piece::Number(number), Piece::Number(call.number))
}

/// A finding at the number of the call of a line, which `%` stands for.
pub(crate) fn of_number<'a>(
    words: &LineWords<'a>,
    sentence: &'static str,
    help: &'static str,
) -> Diagnostic<'a> {
    Diagnostic::at(Some(words.span(1)), say(sentence, help), words.bare(1))
}

// Copies of values.
fn copies(alloc: Global, values: &[Value]) -> Result<Vec<Value>, AllocError> {
    let mut all = Vec::new(alloc);
    for value in values {
        let value = value.copy(alloc)?;
        all.push(value)?;
    }
    Ok(all)
}

// The words of the reply that the object gives to a call of a line, each behind a space.
fn reply_text(
    alloc: Global,
    faulty: FaultyLine<'_>,
    call: SeenCall,
) -> Result<Vec<u8>, AllocError> {
    let mut values = copies(alloc, &faulty.story.values)?;
    reply_to(alloc, faulty.object, faulty.page.source, call, &mut values)
}

// That the object gives this reply to a call of the operation of this name.
fn given_reply<'a>(span: Span, name: &'a [u8], reply: &'a [u8]) -> Diagnostic<'a> {
    let said = say("the object gives another reply to this `%`:$", "");
    Diagnostic::at(Some(span), said, name).with(Piece::Bytes(reply), NO_PIECE)
}

// Adds what the parts held that the operation of a call names, and where it started.
fn push_before(
    out: &mut Vec<u8>,
    faulty: FaultyLine<'_>,
    call: SeenCall,
) -> Result<(), AllocError> {
    let named = match faulty.object.operations.get(call.operation) {
        Some(operation) => reads(operation),
        None => 0,
    };
    for (number, part) in faulty.object.parts.iter().enumerate() {
        if number < MOST_PARTS && is_in(number, named) {
            if let Some(value) = faulty.story.values.get(number) {
                let said = say("before it `%` is $", "");
                let found = Diagnostic::at(None, said, part.name.as_bytes());
                push(out, faulty.page, found.with(Piece::Value(value), NO_PIECE))?;
            }
        }
    }
    let order =
        "calls are done one after the other, in the order of their ends, from the values that the part lines tell";
    let order = Diagnostic::at(None, say(order, ""), b"");
    let started = of_call(faulty, call, call.started, "`%` started here, as call @");
    push_both(out, faulty.page, (Some(order), Some(started)))
}

/// Adds which reply the object gives to the call that a line ends.
pub(crate) fn push_wrong_reply(
    out: &mut Vec<u8>,
    faulty: FaultyLine<'_>,
) -> Result<(), AllocError> {
    let Some(call) = call_of(faulty) else {
        return Ok(());
    };
    let text = reply_text(*out.allocator(), faulty, call)?;
    let place = faulty.words.span_from(2);
    push(
        out,
        faulty.page,
        given_reply(place, name_of(faulty, call), &text),
    )?;
    push_before(out, faulty, call)
}

/// Why the call that a line ends does not run.
pub(crate) fn not_running<'a>(faulty: FaultyLine<'a>) -> Both<'a> {
    let Some(call) = call_of(faulty) else {
        let help = "before a call ends a line `start % sK OP ARG ..` tells that it started";
        return (
            Some(of_number(faulty.words, "call % has not started", help)),
            None,
        );
    };
    let found = of_number(faulty.words, "call % has ended already", "");
    match call.ended {
        Some(line) => {
            let ended = of_call(faulty, call, line, "this `%` ended here, in line $");
            (Some(found), Some(ended))
        }
        None => (Some(found), None),
    }
}
