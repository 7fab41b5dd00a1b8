//! What the lines of a trace before a faulty one told.

use crate::called::operation_named;
use crate::rules::MOST_CALLS;
use crate::script::line_at;
use apply_core::fits::{arguments_fit, parts_fit};
use apply_core::reply::Reply;
use decl_core::object::{Object, Operation, Part};
use hex::FromHexError;
use known_core::apply::apply_all;
use note_core::line_words::{LineWords, words_at};
use note_core::page::Page;
use note_core::said::{Message, say};
use note_core::span::{Span, text_at};
use std::alloc::{AllocError, Global};
use value_bytes::decode::{DecodeFault, decode_kept};
use value_core::datum::Datum;
use value_core::value::Value;
use value_core::words::is_same_word;
use word_core::number::integer_of;
use word_core::reply::push_reply;
use word_core::word::Word;
use word_core::words::{data_of, words_of};

/// A call that a trace told: its number, its operation, by its place, and where its lines stand.
#[derive(Clone, Copy)]
pub(crate) struct SeenCall {
    pub number: u64,
    pub operation: usize,
    pub started: Span,
    pub ended: Option<Span>,
}

/// What lines told: the values of the parts after the last end, and by their numbers the calls.
#[derive(Drop)]
pub(crate) struct Story {
    pub values: Vec<Value>,
    pub calls: Vec<Option<SeenCall>>,
    /// How many bytes of the trace the lines have.
    pub bytes: usize,
}

/// The first faulty line of a trace of an object: its page, what the lines before it told, its words, and its number,
/// from 1.
#[derive(Clone, Copy)]
pub(crate) struct FaultyLine<'a> {
    pub page: Page<'a>,
    pub object: &'a Object,
    pub story: &'a Story,
    pub words: &'a LineWords<'a>,
    pub number: u64,
}

/// The value of a part that a word spells in hexadecimal, in either format, or what is said of a word that spells none:
/// `%` stands for the part, `@` for what it holds.
pub(crate) fn value_of(
    alloc: Global,
    part: &Part,
    word: &[u8],
) -> Result<Result<Value, Message>, AllocError> {
    let bytes = match hex::decode(alloc, word) {
        Ok(bytes) => bytes,
        Err(FromHexError::OutOfMemory) => return Err(AllocError),
        Err(_) => return Ok(Err(say(
            "these are not bytes in hexadecimal",
            "a byte is two digits of 0 to 9 and a to f, with nothing between bytes",
        ))),
    };
    match decode_kept(alloc, part.kind, &bytes) {
        Ok(value) => Ok(Ok(value)),
        Err(DecodeFault::Damaged) => Ok(Err(say(
            "these bytes are not a value of `%`, which is: @",
            "docs/FORMATS.md has the bytes of values",
        ))),
        Err(DecodeFault::Memory) => Err(AllocError),
    }
}

// The words from the one of this number on.
fn words_from<'a, 'b>(words: &'b [Word<'a>], count: usize) -> &'b [Word<'a>] {
    if count < words.len() {
        &words[count..]
    } else {
        &[]
    }
}

// The arguments in a line `start`.
fn arguments_in(alloc: Global, line: &[u8]) -> Result<Option<Vec<Datum>>, AllocError> {
    match words_of(alloc, line)? {
        Some(words) => data_of(alloc, words_from(&words, 4)),
        None => Ok(None),
    }
}

/// The words of the reply that the object gives to a call of this trace on these values, each behind a space. The values
/// are those after it then.
pub(crate) fn reply_to(
    alloc: Global,
    object: &Object,
    text: &[u8],
    call: SeenCall,
    values: &mut Vec<Value>,
) -> Result<Vec<u8>, AllocError> {
    let Some(operation) = object.operations.get(call.operation) else {
        return Ok(Vec::new(alloc));
    };
    match arguments_in(alloc, text_at(text, call.started))? {
        Some(arguments) => words_given(alloc, operation, &arguments, values),
        None => Ok(Vec::new(alloc)),
    }
}

// The words of what an operation replies to these arguments on these values, where they fit it.
fn words_given(
    alloc: Global,
    operation: &Operation,
    arguments: &[Datum],
    values: &mut Vec<Value>,
) -> Result<Vec<u8>, AllocError> {
    let mut text = Vec::new(alloc);
    if let Some(reply) = given(alloc, operation, arguments, values)? {
        push_reply(&mut text, &reply)?;
    }
    Ok(text)
}

// What an operation replies to these arguments on these values, where they fit it.
fn given(
    alloc: Global,
    operation: &Operation,
    arguments: &[Datum],
    values: &mut Vec<Value>,
) -> Result<Option<Reply>, AllocError> {
    if !arguments_fit(operation, arguments) {
        return Ok(None);
    }
    if !parts_fit(operation, values) {
        return Ok(None);
    }
    let reply = apply_all(alloc, operation, arguments, values)?;
    Ok(Some(reply))
}

// Hears the opening value of the next part.
fn hear_part(
    alloc: Global,
    object: &Object,
    values: &mut Vec<Value>,
    word: &[u8],
) -> Result<(), AllocError> {
    let Some(part) = object.parts.get(values.len()) else {
        return Ok(());
    };
    if let Ok(value) = value_of(alloc, part, word)? {
        values.push(value)?;
    }
    Ok(())
}

/// The number that a line has behind its first word, where a call can have it.
pub(crate) fn call_number(words: &LineWords<'_>) -> Option<usize> {
    match integer_of(words.bare(1)) {
        Some(number) if number <= MOST_CALLS => Some(number as usize),
        _ => None,
    }
}

// Hears a start.
fn hear_start(
    object: &Object,
    calls: &mut Vec<Option<SeenCall>>,
    words: &LineWords<'_>,
    started: Span,
) -> Result<(), AllocError> {
    let Some(number) = call_number(words) else {
        return Ok(());
    };
    let Some((operation, _)) = operation_named(object, words.bare(3)) else {
        return Ok(());
    };
    for _ in calls.len()..=number {
        calls.push(None)?;
    }
    if let Some(slot) = calls.get_mut(number) {
        *slot = Some(SeenCall {
            number: number as u64,
            operation,
            started,
            ended: None,
        });
    }
    Ok(())
}

// Hears an end.
fn hear_end(
    alloc: Global,
    object: &Object,
    story: &mut Story,
    words: &LineWords<'_>,
    line: Span,
) -> Result<(), AllocError> {
    let Some(number) = call_number(words) else {
        return Ok(());
    };
    if let Some(Some(call)) = story.calls.get_mut(number) {
        call.ended = Some(line);
        if !is_same_word(words.bare(2), b"failed") {
            let _words = reply_to(alloc, object, words.text, *call, &mut story.values)?;
        }
    }
    Ok(())
}

// Hears a line of a text.
fn hear(
    alloc: Global,
    object: &Object,
    story: &mut Story,
    text: &[u8],
    line: Span,
) -> Result<(), AllocError> {
    let words = words_at(alloc, text, line)?;
    let verb = words.bare(0);
    if is_same_word(verb, b"part") {
        return hear_part(alloc, object, &mut story.values, words.bare(2));
    }
    if is_same_word(verb, b"start") {
        return hear_start(object, &mut story.calls, &words, line);
    }
    if is_same_word(verb, b"end") {
        return hear_end(alloc, object, story, &words, line);
    }
    Ok(())
}

/// What the lines of a text before the one of this number tell.
pub(crate) fn story_before(
    alloc: Global,
    object: &Object,
    text: &[u8],
    number: u64,
) -> Result<Story, AllocError> {
    let mut story = Story {
        values: Vec::new(alloc),
        calls: Vec::new(alloc),
        bytes: 0,
    };
    for _ in 1..number {
        let Some((line, next)) = line_at(text, story.bytes) else {
            return Ok(story);
        };
        hear(alloc, object, &mut story, text, line)?;
        story.bytes = next;
    }
    Ok(story)
}
