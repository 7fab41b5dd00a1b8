//! Starts that a path does not let.

use crate::called::operation_named;
use crate::reply::of_call;
use crate::story::{FaultyLine, SeenCall, Story};
use decl_core::object::Operation;
use note_core::diagnostic::{Diagnostic, NO_PIECE, Piece, push};
use note_core::page::Page;
use note_core::said::say;
use note_core::span::Span;
use note_core::tokens::{
    count_to, find_name, first_tokens, from_symbol, name_of, section, tokens_from,
};
use path_tree::lex::lex;
use path_tree::token::{Symbol, Token};
use std::alloc::AllocError;

// The most active calls that are told.
const MOST_TOLD: u64 = 4;

// The most objects of a source.
const MOST_OBJECTS: usize = 16;

// The tokens of the path of this number, from 1, of the object of this name, with its `end`.
fn path_of<'t>(tokens: &'t [Token], name: &[u8], number: usize) -> &'t [Token] {
    for count in 0..MOST_OBJECTS {
        let object = section(tokens, Symbol::Object, count);
        if name_of(tokens_from(object, 1)) == name {
            let here = from_symbol(object, Symbol::Path, number.saturating_sub(1));
            return first_tokens(here, count_to(here, Symbol::End).saturating_add(1));
        }
    }
    &[]
}

// Where some tokens stand.
fn span_over(tokens: &[Token]) -> Span {
    match (tokens.first(), tokens.last()) {
        (Some(first), Some(last)) => Span {
            start: first.start,
            end: last.end,
        },
        _ => Span { start: 0, end: 0 },
    }
}

// A call that is active: it has started, and has not ended; none where no path of these tokens names its operation.
fn active_of(faulty: FaultyLine<'_>, path: &[Token], call: &Option<SeenCall>) -> Option<SeenCall> {
    let call = (*call)?;
    let operation = faulty.object.operations.get(call.operation)?;
    if call.ended.is_none() && find_name(path, operation.name.as_bytes()).is_some() {
        return Some(call);
    }
    None
}

// Adds which calls of the operations of a path are active.
fn push_active(
    out: &mut Vec<u8>,
    faulty: FaultyLine<'_>,
    path: &[Token],
) -> Result<(), AllocError> {
    let mut count: u64 = 0;
    for call in faulty.story.calls.iter() {
        if let Some(call) = active_of(faulty, path, call) {
            if count < MOST_TOLD {
                let sentence = "`%` is active since here, as call @";
                let found = of_call(faulty, call, call.started, sentence);
                push(out, faulty.page, found)?;
            }
            count = count.saturating_add(1);
        }
    }
    let sentence = match count {
        0 => "none of the operations of this path is active then",
        1..=MOST_TOLD => return Ok(()),
        _ => "and $ more calls of its operations are active",
    };
    let more = Piece::Number(count.saturating_sub(MOST_TOLD));
    let found = Diagnostic::at(None, say(sentence, ""), b"").with(more, NO_PIECE);
    push(out, faulty.page, found)
}

// How often an operation has started and has ended.
fn counted<'a>(story: &Story, place: usize, operation: &'a Operation) -> Diagnostic<'a> {
    let mut started: u64 = 0;
    let mut ended: u64 = 0;
    for call in story.calls.iter() {
        if let Some(call) = call {
            if call.operation == place {
                started = started.saturating_add(1);
                if call.ended.is_some() {
                    ended = ended.saturating_add(1);
                }
            }
        }
    }
    let said = say("starts of `%` before it: $, ends: @", "");
    let found = Diagnostic::at(None, said, operation.name.as_bytes());
    found.with(Piece::Number(started), Piece::Number(ended))
}

// Adds how often each operation of a path has started and ended.
fn push_counts(
    out: &mut Vec<u8>,
    faulty: FaultyLine<'_>,
    path: &[Token],
) -> Result<(), AllocError> {
    for (place, operation) in faulty.object.operations.iter().enumerate() {
        if find_name(path, operation.name.as_bytes()).is_some() {
            push(out, faulty.page, counted(faulty.story, place, operation))?;
        }
    }
    Ok(())
}

// Adds which path a start breaks, and what had happened to the operations that it names.
fn push_path(
    out: &mut Vec<u8>,
    faulty: FaultyLine<'_>,
    declared: Page<'_>,
    number: usize,
) -> Result<(), AllocError> {
    let Ok(tokens) = lex(*out.allocator(), declared.source) else {
        return Err(AllocError);
    };
    let name = faulty.object.name.as_bytes();
    let path = path_of(&tokens, name, number);
    let said = say("path $ of object `%` does not let it", "");
    let found = Diagnostic::at(Some(span_over(path)), said, name);
    let number = Piece::Number(number as u64);
    push(out, declared, found.with(number, NO_PIECE))?;
    push_active(out, faulty, path)?;
    push_counts(out, faulty, path)
}

/// Adds that a path does not let a start, by its number from 1, and what had happened to the operations that it names.
/// `declared` is the source.
pub(crate) fn push_breach(
    out: &mut Vec<u8>,
    faulty: FaultyLine<'_>,
    declared: Page<'_>,
    number: usize,
) -> Result<(), AllocError> {
    let words = faulty.words;
    let name = match operation_named(faulty.object, words.bare(3)) {
        Some((_, operation)) => operation.name.as_bytes(),
        None => words.bare(3),
    };
    let said = say("`%` cannot start here", "");
    let found = Diagnostic::at(Some(words.span_from(3)), said, name);
    push(out, faulty.page, found)?;
    push_path(out, faulty, declared, number)
}
