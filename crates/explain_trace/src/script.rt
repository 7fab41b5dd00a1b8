//! The line that ended a script, and the calls before it that its object does not take.

use crate::called::wrong_call;
use crate::forms::wrong_in_line;
use crate::trace::push_verdict;
use check_core::head::named_object;
use check_core::open::{OpenedScript, open_script};
use decl_core::object::Object;
use note_core::diagnostic::{Both, push_both};
use note_core::files::Files;
use note_core::lacking::{push_lacking, push_unnamed};
use note_core::line_words::words_at;
use note_core::page::Page;
use note_core::span::{Span, behind, text_at};
use std::alloc::{AllocError, Global};
use value_core::next_line;
use word_core::said::{is_skipped, read_line};
use world_core::question::question_of;

// Of so many calls that are not taken it is said why.
const MOST_TOLD: usize = 16;

// A text as a page.
fn page_of<'a>(file: &'a str, source: &'a [u8]) -> Page<'a> {
    Page {
        file: file.as_bytes(),
        source,
        tokens: &[],
    }
}

/// Where the line stands that begins at a byte of a text, and at which byte the next one begins.
pub(crate) fn line_at(text: &[u8], start: usize) -> Option<(Span, usize)> {
    let (line, rest) = next_line(behind(text, start))?;
    let end = start.saturating_add(line.len());
    Some((Span { start, end }, text.len().saturating_sub(rest.len())))
}

// Whether a line ends a script: it says nothing, and asks nothing.
fn ends_script(alloc: Global, line: &[u8]) -> Result<bool, AllocError> {
    if is_skipped(line) || read_line(alloc, line)?.is_some() {
        return Ok(false);
    }
    Ok(question_of(alloc, line)?.is_none())
}

// Whether the line that stands there ends a script, and what is wrong with it: why it says nothing, or why the object does
// not take the call.
fn found_in<'a>(
    alloc: Global,
    text: &'a [u8],
    object: &'a Object,
    line: Span,
) -> Result<(bool, Both<'a>), AllocError> {
    let is_end = ends_script(alloc, text_at(text, line))?;
    let words = words_at(alloc, text, line)?;
    if is_end {
        Ok((true, wrong_in_line(&words, object)))
    } else {
        Ok((false, wrong_call(&words, object)))
    }
}

// Adds what is wrong with the first calls behind line 1 that the object does not take, and with the line that ends the
// script.
fn push_lines(out: &mut Vec<u8>, page: Page<'_>, object: &Object) -> Result<(), AllocError> {
    let mut told: usize = 0;
    let mut place = match line_at(page.source, 0) {
        Some((_, next)) => next,
        None => return Ok(()),
    };
    for _ in 0..page.source.len() {
        let Some((line, next)) = line_at(page.source, place) else {
            return Ok(());
        };
        let (is_end, found) = found_in(*out.allocator(), page.source, object, line)?;
        if is_end {
            return push_both(out, page, found);
        }
        if found.0.is_some() && told < MOST_TOLD {
            push_both(out, page, found)?;
            told = told.saturating_add(1);
        }
        place = next;
    }
    Ok(())
}

/// Adds what is wrong with a line, before which so many others came: why it says nothing, or why the object does not
/// take the call.
pub(crate) fn push_why(
    out: &mut Vec<u8>,
    object: &Object,
    before: usize,
    line: &[u8],
) -> Result<(), AllocError> {
    // A text in which the line has its number.
    let alloc = *out.allocator();
    let mut text = Vec::new(alloc);
    for _ in 0..before {
        text.push(b'\n')?;
    }
    text.extend_from_slice(line)?;
    let page = page_of("input", &text);
    let place = Span {
        start: before,
        end: text.len(),
    };
    let (_, found) = found_in(alloc, &text, object, place)?;
    push_both(out, page, found)
}

/// What a person is told of a script, or of a trace.
pub(crate) fn explained(
    alloc: Global,
    files: Files<'_>,
    source: &[u8],
    text: &[u8],
    is_trace: bool,
) -> Result<Vec<u8>, AllocError> {
    let mut out = Vec::new(alloc);
    let page = page_of(files.text, text);
    let declared = page_of(files.source, source);
    match named_object(alloc, text)? {
        None => push_unnamed(alloc, &mut out, page)?,
        Some(name) => match open_script(alloc, source, text)? {
            OpenedScript::Ready(accepted) => if is_trace {
                push_verdict(&mut out, page, declared, &accepted)?
            } else {
                push_lines(&mut out, page, accepted.object())?
            },
            OpenedScript::Told(_) => push_lacking(alloc, &mut out, page, files, source, &name)?,
        },
    }
    Ok(out)
}

/// What a person is told of the line that ended a script, if one did, and of the first 16 calls before it that are of
/// no operation of the object, or have other arguments than it takes; or of a first line that names no object of the
/// source. It is empty where there is nothing of that, and where the source, or the object, is refused: `explain` tells
/// why.
pub fn explain_script(
    alloc: Global,
    files: Files<'_>,
    source: &[u8],
    text: &[u8],
) -> Result<Vec<u8>, AllocError> {
    explained(alloc, files, source, text, false)
}
