//! Notes on places of a source.

use crate::place::{Position, place_of};
use crate::said::{Message, MessageWords, push_sentence};
use crate::span::{Span, behind, front};
use itoa::Buffer;
use path_tree::token::Token;
use std::alloc::AllocError;
use value_core::next_line;

/// A source, the name of its file, and its tokens, where it has some.
#[derive(Clone, Copy)]
pub struct Page<'a> {
    pub file: &'a [u8],
    pub source: &'a [u8],
    pub tokens: &'a [Token],
}

// A line of a source as it is shown: of a long one a piece.
#[derive(Clone, Copy)]
struct Shown<'a> {
    text: &'a [u8],
    // how many bytes of the line stand before the piece
    cut: usize,
    // whether something stands behind it
    has_more: bool,
}

// The most bytes of a line that are shown.
const MOST_SHOWN: usize = 120;

// The width of the numbers of lines.
const NUMBER_WIDTH: usize = 5;

// Adds a number.
fn push_number(out: &mut Vec<u8>, number: usize) -> Result<(), AllocError> {
    let mut buffer = Buffer::new();
    out.extend_from_slice(buffer.format(number as u64).as_bytes())
}

// Adds a byte so many times.
fn push_times(out: &mut Vec<u8>, byte: u8, times: usize) -> Result<(), AllocError> {
    for _ in 0..times {
        out.push(byte)?;
    }
    Ok(())
}

// Adds the number of a line, on the right of its column.
fn push_line_number(out: &mut Vec<u8>, line: usize) -> Result<(), AllocError> {
    let mut buffer = Buffer::new();
    let digits = buffer.format(line as u64).as_bytes();
    push_times(out, b' ', NUMBER_WIDTH.saturating_sub(digits.len()))?;
    out.extend_from_slice(digits)?;
    out.extend_from_slice(b" | ")
}

// Adds what stands below a line number.
fn push_margin(out: &mut Vec<u8>, sign: &[u8]) -> Result<(), AllocError> {
    push_times(out, b' ', NUMBER_WIDTH)?;
    out.extend_from_slice(sign)
}

// A byte as it is shown: one column each, so that a caret below it fits.
fn shown_byte(byte: u8) -> u8 {
    match byte {
        b'\t' | 32..=126 => byte,
        _ => b'?',
    }
}

// What stands above a caret's line.
fn blank_below(byte: u8) -> u8 {
    match byte {
        b'\t' => byte,
        _ => b' ',
    }
}

// The line of the byte at a place.
fn line_with(source: &[u8], at: usize, column: usize) -> &[u8] {
    let start = at.saturating_sub(column.saturating_sub(1));
    match next_line(behind(source, start)) {
        Some((line, _)) => line,
        None => b"",
    }
}

// What is shown of a line, so that this column is in it.
fn show(line: &[u8], column: usize) -> Shown<'_> {
    let cut = if column < MOST_SHOWN {
        0
    } else {
        column - MOST_SHOWN / 2
    };
    let rest = behind(line, cut);
    Shown {
        text: front(rest, MOST_SHOWN),
        cut,
        has_more: rest.len() > MOST_SHOWN,
    }
}

// Adds what is shown of a line.
fn push_shown(out: &mut Vec<u8>, shown: Shown<'_>) -> Result<(), AllocError> {
    if shown.cut > 0 {
        out.extend_from_slice(b"...")?;
    }
    for byte in shown.text {
        out.push(shown_byte(*byte))?;
    }
    if shown.has_more {
        out.extend_from_slice(b"...")?;
    }
    out.push(b'\n')?;
    Ok(())
}

// Adds a caret under a column, and a line under so many bytes behind it.
fn push_caret(
    out: &mut Vec<u8>,
    shown: Shown<'_>,
    column: usize,
    length: usize,
) -> Result<(), AllocError> {
    if shown.cut > 0 {
        out.extend_from_slice(b"   ")?;
    }
    let before = column.saturating_sub(1).saturating_sub(shown.cut);
    for byte in front(shown.text, before) {
        out.push(blank_below(*byte))?;
    }
    out.push(b'^')?;
    let room = shown.text.len().saturating_sub(before).saturating_sub(1);
    push_times(out, b'~', length.saturating_sub(1).min(room))?;
    out.push(b'\n')?;
    Ok(())
}

// Adds `FILE:LINE:COLUMN: `.
fn push_place(out: &mut Vec<u8>, file: &[u8], place: Position) -> Result<(), AllocError> {
    out.extend_from_slice(file)?;
    out.push(b':')?;
    push_number(out, place.line)?;
    out.push(b':')?;
    push_number(out, place.column)?;
    out.extend_from_slice(b": ")
}

/// Adds where a stretch stands, a sentence, and its first line with a caret under it.
pub fn push_note(
    out: &mut Vec<u8>,
    page: Page<'_>,
    span: Span,
    sentence: &str,
    words: MessageWords<'_>,
) -> Result<(), AllocError> {
    let place = place_of(page.source, span.start);
    push_place(out, page.file, place)?;
    push_sentence(out, sentence, words)?;
    out.push(b'\n')?;
    let line = line_with(page.source, span.start, place.column);
    let shown = show(line, place.column);
    push_line_number(out, place.line)?;
    push_shown(out, shown)?;
    push_margin(out, b" | ")?;
    push_caret(
        out,
        shown,
        place.column,
        span.end.saturating_sub(span.start),
    )
}

/// Adds a line that says what helps.
pub fn push_help(out: &mut Vec<u8>, help: &str, words: MessageWords<'_>) -> Result<(), AllocError> {
    push_margin(out, b" = ")?;
    push_sentence(out, help, words)?;
    out.push(b'\n')?;
    Ok(())
}

/// Adds a note, and what helps.
pub fn push_said(
    out: &mut Vec<u8>,
    page: Page<'_>,
    span: Span,
    said: Message,
    words: MessageWords<'_>,
) -> Result<(), AllocError> {
    push_note(out, page, span, said.sentence, words)?;
    push_help(out, said.help, words)
}

/// Adds a line that is to be written into the source.
pub fn push_new_line(out: &mut Vec<u8>, line: &[u8]) -> Result<(), AllocError> {
    push_margin(out, b" + ")?;
    out.extend_from_slice(b"  ")?;
    out.extend_from_slice(line)?;
    out.push(b'\n')?;
    Ok(())
}
