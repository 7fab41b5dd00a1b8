//! Findings on lines: what is looked for, and what stands in their sentences.

use crate::line_words::LineWords;
use crate::said::MessageWords;
use crate::span::{Span, front};
use std::alloc::AllocError;

// The most bytes of a word that a sentence shows.
const MOST_SHOWN: usize = 64;

// A byte as a sentence shows it.
fn shown_byte(byte: u8) -> u8 {
    match byte {
        32..=126 => byte,
        _ => b'?',
    }
}

/// Adds some bytes of a text as a sentence shows them: of many the first ones, and `?` for what is no character of ASCII.
pub fn push_shown(out: &mut Vec<u8>, bytes: &[u8]) -> Result<(), AllocError> {
    for byte in front(bytes, MOST_SHOWN) {
        out.push(shown_byte(*byte))?;
    }
    if bytes.len() > MOST_SHOWN {
        out.extend_from_slice(b" ..")?;
    }
    Ok(())
}

/// The words of a sentence that has two.
pub fn two<'a>(first: &'a [u8], second: &'a [u8]) -> MessageWords<'a> {
    MessageWords {
        first,
        second,
        third: b"",
        fourth: b"",
    }
}

/// Where the first word from this number on stands that is neither an integer nor a text.
pub fn first_other(words: &LineWords<'_>, number: usize) -> Option<Span> {
    for (place, placed) in words.all.iter().enumerate() {
        if place >= number && !placed.is_datum {
            return Some(placed.span);
        }
    }
    None
}
