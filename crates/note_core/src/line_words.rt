//! The words of a line, each with its place.

use crate::span::{Span, text_at};
use std::alloc::{AllocError, Global};
use value_core::words::skip_spaces;
use word_core::next::{Next, next_word};
use word_core::number::datum_of;
use word_core::word::Word;

/// Where a word of a line stands in the text, and what it is.
#[derive(Clone, Copy)]
pub struct Placed {
    pub span: Span,
    /// Whether it stands bare, and not in apostrophes.
    pub is_bare: bool,
    /// Whether it is an integer or a text.
    pub is_datum: bool,
}

/// The words of a line up to the first thing in it that is no word.
#[derive(Drop)]
pub struct LineWords<'a> {
    /// The text that the line is of.
    pub text: &'a [u8],
    pub all: Vec<Placed>,
    /// Where that thing stands, if there is one.
    pub bad: Option<Span>,
    /// Where the line stands.
    pub line: Span,
}

// Where the rest of a line that ends here stands.
fn rest_of(end: usize, rest: &[u8]) -> Span {
    let rest = skip_spaces(rest);
    Span {
        start: end.saturating_sub(rest.len()),
        end,
    }
}

// Whether a word stands bare.
fn is_bare(word: &Word<'_>) -> bool {
    match word {
        Word::Bare(_) => true,
        Word::Quoted(_) => false,
    }
}

// A word that stands there.
fn word_there(word: &Word<'_>, span: Span) -> Placed {
    Placed {
        span,
        is_bare: is_bare(word),
        is_datum: datum_of(word).is_some(),
    }
}

/// The words of the line that stands there in a text.
pub fn words_at(alloc: Global, text: &[u8], line: Span) -> Result<LineWords<'_>, AllocError> {
    let mut all = Vec::new(alloc);
    let mut bad = None;
    let bytes = text_at(text, line);
    let mut rest = bytes;
    for _ in 0..bytes.len() {
        let here = rest_of(line.end, rest);
        match next_word(rest) {
            Next::Nothing => break,
            Next::Bad => {
                bad = Some(here);
                break;
            }
            Next::Found(word, behind) => {
                let span = Span {
                    start: here.start,
                    end: line.end.saturating_sub(behind.len()),
                };
                all.push(word_there(&word, span))?;
                rest = behind;
            }
        }
    }
    Ok(LineWords {
        text,
        all,
        bad,
        line,
    })
}

impl<'a> LineWords<'a> {
    /// Where the word of this number, from 0, stands, if there is one.
    pub fn at(&self, number: usize) -> Option<Span> {
        match self.all.get(number) {
            Some(placed) => Some(placed.span),
            None => None,
        }
    }

    /// The bytes of the word of this number, where it stands bare, and else none.
    pub fn bare(&self, number: usize) -> &'a [u8] {
        match self.all.get(number) {
            Some(placed) => if placed.is_bare {
                text_at(self.text, placed.span)
            } else {
                b""
            },
            None => b"",
        }
    }

    /// Where the word of this number stands; where it is missing the end of the line.
    pub fn span(&self, number: usize) -> Span {
        match self.at(number) {
            Some(span) => span,
            None => Span {
                start: self.line.end,
                end: self.line.end,
            },
        }
    }

    /// Where the words from this number on stand.
    pub fn span_from(&self, number: usize) -> Span {
        Span {
            start: self.span(number).start,
            end: self.line.end,
        }
    }
}
