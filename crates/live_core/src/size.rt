//! How many bytes the lines of calls have at most.

use decl_core::object::Operation;
use value_core::datum::Datum;
use value_core::kind::Elem;

// `start`, a number, a session, spaces and the LF; and `end`, a number, `refused` and a word, or `failed memory`.
const WORDS: usize = 128;

/// How many bytes the line of a new name has at most: `name`, a session, a name of 64 bytes, spaces and the LF.
pub const MOST_NAME: usize = 80;

// A text between apostrophes, and a space before it, of which each byte is an apostrophe.
const MOST_TEXT: usize = 2_003;

// How many bytes an argument has at most, with the space before it.
fn most_argument(argument: &Datum) -> usize {
    match argument {
        Datum::Integer(_) => 11,
        Datum::Text(text) => text.bytes().len().saturating_mul(2).saturating_add(3),
    }
}

fn most_arguments(arguments: &[Datum]) -> usize {
    let mut size: usize = 0;
    for argument in arguments {
        size = size.saturating_add(most_argument(argument));
    }
    size
}

fn most_reply(kind: Option<Elem>) -> usize {
    match kind {
        None => 0,
        Some(Elem::Integer) => 11,
        Some(Elem::Text) => MOST_TEXT,
    }
}

/// How many bytes the lines of a call of this operation have at most: `start` and `end`, or `cancel`.
pub fn most_lines(operation: &Operation, arguments: &[Datum]) -> usize {
    WORDS
        .saturating_add(operation.name.as_bytes().len())
        .saturating_add(most_arguments(arguments))
        .saturating_add(most_reply(operation.result))
}

/// How many bytes the lines have at most that tell a client of a call of this operation: `accepted`, and its last line.
pub fn most_told(operation: &Operation) -> usize {
    WORDS.saturating_add(most_reply(operation.result))
}
