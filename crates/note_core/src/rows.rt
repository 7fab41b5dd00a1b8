//! Tables of what is said of a fault: the first row that fits is said.
//!
//! A row is a `When` with its tests, an `Or` with others that do as well, a `Note` and a `Help`. Where it has no `Note` that of
//! the row above is said.

use crate::said::{Message, say};
use crate::seen::{Fact, Near, Where};

/// Words and signs, with a space between two: that one of them stands there. `NAME`, `NUMBER`, `WORD` (a reserved one),
/// `VALUE` (what can end one) and `NONE` (the end) stand for all of their kind.
pub(crate) type OneOf = &'static str;

/// What has to be so where a row fits.
#[derive(Clone, Copy)]
pub(crate) enum Test {
    Is(Where, OneOf),
    Not(Where, OneOf),
    In(Fact),
    Out(Fact),
    /// The source goes on with one of these, from the place of the fault on.
    At(OneOf),
}

/// A piece of a row.
#[derive(Clone, Copy)]
pub(crate) enum Item {
    /// Begins a row, which fits where all of this is so.
    When(&'static [Test]),
    /// It fits there too.
    Or(&'static [Test]),
    /// The sentence that is said.
    Note(&'static str),
    /// What helps.
    Help(&'static str),
}

/// A table.
pub(crate) type Entries = &'static [Item];

// Whether a test holds.
fn holds(test: Test, seen: Near<'_>) -> bool {
    match test {
        Test::Is(place, words) => seen.is_any(place, words),
        Test::Not(place, words) => !seen.is_any(place, words),
        Test::In(fact) => seen.has(fact),
        Test::Out(fact) => !seen.has(fact),
        Test::At(words) => seen.goes_on(words),
    }
}

// Whether all of these hold.
fn fit(tests: &[Test], seen: Near<'_>) -> bool {
    for test in tests {
        if !holds(*test, seen) {
            return false;
        }
    }
    true
}

/// What the first row says that fits.
pub(crate) fn said_by(rows: Entries, seen: Near<'_>) -> Option<Message> {
    let mut fits = true;
    let mut sentence = "";
    for item in rows {
        match *item {
            Item::When(tests) => fits = fit(tests, seen),
            Item::Or(tests) => fits = fits || fit(tests, seen),
            Item::Note(text) => sentence = text,
            Item::Help(text) => if fits {
                return Some(say(sentence, text));
            },
        }
    }
    None
}
