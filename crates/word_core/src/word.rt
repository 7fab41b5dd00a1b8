//! Words.

use value_core::datum::Datum;
use value_core::text::Text;

/// A word of a line, as it is read.
#[derive(Clone, Copy)]
pub enum Word<'a> {
    /// Bytes as they stand: some, none of them a space, the first no apostrophe.
    Bare(&'a [u8]),
    /// A text that stood between apostrophes.
    Quoted(Text),
}

/// A word of a line, as it is written.
#[derive(Clone, Copy)]
pub enum Written<'a> {
    /// Bytes as they stand.
    Bare(&'a [u8]),
    /// An integer, without leading zeros.
    Integer(u64),
    /// A session: `s` and its number.
    Session(u64),
    /// An integer or a text.
    Datum(&'a Datum),
}
