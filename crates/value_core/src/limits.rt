//! The limits of a text and of a value.

/// The most bytes of a text.
pub const MOST_TEXT_BYTES: usize = 1000;

/// The number of a text's bytes.
pub type TextLength = u16;

/// The most elements of a value.
pub const MOST_ELEMENTS: u16 = 1024;
