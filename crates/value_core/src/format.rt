//! The layouts of the bytes of a value.

/// How a value is laid out in bytes. The second one is written; the first one is read, where it was kept
/// before.
#[derive(Clone, Copy, Debug, PartialEq, Eq)]
pub enum Format {
    /// A text has one byte for its length, so at most 255 bytes.
    First,
    /// A text has two bytes for its length, and at most 1,000 bytes.
    Second,
}
