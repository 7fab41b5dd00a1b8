//! Where a status goes.

/// Where a status goes, and what is known there of the system.
pub trait Sink {
    /// The time, in seconds since the beginning of 1970; 0 where it is not known.
    fn now(&mut self) -> u64;

    /// A time in nanoseconds that never goes back; 0 where it is not known.
    fn nanos(&mut self) -> u64;

    /// How many bytes of memory the system gave the server; 0 where it is not known.
    fn memory(&mut self) -> u64;

    /// Puts this text in place of the one before: in one step, or over it where there is no room for both. Where it cannot,
    /// the one before stays.
    fn put(&mut self, text: &[u8]);
}
