//! A session that was given out.

ghost use Rattle.std.specs.Prelude.{◌≡◌, ◌≤◌};

/// A session that was given out: the greatest place of the history that it has seen, and how many receipts it had.
#[derive(Debug, Drop)]
pub struct Seat {
    pub(crate) session: u32,
    pub(crate) seen: usize,
    pub(crate) count: usize,
    // each receipt was of a place of its own
    ghost few: { count ≤ seen },
}

impl Seat {
    /// Its session, from 1 to 1,024.
    pub fn session(&self) -> u32
        ensures { result ≡ self.now.session }
    {
        self.session
    }

    /// The greatest place of the history that it has seen, from 1, or 0.
    pub fn seen(&self) -> usize
        ensures { result ≡ self.now.seen }
    {
        self.seen
    }

    /// How many receipts it had.
    pub fn count(&self) -> usize
        ensures count { result ≡ self.now.count }
        ensures few { result ≤ self.now.seen }
    {
        self.count
    }
}
