//! What a run needs.

/// The device call that a run makes next.
#[derive(Clone, Copy, Debug, PartialEq, Eq)]
pub enum Need {
    /// It reads from a file that is pinned.
    Read,
    /// It begins a file.
    Create,
    /// It adds bytes to a file.
    Append,
    /// It ends a file.
    Seal,
    /// It makes none: it has ended.
    Done,
}
