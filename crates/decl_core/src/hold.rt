//! Holds: which calls are held until others have ended, and what is called again and again.

use path_tree::node::OpId;

/// A call of an operation that is done is held until a call of another one has ended.
#[derive(Debug, Drop)]
pub struct Hold {
    /// The operation whose calls are held.
    pub op: OpId,
    /// The operations that end it. Each takes nothing, or what the held call took and behind it what it replied.
    pub until: Vec<OpId>,
    /// Whether anybody may end it; else only who holds it.
    pub by_any: bool,
}

/// An operation that is called every so many seconds.
#[derive(Clone, Copy, Debug, Drop)]
pub struct Every {
    /// How many seconds: 1 to 86,400.
    pub seconds: u32,
    /// The operation: a procedure without parameters.
    pub op: OpId,
}

/// What an object says of clients that are gone and of time.
#[derive(Debug, Drop)]
pub struct Rules {
    /// Which calls are held until others have ended, in order; at most 16.
    pub holds: Vec<Hold>,
    /// What is called again and again, in order; at most 4.
    pub everies: Vec<Every>,
}
