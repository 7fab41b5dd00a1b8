//! Certificates: for each two operations that conflict, a node that separates them.

/// Two operations that conflict, and a node that separates them.
#[derive(Clone, Copy, Debug, PartialEq, Eq)]
pub struct SeparatedPair {
    /// The operation that is declared first, by its number.
    pub first: usize,
    /// The other one, or the same.
    pub second: usize,
    /// The path that the node stands in, counted from 1.
    pub path: usize,
    /// The node, counted from 0, each node before those in it, members from the left.
    pub node: usize,
}

/// The entries for the operations of an object that conflict, in order.
#[derive(Debug, Drop)]
pub struct Certificate {
    /// The entries, by their first and then by their second operation.
    pub entries: Vec<SeparatedPair>,
}
