//! The nodes of a path.

/// The number of an operation: its place among the names that its path was read with, from 0, below 65,535.
pub type OpId = u16;

/// A path expression: the name of an operation, or a form over path expressions
/// (Campbell and Habermann, 1974).
#[derive(Drop)]
#[cycle(path)]
pub enum Node {
    /// The operation of this number.
    Name(OpId),
    /// `a, b`: any member, at any time.
    List(Box<Members>),
    /// `a; b`: each start of a member needs a finish of the one before it.
    Sequence(Box<Members>),
    /// `n:(e)`: at most so many activations at a time.
    Bound(u16, Box<Node>),
    /// `[e]`: activations that overlap count as one.
    Burst(Box<Node>),
}

/// Two or more members of a list or of a sequence.
#[derive(Drop)]
#[cycle(path)]
pub enum Members {
    /// The last two members.
    Two(Node, Node),
    /// A member, and those after it.
    More(Node, Box<Members>),
}
