//! Why a path refuses a start.

use path_tree::node::OpId;

/// What a node lacks.
#[derive(Clone, Copy, Debug, PartialEq, Eq)]
pub enum Lack {
    /// Room: as many activations of what it bounds are open as may be.
    Full,
    /// A finish of the member in front of this semicolon of a sequence, counted from 1, that no start has used.
    Turn(usize),
}

/// A node at which a path refuses a start now.
#[derive(Drop)]
pub struct Reason {
    /// The path, counted from 1.
    pub path: usize,
    /// Its node, counted from 0, each before those in it.
    pub node: usize,
    /// What the node lacks.
    pub lack: Lack,
    /// The operations, as they stand in the path, one of which has to finish before the start.
    pub needs: Vec<OpId>,
}
