//! How many nodes a path has.

ghost use Rattle.std.specs.Prelude.{◌≡◌, ◌+◌, ◌<◌, MatchOption, nat_le};
ghost use Rattle.path_tree.specs.Path.{path_of, paths_of};
ghost use Rattle.path_tree.specs.Limits.{node_count, count_of_all};

use crate::node::{Members, Node};

/// The most nodes that a path may have.
pub const MOST_NODES: u32 = 256;

/// Whether a path has no more nodes than it may have.
pub(crate) fn is_small(e: &Node) -> bool
    ensures { result ≡ nat_le (node_count (path_of e.now)) 256 }
{
    match left_after(e, MOST_NODES) {
        Some(_) => true,
        None => false,
    }
}

/// What is left of so many nodes after those of a path, or `None` where they do not suffice.
#[cycle(counting)]
fn left_after(e: &Node, left: u32) -> Option<u32>
    ensures { MatchOption result (left < node_count (path_of e.now))
        (λ rest. rest + node_count (path_of e.now) ≡ left) }
{
    match e {
        Node::Name(_) => left.checked_sub(1),
        Node::List(members) => left_after_all(members, left.checked_sub(1)?),
        Node::Sequence(members) => left_after_all(members, left.checked_sub(1)?),
        Node::Bound(_, e) => left_after(e, left.checked_sub(1)?),
        Node::Burst(e) => left_after(e, left.checked_sub(1)?),
    }
}

#[cycle(counting)]
fn left_after_all(members: &Members, left: u32) -> Option<u32>
    ensures { MatchOption result (left < count_of_all (paths_of members.now))
        (λ rest. rest + count_of_all (paths_of members.now) ≡ left) }
{
    match members {
        Members::Two(a, b) => {
            let left = left_after(a, left)?;
            left_after(b, left)
        }
        Members::More(a, rest) => {
            let left = left_after(a, left)?;
            left_after_all(rest, left)
        }
    }
}
