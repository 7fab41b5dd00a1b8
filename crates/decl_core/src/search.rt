//! The first node that separates two operations.

ghost use Rattle.std.specs.Prelude.{◌≡◌, ◌↔◌, ◌≤◌, ◌<◌, ◌^◌, ◌⊎◌, ℕ, MatchOption, IsTrue};
ghost use Rattle.path_tree.specs.Path.{path_of, paths_of};
ghost use Rattle.path_tree.specs.Limits.{node_count, count_of_all};
ghost use Rattle.decl_core.specs.ObjectMap.{object_of};
ghost use Rattle.decl_core.specs.Search.{separation, separates_at, one_separates_at};
ghost use Rattle.decl_core.specs.Exclusive.{SeparatedBy, AreSeparated};

use crate::object::Object;
use crate::walk::walk;
use path_tree::node::{Members, Node};
use path_tree::tree::PathTree;

/// A node of a path of an object.
#[derive(Clone, Copy)]
pub struct Place {
    /// The path, counted from 1.
    pub path: usize,
    /// The node, counted from 0, each before those in it.
    pub node: usize,
}

/// The first path of an object, and in it the first node, that separates two operations.
pub fn separation_of(object: &Object, first: usize, second: usize) -> Option<Place>
    ensures { MatchOption result (AreSeparated (object_of object.now) first second → ⊥)
        (λ at. SeparatedBy (object_of object.now) at.path at.node first second
        × ((path node : ℕ) → SeparatedBy (object_of object.now) path node first second →
        (at.path < path) ⊎ ((at.path ≡ path) × (at.node ≤ node)))) }
{
    for (place, path) in object.paths.iter().enumerate() {
        if let Some(node) = separation_in(path, first, second) {
            return Some(Place {
                path: place + 1,
                node,
            });
        }
    }
    None
}

// The first node of a path that separates two operations.
fn separation_in(path: &PathTree, first: usize, second: usize) -> Option<usize>
    ensures { result ≡ separation path.now first second }
{
    walk(path.root(), first, second).at
}

/// Whether this node of this path of an object separates two operations.
pub fn is_separated_by(
    object: &Object,
    path: usize,
    node: usize,
    first: usize,
    second: usize,
) -> bool
    ensures { IsTrue result ↔ SeparatedBy (object_of object.now) path node first second }
{
    if path == 0 {
        return false;
    }
    match object.paths.get(path - 1) {
        None => false,
        Some(path) => separates_in(path, node, first, second),
    }
}

// Whether the node of this number of a path separates two operations.
fn separates_in(path: &PathTree, node: usize, first: usize, second: usize) -> bool
    ensures { result ≡ separates_at path.now node first second }
{
    separates(path.root(), node, first, second)
}

// Whether the node of this number in a tree separates two operations.
#[cycle(separates)]
fn separates(e: &Node, node: usize, first: usize, second: usize) -> bool
    requires { node_count (path_of e.now) < 2 ^ 64 }
    ensures { result ≡ separates_at (path_of e.now) node first second }
{
    match e {
        Node::Name(_) => false,
        Node::List(members) => node > 0 && one_separates(members, node - 1, first, second),
        Node::Sequence(members) => node > 0 && one_separates(members, node - 1, first, second),
        Node::Bound(limit, e) => {
            if node == 0 {
                *limit == 1 && walk(e, first, second).meet
            } else {
                separates(e, node - 1, first, second)
            }
        }
        Node::Burst(e) => node > 0 && separates(e, node - 1, first, second),
    }
}

// Whether the node of this number of some members separates two operations. The first node of the first member has
// number 0.
#[cycle(separates)]
fn one_separates(members: &Members, node: usize, first: usize, second: usize) -> bool
    requires { count_of_all (paths_of members.now) < 2 ^ 64 }
    ensures { result ≡ one_separates_at (paths_of members.now) node first second }
{
    match members {
        Members::Two(a, b) => {
            let nodes = nodes_of(a);
            if node < nodes {
                separates(a, node, first, second)
            } else {
                separates(b, node - nodes, first, second)
            }
        }
        Members::More(a, rest) => {
            let nodes = nodes_of(a);
            if node < nodes {
                separates(a, node, first, second)
            } else {
                one_separates(rest, node - nodes, first, second)
            }
        }
    }
}

// How many nodes a tree has.
#[cycle(nodes)]
fn nodes_of(e: &Node) -> usize
    requires { node_count (path_of e.now) < 2 ^ 64 }
    ensures { result ≡ node_count (path_of e.now) }
{
    match e {
        Node::Name(_) => 1,
        Node::List(members) => 1 + nodes_of_all(members),
        Node::Sequence(members) => 1 + nodes_of_all(members),
        Node::Bound(_, e) => 1 + nodes_of(e),
        Node::Burst(e) => 1 + nodes_of(e),
    }
}

// How many nodes members have.
#[cycle(nodes)]
fn nodes_of_all(members: &Members) -> usize
    requires { count_of_all (paths_of members.now) < 2 ^ 64 }
    ensures { result ≡ count_of_all (paths_of members.now) }
{
    match members {
        Members::Two(a, b) => nodes_of(a) + nodes_of(b),
        Members::More(a, rest) => nodes_of(a) + nodes_of_all(rest),
    }
}
