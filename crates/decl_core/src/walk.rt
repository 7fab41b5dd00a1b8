//! What one walk over a tree finds of two operations.

ghost use Rattle.std.specs.Prelude.{◌≡◌, ◌<◌, ◌+◌, ◌^◌, ◌==◌, ◌&&◌, ◌||◌, if◌then◌else◌, false, Some, None, IfSome};
ghost use Rattle.path_tree.specs.Path.{path_of, paths_of};
ghost use Rattle.path_tree.specs.Names.{names, some_names};
ghost use Rattle.path_tree.specs.Limits.{node_count, count_of_all};
ghost use Rattle.decl_core.specs.Search.{meets, some_meets, separation, separation_among, further as further_on};
ghost use Rattle.decl_core.specs.Search.{first_of};

use path_tree::node::{Members, Node};

/// What a walk over some nodes found of two operations.
#[derive(Clone, Copy)]
pub struct Found {
    /// Whether they name the first operation.
    pub first: bool,
    /// Whether they name the second operation.
    pub second: bool,
    /// Whether both meet openly in them.
    pub meet: bool,
    /// The first node that separates both, counted from 0.
    pub at: Option<usize>,
    /// How many nodes there are.
    pub nodes: usize,
}

// The number of a node where so many nodes more are counted before it.
fn further(nodes: usize, at: Option<usize>) -> Option<usize>
    requires { IfSome at (λ k. nodes + k < 2 ^ 64) }
    ensures { result ≡ further_on nodes at }
{
    match at {
        Some(at) => Some(nodes + at),
        None => None,
    }
}

// The first of two nodes.
fn first(here: Option<usize>, there: Option<usize>) -> Option<usize>
    ensures { result ≡ first_of here there }
{
    match here {
        Some(at) => Some(at),
        None => there,
    }
}

// What is found in a name.
fn name(op: usize, first: usize, second: usize) -> Found
    ensures first { result.first ≡ (first == op) }
    ensures second { result.second ≡ (second == op) }
    ensures meet { result.meet ≡ ((first == op) && (second == op)) }
    ensures at { result.at ≡ None }
    ensures nodes { result.nodes ≡ 1 }
{
    Found {
        first: first == op,
        second: second == op,
        meet: first == op && second == op,
        at: None,
        nodes: 1,
    }
}

// What is found in two neighbours.
fn beside(here: Found, there: Found) -> Found
    requires few { here.nodes + there.nodes < 2 ^ 64 }
    requires here_within { IfSome here.at (λ k. k < here.nodes) }
    requires there_within { IfSome there.at (λ k. k < there.nodes) }
    ensures first { result.first ≡ (here.first || there.first) }
    ensures second { result.second ≡ (here.second || there.second) }
    ensures meet { result.meet ≡ (here.meet
        || (there.meet || ((here.first && there.second) || (here.second && there.first)))) }
    ensures at { result.at ≡ first_of here.at (further_on here.nodes there.at) }
    ensures nodes { result.nodes ≡ here.nodes + there.nodes }
    ensures within { IfSome result.at (λ k. k < result.nodes) }
{
    let apart = (here.first && there.second) || (here.second && there.first);
    Found {
        first: here.first || there.first,
        second: here.second || there.second,
        meet: here.meet || there.meet || apart,
        at: first(here.at, further(here.nodes, there.at)),
        nodes: here.nodes + there.nodes,
    }
}

// What is found in some nodes, with a node around them.
fn around(inner: Found) -> Found
    requires few { 1 + inner.nodes < 2 ^ 64 }
    requires inner_within { IfSome inner.at (λ k. k < inner.nodes) }
    ensures first { result.first ≡ inner.first }
    ensures second { result.second ≡ inner.second }
    ensures meet { result.meet ≡ inner.meet }
    ensures at { result.at ≡ further_on 1 inner.at }
    ensures nodes { result.nodes ≡ 1 + inner.nodes }
    ensures within { IfSome result.at (λ k. k < result.nodes) }
{
    Found {
        at: further(1, inner.at),
        nodes: 1 + inner.nodes,
        ..inner
    }
}

// What is found in a bound with this limit around what was found: with limit 1 it separates two operations that meet
// openly in it.
fn bounded(limit: u16, inner: Found) -> Found
    requires few { 1 + inner.nodes < 2 ^ 64 }
    requires inner_within { IfSome inner.at (λ k. k < inner.nodes) }
    ensures first { result.first ≡ inner.first }
    ensures second { result.second ≡ inner.second }
    ensures meet { result.meet ≡ inner.meet }
    ensures at { result.at ≡ (if (limit == 1) && inner.meet then Some 0 else further_on 1 inner.at) }
    ensures nodes { result.nodes ≡ 1 + inner.nodes }
    ensures within { IfSome result.at (λ k. k < result.nodes) }
{
    let mut found = around(inner);
    if limit == 1 && inner.meet {
        found.at = Some(0);
    }
    found
}

// What is found in a burst around what was found: in it no two operations meet openly.
fn burst(inner: Found) -> Found
    requires few { 1 + inner.nodes < 2 ^ 64 }
    requires inner_within { IfSome inner.at (λ k. k < inner.nodes) }
    ensures first { result.first ≡ inner.first }
    ensures second { result.second ≡ inner.second }
    ensures meet { result.meet ≡ false }
    ensures at { result.at ≡ further_on 1 inner.at }
    ensures nodes { result.nodes ≡ 1 + inner.nodes }
    ensures within { IfSome result.at (λ k. k < result.nodes) }
{
    Found {
        meet: false,
        ..around(inner)
    }
}

/// What is found in a tree.
#[cycle(walk)]
pub fn walk(e: &Node, first: usize, second: usize) -> Found
    requires { node_count (path_of e.now) < 2 ^ 64 }
    ensures first { result.first ≡ names (path_of e.now) first }
    ensures second { result.second ≡ names (path_of e.now) second }
    ensures meet { result.meet ≡ meets (path_of e.now) first second }
    ensures at { result.at ≡ separation (path_of e.now) first second }
    ensures nodes { result.nodes ≡ node_count (path_of e.now) }
    ensures within { IfSome result.at (λ k. k < result.nodes) }
{
    match e {
        Node::Name(op) => name(usize::from(*op), first, second),
        Node::List(members) => around(walk_all(members, first, second)),
        Node::Sequence(members) => around(walk_all(members, first, second)),
        Node::Bound(limit, e) => bounded(*limit, walk(e, first, second)),
        Node::Burst(e) => burst(walk(e, first, second)),
    }
}

// What is found in members.
#[cycle(walk)]
fn walk_all(members: &Members, first: usize, second: usize) -> Found
    requires { count_of_all (paths_of members.now) < 2 ^ 64 }
    ensures first { result.first ≡ some_names (paths_of members.now) first }
    ensures second { result.second ≡ some_names (paths_of members.now) second }
    ensures meet { result.meet ≡ some_meets (paths_of members.now) first second }
    ensures at { result.at ≡ separation_among (paths_of members.now) first second }
    ensures nodes { result.nodes ≡ count_of_all (paths_of members.now) }
    ensures within { IfSome result.at (λ k. k < result.nodes) }
{
    match members {
        Members::Two(a, b) => beside(walk(a, first, second), walk(b, first, second)),
        Members::More(a, rest) => beside(walk(a, first, second), walk_all(rest, first, second)),
    }
}
