//! What the nodes of paths have counted.

ghost use Rattle.std.specs.Prelude.{◌≡◌, ◌≤◌, ◌<◌, ◌+◌, ◌++◌, ◌^◌, flat_map, length, slice_index, OnOk};
ghost use Rattle.path_tree.specs.Path.{path_of, paths_of};
ghost use Rattle.path_tree.specs.Limits.{node_count, count_of_all};
ghost use Rattle.path_count.specs.Program.{slots, slots_of};
ghost use Rattle.inside_core.specs.Counted.{node_place, node_line, turn_line, node_text, each_text, turns_text, paths_text};
ghost use Rattle.inside_core.specs.Counted.{object_nodes, nodes_text};

use crate::metric::{MetricKind, push_head, push_label, push_sample};
use live_core::hosted::Hosted;
use path_count::nodes::counters;
use path_tree::node::{Members, Node};
use path_tree::tree::PathTree;
use std::alloc::AllocError;
use stuck_core::nodes::nodes_of;
use value_core::reply::push_number;

// What a counter holds; beyond the last one it is 0.
fn word(words: &[u64], at: usize) -> u64
    ensures { result ≡ slice_index words.now at }
{
    match words.get(at) {
        Some(word) => *word,
        None => 0,
    }
}

// Adds where a node is.
fn push_place(out: &mut Vec<u8>, object: &[u8], path: usize, node: usize) -> Result<(), AllocError>
    ensures { OnOk result (out.new.items ≡ out.old.items ++ node_place object.now path node) }
{
    push_label(out, b"pathserve_node{object=\"", object)?;
    push_number(out, b",path=\"", path as u64)?;
    push_number(out, b"\",node=\"", node as u64)
}

// Adds what a bound or a burst has counted.
fn push_open(
    out: &mut Vec<u8>,
    object: &[u8],
    path: usize,
    node: usize,
    count: u64,
) -> Result<(), AllocError>
    ensures { OnOk result (out.new.items ≡ out.old.items ++ node_line object.now path node count) }
{
    push_place(out, object, path, node)?;
    push_sample(out, b"\"} ", count)
}

// Adds what a semicolon has counted.
fn push_turn(
    out: &mut Vec<u8>,
    object: &[u8],
    path: usize,
    node: usize,
    turn: usize,
    count: u64,
) -> Result<(), AllocError>
    ensures { OnOk result (out.new.items ≡ out.old.items ++ turn_line object.now path node turn count) }
{
    push_place(out, object, path, node)?;
    push_number(out, b"\",turn=\"", turn as u64)?;
    push_sample(out, b"\"} ", count)
}

// Adds what the nodes of a tree have counted.
#[cycle(nodes)]
fn push_tree(
    out: &mut Vec<u8>,
    object: &[u8],
    e: &Node,
    path: usize,
    at: usize,
    node: usize,
    words: &[u64],
) -> Result<(), AllocError>
    requires counters { at + slots (path_of e.now) < 2 ^ 64 }
    requires nodes { node + node_count (path_of e.now) < 2 ^ 64 }
    ensures { OnOk result (out.new.items ≡ out.old.items ++ node_text object.now (path_of e.now) path at node words.now) }
{
    match e {
        Node::Name(_) => Ok(()),
        Node::List(ms) => push_each(out, object, ms, path, at, node + 1, words),
        Node::Sequence(ms) => {
            push_turns(out, object, ms, path, at, node, 1, words)?;
            push_each(out, object, ms, path, at, node + 1, words)
        }
        Node::Bound(_, e) => {
            push_open(out, object, path, node, word(words, at))?;
            push_tree(out, object, e, path, at + 1, node + 1, words)
        }
        Node::Burst(e) => {
            push_open(out, object, path, node, word(words, at))?;
            push_tree(out, object, e, path, at + 1, node + 1, words)
        }
    }
}

// So of each member.
#[cycle(nodes)]
fn push_each(
    out: &mut Vec<u8>,
    object: &[u8],
    ms: &Members,
    path: usize,
    at: usize,
    node: usize,
    words: &[u64],
) -> Result<(), AllocError>
    requires counters { at + slots_of (paths_of ms.now) < 2 ^ 64 }
    requires nodes { node + count_of_all (paths_of ms.now) < 2 ^ 64 }
    ensures { OnOk result (out.new.items ≡ out.old.items ++ each_text object.now (paths_of ms.now) path at node words.now) }
{
    match ms {
        Members::Two(a, b) => {
            let next = at + 1 + counters(a);
            push_tree(out, object, a, path, at + 1, node, words)?;
            push_tree(out, object, b, path, next, node + nodes_of(a), words)
        }
        Members::More(a, rest) => {
            let next = at + 1 + counters(a);
            push_tree(out, object, a, path, at + 1, node, words)?;
            push_each(out, object, rest, path, next, node + nodes_of(a), words)
        }
    }
}

// Adds what the semicolons of a sequence have counted, from the one of this number on.
#[cycle(turns)]
fn push_turns(
    out: &mut Vec<u8>,
    object: &[u8],
    ms: &Members,
    path: usize,
    at: usize,
    node: usize,
    turn: usize,
    words: &[u64],
) -> Result<(), AllocError>
    requires counters { at + slots_of (paths_of ms.now) < 2 ^ 64 }
    requires turns { turn + count_of_all (paths_of ms.now) < 2 ^ 64 }
    ensures { OnOk result (out.new.items ≡ out.old.items ++ turns_text object.now (paths_of ms.now) path at node turn words.now) }
{
    match ms {
        Members::Two(_, _) => push_turn(out, object, path, node, turn, word(words, at)),
        Members::More(a, rest) => {
            let next = at + 1 + counters(a);
            push_turn(out, object, path, node, turn, word(words, at))?;
            push_turns(out, object, rest, path, next, node, turn + 1, words)
        }
    }
}

// How many counters a path has.
fn size(path: &PathTree) -> usize
    ensures { result ≡ slots path.now }
{
    counters(path.root())
}

// Adds what the nodes of the path of a number have counted, whose counters lie from a place on.
fn push_path(
    out: &mut Vec<u8>,
    object: &[u8],
    path: &PathTree,
    number: usize,
    at: usize,
    words: &[u64],
) -> Result<(), AllocError>
    requires { at + slots path.now < 2 ^ 64 }
    ensures { OnOk result (out.new.items ≡ out.old.items ++ node_text object.now path.now number at 0 words.now) }
{
    push_tree(out, object, path.root(), number, at, 0, words)
}

// Adds what the nodes of paths have counted, as far as their counters are there.
fn push_paths(
    out: &mut Vec<u8>,
    object: &[u8],
    paths: &[PathTree],
    number: usize,
    at: usize,
    words: &[u64],
) -> Result<(), AllocError>
    requires few { number + length paths.now < 2 ^ 64 }
    requires within { at ≤ length words.now }
    ensures { OnOk result (out.new.items ≡ out.old.items ++ paths_text object.now paths.now number at words.now) }
{
    match paths {
        [] => Ok(()),
        [first, more @ ..] => {
            let size = size(first);
            if words.len() - at < size {
                return Ok(());
            }
            push_path(out, object, first, number, at, words)?;
            push_paths(out, object, more, number + 1, at + size, words)
        }
    }
}

// Adds what the nodes of an object have counted.
fn push_object(out: &mut Vec<u8>, object: &Hosted) -> Result<(), AllocError>
    ensures { OnOk result (out.new.items ≡ out.old.items ++ object_nodes object.now) }
{
    let live = object.live();
    let name = object.name().as_bytes();
    let words = live.counters().words();
    push_paths(out, name, &live.object().paths, 1, 0, words)
}

// Adds what the nodes of objects have counted.
fn push_objects(out: &mut Vec<u8>, objects: &[Hosted]) -> Result<(), AllocError>
    ensures { OnOk result (out.new.items ≡ out.old.items ++ flat_map object_nodes objects.now) }
{
    match objects {
        [] => Ok(()),
        [first, more @ ..] => {
            push_object(out, first)?;
            push_objects(out, more)
        }
    }
}

/// Adds the metric of what the nodes of objects have counted. The error is that memory was refused; how much then stands in
/// `out` is not said.
pub(crate) fn push_nodes(out: &mut Vec<u8>, objects: &[Hosted]) -> Result<(), AllocError>
    ensures { OnOk result (out.new.items ≡ out.old.items ++ nodes_text objects.now) }
{
    push_head(
        out,
        b"pathserve_node",
        MetricKind::Gauge,
        b"What a node of a path has counted: what is open of a bound or a burst, or the ends that a semicolon has left.",
    )?;
    push_objects(out, objects)
}
