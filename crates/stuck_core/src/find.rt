//! Which paths refuse a start now, and where.

ghost use Rattle.std.specs.Prelude.{◌≡◌, ◌++◌, ◌∷◌, [], ◌+◌, ◌<◌, ◌≤◌, ◌^◌, ℕ, List, length, IfOk, OnOk};
ghost use Rattle.path_tree.specs.Path.{path_of, paths_of};
ghost use Rattle.path_tree.specs.Trace.{Event};
ghost use Rattle.path_tree.specs.Limits.{node_count, count_of_all};
ghost use Rattle.path_count.specs.Program.{slots, slots_of};
ghost use Rattle.path_count.specs.Object.{all_slots};
ghost use Rattle.path_count.specs.Stands.{StandsFor};
ghost use Rattle.stuck_core.specs.Reasons.{one_why, is_full, is_used_up, whys, each_whys, turn_whys, all_whys};
ghost use Rattle.stuck_core.specs.ReasonViews.{whys_of};
ghost use Rattle.stuck_core.specs.Tells.{IsCounted, Tells};
ghost use Rattle.stuck_core.specs.declared.reason.Lack.TheVariants as lacks;

use crate::beginnings::{begins, begins_first, word};
use crate::nodes::nodes_of;
use crate::reason::{Lack, Reason};
use crate::wait::push_enders;
use path_count::counters::Counters;
use path_count::nodes::counters;
use path_tree::node::{Members, Node, OpId};
use path_tree::tree::PathTree;
use std::alloc::{AllocError, Global};

// Adds a reason where there is one: an end of this tree is needed.
fn push_reason(
    alloc: Global,
    is: bool,
    path: usize,
    node: usize,
    lack: Lack,
    e: &Node,
    found: &mut Vec<Reason>,
) -> Result<(), AllocError>
    ensures { OnOk result (whys_of found.new.items ≡ whys_of found.old.items
        ++ one_why is path node lack (path_of e.now)) }
{
    if is {
        let mut needs = Vec::new(alloc);
        push_enders(e, &mut needs)?;
        found.push(Reason {
            path,
            node,
            lack,
            needs,
        })?;
    }
    Ok(())
}

// Whether a bound at this place is full, and a start of the operation would begin what it bounds.
fn is_bound_full(limit: u16, e: &Node, at: usize, op: OpId, words: &[u64]) -> bool
    requires { (at + 1) + slots (path_of e.now) < 2 ^ 64 }
    ensures { result ≡ is_full limit (path_of e.now) at op words.now }
{
    begins(e, at + 1, op, words) && word(words, at) >= limit as u64
}

// Whether what comes next would begin, and no finish is left for it at this place.
fn has_no_finish(begun: bool, at: usize, words: &[u64]) -> bool
    ensures { result ≡ is_used_up begun at words.now }
{
    begun && word(words, at) == 0
}

// Adds what the nodes of a tree lack.
#[cycle(reasons)]
fn push_reasons(
    alloc: Global,
    e: &Node,
    path: usize,
    at: usize,
    node: usize,
    op: OpId,
    words: &[u64],
    found: &mut Vec<Reason>,
) -> Result<(), AllocError>
    requires counters { at + slots (path_of e.now) < 2 ^ 64 }
    requires nodes { node + node_count (path_of e.now) < 2 ^ 64 }
    ensures { OnOk result (whys_of found.new.items ≡ whys_of found.old.items
        ++ whys (path_of e.now) path at node op words.now) }
{
    match e {
        Node::Name(_) => Ok(()),
        Node::List(ms) => push_each(alloc, ms, path, at, node + 1, op, words, found),
        Node::Sequence(ms) => {
            push_turns(alloc, ms, path, at, node, 1, op, words, found)?;
            push_each(alloc, ms, path, at, node + 1, op, words, found)
        }
        Node::Bound(limit, e) => {
            let full = is_bound_full(*limit, e, at, op, words);
            push_reason(alloc, full, path, node, Lack::Full, e, found)?;
            push_reasons(alloc, e, path, at + 1, node + 1, op, words, found)
        }
        Node::Burst(e) => push_reasons(alloc, e, path, at + 1, node + 1, op, words, found),
    }
}

// So of each member.
#[cycle(reasons)]
fn push_each(
    alloc: Global,
    ms: &Members,
    path: usize,
    at: usize,
    node: usize,
    op: OpId,
    words: &[u64],
    found: &mut Vec<Reason>,
) -> Result<(), AllocError>
    requires counters { at + slots_of (paths_of ms.now) < 2 ^ 64 }
    requires nodes { node + count_of_all (paths_of ms.now) < 2 ^ 64 }
    ensures { OnOk result (whys_of found.new.items ≡ whys_of found.old.items
        ++ each_whys (paths_of ms.now) path at node op words.now) }
{
    match ms {
        Members::Two(a, b) => {
            let next = at + 1 + counters(a);
            push_reasons(alloc, a, path, at + 1, node, op, words, found)?;
            push_reasons(alloc, b, path, next, node + nodes_of(a), op, words, found)
        }
        Members::More(a, rest) => {
            let next = at + 1 + counters(a);
            push_reasons(alloc, a, path, at + 1, node, op, words, found)?;
            push_each(
                alloc,
                rest,
                path,
                next,
                node + nodes_of(a),
                op,
                words,
                found,
            )
        }
    }
}

// Adds what the semicolons of a sequence lack, from the one of this number on.
#[cycle(turning)]
fn push_turns(
    alloc: Global,
    ms: &Members,
    path: usize,
    at: usize,
    node: usize,
    turn: usize,
    op: OpId,
    words: &[u64],
    found: &mut Vec<Reason>,
) -> Result<(), AllocError>
    requires counters { at + slots_of (paths_of ms.now) < 2 ^ 64 }
    requires turns { turn + count_of_all (paths_of ms.now) < 2 ^ 64 }
    ensures { OnOk result (whys_of found.new.items ≡ whys_of found.old.items
        ++ turn_whys (paths_of ms.now) path at node turn op words.now) }
{
    match ms {
        Members::Two(a, b) => {
            let begun = begins(b, at + 1 + counters(a), op, words);
            let used_up = has_no_finish(begun, at, words);
            push_reason(alloc, used_up, path, node, Lack::Turn(turn), a, found)
        }
        Members::More(a, rest) => {
            let next = at + 1 + counters(a);
            let begun = begins_first(rest, next, op, words);
            let used_up = has_no_finish(begun, at, words);
            push_reason(alloc, used_up, path, node, Lack::Turn(turn), a, found)?;
            push_turns(alloc, rest, path, next, node, turn + 1, op, words, found)
        }
    }
}

// How many counters a path has.
fn size(path: &PathTree) -> usize
    ensures { result ≡ slots path.now }
{
    counters(path.root())
}

// Adds what the nodes of the path of a number lack, whose counters lie from a place on.
fn push_path(
    alloc: Global,
    path: &PathTree,
    number: usize,
    at: usize,
    op: OpId,
    words: &[u64],
    found: &mut Vec<Reason>,
) -> Result<(), AllocError>
    requires { at + slots path.now < 2 ^ 64 }
    ensures { OnOk result (whys_of found.new.items ≡ whys_of found.old.items ++ whys path.now number at 0 op words.now) }
{
    push_reasons(alloc, path.root(), number, at, 0, op, words, found)
}

// Adds what the nodes of paths lack, where there are as many counters as they have.
fn push_paths(
    alloc: Global,
    paths: &[PathTree],
    op: OpId,
    words: &[u64],
    found: &mut Vec<Reason>,
) -> Result<(), AllocError>
    ensures { OnOk result (all_slots paths.now ≤ length words.now →
        whys_of found.new.items ≡ whys_of found.old.items ++ all_whys paths.now 1 0 op words.now) }
{
    let mut at = 0;
    let mut number = 1;
    for path in paths {
        let size = size(path);
        if size > words.len() - at {
            return Ok(());
        }
        push_path(alloc, path, number, at, op, words, found)?;
        at += size;
        number += 1;
    }
    Ok(())
}

/// Why an operation cannot start now: each node at which a path of an object refuses it, by the paths, and each node
/// before those in it. `words` is what the counters of the paths hold. No reason: it may start. The error is that memory
/// was refused.
pub fn reasons(
    alloc: Global,
    paths: &[PathTree],
    words: &[u64],
    op: OpId,
) -> Result<Vec<Reason>, AllocError>
    ensures { IfOk result (λ found. (t : List Event) → IsCounted paths.now words.now t →
        Tells paths.now op t (whys_of found.items)) }
{
    let mut found = Vec::new(alloc);
    push_paths(alloc, paths, op, words, &mut found)?;
    Ok(found)
}

/// The same by the counters of the paths: where these stand for a trace, it is told of that trace.
pub fn reasons_by(
    alloc: Global,
    paths: &[PathTree],
    counters: &Counters,
    op: OpId,
) -> Result<Vec<Reason>, AllocError>
    ensures { IfOk result (λ found. (n : ℕ) (t : List Event) → StandsFor counters.now n paths.now t →
        Tells paths.now op t (whys_of found.items)) }
{
    let found = reasons(alloc, paths, counters.words(), op)?;
    Ok(found)
}
