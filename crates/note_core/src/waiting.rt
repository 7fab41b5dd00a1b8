//! Where the operations that are lost wait.

use crate::case::{count_of, name_of, path_tokens};
use crate::diagnostic::{Allocated, Diagnostic, Joint, Piece, at_token, push_found, with_one};
use crate::op_set::{OpSet, no_ops};
use crate::stuck_explain::Loss;
use crate::tokens::find_name;
use path_count::counters::compile;
use path_tree::node::OpId;
use path_tree::tree::PathTree;
use std::alloc::Global;
use std::slice::from_ref;
use stuck_core::wait::waits_of;

// The lost operations, but for those that are told, that this path alone refuses after the calls, each over before the
// next one starts.
fn refused_by(loss: Loss<'_>, path: &PathTree, told: OpSet) -> Allocated<OpSet> {
    let mut counters = compile(loss.case.alloc, from_ref(path), count_of(loss.case.object))?;
    for op in loss.calls {
        counters.start(*op);
        counters.finish(*op);
    }
    let mut refused = no_ops();
    for op in loss.lost.all() {
        if !told.has(*op) && !counters.can_start(*op) {
            refused = refused.with(*op);
        }
    }
    Ok(refused)
}

// The operations one of which has to end before this one starts, where this path refuses it.
fn needs_of(alloc: Global, path: &PathTree, op: OpId) -> Allocated<OpSet> {
    let mut needs = no_ops();
    for place in &waits_of(alloc, path, op)? {
        needs = needs.with_all(&place.needs);
    }
    Ok(needs)
}

// Those of some operations that wait in this path for just these.
fn waiting_for(alloc: Global, path: &PathTree, ops: OpSet, needs: OpSet) -> Allocated<OpSet> {
    let mut those = no_ops();
    for op in ops.all() {
        let others = needs_of(alloc, path, *op)?;
        if others.all() == needs.all() {
            those = those.with(*op);
        }
    }
    Ok(those)
}

// Where operations wait for the same in the path of this number: told where this one is the first of them.
fn of_wait<'a>(
    loss: Loss<'_>,
    number: usize,
    op: OpId,
    ops: OpSet,
    needs: OpSet,
) -> Option<Diagnostic<'a>> {
    let sentence = match ops.all() {
        [first] if *first == op => "here `%` waits for an end of `$`",
        [first, ..] if *first == op => "here `%` wait for an end of `$`",
        _ => return None,
    };
    let said = Diagnostic {
        second: Piece::Names(needs, Joint::Or),
        ..with_one(sentence, Piece::Names(ops, Joint::And))
    };
    let path = path_tokens(loss.case.tokens, number);
    at_token(path, find_name(path, name_of(loss.case.object, op))?, said)
}

// Adds where operations wait that the path of this number refuses.
fn push_waits(
    out: &mut Vec<u8>,
    loss: Loss<'_>,
    number: usize,
    path: &PathTree,
    refused: OpSet,
) -> Allocated<()> {
    let alloc = loss.case.alloc;
    for op in refused.all() {
        let needs = needs_of(alloc, path, *op)?;
        let ops = waiting_for(alloc, path, refused, needs)?;
        push_found(out, loss.case, of_wait(loss, number, *op, ops, needs))?;
    }
    Ok(())
}

/// Adds where each lost operation waits after the calls: in the first path that refuses it.
pub(crate) fn push_waiting(out: &mut Vec<u8>, loss: Loss<'_>) -> Allocated<()> {
    let mut told = no_ops();
    for (number, path) in loss.case.object.paths.iter().enumerate() {
        let refused = refused_by(loss, path, told)?;
        push_waits(out, loss, number, path, refused)?;
        told = told.with_all(refused.all());
    }
    Ok(())
}
