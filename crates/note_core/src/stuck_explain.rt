//! The explanation of the objects of a source that lose operations.

use crate::case::{Case, all_ops, count_of};
use crate::diagnostic::{
    Allocated, Diagnostic, Joint, Piece, at_token, push_found, push_phrase, with_one,
};
use crate::explain::{Aspect, push_source};
use crate::op_set::{OpSet, no_ops};
use crate::shown::push_shown;
use crate::waiting::push_waiting;
use crate::ways::push_ways;
use path_tree::node::OpId;
use std::alloc::{AllocError, Global};
use stuck_core::found::{Finding, Findings, StuckVerdict};
use stuck_core::search::{MOST_STATES, find};

/// Calls of an object, one after the other, and the operations that are lost after them.
#[derive(Clone, Copy)]
pub(crate) struct Loss<'a> {
    pub case: Case<'a>,
    pub calls: &'a [OpId],
    pub lost: OpSet,
}

// So many calls of an operation, as they stand in a sentence behind others, or first.
fn run_of<'a>(op: OpId, count: usize, is_first: bool) -> Diagnostic<'a> {
    let sentence = match (is_first, count > 1) {
        (true, false) => "`$`",
        (true, true) => "% times `$`",
        (false, false) => ", `$`",
        (false, true) => ", % times `$`",
    };
    Diagnostic {
        second: Piece::Name(op),
        ..with_one(sentence, Piece::Number(count as u64))
    }
}

// Calls as they stand in a sentence, those of one operation that stand together in one.
fn calls_text(case: Case<'_>, calls: &[OpId]) -> Allocated<Vec<u8>> {
    let mut text = Vec::new(case.alloc);
    let mut count: usize = 0;
    for (at, op) in calls.iter().enumerate() {
        count = count.saturating_add(1);
        if calls.get(at.saturating_add(1)) != Some(op) {
            let is_first = text.is_empty();
            push_phrase(&mut text, case.object, run_of(*op, count, is_first))?;
            count = 0;
        }
    }
    Ok(text)
}

// Adds what is said of a loss.
fn push_loss(out: &mut Vec<u8>, loss: Loss<'_>, is_stuck: bool) -> Allocated<()> {
    let sentence = match (is_stuck, loss.calls.is_empty()) {
        (true, true) => "object `#` is stuck at once: none of its operations can ever start",
        (true, false) => "object `#` can get stuck: none of its operations can start again after %",
        (false, true) => "object `#` has operations that can never start: `$`",
        (false, false) => "object `#` can lose operations: `$` can never start again after %",
    };
    push_first(out, loss, sentence)?;
    push_waiting(out, loss)?;
    push_shown(out, loss)
}

// Adds what is said first of a loss.
fn push_first(out: &mut Vec<u8>, loss: Loss<'_>, sentence: &'static str) -> Allocated<()> {
    let calls = calls_text(loss.case, loss.calls)?;
    let said = Diagnostic {
        second: Piece::Names(loss.lost, Joint::And),
        ..with_one(sentence, Piece::Bytes(&calls))
    };
    push_found(out, loss.case, at_token(loss.case.tokens, 1, said))
}

// Adds what is said of an object that is stuck after these calls.
fn push_stuck(out: &mut Vec<u8>, case: Case<'_>, calls: &[OpId]) -> Allocated<()> {
    let loss = Loss {
        case,
        calls,
        lost: all_ops(case.object),
    };
    push_loss(out, loss, true)?;
    push_ways(out, loss)
}

// The calls after which an operation is lost, where it is.
fn calls_of(found: &Findings, op: OpId) -> Option<&[OpId]> {
    match found.each.get(usize::from(op)) {
        Some(Finding::Lost(calls)) => Some(calls),
        _ => None,
    }
}

// The loss of an operation, with all that are lost after just the same calls.
fn loss_of<'a>(case: Case<'a>, found: &'a Findings, op: OpId) -> Option<Loss<'a>> {
    let calls = calls_of(found, op)?;
    let mut lost = no_ops();
    for other in 0..count_of(case.object) {
        if let Some(others) = calls_of(found, other) {
            if others == calls {
                lost = lost.with(other);
            }
        }
    }
    Some(Loss { case, calls, lost })
}

// Adds what is said of an object that loses operations and does not get stuck: for the first ones, with the calls after
// which they are lost, and then for others, which are lost after other calls.
fn push_lost(out: &mut Vec<u8>, case: Case<'_>, found: &Findings) -> Allocated<()> {
    let mut told = no_ops();
    for op in 0..count_of(case.object) {
        if let Some(loss) = loss_of(case, found, op) {
            if !told.has(op) {
                push_loss(out, loss, false)?;
                if told.all().is_empty() {
                    push_ways(out, loss)?;
                }
                told = told.with_all(loss.lost.all());
            }
        }
    }
    Ok(())
}

/// Adds what is said of an accepted object, if it loses operations.
pub(crate) fn push_losses(out: &mut Vec<u8>, case: Case<'_>) -> Allocated<()> {
    let count = count_of(case.object);
    let found = find(case.alloc, &case.object.paths, count, MOST_STATES)?;
    match &found.ending {
        StuckVerdict::After(calls) => push_stuck(out, case, calls),
        StuckVerdict::Never | StuckVerdict::Unknown => push_lost(out, case, &found),
    }
}

/// What a person is told of each accepted object of a source in this file that loses an operation: after which calls,
/// where the lost ones wait and for what, what lines show it, and what would mend it. It is empty where there is
/// nothing to tell. It fails only with memory.
pub fn explain_stuck(alloc: Global, file: &[u8], source: &[u8]) -> Result<Vec<u8>, AllocError> {
    let mut out = Vec::new(alloc);
    push_source(alloc, &mut out, file, source, Aspect::Losses)?;
    Ok(out)
}
