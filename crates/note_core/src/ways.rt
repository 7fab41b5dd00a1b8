//! Small changes of an object with which it keeps every operation.

use crate::case::{Case, count_of, limit_at, paths_of};
use crate::change::{Rewrite, Trial, push_tried};
use crate::diagnostic::{Allocated, Diagnostic, Joint, NO_PIECE, Piece, push_found, with_one};
use crate::op_set::{OpSet, no_ops};
use crate::proposal::place_for_path;
use crate::span::{Span, span_of, text_at};
use crate::stuck_explain::Loss;
use crate::tokens::{begins, is_any_name, is_symbol, tokens_from};
use path_tree::node::{Node, OpId};
use path_tree::token::{Symbol, Token};
use path_tree::tree::PathTree;
use std::alloc::Global;
use stuck_core::wait::waits_of;

// The most changes that are tried of an object.
const MOST_TRIED: usize = 64;

// What is changed.
#[derive(Clone, Copy)]
enum Mend {
    // A further path lets fewer calls be under way.
    Path,
    // A bound is lower by one.
    Lower,
    // Two names stand the other way round.
    Turned,
    // A comma stands for a semicolon.
    Comma,
}

// The change of a kind in a path at the first of these tokens, or for a comma at the second, if there is one.
fn mend_at<'a>(mend: Mend, case: Case<'a>, here: &[Token]) -> Option<Rewrite<'a>> {
    let source = case.page.source;
    match (mend, here) {
        (Mend::Lower, _) => match limit_at(case.tokens, here) {
            Some((span, limit)) if limit > 1 => Some(Rewrite {
                span,
                text: with_one("%", Piece::Number((limit - 1) as u64)),
                sentence: "with % here no operation of `#` can be lost",
            }),
            _ => None,
        },
        (Mend::Turned, [first, turn, second, behind @ ..])
            if is_any_name(first)
                && is_symbol(turn, Symbol::Semicolon)
                && is_any_name(second)
                && !begins(behind, Symbol::Colon) => {
            Some(Rewrite {
                span: Span {
                    start: first.start,
                    end: second.end,
                },
                text: Diagnostic {
                    second: Piece::Bytes(text_at(source, span_of(first))),
                    ..with_one("%; $", Piece::Bytes(text_at(source, span_of(second))))
                },
                sentence: "with `%` here, the other way round, no operation of `#` can be lost",
            })
        }
        (Mend::Comma, [before, token, ..])
            if is_symbol(token, Symbol::Semicolon) && !is_symbol(before, Symbol::End) => {
            Some(Rewrite {
                span: span_of(token),
                text: with_one(",", NO_PIECE),
                sentence: "with `,` in the place of this `;` no operation of `#` can be lost",
            })
        }
        _ => None,
    }
}

// ---- a further path ----

// The operations with whose end one that begins a bounded path is through; none where it does not begin it.
fn through(alloc: Global, path: &PathTree, op: OpId) -> Allocated<OpSet> {
    let places = waits_of(alloc, path, op)?;
    match (path.root(), places.first()) {
        (Node::Bound(..), Some(place)) if place.node == 0 => Ok(no_ops().with_all(&place.needs)),
        _ => Ok(no_ops()),
    }
}

// The same; none also where another one begins the path than these first ones.
fn through_first(case: Case<'_>, path: &PathTree, first: OpSet, op: OpId) -> Allocated<OpSet> {
    for other in 0..count_of(case.object) {
        if !first.has(other) && !through(case.alloc, path, other)?.all().is_empty() {
            return Ok(no_ops());
        }
    }
    through(case.alloc, path, op)
}

// The operations with whose end one of the first ones is through, by the first path that they alone begin; none where there
// is no such path.
fn ends_of(case: Case<'_>, first: OpSet, op: OpId) -> Allocated<OpSet> {
    for path in &case.object.paths {
        let ends = through_first(case, path, first, op)?;
        if !ends.all().is_empty() {
            return Ok(ends);
        }
    }
    Ok(no_ops())
}

// A path that lets fewer calls be under way, from one of the first operations to one of the last.
fn path_from<'a>(calls: usize, first: OpSet, last: OpSet) -> Diagnostic<'a> {
    let sentence = match (first.all().len() > 1, last.all().len() > 1) {
        (false, false) => "\n  path %:($; @) end;",
        (false, true) => "\n  path %:($; (@)) end;",
        (true, false) => "\n  path %:(($); @) end;",
        (true, true) => "\n  path %:(($); (@)) end;",
    };
    with_one(sentence, Piece::Number(calls.saturating_sub(1) as u64)).with(
        Piece::Names(first, Joint::Comma),
        Piece::Names(last, Joint::Comma),
    )
}

// A path that lets one call fewer of those be under way that lead to the loss.
fn fewer<'a>(loss: Loss<'_>) -> Allocated<Option<Rewrite<'a>>> {
    if loss.calls.len() < 2 {
        return Ok(None);
    }
    let first = no_ops().with_all(loss.calls);
    let mut last = no_ops();
    for op in first.all() {
        let ends = ends_of(loss.case, first, *op)?;
        if ends.all().is_empty() {
            return Ok(None);
        }
        last = last.with_all(ends.all());
    }
    Ok(Some(Rewrite {
        span: place_for_path(loss.case.tokens),
        text: path_from(loss.calls.len(), first, last),
        sentence: "with this path, put here, no operation of `#` can be lost",
    }))
}

// ---- all of them ----

// The change of a kind at the token of this number of the paths, if there is one; a further path is told at the first one.
fn change_at<'a>(
    loss: Loss<'a>,
    mend: Mend,
    paths: &[Token],
    number: usize,
) -> Allocated<Option<Rewrite<'a>>> {
    match (mend, number) {
        (Mend::Path, 0) => fewer(loss),
        _ => Ok(mend_at(mend, loss.case, tokens_from(paths, number))),
    }
}

// Adds a change that does, unless enough was tried; whether it was added.
fn push_way(
    out: &mut Vec<u8>,
    case: Case<'_>,
    change: Option<Rewrite<'_>>,
    left: &mut usize,
) -> Allocated<bool> {
    match change {
        Some(change) if *left > 0 => {
            *left -= 1;
            let trial = push_tried(out, case, change, true)?;
            Ok(matches!(trial, Trial::Does))
        }
        _ => Ok(false),
    }
}

// Adds the first change of a kind that does, and of commas each; whether there is one.
fn push_mend(out: &mut Vec<u8>, loss: Loss<'_>, mend: Mend, left: &mut usize) -> Allocated<bool> {
    let paths = paths_of(loss.case.tokens);
    let mut some = false;
    for number in 0..paths.len() {
        if !some || matches!(mend, Mend::Comma) {
            let change = change_at(loss, mend, paths, number)?;
            some = push_way(out, loss.case, change, left)? || some;
        }
    }
    Ok(some)
}

/// Adds small changes with which every operation of the object is kept, or what helps where none was found: the first change
/// that does of each kind that takes no turn away, or else commas.
pub(crate) fn push_ways(out: &mut Vec<u8>, loss: Loss<'_>) -> Allocated<()> {
    let mut left = MOST_TRIED;
    let mut some = false;
    for mend in [Mend::Path, Mend::Lower, Mend::Turned, Mend::Comma] {
        if !some || !matches!(mend, Mend::Comma) {
            some = push_mend(out, loss, mend, &mut left)? || some;
        }
    }
    let help = if some {
        "each such change was tried alone: choose by what the clients of `#` do"
    } else {
        "no single small change was found that mends it: let all clients take things in one order, or fewer of them begin"
    };
    push_found(out, loss.case, Some(with_one(help, NO_PIECE)))
}
