//! What is said of each `a; b` of a path that could be held: what happens where a client dies between.

use crate::case::{Case, case_of, count_of as operations_of, name_of, path_tokens};
use crate::diagnostic::{Allocated, Diagnostic, Piece, push_found};
use crate::page::Page;
use crate::said::{Message, say};
use crate::span::{Span, span_of, text_at};
use crate::tokens::{
    begins, count_of, is_any_name, is_symbol, name_of as word_of, section, tokens_from,
};
use crate::trap::{push_traps, semicolon_behind};
use crate::undone::push_undone;
use decl_core::hold::{Every, Hold, Rules};
use decl_core::object::{Object, Operation, Param};
use decl_read::held_read::{Held, read_held};
use path_tree::lex::lex;
use path_tree::node::OpId;
use path_tree::token::{Symbol, Token};
use std::alloc::{AllocError, Global};
use value_core::kind::Elem;

// An object, and what it says of clients that are gone.
#[derive(Clone, Copy)]
struct RuledCase<'a> {
    case: Case<'a>,
    rules: &'a Rules,
}

// Two operations that stand beside one another, as in `a; b`.
#[derive(Clone, Copy)]
struct TwoOperations {
    first: OpId,
    second: OpId,
    // whether a hold of the first until the second was proposed
    is_proposed: bool,
}

// Where a pair stands.
#[derive(Clone, Copy)]
struct PlacedPair {
    pair: TwoOperations,
    first: Span,
    second: Span,
}

// ---- whether a hold could stand there ----

// Whether a hold has an operation: it is held, or ends it.
fn is_held(holds: &[Hold], op: OpId) -> bool {
    for hold in holds {
        if hold.op == op || hold.until.contains(&op) {
            return true;
        }
    }
    false
}

// Whether an operation is called again and again.
fn is_called(everies: &[Every], op: OpId) -> bool {
    for every in everies {
        if every.op == op {
            return true;
        }
    }
    false
}

// Whether the first of two operations could be held until the second one: neither is in a hold, and the second one is not
// called again and again.
fn may_hold(rules: &Rules, first: OpId, second: OpId) -> bool {
    !is_held(&rules.holds, first)
        && !is_held(&rules.holds, second)
        && !is_called(&rules.everies, second)
}

// Whether the last of some parameters has this number and this sort.
fn is_last(params: &[Param], number: usize, kind: Elem) -> bool {
    match params.get(number) {
        Some(param) => param.kind == kind && params.len() == number.saturating_add(1),
        None => false,
    }
}

// Whether these are the parameters of what ends a hold: those of the held call, and behind them what it replied.
fn takes_held(undo: &[Param], held: &[Param], reply: Option<Elem>) -> bool {
    for (number, param) in held.iter().enumerate() {
        match undo.get(number) {
            Some(other) => if other.kind != param.kind {
                return false;
            },
            None => return false,
        }
    }
    match reply {
        None => undo.len() == held.len(),
        Some(kind) => is_last(undo, held.len(), kind),
    }
}

// Whether one operation takes what ends a hold of another one, and replies nothing.
fn may_undo(held: &Operation, undo: &Operation) -> bool {
    undo.result.is_none()
        && (undo.params.is_empty() || takes_held(&undo.params, &held.params, held.result))
}

// Whether the operations of these numbers fit so.
fn fits(object: &Object, first: OpId, second: OpId) -> bool {
    match (
        object.operations.get(usize::from(first)),
        object.operations.get(usize::from(second)),
    ) {
        (Some(held), Some(undo)) => may_undo(held, undo),
        _ => false,
    }
}

// Whether a hold of the first of two operations until the second one does what its client would have done: the second one is a
// procedure that takes from no queue, and nothing stands behind it that would be left over in its place.
fn is_advised(ruled: RuledCase<'_>, path: &[Token], at: usize, first: OpId, second: OpId) -> bool {
    let body = section(ruled.case.tokens, Symbol::Entry, usize::from(second));
    fits(ruled.case.object, first, second)
        && count_of(body, Symbol::Take) == 0
        && semicolon_behind(path, at.saturating_add(2)).is_none()
}

// ---- where pairs stand ----

// The operation of this name.
fn op_named(object: &Object, name: &[u8]) -> Option<OpId> {
    for op in 0..operations_of(object) {
        if name_of(object, op) == name {
            return Some(op);
        }
    }
    None
}

// Where the names stand of a pair that begins here, where one does.
fn names_at(here: &[Token]) -> Option<(Span, Span)> {
    let [a, sign, b, behind @ ..] = here else {
        return None;
    };
    if is_any_name(a)
        && is_symbol(sign, Symbol::Semicolon)
        && is_any_name(b)
        && !begins(behind, Symbol::Colon)
    {
        Some((span_of(a), span_of(b)))
    } else {
        None
    }
}

// The pair that begins at the token of this number of a path, where one does that could be held.
fn pair_at(ruled: RuledCase<'_>, path: &[Token], at: usize) -> Option<PlacedPair> {
    let here = tokens_from(path, at);
    let (first_place, second_place) = names_at(here)?;
    let first = op_named(ruled.case.object, word_of(here))?;
    let second = op_named(ruled.case.object, word_of(tokens_from(here, 2)))?;
    if !may_hold(ruled.rules, first, second) {
        return None;
    }
    let is_proposed = is_advised(ruled, path, at, first, second);
    Some(PlacedPair {
        pair: TwoOperations {
            first,
            second,
            is_proposed,
        },
        first: first_place,
        second: second_place,
    })
}

// ---- what is said ----

// Whether the two of a pair were told as one.
fn is_told(told: &[TwoOperations], pair: TwoOperations) -> bool {
    for other in told {
        if other.first == pair.first && other.second == pair.second {
            return true;
        }
    }
    false
}

// Whether a hold was proposed that has one of the two of a pair: theirs could not stand beside it.
fn is_other(told: &[TwoOperations], pair: TwoOperations) -> bool {
    for other in told {
        if other.is_proposed
            && (other.first == pair.first
                || other.first == pair.second
                || other.second == pair.first
                || other.second == pair.second)
        {
            return true;
        }
    }
    false
}

// What is said of a pair.
fn said_of(is_proposed: bool, is_other: bool) -> Message {
    match (is_proposed, is_other) {
        (false, _) => say(
            "who is gone between `%` and `$` never calls `$`: its `%` counts until another client does",
            "",
        ),
        (true, false) => say(
            "who is gone between `%` and `$` never calls `$`, nor does anybody for it",
            "where one client calls both, `hold % until $;` behind the operations has it called then",
        ),
        (true, true) => say(
            "who is gone between `%` and `$` never calls `$`, nor does anybody for it",
            "where one client calls both, `hold % until $;` has it called then, in the place of the hold above: no operation stands in two",
        ),
    }
}

// What is found of a pair that stands there.
fn found_of<'a>(source: &'a [u8], placed: PlacedPair, is_other: bool) -> Diagnostic<'a> {
    let place = Span {
        start: placed.first.start,
        end: placed.second.end,
    };
    let said = said_of(placed.pair.is_proposed, is_other);
    Diagnostic {
        second: Piece::Bytes(text_at(source, placed.second)),
        ..Diagnostic::at(Some(place), said, text_at(source, placed.first))
    }
}

// Adds what is said of the pairs of one path, but for those that were told; these come to them.
fn push_path(
    out: &mut Vec<u8>,
    ruled: RuledCase<'_>,
    path: &[Token],
    told: &mut Vec<TwoOperations>,
) -> Allocated<()> {
    for at in 0..path.len() {
        if let Some(placed) = pair_at(ruled, path, at) {
            if !is_told(told, placed.pair) {
                let is_other = is_other(told, placed.pair);
                let found = found_of(ruled.case.page.source, placed, is_other);
                push_found(out, ruled.case, Some(found))?;
                told.push(placed.pair)?;
            }
        }
    }
    Ok(())
}

// Adds what is said of one object: of its pairs, of what stands before a `;`, and of its holds.
fn push_object(out: &mut Vec<u8>, ruled: RuledCase<'_>) -> Allocated<()> {
    let mut told = Vec::new(ruled.case.alloc);
    for number in 0..ruled.case.object.paths.len() {
        push_path(
            out,
            ruled,
            path_tokens(ruled.case.tokens, number),
            &mut told,
        )?;
    }
    push_traps(out, ruled.case)?;
    push_undone(out, ruled.case, ruled.rules)
}

// Adds what is said of the objects of a page.
fn push_objects(alloc: Global, out: &mut Vec<u8>, page: Page<'_>, held: &Held) -> Allocated<()> {
    for (number, object) in held.objects.iter().enumerate() {
        if let Some(rules) = held.rules.get(number) {
            let case = case_of(alloc, page, object, number);
            push_object(out, RuledCase { case, rules })?;
        }
    }
    Ok(())
}

/// What a person is told of an accepted source in this file who asks for more.
///
/// Of each `a; b` of a path what happens where a client dies between the two, where neither is in a hold already, and `b`
/// is not called again and again. `hold a until b;` is proposed where `b` is a procedure that takes from no queue, could
/// end such a hold, and has nothing behind it in the path; where the hold could not stand beside one that is proposed
/// above, it is told as another choice. Two operations are told once. Then of each operation that stands before a `;`
/// and can be refused, by which words; and so of the first operation behind `until` of each hold. It is empty where
/// there is nothing to tell, and where the source is none of objects.
///
/// The error is that memory was refused.
pub fn explain_pairs(alloc: Global, file: &[u8], source: &[u8]) -> Result<Vec<u8>, AllocError> {
    let mut out = Vec::new(alloc);
    if let (Ok(tokens), Ok(held)) = (lex(alloc, source), read_held(alloc, source)) {
        let page = Page {
            file,
            source,
            tokens: &tokens,
        };
        push_objects(alloc, &mut out, page, &held)?;
    }
    Ok(out)
}
