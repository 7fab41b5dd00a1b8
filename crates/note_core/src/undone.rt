//! What is said of a hold that a refused call cannot end.

use crate::case::{Case, name_of};
use crate::diagnostic::{Allocated, Diagnostic, NO_PIECE, Piece, push_found};
use crate::said::say;
use crate::span::{Span, span_of};
use crate::tokens::{is_name, is_same_word, tokens_from};
use crate::trap::refusals;
use decl_core::hold::{Hold, Rules};
use path_tree::node::OpId;

// Where the operation stands that ends a hold of another one first. Nowhere else a name stands right behind a name.
fn place_of(case: Case<'_>, op: OpId) -> Option<Span> {
    for (count, token) in case.tokens.iter().enumerate() {
        let here = tokens_from(case.tokens, count.saturating_add(1));
        if is_name(token, b"hold")
            && is_same_word(here, name_of(case.object, op))
            && is_same_word(tokens_from(here, 1), b"until")
        {
            return match here {
                [_, _, undo, ..] => Some(span_of(undo)),
                _ => None,
            };
        }
    }
    None
}

// Adds what is said of an undo at its place, if it can be refused.
fn push_undo(out: &mut Vec<u8>, case: Case<'_>, place: Span, undo: OpId) -> Allocated<()> {
    let words = refusals(case, undo)?;
    if words.is_empty() {
        return Ok(());
    }
    let said = say(
        "`%` can be refused as `$`, as far as its body tells",
        "where it is, for a client that is gone, it is called again a second later, and then at intervals that double up to a minute; the hold goes on meanwhile",
    );
    let found = Diagnostic::at(Some(place), said, b"").with(Piece::Bytes(&words), NO_PIECE);
    let found = Diagnostic {
        first: Piece::Name(undo),
        ..found
    };
    push_found(out, case, Some(found))
}

// Adds what is said of one hold.
fn push_hold(out: &mut Vec<u8>, case: Case<'_>, hold: &Hold) -> Allocated<()> {
    match (place_of(case, hold.op), hold.until.first()) {
        (Some(place), Some(undo)) => push_undo(out, case, place, *undo),
        _ => Ok(()),
    }
}

/// Adds what is said of each hold of an object whose undo, the first operation behind `until`, can be refused.
pub(crate) fn push_undone(out: &mut Vec<u8>, case: Case<'_>, rules: &Rules) -> Allocated<()> {
    for hold in &rules.holds {
        push_hold(out, case, hold)?;
    }
    Ok(())
}
