//! A path that keeps the operations of an object apart.

use crate::case::{count_of, front_tokens};
use crate::change::{Rewrite, Trial, push_tried};
use crate::diagnostic::{Allocated, Diagnostic, Joint, Piece, push_found, with_one};
use crate::op_set::{MOST_OPERATIONS, OpSet, no_ops};
use crate::refusal::{Conflict, NO_ROOM, said_of};
use crate::span::Span;
use decl_core::exclude_footprint::footprint;
use decl_core::object::Object;
use path_tree::token::Token;

// Those of the chosen operations that change a part, or those that change none, in order of declaration.
fn chosen_of(object: &Object, chosen: OpSet, writes: bool) -> OpSet {
    let mut those = no_ops();
    for op in 0..count_of(object) {
        if let Some(operation) = object.operations.get(usize::from(op)) {
            if chosen.has(op) && (footprint(operation).writes != 0) == writes {
                those = those.with(op);
            }
        }
    }
    those
}

// A path that lets one of the chosen operations run at a time, but those that change nothing together.
fn path_over<'a>(object: &Object, chosen: OpSet) -> Diagnostic<'a> {
    let writing = chosen_of(object, chosen, true);
    let reading = chosen_of(object, chosen, false);
    let sentence = match (writing.all().is_empty(), reading.all().is_empty()) {
        (_, true) => "\n  path 1:(%) end;\n",
        (true, false) => "\n  path 1:([$]) end;\n",
        (false, false) => "\n  path 1:(%, [$]) end;\n",
    };
    Diagnostic {
        second: Piece::Names(reading, Joint::Comma),
        ..with_one(sentence, Piece::Names(writing, Joint::Comma))
    }
}

/// The byte behind the last path of an object whose tokens these are, or behind its constants, or behind its name.
pub(crate) fn place_for_path(object: &[Token]) -> Span {
    let at = match front_tokens(object) {
        [.., token] => token.end,
        [] => 0,
    };
    Span { start: at, end: at }
}

/// Adds a path with which an object that is refused is accepted, or what helps where none was found.
pub(crate) fn push_proposal(out: &mut Vec<u8>, conflict: Conflict<'_>) -> Allocated<()> {
    let case = conflict.case;
    let mut chosen = no_ops().with(conflict.first).with(conflict.second);
    for _ in 0..MOST_OPERATIONS {
        let path = Rewrite {
            span: place_for_path(case.tokens),
            text: path_over(case.object, chosen),
            sentence: "with this path, put here, object `#` is accepted",
        };
        match push_tried(out, case, path, false)? {
            Trial::Does => return Ok(()),
            Trial::Refused(first, second) => chosen = chosen.with(first).with(second),
            Trial::Fails => break,
        }
    }
    push_found(out, case, Some(said_of(conflict, NO_ROOM)))
}
