//! A change of a source, tried.

use crate::case::{Case, count_of, op_of};
use crate::diagnostic::{Allocated, Diagnostic, Piece, push_found, text_of, with_one};
use crate::fault::is_want_of_memory;
use crate::page::push_new_line;
use crate::span::{Span, behind, front};
use decl_core::analyse::{ObjectRefusal, analyse};
use decl_core::object::Object;
use decl_read::read::read_objects;
use path_tree::node::OpId;
use std::alloc::{AllocError, Global};
use stuck_core::found::{Finding, Findings};
use stuck_core::search::find;

// The most states of an object that is tried.
const MOST_STATES: usize = 4_096;

/// A text in the place of a stretch of a source.
#[derive(Clone, Copy)]
pub(crate) struct Rewrite<'a> {
    pub span: Span,
    /// The text; a line of its own begins with a line feed.
    pub text: Diagnostic<'a>,
    /// What is said of it where it does; for `%` stands the text.
    pub sentence: &'static str,
}

/// What became of the object with a change of its source.
#[derive(Clone, Copy)]
pub(crate) enum Trial {
    /// It is accepted, and keeps every operation if it has to.
    Does,
    /// It is refused for these two operations.
    Refused(OpId, OpId),
    /// The source cannot be read, or the object loses operations, or that is not decided.
    Fails,
}

// A source with a text in the place of a stretch.
fn with_text(alloc: Global, source: &[u8], span: Span, text: &[u8]) -> Allocated<Vec<u8>> {
    let mut out = Vec::new(alloc);
    out.extend_from_slice(front(source, span.start))?;
    out.extend_from_slice(text)?;
    out.extend_from_slice(behind(source, span.end))?;
    Ok(out)
}

// Whether every operation is kept.
fn keeps_each(found: &Findings) -> bool {
    for finding in &found.each {
        match finding {
            Finding::Always => {}
            Finding::Lost(_) | Finding::Unknown(_) => return false,
        }
    }
    true
}

// Whether an accepted object keeps every operation.
fn is_kept(alloc: Global, object: &Object) -> Allocated<bool> {
    let found = find(alloc, &object.paths, count_of(object), MOST_STATES)?;
    Ok(keeps_each(&found))
}

// What became of an accepted object, which has to keep every operation or not.
fn of_accepted(alloc: Global, object: &Object, has_to_keep: bool) -> Allocated<Trial> {
    if !has_to_keep || is_kept(alloc, object)? {
        Ok(Trial::Does)
    } else {
        Ok(Trial::Fails)
    }
}

// What became of a refused object.
fn of_refused(why: ObjectRefusal) -> Allocated<Trial> {
    match why {
        ObjectRefusal::Memory => Err(AllocError),
        ObjectRefusal::Unseparated(first, second, _) => {
            Ok(Trial::Refused(op_of(first), op_of(second)))
        }
    }
}

// What became of an object.
fn judge(alloc: Global, object: Object, has_to_keep: bool) -> Allocated<Trial> {
    match analyse(alloc, object) {
        Ok(accepted) => of_accepted(alloc, accepted.object(), has_to_keep),
        Err(refused) => of_refused(refused.why),
    }
}

// What became of the object of this number of a source.
fn judge_in(alloc: Global, source: &[u8], number: usize, has_to_keep: bool) -> Allocated<Trial> {
    match read_objects(alloc, source) {
        Ok(all) => match all.into_values().nth(number) {
            Some(object) => judge(alloc, object, has_to_keep),
            None => Ok(Trial::Fails),
        },
        Err(fault) => if is_want_of_memory(fault) {
            Err(AllocError)
        } else {
            Ok(Trial::Fails)
        },
    }
}

// Adds a change that does, with this text.
fn push_change(
    out: &mut Vec<u8>,
    case: Case<'_>,
    change: Rewrite<'_>,
    text: &[u8],
) -> Allocated<()> {
    let found = Diagnostic {
        place: Some(change.span),
        ..with_one(change.sentence, Piece::Bytes(text))
    };
    push_found(out, case, Some(found))?;
    match text {
        [b'\n', ..] => push_new_line(out, text.trim_ascii()),
        _ => Ok(()),
    }
}

// What became of the object with this text in the place of a stretch.
fn tried(case: Case<'_>, span: Span, text: &[u8], has_to_keep: bool) -> Allocated<Trial> {
    let changed = with_text(case.alloc, case.page.source, span, text)?;
    judge_in(case.alloc, &changed, case.number, has_to_keep)
}

/// Tries a change of the source of an object, which then is accepted, and keeps every operation if it has to. One that does
/// is added.
pub(crate) fn push_tried(
    out: &mut Vec<u8>,
    case: Case<'_>,
    change: Rewrite<'_>,
    has_to_keep: bool,
) -> Allocated<Trial> {
    let text = text_of(case, change.text)?;
    let trial = tried(case, change.span, &text, has_to_keep)?;
    if let Trial::Does = trial {
        push_change(out, case, change, &text)?;
    }
    Ok(trial)
}
