//! The explanation of a source, and the reading of one for what is asked of it.

use crate::case::{Case, case_of, op_of};
use crate::diagnostic::Allocated;
use crate::fault::{is_want_of_memory, push_fault};
use crate::page::Page;
use crate::proposal::push_proposal;
use crate::refusal::{Conflict, push_conflict};
use crate::stuck_explain::push_losses;
use decl_core::analyse::{ObjectRefusal, analyse};
use decl_core::object::Object;
use decl_read::fault::DeclFault;
use decl_read::read::read_objects;
use path_tree::lex::lex;
use std::alloc::{AllocError, Global};

/// What is asked of a source.
#[derive(Clone, Copy)]
pub(crate) enum Aspect<'a> {
    /// Why it is refused, or its objects are, or the one of this name.
    Refusals(Option<&'a [u8]>),
    /// What its accepted objects lose.
    Losses,
}

// Whether an object is asked for.
fn is_wanted(object: &Object, aspect: Aspect<'_>) -> bool {
    match aspect {
        Aspect::Refusals(Some(name)) => object.name.as_bytes() == name,
        Aspect::Refusals(None) | Aspect::Losses => true,
    }
}

// The name of a part of an object.
fn part_name(object: &Object, number: usize) -> &[u8] {
    match object.parts.get(number) {
        Some(part) => part.name.as_bytes(),
        None => b"",
    }
}

// Adds what is said of a refused object.
fn push_refused(
    out: &mut Vec<u8>,
    case: Case<'_>,
    why: ObjectRefusal,
    aspect: Aspect<'_>,
) -> Allocated<()> {
    match (why, aspect) {
        (ObjectRefusal::Memory, _) => Err(AllocError),
        (ObjectRefusal::Unseparated(..), Aspect::Losses) => Ok(()),
        (ObjectRefusal::Unseparated(first, second, part), Aspect::Refusals(_)) => {
            let conflict = Conflict {
                case,
                first: op_of(first),
                second: op_of(second),
                part: part_name(case.object, part),
            };
            push_conflict(out, conflict)?;
            push_proposal(out, conflict)
        }
    }
}

// Adds what is said of the object of this number.
fn push_object(
    alloc: Global,
    out: &mut Vec<u8>,
    page: Page<'_>,
    object: Object,
    number: usize,
    aspect: Aspect<'_>,
) -> Allocated<()> {
    match analyse(alloc, object) {
        Ok(accepted) => match aspect {
            Aspect::Losses => push_losses(out, case_of(alloc, page, accepted.object(), number)),
            Aspect::Refusals(_) => Ok(()),
        },
        Err(refused) => {
            let case = case_of(alloc, page, &refused.object, number);
            push_refused(out, case, refused.why, aspect)
        }
    }
}

// Adds what is said of a fault of the source, which no want of memory is.
fn push_told(
    alloc: Global,
    out: &mut Vec<u8>,
    page: Page<'_>,
    fault: DeclFault,
    aspect: Aspect<'_>,
) -> Allocated<()> {
    if is_want_of_memory(fault) {
        return Err(AllocError);
    }
    match aspect {
        Aspect::Refusals(_) => push_fault(alloc, out, page, fault),
        Aspect::Losses => Ok(()),
    }
}

// Adds what is said of a source that has tokens.
fn push_objects(
    alloc: Global,
    out: &mut Vec<u8>,
    page: Page<'_>,
    aspect: Aspect<'_>,
) -> Allocated<()> {
    match read_objects(alloc, page.source) {
        Err(fault) => push_told(alloc, out, page, fault, aspect),
        Ok(all) => {
            for (number, object) in all.into_values().enumerate() {
                if is_wanted(&object, aspect) {
                    push_object(alloc, out, page, object, number, aspect)?;
                }
            }
            Ok(())
        }
    }
}

/// Adds what is said of a source in this file.
pub(crate) fn push_source(
    alloc: Global,
    out: &mut Vec<u8>,
    file: &[u8],
    source: &[u8],
    aspect: Aspect<'_>,
) -> Allocated<()> {
    let page = Page {
        file,
        source,
        tokens: &[],
    };
    match lex(alloc, source) {
        Ok(tokens) => {
            let tokens = &tokens;
            push_objects(alloc, out, Page { tokens, ..page }, aspect)
        }
        Err(fault) => push_told(alloc, out, page, DeclFault::Lex(fault), aspect),
    }
}

/// What a person is told of a source in this file: of its first fault, or of each of its objects that is refused, in
/// order, or of the one of a name. It is empty where there is nothing to tell.
///
/// Each note has the file, and line and column of a place as `place_of` counts them, a sentence, and the line of the
/// source with a caret below; each byte that is no character of ASCII is shown as `?`, and a long
/// line by a piece of it.
pub fn explain(
    alloc: Global,
    file: &[u8],
    source: &[u8],
    only: Option<&[u8]>,
) -> Result<Vec<u8>, AllocError> {
    let mut out = Vec::new(alloc);
    push_source(alloc, &mut out, file, source, Aspect::Refusals(only))?;
    Ok(out)
}
