//! What is said of a fault of a source whose objects have holds.

use crate::fault::{is_want_of_memory, push_fault, push_here, seen_at};
use crate::page::Page;
use crate::rows::Item::{Help, Note, When};
use crate::rows::Test::{In, Is};
use crate::rows::{Entries, said_by};
use crate::seen::Fact::Operation;
use crate::seen::Where::{Here, InRule, Last, Rule};
use decl_read::fault::DeclFault;
use path_tree::lex::lex;
use std::alloc::{AllocError, Global};

const NAMES: &str = "`hold` and `every` name operations of this object, which stand above them";

// What is said of one hold, or one `every`, too many.
const TOO_MANY: Entries = &[
    When(&[Is(Last, ";"), Is(Here, "hold")]),
    Note("this is the 17th hold of the object"),
    Help("an object has at most 16 holds; other operations can stand in an object of their own"),
    When(&[Is(Last, ";"), Is(Here, "every")]),
    Note("this is the 5th operation that the object calls again and again"),
    Help("an object has at most 4 of them; one operation can do the work of several"),
];

// What is said of a token out of its place, in holds or where they begin.
const MISPLACED: Entries = &[
    When(&[Is(Rule, "hold")]),
    Note("`%` cannot stand here in a hold"),
    Help(
        "it is written as in `hold take until give, drop;`, with `by any` before the `;` where anybody may end it",
    ),
    When(&[Is(Rule, "every"), Is(InRule, "NONE")]),
    Note("`%` is not 1 to 86400 seconds"),
    Help("it is written as in `every 60 call sweep;`, and a day has 86400 seconds"),
    When(&[Is(Rule, "every")]),
    Note("`%` cannot stand here"),
    Help(
        "it is written as in `every 60 call sweep;`, with 1 to 86400 seconds and a procedure without parameters",
    ),
    When(&[Is(Rule, "NONE"), Is(Here, "hold every")]),
    Help(
        "behind the operations come the holds, and then what is called again and again, as in `every 60 call sweep;`",
    ),
];

// What is said of a name that does not fit in its rule.
const UNFIT: Entries = &[
    When(&[In(Operation), Is(Rule, "hold")]),
    Note("`%` cannot end this hold, since its parameters do not fit"),
    Help(
        "what ends a hold takes nothing, or what the held call takes, and behind that what it replies",
    ),
    When(&[In(Operation), Is(Rule, "every")]),
    Note("`%` cannot be called again and again"),
    Help(
        "that is a procedure without parameters: nobody gives it anything, and nobody hears a reply",
    ),
    When(&[Is(Rule, "hold every")]),
    Note("`%` is not an operation"),
    Help(NAMES),
];

// What is said of a fault in a hold, or in what is called again and again; nothing where it is in neither.
fn of_rule(fault: DeclFault) -> Entries {
    match fault {
        DeclFault::TooMany(_) => TOO_MANY,
        DeclFault::Syntax(_) => MISPLACED,
        DeclFault::WrongType(_) => UNFIT,
        DeclFault::UnknownName(_) => &[
            When(&[Is(Rule, "hold every")]),
            Note("there is no operation `%` in this object"),
            Help(NAMES),
        ],
        DeclFault::DuplicateName(_) => &[
            When(&[Is(Rule, "hold every")]),
            Note("`%` stands in a hold or an `every` already"),
            Help(
                "an operation is held once, or ends one hold; what ends a hold is not called by `every`, and no operation by two",
            ),
        ],
        _ => &[],
    }
}

// Adds what is said of a fault at a place.
fn push_at(
    alloc: Global,
    out: &mut Vec<u8>,
    page: Page<'_>,
    fault: DeclFault,
    at: usize,
) -> Result<(), AllocError> {
    let seen = seen_at(page, at);
    match said_by(of_rule(fault), seen) {
        Some(said) => push_here(out, page, seen, at, said),
        None => push_fault(alloc, out, page, fault),
    }
}

/// What a person is told of the fault of a source in this file whose objects have holds, as `read_held` tells it. It is
/// empty for a want of memory, and where the source has no tokens.
///
/// The error is that memory was refused.
pub fn explain_held(
    alloc: Global,
    file: &[u8],
    source: &[u8],
    fault: DeclFault,
) -> Result<Vec<u8>, AllocError> {
    let mut out = Vec::new(alloc);
    if is_want_of_memory(fault) {
        return Ok(out);
    }
    if let Ok(tokens) = lex(alloc, source) {
        let page = Page {
            file,
            source,
            tokens: &tokens,
        };
        match fault.at() {
            Some(at) => push_at(alloc, &mut out, page, fault, at)?,
            None => push_fault(alloc, &mut out, page, fault)?,
        }
    }
    Ok(out)
}
