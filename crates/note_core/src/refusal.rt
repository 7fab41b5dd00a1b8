//! Two operations that are not kept apart.

use crate::around::{Around, why_in};
use crate::case::{Case, name_of, path_tokens};
use crate::diagnostic::{Allocated, Diagnostic, Piece, at_token, push_found, with_one};
use crate::tokens::{find_name, section};
use crate::touch::touch_of;
use path_tree::node::OpId;
use path_tree::token::{Symbol, Token};

// The most paths of an object.
const MOST_PATHS: usize = 16;

// How many remarks stand before those on paths.
const REMARKS: usize = 5;

/// An object that is refused, for two operations that conflict.
#[derive(Clone, Copy)]
pub(crate) struct Conflict<'a> {
    pub case: Case<'a>,
    /// The two; the same one where two calls of it are not kept apart.
    pub first: OpId,
    pub second: OpId,
    /// The name of the part at which they conflict.
    pub part: &'a [u8],
}

/// A sentence on one operation, and on two.
pub(crate) type OneOrTwo = [&'static str; 2];

const FIRST: OneOrTwo = ["`%` is declared here"; 2];

const SECOND: OneOrTwo = ["`$` is declared here"; 2];

const CHANGES: OneOrTwo = ["it changes `@` here"; 2];

const READS: OneOrTwo = ["it reads `@` here"; 2];

const ONLY_FIRST: OneOrTwo = ["this path names `%`, but not `$`"; 2];

const ONLY_SECOND: OneOrTwo = ["this path names `$`, but not `%`"; 2];

const IN_BURST: OneOrTwo = [
    "`%` stands in this burst, and what stands in one burst may run together, inside of a bound of 1 too",
    "`%` and `$` stand in this burst, and what stands in one burst may run together, inside of a bound of 1 too",
];

const IN_BOUND: OneOrTwo = [
    "the bound around `%` lets more than one run; only `1:( .. )` keeps its calls apart",
    "the bound around both `%` and `$` lets more than one run; only `1:( .. )` around both keeps them apart",
];

const IN_NO_BOUND: OneOrTwo = [
    "this path names `%`, but outside of any bound `1:( .. )`",
    "this path names `%` and `$`, but no bound `1:( .. )` stands around both",
];

const IN_NO_PATH: OneOrTwo = [
    "no path of the object names `%`, so any number of its calls may run at once",
    "no path of the object names both `%` and `$`",
];

/// What helps where no further path has room.
pub(crate) const NO_ROOM: OneOrTwo = [
    "no further path has room in the object: put `1:( .. )` around `%` in a path that there is",
    "no further path has room in the object: put `1:( .. )` around `%` and `$` in a path that there is",
];

/// What is said of the two, `%` and `$`, and of the part, `@`.
pub(crate) fn said_of<'a>(conflict: Conflict<'a>, sentences: OneOrTwo) -> Diagnostic<'a> {
    let [one, two] = sentences;
    let sentence = if conflict.first == conflict.second {
        one
    } else {
        two
    };
    with_one(sentence, Piece::Name(conflict.first)).with(
        Piece::Name(conflict.second),
        Piece::Bytes(conflict.part),
    )
}

// What is said of the two, by whether each of them changes the part.
fn sentence_of(is_same: bool, first_writes: bool, second_writes: bool) -> &'static str {
    if is_same {
        "object `#` is refused: two calls of `%` may run at the same time, and each changes `@`"
    } else if first_writes && second_writes {
        "object `#` is refused: `%` and `$` may run at the same time, and both change `@`"
    } else if first_writes {
        "object `#` is refused: `%` and `$` may run at the same time, and `%` changes `@` while `$` reads it"
    } else {
        "object `#` is refused: `%` and `$` may run at the same time, and `$` changes `@` while `%` reads it"
    }
}

// Whether an operation changes the part.
fn writes(conflict: Conflict<'_>, op: OpId) -> bool {
    match touch_of(entry_of(conflict, op), conflict.part) {
        Some(touch) => touch.writes,
        None => false,
    }
}

// What is said of the place where an operation touches the part.
fn of_touch<'a>(conflict: Conflict<'a>, op: OpId) -> Option<Diagnostic<'a>> {
    let touch = touch_of(entry_of(conflict, op), conflict.part)?;
    let sentences = if touch.writes { CHANGES } else { READS };
    Some(Diagnostic {
        place: Some(touch.span),
        ..said_of(conflict, sentences)
    })
}

// Where a path names the two.
fn named_in(conflict: Conflict<'_>, path: &[Token]) -> (Option<usize>, Option<usize>) {
    let object = conflict.case.object;
    (
        find_name(path, name_of(object, conflict.first)),
        find_name(path, name_of(object, conflict.second)),
    )
}

// Whether one of the paths names both.
fn names_both(conflict: Conflict<'_>) -> bool {
    for number in 0..MOST_PATHS {
        let path = path_tokens(conflict.case.tokens, number);
        if let (Some(_), Some(_)) = named_in(conflict, path) {
            return true;
        }
    }
    false
}

// Why a path keeps the two not apart that it names at these of its tokens.
fn of_both<'a>(
    conflict: Conflict<'a>,
    path: &[Token],
    first: usize,
    second: usize,
) -> Option<Diagnostic<'a>> {
    match why_in(conflict.case.tokens, path, first, second) {
        Around::Burst(number) => at_token(path, number, said_of(conflict, IN_BURST)),
        Around::Bound(number) => at_token(path, number, said_of(conflict, IN_BOUND)),
        Around::Nothing | Around::One => at_token(path, 0, said_of(conflict, IN_NO_BOUND)),
    }
}

// What the path of this number says of the two, if it names one of them.
fn of_path<'a>(conflict: Conflict<'a>, number: usize) -> Option<Diagnostic<'a>> {
    let path = path_tokens(conflict.case.tokens, number);
    match named_in(conflict, path) {
        (Some(first), Some(second)) => of_both(conflict, path, first, second),
        (Some(first), None) => at_token(path, first, said_of(conflict, ONLY_FIRST)),
        (None, Some(second)) => at_token(path, second, said_of(conflict, ONLY_SECOND)),
        (None, None) => None,
    }
}

// The tokens of an operation, from the word `entry` on.
fn entry_of<'a>(conflict: Conflict<'a>, op: OpId) -> &'a [Token] {
    section(conflict.case.tokens, Symbol::Entry, usize::from(op))
}

// What is said of the object.
fn of_object<'a>(conflict: Conflict<'a>) -> Option<Diagnostic<'a>> {
    let sentence = sentence_of(
        conflict.first == conflict.second,
        writes(conflict, conflict.first),
        writes(conflict, conflict.second),
    );
    at_token(conflict.case.tokens, 1, said_of(conflict, [sentence; 2]))
}

// The remark of this number, if there is one.
fn remark_of<'a>(conflict: Conflict<'a>, number: usize) -> Option<Diagnostic<'a>> {
    let is_same = conflict.first == conflict.second;
    match number {
        0 => of_object(conflict),
        1 => at_token(
            entry_of(conflict, conflict.first),
            2,
            said_of(conflict, FIRST),
        ),
        2 => of_touch(conflict, conflict.first),
        3 | 4 if is_same => None,
        3 => at_token(
            entry_of(conflict, conflict.second),
            2,
            said_of(conflict, SECOND),
        ),
        4 => of_touch(conflict, conflict.second),
        _ => of_path(conflict, number.saturating_sub(REMARKS)),
    }
}

/// Adds why two operations of an object are not kept apart.
pub(crate) fn push_conflict(out: &mut Vec<u8>, conflict: Conflict<'_>) -> Allocated<()> {
    for number in 0..REMARKS + MOST_PATHS {
        push_found(out, conflict.case, remark_of(conflict, number))?;
    }
    if names_both(conflict) {
        return Ok(());
    }
    push_found(out, conflict.case, Some(said_of(conflict, IN_NO_PATH)))
}
