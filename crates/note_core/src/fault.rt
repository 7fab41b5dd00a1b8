//! Faults of a source.

use crate::alike::alike;
use crate::finding::two;
use crate::misplaced::{ENTRY_HELP, NO_ENTRY, misplaced};
use crate::name::declared;
use crate::names::{past_limit, twice, unknown, wrong_kind};
use crate::nodes::large_path;
use crate::page::{Page, push_note, push_said};
use crate::paths::of_path;
use crate::rows::said_by;
use crate::said::{Message, say};
use crate::seen::{Near, bare_declaration};
use crate::signs::of_tokens;
use crate::span::{Span, behind, front, span_of, text_at};
use crate::tokens::{
    count_before, ends, find_name, first_tokens, from_last, is_symbol, last, name_of, section,
    tokens_from,
};
use decl_read::fault::DeclFault;
use path_tree::lex::fault::LexFault;
use path_tree::lex::lex;
use path_tree::path_fault::PathFault;
use path_tree::token::{Symbol, Token, TokenKind};
use std::alloc::{AllocError, Global};

/// The most bytes of a source.
const MOST_BYTES: usize = 65_536;

// What is said of a fault of objects.
fn of_objects(fault: DeclFault, seen: Near<'_>) -> Option<Message> {
    match fault {
        DeclFault::DuplicateName(_) => said_by(twice(), seen),
        DeclFault::WrongType(_) => said_by(wrong_kind(), seen),
        DeclFault::UnknownName(_) => said_by(unknown(), seen),
        DeclFault::TooMany(_) => said_by(past_limit(), seen),
        DeclFault::Path(fault) => said_by(of_path(fault), seen),
        DeclFault::Syntax(_) | DeclFault::Lex(_) | DeclFault::Memory => misplaced(seen),
    }
}

// The text of a token.
fn text_of<'a>(page: Page<'a>, tokens: &[Token]) -> &'a [u8] {
    match tokens {
        [token, ..] => match &token.kind {
            TokenKind::EndMark => b"the end of the file",
            _ => text_at(page.source, span_of(token)),
        },
        [] => b"",
    }
}

// Where the first of some tokens stands.
fn first_span(tokens: &[Token], at: usize) -> Span {
    match tokens {
        [token, ..] => span_of(token),
        [] => Span { start: at, end: at },
    }
}

// Where the object of a name is declared.
fn object_named<'t>(tokens: &'t [Token], name: &[u8]) -> &'t [Token] {
    for (count, token) in tokens.iter().enumerate() {
        let own = tokens_from(tokens, count + 1);
        if is_symbol(token, Symbol::Object) && name_of(own) == name {
            return own;
        }
    }
    &[]
}

// Where a name is declared before.
fn declaration<'t>(before: &'t [Token], name: &[u8]) -> &'t [Token] {
    if ends(before, Symbol::Object) {
        return object_named(before, name);
    }
    match declared(before, name) {
        Some((found, _)) => found,
        None => &[],
    }
}

// Where a name that a fault tells was declared, or named, before, or else the name that may be meant.
fn other<'t>(fault: DeclFault, all: &'t [Token], seen: Near<'t>) -> &'t [Token] {
    let name = name_of(seen.here);
    match fault {
        DeclFault::Path(PathFault::RepeatedName(_)) => {
            let path = from_last(seen.before, Symbol::Path);
            tokens_from(path, find_name(path, name).unwrap_or(path.len()))
        }
        DeclFault::DuplicateName(_) | DeclFault::WrongType(_) => declaration(seen.before, name),
        DeclFault::UnknownName(_) | DeclFault::Path(PathFault::UnknownName(_)) => {
            alike(object_at(all, seen.before), name)
        }
        _ => &[],
    }
}

// What is said of the place of that name.
fn other_sentence(fault: DeclFault) -> &'static str {
    match fault {
        DeclFault::Path(PathFault::UnknownName(_)) | DeclFault::UnknownName(_) =>
            "is `%` meant, which stands here?",
        DeclFault::Path(_) => "`%` stands here already",
        _ => "`%` is declared here",
    }
}

// Adds the place of that name, if there is one.
fn push_other(
    out: &mut Vec<u8>,
    page: Page<'_>,
    fault: DeclFault,
    found: &[Token],
) -> Result<(), AllocError> {
    if found.is_empty() {
        return Ok(());
    }
    let words = two(text_of(page, found), b"");
    push_note(
        out,
        page,
        first_span(found, 0),
        other_sentence(fault),
        words,
    )
}

// Where the operation that a path names is declared, where `entry` is missing before it; else nothing.
fn bare_operation<'t>(fault: DeclFault, all: &'t [Token], seen: Near<'_>) -> &'t [Token] {
    match fault {
        DeclFault::Path(PathFault::UnknownName(_)) => {
            bare_declaration(object_at(all, seen.before), name_of(seen.here))
        }
        _ => &[],
    }
}

/// What is looked at where a token stands.
pub(crate) fn seen_at<'a>(page: Page<'a>, at: usize) -> Near<'a> {
    let count = count_before(page.tokens, at);
    Near {
        before: first_tokens(page.tokens, count),
        here: tokens_from(page.tokens, count),
        bytes: b"",
    }
}

/// Adds what is said of a token.
pub(crate) fn push_here(
    out: &mut Vec<u8>,
    page: Page<'_>,
    seen: Near<'_>,
    at: usize,
    said: Message,
) -> Result<(), AllocError> {
    let words = two(text_of(page, seen.here), text_of(page, last(seen.before)));
    push_said(out, page, first_span(seen.here, at), said, words)
}

// Adds what is said of a name in a path whose operation is declared without `entry`.
fn push_bare(
    out: &mut Vec<u8>,
    page: Page<'_>,
    seen: Near<'_>,
    sentence: &str,
    bare: &[Token],
) -> Result<(), AllocError> {
    let words = two(text_of(page, seen.here), b"");
    push_note(out, page, first_span(seen.here, 0), sentence, words)?;
    let help = say(NO_ENTRY, ENTRY_HELP);
    push_said(
        out,
        page,
        first_span(bare, 0),
        help,
        two(text_of(page, bare), b""),
    )
}

// Adds what is said of a fault at a token.
fn push_at_token(
    out: &mut Vec<u8>,
    page: Page<'_>,
    fault: DeclFault,
    at: usize,
) -> Result<(), AllocError> {
    let seen = seen_at(page, at);
    let Some(said) = of_objects(fault, seen) else {
        return Ok(());
    };
    let bare = bare_operation(fault, page.tokens, seen);
    if !bare.is_empty() {
        return push_bare(out, page, seen, said.sentence, bare);
    }
    push_here(out, page, seen, at, said)?;
    push_other(out, page, fault, other(fault, page.tokens, seen))
}

// The tokens of the object that begins last in front of a place.
fn object_at<'t>(all: &'t [Token], before: &[Token]) -> &'t [Token] {
    let inside = from_last(before, Symbol::Object);
    section(
        tokens_from(all, before.len().saturating_sub(inside.len())),
        Symbol::Object,
        0,
    )
}

// The tokens of what stands in front of a byte, but for the mark of its end; none where it has a fault of its own.
fn tokens_in_front(alloc: Global, source: &[u8], at: usize) -> Result<Vec<Token>, AllocError> {
    match lex(alloc, front(source, at)) {
        Ok(tokens) => {
            let mut tokens = tokens;
            let _mark = tokens.pop();
            Ok(tokens)
        }
        Err(LexFault::Memory) => Err(AllocError),
        Err(_) => Ok(Vec::new(alloc)),
    }
}

// Adds what is said of a fault of the tokens.
fn push_lexical(
    alloc: Global,
    out: &mut Vec<u8>,
    page: Page<'_>,
    fault: LexFault,
) -> Result<(), AllocError> {
    let at = fault.at().unwrap_or(MOST_BYTES);
    let bytes = behind(page.source, at);
    let before = tokens_in_front(alloc, page.source, at)?;
    let seen = Near {
        before: &before,
        here: &[],
        bytes,
    };
    match said_by(of_tokens(fault), seen) {
        Some(said) => {
            let span = Span { start: at, end: at };
            push_said(out, page, span, said, two(front(bytes, 1), b""))
        }
        None => Ok(()),
    }
}

/// Whether a source could not be read for want of memory.
pub fn is_want_of_memory(fault: DeclFault) -> bool {
    matches!(
        fault,
        DeclFault::Memory | DeclFault::Lex(LexFault::Memory) | DeclFault::Path(PathFault::Memory)
    )
}

/// Adds what is said of the fault of a source. A want of memory is none.
pub fn push_fault(
    alloc: Global,
    out: &mut Vec<u8>,
    page: Page<'_>,
    fault: DeclFault,
) -> Result<(), AllocError> {
    match fault {
        DeclFault::Lex(fault) => push_lexical(alloc, out, page, fault),
        fault => push_at_token(out, page, fault, place_of_fault(page, fault)),
    }
}

// The byte where a fault is told; a path of too many nodes at its `end`.
fn place_of_fault(page: Page<'_>, fault: DeclFault) -> usize {
    match fault.at() {
        Some(at) => at,
        None => large_path(page.tokens),
    }
}
