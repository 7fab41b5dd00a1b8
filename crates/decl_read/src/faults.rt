//! Which fault of a source with holds is told: the first from the left.

use crate::fault::DeclFault;
use crate::read::read_objects;
use crate::rules::rules;
use crate::sections::{begin_of, behind_object, rules_at};
use crate::words::{HoldKeyword, begins_word};
use decl_core::object::Object;
use path_tree::name::Name;
use path_tree::token::{Symbol, Token, TokenKind, is_same_symbol};
use std::alloc::{AllocError, Global};
use token_read::text_fault::TextFault;

// Of the objects of a source that ends behind the operations of one, that one; `None` where it does not end there.
fn last_object(alloc: Global, cut: &[u8], at: usize) -> Result<Option<Object>, AllocError> {
    let mut text = Vec::new(alloc);
    text.extend_from_slice(&cut[..at.min(cut.len())])?;
    text.extend_from_slice(b"end;")?;
    match read_objects(alloc, &text) {
        Ok(all) => Ok(all.into_values().last()),
        Err(DeclFault::Memory) => Err(AllocError),
        Err(_) => Ok(None),
    }
}

// The tokens from a place on.
fn tokens_from(tokens: &[Token], at: usize) -> &[Token] {
    for place in 0..tokens.len() {
        if tokens[place].start >= at {
            return &tokens[place..];
        }
    }
    &[]
}

// Whether behind the first of these tokens stands `name = number`, of this name.
fn is_constant(tokens: &[Token], name: &Name) -> bool {
    match tokens {
        [_, own, equal, value, ..] => match (&own.kind, &equal.kind, &value.kind) {
            (TokenKind::Name(own), TokenKind::Symbol(sign), TokenKind::Number(_)) => {
                own.as_bytes() == name.as_bytes() && is_same_symbol(*sign, Symbol::Equal)
            }
            _ => false,
        },
        _ => false,
    }
}

// Whether a token stands behind all constants of an object.
fn ends_constants(token: &Token) -> bool {
    match &token.kind {
        TokenKind::Symbol(s) => {
            is_same_symbol(*s, Symbol::Path)
                || is_same_symbol(*s, Symbol::Var)
                || is_same_symbol(*s, Symbol::Entry)
        }
        _ => false,
    }
}

// Whether a constant of this name is declared in these tokens, before this place.
fn has_constant(tokens: &[Token], at: usize, name: &Name) -> bool {
    for place in 0..tokens.len() {
        let token = &tokens[place];
        if token.start >= at || ends_constants(token) {
            return false;
        }
        if is_constant(&tokens[place..], name) {
            return true;
        }
    }
    false
}

// Whether an object has a part of this name.
fn has_part(object: &Object, name: &Name) -> bool {
    object
        .parts
        .iter()
        .any(|part| part.name.as_bytes() == name.as_bytes())
}

// The fault at a name that is no operation of its object: another one, where it is known. These are the tokens behind
// the word `object`.
fn unknown(object: &Object, own: &[Token], at: usize) -> DeclFault {
    match tokens_from(own, at) {
        [token, ..] => match &token.kind {
            TokenKind::Name(name) => {
                if has_part(object, name) || has_constant(own, at, name) {
                    DeclFault::WrongType(at)
                } else {
                    DeclFault::UnknownName(at)
                }
            }
            _ => DeclFault::UnknownName(at),
        },
        [] => DeclFault::UnknownName(at),
    }
}

// The fault of the holds that begin here, if they have one.
fn fault_of_rules(
    alloc: Global,
    object: &Object,
    own: &[Token],
    tokens: &[Token],
) -> Option<DeclFault> {
    match rules(alloc, &object.operations, tokens) {
        Ok(_) => None,
        Err(TextFault::Path(fault)) => Some(DeclFault::Path(fault)),
        Err(TextFault::Syntax(at)) => Some(DeclFault::Syntax(at)),
        Err(TextFault::DuplicateName(at)) => Some(DeclFault::DuplicateName(at)),
        Err(TextFault::WrongType(at)) => Some(DeclFault::WrongType(at)),
        Err(TextFault::UnknownName(at)) => Some(unknown(object, own, at)),
        Err(TextFault::TooMany(at)) => Some(DeclFault::TooMany(at)),
        Err(TextFault::Memory) => Some(DeclFault::Memory),
    }
}

// What is told of the place where holds begin: the fault of the source as it stands, where the operations do not end
// there, or the first of the holds.
fn fault_at(
    alloc: Global,
    source: &[u8],
    cut: &[u8],
    own: &[Token],
    tokens: &[Token],
) -> Option<DeclFault> {
    match last_object(alloc, cut, begin_of(tokens)) {
        Err(_) => Some(DeclFault::Memory),
        Ok(Some(object)) => fault_of_rules(alloc, &object, own, tokens),
        Ok(None) => match read_objects(alloc, source) {
            Ok(_) => None,
            Err(fault) => Some(fault),
        },
    }
}

// Whether a fault stands before a place.
fn is_before(fault: DeclFault, at: usize) -> bool {
    match fault.at() {
        Some(place) => place < at,
        None => true,
    }
}

// Whether a token out of its place is a word that holds begin with.
fn is_misplaced(fault: DeclFault, tokens: &[Token]) -> bool {
    matches!(fault, DeclFault::Syntax(_))
        && (begins_word(tokens, HoldKeyword::Hold) || begins_word(tokens, HoldKeyword::Every))
}

/// The first fault of a source with these tokens, that without its holds is this and has, so, this fault.
pub(crate) fn first_fault(
    alloc: Global,
    source: &[u8],
    cut: &[u8],
    tokens: &[Token],
    fault: DeclFault,
) -> DeclFault {
    let mut rest = tokens;
    for _ in 0..tokens.len() {
        let Some(own) = behind_object(rest) else {
            return fault;
        };
        let stands = tokens_from(own, fault.at().unwrap_or(0));
        let misplaced = is_misplaced(fault, stands)
            && fault.at() == Some(begin_of(stands))
            && behind_object(own).map_or(true, |next| begin_of(stands) < begin_of(next));
        match rules_at(own) {
            Some(holds) if !is_before(fault, begin_of(holds)) => {
                if let Some(first) = fault_at(alloc, source, cut, own, holds) {
                    return first;
                }
            }
            _ if misplaced => {
                return fault_at(alloc, source, cut, own, stands).unwrap_or(fault);
            }
            _ => {}
        }
        rest = own;
    }
    fault
}
