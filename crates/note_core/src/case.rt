//! An object of a source.

use crate::op_set::{OpSet, no_ops};
use crate::page::Page;
use crate::span::{Span, span_of};
use crate::tokens::{
    count_to, find_name, first_tokens, from_symbol, is_symbol, name_of as word_of, section,
    tokens_from,
};
use decl_core::object::Object;
use path_tree::node::OpId;
use path_tree::token::{Symbol, Token, TokenKind};
use std::alloc::Global;

/// An object of a page.
#[derive(Clone, Copy)]
pub(crate) struct Case<'a> {
    /// Where memory is taken.
    pub alloc: Global,
    pub page: Page<'a>,
    pub object: &'a Object,
    /// Its number in the source, from 0.
    pub number: usize,
    /// Its tokens, from the word `object` on.
    pub tokens: &'a [Token],
}

/// The object of this number of a page.
pub(crate) fn case_of<'a>(
    alloc: Global,
    page: Page<'a>,
    object: &'a Object,
    number: usize,
) -> Case<'a> {
    Case {
        alloc,
        page,
        object,
        number,
        tokens: section(page.tokens, Symbol::Object, number),
    }
}

/// The operation of this number: an object has far fewer than have a number.
pub(crate) fn op_of(number: usize) -> OpId {
    match u16::try_from(number) {
        Ok(op) => op,
        Err(_) => 0,
    }
}

/// How many operations an object has.
pub(crate) fn count_of(object: &Object) -> OpId {
    op_of(object.operations.len())
}

/// All operations of an object.
pub(crate) fn all_ops(object: &Object) -> OpSet {
    let mut all = no_ops();
    for op in 0..count_of(object) {
        all = all.with(op);
    }
    all
}

/// The name of an operation of an object.
pub(crate) fn name_of(object: &Object, op: OpId) -> &[u8] {
    match object.operations.get(usize::from(op)) {
        Some(operation) => operation.name.as_bytes(),
        None => b"",
    }
}

/// The tokens of an object in front of its parts and its operations; its paths are the last ones.
pub(crate) fn front_tokens(object: &[Token]) -> &[Token] {
    let parts = count_to(object, Symbol::Var);
    first_tokens(object, parts.min(count_to(object, Symbol::Entry)))
}

/// The tokens of all its paths, each with the semicolon behind it.
pub(crate) fn paths_of(object: &[Token]) -> &[Token] {
    from_symbol(front_tokens(object), Symbol::Path, 0)
}

/// The tokens of the path of this number, from the word `path` to the word `end`.
pub(crate) fn path_tokens(object: &[Token], number: usize) -> &[Token] {
    let path = from_symbol(object, Symbol::Path, number);
    first_tokens(path, count_to(path, Symbol::End).saturating_add(1))
}

// Where a token stands, and the number that it is, or 0.
fn number_at(token: &Token) -> (Span, usize) {
    match &token.kind {
        TokenKind::Number(number) => (span_of(token), *number as usize),
        _ => (span_of(token), 0),
    }
}

/// Where the number stands of the bound that begins here, and which it is: its own, or that of the constant of its name.
pub(crate) fn limit_at(object: &[Token], here: &[Token]) -> Option<(Span, usize)> {
    let [token, colon, ..] = here else {
        return None;
    };
    if !is_symbol(colon, Symbol::Colon) {
        return None;
    }
    let count = match find_name(object, word_of(here)) {
        Some(count) => count,
        None => return Some(number_at(token)),
    };
    match tokens_from(object, count) {
        [_, _, value, ..] => Some(number_at(value)),
        _ => None,
    }
}
