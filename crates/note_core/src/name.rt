//! What a name of an object is, as far as the tokens before a place tell.

use crate::tokens::{from_last, is_name, is_symbol, tokens_from};
use path_tree::token::{Symbol, Token};

/// What a name is.
#[derive(Clone, Copy, PartialEq, Eq)]
pub enum What {
    Constant,
    Part,
    Operation,
    Parameter,
}

/// What the values of a name are.
#[derive(Clone, Copy, PartialEq, Eq)]
pub enum Sort {
    Integer,
    Text,
}

// What a name is that stands in this section of an object, behind this token.
fn what_in(section: Option<Symbol>, before: Option<&Token>) -> Option<What> {
    match section {
        Some(Symbol::Const) => Some(What::Constant),
        Some(Symbol::Var) => Some(What::Part),
        Some(Symbol::Entry) => match before {
            Some(token) => if is_symbol(token, Symbol::Procedure)
                || is_symbol(token, Symbol::Function)
            {
                Some(What::Operation)
            } else {
                Some(What::Parameter)
            },
            None => None,
        },
        _ => None,
    }
}

// The section of an object that a token opens, or that it stands in; a body is none.
fn section_at(section: Option<Symbol>, token: &Token) -> Option<Symbol> {
    if is_symbol(token, Symbol::Const) {
        Some(Symbol::Const)
    } else if is_symbol(token, Symbol::Path) {
        Some(Symbol::Path)
    } else if is_symbol(token, Symbol::Var) {
        Some(Symbol::Var)
    } else if is_symbol(token, Symbol::Entry) {
        Some(Symbol::Entry)
    } else if is_symbol(token, Symbol::Begin) {
        None
    } else {
        section
    }
}

/// The first place where these tokens declare a name, and what it is; what stands in a path or in a
/// body declares nothing.
pub fn declared_in<'t>(tokens: &'t [Token], name: &[u8]) -> Option<(&'t [Token], What)> {
    let mut section = None;
    let mut before = None;
    for (count, token) in tokens.iter().enumerate() {
        section = section_at(section, token);
        if is_name(token, name) {
            if let Some(what) = what_in(section, before) {
                return Some((tokens_from(tokens, count), what));
            }
        }
        before = Some(token);
    }
    None
}

/// Where a name was declared before, and what it is: in the operation that is read, or else in its object.
pub fn declared<'t>(before: &'t [Token], name: &[u8]) -> Option<(&'t [Token], What)> {
    let object = from_last(before, Symbol::Object);
    match declared_in(from_last(object, Symbol::Entry), name) {
        Some(found) => Some(found),
        None => declared_in(object, name),
    }
}

/// What the values are of what is declared here.
pub fn sort_of(declaration: &[Token], what: What) -> Option<Sort> {
    if what == What::Constant {
        return Some(Sort::Integer);
    }
    for token in declaration {
        if is_symbol(token, Symbol::Integer) {
            return Some(Sort::Integer);
        }
        if is_symbol(token, Symbol::Text) {
            return Some(Sort::Text);
        }
    }
    None
}
