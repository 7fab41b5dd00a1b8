//! What stands around two names of a path.

use crate::case::limit_at;
use crate::tokens::{begins, first_tokens, is_symbol, tokens_from};
use path_tree::token::{Symbol, Token};

/// Why a path that names two operations keeps them not apart, with the number of the token in the
/// path where that stands.
#[derive(Clone, Copy)]
pub(crate) enum Around {
    /// No bound stands around both.
    Nothing,
    /// The innermost bound around both lets more than one run.
    Bound(usize),
    /// A bound of 1 stands around both, and no burst inside of it: it keeps them apart.
    One,
    /// This burst, in a bound of 1, holds both.
    Burst(usize),
}

/// Whether a token is one of these.
pub(crate) fn is_one(token: &Token, symbols: &[Symbol]) -> bool {
    for symbol in symbols {
        if is_symbol(token, *symbol) {
            return true;
        }
    }
    false
}

/// The number of the token that closes what the first of these tokens opens, where one of them does.
pub(crate) fn closing(tokens: &[Token]) -> Option<usize> {
    let mut depth: usize = 0;
    for (count, token) in tokens.iter().enumerate() {
        if is_one(token, &[Symbol::OpenParen, Symbol::OpenBracket]) {
            depth = depth.saturating_add(1);
        } else if is_one(token, &[Symbol::CloseParen, Symbol::CloseBracket]) {
            depth = depth.saturating_sub(1);
        }
        if depth == 0 {
            return Some(count);
        }
    }
    None
}

// What is known of what stands around, with what the opening token of this number opens.
fn with_opening(object: &[Token], path: &[Token], number: usize, so_far: Around) -> Around {
    if begins(tokens_from(path, number), Symbol::OpenBracket) {
        return match so_far {
            Around::One => Around::Burst(number),
            other => other,
        };
    }
    let bound = number.saturating_sub(2);
    match (limit_at(object, tokens_from(path, bound)), so_far) {
        (Some((_, 1)), _) => Around::One,
        (Some(_), Around::Nothing | Around::Bound(_)) => Around::Bound(bound),
        _ => so_far,
    }
}

/// Why a path keeps the names at these numbers of its tokens not apart.
pub(crate) fn why_in(object: &[Token], path: &[Token], first: usize, second: usize) -> Around {
    let mut found = Around::Nothing;
    let last = first.max(second);
    for number in 0..first.min(second) {
        if closing(tokens_from(first_tokens(path, last), number)).is_none() {
            found = with_opening(object, path, number, found);
        }
    }
    found
}
