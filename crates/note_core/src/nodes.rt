//! The path that has too many nodes.

use crate::tokens::{count_to, first_tokens, from_symbol, is_any_name, is_symbol, tokens_from};
use path_tree::token::{Symbol, Token};

// The most nodes of a path.
const MOST_NODES: usize = 256;

// The most paths of a source.
const MOST_PATHS: usize = 256;

// Which lists and sequences are open, as bits: that of level k is bit k.
#[derive(Clone, Copy)]
struct Levels {
    level: u32,
    lists: u64,
    sequences: u64,
}

// A bit of a level.
fn bit(level: u32) -> u64 {
    1u64.checked_shl(level).unwrap_or(0)
}

// Whether a token opens a node by itself: a name that no colon follows, a bound by its colon, and a burst.
fn is_node(token: &Token, rest: &[Token]) -> bool {
    is_symbol(token, Symbol::Colon)
        || is_symbol(token, Symbol::OpenBracket)
        || is_any_name(token) && !crate::tokens::begins(rest, Symbol::Colon)
}

// Whether a token opens a list or a sequence: the first comma of a level, the first semicolon of a member.
fn is_first_sign(token: &Token, levels: Levels) -> bool {
    is_symbol(token, Symbol::Comma) && levels.lists & bit(levels.level) == 0
        || is_symbol(token, Symbol::Semicolon) && levels.sequences & bit(levels.level) == 0
}

// The levels behind a token.
fn levels_behind(token: &Token, levels: Levels) -> Levels {
    let here = bit(levels.level);
    if is_symbol(token, Symbol::OpenBracket) || is_symbol(token, Symbol::OpenParen) {
        let level = levels.level.saturating_add(1);
        Levels {
            level,
            lists: levels.lists & !bit(level),
            sequences: levels.sequences & !bit(level),
        }
    } else if is_symbol(token, Symbol::CloseBracket) || is_symbol(token, Symbol::CloseParen) {
        Levels {
            level: levels.level.saturating_sub(1),
            ..levels
        }
    } else if is_symbol(token, Symbol::Comma) {
        Levels {
            lists: levels.lists | here,
            sequences: levels.sequences & !here,
            ..levels
        }
    } else if is_symbol(token, Symbol::Semicolon) {
        Levels {
            sequences: levels.sequences | here,
            ..levels
        }
    } else {
        levels
    }
}

// How many nodes a path has whose tokens these are.
fn nodes_of(path: &[Token]) -> usize {
    let mut levels = Levels {
        level: 0,
        lists: 0,
        sequences: 0,
    };
    let mut nodes: usize = 0;
    for (count, token) in path.iter().enumerate() {
        if is_node(token, tokens_from(path, count + 1)) || is_first_sign(token, levels) {
            nodes = nodes.saturating_add(1);
        }
        levels = levels_behind(token, levels);
    }
    nodes
}

// Where the first of some tokens starts.
fn start_of(tokens: &[Token]) -> usize {
    match tokens {
        [token, ..] => token.start,
        [] => 0,
    }
}

/// The byte of the `end` of the first path that has too many nodes, or 0 where there is none.
pub fn large_path(tokens: &[Token]) -> usize {
    for number in 0..MOST_PATHS {
        let path = from_symbol(tokens, Symbol::Path, number);
        let count = count_to(path, Symbol::End);
        if nodes_of(first_tokens(path, count)) > MOST_NODES {
            return start_of(tokens_from(path, count));
        }
    }
    0
}
