//! Tokens, and rows of them.

use path_tree::token::{Symbol, Token, TokenKind, is_same_symbol};

/// Whether a token is this symbol.
pub fn is_symbol(token: &Token, symbol: Symbol) -> bool {
    match &token.kind {
        TokenKind::Symbol(s) => is_same_symbol(*s, symbol),
        _ => false,
    }
}

/// Whether a token is this name, in lower case.
pub fn is_name(token: &Token, name: &[u8]) -> bool {
    match &token.kind {
        TokenKind::Name(n) => n.as_bytes() == name,
        _ => false,
    }
}

/// Whether a token is a name.
pub fn is_any_name(token: &Token) -> bool {
    matches!(&token.kind, TokenKind::Name(_))
}

/// Whether a token is a number.
pub fn is_number(token: &Token) -> bool {
    matches!(&token.kind, TokenKind::Number(_))
}

/// Whether the source ends at this token.
pub fn is_end_mark(token: &Token) -> bool {
    matches!(&token.kind, TokenKind::EndMark)
}

/// Whether a token is a reserved word.
pub fn is_word(token: &Token) -> bool {
    match &token.kind {
        TokenKind::Symbol(s) => matches!(s.text(), [b'a'..=b'z', ..]),
        _ => false,
    }
}

/// Whether the first of some tokens is this symbol.
pub fn begins(tokens: &[Token], symbol: Symbol) -> bool {
    match tokens {
        [token, ..] => is_symbol(token, symbol),
        [] => false,
    }
}

/// Whether the last of some tokens is this symbol.
pub fn ends(tokens: &[Token], symbol: Symbol) -> bool {
    match tokens {
        [.., token] => is_symbol(token, symbol),
        [] => false,
    }
}

/// The tokens from the one of this number on.
pub fn tokens_from(tokens: &[Token], count: usize) -> &[Token] {
    if count < tokens.len() {
        &tokens[count..]
    } else {
        &[]
    }
}

/// The first tokens, so many at most.
pub fn first_tokens(tokens: &[Token], most: usize) -> &[Token] {
    if most < tokens.len() {
        &tokens[..most]
    } else {
        tokens
    }
}

/// How many tokens stand before a byte of the source.
pub fn count_before(tokens: &[Token], at: usize) -> usize {
    match tokens.iter().position(|token| token.start >= at) {
        Some(count) => count,
        None => tokens.len(),
    }
}

/// How many tokens stand before the first one of this symbol.
pub fn count_to(tokens: &[Token], symbol: Symbol) -> usize {
    match tokens.iter().position(|token| is_symbol(token, symbol)) {
        Some(count) => count,
        None => tokens.len(),
    }
}

/// The tokens from the symbol on that stands there so many times before.
pub fn from_symbol(tokens: &[Token], symbol: Symbol, before: usize) -> &[Token] {
    let mut left = before;
    for (count, token) in tokens.iter().enumerate() {
        if is_symbol(token, symbol) {
            if left == 0 {
                return tokens_from(tokens, count);
            }
            left -= 1;
        }
    }
    &[]
}

/// The tokens from that symbol on up to the next such one.
pub fn section(tokens: &[Token], symbol: Symbol, before: usize) -> &[Token] {
    let here = from_symbol(tokens, symbol, before);
    let inside = tokens_from(here, 1);
    first_tokens(here, count_to(inside, symbol).saturating_add(1))
}

/// The tokens from the last one of this symbol on, or all.
pub fn from_last(tokens: &[Token], symbol: Symbol) -> &[Token] {
    let mut last = 0;
    for (count, token) in tokens.iter().enumerate() {
        if is_symbol(token, symbol) {
            last = count;
        }
    }
    tokens_from(tokens, last)
}

/// How many of some tokens stand before the first one of this name.
pub fn find_name(tokens: &[Token], name: &[u8]) -> Option<usize> {
    tokens.iter().position(|token| is_name(token, name))
}

/// The name that the first of some tokens is, in lower case, or nothing.
pub fn name_of(tokens: &[Token]) -> &[u8] {
    match tokens {
        [token, ..] => match &token.kind {
            TokenKind::Name(name) => name.as_bytes(),
            _ => b"",
        },
        [] => b"",
    }
}

/// The last of some tokens.
pub fn last(tokens: &[Token]) -> &[Token] {
    tokens_from(tokens, tokens.len().saturating_sub(1))
}

/// Whether the first of some tokens is a name.
pub fn is_at_name(here: &[Token]) -> bool {
    match here {
        [token, ..] => is_any_name(token),
        [] => false,
    }
}

/// Whether the first of some tokens is this name, in lower case.
pub fn is_same_word(here: &[Token], word: &[u8]) -> bool {
    match here {
        [token, ..] => is_name(token, word),
        [] => false,
    }
}

/// How many of some tokens are this symbol.
pub fn count_of(tokens: &[Token], symbol: Symbol) -> usize {
    let mut count: usize = 0;
    for token in tokens {
        if is_symbol(token, symbol) {
            count = count.saturating_add(1);
        }
    }
    count
}

/// Whether the last of some tokens ends a value, a name or a size.
pub fn ends_value(before: &[Token]) -> bool {
    match before {
        [.., token] => match &token.kind {
            TokenKind::Symbol(s) => matches!(
                s,
                Symbol::CloseParen | Symbol::CloseBracket | Symbol::Integer | Symbol::Text
            ),
            TokenKind::Number(_) | TokenKind::Name(_) | TokenKind::Text(_) => true,
            TokenKind::EndMark => false,
        },
        [] => false,
    }
}

/// Whether the last of some tokens is a number.
pub fn ends_number(before: &[Token]) -> bool {
    match before {
        [.., token] => is_number(token),
        [] => false,
    }
}

/// Whether the first of some tokens is a reserved word.
pub fn is_at_word(here: &[Token]) -> bool {
    match here {
        [token, ..] => is_word(token),
        [] => false,
    }
}

/// Whether the source ends here.
pub fn is_at_end(here: &[Token]) -> bool {
    match here {
        [token, ..] => is_end_mark(token),
        [] => true,
    }
}
