//! Signs.

ghost use Rattle.std.specs.Prelude.{◌≡◌, ℕ, ◌<◌, ◌≤◌, List, [], ◌∷◌, MatchOption, MatchResult, length, slice_index};
ghost use Rattle.path_tree.specs.Identifier.{IsLetter, IsDigit};
ghost use Rattle.path_tree.specs.Lexeme.{lexeme_of, symbol_text};
ghost use Rattle.path_tree.specs.Gap.{IsBlank, OpensComment};
ghost use Rattle.path_tree.specs.Tokens.{IsSign, IsToken, IsFaultAt};
ghost use Rattle.path_tree.specs.declared.token.Symbol.{Symbol};

use crate::lex::fault::LexFault;
use crate::lex::gap::byte_at;
use crate::token::{Symbol, TokenKind};

/// The longest sign at a place and its end, or `BadByte` where no sign stands. No other token may
/// begin at the place, and no gap.
pub fn read_sign(source: &[u8], start: usize) -> Result<(TokenKind, usize), LexFault>
    requires within { start < length source.now }
    requires no_blank { IsBlank (slice_index source.now start) → ⊥ }
    requires no_comment { OpensComment source.now start → ⊥ }
    requires no_word { IsLetter (slice_index source.now start) → ⊥ }
    requires no_number { IsDigit (slice_index source.now start) → ⊥ }
    requires no_string { slice_index source.now start ≡ 39 → ⊥ }
    ensures { MatchResult result (λ r. IsToken source.now (lexeme_of r.0) start r.1)
        (λ fault. IsFaultAt source.now start fault) }
{
    let first = source[start];
    if let Some(symbol) = double_sign(first, byte_at(source, start + 1)) {
        return Ok((TokenKind::Symbol(symbol), start + 2));
    }
    match single_sign(first) {
        Some(symbol) => Ok((TokenKind::Symbol(symbol), start + 1)),
        None => Err(LexFault::BadByte(start)),
    }
}

// The sign of these two bytes.
fn double_sign(first: u8, second: u8) -> Option<Symbol>
    ensures { MatchOption result ((s : Symbol) → IsSign s → symbol_text s ≡ first ∷ second ∷ [] → ⊥)
        (λ s. IsSign s × (symbol_text s ≡ first ∷ second ∷ [])) }
{
    match (first, second) {
        (b':', b'=') => Some(Symbol::Assign),
        (b'<', b'>') => Some(Symbol::Differ),
        (b'<', b'=') => Some(Symbol::LessEqual),
        (b'>', b'=') => Some(Symbol::GreaterEqual),
        _ => None,
    }
}

// The sign of this one byte.
fn single_sign(byte: u8) -> Option<Symbol>
    ensures { MatchOption result ((s : Symbol) → IsSign s → symbol_text s ≡ byte ∷ [] → ⊥)
        (λ s. IsSign s × (symbol_text s ≡ byte ∷ [])) }
{
    match byte {
        b'(' => Some(Symbol::OpenParen),
        b')' => Some(Symbol::CloseParen),
        b'[' => Some(Symbol::OpenBracket),
        b']' => Some(Symbol::CloseBracket),
        b',' => Some(Symbol::Comma),
        b';' => Some(Symbol::Semicolon),
        b':' => Some(Symbol::Colon),
        b'=' => Some(Symbol::Equal),
        b'<' => Some(Symbol::Less),
        b'>' => Some(Symbol::Greater),
        b'+' => Some(Symbol::Plus),
        b'-' => Some(Symbol::Minus),
        _ => None,
    }
}
