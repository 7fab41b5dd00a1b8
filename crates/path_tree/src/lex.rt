//! From a source to its tokens.

pub mod fault;
mod gap;
pub mod laws;
mod number;
mod sign;
mod text;
pub mod word;

ghost use Rattle.std.specs.Prelude.{◌≡◌, ℕ, ◌+◌, ◌<◌, ◌≤◌, ◌⊎◌, ◌↔◌, List, IfOk, IfErr, IsErrOf, MatchResult, length};
ghost use Rattle.std.specs.Prelude.{vec_len, slice_index};
ghost use Rattle.path_tree.specs.Gap.{IsBlank, OpensComment};
ghost use Rattle.path_tree.specs.Lexeme.{lexeme_of};
ghost use Rattle.path_tree.specs.Tokens.{Placed, placed_tokens, AreTokens, IsToken, IsFaultAt, IsFirstFault};
ghost use Rattle.path_tree.specs.declared.lex.fault.LexFault.{LexFault};
ghost use Rattle.path_tree.specs.declared.lex.fault.LexFault.TheVariants.{TooLong, Memory};

use crate::lex::fault::LexFault;
use crate::lex::gap::skip_gap;
use crate::lex::number::read_number;
use crate::lex::sign::read_sign;
use crate::lex::text::read_string;
use crate::lex::word::read_word;
use crate::name::is_letter;
use crate::token::{Token, TokenKind};
use std::alloc::Global;

/// The most bytes of a source.
pub const MOST_SOURCE_BYTES: usize = 65_536;

/// The tokens of a source, an end mark last. A source of more than 65,536 bytes is `TooLong`; else
/// the first fault from the left is told, or `Memory` where the room for a token was refused.
pub fn lex(alloc: Global, source: &[u8]) -> Result<Vec<Token>, LexFault>
    ensures tokens { IfOk result (λ v. AreTokens source.now (placed_tokens v.items)) }
    ensures complete { (all : List Placed) → AreTokens source.now all → length source.now ≤ 65536
        → MatchResult result (λ v. placed_tokens v.items ≡ all) (λ fault. fault ≡ Memory) }
    ensures faulty { (fault : LexFault) → IsFirstFault source.now fault → length source.now ≤ 65536
        → MatchResult result (λ v. ⊥) (λ told. (told ≡ fault) ⊎ (told ≡ Memory)) }
    ensures too_long { IsErrOf result TooLong ↔ (65536 < length source.now) }
    ensures first { IfErr result (λ fault. (fault ≡ TooLong) ⊎ ((fault ≡ Memory) ⊎ IsFirstFault source.now fault)) }
    ensures count { IfOk result (λ v. vec_len v ≤ length source.now + 1) }
{
    if source.len() > MOST_SOURCE_BYTES {
        return Err(LexFault::TooLong);
    }
    scan(alloc, source)
}

// The tokens of a source of any length.
fn scan(alloc: Global, source: &[u8]) -> Result<Vec<Token>, LexFault>
    ensures { MatchResult result (λ v. AreTokens source.now (placed_tokens v.items))
        (λ fault. (fault ≡ Memory) ⊎ IsFirstFault source.now fault) }
{
    let mut tokens = Vec::new(alloc);
    let mut at = 0;
    loop {
        let start = skip_gap(source, at)?;
        if start == source.len() {
            tokens.push(Token {
                kind: TokenKind::EndMark,
                start,
                end: start,
            })?;
            return Ok(tokens);
        }
        let (kind, end) = read_token(alloc, source, start)?;
        tokens.push(Token { kind, start, end })?;
        at = end;
    }
}

// The token at a place and its end.
fn read_token(alloc: Global, source: &[u8], start: usize) -> Result<(TokenKind, usize), LexFault>
    requires within { start < length source.now }
    requires no_blank { IsBlank (slice_index source.now start) → ⊥ }
    requires no_comment { OpensComment source.now start → ⊥ }
    ensures { MatchResult result (λ r. IsToken source.now (lexeme_of r.0) start r.1)
        (λ fault. (fault ≡ Memory) ⊎ IsFaultAt source.now start fault) }
{
    let first = source[start];
    if is_letter(first) {
        read_word(alloc, source, start)
    } else if matches!(first, b'0'..=b'9') {
        read_number(source, start)
    } else if first == b'\'' {
        read_string(alloc, source, start)
    } else {
        read_sign(source, start)
    }
}
