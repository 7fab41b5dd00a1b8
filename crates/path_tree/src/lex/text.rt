//! Strings.

ghost use Rattle.std.specs.Prelude.{◌≡◌, ℕ, ◌+◌, ◌<◌, ◌≤◌, ◌⊎◌, ◌↔◌, ◌≢◌, IsTrue, MatchResult, length, slice_index};
ghost use Rattle.path_tree.specs.Lexeme.{lexeme_of};
ghost use Rattle.path_tree.specs.Tokens.{IsTextByte, IsToken, IsFaultAt};
ghost use Rattle.path_tree.specs.declared.lex.fault.LexFault.TheVariants.{Memory};

use crate::lex::fault::LexFault;
use crate::lex::gap::byte_at;
use crate::token::TokenKind;
use std::alloc::Global;

/// The most bytes of a string's content.
pub const MOST_STRING_BYTES: usize = 1000;

/// The string at a place and its end. `BadByte` is a byte that it may not hold, `OpenString` one
/// that is not closed on its line or is too long, whichever the reading meets first.
pub fn read_string(
    alloc: Global,
    source: &[u8],
    start: usize,
) -> Result<(TokenKind, usize), LexFault>
    requires within { start < length source.now }
    requires apostrophe { slice_index source.now start ≡ 39 }
    ensures { MatchResult result (λ r. IsToken source.now (lexeme_of r.0) start r.1)
        (λ fault. (fault ≡ Memory) ⊎ IsFaultAt source.now start fault) }
{
    let mut content = Vec::new(alloc);
    let mut at = start + 1;
    loop {
        if closes_string(source, at) {
            return Ok((TokenKind::Text(content), at + 1));
        }
        if ends_line(source, at) {
            return Err(LexFault::OpenString(start));
        }
        let byte = source[at];
        if !is_text_byte(byte) {
            return Err(LexFault::BadByte(at));
        }
        if content.len() == MOST_STRING_BYTES {
            return Err(LexFault::OpenString(start));
        }
        content.push(byte)?;
        at += if byte == b'\'' { 2 } else { 1 };
    }
}

// Whether an apostrophe stands at a place, and none after it.
fn closes_string(source: &[u8], at: usize) -> bool
    requires { at ≤ length source.now }
    ensures { IsTrue result ↔ ((slice_index source.now at ≡ 39) × (slice_index source.now (at + 1) ≢ 39)) }
{
    byte_at(source, at) == b'\'' && byte_at(source, at + 1) != b'\''
}

// Whether the source or its line ends at a place.
fn ends_line(source: &[u8], at: usize) -> bool
    ensures { IsTrue result ↔ ((length source.now ≤ at) ⊎ (slice_index source.now at ≡ 10)) }
{
    at >= source.len() || source[at] == b'\n'
}

// Whether a string may hold this byte.
fn is_text_byte(byte: u8) -> bool
    ensures { IsTrue result ↔ IsTextByte byte }
{
    (32..=126).contains(&byte)
}
