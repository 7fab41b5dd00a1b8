//! Identifiers and reserved words.

ghost use Rattle.std.specs.Prelude.{◌≡◌, ◌≢◌, ℕ, ◌<◌, ◌≤◌, ◌⊎◌, IsTrue, List, Contains, All, MatchOption, MatchResult};
ghost use Rattle.std.specs.Prelude.{length, slice_index};
ghost use Rattle.std.specs.Str.{str_to_ascii_lowercase};
ghost use Rattle.path_tree.specs.Identifier.{IsLetter, IsWordByte};
ghost use Rattle.path_tree.specs.Lexeme.{lexeme_of, symbol_text};
ghost use Rattle.path_tree.specs.Tokens.{IsReserved, IsRun, IsToken, IsFaultAt};
ghost use Rattle.path_tree.specs.declared.lex.fault.LexFault.TheVariants.{Memory};
ghost use Rattle.path_tree.specs.declared.token.Symbol.{Symbol};

use crate::lex::fault::LexFault;
use crate::name::{MOST_IDENTIFIER_BYTES, Name, is_word_byte};
use crate::token::{Symbol, TokenKind};
use std::alloc::Global;

/// The identifier or reserved word at a place and its end. In a longer one than 64 bytes the 65th is
/// `BadByte`.
pub fn read_word(alloc: Global, source: &[u8], start: usize) -> Result<(TokenKind, usize), LexFault>
    requires within { start < length source.now }
    requires letter { IsLetter (slice_index source.now start) }
    ensures { MatchResult result (λ r. IsToken source.now (lexeme_of r.0) start r.1)
        (λ fault. (fault ≡ Memory) ⊎ IsFaultAt source.now start fault) }
{
    let end = word_end(source, start);
    if end - start > MOST_IDENTIFIER_BYTES {
        return Err(LexFault::BadByte(start + MOST_IDENTIFIER_BYTES));
    }
    let word = &source[start..end];
    if let Some(symbol) = reserved(word) {
        return Ok((TokenKind::Symbol(symbol), end));
    }
    let name = Name::of_identifier(alloc, word)?;
    Ok((TokenKind::Name(name), end))
}

// Where the run of word bytes at a place ends.
fn word_end(source: &[u8], from: usize) -> usize
    requires within { from < length source.now }
    requires word { IsWordByte (slice_index source.now from) }
    ensures { IsRun IsWordByte source.now from result }
{
    let mut at = from + 1;
    while at < source.len() && is_word_byte(source[at]) {
        at += 1;
    }
    at
}

/// The reserved word that these bytes spell, in any case.
pub fn reserved(word: &[u8]) -> Option<Symbol>
    requires { 0 < length word.now }
    ensures { MatchOption result ((s : Symbol) → IsReserved s → str_to_ascii_lowercase word.now ≢ symbol_text s)
        (λ s. IsReserved s × (str_to_ascii_lowercase word.now ≡ symbol_text s)) }
{
    for symbol in reserved_from(word[0].to_ascii_lowercase()) {
        if symbol.text().eq_ignore_ascii_case(word) {
            return Some(*symbol);
        }
    }
    None
}

// The reserved words that begin with this lower-case letter.
fn reserved_from(letter: u8) -> &'static [Symbol]
    ensures all { (s : Symbol) → IsReserved s → slice_index (symbol_text s) 0 ≡ letter → Contains result.now s }
    ensures only { All IsReserved result.now }
{
    match letter {
        b'a' => &[Symbol::Append, Symbol::Array],
        b'b' => &[Symbol::Begin],
        b'c' => &[Symbol::Const, Symbol::Count],
        b'e' => &[Symbol::Else, Symbol::End, Symbol::Entry, Symbol::Erase],
        b'f' => &[Symbol::First, Symbol::Function],
        b'h' => &[Symbol::Has],
        b'i' => &[Symbol::If, Symbol::Integer],
        b'l' => &[Symbol::Lookup],
        b'n' => &[Symbol::Not],
        b'o' => &[Symbol::Object, Symbol::Of],
        b'p' => &[Symbol::Path, Symbol::Procedure],
        b'q' => &[Symbol::Queue],
        b'r' => &[Symbol::Refuse],
        b's' => &[Symbol::Store],
        b't' => &[Symbol::Table, Symbol::Take, Symbol::Text, Symbol::Then],
        b'v' => &[Symbol::Var],
        _ => &[],
    }
}
