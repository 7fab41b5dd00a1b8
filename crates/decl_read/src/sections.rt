//! Where the holds of an object stand in a source.

ghost use Rattle.std.specs.Prelude.{◌≡◌, ◌||◌, Some, None, MatchOption};
ghost use Rattle.path_tree.specs.Lexeme.{lexeme_of, lexemes};
ghost use Rattle.path_tree.specs.Tokens.{placed_tokens};
ghost use Rattle.decl_parts.specs.Declarations.{begins_name as a_name_begins};
ghost use Rattle.decl_read.specs.Declarations.{is_object_word};
ghost use Rattle.decl_read.specs.Sections.{begins_number as a_number_begins, name_behind, number_behind};
ghost use Rattle.decl_read.specs.Sections.{begins_rules as rules_begin, behind_object as behind_object_in, lexemes_in};
ghost use Rattle.decl_read.specs.Sections.{rules_at as rules_at_in, is_of_rules as is_of_rules_in, begin_of as begin_in};
ghost use Rattle.decl_read.specs.Sections.{end_of as end_in};
ghost use Rattle.decl_read.specs.Words.{word_at};
ghost use Rattle.decl_read.specs.declared.words.HoldKeyword.TheVariants.{Hold, Every};

use crate::words::{HoldKeyword, after_word};
use path_tree::token::{Symbol, Token, TokenKind, is_same_symbol};

/// Whether a token is the word `object`.
pub(crate) fn opens_object(kind: &TokenKind) -> bool
    ensures { result ≡ is_object_word (lexeme_of kind.now) }
{
    match kind {
        TokenKind::Symbol(s) => is_same_symbol(*s, Symbol::Object),
        TokenKind::Number(_) => false,
        TokenKind::Name(_) => false,
        TokenKind::Text(_) => false,
        TokenKind::EndMark => false,
    }
}

/// Whether a name stands in front.
fn begins_name(tokens: &[Token]) -> bool
    ensures { result ≡ a_name_begins (lexemes tokens.now) }
{
    match tokens {
        [] => false,
        [token, ..] => match &token.kind {
            TokenKind::Name(_) => true,
            TokenKind::Symbol(_) => false,
            TokenKind::Number(_) => false,
            TokenKind::Text(_) => false,
            TokenKind::EndMark => false,
        },
    }
}

/// Whether a number stands in front.
fn begins_number(tokens: &[Token]) -> bool
    ensures { result ≡ a_number_begins (lexemes tokens.now) }
{
    match tokens {
        [] => false,
        [token, ..] => match &token.kind {
            TokenKind::Number(_) => true,
            TokenKind::Name(_) => false,
            TokenKind::Symbol(_) => false,
            TokenKind::Text(_) => false,
            TokenKind::EndMark => false,
        },
    }
}

/// Whether `hold` and a name stand in front.
fn begins_hold(tokens: &[Token]) -> bool
    ensures { result ≡ name_behind (word_at Hold (lexemes tokens.now)) }
{
    match after_word(tokens, HoldKeyword::Hold) {
        None => false,
        Some(rest) => begins_name(rest),
    }
}

/// Whether `every` and a number stand in front.
fn begins_every(tokens: &[Token]) -> bool
    ensures { result ≡ number_behind (word_at Every (lexemes tokens.now)) }
{
    match after_word(tokens, HoldKeyword::Every) {
        None => false,
        Some(rest) => begins_number(rest),
    }
}

/// Whether holds begin here.
#[tactic(auto, using(crate::proofs::Sources::lexemes_placed))]
pub(crate) fn begins_rules(tokens: &[Token]) -> bool
    ensures { result ≡ rules_begin (lexemes_in (placed_tokens tokens.now)) }
{
    begins_hold(tokens) || begins_every(tokens)
}

/// The tokens behind the next word `object`.
pub(crate) fn behind_object<'t>(tokens: &'t [Token]) -> Option<&'t [Token]>
    ensures { MatchOption result (behind_object_in (placed_tokens tokens.now) ≡ None)
        (λ rest. behind_object_in (placed_tokens tokens.now) ≡ Some (placed_tokens rest.now)) }
{
    let mut rest = tokens;
    'tokens: while let [token, tail @ ..] = rest {
        if opens_object(&token.kind) {
            return Some(tail);
        }
        rest = tail;
    }
    None
}

/// The tokens from the holds of an object on, where it has some; these stand behind its word `object`.
pub(crate) fn rules_at<'t>(tokens: &'t [Token]) -> Option<&'t [Token]>
    ensures { MatchOption result (rules_at_in (placed_tokens tokens.now) ≡ None)
        (λ rest. rules_at_in (placed_tokens tokens.now) ≡ Some (placed_tokens rest.now)) }
{
    let mut rest = tokens;
    'tokens: while let [token, tail @ ..] = rest {
        if opens_object(&token.kind) {
            return None;
        }
        if begins_rules(rest) {
            return Some(rest);
        }
        rest = tail;
    }
    None
}

/// Whether holds can be made of a token.
fn is_of_rules(kind: &TokenKind) -> bool
    ensures { result ≡ is_of_rules_in (lexeme_of kind.now) }
{
    match kind {
        TokenKind::Symbol(s) => {
            is_same_symbol(*s, Symbol::Comma) || is_same_symbol(*s, Symbol::Semicolon)
        }
        TokenKind::Number(_) => true,
        TokenKind::Name(_) => true,
        TokenKind::Text(_) => false,
        TokenKind::EndMark => false,
    }
}

/// The byte where the first of these tokens begins.
pub(crate) fn begin_of(tokens: &[Token]) -> usize
    ensures { result ≡ begin_in (placed_tokens tokens.now) }
{
    match tokens {
        [] => 0,
        [token, ..] => token.start,
    }
}

/// The byte behind the last of these tokens that holds can be made of.
pub(crate) fn end_of(tokens: &[Token]) -> usize
    ensures { result ≡ end_in 0 (placed_tokens tokens.now) }
{
    let mut end = 0;
    let mut rest = tokens;
    'tokens: while let [token, tail @ ..] = rest {
        if !is_of_rules(&token.kind) {
            return end;
        }
        end = token.end;
        rest = tail;
    }
    end
}
