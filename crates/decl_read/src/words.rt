//! Words that are words in their places alone: anywhere else they are names.

ghost use Rattle.std.specs.Prelude.{◌≡◌, Some, None, MatchOption, bytes_eq};
ghost use Rattle.path_tree.specs.Lexeme.{lexemes};
ghost use Rattle.token_read.specs.Reader.{Gives};
ghost use Rattle.decl_read.specs.Words.{word_text, word_at, begins_word as begins_with};

use path_tree::name::Name;
use path_tree::token::{Token, TokenKind};
use token_read::front::start_of;
use token_read::text_fault::TextFault;

/// A word that is one in its place alone.
#[derive(Clone, Copy)]
pub(crate) enum HoldKeyword {
    /// `hold`
    Hold,
    /// `until`
    Until,
    /// `by`
    By,
    /// `any`
    Any,
    /// `every`
    Every,
    /// `call`
    Call,
}

/// How a word is written, in lower case.
fn text(word: HoldKeyword) -> &'static [u8]
    ensures { result.now ≡ word_text word }
{
    match word {
        HoldKeyword::Hold => b"hold",
        HoldKeyword::Until => b"until",
        HoldKeyword::By => b"by",
        HoldKeyword::Any => b"any",
        HoldKeyword::Every => b"every",
        HoldKeyword::Call => b"call",
    }
}

/// Whether a name is written as this word.
fn is_word(name: &Name, word: HoldKeyword) -> bool
    ensures { result ≡ bytes_eq name.now (word_text word) }
{
    name.as_bytes() == text(word)
}

/// The tokens behind a word, or `None` where another token stands here.
pub(crate) fn after_word<'t>(tokens: &'t [Token], word: HoldKeyword) -> Option<&'t [Token]>
    ensures { MatchOption result (word_at word (lexemes tokens.now) ≡ None)
        (λ rest. word_at word (lexemes tokens.now) ≡ Some (lexemes rest.now)) }
{
    match tokens {
        [] => None,
        [token, rest @ ..] => match &token.kind {
            TokenKind::Name(name) => if is_word(name, word) {
                Some(rest)
            } else {
                None
            },
            TokenKind::Symbol(_) => None,
            TokenKind::Number(_) => None,
            TokenKind::Text(_) => None,
            TokenKind::EndMark => None,
        },
    }
}

/// Whether a word stands in front.
pub(crate) fn begins_word(tokens: &[Token], word: HoldKeyword) -> bool
    ensures { result ≡ begins_with word (lexemes tokens.now) }
{
    match after_word(tokens, word) {
        None => false,
        Some(_) => true,
    }
}

/// The tokens behind a word that has to stand here.
pub(crate) fn behind_word<'t>(
    tokens: &'t [Token],
    word: HoldKeyword,
) -> Result<&'t [Token], TextFault>
    ensures { Gives (λ rest. lexemes rest.now) result (word_at word (lexemes tokens.now)) }
{
    match after_word(tokens, word) {
        Some(rest) => Ok(rest),
        None => Err(TextFault::Syntax(start_of(tokens))),
    }
}
