//! What stands at the front of some tokens.

ghost use Rattle.std.specs.Prelude.{◌≡◌, Some, None, MatchOption};
ghost use Rattle.path_tree.specs.Lexeme.{lexemes};
ghost use Rattle.path_tree.specs.Reading.{symbol_at};
ghost use Rattle.token_read.specs.Reader.{Gives};
ghost use Rattle.token_read.specs.Names.{sign_at, name_at};
ghost use Rattle.token_read.specs.Starts.{start_at, second_start_at};

use crate::text_fault::TextFault;
use path_tree::name::Name;
use path_tree::token::{Symbol, Token, TokenKind, is_same_symbol};

/// The byte where the first of these tokens starts; there is one, an end mark at least.
pub fn start_of(tokens: &[Token]) -> usize
    ensures { result ≡ start_at tokens.now }
{
    match tokens {
        [] => 0,
        [token, ..] => token.start,
    }
}

/// The byte where the second of these tokens starts, where there is one.
pub fn start_of_second(tokens: &[Token]) -> usize
    ensures { result ≡ second_start_at tokens.now }
{
    match tokens {
        [_, token, ..] => token.start,
        [] | [_] => 0,
    }
}

/// The tokens behind a symbol, or `None` where another stands here.
pub fn after<'t>(tokens: &'t [Token], symbol: Symbol) -> Option<&'t [Token]>
    ensures { MatchOption result (symbol_at symbol (lexemes tokens.now) ≡ None)
        (λ rest. symbol_at symbol (lexemes tokens.now) ≡ Some (lexemes rest.now)) }
{
    match tokens {
        [] => None,
        [token, rest @ ..] => match &token.kind {
            TokenKind::Symbol(s) => if is_same_symbol(*s, symbol) {
                Some(rest)
            } else {
                None
            },
            TokenKind::Number(_) => None,
            TokenKind::Name(_) => None,
            TokenKind::Text(_) => None,
            TokenKind::EndMark => None,
        },
    }
}

/// The tokens behind a symbol that has to stand here.
pub fn behind<'t>(tokens: &'t [Token], symbol: Symbol) -> Result<&'t [Token], TextFault>
    ensures { Gives (λ rest. lexemes rest.now) result (symbol_at symbol (lexemes tokens.now)) }
{
    match after(tokens, symbol) {
        Some(rest) => Ok(rest),
        None => Err(TextFault::Syntax(start_of(tokens))),
    }
}

/// A name that has to stand here, and the tokens behind it.
pub fn name<'t>(tokens: &'t [Token]) -> Result<(&'t Name, &'t [Token]), TextFault>
    ensures { Gives (λ x. (x.0.now, lexemes x.1.now)) result (name_at (lexemes tokens.now)) }
{
    match tokens {
        [] => Err(TextFault::Syntax(0)),
        [token, rest @ ..] => match &token.kind {
            TokenKind::Name(name) => Ok((name, rest)),
            TokenKind::Symbol(_) => Err(TextFault::Syntax(token.start)),
            TokenKind::Number(_) => Err(TextFault::Syntax(token.start)),
            TokenKind::Text(_) => Err(TextFault::Syntax(token.start)),
            TokenKind::EndMark => Err(TextFault::Syntax(token.start)),
        },
    }
}

/// A plus or a minus, and the tokens behind it.
pub fn operator<'t>(tokens: &'t [Token]) -> Option<(bool, &'t [Token])>
    ensures { MatchOption result (sign_at (lexemes tokens.now) ≡ None)
        (λ x. sign_at (lexemes tokens.now) ≡ Some (x.0, lexemes x.1.now)) }
{
    match tokens {
        [] => None,
        [token, rest @ ..] => match &token.kind {
            TokenKind::Symbol(s) => if is_same_symbol(*s, Symbol::Plus) {
                Some((true, rest))
            } else if is_same_symbol(*s, Symbol::Minus) {
                Some((false, rest))
            } else {
                None
            },
            TokenKind::Number(_) => None,
            TokenKind::Name(_) => None,
            TokenKind::Text(_) => None,
            TokenKind::EndMark => None,
        },
    }
}
