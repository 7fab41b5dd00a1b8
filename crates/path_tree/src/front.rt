//! What stands at the front of some tokens.

ghost use Rattle.std.specs.Prelude.{◌≡◌, Some, None, MatchOption};
ghost use Rattle.path_tree.specs.Lexeme.{lexemes};
ghost use Rattle.path_tree.specs.Reading.{Gives, symbol_at};

use crate::path_fault::PathFault;
use crate::token::{Symbol, Token, TokenKind, is_same_symbol};

/// The byte where the first of these tokens starts; there is one, an end mark at least.
pub(crate) fn start_of(tokens: &[Token]) -> usize {
    match tokens {
        [] => 0,
        [token, ..] => token.start,
    }
}

/// The tokens behind a symbol, or `None` where another stands here.
pub(crate) fn after<'t>(tokens: &'t [Token], symbol: Symbol) -> Option<&'t [Token]>
    ensures { MatchOption result (symbol_at symbol (lexemes tokens.now) ≡ None)
        (λ rest. symbol_at symbol (lexemes tokens.now) ≡ Some (lexemes rest.now)) }
{
    match tokens {
        [] => None,
        [token, rest @ ..] => match &token.kind {
            TokenKind::Symbol(s) => if is_same_symbol(*s, symbol) {
                Some(rest)
            } else {
                None
            },
            TokenKind::Number(_) => None,
            TokenKind::Name(_) => None,
            TokenKind::Text(_) => None,
            TokenKind::EndMark => None,
        },
    }
}

/// The tokens behind a symbol that has to stand here.
pub(crate) fn behind<'t>(tokens: &'t [Token], symbol: Symbol) -> Result<&'t [Token], PathFault>
    ensures { Gives (λ rest. lexemes rest.now) result (symbol_at symbol (lexemes tokens.now)) }
{
    match after(tokens, symbol) {
        Some(rest) => Ok(rest),
        None => Err(PathFault::Expected(start_of(tokens))),
    }
}
