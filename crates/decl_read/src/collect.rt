//! The names of operations, collected ahead of the paths that may use them.

ghost use Rattle.std.specs.Prelude.{◌≡◌, ◌++◌, Some};
ghost use Rattle.path_tree.specs.Lexeme.{lexeme_of, lexemes};
ghost use Rattle.token_read.specs.Reader.{Gives};
ghost use Rattle.decl_read.specs.Declarations.{entry_names, is_entry, is_object_word, opening_after, name_behind};
ghost use Rattle.decl_read.specs.declared.collect.Opening.TheVariants.{Nothing};

use path_tree::name::Name;
use path_tree::token::{Symbol, Token, TokenKind, is_same_symbol};
use std::alloc::Global;
use token_read::text_fault::TextFault;

/// What stands directly before a token.
#[derive(Clone, Copy)]
pub(crate) enum Opening {
    /// None of these words.
    Nothing,
    /// `entry`
    Entry,
    /// `entry procedure` or `entry function`
    Operation,
}

/// Whether a token is the word `object`.
fn opens_object(kind: &TokenKind) -> bool
    ensures { result ≡ is_object_word (lexeme_of kind.now) }
{
    match kind {
        TokenKind::Symbol(s) => is_same_symbol(*s, Symbol::Object),
        TokenKind::Number(_) => false,
        TokenKind::Name(_) => false,
        TokenKind::Text(_) => false,
        TokenKind::EndMark => false,
    }
}

/// Whether `entry` stands before.
fn is_behind_entry(opening: Opening) -> bool
    ensures { result ≡ is_entry opening }
{
    match opening {
        Opening::Nothing => false,
        Opening::Entry => true,
        Opening::Operation => false,
    }
}

/// What stands before the next token.
fn opening_behind(opening: Opening, kind: &TokenKind) -> Opening
    ensures { result ≡ opening_after opening (lexeme_of kind.now) }
{
    match kind {
        TokenKind::Symbol(s) => if is_same_symbol(*s, Symbol::Entry) {
            Opening::Entry
        } else if is_behind_entry(opening)
            && (is_same_symbol(*s, Symbol::Procedure) || is_same_symbol(*s, Symbol::Function))
        {
            Opening::Operation
        } else {
            Opening::Nothing
        },
        TokenKind::Number(_) => Opening::Nothing,
        TokenKind::Name(_) => Opening::Nothing,
        TokenKind::Text(_) => Opening::Nothing,
        TokenKind::EndMark => Opening::Nothing,
    }
}

/// The names so far, with a name that stands directly behind the two words.
fn noted(
    alloc: Global,
    so_far: Vec<Name>,
    opening: Opening,
    kind: &TokenKind,
) -> Result<Vec<Name>, TextFault>
    ensures { Gives (λ v. v.items) result (Some (so_far.items ++ name_behind opening (lexeme_of kind.now))) }
{
    let mut all = so_far;
    match opening {
        Opening::Nothing => Ok(all),
        Opening::Entry => Ok(all),
        Opening::Operation => match kind {
            TokenKind::Symbol(_) => Ok(all),
            TokenKind::Number(_) => Ok(all),
            TokenKind::Name(name) => {
                let name = name.copy(alloc)?;
                all.push(name)?;
                Ok(all)
            }
            TokenKind::Text(_) => Ok(all),
            TokenKind::EndMark => Ok(all),
        },
    }
}

/// The names that directly follow `entry procedure` or `entry function`, up to the next word `object`.
pub(crate) fn operation_names(alloc: Global, tokens: &[Token]) -> Result<Vec<Name>, TextFault>
    ensures { Gives (λ v. v.items) result (Some (entry_names Nothing (lexemes tokens.now))) }
{
    let mut all = Vec::new(alloc);
    let mut opening = Opening::Nothing;
    let mut rest = tokens;
    'tokens: while let [token, tail @ ..] = rest {
        if opens_object(&token.kind) {
            return Ok(all);
        }
        all = noted(alloc, all, opening, &token.kind)?;
        opening = opening_behind(opening, &token.kind);
        rest = tail;
    }
    Ok(all)
}
