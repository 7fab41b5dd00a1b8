//! Names up to a colon, and what tells whether a series goes on.

ghost use Rattle.std.specs.Prelude.{◌≡◌, ◌+◌, ◌≤◌, IfOk, length};
ghost use Rattle.path_tree.specs.Lexeme.{lexemes};
ghost use Rattle.decl_parts.specs.Declarations.{begins as begins_with, begins_name as a_name_begins};
ghost use Rattle.decl_parts.specs.DeclarationReading.{names_at, names_with};
ghost use Rattle.token_read.specs.Reader.{Gives};
ghost use Rattle.token_read.specs.Names.{is_among as is_one_of};
ghost use Rattle.decl_parts.specs.Views.{names_read};
ghost use Rattle.token_read.specs.Scopes.{names_of};

use path_tree::name::Name;
use path_tree::token::{Symbol, Token, TokenKind};
use std::alloc::Global;
use token_read::front::{after, behind, name, start_of};
use token_read::lookup::is_known;
use token_read::scope::BodyScope;
use token_read::text_fault::{TextFault, TextRead};

/// Whether a symbol stands in front.
pub fn begins(tokens: &[Token], symbol: Symbol) -> bool
    ensures { result ≡ begins_with symbol (lexemes tokens.now) }
{
    match after(tokens, symbol) {
        None => false,
        Some(_) => true,
    }
}

/// Whether a name stands in front.
pub(crate) fn begins_name(tokens: &[Token]) -> bool
    ensures { result ≡ a_name_begins (lexemes tokens.now) }
{
    match tokens {
        [] => false,
        [token, ..] => match &token.kind {
            TokenKind::Name(_) => true,
            TokenKind::Symbol(_) => false,
            TokenKind::Number(_) => false,
            TokenKind::Text(_) => false,
            TokenKind::EndMark => false,
        },
    }
}

/// Whether one of these names has these bytes.
pub(crate) fn is_among(names: &[Name], text: &[u8]) -> bool
    ensures { result ≡ is_one_of names.now text.now }
{
    match names {
        [] => false,
        [name, rest @ ..] => name.as_bytes() == text || is_among(rest, text),
    }
}

/// The fault where no name has room.
fn no_room(scope: &BodyScope, so_far: &[Name], tokens: &[Token]) -> TextFault {
    match name(tokens) {
        Err(fault) => fault,
        Ok((name, _)) => if is_known(scope, name.as_bytes()) || is_among(so_far, name.as_bytes()) {
            TextFault::DuplicateName(start_of(tokens))
        } else {
            TextFault::TooMany(start_of(tokens))
        },
    }
}

/// A new name, and so many others at most behind commas, up to a colon: all with those before.
#[cycle(names)]
#[tactic(auto, unfolding(crate::specs::DeclarationReading::names_with, crate::specs::DeclarationReading::names_by))]
fn some_names<'t>(
    alloc: Global,
    scope: &BodyScope,
    so_far: Vec<Name>,
    left: u8,
    tokens: &'t [Token],
) -> TextRead<'t, Vec<Name>>
    ensures read { Gives names_read result (names_with (names_of scope.now) (names_at (names_of scope.now) left)
        so_far.items (lexemes tokens.now)) }
    ensures few { IfOk result (λ x. length x.0.items ≤ length so_far.items + left + 1) }
{
    let mut all = so_far;
    let (name, rest) = name(tokens)?;
    if is_known(scope, name.as_bytes()) || is_among(&all, name.as_bytes()) {
        return Err(TextFault::DuplicateName(start_of(tokens)));
    }
    let copy = name.copy(alloc)?;
    all.push(copy)?;
    match after(rest, Symbol::Comma) {
        None => {
            let rest = behind(rest, Symbol::Colon)?;
            Ok((all, rest))
        }
        Some(opened) => names(alloc, scope, all, left, opened),
    }
}

/// New names up to a colon, so many at most: all with those before.
#[cycle(names)]
#[tactic(auto, using(crate::proofs::NameSteps::names_step, crate::proofs::NameSteps::names_none))]
pub(crate) fn names<'t>(
    alloc: Global,
    scope: &BodyScope,
    so_far: Vec<Name>,
    left: u8,
    tokens: &'t [Token],
) -> TextRead<'t, Vec<Name>>
    ensures read { Gives names_read result (names_at (names_of scope.now) left so_far.items (lexemes tokens.now)) }
    ensures few { IfOk result (λ x. length x.0.items ≤ length so_far.items + left) }
{
    if left == 0 {
        return Err(no_room(scope, &so_far, tokens));
    }
    some_names(alloc, scope, so_far, left - 1, tokens)
}
