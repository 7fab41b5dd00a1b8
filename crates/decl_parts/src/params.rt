//! Declarations of parameters.

ghost use Rattle.std.specs.Prelude.{◌≡◌, ◌-◌, ◌+◌, ◌≤◌, ◌++◌, [], IfOk, length};
ghost use Rattle.path_tree.specs.declared.token.Symbol.TheVariants.{OpenParen, Semicolon};
ghost use Rattle.path_tree.specs.Lexeme.{lexemes};
ghost use Rattle.path_tree.specs.Reading.{symbol_at};
ghost use Rattle.decl_parts.specs.Declarations.{begins as begins_with, each_with, with_params};
ghost use Rattle.decl_parts.specs.DeclarationReading.{group_of_params, next_group_in, params_in, params_by};
ghost use Rattle.token_read.specs.Reader.{Gives};
ghost use Rattle.decl_parts.specs.Views.{params_read};
ghost use Rattle.token_read.specs.Scopes.{names_of};
ghost use Rattle.decl_core.specs.ObjectMap.{params_of};
ghost use Rattle.token_read.specs.Series.{series_at};

use crate::group::{begins, names};
use crate::kind_text::elem;
use decl_core::object::Param;
use path_tree::name::Name;
use path_tree::token::{Symbol, Token};
use std::alloc::{AllocError, Global};
use token_read::front::{after, behind, start_of};
use token_read::scope::BodyScope;
use token_read::text_fault::{TextFault, TextRead};
use value_core::kind::Elem;

/// How many parameters more there may be.
fn room(params: &[Param]) -> u8
    requires { length params.now ≤ 8 }
    ensures params { result ≡ 8 - length (params_of params.now) }
    ensures length { result ≡ 8 - length params.now }
{
    8 - params.len() as u8
}

/// Parameters of these names and of one kind, behind those before.
fn with_names(before: Vec<Param>, names: Vec<Name>, kind: Elem) -> Result<Vec<Param>, AllocError>
    ensures params { IfOk result (λ all. params_of all.items ≡ params_of before.items ++ each_with kind names.items) }
    ensures length { IfOk result (λ all. length all.items ≡ length before.items + length names.items) }
{
    let mut all = before;
    for name in names {
        all.push(Param { name, kind })?;
    }
    Ok(all)
}

/// Parameters of one kind, behind those before.
#[tactic(auto, unfolding(crate::specs::DeclarationReading::group_of_params))]
fn group<'t>(
    alloc: Global,
    scope: &BodyScope,
    before: Vec<Param>,
    tokens: &'t [Token],
) -> TextRead<'t, Vec<Param>>
    requires few { length before.items ≤ 8 }
    ensures read { Gives params_read result (group_of_params (names_of scope.now) (params_of before.items)
        (lexemes tokens.now)) }
    ensures few { IfOk result (λ x. length x.0.items ≤ 8) }
{
    let inner = BodyScope {
        constants: scope.constants,
        params: &before,
        parts: scope.parts,
        operations: scope.operations,
        own: scope.own,
        result: scope.result,
        most: scope.most,
    };
    let (new, rest) = names(alloc, &inner, Vec::new(alloc), room(&before), tokens)?;
    let (kind, rest) = elem(rest)?;
    let all = with_names(before, new, kind)?;
    Ok((all, rest))
}

/// A semicolon and parameters of one kind, behind those before.
#[tactic(auto, unfolding(crate::specs::DeclarationReading::next_group_in))]
fn next_group<'t>(
    alloc: Global,
    scope: &BodyScope,
    before: Vec<Param>,
    tokens: &'t [Token],
) -> TextRead<'t, Vec<Param>>
    requires few { length before.items ≤ 8 }
    ensures read { Gives params_read result (next_group_in (names_of scope.now) (params_of before.items)
        (lexemes tokens.now)) }
    ensures few { IfOk result (λ x. length x.0.items ≤ 8) }
{
    let opened = behind(tokens, Symbol::Semicolon)?;
    let (all, rest) = group(alloc, scope, before, opened)?;
    Ok((all, rest))
}

/// Groups one after the other, behind those before.
fn more_groups<'t>(
    alloc: Global,
    scope: &BodyScope,
    so_far: Vec<Param>,
    left: u8,
    tokens: &'t [Token],
) -> TextRead<'t, Vec<Param>>
    requires few { length so_far.items ≤ 8 }
    ensures read { Gives params_read result (series_at (next_group_in (names_of scope.now)) (begins_with Semicolon) left
        (params_of so_far.items) (lexemes tokens.now)) }
    ensures few { IfOk result (λ x. length x.0.items ≤ 8) }
{
    if !begins(tokens, Symbol::Semicolon) {
        return Ok((so_far, tokens));
    }
    if left == 0 {
        return Err(TextFault::TooMany(start_of(tokens)));
    }
    let (one, rest) = next_group(alloc, scope, so_far, tokens)?;
    more_groups(alloc, scope, one, left - 1, rest)
}

/// The parameters of an operation, where a parenthesis opens.
///
/// The fault told is the first from left to right: `Syntax` at a token that the grammar does not have
/// there; `DuplicateName` at a name declared before, `TooMany` at the name of a ninth parameter; `Memory`
/// where room was refused.
#[tactic(auto, unfolding(crate::specs::DeclarationReading::params_in, crate::specs::DeclarationReading::params_by))]
pub fn params<'t>(alloc: Global, scope: &BodyScope, tokens: &'t [Token]) -> TextRead<'t, Vec<Param>>
    ensures read { Gives params_read result (params_in (names_of scope.now) (lexemes tokens.now)) }
    ensures few { IfOk result (λ x. length x.0.items ≤ 8) }
{
    match after(tokens, Symbol::OpenParen) {
        None => Ok((Vec::new(alloc), tokens)),
        Some(opened) => {
            let (one, rest) = group(alloc, scope, Vec::new(alloc), opened)?;
            let (all, rest) = more_groups(alloc, scope, one, 8, rest)?;
            let rest = behind(rest, Symbol::CloseParen)?;
            Ok((all, rest))
        }
    }
}
