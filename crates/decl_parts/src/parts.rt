//! Declarations of parts.

ghost use Rattle.std.specs.Prelude.{◌≡◌, ◌-◌, ◌+◌, ◌≤◌, ◌++◌, IfOk, length};
ghost use Rattle.path_tree.specs.declared.token.Symbol.TheVariants.{Var};
ghost use Rattle.path_tree.specs.Known.{constants_of};
ghost use Rattle.path_tree.specs.Lexeme.{lexemes};
ghost use Rattle.value_core.specs.Kinds.{IsKind};
ghost use Rattle.decl_parts.specs.Declarations.{begins as begins_with, begins_name as a_name_begins, each_with};
ghost use Rattle.decl_parts.specs.Declarations.{names_of_parts};
ghost use Rattle.decl_parts.specs.DeclarationReading.{part_group_in, var_in};
ghost use Rattle.token_read.specs.Reader.{Gives};
ghost use Rattle.decl_parts.specs.Views.{parts_read};
ghost use Rattle.token_read.specs.Scopes.{names_of};
ghost use Rattle.decl_core.specs.ObjectMap.{parts_of};
ghost use Rattle.token_read.specs.Series.{series_at};

use crate::group::{begins, begins_name, names};
use crate::kind_text::kind;
use decl_core::id::MOST_PARTS;
use decl_core::object::Part;
use path_tree::lookup::Constant;
use path_tree::name::Name;
use path_tree::token::{Symbol, Token};
use std::alloc::{AllocError, Global};
use token_read::front::{after, behind, name, start_of};
use token_read::lookup::is_known;
use token_read::scope::BodyScope;
use token_read::text_fault::{TextFault, TextRead};
use value_core::kind::Kind;

/// More than a source has tokens.
const MOST: u32 = 131_072;

/// What the declaration of a part is read with.
fn scope_of<'a>(constants: &'a [Constant], parts: &'a [Part]) -> BodyScope<'a>
    requires { length parts.now ≤ 16 }
    ensures names { names_of result ≡ names_of_parts (constants_of constants.now) (parts_of parts.now) }
    ensures constants { constants_of result.constants.now ≡ constants_of constants.now }
{
    BodyScope {
        constants,
        params: &[],
        parts,
        operations: &[],
        own: None,
        result: None,
        most: MOST,
    }
}

/// How many parts more there may be.
fn room(parts: &[Part]) -> u8
    requires { length parts.now ≤ 16 }
    ensures parts { result ≡ 16 - length (parts_of parts.now) }
    ensures length { result ≡ 16 - length parts.now }
{
    (MOST_PARTS - parts.len()) as u8
}

/// Parts of these names and of one kind, behind those before.
fn with_parts(before: Vec<Part>, names: Vec<Name>, kind: Kind) -> Result<Vec<Part>, AllocError>
    requires { IsKind kind }
    ensures parts { IfOk result (λ all. parts_of all.items ≡ parts_of before.items ++ each_with kind names.items) }
    ensures length { IfOk result (λ all. length all.items ≡ length before.items + length names.items) }
{
    let mut all = before;
    for name in names {
        all.push(Part { name, kind })?;
    }
    Ok(all)
}

/// Parts of one kind, behind those before.
#[tactic(auto, unfolding(crate::specs::DeclarationReading::part_group_in))]
fn part_group<'t>(
    alloc: Global,
    constants: &[Constant],
    before: Vec<Part>,
    tokens: &'t [Token],
) -> TextRead<'t, Vec<Part>>
    requires few { length before.items ≤ 16 }
    ensures read { Gives parts_read result (part_group_in (constants_of constants.now) (parts_of before.items)
        (lexemes tokens.now)) }
    ensures few { IfOk result (λ x. length x.0.items ≤ 16) }
{
    let scope = scope_of(constants, &before);
    let (new, rest) = names(alloc, &scope, Vec::new(alloc), room(&before), tokens)?;
    let (kind, rest) = kind(&scope, &new, rest)?;
    let rest = behind(rest, Symbol::Semicolon)?;
    let all = with_parts(before, new, kind)?;
    Ok((all, rest))
}

/// Groups of parts one after the other, behind those before.
fn more_parts<'t>(
    alloc: Global,
    constants: &[Constant],
    so_far: Vec<Part>,
    left: u8,
    tokens: &'t [Token],
) -> TextRead<'t, Vec<Part>>
    requires few { length so_far.items ≤ 16 }
    ensures read { Gives parts_read result (series_at (part_group_in (constants_of constants.now)) a_name_begins left
        (parts_of so_far.items) (lexemes tokens.now)) }
    ensures few { IfOk result (λ x. length x.0.items ≤ 16) }
{
    if !begins_name(tokens) {
        return Ok((so_far, tokens));
    }
    if left == 0 {
        return Err(TextFault::TooMany(start_of(tokens)));
    }
    let (one, rest) = part_group(alloc, constants, so_far, tokens)?;
    more_parts(alloc, constants, one, left - 1, rest)
}

/// Parts behind `var`.
#[tactic(auto, unfolding(crate::specs::DeclarationReading::var_in))]
fn var<'t>(
    alloc: Global,
    constants: &[Constant],
    before: Vec<Part>,
    tokens: &'t [Token],
) -> TextRead<'t, Vec<Part>>
    requires few { length before.items ≤ 16 }
    ensures read { Gives parts_read result (var_in (constants_of constants.now) (parts_of before.items)
        (lexemes tokens.now)) }
    ensures few { IfOk result (λ x. length x.0.items ≤ 16) }
{
    let opened = behind(tokens, Symbol::Var)?;
    let (one, rest) = part_group(alloc, constants, before, opened)?;
    let (all, rest) = more_parts(alloc, constants, one, 16, rest)?;
    Ok((all, rest))
}

/// The fault where no part has room: at what stands behind the word.
fn no_room(constants: &[Constant], before: &[Part], tokens: &[Token]) -> TextFault
    requires { length before.now ≤ 16 }
{
    let Some(opened) = after(tokens, Symbol::Var) else {
        return TextFault::Syntax(start_of(tokens));
    };
    match name(opened) {
        Err(fault) => fault,
        Ok((name, _)) => if is_known(&scope_of(constants, before), name.as_bytes()) {
            TextFault::DuplicateName(start_of(opened))
        } else {
            TextFault::TooMany(start_of(opened))
        },
    }
}

/// The declarations of parts of an object, of which so many may begin; these were before.
///
/// The fault told is the first from left to right: `Syntax` at a token that the grammar does not have
/// there, and at a size that is not 1 to 1024; `DuplicateName` at a name declared before, `TooMany` at the
/// name of a 17th part; `UnknownName` or `WrongType` at a size's name that is no constant's; `Memory`
/// where room was refused.
pub fn parts<'t>(
    alloc: Global,
    constants: &[Constant],
    so_far: Vec<Part>,
    left: u8,
    tokens: &'t [Token],
) -> TextRead<'t, Vec<Part>>
    requires few { length so_far.items ≤ 16 }
    ensures read { Gives parts_read result (series_at (var_in (constants_of constants.now)) (begins_with Var) left
        (parts_of so_far.items) (lexemes tokens.now)) }
    ensures few { IfOk result (λ x. length x.0.items ≤ 16) }
{
    if !begins(tokens, Symbol::Var) {
        return Ok((so_far, tokens));
    }
    if left == 0 {
        return Err(no_room(constants, &so_far, tokens));
    }
    let (one, rest) = var(alloc, constants, so_far, tokens)?;
    parts(alloc, constants, one, left - 1, rest)
}
