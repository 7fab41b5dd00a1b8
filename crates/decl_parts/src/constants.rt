//! Declarations of constants.

ghost use Rattle.std.specs.Prelude.{◌≡◌};
ghost use Rattle.path_tree.specs.declared.token.Symbol.TheVariants.{Const};
ghost use Rattle.path_tree.specs.Known.{constants_of};
ghost use Rattle.path_tree.specs.Lexeme.{lexemes};
ghost use Rattle.decl_parts.specs.Declarations.{begins as begins_with, begins_name as a_name_begins};
ghost use Rattle.decl_parts.specs.DeclarationReading.{constant_in, consts_in, number_at};
ghost use Rattle.token_read.specs.Reader.{Gives};
ghost use Rattle.decl_parts.specs.Views.{constants_read};
ghost use Rattle.token_read.specs.Series.{series_at};

use crate::group::{begins, begins_name};
use path_tree::lookup::Constant;
use path_tree::token::{Symbol, Token, TokenKind};
use std::alloc::Global;
use token_read::front::{after, behind, name, start_of};
use token_read::lookup::constant_of;
use token_read::text_fault::{TextFault, TextRead};

/// The most constants of an object.
const MOST_CONSTANTS: usize = 16;

/// A number that has to stand here, and the tokens behind it.
fn number<'t>(tokens: &'t [Token]) -> TextRead<'t, u32>
    ensures { Gives (λ x. (x.0, lexemes x.1.now)) result (number_at (lexemes tokens.now)) }
{
    match tokens {
        [] => Err(TextFault::Syntax(0)),
        [token, rest @ ..] => match &token.kind {
            TokenKind::Number(n) => Ok((*n, rest)),
            TokenKind::Name(_) => Err(TextFault::Syntax(token.start)),
            TokenKind::Symbol(_) => Err(TextFault::Syntax(token.start)),
            TokenKind::Text(_) => Err(TextFault::Syntax(token.start)),
            TokenKind::EndMark => Err(TextFault::Syntax(token.start)),
        },
    }
}

/// A constant behind those before: a new name, one of at most 16.
#[tactic(auto, unfolding(crate::specs::DeclarationReading::constant_in))]
fn constant<'t>(
    alloc: Global,
    before: Vec<Constant>,
    tokens: &'t [Token],
) -> TextRead<'t, Vec<Constant>>
    ensures { Gives constants_read result (constant_in (constants_of before.items) (lexemes tokens.now)) }
{
    let mut all = before;
    let (name, rest) = name(tokens)?;
    if constant_of(&all, name.as_bytes()).is_some() {
        return Err(TextFault::DuplicateName(start_of(tokens)));
    }
    if all.len() >= MOST_CONSTANTS {
        return Err(TextFault::TooMany(start_of(tokens)));
    }
    let opened = behind(rest, Symbol::Equal)?;
    let (value, rest) = number(opened)?;
    let rest = behind(rest, Symbol::Semicolon)?;
    let name = name.copy(alloc)?;
    all.push(Constant { name, value })?;
    Ok((all, rest))
}

/// Constants one after the other, behind those before.
fn more_constants<'t>(
    alloc: Global,
    so_far: Vec<Constant>,
    left: u8,
    tokens: &'t [Token],
) -> TextRead<'t, Vec<Constant>>
    ensures { Gives constants_read result (series_at constant_in a_name_begins left (constants_of so_far.items)
        (lexemes tokens.now)) }
{
    if !begins_name(tokens) {
        return Ok((so_far, tokens));
    }
    if left == 0 {
        return Err(TextFault::TooMany(start_of(tokens)));
    }
    let (one, rest) = constant(alloc, so_far, tokens)?;
    more_constants(alloc, one, left - 1, rest)
}

/// Constants behind `const`.
#[tactic(auto, unfolding(crate::specs::DeclarationReading::consts_in))]
fn consts<'t>(
    alloc: Global,
    before: Vec<Constant>,
    tokens: &'t [Token],
) -> TextRead<'t, Vec<Constant>>
    ensures { Gives constants_read result (consts_in (constants_of before.items) (lexemes tokens.now)) }
{
    let opened = behind(tokens, Symbol::Const)?;
    let (one, rest) = constant(alloc, before, opened)?;
    let (all, rest) = more_constants(alloc, one, 16, rest)?;
    Ok((all, rest))
}

/// The fault where no constant has room: at what stands behind the word.
fn no_room(before: &[Constant], tokens: &[Token]) -> TextFault {
    let Some(opened) = after(tokens, Symbol::Const) else {
        return TextFault::Syntax(start_of(tokens));
    };
    match name(opened) {
        Err(fault) => fault,
        Ok((name, _)) => if constant_of(before, name.as_bytes()).is_some() {
            TextFault::DuplicateName(start_of(opened))
        } else {
            TextFault::TooMany(start_of(opened))
        },
    }
}

/// The declarations of constants of an object, of which so many may begin; these were before.
pub fn constants<'t>(
    alloc: Global,
    so_far: Vec<Constant>,
    left: u8,
    tokens: &'t [Token],
) -> TextRead<'t, Vec<Constant>>
    ensures { Gives constants_read result (series_at consts_in (begins_with Const) left (constants_of so_far.items)
        (lexemes tokens.now)) }
{
    if !begins(tokens, Symbol::Const) {
        return Ok((so_far, tokens));
    }
    if left == 0 {
        return Err(no_room(&so_far, tokens));
    }
    let (one, rest) = consts(alloc, so_far, tokens)?;
    constants(alloc, one, left - 1, rest)
}
