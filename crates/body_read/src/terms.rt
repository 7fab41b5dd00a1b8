//! Expressions, each form read from the front of some tokens.
//!
//! `depth` is the number of levels of expressions that may still be opened.

ghost use Rattle.std.specs.Prelude.{◌≡◌, ◌<◌, IfOk, Some};
ghost use Rattle.path_tree.specs.declared.token.Symbol.TheVariants.{OpenBracket};
ghost use Rattle.path_tree.specs.Lexeme.{lexemes};
ghost use Rattle.path_tree.specs.Reading.{symbol_at};
ghost use Rattle.decl_core.specs.View.{form_of, integers_of};
ghost use Rattle.token_read.specs.Reader.{Gives};
ghost use Rattle.body_read.specs.Reading.{value_named, part_in, first_in, count_in, lookup_in, group_in, by_symbol_in};
ghost use Rattle.body_read.specs.Reading.{named_in, expr_in, more_at};
ghost use Rattle.path_tree.specs.Known.{value_of};
ghost use Rattle.token_read.specs.Scopes.{names_of};
ghost use Rattle.body_read.specs.Scopes.{nested_in, terms_in, form_read, integers_read, part_read};

use crate::kinds::{array, integer, level, literal, queue, signed, table, taken, text};
use decl_core::expr::{Expr, IntegerExpr, Source};
use decl_core::id::PartId;
use path_tree::token::{Symbol, Token, TokenKind, is_same_symbol};
use std::alloc::Global;
use token_read::front::{after, behind, name, operator, start_of, start_of_second};
use token_read::lookup::{constant_of, is_known, param_of, part_of, place_of};
use token_read::scope::BodyScope;
use token_read::text_fault::{TextFault, TextRead};
use value_core::kind::Kind;

/// A constant's value or a parameter.
#[tactic(auto, unfolding(crate::specs::Reading::value_named, crate::specs::Reading::param_named))]
fn value(alloc: Global, scope: &BodyScope, bytes: &[u8], at: usize) -> Result<Expr, TextFault>
    ensures { Gives form_of result (value_named (names_of scope.now) bytes.now
        (value_of (names_of scope.now).constants bytes.now)) }
{
    match constant_of(scope.constants, bytes) {
        Some(n) => Ok(Expr::Integer(IntegerExpr::Number(n))),
        None => match param_of(scope.params, bytes) {
            None => if is_known(scope, bytes) {
                Err(TextFault::WrongType(at))
            } else {
                Err(TextFault::UnknownName(at))
            },
            Some((param, sort)) => {
                let e = taken(alloc, sort, Source::Parameter(param))?;
                Ok(e)
            }
        },
    }
}

/// A part's name behind the parenthesis that opens.
#[tactic(auto, unfolding(crate::specs::Reading::part_in))]
pub(crate) fn part<'t>(
    scope: &BodyScope,
    tokens: &'t [Token],
    depth: u8,
) -> Result<(u8, Kind, &'t [Token]), TextFault>
    ensures within { IfOk result (λ x. x.0 < 16) }
    ensures read { Gives part_read result (part_in (names_of scope.now) depth (lexemes tokens.now)) }
{
    let opened = behind(tokens, Symbol::OpenParen)?;
    let _left = level(depth, start_of(tokens))?;
    let (name, rest) = name(opened)?;
    match place_of(scope.parts, name.as_bytes()) {
        None => if is_known(scope, name.as_bytes()) {
            Err(TextFault::WrongType(start_of(opened)))
        } else {
            Err(TextFault::UnknownName(start_of(opened)))
        },
        Some((place, kind)) => Ok((place, kind, rest)),
    }
}

/// What stands behind `first`.
#[tactic(auto, unfolding(crate::specs::Reading::first_in))]
fn first<'t>(alloc: Global, scope: &BodyScope, tokens: &'t [Token], depth: u8) -> TextRead<'t, Expr>
    ensures { Gives form_read result (first_in (names_of scope.now) depth (lexemes tokens.now)) }
{
    let (part, kind, rest) = part(scope, tokens, depth)?;
    let sort = queue(kind, start_of_second(tokens))?;
    let rest = behind(rest, Symbol::CloseParen)?;
    let e = taken(alloc, sort, Source::First(PartId::new(part)))?;
    Ok((e, rest))
}

/// What stands behind `count`.
#[tactic(auto, unfolding(crate::specs::Reading::count_in))]
fn count<'t>(scope: &BodyScope, tokens: &'t [Token], depth: u8) -> TextRead<'t, Expr>
    ensures { Gives form_read result (count_in (names_of scope.now) depth (lexemes tokens.now)) }
{
    let (part, _kind, rest) = part(scope, tokens, depth)?;
    let rest = behind(rest, Symbol::CloseParen)?;
    Ok((Expr::Integer(IntegerExpr::Count(PartId::new(part))), rest))
}

/// An expression, one level deeper.
#[cycle(expressions)]
#[tactic(auto, using(crate::proofs::Sums::nested_step))]
pub(crate) fn nested<'t>(
    alloc: Global,
    scope: &BodyScope,
    at: usize,
    tokens: &'t [Token],
    depth: u8,
) -> TextRead<'t, Expr>
    ensures { Gives form_read result (nested_in scope.now depth (lexemes tokens.now)) }
{
    if depth == 0 {
        return Err(TextFault::TooMany(at));
    }
    expr(alloc, scope, tokens, depth - 1)
}

/// An expression behind the parenthesis that opens.
#[cycle(expressions)]
#[tactic(auto, unfolding(crate::specs::Reading::group_in))]
fn group<'t>(
    alloc: Global,
    scope: &BodyScope,
    at: usize,
    tokens: &'t [Token],
    depth: u8,
) -> TextRead<'t, Expr>
    ensures { Gives form_read result (group_in (nested_in scope.now depth) (lexemes tokens.now)) }
{
    let (e, rest) = nested(alloc, scope, at, tokens, depth)?;
    let rest = behind(rest, Symbol::CloseParen)?;
    Ok((e, rest))
}

/// What stands behind `lookup`.
#[cycle(expressions)]
#[tactic(auto, unfolding(crate::specs::Reading::lookup_in))]
fn lookup<'t>(
    alloc: Global,
    scope: &BodyScope,
    tokens: &'t [Token],
    depth: u8,
) -> TextRead<'t, Expr>
    ensures { Gives form_read result (lookup_in (names_of scope.now) (nested_in scope.now depth) depth
        (lexemes tokens.now)) }
{
    let (part, kind, rest) = part(scope, tokens, depth)?;
    let sort = table(kind, start_of_second(tokens))?;
    let opened = behind(rest, Symbol::Comma)?;
    let (key, rest) = nested(alloc, scope, start_of(tokens), opened, depth)?;
    let key = text(key, start_of(opened))?;
    let rest = behind(rest, Symbol::CloseParen)?;
    let e = taken(alloc, sort, Source::Lookup(PartId::new(part), key))?;
    Ok((e, rest))
}

/// What begins with a name.
#[cycle(expressions)]
#[tactic(auto, unfolding(crate::specs::Reading::named_in))]
fn named<'t>(
    alloc: Global,
    scope: &BodyScope,
    bytes: &[u8],
    at: usize,
    tokens: &'t [Token],
    depth: u8,
) -> TextRead<'t, Expr>
    ensures { Gives form_read result (named_in (names_of scope.now) (nested_in scope.now depth) bytes.now
        (lexemes tokens.now) (symbol_at OpenBracket (lexemes tokens.now))) }
{
    match after(tokens, Symbol::OpenBracket) {
        None => {
            let e = value(alloc, scope, bytes, at)?;
            Ok((e, tokens))
        }
        Some(opened) => match part_of(scope.parts, bytes) {
            None => if is_known(scope, bytes) {
                Err(TextFault::WrongType(at))
            } else {
                Err(TextFault::UnknownName(at))
            },
            Some((part, kind)) => {
                let sort = array(kind, at)?;
                let (index, rest) = nested(alloc, scope, start_of(tokens), opened, depth)?;
                let index = integer(index, start_of(opened))?;
                let rest = behind(rest, Symbol::CloseBracket)?;
                let e = taken(alloc, sort, Source::Element(part, index))?;
                Ok((e, rest))
            }
        },
    }
}

/// What begins with a symbol.
#[cycle(expressions)]
#[tactic(auto, unfolding(crate::specs::Reading::by_symbol_in))]
fn by_symbol<'t>(
    alloc: Global,
    scope: &BodyScope,
    symbol: Symbol,
    at: usize,
    tokens: &'t [Token],
    depth: u8,
) -> TextRead<'t, Expr>
    ensures { Gives form_read result (by_symbol_in (names_of scope.now) (nested_in scope.now depth) depth symbol
        (lexemes tokens.now)) }
{
    if is_same_symbol(symbol, Symbol::OpenParen) {
        group(alloc, scope, at, tokens, depth)
    } else if is_same_symbol(symbol, Symbol::First) {
        first(alloc, scope, tokens, depth)
    } else if is_same_symbol(symbol, Symbol::Count) {
        count(scope, tokens, depth)
    } else if is_same_symbol(symbol, Symbol::Lookup) {
        lookup(alloc, scope, tokens, depth)
    } else {
        Err(TextFault::Syntax(at))
    }
}

/// A term.
#[cycle(expressions)]
#[tactic(auto, unfolding(crate::specs::Reading::term_in))]
fn term<'t>(alloc: Global, scope: &BodyScope, tokens: &'t [Token], depth: u8) -> TextRead<'t, Expr>
    ensures { Gives form_read result (terms_in scope.now depth (lexemes tokens.now)) }
{
    match tokens {
        [] => Err(TextFault::Syntax(0)),
        [token, rest @ ..] => {
            let at = token.start;
            match &token.kind {
                TokenKind::Number(n) => Ok((Expr::Integer(IntegerExpr::Number(*n)), rest)),
                TokenKind::Text(content) => {
                    let e = literal(alloc, content, at)?;
                    Ok((e, rest))
                }
                TokenKind::Name(name) => named(alloc, scope, name.as_bytes(), at, rest, depth),
                TokenKind::Symbol(s) => by_symbol(alloc, scope, *s, at, rest, depth),
                TokenKind::EndMark => Err(TextFault::Syntax(at)),
            }
        }
    }
}

/// Terms with plus and minus between them, or one alone.
#[cycle(expressions)]
#[tactic(auto, unfolding(crate::specs::Reading::expr_in, crate::specs::Reading::summed))]
pub(crate) fn expr<'t>(
    alloc: Global,
    scope: &BodyScope,
    tokens: &'t [Token],
    depth: u8,
) -> TextRead<'t, Expr>
    ensures { Gives form_read result (expr_in (terms_in scope.now depth) scope.now.most (lexemes tokens.now)) }
{
    let (first, rest) = term(alloc, scope, tokens, depth)?;
    match operator(rest) {
        None => Ok((first, rest)),
        Some(_) => {
            let first = integer(first, start_of(tokens))?;
            let (sum, rest) = more(alloc, scope, first, rest, depth)?;
            Ok((Expr::Integer(sum), rest))
        }
    }
}

/// What stands behind the first term of a sum.
#[cycle(expressions)]
fn more<'t>(
    alloc: Global,
    scope: &BodyScope,
    first: IntegerExpr,
    tokens: &'t [Token],
    depth: u8,
) -> TextRead<'t, IntegerExpr>
    ensures { Gives integers_read result (more_at (terms_in scope.now depth) scope.now.most (integers_of first)
        (lexemes tokens.now)) }
{
    let mut terms = Vec::new(alloc);
    let mut rest = tokens;
    for _ in 0..scope.most {
        match operator(rest) {
            None => return Ok((IntegerExpr::Sum(Box::new(alloc, first)?, terms), rest)),
            Some((is_plus, opened)) => {
                let (e, behind_term) = term(alloc, scope, opened, depth)?;
                let e = integer(e, start_of(opened))?;
                terms.push(signed(is_plus, e))?;
                rest = behind_term;
            }
        }
    }
    Err(TextFault::Syntax(start_of(rest)))
}
