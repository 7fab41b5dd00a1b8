//! The forms of the grammar, each read from the front of some tokens.
//!
//! Each function takes the operations that were seen, in the order in which they were named, and adds those that
//! it reads. What it leaves there where it fails is not said.
//! `depth` is the number of levels that may still be opened.

ghost use Rattle.std.specs.Prelude.{◌≤◌};
ghost use Rattle.path_tree.specs.declared.token.Symbol.TheVariants.{Comma, Semicolon, Colon};
ghost use Rattle.path_tree.specs.Lexeme.{lexemes};
ghost use Rattle.path_tree.specs.Known.{known_of};
ghost use Rattle.path_tree.specs.Reading.{Gives, node_read, parts_read, group_in, burst_in, bounded_in, opened_in};
ghost use Rattle.path_tree.specs.Reading.{named_in, name_at, limit_of, nested_in, items_in, parts_at, sequence_in};
ghost use Rattle.path_tree.specs.Reading.{symbol_at};

use crate::front::{after, behind, start_of};
use crate::lookup::{constant_of, operation_of};
use crate::node::{Node, OpId};
use crate::parts::{Parts, list_node, put, sequence_node};
use crate::path_fault::PathFault;
use crate::scope::Scope;
use crate::token::{Symbol, Token, TokenKind, is_same_symbol};
use std::alloc::Global;

/// What was read, and the tokens behind.
pub(crate) type Read<'t, T> = Result<(T, &'t [Token]), PathFault>;

/// What a token says, and its place in the text.
#[derive(Clone, Copy)]
struct Spot<T> {
    said: T,
    at: usize,
}

/// A number as a bound.
#[tactic(auto, unfolding(crate::specs::Reading::limit_of))]
fn limit(n: u32, at: usize) -> Result<u16, PathFault>
    ensures { Gives (λ x. x) result (limit_of n) }
{
    if n >= 1 && n <= 65535 {
        Ok(n as u16)
    } else {
        Err(PathFault::BadBound(at))
    }
}

/// An operation that was not seen before.
#[tactic(auto, unfolding(crate::specs::Reading::name_at))]
fn name<'t>(
    scope: &Scope,
    text: &[u8],
    at: usize,
    tokens: &'t [Token],
    seen: &mut Vec<OpId>,
) -> Read<'t, Node>
    ensures { Gives (node_read seen.new.items) result (name_at (known_of scope.now) text.now seen.old.items
        (lexemes tokens.now)) }
{
    match operation_of(scope.operations, text) {
        None => Err(PathFault::UnknownName(at)),
        Some(op) => {
            if seen.contains(&op) {
                Err(PathFault::RepeatedName(at))
            } else {
                seen.push(op)?;
                Ok((Node::Name(op), tokens))
            }
        }
    }
}

/// A list, one level deeper.
#[cycle(reading)]
#[tactic(auto, unfolding(crate::specs::Reading::list_in), using(crate::proofs::Steps::nested_step))]
fn nested<'t>(
    alloc: Global,
    scope: &Scope,
    at: usize,
    tokens: &'t [Token],
    seen: &mut Vec<OpId>,
    depth: u8,
) -> Read<'t, Node>
    ensures { Gives (node_read seen.new.items) result (nested_in scope.now depth seen.old.items (lexemes tokens.now)) }
{
    if depth == 0 {
        return Err(PathFault::TooDeep(at));
    }
    let (parts, rest) = list(alloc, scope, tokens, seen, depth - 1, scope.most)?;
    Ok((list_node(alloc, parts)?, rest))
}

/// A list in parentheses, behind the symbol that opens.
#[cycle(reading)]
#[tactic(auto, unfolding(crate::specs::Reading::group_in))]
fn group<'t>(
    alloc: Global,
    scope: &Scope,
    at: usize,
    tokens: &'t [Token],
    seen: &mut Vec<OpId>,
    depth: u8,
) -> Read<'t, Node>
    ensures { Gives (node_read seen.new.items) result (group_in (nested_in scope.now depth) seen.old.items
        (lexemes tokens.now)) }
{
    let (inside, rest) = nested(alloc, scope, at, tokens, seen, depth)?;
    let rest = behind(rest, Symbol::CloseParen)?;
    Ok((inside, rest))
}

/// A list in brackets, behind the symbol that opens.
#[cycle(reading)]
#[tactic(auto, unfolding(crate::specs::Reading::burst_in))]
fn burst<'t>(
    alloc: Global,
    scope: &Scope,
    at: usize,
    tokens: &'t [Token],
    seen: &mut Vec<OpId>,
    depth: u8,
) -> Read<'t, Node>
    ensures { Gives (node_read seen.new.items) result (burst_in (nested_in scope.now depth) seen.old.items
        (lexemes tokens.now)) }
{
    let (inside, rest) = nested(alloc, scope, at, tokens, seen, depth)?;
    let rest = behind(rest, Symbol::CloseBracket)?;
    Ok((Node::Burst(Box::new(alloc, inside)?), rest))
}

/// What stands behind a number that bounds.
#[cycle(reading)]
#[tactic(auto, unfolding(crate::specs::Reading::bounded_in))]
fn bounded<'t>(
    alloc: Global,
    scope: &Scope,
    number: Spot<u32>,
    tokens: &'t [Token],
    seen: &mut Vec<OpId>,
    depth: u8,
) -> Read<'t, Node>
    ensures { Gives (node_read seen.new.items) result (bounded_in (nested_in scope.now depth) number.said seen.old.items
        (lexemes tokens.now)) }
{
    let limit = limit(number.said, number.at)?;
    let paren = behind(tokens, Symbol::Colon)?;
    let opened = behind(paren, Symbol::OpenParen)?;
    let (inside, rest) = group(alloc, scope, start_of(paren), opened, seen, depth)?;
    Ok((Node::Bound(limit, Box::new(alloc, inside)?), rest))
}

/// What begins with a name.
#[cycle(reading)]
#[tactic(auto, unfolding(crate::specs::Reading::named_in))]
fn named<'t>(
    alloc: Global,
    scope: &Scope,
    text: Spot<&[u8]>,
    tokens: &'t [Token],
    seen: &mut Vec<OpId>,
    depth: u8,
) -> Read<'t, Node>
    ensures { Gives (node_read seen.new.items) result (named_in (known_of scope.now) (nested_in scope.now depth)
        text.entry.said.now (lexemes tokens.now) (symbol_at Colon (lexemes tokens.now)) seen.old.items) }
{
    let Spot { said, at } = text;
    match after(tokens, Symbol::Colon) {
        None => name(scope, said, at, tokens, seen),
        Some(_) => match constant_of(scope.constants, said) {
            None => Err(PathFault::UnknownName(at)),
            Some(n) => bounded(alloc, scope, Spot { said: n, at }, tokens, seen, depth),
        },
    }
}

/// What stands behind a symbol that opens.
#[cycle(reading)]
#[tactic(auto, unfolding(crate::specs::Reading::opened_in))]
fn opened<'t>(
    alloc: Global,
    scope: &Scope,
    symbol: Spot<Symbol>,
    tokens: &'t [Token],
    seen: &mut Vec<OpId>,
    depth: u8,
) -> Read<'t, Node>
    ensures { Gives (node_read seen.new.items) result (opened_in (nested_in scope.now depth) symbol.said seen.old.items
        (lexemes tokens.now)) }
{
    let Spot { said, at } = symbol;
    if is_same_symbol(said, Symbol::OpenParen) {
        group(alloc, scope, at, tokens, seen, depth)
    } else if is_same_symbol(said, Symbol::OpenBracket) {
        burst(alloc, scope, at, tokens, seen, depth)
    } else {
        Err(PathFault::Expected(at))
    }
}

/// One item.
#[cycle(reading)]
#[tactic(auto, unfolding(crate::specs::Reading::item_in))]
fn item<'t>(
    alloc: Global,
    scope: &Scope,
    tokens: &'t [Token],
    seen: &mut Vec<OpId>,
    depth: u8,
) -> Read<'t, Node>
    ensures { Gives (node_read seen.new.items) result (items_in scope.now depth seen.old.items (lexemes tokens.now)) }
{
    match tokens {
        [] => Err(PathFault::Expected(0)),
        [token, rest @ ..] => {
            let at = token.start;
            match &token.kind {
                TokenKind::Number(n) => bounded(
                    alloc,
                    scope,
                    Spot { said: *n, at },
                    rest,
                    seen,
                    depth,
                ),
                TokenKind::Name(name) => {
                    let said = name.as_bytes();
                    named(alloc, scope, Spot { said, at }, rest, seen, depth)
                }
                TokenKind::Symbol(s) => opened(
                    alloc,
                    scope,
                    Spot { said: *s, at },
                    rest,
                    seen,
                    depth,
                ),
                TokenKind::Text(_) => Err(PathFault::Expected(at)),
                TokenKind::EndMark => Err(PathFault::Expected(at)),
            }
        }
    }
}

/// Items behind semicolons.
#[cycle(reading)]
#[tactic(auto, unfolding(crate::specs::Reading::with_others), using(crate::proofs::Steps::parts_step))]
fn sequence<'t>(
    alloc: Global,
    scope: &Scope,
    tokens: &'t [Token],
    seen: &mut Vec<OpId>,
    depth: u8,
    left: u32,
) -> Read<'t, Parts>
    requires { left ≤ scope.now.most }
    ensures { Gives (parts_read seen.new.items) result (parts_at Semicolon (items_in scope.now depth) left
        seen.old.items (lexemes tokens.now)) }
{
    if left == 0 {
        return Err(PathFault::Expected(start_of(tokens)));
    }
    let (first, rest) = item(alloc, scope, tokens, seen, depth)?;
    match after(rest, Symbol::Semicolon) {
        None => Ok((Parts::One(first), rest)),
        Some(rest) => {
            let (others, rest) = sequence(alloc, scope, rest, seen, depth, left - 1)?;
            Ok((Parts::Several(put(alloc, first, others)?), rest))
        }
    }
}

/// Sequences behind commas.
#[cycle(reading)]
#[tactic(auto, unfolding(crate::specs::Reading::sequence_in, crate::specs::Reading::with_others), using(crate::proofs::Steps::parts_step))]
pub(crate) fn list<'t>(
    alloc: Global,
    scope: &Scope,
    tokens: &'t [Token],
    seen: &mut Vec<OpId>,
    depth: u8,
    left: u32,
) -> Read<'t, Parts>
    requires { left ≤ scope.now.most }
    ensures { Gives (parts_read seen.new.items) result (parts_at Comma
        (sequence_in (items_in scope.now depth) scope.now.most) left seen.old.items (lexemes tokens.now)) }
{
    if left == 0 {
        return Err(PathFault::Expected(start_of(tokens)));
    }
    let (parts, rest) = sequence(alloc, scope, tokens, seen, depth, scope.most)?;
    let first = sequence_node(alloc, parts)?;
    match after(rest, Symbol::Comma) {
        None => Ok((Parts::One(first), rest)),
        Some(rest) => {
            let (others, rest) = list(alloc, scope, rest, seen, depth, left - 1)?;
            Ok((Parts::Several(put(alloc, first, others)?), rest))
        }
    }
}
