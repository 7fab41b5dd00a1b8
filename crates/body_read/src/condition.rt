//! Conditions, each form read from the front of some tokens.
//!
//! `depth` is the number of levels of expressions that may still be opened.

ghost use Rattle.std.specs.Prelude.{◌≡◌};
ghost use Rattle.path_tree.specs.Lexeme.{lexemes};
ghost use Rattle.decl_core.specs.View.{form_of, condition_of};
ghost use Rattle.token_read.specs.Reader.{Gives};
ghost use Rattle.body_read.specs.StatementReading.{expr_at, relation_of, relation_at, left_of};
ghost use Rattle.body_read.specs.StatementReading.{compared as compared_forms, comparison_in, has_in};
ghost use Rattle.body_read.specs.StatementReading.{plain_condition_in};
ghost use Rattle.path_tree.specs.Reading.{symbol_at};
ghost use Rattle.path_tree.specs.declared.token.Symbol.TheVariants.{Has};
ghost use Rattle.token_read.specs.Scopes.{names_of};
ghost use Rattle.body_read.specs.Scopes.{nested_in, deeper_in, conditions_in, relation_read, condition_read};

use crate::kinds::{integer, table, text};
use crate::terms::{expr, nested, part};
use decl_core::expr::Expr;
use decl_core::id::PartId;
use decl_core::stmt::{Cond, Relation};
use path_tree::token::{Symbol, Token, TokenKind, is_same_symbol};
use std::alloc::Global;
use token_read::front::{after, behind, start_of, start_of_second};
use token_read::scope::BodyScope;
use token_read::text_fault::{TextFault, TextRead};

/// The relation of a symbol that compares.
fn relation_by(s: Symbol) -> Option<Relation>
    ensures { result ≡ relation_of s }
{
    if is_same_symbol(s, Symbol::Equal) {
        Some(Relation::Equal)
    } else if is_same_symbol(s, Symbol::Differ) {
        Some(Relation::Differ)
    } else if is_same_symbol(s, Symbol::Less) {
        Some(Relation::Less)
    } else if is_same_symbol(s, Symbol::LessEqual) {
        Some(Relation::LessEqual)
    } else if is_same_symbol(s, Symbol::Greater) {
        Some(Relation::Greater)
    } else if is_same_symbol(s, Symbol::GreaterEqual) {
        Some(Relation::GreaterEqual)
    } else {
        None
    }
}

/// A symbol that compares, which has to stand here.
fn relation<'t>(tokens: &'t [Token]) -> TextRead<'t, Relation>
    ensures { Gives relation_read result (relation_at (lexemes tokens.now)) }
{
    match tokens {
        [] => Err(TextFault::Syntax(0)),
        [token, rest @ ..] => match &token.kind {
            TokenKind::Symbol(s) => match relation_by(*s) {
                None => Err(TextFault::Syntax(token.start)),
                Some(relation) => Ok((relation, rest)),
            },
            TokenKind::Number(_) => Err(TextFault::Syntax(token.start)),
            TokenKind::Name(_) => Err(TextFault::Syntax(token.start)),
            TokenKind::Text(_) => Err(TextFault::Syntax(token.start)),
            TokenKind::EndMark => Err(TextFault::Syntax(token.start)),
        },
    }
}

/// What may stand left of a relation.
fn left(relation: Relation, e: Expr, at: usize) -> Result<Expr, TextFault>
    ensures { Gives form_of result (left_of relation (form_of e)) }
{
    match e {
        Expr::Integer(e) => Ok(Expr::Integer(e)),
        Expr::Text(e) => match relation {
            Relation::Equal => Ok(Expr::Text(e)),
            Relation::Differ => Ok(Expr::Text(e)),
            Relation::Less => Err(TextFault::WrongType(at)),
            Relation::LessEqual => Err(TextFault::WrongType(at)),
            Relation::Greater => Err(TextFault::WrongType(at)),
            Relation::GreaterEqual => Err(TextFault::WrongType(at)),
        },
    }
}

/// Two expressions that are compared; the fault is at the right one.
fn compared(relation: Relation, left: Expr, right: Expr, at: usize) -> Result<Cond, TextFault>
    ensures { Gives condition_of result (compared_forms relation (form_of left) (form_of right)) }
{
    match left {
        Expr::Integer(left) => match right {
            Expr::Integer(right) => Ok(Cond::Integers(relation, left, right)),
            Expr::Text(_) => Err(TextFault::WrongType(at)),
        },
        Expr::Text(left) => match right {
            Expr::Integer(_) => Err(TextFault::WrongType(at)),
            Expr::Text(right) => match relation {
                Relation::Equal => Ok(Cond::SameTexts(left, right)),
                Relation::Differ => Ok(Cond::OtherTexts(left, right)),
                Relation::Less => Err(TextFault::WrongType(at)),
                Relation::LessEqual => Err(TextFault::WrongType(at)),
                Relation::Greater => Err(TextFault::WrongType(at)),
                Relation::GreaterEqual => Err(TextFault::WrongType(at)),
            },
        },
    }
}

/// Two expressions with a relation between them.
#[tactic(auto, unfolding(crate::specs::StatementReading::comparison_in))]
fn comparison<'t>(
    alloc: Global,
    scope: &BodyScope,
    tokens: &'t [Token],
    depth: u8,
) -> TextRead<'t, Cond>
    ensures { Gives condition_read result (comparison_in (expr_at (names_of scope.now) scope.now.most depth)
        (lexemes tokens.now)) }
{
    let (first, rest) = expr(alloc, scope, tokens, depth)?;
    let (relation, second) = relation(rest)?;
    let first = left(relation, first, start_of(tokens))?;
    let (other, rest) = expr(alloc, scope, second, depth)?;
    let c = compared(relation, first, other, start_of(second))?;
    Ok((c, rest))
}

/// What stands behind `has`.
#[tactic(auto, unfolding(crate::specs::StatementReading::has_in))]
fn has<'t>(alloc: Global, scope: &BodyScope, tokens: &'t [Token], depth: u8) -> TextRead<'t, Cond>
    ensures { Gives condition_read result (has_in (names_of scope.now) (nested_in scope.now depth) depth
        (lexemes tokens.now)) }
{
    let (part, kind, rest) = part(scope, tokens, depth)?;
    let _sort = table(kind, start_of_second(tokens))?;
    let opened = behind(rest, Symbol::Comma)?;
    let (key, rest) = nested(alloc, scope, start_of(tokens), opened, depth)?;
    let key = text(key, start_of(opened))?;
    let rest = behind(rest, Symbol::CloseParen)?;
    Ok((Cond::Has(PartId::new(part), key), rest))
}

/// A condition where no `not` stands.
#[tactic(auto, unfolding(crate::specs::StatementReading::plain_condition_in))]
fn plain<'t>(alloc: Global, scope: &BodyScope, tokens: &'t [Token], depth: u8) -> TextRead<'t, Cond>
    ensures { Gives condition_read result (plain_condition_in (names_of scope.now) scope.now.most depth
        (lexemes tokens.now) (symbol_at Has (lexemes tokens.now))) }
{
    match after(tokens, Symbol::Has) {
        None => {
            let (c, rest) = comparison(alloc, scope, tokens, depth)?;
            Ok((c, rest))
        }
        Some(behind) => {
            let (c, rest) = has(alloc, scope, behind, depth)?;
            Ok((c, rest))
        }
    }
}

/// A condition behind `not`, one level deeper.
#[cycle(conditions)]
#[tactic(auto, using(crate::proofs::StatementSteps::deeper_step))]
fn deeper<'t>(
    alloc: Global,
    scope: &BodyScope,
    at: usize,
    tokens: &'t [Token],
    depth: u8,
) -> TextRead<'t, Cond>
    ensures { Gives condition_read result (deeper_in scope.now depth (lexemes tokens.now)) }
{
    if depth == 0 {
        return Err(TextFault::TooMany(at));
    }
    condition(alloc, scope, tokens, depth - 1)
}

/// A condition.
#[cycle(conditions)]
#[tactic(auto, unfolding(crate::specs::StatementReading::condition_in, crate::specs::StatementReading::not_in))]
pub(crate) fn condition<'t>(
    alloc: Global,
    scope: &BodyScope,
    tokens: &'t [Token],
    depth: u8,
) -> TextRead<'t, Cond>
    ensures { Gives condition_read result (conditions_in scope.now depth (lexemes tokens.now)) }
{
    match after(tokens, Symbol::Not) {
        None => {
            let (c, rest) = plain(alloc, scope, tokens, depth)?;
            Ok((c, rest))
        }
        Some(behind) => {
            let (c, rest) = deeper(alloc, scope, start_of(tokens), behind, depth)?;
            let c = Box::new(alloc, c)?;
            Ok((Cond::Not(c), rest))
        }
    }
}
