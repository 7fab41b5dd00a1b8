//! Statements, each form read from the front of some tokens.
//!
//! `depth` is the number of levels of statements that may still be opened; the expressions of each
//! statement have 32 levels of their own.

ghost use Rattle.std.specs.Prelude.{◌≡◌, Some, None};
ghost use Rattle.path_tree.specs.Lexeme.{lexemes};
ghost use Rattle.path_tree.specs.Reading.{symbol_at};
ghost use Rattle.path_tree.specs.declared.token.Symbol.TheVariants.{OpenBracket, Else};
ghost use Rattle.decl_core.specs.Form.{block as block_form, choose, nothing};
ghost use Rattle.decl_core.specs.View.{form_of, condition_of, statement_of, all_of};
ghost use Rattle.token_read.specs.Reader.{Gives};
ghost use Rattle.body_read.specs.StatementReading.{sorted as sorted_form, result_sort as result_sort_in, string_at};
ghost use Rattle.body_read.specs.StatementReading.{word_of_refusal, element_in, result_in, assigned_in, append_in};
ghost use Rattle.body_read.specs.StatementReading.{take_in, store_in, erase_in, refuse_in, other_in, if_in, block_in};
ghost use Rattle.body_read.specs.StatementReading.{statement_by_symbol, statements_at, body_in};
ghost use Rattle.token_read.specs.Scopes.{names_of, function_of};
ghost use Rattle.body_read.specs.Scopes.{inner_in, statement_by, string_read, statement_read};
ghost use Rattle.body_read.specs.Scopes.{statements_read};

use crate::condition::condition;
use crate::kinds::{array, integer, level, queue, table, text};
use crate::terms::{expr, nested, part};
use decl_core::expr::Expr;
use decl_core::id::PartId;
use decl_core::stmt::{Cond, Stmt};
use decl_core::word::RefusalWord;
use path_tree::name::Name;
use path_tree::token::{Symbol, Token, TokenKind, is_same_symbol};
use std::alloc::Global;
use token_read::front::{after, behind, start_of, start_of_second};
use token_read::lookup::{is_known, part_of};
use token_read::scope::BodyScope;
use token_read::text_fault::{TextFault, TextRead};
use value_core::kind::Elem;

/// The levels of expressions in a statement.
const EXPRESSIONS: u8 = 32;

/// The levels of statements in a body; its `begin` opens the first.
const STATEMENTS: u8 = 32;

/// An expression that has to be of a sort.
fn sorted(sort: Elem, e: Expr, at: usize) -> Result<Expr, TextFault>
    ensures { Gives form_of result (sorted_form sort (form_of e)) }
{
    match e {
        Expr::Integer(e) => match sort {
            Elem::Integer => Ok(Expr::Integer(e)),
            Elem::Text => Err(TextFault::WrongType(at)),
        },
        Expr::Text(e) => match sort {
            Elem::Integer => Err(TextFault::WrongType(at)),
            Elem::Text => Ok(Expr::Text(e)),
        },
    }
}

/// What the function replies whose body it is, where this is its name.
fn result_sort(own: Option<&Name>, replies: Option<Elem>, bytes: &[u8]) -> Option<Elem>
    ensures { result ≡ result_sort_in (function_of own.entry replies) bytes.now }
{
    match own {
        None => None,
        Some(name) => match replies {
            None => None,
            Some(sort) => if name.as_bytes() == bytes {
                Some(sort)
            } else {
                None
            },
        },
    }
}

/// A block of statements.
#[tactic(auto, using(decl_core::proofs::Rows::block_is))]
fn block_of(all: Vec<Stmt>) -> Stmt
    ensures { statement_of result ≡ block_form (all_of all.items) }
{
    Stmt::Block(all)
}

/// The empty statement.
fn empty(alloc: Global) -> Stmt
    ensures { statement_of result ≡ block_form nothing }
{
    let none = Vec::new(alloc);
    block_of(none)
}

/// What stands behind the name of an array and the bracket that opens.
#[tactic(auto, unfolding(crate::specs::StatementReading::element_in))]
fn element<'t>(
    alloc: Global,
    scope: &BodyScope,
    bytes: &[u8],
    at: usize,
    bracket: usize,
    tokens: &'t [Token],
) -> TextRead<'t, Stmt>
    ensures { Gives statement_read result (element_in (names_of scope.now) scope.now.most bytes.now
        (lexemes tokens.now)) }
{
    match part_of(scope.parts, bytes) {
        None => if is_known(scope, bytes) {
            Err(TextFault::WrongType(at))
        } else {
            Err(TextFault::UnknownName(at))
        },
        Some((part, kind)) => {
            let sort = array(kind, at)?;
            let (index, rest) = nested(alloc, scope, bracket, tokens, EXPRESSIONS)?;
            let index = integer(index, start_of(tokens))?;
            let rest = behind(rest, Symbol::CloseBracket)?;
            let second = behind(rest, Symbol::Assign)?;
            let (e, rest) = expr(alloc, scope, second, EXPRESSIONS)?;
            let e = sorted(sort, e, start_of(second))?;
            Ok((Stmt::SetElement(part, index, e), rest))
        }
    }
}

/// What stands behind the name of a function.
#[tactic(auto, unfolding(crate::specs::StatementReading::result_in))]
fn replied<'t>(
    alloc: Global,
    scope: &BodyScope,
    bytes: &[u8],
    at: usize,
    tokens: &'t [Token],
) -> TextRead<'t, Stmt>
    ensures { Gives statement_read result (result_in (names_of scope.now) scope.now.most bytes.now
        (lexemes tokens.now)) }
{
    match after(tokens, Symbol::Assign) {
        None => if is_known(scope, bytes) {
            Err(TextFault::Syntax(start_of(tokens)))
        } else {
            Err(TextFault::UnknownName(at))
        },
        Some(opened) => match result_sort(scope.own, scope.result, bytes) {
            None => if is_known(scope, bytes) {
                Err(TextFault::WrongType(at))
            } else {
                Err(TextFault::UnknownName(at))
            },
            Some(sort) => {
                let (e, rest) = expr(alloc, scope, opened, EXPRESSIONS)?;
                let e = sorted(sort, e, start_of(opened))?;
                Ok((Stmt::SetResult(e), rest))
            }
        },
    }
}

/// What stands behind a name.
#[tactic(auto, unfolding(crate::specs::StatementReading::assigned_in))]
fn assigned<'t>(
    alloc: Global,
    scope: &BodyScope,
    bytes: &[u8],
    at: usize,
    tokens: &'t [Token],
) -> TextRead<'t, Stmt>
    ensures { Gives statement_read result (assigned_in (names_of scope.now) scope.now.most bytes.now
        (lexemes tokens.now) (symbol_at OpenBracket (lexemes tokens.now))) }
{
    match after(tokens, Symbol::OpenBracket) {
        None => {
            let (s, rest) = replied(alloc, scope, bytes, at, tokens)?;
            Ok((s, rest))
        }
        Some(opened) => {
            let (s, rest) = element(alloc, scope, bytes, at, start_of(tokens), opened)?;
            Ok((s, rest))
        }
    }
}

/// What stands behind `append`.
#[tactic(auto, unfolding(crate::specs::StatementReading::append_in))]
fn append<'t>(alloc: Global, scope: &BodyScope, tokens: &'t [Token]) -> TextRead<'t, Stmt>
    ensures { Gives statement_read result (append_in (names_of scope.now) scope.now.most (lexemes tokens.now)) }
{
    let (part, kind, rest) = part(scope, tokens, EXPRESSIONS)?;
    let sort = queue(kind, start_of_second(tokens))?;
    let opened = behind(rest, Symbol::Comma)?;
    let (e, rest) = nested(alloc, scope, start_of(tokens), opened, EXPRESSIONS)?;
    let e = sorted(sort, e, start_of(opened))?;
    let rest = behind(rest, Symbol::CloseParen)?;
    Ok((Stmt::Append(PartId::new(part), e), rest))
}

/// What stands behind `take`.
#[tactic(auto, unfolding(crate::specs::StatementReading::take_in))]
fn take<'t>(scope: &BodyScope, tokens: &'t [Token]) -> TextRead<'t, Stmt>
    ensures { Gives statement_read result (take_in (names_of scope.now) (lexemes tokens.now)) }
{
    let (part, kind, rest) = part(scope, tokens, EXPRESSIONS)?;
    let _sort = queue(kind, start_of_second(tokens))?;
    let rest = behind(rest, Symbol::CloseParen)?;
    Ok((Stmt::Take(PartId::new(part)), rest))
}

/// What stands behind `store`.
#[tactic(auto, unfolding(crate::specs::StatementReading::store_in))]
fn store<'t>(alloc: Global, scope: &BodyScope, tokens: &'t [Token]) -> TextRead<'t, Stmt>
    ensures { Gives statement_read result (store_in (names_of scope.now) scope.now.most (lexemes tokens.now)) }
{
    let (part, kind, rest) = part(scope, tokens, EXPRESSIONS)?;
    let sort = table(kind, start_of_second(tokens))?;
    let opened = behind(rest, Symbol::Comma)?;
    let (key, rest) = nested(alloc, scope, start_of(tokens), opened, EXPRESSIONS)?;
    let key = text(key, start_of(opened))?;
    let second = behind(rest, Symbol::Comma)?;
    let (e, rest) = nested(alloc, scope, start_of(tokens), second, EXPRESSIONS)?;
    let e = sorted(sort, e, start_of(second))?;
    let rest = behind(rest, Symbol::CloseParen)?;
    Ok((Stmt::Store(PartId::new(part), key, e), rest))
}

/// What stands behind `erase`.
#[tactic(auto, unfolding(crate::specs::StatementReading::erase_in))]
fn erase<'t>(alloc: Global, scope: &BodyScope, tokens: &'t [Token]) -> TextRead<'t, Stmt>
    ensures { Gives statement_read result (erase_in (names_of scope.now) scope.now.most (lexemes tokens.now)) }
{
    let (part, kind, rest) = part(scope, tokens, EXPRESSIONS)?;
    let _sort = table(kind, start_of_second(tokens))?;
    let opened = behind(rest, Symbol::Comma)?;
    let (key, rest) = nested(alloc, scope, start_of(tokens), opened, EXPRESSIONS)?;
    let key = text(key, start_of(opened))?;
    let rest = behind(rest, Symbol::CloseParen)?;
    Ok((Stmt::Erase(PartId::new(part), key), rest))
}

/// A string that has to stand here, and the tokens behind it.
fn string<'t>(tokens: &'t [Token]) -> Result<(&'t [u8], &'t [Token]), TextFault>
    ensures { Gives string_read result (string_at (lexemes tokens.now)) }
{
    match tokens {
        [] => Err(TextFault::Syntax(0)),
        [token, rest @ ..] => match &token.kind {
            TokenKind::Text(content) => Ok((content, rest)),
            TokenKind::Symbol(_) => Err(TextFault::Syntax(token.start)),
            TokenKind::Number(_) => Err(TextFault::Syntax(token.start)),
            TokenKind::Name(_) => Err(TextFault::Syntax(token.start)),
            TokenKind::EndMark => Err(TextFault::Syntax(token.start)),
        },
    }
}

/// The content of a string as a word by which a body refuses.
#[tactic(auto, using(crate::proofs::Refusals::word_some, crate::proofs::Refusals::word_none))]
fn word(alloc: Global, bytes: &[u8], at: usize) -> Result<RefusalWord, TextFault>
    ensures { Gives (λ w. w) result (word_of_refusal bytes.now) }
{
    match RefusalWord::read(alloc, bytes)? {
        None => Err(TextFault::Syntax(at)),
        Some(word) => Ok(word),
    }
}

/// What stands behind `refuse`.
#[tactic(auto, unfolding(crate::specs::StatementReading::refuse_in))]
fn refuse<'t>(alloc: Global, tokens: &'t [Token]) -> TextRead<'t, Stmt>
    ensures { Gives statement_read result (refuse_in (lexemes tokens.now)) }
{
    let opened = behind(tokens, Symbol::OpenParen)?;
    let (content, rest) = string(opened)?;
    let word = word(alloc, content, start_of(opened))?;
    let rest = behind(rest, Symbol::CloseParen)?;
    Ok((Stmt::Refuse(word), rest))
}

/// A statement inside `begin` or `if`.
#[cycle(statements)]
#[tactic(auto, using(crate::proofs::StatementSteps::inner_step))]
fn inner<'t>(
    alloc: Global,
    scope: &BodyScope,
    at: usize,
    tokens: &'t [Token],
    depth: u8,
) -> TextRead<'t, Stmt>
    ensures { Gives statement_read result (inner_in scope.now depth (lexemes tokens.now)) }
{
    if depth == 0 {
        return Err(TextFault::TooMany(at));
    }
    statement(alloc, scope, tokens, depth - 1)
}

/// What stands behind the statement of `then`: `else` and another, or nothing.
#[cycle(statements)]
#[tactic(auto, unfolding(crate::specs::StatementReading::other_in))]
fn other<'t>(
    alloc: Global,
    scope: &BodyScope,
    at: usize,
    tokens: &'t [Token],
    depth: u8,
) -> TextRead<'t, Stmt>
    ensures { Gives statement_read result (other_in (inner_in scope.now depth) (lexemes tokens.now)
        (symbol_at Else (lexemes tokens.now))) }
{
    match after(tokens, Symbol::Else) {
        None => Ok((empty(alloc), tokens)),
        Some(opened) => {
            let (s, rest) = inner(alloc, scope, at, opened, depth)?;
            Ok((s, rest))
        }
    }
}

/// One statement or the other, by a condition.
fn choice_of(alloc: Global, c: Cond, s: Stmt, t: Stmt) -> Result<Stmt, TextFault>
    ensures { Gives statement_of result (Some (choose (condition_of c) (statement_of s) (statement_of t))) }
{
    let s = Box::new(alloc, s)?;
    let t = Box::new(alloc, t)?;
    Ok(Stmt::If(c, s, t))
}

/// What stands behind `if`.
#[cycle(statements)]
#[tactic(auto, unfolding(crate::specs::StatementReading::if_in))]
fn choice<'t>(
    alloc: Global,
    scope: &BodyScope,
    at: usize,
    tokens: &'t [Token],
    depth: u8,
) -> TextRead<'t, Stmt>
    ensures { Gives statement_read result (if_in (names_of scope.now) scope.now.most (inner_in scope.now depth) depth
        (lexemes tokens.now)) }
{
    let _left = level(depth, at)?;
    let (c, rest) = condition(alloc, scope, tokens, EXPRESSIONS)?;
    let opened = behind(rest, Symbol::Then)?;
    let (s, rest) = inner(alloc, scope, at, opened, depth)?;
    let (t, rest) = other(alloc, scope, at, rest, depth)?;
    let chosen = choice_of(alloc, c, s, t)?;
    Ok((chosen, rest))
}

/// Statements up to `end`, each of which may open so many levels less one.
#[cycle(statements)]
fn statements<'t>(
    alloc: Global,
    scope: &BodyScope,
    at: usize,
    tokens: &'t [Token],
    depth: u8,
) -> TextRead<'t, Vec<Stmt>>
    ensures { Gives statements_read result (statements_at (inner_in scope.now depth) scope.now.most nothing
        (lexemes tokens.now)) }
{
    let mut done = Vec::new(alloc);
    let mut rest = tokens;
    for _ in 0..scope.most {
        let (s, behind_one) = inner(alloc, scope, at, rest, depth)?;
        done.push(s)?;
        match after(behind_one, Symbol::Semicolon) {
            None => {
                let rest = behind(behind_one, Symbol::End)?;
                return Ok((done, rest));
            }
            Some(others) => {
                rest = others;
            }
        }
    }
    Err(TextFault::Syntax(start_of(rest)))
}

/// What stands behind `begin`.
#[cycle(statements)]
#[tactic(auto, unfolding(crate::specs::StatementReading::block_in))]
fn block<'t>(
    alloc: Global,
    scope: &BodyScope,
    at: usize,
    tokens: &'t [Token],
    depth: u8,
) -> TextRead<'t, Stmt>
    ensures { Gives statement_read result (block_in (inner_in scope.now depth) scope.now.most depth
        (lexemes tokens.now)) }
{
    let _left = level(depth, at)?;
    let (all, rest) = statements(alloc, scope, at, tokens, depth)?;
    Ok((block_of(all), rest))
}

/// What begins with a symbol.
#[cycle(statements)]
#[tactic(auto, unfolding(crate::specs::StatementReading::statement_by_symbol))]
fn by_symbol<'t>(
    alloc: Global,
    scope: &BodyScope,
    all: &'t [Token],
    symbol: Symbol,
    tokens: &'t [Token],
    depth: u8,
) -> TextRead<'t, Stmt>
    ensures { Gives statement_read result (statement_by_symbol (names_of scope.now) scope.now.most
        (inner_in scope.now depth) depth (lexemes all.now) symbol (lexemes tokens.now)) }
{
    if is_same_symbol(symbol, Symbol::Begin) {
        block(alloc, scope, start_of(all), tokens, depth)
    } else if is_same_symbol(symbol, Symbol::If) {
        choice(alloc, scope, start_of(all), tokens, depth)
    } else if is_same_symbol(symbol, Symbol::Append) {
        append(alloc, scope, tokens)
    } else if is_same_symbol(symbol, Symbol::Take) {
        take(scope, tokens)
    } else if is_same_symbol(symbol, Symbol::Store) {
        store(alloc, scope, tokens)
    } else if is_same_symbol(symbol, Symbol::Erase) {
        erase(alloc, scope, tokens)
    } else if is_same_symbol(symbol, Symbol::Refuse) {
        refuse(alloc, tokens)
    } else {
        Ok((empty(alloc), all))
    }
}

/// A statement.
#[cycle(statements)]
#[tactic(auto, unfolding(crate::specs::StatementReading::statement_in))]
fn statement<'t>(
    alloc: Global,
    scope: &BodyScope,
    tokens: &'t [Token],
    depth: u8,
) -> TextRead<'t, Stmt>
    ensures { Gives statement_read result (statement_by scope.now depth (lexemes tokens.now)) }
{
    match tokens {
        [] => Ok((empty(alloc), tokens)),
        [token, rest @ ..] => match &token.kind {
            TokenKind::Name(name) => assigned(alloc, scope, name.as_bytes(), token.start, rest),
            TokenKind::Symbol(s) => by_symbol(alloc, scope, tokens, *s, rest, depth),
            TokenKind::Number(_) => Ok((empty(alloc), tokens)),
            TokenKind::Text(_) => Ok((empty(alloc), tokens)),
            TokenKind::EndMark => Ok((empty(alloc), tokens)),
        },
    }
}

/// The statements of a body behind its `begin`, up to and with its `end`.
///
/// The fault told is the first from left to right: `Syntax` at a token that the grammar does not have
/// there; `UnknownName` at a name; `WrongType` at a name or at the first token of an expression of the
/// wrong kind; `TooMany` at the token that opens a level too many; `Memory` where room was refused.
#[tactic(auto, unfolding(crate::specs::StatementReading::body_in))]
pub fn body<'t>(alloc: Global, scope: &BodyScope, tokens: &'t [Token]) -> TextRead<'t, Vec<Stmt>>
    ensures { Gives statements_read result (body_in (names_of scope.now) scope.now.most (lexemes tokens.now)) }
{
    let (all, rest) = statements(alloc, scope, start_of(tokens), tokens, STATEMENTS)?;
    Ok((all, rest))
}
