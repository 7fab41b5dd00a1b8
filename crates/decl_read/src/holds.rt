//! Which calls are held until others have ended.

ghost use Rattle.std.specs.Prelude.{◌≡◌, ◌≤◌, ◌<◌, ◌||◌, ◌==◌, IfOk, IfSome, length, map};
ghost use Rattle.path_tree.specs.declared.token.Symbol.TheVariants.{Comma};
ghost use Rattle.path_tree.specs.Lexeme.{lexemes};
ghost use Rattle.path_tree.specs.Known.{place_of as place_of_name};
ghost use Rattle.token_read.specs.Reader.{Gives};
ghost use Rattle.token_read.specs.Scopes.{operation_names};
ghost use Rattle.token_read.specs.Series.{series_at};
ghost use Rattle.decl_core.specs.HoldForm.{is_one_of as is_one, named_in};
ghost use Rattle.decl_core.specs.HoldMap.{holds_of};
ghost use Rattle.decl_core.specs.HoldForm.{signature_of};
ghost use Rattle.decl_core.specs.ObjectMap.{operation_of, operations_of, params_of};
ghost use Rattle.decl_parts.specs.Declarations.{begins as begins_with};
ghost use Rattle.decl_read.specs.Holds.{is_taken as is_taken_in};
ghost use Rattle.decl_read.specs.Words.{begins_word as a_word_begins};
ghost use Rattle.decl_read.specs.declared.words.HoldKeyword.TheVariants.{Hold as HoldWord};
ghost use Rattle.decl_read.specs.HoldReading.{operation_at, may_end as may_end_in, ends_by, same_elem};
ghost use Rattle.decl_read.specs.HoldReading.{takes_held as takes_held_by, takes_none as takes_none_of};
ghost use Rattle.decl_read.specs.HoldReading.{is_one_sort as is_one_sort_of};
ghost use Rattle.decl_read.specs.HoldReading.{undo_in, next_undo_in, undos_in, loose_in, loose_by, hold_in};
ghost use Rattle.decl_read.specs.HeldViews.{holds_read, numbers_read};

use crate::words::{HoldKeyword, after_word, begins_word, behind_word};
use decl_core::hold::Hold;
use decl_core::object::{Operation, Param};
use path_tree::node::OpId;
use path_tree::token::{Symbol, Token};
use std::alloc::Global;
use std::sync::Arc;
use token_read::front::{after, behind, name, start_of};
use token_read::text_fault::{TextFault, TextRead};
use value_core::kind::Elem;

/// Whether a symbol stands in front.
fn begins(tokens: &[Token], symbol: Symbol) -> bool
    ensures { result ≡ begins_with symbol (lexemes tokens.now) }
{
    match after(tokens, symbol) {
        None => false,
        Some(_) => true,
    }
}

/// The number of the operation of this name.
fn number_of(operations: &[Arc<Operation>], text: &[u8]) -> Option<OpId>
    requires { length operations.now ≤ 32 }
    ensures value { result ≡ place_of_name (operation_names (operations_of operations.now)) text.now }
    ensures within { IfSome result (λ k. k < length operations.now) }
{
    match operations {
        [] => None,
        [operation, rest @ ..] => {
            if operation.name.as_bytes() == text {
                Some(0)
            } else {
                let place = number_of(rest, text)?;
                Some(place + 1)
            }
        }
    }
}

/// An operation that has to be named here, and the tokens behind it.
#[tactic(auto, unfolding(crate::specs::HoldReading::operation_at))]
pub(crate) fn operation<'t>(
    operations: &[Arc<Operation>],
    tokens: &'t [Token],
) -> TextRead<'t, OpId>
    requires few { length operations.now ≤ 32 }
    ensures { Gives (λ x. (x.0, lexemes x.1.now)) result (operation_at (operations_of operations.now)
        (lexemes tokens.now)) }
{
    let (name, rest) = name(tokens)?;
    match number_of(operations, name.as_bytes()) {
        Some(op) => Ok((op, rest)),
        None => Err(TextFault::UnknownName(start_of(tokens))),
    }
}

/// Whether an operation is among these.
pub(crate) fn is_one_of(ops: &[OpId], op: OpId) -> bool
    ensures { result ≡ is_one ops.now op }
{
    match ops {
        [] => false,
        [first, rest @ ..] => *first == op || is_one_of(rest, op),
    }
}

/// Whether a hold names an operation.
#[tactic(auto, using(crate::proofs::HoldSteps::named_step))]
fn is_named(holds: &[Hold], op: OpId) -> bool
    ensures { result ≡ is_one (named_in (holds_of holds.now)) op }
{
    match holds {
        [] => false,
        [hold, rest @ ..] => hold.op == op || is_one_of(&hold.until, op) || is_named(rest, op),
    }
}

/// Whether what an operation takes is what another one took, and behind that what it replied.
fn takes_held(undo: &[Param], held: &[Param], reply: Option<Elem>) -> bool
    ensures { result ≡ takes_held_by (map (λ p. p.1) (params_of undo.now)) (map (λ p. p.1) (params_of held.now)) reply }
{
    match held {
        [] => match reply {
            None => takes_none(undo),
            Some(kind) => is_one_sort(undo, kind),
        },
        [param, rest @ ..] => match undo {
            [] => false,
            [other, others @ ..] => {
                is_same_sort(other.kind, param.kind) && takes_held(others, rest, reply)
            }
        },
    }
}

/// Whether two sorts are the same.
fn is_same_sort(a: Elem, b: Elem) -> bool
    ensures { result ≡ same_elem a b }
{
    match a {
        Elem::Integer => match b {
            Elem::Integer => true,
            Elem::Text => false,
        },
        Elem::Text => match b {
            Elem::Integer => false,
            Elem::Text => true,
        },
    }
}

/// Whether these are one parameter of this sort.
fn is_one_sort(params: &[Param], kind: Elem) -> bool
    ensures { result ≡ is_one_sort_of (map (λ p. p.1) (params_of params.now)) kind }
{
    match params {
        [] => false,
        [param, rest @ ..] => match rest {
            [] => is_same_sort(param.kind, kind),
            [_, ..] => false,
        },
    }
}

/// Whether there are no parameters.
pub(crate) fn takes_none(params: &[Param]) -> bool
    ensures { result ≡ takes_none_of (map (λ p. p.1) (params_of params.now)) }
{
    match params {
        [] => true,
        [_, ..] => false,
    }
}

/// Whether what an operation takes fits for what ends a hold of another one.
fn ends(held: &Operation, undo: &Operation) -> bool
    ensures { result ≡ ends_by (signature_of (operation_of held.now)) (signature_of (operation_of undo.now)) }
{
    takes_none(&undo.params) || takes_held(&undo.params, &held.params, held.result)
}

/// Whether an operation may end a hold of another one.
fn may_end(operations: &[Arc<Operation>], op: OpId, undo: OpId) -> bool
    ensures { result ≡ may_end_in (operations_of operations.now) op undo }
{
    match operations.get(usize::from(op)) {
        None => false,
        Some(held) => match operations.get(usize::from(undo)) {
            None => false,
            Some(undone) => ends(held, undone),
        },
    }
}

/// Whether an operation stands before: in holds, as the operation of this one, or among those that end it.
fn is_taken(holds: &[Hold], op: OpId, before: &[OpId], undo: OpId) -> bool
    ensures { result ≡ is_taken_in (holds_of holds.now) op before.now undo }
{
    op == undo || is_named(holds, undo) || is_one_of(before, undo)
}

/// An operation that ends a hold, behind those before.
#[tactic(auto, unfolding(crate::specs::HoldReading::undo_in))]
fn undo<'t>(
    operations: &[Arc<Operation>],
    holds: &[Hold],
    op: OpId,
    before: Vec<OpId>,
    tokens: &'t [Token],
) -> TextRead<'t, Vec<OpId>>
    requires few { length operations.now ≤ 32 }
    ensures { Gives numbers_read result (undo_in (operations_of operations.now) (holds_of holds.now) op before.items
        (lexemes tokens.now)) }
{
    let mut all = before;
    let (undo, rest) = operation(operations, tokens)?;
    if is_taken(holds, op, &all, undo) {
        return Err(TextFault::DuplicateName(start_of(tokens)));
    }
    if !may_end(operations, op, undo) {
        return Err(TextFault::WrongType(start_of(tokens)));
    }
    all.push(undo)?;
    Ok((all, rest))
}

/// A comma and an operation that ends a hold, behind those before.
#[tactic(auto, unfolding(crate::specs::HoldReading::next_undo_in))]
fn next_undo<'t>(
    operations: &[Arc<Operation>],
    holds: &[Hold],
    op: OpId,
    before: Vec<OpId>,
    tokens: &'t [Token],
) -> TextRead<'t, Vec<OpId>>
    requires few { length operations.now ≤ 32 }
    ensures { Gives numbers_read result (next_undo_in (operations_of operations.now) (holds_of holds.now) op
        before.items (lexemes tokens.now)) }
{
    let opened = behind(tokens, Symbol::Comma)?;
    let (all, rest) = undo(operations, holds, op, before, opened)?;
    Ok((all, rest))
}

/// More operations that end a hold, behind those before.
fn more_undos<'t>(
    operations: &[Arc<Operation>],
    holds: &[Hold],
    op: OpId,
    so_far: Vec<OpId>,
    left: u8,
    tokens: &'t [Token],
) -> TextRead<'t, Vec<OpId>>
    requires few { length operations.now ≤ 32 }
    ensures { Gives numbers_read result (series_at (next_undo_in (operations_of operations.now) (holds_of holds.now) op)
        (begins_with Comma) left so_far.items (lexemes tokens.now)) }
{
    if !begins(tokens, Symbol::Comma) {
        return Ok((so_far, tokens));
    }
    if left == 0 {
        return Err(TextFault::TooMany(start_of(tokens)));
    }
    let (one, rest) = next_undo(operations, holds, op, so_far, tokens)?;
    more_undos(operations, holds, op, one, left - 1, rest)
}

/// The operations that end a hold.
#[tactic(auto, unfolding(crate::specs::HoldReading::undos_in))]
fn undos<'t>(
    alloc: Global,
    operations: &[Arc<Operation>],
    holds: &[Hold],
    op: OpId,
    tokens: &'t [Token],
) -> TextRead<'t, Vec<OpId>>
    requires few { length operations.now ≤ 32 }
    ensures { Gives numbers_read result (undos_in (operations_of operations.now) (holds_of holds.now) op
        (lexemes tokens.now)) }
{
    let (one, rest) = undo(operations, holds, op, Vec::new(alloc), tokens)?;
    let (all, rest) = more_undos(operations, holds, op, one, 32, rest)?;
    Ok((all, rest))
}

/// Whether anybody may end a hold: where `by any` stands.
#[tactic(auto, unfolding(crate::specs::HoldReading::loose_in, crate::specs::HoldReading::loose_by))]
fn loose<'t>(tokens: &'t [Token]) -> TextRead<'t, bool>
    ensures { Gives (λ x. (x.0, lexemes x.1.now)) result (loose_in (lexemes tokens.now)) }
{
    match after_word(tokens, HoldKeyword::By) {
        None => Ok((false, tokens)),
        Some(opened) => {
            let rest = behind_word(opened, HoldKeyword::Any)?;
            Ok((true, rest))
        }
    }
}

/// A hold, behind those before.
#[tactic(auto, unfolding(crate::specs::HoldReading::hold_in))]
fn hold<'t>(
    alloc: Global,
    operations: &[Arc<Operation>],
    before: Vec<Hold>,
    tokens: &'t [Token],
) -> TextRead<'t, Vec<Hold>>
    requires few { length operations.now ≤ 32 }
    ensures { Gives holds_read result (hold_in (operations_of operations.now) (holds_of before.items)
        (lexemes tokens.now)) }
{
    let mut all = before;
    let opened = behind_word(tokens, HoldKeyword::Hold)?;
    let (op, rest) = operation(operations, opened)?;
    if is_named(&all, op) {
        return Err(TextFault::DuplicateName(start_of(opened)));
    }
    let rest = behind_word(rest, HoldKeyword::Until)?;
    let (until, rest) = undos(alloc, operations, &all, op, rest)?;
    let (by_any, rest) = loose(rest)?;
    let rest = behind(rest, Symbol::Semicolon)?;
    all.push(Hold { op, until, by_any })?;
    Ok((all, rest))
}

/// The holds that stand here, behind those before; so many more at most.
pub(crate) fn holds<'t>(
    alloc: Global,
    operations: &[Arc<Operation>],
    so_far: Vec<Hold>,
    left: u8,
    tokens: &'t [Token],
) -> TextRead<'t, Vec<Hold>>
    requires few { length operations.now ≤ 32 }
    ensures { Gives holds_read result (series_at (hold_in (operations_of operations.now)) (a_word_begins HoldWord) left
        (holds_of so_far.items) (lexemes tokens.now)) }
{
    if !begins_word(tokens, HoldKeyword::Hold) {
        return Ok((so_far, tokens));
    }
    if left == 0 {
        return Err(TextFault::TooMany(start_of(tokens)));
    }
    let (so_far, rest) = hold(alloc, operations, so_far, tokens)?;
    holds(alloc, operations, so_far, left - 1, rest)
}
