//! What is called again and again.

ghost use Rattle.std.specs.Prelude.{◌≡◌, ◌≤◌, ◌||◌, IfOk, length};
ghost use Rattle.path_tree.specs.Lexeme.{lexemes};
ghost use Rattle.token_read.specs.Reader.{Gives};
ghost use Rattle.token_read.specs.Series.{series_at};
ghost use Rattle.decl_core.specs.HoldForm.{is_one_of as is_one, called_in, ending_in};
ghost use Rattle.decl_core.specs.HoldMap.{everies_of, holds_of};
ghost use Rattle.decl_core.specs.ObjectMap.{operations_of};
ghost use Rattle.decl_read.specs.Words.{begins_word as a_word_begins};
ghost use Rattle.decl_read.specs.declared.words.HoldKeyword.TheVariants.{Every as EveryWord};
ghost use Rattle.decl_read.specs.HoldReading.{seconds_of, is_bare as is_bare_in, every_in};
ghost use Rattle.decl_read.specs.HoldReading.{replies_none as replies_none_of};
ghost use Rattle.decl_read.specs.HeldViews.{everies_read};
ghost use Rattle.decl_parts.specs.DeclarationReading.{number_at};

use crate::holds::{is_one_of, operation, takes_none};
use crate::words::{HoldKeyword, begins_word, behind_word};
use decl_core::hold::{Every, Hold};
use decl_core::object::Operation;
use path_tree::node::OpId;
use path_tree::token::{Symbol, Token, TokenKind};
use std::alloc::Global;
use std::sync::Arc;
use token_read::front::{behind, start_of};
use token_read::text_fault::{TextFault, TextRead};
use value_core::kind::Elem;

/// The most seconds between two calls: a day.
const MOST_SECONDS: u32 = 86_400;

/// A number that has to stand here, and the tokens behind it.
pub(crate) fn number<'t>(tokens: &'t [Token]) -> TextRead<'t, u32>
    ensures { Gives (λ x. (x.0, lexemes x.1.now)) result (number_at (lexemes tokens.now)) }
{
    match tokens {
        [] => Err(TextFault::Syntax(0)),
        [token, rest @ ..] => match &token.kind {
            TokenKind::Number(n) => Ok((*n, rest)),
            TokenKind::Name(_) => Err(TextFault::Syntax(token.start)),
            TokenKind::Symbol(_) => Err(TextFault::Syntax(token.start)),
            TokenKind::Text(_) => Err(TextFault::Syntax(token.start)),
            TokenKind::EndMark => Err(TextFault::Syntax(token.start)),
        },
    }
}

/// So many seconds, which are 1 to 86,400.
fn allowed(n: u32, at: usize) -> Result<u32, TextFault>
    ensures { Gives (λ seconds. seconds) result (seconds_of n) }
{
    if n >= 1 && n <= MOST_SECONDS {
        Ok(n)
    } else {
        Err(TextFault::Syntax(at))
    }
}

/// Whether one of these holds is ended by an operation.
#[tactic(auto, using(crate::proofs::HoldSteps::ending_step))]
fn ends_one(holds: &[Hold], op: OpId) -> bool
    ensures { result ≡ is_one (ending_in (holds_of holds.now)) op }
{
    match holds {
        [] => false,
        [hold, rest @ ..] => is_one_of(&hold.until, op) || ends_one(rest, op),
    }
}

/// Whether one of these calls an operation.
fn is_called(everies: &[Every], op: OpId) -> bool
    ensures { result ≡ is_one (called_in (everies_of everies.now)) op }
{
    match everies {
        [] => false,
        [every, rest @ ..] => every.op == op || is_called(rest, op),
    }
}

/// Whether nothing is replied.
fn replies_none(reply: Option<Elem>) -> bool
    ensures { result ≡ replies_none_of reply }
{
    match reply {
        None => true,
        Some(_) => false,
    }
}

/// Whether an operation is a procedure that takes nothing.
fn is_bare(operations: &[Arc<Operation>], op: OpId) -> bool
    ensures { result ≡ is_bare_in (operations_of operations.now) op }
{
    match operations.get(usize::from(op)) {
        None => false,
        Some(operation) => takes_none(&operation.params) && replies_none(operation.result),
    }
}

/// What is called again and again, behind what was before.
#[tactic(auto, unfolding(crate::specs::HoldReading::every_in))]
fn every<'t>(
    operations: &[Arc<Operation>],
    holds: &[Hold],
    before: Vec<Every>,
    tokens: &'t [Token],
) -> TextRead<'t, Vec<Every>>
    requires few { length operations.now ≤ 32 }
    ensures { Gives everies_read result (every_in (operations_of operations.now) (holds_of holds.now)
        (everies_of before.items) (lexemes tokens.now)) }
{
    let mut all = before;
    let opened = behind_word(tokens, HoldKeyword::Every)?;
    let (n, rest) = number(opened)?;
    let seconds = allowed(n, start_of(opened))?;
    let named = behind_word(rest, HoldKeyword::Call)?;
    let (op, rest) = operation(operations, named)?;
    if ends_one(holds, op) || is_called(&all, op) {
        return Err(TextFault::DuplicateName(start_of(named)));
    }
    if !is_bare(operations, op) {
        return Err(TextFault::WrongType(start_of(named)));
    }
    let rest = behind(rest, Symbol::Semicolon)?;
    all.push(Every { seconds, op })?;
    Ok((all, rest))
}

/// What stands here that is called again and again, behind what was before; so many more at most.
pub(crate) fn everies<'t>(
    operations: &[Arc<Operation>],
    holds: &[Hold],
    so_far: Vec<Every>,
    left: u8,
    tokens: &'t [Token],
) -> TextRead<'t, Vec<Every>>
    requires few { length operations.now ≤ 32 }
    ensures { Gives everies_read result (series_at (every_in (operations_of operations.now) (holds_of holds.now))
        (a_word_begins EveryWord) left (everies_of so_far.items) (lexemes tokens.now)) }
{
    if !begins_word(tokens, HoldKeyword::Every) {
        return Ok((so_far, tokens));
    }
    if left == 0 {
        return Err(TextFault::TooMany(start_of(tokens)));
    }
    let (so_far, rest) = every(operations, holds, so_far, tokens)?;
    everies(operations, holds, so_far, left - 1, rest)
}
