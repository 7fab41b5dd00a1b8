//! The holds of objects, by their tokens.

ghost use Rattle.std.specs.Prelude.{◌≡◌, ◌≤◌, length};
ghost use Rattle.path_tree.specs.Lexeme.{lexeme_of, lexemes};
ghost use Rattle.path_tree.specs.Tokens.{placed_tokens};
ghost use Rattle.decl_core.specs.ObjectMap.{object_of, objects_of, operations_of};
ghost use Rattle.token_read.specs.Reader.{Gives};
ghost use Rattle.decl_core.specs.HoldMap.{all_rules_of, rules_of};
ghost use Rattle.decl_read.specs.Holds.{ends_object as an_object_ends, is_end_mark as is_end_mark_in};
ghost use Rattle.decl_read.specs.HoldReading.{rules_in};
ghost use Rattle.decl_read.specs.Sections.{rules_at as rules_at_in};
ghost use Rattle.decl_read.specs.HeldSources.{all_rules_in, ruled_in};

use crate::everies::everies;
use crate::holds::holds;
use crate::sections::{behind_object, opens_object, rules_at};
use decl_core::hold::Rules;
use decl_core::object::{Object, Operation};
use path_tree::token::{Symbol, Token, TokenKind};
use std::alloc::Global;
use std::sync::Arc;
use token_read::front::{behind, start_of};
use token_read::text_fault::TextFault;

/// The most holds of an object.
pub const MOST_HOLDS: u8 = 16;

/// The most operations that an object calls again and again.
pub const MOST_EVERIES: u8 = 4;

// Whether a token is the end mark.
fn is_end_mark(kind: &TokenKind) -> bool
    ensures { result ≡ is_end_mark_in (lexeme_of kind.now) }
{
    match kind {
        TokenKind::EndMark => true,
        TokenKind::Symbol(_) => false,
        TokenKind::Number(_) => false,
        TokenKind::Name(_) => false,
        TokenKind::Text(_) => false,
    }
}

// Whether the word `object`, or the end of the source, stands in front.
fn ends_object(tokens: &[Token]) -> bool
    ensures { result ≡ an_object_ends (lexemes tokens.now) }
{
    match tokens {
        [] => false,
        [token, ..] => opens_object(&token.kind) || is_end_mark(&token.kind),
    }
}

/// The holds of an object of these operations, and what it calls again and again, up to its end.
#[tactic(auto, unfolding(crate::specs::HoldReading::rules_in))]
pub(crate) fn rules(
    alloc: Global,
    operations: &[Arc<Operation>],
    tokens: &[Token],
) -> Result<Rules, TextFault>
    requires few { length operations.now ≤ 32 }
    ensures { Gives rules_of result (rules_in (operations_of operations.now) (lexemes tokens.now)) }
{
    let (holds, rest) = holds(alloc, operations, Vec::new(alloc), MOST_HOLDS, tokens)?;
    let (everies, rest) = everies(operations, &holds, Vec::new(alloc), MOST_EVERIES, rest)?;
    let rest = behind(rest, Symbol::End)?;
    let rest = behind(rest, Symbol::Semicolon)?;
    if !ends_object(rest) {
        return Err(TextFault::Syntax(start_of(rest)));
    }
    Ok(Rules { holds, everies })
}

// What an object says of clients that are gone and of time; these are the tokens behind its word `object`.
#[tactic(auto, using(crate::proofs::Sources::lexemes_placed))]
fn ruled(alloc: Global, object: &Object, tokens: &[Token]) -> Result<Rules, TextFault>
    ensures { Gives rules_of result (ruled_in (object_of object.now) (rules_at_in (placed_tokens tokens.now))) }
{
    match rules_at(tokens) {
        None => Ok(Rules {
            holds: Vec::new(alloc),
            everies: Vec::new(alloc),
        }),
        Some(own) => {
            let all = rules(alloc, &object.operations, own)?;
            Ok(all)
        }
    }
}

/// What each of these objects says of them, behind what those before said.
#[tactic(auto, unfolding(crate::specs::HeldSources::all_rules_in))]
pub(crate) fn all_rules(
    alloc: Global,
    so_far: Vec<Rules>,
    objects: &[Object],
    tokens: &[Token],
) -> Result<Vec<Rules>, TextFault>
    ensures { Gives (λ v. all_rules_of v.items) result (all_rules_in (all_rules_of so_far.items) (objects_of objects.now)
        (placed_tokens tokens.now)) }
{
    match objects {
        [] => match behind_object(tokens) {
            None => Ok(so_far),
            Some(own) => Err(TextFault::Syntax(start_of(own))),
        },
        [object, others @ ..] => match behind_object(tokens) {
            None => Err(TextFault::Syntax(start_of(tokens))),
            Some(own) => {
                let mut all = so_far;
                let one = ruled(alloc, object, own)?;
                all.push(one)?;
                let all = all_rules(alloc, all, others, own)?;
                Ok(all)
            }
        },
    }
}
