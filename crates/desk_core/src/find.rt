//! What is looked up of a desk.

ghost use Rattle.std.specs.Prelude.{◌≡◌, ◌↔◌, ◌⊎◌, ◌<◌, IsTrue, IfSome, IfNone, Some, false, slice_get, ◌==◌};
ghost use Rattle.std.specs.List.{list_any};
ghost use Rattle.decl_core.specs.declared.object.Operation.{Operation as AnOperation};
ghost use Rattle.page_core.specs.Outcomes.{outcome_call, IsFresh};
ghost use Rattle.page_core.specs.Lists.{Every};
ghost use Rattle.page_core.specs.ObjectCalls.{RunningCall};
ghost use Rattle.board_core.specs.Board.{bodies};
ghost use Rattle.board_core.specs.Outcomes.{IsOf};
ghost use Rattle.board_core.specs.Answers.{HasName, IsNamedAt};

use decl_core::object::{Object, Operation};
use decl_core::same::same_declaration;
use page_core::call::Call;
use page_core::outcome::Outcome;
use queue_core::open_call::{Running, Waiting};
use value_core::datum::Datum;

// Whether an operation has this name.
fn has_name(operation: &Operation, name: &[u8]) -> bool
    ensures { IsTrue result ↔ HasName name.now operation.now }
{
    operation.name.is_spelled_by(name)
}

// The place of the first operation of this name.
pub fn place_of(object: &Object, name: &[u8]) -> Option<usize>
    ensures some { IfSome result (λ k. (operation : AnOperation) × IsNamedAt object.now k operation name.now) }
    ensures none { IfNone result (Every (λ x. HasName name.now x → ⊥) (bodies object.now)) }
{
    for place in 0..object.operations.len() {
        if has_name(&object.operations[place], name) {
            return Some(place);
        }
    }
    None
}

// Whether a call is of the operation of this name, with these arguments.
pub fn is_same_call(call: &Call, name: &[u8], args: &[Datum]) -> bool
    ensures { IsTrue result ↔ (HasName name.now call.now.operation × (call.now.arguments ≡ args.now)) }
{
    has_name(call.operation(), name) && call.args().are(args)
}

// Whether a call of this session waits.
pub fn waits_for(waiting: &[Waiting], session: u32) -> bool
    ensures { result ≡ list_any (λ w. w.call.session == session) waiting.now }
{
    waiting.iter().any(|w| w.session() == session)
}

// Whether a call of this session runs.
pub fn runs_for(running: &[Running], session: u32) -> bool
    ensures { result ≡ list_any (λ r. r.call.session == session) running.now }
{
    running.iter().any(|r| r.session() == session)
}

// Whether a call of this number waits.
pub fn waits(waiting: &[Waiting], number: u32) -> bool
    ensures { result ≡ list_any (λ w. w.number == number) waiting.now }
{
    waiting.iter().any(|w| w.number() == number)
}

// Whether a call of this number runs.
pub fn runs(running: &[Running], number: u32) -> bool
    ensures { result ≡ list_any (λ r. r.number == number) running.now }
{
    running.iter().any(|r| r.number() == number)
}

// Whether an outcome comes from this running call.
fn is_of(outcome: &Outcome, running: &Running) -> bool
    ensures { IsTrue result ↔ IsOf (outcome_call outcome.now) running.now }
{
    running.number() == outcome.number()
        && same_declaration(running.call().operation(), outcome.operation())
        && running.call().args().are(outcome.args())
        && running.pins().is_same(outcome.pins())
}

// The place of the running call from which an outcome comes.
fn place_of_call(running: &[Running], outcome: &Outcome) -> Option<usize>
    ensures some { IfSome result (λ k. (r : RunningCall) × (slice_get running.now k ≡ Some r)
        × IsOf (outcome_call outcome.now) r) }
    ensures none { IfNone result (Every (λ r. IsOf (outcome_call outcome.now) r → ⊥) running.now) }
{
    for place in 0..running.len() {
        if is_of(outcome, &running[place]) {
            return Some(place);
        }
    }
    None
}

// The place of the running call that ends with an outcome, where that was not handed in before.
pub fn place_to_end(running: &[Running], outcome: &Outcome) -> Option<usize>
    ensures some { IfSome result (λ k. IsFresh outcome.now
        × ((r : RunningCall) × (slice_get running.now k ≡ Some r) × IsOf (outcome_call outcome.now) r)) }
    ensures none { IfNone result ((IsFresh outcome.now → ⊥)
        ⊎ Every (λ r. IsOf (outcome_call outcome.now) r → ⊥) running.now) }
{
    if !outcome.is_fresh() {
        return None;
    }
    place_of_call(running, outcome)
}

// Whether a running call is of this number, and its ticket was not taken.
fn is_left(running: &Running, number: u32) -> bool
    ensures { IsTrue result ↔ ((running.now.number ≡ number) × (running.now.taken ≡ false)) }
{
    running.number() == number && !running.is_taken()
}

// The place of the running call of this number whose ticket was not taken.
pub fn place_of_left(running: &[Running], number: u32) -> Option<usize>
    ensures some { IfSome result (λ k. (r : RunningCall) × (slice_get running.now k ≡ Some r) × (r.number ≡ number)
        × (r.taken ≡ false)) }
    ensures none { IfNone result (Every (λ r. (r.number ≡ number) × (r.taken ≡ false) → ⊥) running.now) }
{
    for place in 0..running.len() {
        if is_left(&running[place], number) {
            return Some(place);
        }
    }
    None
}
