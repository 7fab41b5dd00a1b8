//! The sequential object's reply to an end.

ghost use Rattle.std.specs.Prelude.{◌≡◌, ◌↔◌, ℕ, IsTrue, IfOk, Some};
ghost use Rattle.value_core.specs.Contents.{kind_of};
ghost use Rattle.decl_core.specs.ObjectMap.{object_of};
ghost use Rattle.apply_core.specs.Fits.{HoldsReads};
ghost use Rattle.apply_core.specs.Held.{HoldsItsKind};
ghost use Rattle.audit_core.specs.Replies.{Tries, IsDoneSo, IsAnswer};
ghost use Rattle.audit_core.specs.View.{told_view};

use crate::calls::ActiveCall;
use crate::told::ToldReply;
use apply_core::fits::{arguments_fit, parts_fit};
use decl_core::object::{Object, Operation};
use known_core::apply::apply_all;
use std::alloc::{AllocError, Global};
use value_core::datum::Datum;
use value_core::kind::Kind;
use value_core::value::Value;

/// Whether a reply is the sequential object's; the parts are those after it then. A failure is right,
/// and changes nothing.
pub fn is_right(
    alloc: Global,
    object: &Object,
    running: &ActiveCall,
    told: &ToldReply,
    parts: &mut Vec<Value>,
) -> Result<bool, AllocError>
    ensures { IfOk result (Tries (object_of object.now) running.now (told_view told.now) parts.old.items
        parts.new.items) }
{
    if told.is_failure() {
        return Ok(true);
    }
    is_given(alloc, object, running, told, parts)
}

// Whether a reply that is no failure is the sequential object's; the parts are those after it then.
fn is_given(
    alloc: Global,
    object: &Object,
    running: &ActiveCall,
    told: &ToldReply,
    parts: &mut Vec<Value>,
) -> Result<bool, AllocError>
    requires { IsAnswer (told_view told.now) }
    ensures { IfOk result (Tries (object_of object.now) running.now (told_view told.now) parts.old.items
        parts.new.items) }
{
    match object.operations.get(running.operation as usize) {
        None => Ok(false),
        Some(operation) => is_done_so(alloc, operation, &running.arguments, told, parts),
    }
}

// Whether a value is of a kind, or the kind is not known.
fn is_of(value: &Value, kind: Option<Kind>) -> bool
    ensures { IsTrue result ↔ ((k : Kind) → kind ≡ Some k → kind_of value.now ≡ k) }
{
    match kind {
        Some(kind) => value.kind() == kind,
        None => true,
    }
}

// Whether there are as many parts as kinds, and each of these that is known is that of its part.
#[tactic(auto, using(crate::proofs::Held::none_held, crate::proofs::Held::more_held))]
fn are_held(kinds: &[Option<Kind>], parts: &[Value]) -> bool
    ensures { IsTrue result → (p : ℕ) → HoldsItsKind parts.now kinds.now p }
{
    match (kinds, parts) {
        ([], _) => true,
        ([kind, kinds @ ..], [part, parts @ ..]) => is_of(part, *kind) && are_held(kinds, parts),
        _ => false,
    }
}

// Whether each part that the operation reads has a value of its kind. Mostly each part that it names has one, which is
// seen without a look at its body.
#[tactic(auto, using(crate::proofs::Held::reads_held))]
fn all_fit(operation: &Operation, parts: &[Value]) -> bool
    ensures { IsTrue result ↔ HoldsReads operation.now parts.now }
{
    if are_held(&operation.kinds, parts) {
        return true;
    }
    parts_fit(operation, parts)
}

// Does the body of an operation on these parts, where the arguments and the parts fit it, and tells
// whether that is replied.
fn is_done_so(
    alloc: Global,
    operation: &Operation,
    arguments: &[Datum],
    told: &ToldReply,
    parts: &mut Vec<Value>,
) -> Result<bool, AllocError>
    ensures { IfOk result (IsDoneSo operation.now arguments.now (told_view told.now) parts.old.items parts.new.items) }
{
    if !arguments_fit(operation, arguments) {
        return Ok(false);
    }
    if !all_fit(operation, parts) {
        return Ok(false);
    }
    match apply_all(alloc, operation, arguments, parts) {
        Ok(given) => Ok(told.is_same(&given)),
        Err(refused) => Err(refused),
    }
}
