//! What the body of an operation does on the values of all parts.

ghost use Rattle.std.specs.Prelude.{◌≡◌, ◌<◌, ◌↔◌, length, map, IsTrue};
ghost use Rattle.value_core.specs.Datum.{elem_of};
ghost use Rattle.value_core.specs.Contents.{kind_of};
ghost use Rattle.decl_core.specs.declared.object.Part.{Part as APart};
ghost use Rattle.decl_core.specs.ObjectMap.{object_of};
ghost use Rattle.apply_core.specs.History.{IsReplyOn, left_by};
ghost use Rattle.apply_core.specs.Fits.{ArgumentsFit, HoldsReads};
ghost use Rattle.word_core.specs.Events.{body_at};
ghost use Rattle.live_core.specs.Hall.{IsCallOf};
ghost use Rattle.live_core.specs.Bodies.{GivesReply, FailsForMemory};

use crate::call::LiveCall;
use apply_core::fits::arguments_fit;
use apply_core::reply::{Failure, Reply};
use decl_core::object::{Object, Operation, Part};
use known_core::apply::apply_all;
use path_tree::node::OpId;
use std::alloc::{AllocError, Global};
use value_core::datum::Datum;
use value_core::value::Value;

// Whether arguments fit the operation at this place. There is one.
pub(crate) fn fits(object: &Object, operation: OpId, arguments: &[Datum]) -> bool
    requires { operation < length object.now.operations.items }
    ensures { IsTrue result ↔ (map elem_of arguments.now ≡ (body_at (object_of object.now) operation).params) }
{
    arguments_fit(&object.operations[operation as usize], arguments)
}

// Whether values are of the kinds of parts, in order.
pub(crate) fn are_of(values: &[Value], parts: &[Part]) -> bool
    ensures { IsTrue result ↔ (map kind_of values.now ≡ map (λ (p : APart). p.kind) parts.now) }
{
    match (values, parts) {
        ([], []) => true,
        ([value, values @ ..], [part, parts @ ..]) => value.kind() == part.kind
            && are_of(values, parts),
        _ => false,
    }
}

// Does the body of an operation on the values of all parts, in place. Where memory is refused the call fails, and
// nothing is changed.
fn reply_of(
    alloc: Global,
    operation: &Operation,
    arguments: &[Datum],
    parts: &mut Vec<Value>,
) -> Reply
    requires fits { ArgumentsFit operation.now arguments.now }
    requires held { HoldsReads operation.now parts.old.items }
    ensures given { GivesReply operation.now arguments.now parts.old.items result parts.new.items }
    ensures kinds { map kind_of parts.new.items ≡ map kind_of parts.old.items }
    ensures fails { FailsForMemory result }
{
    match apply_all(alloc, operation, arguments, parts) {
        Ok(reply) => reply,
        Err(AllocError) => Reply::Failed(Failure::Memory),
    }
}

// Does a call on the values of all parts, in place.
pub(crate) fn do_call(
    alloc: Global,
    object: &Object,
    call: &LiveCall,
    parts: &mut Vec<Value>,
) -> Reply
    requires call { IsCallOf (object_of object.now) call.now }
    requires held { map kind_of parts.old.items ≡ map (λ p. p.1) (object_of object.now).parts }
    ensures reply { IsReplyOn result (body_at (object_of object.now) call.now.operation) call.now.arguments
        parts.old.items }
    ensures parts { parts.new.items ≡ left_by result (body_at (object_of object.now) call.now.operation)
        call.now.arguments parts.old.items }
    ensures kinds { map kind_of parts.new.items ≡ map kind_of parts.old.items }
    ensures fails { FailsForMemory result }
{
    match object.operations.get(call.operation() as usize) {
        None => Reply::Failed(Failure::Damaged),
        Some(operation) => reply_of(alloc, operation, call.arguments(), parts),
    }
}
