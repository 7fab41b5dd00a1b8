//! Bodies of operations on whole values, in place.

ghost use Rattle.std.specs.Prelude.{◌≡◌, [], map, IfOk, OnOk, OnErr};
ghost use Rattle.value_core.specs.Contents.{kind_of};
ghost use Rattle.decl_core.specs.Bodies.{body_of};
ghost use Rattle.decl_core.specs.Meaning.{apply_body};
ghost use Rattle.apply_core.specs.Fits.{ArgumentsFit, HoldsReads};
ghost use Rattle.apply_core.specs.Replies.{ReplyTells};
ghost use Rattle.known_core.specs.Breaks.{RepliesTo};
ghost use Rattle.known_core.specs.Log.{taken_back as backs};

use crate::log::undo_all;
use crate::logged::LoggedValues;
use crate::whole::{WholeStop, evaluate_whole};
use apply_core::reply::Reply;
use decl_core::object::Operation;
use std::alloc::{AllocError, Global};
use std::mem;
use value_core::datum::Datum;
use value_core::value::Value;

/// Does the body of an operation on the values of all parts, in place: that of part p stands at place p. It
/// answers the reply, which is never `Failed`. A refused body leaves each value as it was, and so does an
/// error.
///
/// The arguments have to be as many as the parameters, each of its parameter's sort; each part that is read
/// has to be there, and to be of its kind. An error where memory was refused.
pub fn apply_all(
    alloc: Global,
    operation: &Operation,
    args: &[Datum],
    parts: &mut Vec<Value>,
) -> Result<Reply, AllocError>
    requires fits { ArgumentsFit operation.now args.now }
    requires held { HoldsReads operation.now parts.old.items }
    ensures reply { IfOk result (λ reply. ReplyTells reply (apply_body (body_of operation.now) args.now
        parts.old.items).0) }
    ensures parts { OnOk result (parts.new.items ≡ (apply_body (body_of operation.now) args.now parts.old.items).1) }
    ensures unchanged { OnErr result (parts.new.items ≡ parts.old.items) }
    ensures kinds { map kind_of parts.new.items ≡ map kind_of parts.old.items }
{
    let mut logged = logged(alloc, parts);
    let mut reply = None;
    match evaluate_whole(operation, args, &mut logged, &mut reply) {
        Ok(()) => {
            *parts = logged.values;
            Ok(Reply::Done(reply))
        }
        Err(stop) => {
            taken_back(logged, parts);
            refusal(stop)
        }
    }
}

// These values, with no change; in their place is left none.
fn logged(alloc: Global, parts: &mut Vec<Value>) -> LoggedValues
    ensures values { result.values.items ≡ parts.old.items }
    ensures none { result.log.items ≡ [] }
{
    let values = mem::replace(parts, Vec::new(alloc));
    LoggedValues {
        values,
        log: Vec::new(alloc),
    }
}

// The values once all changes are taken back.
fn taken_back(logged: LoggedValues, parts: &mut Vec<Value>)
    ensures { parts.new.items ≡ backs logged.log.items logged.values.items }
{
    let mut values = logged.values;
    undo_all(logged.log, &mut values);
    *parts = values;
}

// What is replied where a body was refused.
fn refusal(stop: WholeStop) -> Result<Reply, AllocError>
    ensures { IfOk result (λ reply. RepliesTo stop reply) }
{
    match stop {
        WholeStop::Refused(word) => Ok(Reply::Refused(word.text())),
        WholeStop::Memory => Err(AllocError),
    }
}
