//! The lines of what happened to calls.

ghost use Rattle.std.specs.Prelude.{◌≡◌, ◌++◌, OnOk};
ghost use Rattle.decl_core.specs.ObjectMap.{object_of};
ghost use Rattle.word_core.specs.Words.{line_of};
ghost use Rattle.word_core.specs.Text.{operation_name, start_words, end_words};

use crate::line::{push_data_line, push_words};
use crate::reply::push_reply;
use crate::word::Written;
use apply_core::reply::Reply;
use decl_core::object::Object;
use path_tree::node::OpId;
use std::alloc::AllocError;
use value_core::datum::Datum;

/// Adds the line of a call that started: `start N sK OP ARG ..`, with its number, its session, the operation at
/// this place of the object, from 0, and its arguments in order. Where the object has no operation
/// there, no name stands.
///
/// The error is that memory was refused; how much of the line then stands in `out` is not said.
pub fn push_start(
    out: &mut Vec<u8>,
    object: &Object,
    number: u32,
    session: u32,
    operation: OpId,
    arguments: &[Datum],
) -> Result<(), AllocError>
    ensures { OnOk result (out.new.items ≡ out.old.items ++ line_of (start_words (object_of object.now)
        (record { number = number; session = session; operation = operation; arguments = arguments.now }))) }
{
    push_data_line(
        out,
        &[
            Written::Bare(b"start"),
            Written::Integer(u64::from(number)),
            Written::Session(u64::from(session)),
            Written::Bare(name_of(object, operation)),
        ],
        arguments,
    )
}

/// The name of the operation at a place of the object; no bytes where there is none.
pub fn name_of(object: &Object, operation: OpId) -> &[u8]
    ensures { result.now ≡ operation_name (object_of object.now) operation }
{
    match object.operations.get(operation as usize) {
        Some(found) => found.name.as_bytes(),
        None => &[],
    }
}

/// Adds the line of a call that ended: `end N`, with its number, and its reply.
///
/// The error is that memory was refused; how much of the line then stands in `out` is not said.
pub fn push_end(out: &mut Vec<u8>, number: u32, reply: &Reply) -> Result<(), AllocError>
    ensures { OnOk result (out.new.items ≡ out.old.items ++ line_of (end_words number reply.now)) }
{
    push_words(
        out,
        &[Written::Bare(b"end"), Written::Integer(u64::from(number))],
    )?;
    push_reply(out, reply)?;
    out.push(b'\n')?;
    Ok(())
}
