//! The lines of calls that ran.

ghost use Rattle.std.specs.Prelude.{◌≡◌, ◌++◌, OnOk};
ghost use Rattle.decl_core.specs.ObjectMap.{object_of};
ghost use Rattle.live_core.specs.Lines.{ran_lines, all_lines};

use crate::call::Ran;
use decl_core::object::Object;
use std::alloc::AllocError;
use word_core::event::{push_end, push_start};

/// Adds the two lines of a call that ran. The error is that memory was refused; how much then stands in `out` is not
/// said.
pub fn push_ran(out: &mut Vec<u8>, object: &Object, ran: &Ran) -> Result<(), AllocError>
    ensures { OnOk result (out.new.items ≡ out.old.items ++ ran_lines (object_of object.now) ran.now) }
{
    let call = &ran.call;
    push_start(
        out,
        object,
        call.number(),
        call.session(),
        call.operation(),
        call.arguments(),
    )?;
    push_end(out, call.number(), &ran.reply)
}

/// Adds the lines of calls that ran, in order. The error is that memory was refused; how much then stands in `out` is
/// not said.
pub fn push_all(out: &mut Vec<u8>, object: &Object, all: &[Ran]) -> Result<(), AllocError>
    ensures { OnOk result (out.new.items ≡ out.old.items ++ all_lines (object_of object.now) all.now) }
{
    match all.split_first() {
        None => Ok(()),
        Some((ran, rest)) => {
            push_ran(out, object, ran)?;
            push_all(out, object, rest)
        }
    }
}
