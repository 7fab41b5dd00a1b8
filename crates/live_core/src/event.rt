//! The lines of a journal that are no start and no end.

ghost use Rattle.std.specs.Prelude.{◌≡◌, ◌++◌, OnOk};
ghost use Rattle.decl_core.specs.ObjectMap.{object_of};
ghost use Rattle.word_core.specs.Words.{line_of};
ghost use Rattle.live_core.specs.HostedLines.{cancel_words, name_words};

use crate::call::LiveCall;
use decl_core::object::Object;
use path_tree::name::Name;
use std::alloc::AllocError;
use word_core::event::name_of;
use word_core::line::{push_data_line, push_line};
use word_core::word::Written;

/// Adds `cancel N sK OP ARG ..`: a call that waited was cancelled. The error is that memory was refused; how much of
/// the line then stands in `out` is not said.
pub fn push_cancelled(out: &mut Vec<u8>, object: &Object, call: &LiveCall) -> Result<(), AllocError>
    ensures { OnOk result (out.new.items ≡ out.old.items ++ line_of (cancel_words (object_of object.now) call.now)) }
{
    push_data_line(
        out,
        &[
            Written::Bare(b"cancel"),
            Written::Integer(u64::from(call.number())),
            Written::Session(u64::from(call.session())),
            Written::Bare(name_of(object, call.operation())),
        ],
        call.arguments(),
    )
}

/// Adds `name sK CLIENT`: a session got a name. The error is that memory was refused; how much of the line then stands
/// in `out` is not said.
pub fn push_name(out: &mut Vec<u8>, session: u16, name: &Name) -> Result<(), AllocError>
    ensures { OnOk result (out.new.items ≡ out.old.items ++ line_of (name_words session name.now)) }
{
    push_line(
        out,
        &[
            Written::Bare(b"name"),
            Written::Session(u64::from(session)),
            Written::Bare(name.as_bytes()),
        ],
    )
}
