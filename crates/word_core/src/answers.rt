//! The lines that answer the lines of a script.
//!
//! Each function adds lines to `out`. Its error is that memory was refused; how much of them then stands in `out` is
//! not said.

ghost use Rattle.std.specs.Prelude.{◌≡◌, ◌++◌, OnOk};
ghost use Rattle.decl_core.specs.ObjectMap.{object_of, parts_of};
ghost use Rattle.word_core.specs.Answers as answers;

use crate::ending::push_finish;
use crate::line::push_line;
use crate::reply::reply_ending;
use crate::show::push_value;
use crate::word::Written;
use apply_core::need::Need;
use apply_core::reply::Reply;
use decl_core::object::{Object, Part};
use std::alloc::{AllocError, Global};
use value_core::value::Value;

/// Adds `call N`: a call was taken, under this number.
pub fn push_called(out: &mut Vec<u8>, number: u32) -> Result<(), AllocError>
    ensures { OnOk result (out.new.items ≡ out.old.items ++ answers.called_line number) }
{
    push_line(
        out,
        &[Written::Bare(b"call"), Written::Integer(u64::from(number))],
    )
}

/// Adds `no FAULT`: what was asked for was refused, by the refusal of this name.
pub fn push_refused(out: &mut Vec<u8>, fault: &str) -> Result<(), AllocError>
    ensures { OnOk result (out.new.items ≡ out.old.items ++ answers.refused_line fault.now) }
{
    push_line(
        out,
        &[Written::Bare(b"no"), Written::Bare(fault.as_bytes())],
    )
}

// The word of what a run asks of its device. A run that has ended asks for nothing.
fn need_word(need: Need) -> &'static [u8]
    ensures { result.now ≡ answers.need_word need }
{
    match need {
        Need::Read => b"read",
        Need::Create => b"create",
        Need::Append => b"append",
        Need::Seal => b"seal",
        Need::Done => b"done",
    }
}

// The word of how a step went.
fn went_word(went: bool) -> &'static [u8]
    ensures { result.now ≡ answers.went_word went }
{
    if went {
        return b"ok";
    }
    b"failed"
}

/// Adds `step N NEED ok` or `step N NEED failed`: the call made one step, the device call that was due, and it worked
/// or failed.
pub fn push_stepped(
    out: &mut Vec<u8>,
    number: u32,
    need: Need,
    went: bool,
) -> Result<(), AllocError>
    ensures { OnOk result (out.new.items ≡ out.old.items ++ answers.stepped_line number need went) }
{
    push_line(
        out,
        &[
            Written::Bare(b"step"),
            Written::Integer(u64::from(number)),
            Written::Bare(need_word(need)),
            Written::Bare(went_word(went)),
        ],
    )
}

/// Adds `steps N K`: the call made this many steps.
pub fn push_all_stepped(out: &mut Vec<u8>, number: u32, count: u64) -> Result<(), AllocError>
    ensures { OnOk result (out.new.items ≡ out.old.items ++ answers.all_stepped_line number count) }
{
    push_line(
        out,
        &[
            Written::Bare(b"steps"),
            Written::Integer(u64::from(number)),
            Written::Integer(count),
        ],
    )
}

/// Adds how the call of this number ended: `done N`, `done N VALUE`, `refused N WORD`, `failed N device`,
/// `failed N memory` or `failed N damaged`.
pub fn push_finished(out: &mut Vec<u8>, number: u32, reply: &Reply) -> Result<(), AllocError>
    ensures { OnOk result (out.new.items ≡ out.old.items ++ answers.finished_line number reply.now) }
{
    push_finish(out, u64::from(number), &reply_ending(reply))
}

/// Adds `cancel N ANSWER`.
pub fn push_cancelled(out: &mut Vec<u8>, number: u32, answer: &str) -> Result<(), AllocError>
    ensures { OnOk result (out.new.items ≡ out.old.items ++ answers.cancelled_line number answer.now) }
{
    push_line(
        out,
        &[
            Written::Bare(b"cancel"),
            Written::Integer(u64::from(number)),
            Written::Bare(answer.as_bytes()),
        ],
    )
}

/// Adds `drop sK`: the session has left.
pub fn push_dropped(out: &mut Vec<u8>, session: u32) -> Result<(), AllocError>
    ensures { OnOk result (out.new.items ≡ out.old.items ++ answers.dropped_line session) }
{
    push_line(
        out,
        &[Written::Bare(b"drop"), Written::Session(u64::from(session))],
    )
}

/// Adds `resume sK`: the session is back.
pub fn push_resumed(out: &mut Vec<u8>, session: u32) -> Result<(), AllocError>
    ensures { OnOk result (out.new.items ≡ out.old.items ++ answers.resumed_line session) }
{
    push_line(
        out,
        &[
            Written::Bare(b"resume"),
            Written::Session(u64::from(session)),
        ],
    )
}

/// Adds `repeat STATE N`: the call of this number was made before, under the same key, and this became of it.
pub fn push_kept(out: &mut Vec<u8>, state: &str, number: u32) -> Result<(), AllocError>
    ensures { OnOk result (out.new.items ≡ out.old.items ++ answers.kept_line state.now number) }
{
    push_line(
        out,
        &[
            Written::Bare(b"repeat"),
            Written::Bare(state.as_bytes()),
            Written::Integer(u64::from(number)),
        ],
    )
}

/// Adds `repeat ` and how the call of this number ended.
pub fn push_repeated(out: &mut Vec<u8>, number: u32, reply: &Reply) -> Result<(), AllocError>
    ensures { OnOk result (out.new.items ≡ out.old.items ++ answers.repeated_line number reply.now) }
{
    out.extend_from_slice(b"repeat ")?;
    push_finished(out, number, reply)?;
    Ok(())
}

/// Adds `started N`: the call of this number started.
pub fn push_started(out: &mut Vec<u8>, number: u32) -> Result<(), AllocError>
    ensures { OnOk result (out.new.items ≡ out.old.items ++ answers.started_line number) }
{
    push_line(
        out,
        &[
            Written::Bare(b"started"),
            Written::Integer(u64::from(number)),
        ],
    )
}

/// Adds `bad line K`: the line of this number, from 1, says nothing that a script may say.
pub fn push_bad_line(out: &mut Vec<u8>, line: u64) -> Result<(), AllocError>
    ensures { OnOk result (out.new.items ≡ out.old.items ++ answers.bad_line line) }
{
    push_line(
        out,
        &[
            Written::Bare(b"bad"),
            Written::Bare(b"line"),
            Written::Integer(line),
        ],
    )
}

/// Adds `NAME = VALUE` for each part of the object that has a value, in order of declaration.
pub fn push_shown(
    alloc: Global,
    out: &mut Vec<u8>,
    object: &Object,
    values: &[Value],
) -> Result<(), AllocError>
    ensures { OnOk result (out.new.items ≡ out.old.items
        ++ answers.shown_lines (object_of object.now).parts values.now) }
{
    push_parts(alloc, out, &object.parts, values)
}

fn push_parts(
    alloc: Global,
    out: &mut Vec<u8>,
    parts: &[Part],
    values: &[Value],
) -> Result<(), AllocError>
    ensures { OnOk result (out.new.items ≡ out.old.items ++ answers.shown_lines (parts_of parts.now) values.now) }
{
    match parts {
        [] => Ok(()),
        [part, parts @ ..] => match values {
            [] => Ok(()),
            [value, values @ ..] => {
                push_part(alloc, out, part.name.as_bytes(), value)?;
                push_parts(alloc, out, parts, values)
            }
        },
    }
}

fn push_part(alloc: Global, out: &mut Vec<u8>, name: &[u8], value: &Value) -> Result<(), AllocError>
    ensures { OnOk result (out.new.items ≡ out.old.items ++ answers.shown_line name.now value.now) }
{
    out.extend_from_slice(name)?;
    out.extend_from_slice(b" = ")?;
    push_value(alloc, out, value)?;
    out.push(b'\n')?;
    Ok(())
}
