//! The answer to `who`.

ghost use Rattle.std.specs.Prelude.{◌≡◌, ◌++◌, [], decimal, flat_map, OnOk, option_map};
ghost use Rattle.decl_core.specs.ObjectMap.{object_of};
ghost use Rattle.word_core.specs.Words.{words_text, behind_word};
ghost use Rattle.stuck_core.specs.ReasonViews.{why_of, whys_of};
ghost use Rattle.stuck_core.specs.Why.{node_words};
ghost use Rattle.stuck_core.specs.Who.{who_line, seat_words, count_words, time_words, seat_line, call_words, waits_line};

use crate::reason::{Lack, Reason};
use decl_core::object::Object;
use path_tree::name::Name;
use path_tree::node::OpId;
use std::alloc::AllocError;
use word_core::event::name_of;
use word_core::line::push_line;
use word_core::print::push_integer;
use word_core::word::Written;

/// A session, for how many seconds it is there, where that is known, and how many calls it made.
#[derive(Clone, Copy, Debug, PartialEq, Eq)]
pub struct SessionRow {
    /// Its number.
    pub session: u64,
    /// The seconds.
    pub seconds: Option<u64>,
    /// Its calls.
    pub calls: u64,
}

/// A call that waits: its number, its session, its operation by the place in the object, from 0, and for how many seconds
/// it waits, where that is known.
#[derive(Clone, Copy, Debug, PartialEq, Eq)]
pub struct WaitingRow {
    /// Its number.
    pub number: u64,
    /// Its session.
    pub session: u64,
    /// Its operation.
    pub operation: OpId,
    /// The seconds.
    pub seconds: Option<u64>,
}

/// Adds `who L`: so many lines stand behind it.
pub fn push_who(out: &mut Vec<u8>, lines: u64) -> Result<(), AllocError>
    ensures { OnOk result (out.new.items ≡ out.old.items ++ who_line lines) }
{
    push_line(out, &[Written::Bare(b"who"), Written::Integer(lines)])
}

// Adds a number behind these bytes.
fn push_behind(out: &mut Vec<u8>, front: &[u8], number: u64) -> Result<(), AllocError>
    ensures { OnOk result (out.new.items ≡ out.old.items ++ (front.now ++ decimal number)) }
{
    out.extend_from_slice(front)?;
    push_integer(out, number)
}

// Adds ` for T`, where it is known.
fn push_time(out: &mut Vec<u8>, seconds: Option<u64>) -> Result<(), AllocError>
    ensures { OnOk result (out.new.items ≡ out.old.items ++ behind_word (time_words seconds)) }
{
    match seconds {
        None => Ok(()),
        Some(seconds) => push_behind(out, b" for ", seconds),
    }
}

// Adds `session sS`, and for how long it is there where that is known.
fn push_session(out: &mut Vec<u8>, seat: SessionRow) -> Result<(), AllocError>
    ensures { OnOk result (out.new.items ≡ out.old.items ++ words_text (seat_words seat)) }
{
    push_behind(out, b"session s", seat.session)?;
    push_time(out, seat.seconds)
}

// Adds ` calls C`, and the name where there is one.
fn push_count(out: &mut Vec<u8>, calls: u64, name: Option<&Name>) -> Result<(), AllocError>
    ensures { OnOk result (out.new.items ≡ out.old.items
        ++ behind_word (count_words calls (option_map (λ n. n.now) name.entry))) }
{
    push_behind(out, b" calls ", calls)?;
    match name {
        None => Ok(()),
        Some(name) => {
            out.extend_from_slice(b" name ")?;
            out.extend_from_slice(name.as_bytes())
        }
    }
}

/// Adds the line of a session, which has a name or none.
pub fn push_seat(out: &mut Vec<u8>, seat: SessionRow, name: Option<&Name>) -> Result<(), AllocError>
    ensures { OnOk result (out.new.items ≡ out.old.items ++ seat_line seat (option_map (λ n. n.now) name.entry)) }
{
    push_session(out, seat)?;
    push_count(out, seat.calls, name)?;
    out.push(b'\n')?;
    Ok(())
}

// Adds `waits N sS OP`, and for how long where that is known.
fn push_call(out: &mut Vec<u8>, object: &Object, call: WaitingRow) -> Result<(), AllocError>
    ensures { OnOk result (out.new.items ≡ out.old.items ++ words_text (call_words (object_of object.now) call)) }
{
    push_behind(out, b"waits ", call.number)?;
    push_behind(out, b" s", call.session)?;
    out.push(b' ')?;
    out.extend_from_slice(name_of(object, call.operation))?;
    push_time(out, call.seconds)
}

// Adds ` path P node K full` or ` path P node K turn J`.
fn push_node(out: &mut Vec<u8>, reason: &Reason) -> Result<(), AllocError>
    ensures { OnOk result (out.new.items ≡ out.old.items ++ behind_word (node_words (why_of reason.now) [])) }
{
    push_behind(out, b" path ", reason.path as u64)?;
    push_behind(out, b" node ", reason.node as u64)?;
    match reason.lack {
        Lack::Full => out.extend_from_slice(b" full"),
        Lack::Turn(turn) => push_behind(out, b" turn ", turn as u64),
    }
}

// Adds the line of a call that waits, and of a node that refuses it.
fn push_wait(
    out: &mut Vec<u8>,
    object: &Object,
    call: WaitingRow,
    reason: &Reason,
) -> Result<(), AllocError>
    ensures { OnOk result (out.new.items ≡ out.old.items
        ++ waits_line (object_of object.now) call (why_of reason.now)) }
{
    push_call(out, object, call)?;
    push_node(out, reason)?;
    out.push(b'\n')?;
    Ok(())
}

/// Adds the lines of a call that waits, one for each node that refuses it, in order.
pub fn push_waits(
    out: &mut Vec<u8>,
    object: &Object,
    call: WaitingRow,
    reasons: &[Reason],
) -> Result<(), AllocError>
    ensures { OnOk result (out.new.items ≡ out.old.items
        ++ flat_map (waits_line (object_of object.now) call) (whys_of reasons.now)) }
{
    match reasons {
        [] => Ok(()),
        [first, more @ ..] => {
            push_wait(out, object, call, first)?;
            push_waits(out, object, call, more)
        }
    }
}
