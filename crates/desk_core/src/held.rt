//! What a program holds of a desk: names, and data.
//!
//! A name in memory is a name, and an integer or a text is one: no value of these types is another. A contract sees
//! names as bytes, and data as numbers and bytes, so what they are is said here, once, of all that a desk has. The
//! functions are called for their contracts alone: they change nothing, and tell nothing.

ghost use Rattle.std.specs.Prelude.{◌≡◌, All, Some, slice_get};
ghost use Rattle.value_core.specs.declared.datum.Datum.{Datum as ADatum};
ghost use Rattle.value_core.specs.Datum.{IsDatum};
ghost use Rattle.apply_core.specs.Fits.{ArgumentsFit};
ghost use Rattle.page_core.specs.Lists.{Every};
ghost use Rattle.page_core.specs.ObjectCalls.{AcceptedCall};
ghost use Rattle.board_core.specs.Board.{call_at};
ghost use Rattle.board_core.specs.Sound.{IsSound};
ghost use Rattle.desk_core.specs.Held.{TellsDatum, CanBeTold};

use crate::desk::Desk;
use apply_core::reply::Reply;
use apply_core::slim::Slims;
use page_core::call::Call;
use page_core::entry::Entry;
use word_core::names::object_has_names;

// What was replied is a datum, where it is one that a function replied.
fn reply_is_datum(reply: &Reply)
    ensures { TellsDatum reply.now }
{
    if let Reply::Done(Some(datum)) = reply {
        datum.elem();
    }
}

// Each reply is.
fn replies_are_data(entries: &[Entry])
    ensures { Every (λ e. TellsDatum e.reply) entries.now }
{
    for place in 0..entries.len() {
        reply_is_datum(&entries[place].reply());
    }
}

// The argument at a place is a datum, where there is one.
fn argument_is_datum(arguments: &Slims, place: usize)
    ensures { (d : ADatum) → slice_get arguments.now place ≡ Some d → IsDatum d }
{
    if let Some(datum) = arguments.get(place) {
        datum.elem();
    }
}

// The arguments of a call are data: there is one for each parameter.
fn arguments_are_data(call: &Call)
    requires { ArgumentsFit call.now.operation call.now.arguments }
    ensures { All IsDatum call.now.arguments }
{
    for place in 0..call.operation().params.len() {
        argument_is_datum(call.args(), place);
    }
}

// So are those of the call of a number, where there is one.
fn call_has_data(desk: &Desk, number: u32)
    requires { IsSound desk.now }
    ensures { (c : AcceptedCall) → call_at desk.now.calls number ≡ Some c → All IsDatum c.arguments }
{
    if let Some(call) = desk.call(number) {
        arguments_are_data(call);
    }
}

// So are those of each call: no desk has more of them than these.
fn calls_have_data(desk: &Desk)
    ensures { Every (λ c. All IsDatum c.arguments) desk.now.calls }
{
    // The board is sound.
    desk.history();
    for place in 0..65536 {
        call_has_data(desk, place + 1);
    }
}

/// Lines can tell of each desk that a program holds.
pub fn desk_can_be_told(desk: &Desk)
    ensures { CanBeTold desk.now }
{
    object_has_names(desk.accepted().object());
    calls_have_data(desk);
    replies_are_data(desk.history());
}
