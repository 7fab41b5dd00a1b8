//! The lines of a desk's trace.

ghost use Rattle.std.specs.Prelude.{◌≡◌, ◌++◌, OnOk, IfSome, IfNone, Some, None, map, length};
ghost use Rattle.std.specs.Arc.{arc_value};
ghost use Rattle.decl_core.specs.ObjectMap.{object_of};
ghost use Rattle.page_core.specs.Lists.{Every};
ghost use Rattle.board_core.specs.Board.{call_at};
ghost use Rattle.word_core.specs.Words.{line_of};
ghost use Rattle.word_core.specs.Text.{event_words, lines_of};
ghost use Rattle.desk_core.specs.Kept.{IsMarkIn, events_of, event_of as event_told};
ghost use Rattle.desk_core.specs.Told.{line_told};

use crate::marks::{Mark, event_of};
use board_core::event::TraceEvent;
use decl_core::object::Object;
use page_core::call::Call;
use page_core::entry::Entry;
use std::alloc::{AllocError, Global};
use std::sync::Arc;
use word_core::event::{push_end, push_start};

// The call of this number.
pub(crate) fn call_of(calls: &[Arc<Call>], number: u32) -> Option<&Call>
    ensures some { IfSome result (λ x. call_at (map (λ c. arc_value c) calls.now) number ≡ Some x.now) }
    ensures none { IfNone result (call_at (map (λ c. arc_value c) calls.now) number ≡ None) }
{
    if number == 0 || number as usize > calls.len() {
        return None;
    }
    Some(&calls[number as usize - 1])
}

// Adds the line of an event.
fn push_event(
    alloc: Global,
    out: &mut Vec<u8>,
    object: &Object,
    calls: &[Arc<Call>],
    event: &TraceEvent,
) -> Result<(), AllocError>
    ensures { OnOk result (out.new.items ≡ out.old.items
        ++ line_of (event_words (object_of object.now) (line_told (map (λ c. arc_value c) calls.now) event.now))) }
{
    match event {
        TraceEvent::Start(number) => match call_of(calls, *number) {
            Some(call) => {
                let args = call.args().list(alloc)?;
                push_start(out, object, *number, call.session(), call.op(), &args)
            }
            None => push_start(out, object, *number, 0, 0, &[]),
        },
        TraceEvent::End(number, reply) => push_end(out, *number, reply),
    }
}

// Adds a line for each mark.
pub(crate) fn push_marks(
    alloc: Global,
    out: &mut Vec<u8>,
    object: &Object,
    calls: &[Arc<Call>],
    history: &[Entry],
    marks: &[Mark],
) -> Result<(), AllocError>
    requires { Every (IsMarkIn (length history.now)) marks.now }
    ensures { OnOk result (out.new.items ≡ out.old.items
        ++ lines_of (map (event_words (object_of object.now)) (map (line_told (map (λ c. arc_value c) calls.now))
        (events_of history.now marks.now)))) }
{
    for mark in marks {
        let event = event_of(history, *mark);
        push_event(alloc, out, object, calls, &event)?;
    }
    Ok(())
}
