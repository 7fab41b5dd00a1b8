//! The counters of a desk, counted again.

ghost use Rattle.std.specs.Prelude.{◌≡◌, ◌+◌, ◌<◌, [], length, IfOk};
ghost use Rattle.path_count.specs.Stands.{StandsFor};
ghost use Rattle.decl_core.specs.ObjectMap.{object_of};
ghost use Rattle.board_core.specs.Board.{call_at, operation_place};
ghost use Rattle.board_core.specs.Sound.{IsSound};
ghost use Rattle.world_core.specs.Counted.{StandsAfter, HasCounted};

use board_core::event::TraceEvent;
use decl_core::object::Object;
use desk_core::desk::Desk;
use path_count::counters::{Counters, compile};
use path_tree::node::OpId;
use std::alloc::{AllocError, Global};

// The operation of the call of this number.
fn operation_of(desk: &Desk, number: u32) -> OpId
    ensures { result ≡ operation_place (call_at desk.now.calls number) }
{
    match desk.call(number) {
        Some(call) => call.op(),
        None => 0,
    }
}

// Counters of an object, before any call.
fn fresh(alloc: Global, object: &Object) -> Result<Counters, AllocError>
    ensures { IfOk result (λ c. StandsFor c (length object.now.operations.items) (object_of object.now).paths []) }
{
    compile(alloc, &object.paths, object.operations.len() as OpId)
}

// Counts the event at this place of the trace.
fn count(desk: &Desk, place: usize, counters: &mut Counters)
    requires sound { IsSound desk.now }
    requires there { place < length desk.now.trace }
    requires stands { StandsAfter desk.now place counters.old }
    ensures { StandsAfter desk.now (place + 1) counters.new }
{
    let trace = desk.trace();
    match trace.get(place) {
        Some(TraceEvent::Start(number)) => {
            counters.start(operation_of(desk, number));
        }
        Some(TraceEvent::End(number, _)) => {
            counters.finish(operation_of(desk, number));
        }
        None => unreachable!(),
    }
}

/// Counters that have counted the trace of a desk: at most 131,072 events. The error is that memory was refused.
pub(crate) fn counters_of(alloc: Global, desk: &Desk) -> Result<Counters, AllocError>
    ensures { IfOk result (HasCounted desk.now) }
{
    // Its board is sound.
    desk.history();
    let mut counters = fresh(alloc, desk.accepted().object())?;
    for place in 0..desk.trace().len() {
        count(desk, place, &mut counters);
    }
    Ok(counters)
}
