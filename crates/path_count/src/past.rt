//! A past, and the counters that it leaves.

ghost use Rattle.std.specs.Prelude.{◌≡◌, ◌+◌, ◌*◌, ℕ, [], length, IsTrue, IfOk, IfSome, List};
ghost use Rattle.path_tree.specs.Path.{Path};
ghost use Rattle.path_tree.specs.Trace.{Event, running_calls};
ghost use Rattle.path_count.specs.Stands.{StandsFor, started_calls};
ghost use Rattle.path_count.specs.Past.{events_of, with_event, AreBefore};
ghost use Rattle.path_count.specs.Numbers.{IsNumbered};

use crate::counters::{Counters, compile};
use path_tree::node::OpId;
use path_tree::tree::PathTree;
use std::alloc::{AllocError, Global};

/// What happened in a past.
#[derive(Clone, Copy, Debug, PartialEq, Eq)]
pub enum PastEvent {
    /// A call of the operation started.
    Start(OpId),
    /// A call of the operation ended.
    End(OpId),
}

// Takes an event, where the paths let it happen.
fn take(counters: &mut Counters, event: PastEvent) -> bool
    ensures { IsTrue result → (n : ℕ) (paths : List Path) (t : List Event) → StandsFor counters.old n paths t →
        IsNumbered t → StandsFor counters.new n paths (with_event t event) }
{
    match event {
        PastEvent::Start(op) => counters.start(op),
        PastEvent::End(op) => counters.finish(op),
    }
}

// How many calls start in an event.
fn starts_in(event: PastEvent) -> usize
    ensures { (t : List Event) → started_calls (with_event t event) ≡ started_calls t + result }
{
    match event {
        PastEvent::Start(_) => 1,
        PastEvent::End(_) => 0,
    }
}

/// The counters of these paths behind a past, the oldest event first, for the operations below `n_ops`. `None`: the
/// paths did not let it happen, more than 65,536 calls start in it, or a call runs at its end. The error is that memory
/// was refused.
pub fn counters_behind(
    alloc: Global,
    paths: &[PathTree],
    n_ops: OpId,
    past: &[PastEvent],
) -> Result<Option<Counters>, AllocError>
    ensures stands { IfOk result (λ found. IfSome found (λ c. StandsFor c n_ops paths.now (events_of past.now))) }
    ensures quiet { IfOk result (λ found. IfSome found (λ c. running_calls (events_of past.now) ≡ [])) }
    ensures before { AreBefore (events_of past.now) }
    ensures starts { IfOk result (λ found. IfSome found (λ c.
        2 * started_calls (events_of past.now) ≡ length past.now)) }
{
    let mut counters = compile(alloc, paths, n_ops)?;
    let mut starts = 0;
    for place in 0..past.len() {
        let event = past[place];
        if !take(&mut counters, event) {
            return Ok(None);
        }
        starts += starts_in(event);
    }
    if past.len() != 2 * starts {
        return Ok(None);
    }
    Ok(Some(counters))
}
