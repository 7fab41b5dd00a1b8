//! A short past in place of a long one.

ghost use Rattle.std.specs.Prelude.{IfOk, IfSome};
ghost use Rattle.path_count.specs.Found.{LeavesSame};

use crate::counters::Counters;
use crate::past::{PastEvent, counters_behind};
use crate::walk::{count_event, numbers};
use indexmap::IndexSet;
use path_tree::node::OpId;
use path_tree::tree::PathTree;
use std::alloc::{AllocError, Global};

// A walk without loops: whenever it comes back to where it was, all since then is left out.
#[derive(Drop)]
struct Walk {
    events: Vec<PastEvent>,
    // where it came to, each state once
    met: IndexSet<Vec<u64>>,
    // of each of these how many events lead to it
    ends: Vec<usize>,
}

impl Walk {
    // It comes to this state.
    fn come(&mut self, alloc: Global, words: &Vec<u64>) -> Result<(), AllocError> {
        match self.met.get_index_of(words) {
            Some(place) => self.go_back(place),
            None => {
                self.met.insert(words.to_vec(alloc)?)?;
                self.ends.push(self.events.len())?;
            }
        }
        Ok(())
    }

    // It is again in the state at a place.
    fn go_back(&mut self, place: usize) {
        self.met.truncate(place.saturating_add(1));
        self.ends.truncate(place.saturating_add(1));
        if let Some(end) = self.ends.get(place) {
            self.events.truncate(*end);
        }
    }
}

// Whether the event at a place is the start of a call that ends at once.
fn ends_at_once(long: &[PastEvent], at: usize) -> bool {
    match long.get(at..) {
        Some([PastEvent::Start(started), PastEvent::End(ended), ..]) => started == ended,
        _ => false,
    }
}

// The walk without its loops. The state between a start and an end that follows at once is not looked at, so both stay or
// both are left out.
fn without_loops(
    alloc: Global,
    paths: &[PathTree],
    n_ops: OpId,
    long: &[PastEvent],
) -> Result<Vec<PastEvent>, AllocError> {
    let mut words = numbers(alloc, paths, n_ops)?;
    let mut walk = Walk {
        events: Vec::new(alloc),
        met: IndexSet::new(alloc),
        ends: Vec::new(alloc),
    };
    walk.come(alloc, &words)?;
    for at in 0..long.len() {
        count_event(paths, long[at], &mut words);
        walk.events.push(long[at])?;
        if !ends_at_once(long, at) {
            walk.come(alloc, &words)?;
        }
    }
    let Walk { events, .. } = walk;
    Ok(events)
}

/// A past that leaves the same counters as those that are given, found in a long one, the oldest event first: its walk
/// without its loops. Each state of the walk that lies between two calls stands in it once.
/// `None`: the long one does not leave these counters, or a call runs at its end. The error is that memory was refused.
pub fn short_past(
    alloc: Global,
    paths: &[PathTree],
    n_ops: OpId,
    long: &[PastEvent],
    counters: &Counters,
) -> Result<Option<Vec<PastEvent>>, AllocError>
    ensures leaves { IfOk result (λ found. IfSome found (λ past.
        LeavesSame counters.now.words n_ops paths.now past.items)) }
{
    let short = without_loops(alloc, paths, n_ops, long)?;
    let Some(found) = counters_behind(alloc, paths, n_ops, &short)? else {
        return Ok(None);
    };
    if !found.leaves_same(counters) {
        return Ok(None);
    }
    Ok(Some(short))
}
