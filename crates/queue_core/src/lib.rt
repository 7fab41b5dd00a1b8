//! Calls of an object that wait or run, and which of those that wait is next.
//!
//! An open call (`open_call`) has all that its start, its ticket and its entry will need: that is taken when it is
//! submitted, so nothing else takes memory. `queue::WaitingQueue` has the calls that wait, in the order of their numbers,
//! and finds the first that can start. It asks the counters of the paths, and no board: which call can start is said of
//! paths and of what happened (`specs/Starts.antt`).
#![tactic(auto)]

pub mod open_call;
pub mod queue;
