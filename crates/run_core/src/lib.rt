//! One call, from its ticket to its outcome: a body as steps of a device, over page lists.
//!
//! A `Ticket` says which operation was called, with which arguments, over which pins, and a `Task` is such a call while
//! it runs. A `Run` of a ticket reads the pages of the parts that its operation reads, has the body done, and writes
//! each page that the body changed into a new file, one device call a step; `run_at_once` does all steps in one go. An
//! `Outcome` tells how it ended. `specs/Steps.antt` has the rule of steps, `specs/Calling.antt` the device calls of a
//! step, and `specs/Truths.antt` says when an outcome is true.
//!
//! `Seen` holds what was read, and which pages are known: of an array of integers that is cut into pages the first one
//! at first, and a further one when the body comes to it; all else whole. `judge` looks through what was read of each
//! part, does the body on its bytes (`held`), and gives those of each part that the body changed, or the page that it
//! comes to; it makes no device call. `specs/Given.antt` says what a body gives on bytes, `specs/Judged.antt` what a
//! verdict says, `specs/Seen.antt` how what was seen stands to the bytes under the pins.
//!
//! `plan_pages` makes of what a body changed the new page lists, and says which pages are written
//! (`specs/CallPlanned.antt`). `laws`, `call_laws` and `seen_laws` have what holds of all this.
#![tactic(auto)]

mod advance;
pub mod at_once;
pub mod call_laws;
mod conclude;
mod ending;
mod held;
pub mod judge;
pub mod judging;
pub mod laws;
pub mod more;
pub mod perform;
mod phase;
pub mod plan;
mod read;
pub mod run;
pub mod seen;
pub mod seen_laws;
pub mod step;
pub mod task;
pub mod uncalled;
mod write;
