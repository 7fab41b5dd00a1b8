//! What a finish gives.

ghost use Rattle.std.specs.Prelude.{◌≡◌};
ghost use Rattle.page_core.specs.Outcomes.{outcome_reply};

use apply_core::reply::Reply;
use device_core::hand::Stamp;
use page_core::outcome::Outcome;

/// The entry of a call that finished: its session, and the outcome that was handed in.
#[derive(Drop)]
pub struct NotedOutcome {
    /// The session that made the call.
    pub session: u32,
    /// How it ended.
    pub outcome: Outcome,
}

impl NotedOutcome {
    /// What the call replied.
    pub fn reply(&self) -> &Reply
        ensures { result.now ≡ outcome_reply self.now.outcome }
    {
        self.outcome.reply()
    }
}

/// What a finish gives. It takes no memory.
#[derive(Drop)]
pub struct Receipt {
    /// The place of the entry in the history, from 1.
    pub place: usize,
    /// The entry.
    pub noted: NotedOutcome,
    /// The files that nobody needs any more, each once, in the order in which the outcome tells them: those that it
    /// replaced or dropped, or those that its run sealed where the call failed. They may be retired.
    pub free: Vec<Stamp>,
}
