//! What a desk answers, beside `guest_core::answer`.

ghost use Rattle.std.specs.Prelude.{◌≡◌};
ghost use Rattle.board_core.specs.Answers.{receipt_by};

use crate::receipt::{NotedOutcome, Receipt};
use apply_core::reply::Reply;
use device_core::hand::Stamp;
use page_core::outcome::Outcome;
use page_core::ticket::Ticket;

/// What became of an accepted call.
#[derive(Clone, Copy, Debug, PartialEq, Eq)]
pub enum CallState {
    /// It waits.
    Waiting,
    /// It runs.
    Running,
    /// It was cancelled.
    Cancelled,
    /// It has finished, with this reply.
    Ended(Reply),
}

/// A call that a session made before, under the key that is asked for.
#[derive(Clone, Copy, Debug, PartialEq, Eq)]
pub struct EarlierCall {
    /// Its number.
    pub number: u32,
    /// What became of it.
    pub state: CallState,
}

/// What a call under a key is answered.
#[derive(Clone, Copy, Debug, PartialEq, Eq)]
pub enum Keyed {
    /// The key is that of the session's next call, and the call was taken, under this number.
    New(u32),
    /// The session made this call before, under this key. Nothing is changed.
    Kept(EarlierCall),
}

/// What a finish gives beside the outcome that it was given.
#[derive(Drop)]
pub struct Finished {
    /// The place of the entry in the history, from 1.
    pub place: usize,
    /// The session of the call.
    pub session: u32,
    /// The files that nobody needs any more, as in [`Receipt`].
    pub free: Vec<Stamp>,
}

impl Finished {
    /// The receipt of this outcome.
    pub fn receipt(self, outcome: Outcome) -> Receipt
        ensures { result ≡ receipt_by self outcome }
    {
        let Finished {
            place,
            session,
            free,
        } = self;
        Receipt {
            place,
            noted: NotedOutcome { session, outcome },
            free,
        }
    }
}

/// An outcome of no call that runs here, or one that was handed in before, handed back.
#[derive(Drop)]
pub struct Stranger(pub Outcome);

/// What a call's submitter finds.
pub enum Collected {
    /// The call runs, and this is its ticket. It is given once.
    Ticket(Ticket),
    /// The call waits.
    Waiting,
    /// The call was cancelled.
    Cancelled,
    /// There is no such call, its ticket was taken, or it has finished.
    Unknown,
}
