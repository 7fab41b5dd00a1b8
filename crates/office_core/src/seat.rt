//! Submissions and their answers.

ghost use Rattle.std.specs.Prelude.{◌≡◌};

pub use crate::client_seat::Seat;
use page_core::call::Call;
use page_core::outcome::Outcome;
use page_core::ticket::Ticket;
use std::sync::Arc;

/// An accepted call that is waited for. It has to be spent, by a wait for its start.
pub struct Submitted {
    pub(crate) number: u32,
    pub(crate) call: Arc<Call>,
}

impl Submitted {
    /// Its number, from 1.
    pub fn number(&self) -> u32
        ensures { result ≡ self.now.number }
    {
        self.number
    }
}

/// What a wait for a start answers.
pub enum Started {
    /// The call runs, and this is its ticket. It is given once.
    Ticket(Ticket),
    /// The call was cancelled.
    Cancelled,
    /// No call of this number, operation and arguments waits, was cancelled, or runs with its ticket left.
    Stranger(Submitted),
}

/// What a look for a start answers.
pub enum Tried {
    /// The call runs, and this is its ticket. It is given once.
    Ticket(Ticket),
    /// The call was cancelled.
    Cancelled,
    /// The call waits.
    Waiting(Submitted),
    /// No call of this number, operation and arguments waits, was cancelled, or runs with its ticket left.
    Stranger(Submitted),
}

/// Why an outcome was not taken that stays where it lies.
#[derive(Clone, Copy, Debug, Drop)]
pub enum NotTaken {
    /// The place that the outcome would get is not past the greatest that the seat has seen.
    Front { seen: usize, found: usize },
    /// No running call has this outcome, or it was handed in before.
    Stranger,
}

/// Why an outcome was not taken. It is handed back.
#[derive(Drop)]
pub enum CompleteFault {
    /// The place that the outcome would get is not past the greatest that the seat has seen.
    Front {
        seen: usize,
        found: usize,
        outcome: Outcome,
    },
    /// No running call has this outcome, or it was handed in before.
    Stranger(Outcome),
}
