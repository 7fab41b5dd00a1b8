//! What a call, a call under a key and a cancel are refused or answered, wherever they are asked.

use thiserror::Error;

/// Why a call is refused. The first that applies is told.
#[derive(Clone, Copy, Debug, PartialEq, Eq, Error)]
pub enum SubmitFault {
    /// There is no such session: it has left, or has no number from 1 to 1,024, or up to the limit of a kept object.
    #[error("Gone")]
    Gone,
    /// The object has no such operation.
    #[error("UnknownOp")]
    UnknownOp,
    /// The arguments do not fit the operation.
    #[error("BadArgs")]
    BadArgs,
    /// A call of the session waits or runs.
    #[error("SessionBusy")]
    SessionBusy,
    /// 256 calls wait or run, or as many wait as may at a kept object.
    #[error("Full")]
    Full,
    /// 65,536 numbers were given out, those of a kept object in this epoch and its past.
    #[error("HistoryFull")]
    HistoryFull,
    /// Memory was refused.
    #[error("Memory")]
    Memory,
}

/// Why a call under a key is refused. The first that applies is told.
#[derive(Clone, Copy, Debug, PartialEq, Eq, Error)]
pub enum KeyedFault {
    /// The session has left, or has no number from 1 to 1,024.
    #[error("Gone")]
    Gone,
    /// The key is 0, or past that of the session's next call.
    #[error("BadKey")]
    BadKey,
    /// The session's call of this key is of another operation or has other arguments.
    #[error("KeyReused")]
    KeyReused,
    /// The key is that of the session's next call, which is refused.
    #[error("{0}")]
    Submit(SubmitFault),
}

/// What became of a cancel.
#[derive(Clone, Copy, Debug, PartialEq, Eq)]
pub enum Cancelled {
    /// The call waited, and is cancelled.
    Cancelled,
    /// The call runs, and goes on.
    Running,
    /// The call has finished, or was cancelled before.
    Ended,
    /// There is no such call.
    Unknown,
}
