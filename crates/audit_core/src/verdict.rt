//! What an audit answers.

/// What an audit answers. Lines count from 1, paths from 1.
#[derive(Clone, Copy, Debug, PartialEq, Eq)]
pub enum AuditVerdict {
    /// The bytes are a trace that satisfies every path and whose history is legal.
    Legal {
        /// How many calls ended.
        entries: u64,
    },
    /// This line is outside the format.
    BadLine(u64),
    /// This line is a start that a path refuses, and this is the first such path.
    BreaksPath(u64, usize),
    /// This line is an end whose reply is not the sequential object's.
    WrongReply(u64),
    /// This line is an end of a call that does not run.
    NotRunning(u64),
    /// Memory was refused.
    Memory,
}

/// What is wrong with a line.
#[derive(Clone, Copy, Debug, PartialEq, Eq)]
pub enum AuditFault {
    /// It is outside the format, or has no place where it stands.
    Bad,
    /// It is a start that this path is the first to refuse.
    Breaks(usize),
    /// It is an end with a wrong reply.
    Wrong,
    /// It is an end of a call that does not run.
    Stranger,
}
