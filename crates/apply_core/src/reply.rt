//! What a call replies.

ghost use Rattle.std.specs.Prelude.{◌≡◌, ◌↔◌, IsTrue};

use thiserror::Error;
use value_core::datum::Datum;
use value_core::text::Text;

/// Why a call failed. Its parts are as they were.
#[derive(Clone, Copy, Debug, PartialEq, Eq, Error)]
pub enum Failure {
    /// A device call of its run failed.
    #[error("device")]
    Device,
    /// Memory was refused.
    #[error("memory")]
    Memory,
    /// The bytes of a part spell no value of its kind.
    #[error("damaged")]
    Damaged,
}

/// What a call replies. It is copied without memory.
#[derive(Clone, Copy, Debug, PartialEq, Eq)]
pub enum Reply {
    /// The body was done: what a function replies, or nothing of a procedure.
    Done(Option<Datum>),
    /// The body was refused, by this word of 1 to 16 lower-case letters. Its parts are as they were.
    Refused(Text),
    /// The call failed. Its parts are as they were.
    Failed(Failure),
}

impl Reply {
    /// Whether both are the same reply.
    pub fn is_same(&self, other: &Reply) -> bool
        ensures { IsTrue result ↔ (self.now ≡ other.now) }
    {
        match (self, other) {
            (Reply::Done(first), Reply::Done(second)) => is_same_result(first, second),
            (Reply::Refused(first), Reply::Refused(second)) => first.is_same(second),
            (Reply::Failed(first), Reply::Failed(second)) => *first == *second,
            _ => false,
        }
    }
}

// Whether both reply the same datum, or both none.
fn is_same_result(first: &Option<Datum>, second: &Option<Datum>) -> bool
    ensures { IsTrue result ↔ (first.now ≡ second.now) }
{
    match (first, second) {
        (Some(first), Some(second)) => first.is_same(second),
        (None, None) => true,
        _ => false,
    }
}
