//! What an operation on a value answers where it is not done.

ghost use Rattle.std.specs.Prelude.{◌≡◌};
ghost use Rattle.value_core.specs.Words.{word_of};

use std::alloc::AllocError;
use thiserror::Error;

/// Why an operation was refused. It then changed nothing.
#[derive(Clone, Copy, Debug, PartialEq, Eq, Error)]
pub enum Refusal {
    /// An array has no element at this index.
    #[error("index")]
    Index,
    /// A value has 1,024 elements.
    #[error("full")]
    Full,
    /// A queue has no element.
    #[error("empty")]
    Empty,
    /// A table has nothing under this key.
    #[error("missing")]
    Missing,
    /// A sum or a difference is outside 0 to 4294967295.
    #[error("range")]
    Range,
}

impl Refusal {
    /// The word by which a body is refused.
    pub fn word(&self) -> &'static str
        ensures { result.now ≡ word_of self.now }
    {
        match self {
            Refusal::Index => "index",
            Refusal::Full => "full",
            Refusal::Empty => "empty",
            Refusal::Missing => "missing",
            Refusal::Range => "range",
        }
    }
}

/// Why a value did not grow. It is then unchanged.
#[derive(Clone, Copy, Debug, PartialEq, Eq, Error)]
pub enum GrowFault {
    /// The operation was refused.
    #[error("{0}")]
    Refused(Refusal),
    /// Memory was refused.
    #[error("out of memory")]
    Memory,
}

impl From<AllocError> for GrowFault {
    ghost use Rattle.std.specs.Prelude.{◌≡◌};
    ghost use Rattle.value_core.specs.declared.refusal.GrowFault.TheVariants.{Memory};

    ghost from_gives = { λ _ e. e ≡ Memory };

    fn from(_: AllocError) -> GrowFault {
        GrowFault::Memory
    }
}
