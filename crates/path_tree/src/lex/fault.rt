//! What can be wrong with a source.

ghost use Rattle.std.specs.Prelude.{◌≡◌};
ghost use Rattle.path_tree.specs.declared.lex.fault.LexFault.TheVariants.{Memory};
ghost use Rattle.path_tree.specs.LexFaults.{fault_number, fault_name, fault_place};

use std::alloc::{AllocError, AllocFailed};
use thiserror::Error;

/// Why a source has no tokens. A place counts bytes of the source, from 0.
#[derive(Clone, Copy, Debug, PartialEq, Eq, Error)]
pub enum LexFault {
    /// The source has more than 65,536 bytes.
    #[error("TooLong")]
    TooLong,
    /// A byte at which no token and no gap goes on.
    #[error("BadByte at {0}")]
    BadByte(usize),
    /// The first byte of a comment that is not closed.
    #[error("OpenComment at {0}")]
    OpenComment(usize),
    /// The first apostrophe of a string that is not closed on its line, or is longer than 1000 bytes.
    #[error("OpenString at {0}")]
    OpenString(usize),
    /// The first digit of a number over 4294967295.
    #[error("BadNumber at {0}")]
    BadNumber(usize),
    /// Memory was refused.
    #[error("Memory")]
    Memory,
}

impl LexFault {
    /// The number of the fault, 1 to 6.
    pub fn number(&self) -> u8
        ensures { result ≡ fault_number self.now }
    {
        match self {
            LexFault::TooLong => 1,
            LexFault::BadByte(_) => 2,
            LexFault::OpenComment(_) => 3,
            LexFault::OpenString(_) => 4,
            LexFault::BadNumber(_) => 5,
            LexFault::Memory => 6,
        }
    }

    /// The name of the fault, as in `BadByte`.
    pub fn name(&self) -> &'static str
        ensures { result.now ≡ fault_name self.now }
    {
        match self {
            LexFault::TooLong => "TooLong",
            LexFault::BadByte(_) => "BadByte",
            LexFault::OpenComment(_) => "OpenComment",
            LexFault::OpenString(_) => "OpenString",
            LexFault::BadNumber(_) => "BadNumber",
            LexFault::Memory => "Memory",
        }
    }

    /// The place of the fault, or `None` where it has none.
    pub fn at(&self) -> Option<usize>
        ensures { result ≡ fault_place self.now }
    {
        match self {
            LexFault::TooLong | LexFault::Memory => None,
            LexFault::BadByte(at)
            | LexFault::OpenComment(at)
            | LexFault::OpenString(at)
            | LexFault::BadNumber(at) => Some(*at),
        }
    }
}

impl From<AllocError> for LexFault {
    ghost from_gives = { λ _ e. e ≡ Memory };

    fn from(_: AllocError) -> LexFault {
        LexFault::Memory
    }
}

impl<T: Drop> From<AllocFailed<T>> for LexFault {
    ghost from_gives = { λ _ e. e ≡ Memory };

    fn from(_: AllocFailed<T>) -> LexFault {
        LexFault::Memory
    }
}
