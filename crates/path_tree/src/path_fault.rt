//! Why a path could not be read.

ghost use Rattle.std.specs.Prelude.{◌≡◌};
ghost use Rattle.path_tree.specs.declared.path_fault.PathFault.TheVariants.{Memory};
ghost use Rattle.path_tree.specs.PathFaults.{fault_number, fault_name, fault_place};

use std::alloc::{AllocError, AllocFailed};
use thiserror::Error;

/// Why no path was read: the first fault from left to right, with the byte of the source where it
/// stands.
#[derive(Clone, Copy, Debug, PartialEq, Eq, Error)]
pub enum PathFault {
    /// The token here is none that the grammar has in this place.
    #[error("Expected at {0}")]
    Expected(usize),
    /// The name here is no operation's, or before a colon no constant's.
    #[error("UnknownName at {0}")]
    UnknownName(usize),
    /// The operation named here is named before in this path.
    #[error("RepeatedName at {0}")]
    RepeatedName(usize),
    /// The bound here is not within 1 to 65535.
    #[error("BadBound at {0}")]
    BadBound(usize),
    /// The parenthesis or bracket here opens a 33rd level of bounds, bursts and groups.
    #[error("TooDeep at {0}")]
    TooDeep(usize),
    /// The path has more than 256 nodes.
    #[error("TooMany")]
    TooMany,
    /// Memory ran out.
    #[error("Memory")]
    Memory,
}

impl PathFault {
    /// The number of the fault, 1 to 7.
    pub fn number(&self) -> u8
        ensures { result ≡ fault_number self.now }
    {
        match self {
            PathFault::Expected(_) => 1,
            PathFault::UnknownName(_) => 2,
            PathFault::RepeatedName(_) => 3,
            PathFault::BadBound(_) => 4,
            PathFault::TooDeep(_) => 5,
            PathFault::TooMany => 6,
            PathFault::Memory => 7,
        }
    }

    /// The name of the fault, as in `BadBound`.
    pub fn name(&self) -> &'static str
        ensures { result.now ≡ fault_name self.now }
    {
        match self {
            PathFault::Expected(_) => "Expected",
            PathFault::UnknownName(_) => "UnknownName",
            PathFault::RepeatedName(_) => "RepeatedName",
            PathFault::BadBound(_) => "BadBound",
            PathFault::TooDeep(_) => "TooDeep",
            PathFault::TooMany => "TooMany",
            PathFault::Memory => "Memory",
        }
    }

    /// The byte of the source where the fault stands, or `None` where it has no place.
    pub fn at(&self) -> Option<usize>
        ensures { result ≡ fault_place self.now }
    {
        match self {
            PathFault::TooMany | PathFault::Memory => None,
            PathFault::Expected(at)
            | PathFault::UnknownName(at)
            | PathFault::RepeatedName(at)
            | PathFault::BadBound(at)
            | PathFault::TooDeep(at) => Some(*at),
        }
    }
}

impl From<AllocError> for PathFault {
    ghost from_gives = { λ _ e. e ≡ Memory };

    fn from(_e: AllocError) -> PathFault {
        PathFault::Memory
    }
}

impl<T: Drop> From<AllocFailed<T>> for PathFault {
    ghost from_gives = { λ _ e. e ≡ Memory };

    fn from(_e: AllocFailed<T>) -> PathFault {
        PathFault::Memory
    }
}
