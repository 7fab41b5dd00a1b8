//! Why a source holds no objects.

ghost use Rattle.std.specs.Prelude.{◌≡◌};
ghost use Rattle.decl_read.specs.DeclFaults.{fault_number, fault_name, fault_place};

use path_tree::lex::fault::LexFault;
use path_tree::path_fault::PathFault;
use thiserror::Error;

/// Why a source holds no objects: the first fault that a single pass meets, with the byte of the source
/// where it stands.
#[derive(Clone, Copy, Debug, PartialEq, Eq, Error)]
pub enum DeclFault {
    /// The source has no tokens.
    #[error("{0}")]
    Lex(LexFault),
    /// A path is none.
    #[error("{0}")]
    Path(PathFault),
    /// The token here is none that the grammar has in this place, or a size or a word that is not allowed.
    #[error("Syntax at {0}")]
    Syntax(usize),
    /// The name here is declared before.
    #[error("DuplicateName at {0}")]
    DuplicateName(usize),
    /// The name or the expression here is of another kind than its place asks.
    #[error("WrongType at {0}")]
    WrongType(usize),
    /// The name here is not known.
    #[error("UnknownName at {0}")]
    UnknownName(usize),
    /// The token here is the first past a limit.
    #[error("TooMany at {0}")]
    TooMany(usize),
    /// Memory was refused.
    #[error("Memory")]
    Memory,
}

impl DeclFault {
    /// The number of the fault: 10 to 15, or that of the fault of the tokens or of the path.
    pub fn number(&self) -> u8
        ensures { result ≡ fault_number self.now }
    {
        match self {
            DeclFault::Lex(fault) => fault.number(),
            DeclFault::Path(fault) => fault.number(),
            DeclFault::Syntax(_) => 10,
            DeclFault::DuplicateName(_) => 11,
            DeclFault::WrongType(_) => 12,
            DeclFault::UnknownName(_) => 13,
            DeclFault::TooMany(_) => 14,
            DeclFault::Memory => 15,
        }
    }

    /// The name of the fault, as in `WrongType`.
    pub fn name(&self) -> &'static str
        ensures { result.now ≡ fault_name self.now }
    {
        match self {
            DeclFault::Lex(fault) => fault.name(),
            DeclFault::Path(fault) => fault.name(),
            DeclFault::Syntax(_) => "Syntax",
            DeclFault::DuplicateName(_) => "DuplicateName",
            DeclFault::WrongType(_) => "WrongType",
            DeclFault::UnknownName(_) => "UnknownName",
            DeclFault::TooMany(_) => "TooMany",
            DeclFault::Memory => "Memory",
        }
    }

    /// The byte of the source where the fault stands, or `None` where it has no place.
    pub fn at(&self) -> Option<usize>
        ensures { result ≡ fault_place self.now }
    {
        match self {
            DeclFault::Lex(fault) => fault.at(),
            DeclFault::Path(fault) => fault.at(),
            DeclFault::Memory => None,
            DeclFault::Syntax(at)
            | DeclFault::DuplicateName(at)
            | DeclFault::WrongType(at)
            | DeclFault::UnknownName(at)
            | DeclFault::TooMany(at) => Some(*at),
        }
    }
}
