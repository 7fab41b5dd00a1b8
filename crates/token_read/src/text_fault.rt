//! Why tokens are no objects.

ghost use Rattle.std.specs.Prelude.{◌≡◌};
ghost use Rattle.token_read.specs.declared.text_fault.TextFault.TheVariants.{Memory};

use path_tree::path_fault::PathFault;
use path_tree::token::Token;
use std::alloc::{AllocError, AllocFailed};

/// What was read, and the tokens behind.
pub type TextRead<'t, T> = Result<(T, &'t [Token]), TextFault>;

/// Why tokens are no objects: the first fault from the left, with the byte where it stands.
#[derive(Clone, Copy)]
pub enum TextFault {
    /// A path is none.
    Path(PathFault),
    /// The token here is none that the grammar has in this place, or a size or a word that is not allowed.
    Syntax(usize),
    /// The name here is declared before.
    DuplicateName(usize),
    /// The name or the expression here is of another kind than its place asks.
    WrongType(usize),
    /// The name here is not known.
    UnknownName(usize),
    /// The token here is the first past a limit.
    TooMany(usize),
    /// Memory was refused.
    Memory,
}

impl From<AllocError> for TextFault {
    ghost from_gives = { λ _ e. e ≡ Memory };

    fn from(_e: AllocError) -> TextFault {
        TextFault::Memory
    }
}

impl<T: Drop> From<AllocFailed<T>> for TextFault {
    ghost from_gives = { λ _ e. e ≡ Memory };

    fn from(_e: AllocFailed<T>) -> TextFault {
        TextFault::Memory
    }
}
