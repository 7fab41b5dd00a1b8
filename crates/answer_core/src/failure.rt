//! Why the program has nothing to answer.

ghost use Rattle.std.specs.Prelude.{◌≡◌};
ghost use Rattle.std.specs.Io.KnownBytes.{Keeps};
ghost use Rattle.clap.specs.Values.{kind_of};
ghost use Rattle.answer_core.specs.Status.{exit_status_of, IsWordsEnd, IsShown};

use crate::answer::ACCEPTED;
use check_core::report::CheckFault;
use clap::Error;
use clap::error::ErrorKind;
use path_count::paths::PathsFault;
use std::alloc::AllocError;
use std::io::Write;
use std::{fmt, io};

/// Why the program has nothing to answer. As text it is what standard error gets.
#[derive(Debug, Drop)]
pub enum ToolFailure {
    /// The command line asks for no command, and for no help either.
    Usage(Error),
    /// Standard input or a file cannot be read, or standard input has no end.
    ReadFault,
    /// Standard output takes nothing more.
    WriteFault,
    /// Memory was refused.
    Memory,
}

impl ToolFailure {
    ghost use Rattle.answer_core.specs.Status.{status_of};

    /// The exit status: 2 usage, 3 a read or write fault, 4 memory.
    pub fn status(&self) -> u8
        ensures { result ≡ status_of self.now }
    {
        match self {
            ToolFailure::Usage(_) => 2,
            ToolFailure::ReadFault | ToolFailure::WriteFault => 3,
            ToolFailure::Memory => 4,
        }
    }
}

/// The exit status of a run: the one that it gave, or that of its failure.
pub fn exit_status(ended: &Result<u8, ToolFailure>) -> u8
    ensures { result ≡ exit_status_of ended.now }
{
    match ended {
        Ok(status) => *status,
        Err(failure) => failure.status(),
    }
}

/// What words end the program with that ask for no command: `writer` gets the help, or the version, that they ask for,
/// and the status is 0.
///
/// A failure is `Usage` at a mistake, `WriteFault`, which leaves a front of the text, or `Memory`. At a mistake, and
/// where memory was refused, `writer` gets nothing.
#[tactic(auto, using(crate::proofs::Words::shown_end, crate::proofs::Words::no_memory, crate::proofs::Words::is_usage))]
pub fn words_end<W: Write>(error: Error, writer: &mut W) -> Result<u8, ToolFailure>
    ensures ended { IsWordsEnd error result }
    ensures kept { (IsShown error → ⊥) → Keeps (W.contents writer.old) (W.contents writer.new) }
{
    match error.kind() {
        ErrorKind::DisplayHelp | ErrorKind::DisplayVersion => {
            match write!(writer, "{error}") {
                Ok(()) => Ok(ACCEPTED),
                Err(_) => Err(ToolFailure::WriteFault),
            }
        }
        ErrorKind::OutOfMemory => Err(ToolFailure::Memory),
        _ => Err(ToolFailure::Usage(error)),
    }
}

impl fmt::Display for ToolFailure {
    ghost use Rattle.answer_core.specs.Status.{failure_text};

    ghost output = { failure_text };

    fn fmt<W: fmt::Write>(&self, f: &mut fmt::Formatter<W>) -> fmt::Result {
        match self {
            ToolFailure::Usage(error) => write!(f, "{error}"),
            ToolFailure::ReadFault => f.write_str("read fault\n"),
            ToolFailure::WriteFault => f.write_str("write fault\n"),
            ToolFailure::Memory => f.write_str("out of memory\n"),
        }
    }
}

impl From<AllocError> for ToolFailure {
    ghost use Rattle.std.specs.Prelude.{◌≡◌};
    ghost use Rattle.answer_core.specs.declared.failure.ToolFailure.TheVariants.{Memory};

    ghost from_gives = { λ _ failure. failure ≡ Memory };

    fn from(_: AllocError) -> ToolFailure {
        ToolFailure::Memory
    }
}

impl From<io::Error> for ToolFailure {
    ghost use Rattle.answer_core.specs.Status.{IsUnread};

    ghost from_gives = { IsUnread };

    fn from(error: io::Error) -> ToolFailure {
        if error.kind() == io::ErrorKind::OutOfMemory {
            ToolFailure::Memory
        } else {
            ToolFailure::ReadFault
        }
    }
}

impl From<PathsFault> for ToolFailure {
    ghost use Rattle.std.specs.Prelude.{◌≡◌};
    ghost use Rattle.answer_core.specs.Status.{paths_failure};

    ghost from_gives = { λ fault failure. failure ≡ paths_failure fault };

    fn from(fault: PathsFault) -> ToolFailure {
        match fault {
            PathsFault::ReadFault => ToolFailure::ReadFault,
            PathsFault::WriteFault => ToolFailure::WriteFault,
            PathsFault::Memory => ToolFailure::Memory,
        }
    }
}

impl From<CheckFault> for ToolFailure {
    ghost use Rattle.std.specs.Prelude.{◌≡◌};
    ghost use Rattle.answer_core.specs.Status.{check_failure};

    ghost from_gives = { λ fault failure. failure ≡ check_failure fault };

    fn from(fault: CheckFault) -> ToolFailure {
        match fault {
            CheckFault::WriteFault => ToolFailure::WriteFault,
            CheckFault::Memory => ToolFailure::Memory,
        }
    }
}
