//! What went wrong while the rest was still done.

ghost use Rattle.std.specs.Prelude.{◌≡◌, true};
ghost use Rattle.keep_core.specs.Troubles.{first_of, fault_in, memory_in};

use std::alloc::AllocError;
use std::io::{Error, ErrorKind};
use value_core::LinesFault;

/// The fault of an error of the system while something is read.
pub fn fault_of(error: Error) -> LinesFault {
    if error.kind() == ErrorKind::OutOfMemory {
        LinesFault::Memory
    } else {
        LinesFault::ReadFault
    }
}

/// What a server met and did not end for.
#[derive(Clone, Copy, Debug, PartialEq, Eq)]
pub struct Trouble {
    /// Whether a line said that something was refused, damaged or mixed.
    pub refused: bool,
    /// The first fault.
    pub fault: Option<LinesFault>,
}

impl Trouble {
    ghost use Rattle.std.specs.Prelude.{Option, None, Some, false};

    /// None so far.
    pub fn none() -> Trouble
        ensures fault { result.fault ≡ None }
        ensures refused { result.refused ≡ false }
    {
        Trouble {
            refused: false,
            fault: None,
        }
    }

    /// Notes a fault, unless one was met before.
    pub fn note(&mut self, fault: LinesFault)
        ensures fault { self.new.fault ≡ first_of self.old.fault (Some fault) }
        ensures refused { self.new.refused ≡ self.old.refused }
    {
        match self.fault {
            Some(_) => {}
            None => self.fault = Some(fault),
        }
    }

    /// Notes the fault of a result, if it has one.
    pub fn heed(&mut self, met: Result<(), LinesFault>)
        ensures fault { self.new.fault ≡ first_of self.old.fault (fault_in met) }
        ensures refused { self.new.refused ≡ self.old.refused }
    {
        match met {
            Ok(()) => {}
            Err(fault) => self.note(fault),
        }
    }

    /// Notes that memory was refused, if the result tells so.
    pub fn heed_memory(&mut self, met: Result<(), AllocError>)
        ensures fault { self.new.fault ≡ first_of self.old.fault (memory_in met) }
        ensures refused { self.new.refused ≡ self.old.refused }
    {
        match met {
            Ok(()) => {}
            Err(_) => self.note(LinesFault::Memory),
        }
    }

    /// Notes that a line says what was refused, damaged or mixed.
    pub fn refuse(&mut self)
        ensures fault { self.new.fault ≡ self.old.fault }
        ensures refused { self.new.refused ≡ true }
    {
        self.refused = true;
    }
}
