//! Public calls that no program makes: they are there for laws and tests, off the path of a call.

ghost use Rattle.std.specs.Prelude.{◌≡◌};
ghost use Rattle.check_core.specs.CheckFaults.{fault_number, fault_name};

use crate::report::CheckFault;

impl CheckFault {
    /// The number of the fault: 1 or 2.
    pub fn number(&self) -> u8
        ensures { result ≡ fault_number self.now }
    {
        match self {
            CheckFault::WriteFault => 1,
            CheckFault::Memory => 2,
        }
    }

    /// The name of the fault, as in `WriteFault`.
    pub fn name(&self) -> &'static str
        ensures { result.now ≡ fault_name self.now }
    {
        match self {
            CheckFault::WriteFault => "WriteFault",
            CheckFault::Memory => "Memory",
        }
    }
}
