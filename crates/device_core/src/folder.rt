//! What the devices in a folder have in common: their faults.

ghost use Rattle.std.specs.Prelude.{◌≡◌, ◌≢◌, ◌<◌, ◌≤◌};
ghost use Rattle.std.specs.IoError.{error_kind};
ghost use Rattle.device_core.specs.Device.{FaultCause};

use crate::hand::HandFault;
use std::alloc::AllocError;
use std::io;
use std::io::ErrorKind;

// The fault that an error of the system is: a want of memory, or one of the device.
pub fn fault_of(error: io::Error) -> HandFault
    ensures memory { error_kind error ≡ ErrorKind.OutOfMemory → result ≡ HandFault.Memory }
    ensures device { error_kind error ≢ ErrorKind.OutOfMemory → result ≡ HandFault.Device }
{
    if error.kind() == ErrorKind::OutOfMemory {
        HandFault::Memory
    } else {
        HandFault::Device
    }
}

pub fn no_memory(_: AllocError) -> HandFault
    ensures { result ≡ HandFault.Memory }
{
    HandFault::Memory
}

// Counts a fault, but where memory was wanted.
pub fn count(failures: &mut u64, fault: HandFault) -> HandFault
    ensures fault { result ≡ fault }
    ensures counted { failures.old ≤ failures.new }
    ensures cause { FaultCause failures.old failures.new result }
    ensures rises { failures.old < failures.new → result ≡ HandFault.Device }
{
    match fault {
        HandFault::Device => *failures = failures.saturating_add(1),
        HandFault::Memory => {}
    }
    fault
}
