//! Public calls that no program makes: they are there for laws and tests, off the path of a call.

ghost use Rattle.std.specs.Prelude.{◌≡◌, ◌↔◌, ◌≤◌, Some, length, IfOk, OnErr, IfErr};
ghost use Rattle.device_core.specs.Device.{Assignment, FaultCause, Always, bytes_of};
ghost use Rattle.device_core.specs.Faults.{fault_number, fault_name};
ghost use Rattle.device_core.specs.Made.{IsDeviceErr};

use crate::failing::{Choice, FailingHand};
use crate::hand::{Hand, HandFault, Stamp};
use std::alloc::{AllocError, Global};

impl HandFault {
    /// The number of the fault: 1 or 2.
    pub fn number(&self) -> u8
        ensures { result ≡ fault_number self.now }
    {
        match self {
            HandFault::Device => 1,
            HandFault::Memory => 2,
        }
    }

    /// The name of the fault, as in `Device`.
    pub fn name(&self) -> &'static str
        ensures { result.now ≡ fault_name self.now }
    {
        match self {
            HandFault::Device => "Device",
            HandFault::Memory => "Memory",
        }
    }
}

/// Reads the bytes of a stamp, in one call of `read`. A stamp of no bytes makes a read of no bytes.
///
/// `Memory` where memory for the bytes is refused; else the error is that of the read.
pub fn fetch<H: Hand>(alloc: Global, hand: &mut H, stamp: &Stamp) -> Result<Vec<u8>, HandFault>
    ensures ok { IfOk result (λ v. (a : Assignment) →
        H.agrees hand.new a ↔ H.agrees hand.old a × (bytes_of a stamp.now ≡ Some v.items)) }
    ensures len { IfOk result (λ v. length v.items ≡ stamp.now.len) }
    ensures err { OnErr result ((a : Assignment) → H.agrees hand.new a ↔ H.agrees hand.old a) }
    ensures serves { (s : Stamp) → H.serves hand.old s → H.serves hand.new s }
    ensures works { Always (H.works_for hand.old) → Always (H.works_for hand.new) }
    ensures in_order { Always (H.works_for hand.old) → H.serves hand.old stamp.now → IsDeviceErr result → ⊥ }
    ensures counted { H.failed hand.old ≤ H.failed hand.new }
    ensures cause { IfErr result (λ e. FaultCause (H.failed hand.old) (H.failed hand.new) e) }
{
    let mut bytes = vec![in alloc; 0u8; stamp.len].map_err(no_memory)?;
    hand.read(stamp, 0, &mut bytes)?;
    Ok(bytes)
}

// An allocator's fault, as a hand's.
fn no_memory(_: AllocError) -> HandFault
    ensures { result ≡ HandFault.Memory }
{
    HandFault::Memory
}

/// The call of number 1 alone.
#[derive(Clone, Copy, Debug, PartialEq, Eq)]
pub struct Due;

/// Fails one call, and passes each other one on to the hand inside it.
pub type OnceHand<H> = FailingHand<H, Due>;

impl Choice for Due {
    ghost use Rattle.std.specs.Prelude.{◌≡◌};

    ghost chosen = { λ _ number. number ≡ 1 };

    fn is_chosen(&self, number: u64) -> bool {
        number == 1
    }
}

impl<H: Hand> FailingHand<H, Due> {
    ghost use Rattle.std.specs.Prelude.{◌≡◌};
    ghost use Rattle.device_core.specs.Wrapped.{inner_of, left_of, blown_of};

    /// A hand that fails the call of this number, counted from 1. At 0 it fails none.
    pub fn new(inner: H, call: u64) -> Self
        ensures inner { inner_of result ≡ inner }
        ensures left { left_of result ≡ call }
        ensures blown { blown_of result ≡ 0 }
    {
        FailingHand {
            inner,
            choice: Due,
            left: call,
            blown: 0,
        }
    }
}
