//! A store of bytes under names, as its callers see it.

use crate::hand::HandFault;
use std::alloc::Global;

/// A store of bytes under names.
///
/// The clauses carry the device premise from call to call: what a shelf may hold after a call follows from
/// what it may have held before and from that call.
pub trait Shelf {
    ghost use Rattle.std.specs.Prelude.{◌≡◌, ◌↔◌, ◌≤◌, List, ℕ, IfErr};
    ghost use Rattle.device_core.specs.Device.{FaultCause};
    ghost use Rattle.device_core.specs.Papers.{Papers, LoadAgrees, StoreAgrees};

    /// What it may hold, by each call so far.
    ghost holds: { Self → Papers → Type 0 };

    /// How often a call has failed for the device.
    ghost failed: { Self → ℕ };

    /// What was last stored under a name, or `None` where nothing was.
    fn load(&mut self, alloc: Global, name: &[u8]) -> Result<Option<Vec<u8>>, HandFault>
        ensures agrees { (papers : Papers) →
            holds self.new papers ↔ holds self.old papers × LoadAgrees papers name.now result }
        ensures counted { failed self.old ≤ failed self.new }
        ensures cause { IfErr result (λ e. FaultCause (failed self.old) (failed self.new) e) };

    /// Puts bytes under a name, in place of what was there. After a failure either may be there.
    fn store(&mut self, name: &[u8], bytes: &[u8]) -> Result<(), HandFault>
        // What it may hold has come of something that it may have held.
        ensures agrees { (papers : Papers) → holds self.new papers →
            (before : Papers) × holds self.old before × StoreAgrees before name.now bytes.now result papers }
        // Whatever it may have held has become something that it may hold.
        ensures follows { (before : Papers) → holds self.old before →
            (papers : Papers) × holds self.new papers × StoreAgrees before name.now bytes.now result papers }
        ensures counted { failed self.old ≤ failed self.new }
        ensures cause { IfErr result (λ e. FaultCause (failed self.old) (failed self.new) e) };

    /// How many calls failed for the device, up to 2^64 - 1. It takes no memory.
    fn failures(&self) -> u64
        ensures { result ≡ failed self.now };
}
