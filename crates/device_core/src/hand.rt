//! A device as its callers see it.

use thiserror::Error;

/// Why a call of a device failed.
#[derive(Clone, Copy, Debug, PartialEq, Eq, Error)]
pub enum HandFault {
    /// The device failed. Its count of failures rose in this call, or stood at its end.
    #[error("Device")]
    Device,
    /// Memory was refused.
    #[error("Memory")]
    Memory,
}

/// A file that is being written, by its number. It has to be sealed or discarded.
pub struct Pen {
    /// The number of the file.
    pub number: u64,
}

/// A sealed file, by its number and its length in bytes.
#[derive(Clone, Copy, Debug, PartialEq, Eq)]
pub struct Stamp {
    /// The number of the file.
    pub number: u64,
    /// Its length in bytes.
    pub len: usize,
}

/// A device that holds files by number. A file is written once, by a pen, and sealed; then it is read.
///
/// A hand is driven by one thread. The clauses carry the device premise from call to call: an assignment
/// agrees with the hand after a call exactly where it agreed before and agrees with that call. They say too
/// when a device is in order, so that a call does not fail for it, and what it can read then.
pub trait Hand {
    ghost use Rattle.std.specs.Prelude.{◌≡◌, ◌≢◌, ◌↔◌, ◌⊎◌, ◌+◌, ◌<◌, ◌≤◌, ◌++◌, [], List, ℕ, length, IfOk, IsOkAnd};
    ghost use Rattle.std.specs.Prelude.{OnOk, OnErr, IfErr};
    ghost use Rattle.device_core.specs.Device.{Assignment, SealAgrees, ReadAgrees, FaultCause, IsFree};
    ghost use Rattle.device_core.specs.Made.{Made, creates, appends, seals, discards, reads, retires, IsDeviceErr};
    ghost use Rattle.device_core.specs.Made.{IsSealErr};
    ghost use Rattle.device_core.specs.declared.hand.Stamp.{Stamp};

    /// The assignments that agree with each call so far.
    ghost agrees: { Self → Assignment → Type 0 };

    /// What was appended to a pen that is neither sealed nor discarded, as far as it is known.
    ghost pending: { Self → ℕ → List ℕ → Type 0 };

    /// The files that can be read while the device is in order.
    ghost serves: { Self → Stamp → Type 0 };

    /// The device is in order for so many calls of `create`, `append`, `seal`, `read` and `retire`.
    ghost works_for: { Self → ℕ → Type 0 };

    /// The next one of these calls fails for the device.
    ghost fails: { Self → Type 0 };

    /// What a call did: the hand before it, the call with its answer, and the hand after it. No law is known
    /// of it, so a hand that stands over another one can show it of that one only by making that very call.
    ghost makes: { Self → Made → Self → Type 0 };

    /// How often a call has failed for the device.
    ghost failed: { Self → ℕ };

    /// Begins a file, under a number that no other file has that is being written.
    fn create(&mut self) -> Result<Pen, HandFault>
        ensures pen { IfOk result (λ pen. pending self.new pen.number []) }
        ensures unused { IfOk result (λ pen. IsFree (agrees self.new) (pending self.old) pen.number) }
        ensures others { (n : ℕ) (b : List ℕ) → pending self.old n b → pending self.new n b }
        ensures earlier { (n : ℕ) (b : List ℕ) → pending self.new n b →
            pending self.old n b ⊎ IsOkAnd result (λ pen. pen.number ≡ n) }
        ensures agrees { (a : Assignment) → agrees self.new a ↔ agrees self.old a }
        ensures serves { (s : Stamp) → serves self.old s → serves self.new s }
        ensures works { (n : ℕ) → works_for self.old (n + 1) → works_for self.new n }
        ensures in_order { works_for self.old 1 → IsDeviceErr result → ⊥ }
        ensures fails { fails self.old → IsDeviceErr result }
        ensures makes { makes self.old (creates result) self.new }
        ensures rises { failed self.old < failed self.new → IsDeviceErr result }
        ensures counted { failed self.old ≤ failed self.new }
        ensures cause { IfErr result (λ e. FaultCause (failed self.old) (failed self.new) e) };

    /// Adds bytes to a file. A pen whose append failed can only be discarded.
    fn append(&mut self, pen: &mut Pen, bytes: &[u8]) -> Result<(), HandFault>
        ensures number { pen.new.number ≡ pen.old.number }
        ensures pen { OnOk result ((b : List ℕ) → pending self.old pen.old.number b →
            pending self.new pen.old.number (b ++ bytes.now)) }
        ensures others { (n : ℕ) (b : List ℕ) → n ≢ pen.old.number → pending self.old n b → pending self.new n b }
        ensures earlier { (n : ℕ) (b : List ℕ) → n ≢ pen.old.number → pending self.new n b → pending self.old n b }
        ensures agrees { (a : Assignment) → agrees self.new a ↔ agrees self.old a }
        ensures serves { (s : Stamp) → serves self.old s → serves self.new s }
        ensures works { (n : ℕ) → works_for self.old (n + 1) → works_for self.new n }
        ensures in_order { works_for self.old 1 → (b : List ℕ) → pending self.old pen.old.number b →
            IsDeviceErr result → ⊥ }
        ensures fails { fails self.old → IsDeviceErr result }
        ensures makes { makes self.old (appends pen.old.number bytes.now result) self.new }
        ensures rises { failed self.old < failed self.new → IsDeviceErr result }
        ensures counted { failed self.old ≤ failed self.new }
        ensures cause { IfErr result (λ e. FaultCause (failed self.old) (failed self.new) e) };

    /// Ends a file: from now on it can be read. A pen whose seal failed can only be discarded.
    fn seal(&mut self, pen: Pen) -> Result<Stamp, (Pen, HandFault)>
        ensures number { IfErr result (λ e. e.0.number ≡ pen.number) }
        ensures others { (n : ℕ) (b : List ℕ) → n ≢ pen.number → pending self.old n b → pending self.new n b }
        ensures earlier { (n : ℕ) (b : List ℕ) → n ≢ pen.number → pending self.new n b → pending self.old n b }
        ensures agrees { (b : List ℕ) → pending self.old pen.number b → (a : Assignment) →
            agrees self.new a ↔ agrees self.old a × SealAgrees a b result }
        ensures kept { (a : Assignment) → agrees self.new a → agrees self.old a }
        ensures failing { OnErr result ((a : Assignment) → agrees self.new a ↔ agrees self.old a) }
        ensures sealed { OnOk result (IsFree (agrees self.new) (pending self.new) pen.number) }
        ensures served { IfOk result (λ stamp. serves self.new stamp) }
        ensures serves { (s : Stamp) → serves self.old s → serves self.new s }
        ensures works { (n : ℕ) → works_for self.old (n + 1) → works_for self.new n }
        ensures in_order { works_for self.old 1 → (b : List ℕ) → pending self.old pen.number b → IsSealErr result → ⊥ }
        ensures fails { fails self.old → IsSealErr result }
        ensures makes { makes self.old (seals pen result) self.new }
        ensures rises { failed self.old < failed self.new → IsSealErr result }
        ensures counted { failed self.old ≤ failed self.new }
        ensures cause { IfErr result (λ e. FaultCause (failed self.old) (failed self.new) e.1) };

    /// Gives up a file. It takes no memory.
    fn discard(&mut self, pen: Pen)
        ensures others { (n : ℕ) (b : List ℕ) → n ≢ pen.number → pending self.old n b → pending self.new n b }
        ensures earlier { (n : ℕ) (b : List ℕ) → n ≢ pen.number → pending self.new n b → pending self.old n b }
        ensures agrees { (a : Assignment) → agrees self.new a ↔ agrees self.old a }
        ensures given_up { IsFree (agrees self.new) (pending self.new) pen.number }
        ensures serves { (s : Stamp) → serves self.old s → serves self.new s }
        ensures works { (n : ℕ) → works_for self.old n → works_for self.new n }
        ensures makes { makes self.old (discards pen) self.new }
        ensures counted { failed self.new ≡ failed self.old };

    /// Fills the slice with the bytes of a file that stand at this place. After a failure its content is open.
    fn read(&mut self, stamp: &Stamp, at: usize, into: &mut [u8]) -> Result<(), HandFault>
        requires { at + length into.old ≤ stamp.now.len }
        ensures others { (n : ℕ) (b : List ℕ) → pending self.old n b → pending self.new n b }
        ensures earlier { (n : ℕ) (b : List ℕ) → pending self.new n b → pending self.old n b }
        ensures agrees { (a : Assignment) →
            agrees self.new a ↔ agrees self.old a × ReadAgrees a stamp.now.number at into.new result }
        ensures serves { (s : Stamp) → serves self.old s → serves self.new s }
        ensures works { (n : ℕ) → works_for self.old (n + 1) → works_for self.new n }
        ensures in_order { works_for self.old 1 → serves self.old stamp.now → IsDeviceErr result → ⊥ }
        ensures fails { fails self.old → IsDeviceErr result }
        ensures makes { makes self.old (reads stamp.now at into.new result) self.new }
        ensures rises { failed self.old < failed self.new → IsDeviceErr result }
        ensures counted { failed self.old ≤ failed self.new }
        ensures cause { IfErr result (λ e. FaultCause (failed self.old) (failed self.new) e) };

    /// Says that a file is read no more. After a failure it may be left.
    fn retire(&mut self, stamp: &Stamp) -> Result<(), HandFault>
        ensures others { (n : ℕ) (b : List ℕ) → pending self.old n b → pending self.new n b }
        ensures earlier { (n : ℕ) (b : List ℕ) → pending self.new n b → pending self.old n b }
        ensures agrees { (a : Assignment) → agrees self.new a ↔ agrees self.old a }
        ensures serves { (s : Stamp) → s.number ≢ stamp.now.number → serves self.old s → serves self.new s }
        ensures works { (n : ℕ) → works_for self.old (n + 1) → works_for self.new n }
        ensures in_order { works_for self.old 1 → serves self.old stamp.now → IsDeviceErr result → ⊥ }
        ensures fails { fails self.old → IsDeviceErr result }
        ensures makes { makes self.old (retires stamp.now result) self.new }
        ensures rises { failed self.old < failed self.new → IsDeviceErr result }
        ensures counted { failed self.old ≤ failed self.new }
        ensures cause { IfErr result (λ e. FaultCause (failed self.old) (failed self.new) e) };

    /// How many calls failed for the device, up to 2^64 - 1. It takes no memory.
    fn failures(&self) -> u64
        ensures { result ≡ failed self.now };
}
