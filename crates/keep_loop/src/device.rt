//! A file as a journal sees it: what a read returns, and what a crash may leave at each moment. What a disk has to do
//! for a journal to be safe on it are the clauses of `Device`; whether a real one does is no more than a premise.

ghost use Rattle.std.specs.Prelude.{◌≡◌, ◌≤◌, ◌+◌, List, ℕ, Option, Some, true, false, length, IfOk, OnOk};
ghost use Rattle.keep_loop.specs.declared.device.DeviceError.TheVariants.{Memory};
ghost use Rattle.keep_loop.specs.Device.{Only, IsOnDisk, IsChanged, IsAtMost, Writes, Replaces, with_bytes, Elapses};
ghost use Rattle.keep_loop.specs.Device.{HasCause};

use std::alloc::{AllocError, AllocFailed, Global};

/// Why a call of a device or of a journal failed.
#[derive(Clone, Copy, Debug, PartialEq, Eq)]
pub enum DeviceError {
    /// Memory was refused.
    Memory,
    /// The disk failed: its count of faults has risen.
    Failed,
    /// The file has no room for these lines. A journal tells it, a device never does.
    Full,
}

impl From<AllocError> for DeviceError {
    ghost from_gives = { λ _ e. e ≡ Memory };

    fn from(_: AllocError) -> Self {
        DeviceError::Memory
    }
}

impl<T: Drop> From<AllocFailed<T>> for DeviceError {
    ghost from_gives = { λ _ e. e ≡ Memory };

    fn from(_: AllocFailed<T>) -> Self {
        DeviceError::Memory
    }
}

/// A file of a fixed length, and what a crash may leave of it.
pub trait Device {
    /// The bytes that a read returns, where they are known: of a file in a folder nothing is known.
    ghost seen: { Self → Option (List ℕ) };

    /// What a crash at this moment may leave.
    ghost may_leave: { Self → List ℕ → Type 0 };

    /// The moment, as a number that doesn't fall.
    ghost moment: { Self → ℕ };

    /// What a crash at some moment from that one on might have left, during a call or between two.
    ghost left_since: { Self → ℕ → List ℕ → Type 0 };

    /// How often the disk has failed.
    ghost faults: { Self → ℕ };

    /// All its bytes. Nothing changes.
    fn read(&mut self, alloc: Global) -> Result<Vec<u8>, DeviceError>
        ensures bytes { IfOk result (λ bytes. IsAtMost bytes.items (seen self.old)) }
        ensures seen { seen self.new ≡ seen self.old }
        ensures crash { (c : List ℕ) → may_leave self.new c → may_leave self.old c }
        ensures time { Elapses (moment self.old) (moment self.new) (left_since self.old) (left_since self.new)
            (may_leave self.new) }
        ensures cause { HasCause (faults self.old) (faults self.new) result };

    /// Writes over what is there, within its length, from the byte `at` on. Until a sync, a crash may leave each byte
    /// as it was or as it was to be; so it may after an `Err`.
    fn write_at(&mut self, at: usize, bytes: &[u8]) -> Result<(), DeviceError>
        requires { (file : List ℕ) → seen self.old ≡ Some file → at + length bytes.now ≤ length file }
        ensures written { OnOk result (IsChanged (with_bytes at bytes.now) (seen self.old) (seen self.new)) }
        ensures crash { Writes at bytes.now (may_leave self.old) (may_leave self.new) }
        ensures time { Elapses (moment self.old) (moment self.new) (left_since self.old) (left_since self.new)
            (may_leave self.new) }
        ensures cause { HasCause (faults self.old) (faults self.new) result };

    /// Has all that was written go to the disk: after it, a crash leaves what a read returns. After an `Err` nobody
    /// knows which bytes are there, and a later sync may answer `Ok` without them: none is tried.
    fn sync(&mut self) -> Result<(), DeviceError>
        ensures durable { OnOk result (IsOnDisk (seen self.old) (may_leave self.new)) }
        ensures seen { OnOk result (seen self.new ≡ seen self.old) }
        ensures crash { (c : List ℕ) → may_leave self.new c → may_leave self.old c }
        ensures time { Elapses (moment self.old) (moment self.new) (left_since self.old) (left_since self.new)
            (may_leave self.new) }
        ensures cause { HasCause (faults self.old) (faults self.new) result };

    /// Puts other bytes, as many as are given, in place of all that is there, in one step: a file beside it, a sync, a
    /// renaming, and a sync of the folder. `false`: it could not, as where the disk is full, and the file is as it was.
    /// A crash leaves the one or the other, after an `Err` too; after `true` the new bytes alone, after `false` what it
    /// might have left before.
    fn replace(&mut self, bytes: &[u8]) -> Result<bool, DeviceError>
        ensures replaced { IfOk result (λ went. went ≡ true → IsChanged (λ _. bytes.now) (seen self.old) (seen self.new)) }
        ensures durable { IfOk result (λ went. went ≡ true → Only bytes.now (may_leave self.new)) }
        ensures kept { IfOk result (λ went. went ≡ false → seen self.new ≡ seen self.old) }
        ensures kept_crash { IfOk result (λ went. went ≡ false →
            ((c : List ℕ) → may_leave self.new c → may_leave self.old c)) }
        ensures crash { Replaces bytes.now (may_leave self.old) (may_leave self.new) }
        ensures time { Elapses (moment self.old) (moment self.new) (left_since self.old) (left_since self.new)
            (may_leave self.new) }
        ensures cause { HasCause (faults self.old) (faults self.new) result };

    /// This moment is one of those since an earlier one.
    ghost counts_now: { (file : Self) (t : ℕ) (c : List ℕ) → t ≤ moment file → may_leave file c → left_since file t c };

    /// Since this moment there is no other.
    ghost only_now: { (file : Self) (c : List ℕ) → left_since file (moment file) c → may_leave file c };
}
