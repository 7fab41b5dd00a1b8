//! A hand that keeps its files in memory.

ghost use Rattle.std.specs.Prelude.{◌≡◌, [], ℕ};
ghost use Rattle.device_core.specs.Device.{Assignment, Failed};
ghost use Rattle.device_core.specs.Files.{HasFiles, files_of, failures_of, more_failures};

use crate::file;
use crate::file::File;
use crate::hand::{Hand, HandFault, Pen, Stamp};
use std::alloc::Global;

// A hand has so many files at most.
const MOST_FILES: u64 = 1 << 63;

/// Files in memory.
///
/// The hand numbers its files itself, from 1, and no number comes twice. It keeps the bytes of each file,
/// also of one that is retired or given up.
#[derive(Drop)]
pub struct MemHand {
    alloc: Global,
    files: Vec<File>,
    failures: u64,
}

impl MemHand {
    /// A hand with no files. It takes memory from `alloc`, by `create` and `append` alone.
    pub fn new(alloc: Global) -> Self
        ensures files { files_of result ≡ [] }
        ensures failures { failures_of result ≡ 0 }
    {
        MemHand {
            alloc,
            files: Vec::new(alloc),
            failures: 0,
        }
    }

    /// Some assignment agrees with all calls so far, so that no clause about such ones is empty.
    pub fn agrees_with_some(&self)
        ensures { (a : Assignment) × HasFiles (files_of self.now) a }
    {}

    // Counts a failure.
    fn fail(&mut self)
        ensures files { self.new.files.items ≡ self.old.files.items }
        ensures failures { self.new.failures ≡ more_failures self.old.failures HandFault.Device }
        ensures failed { Failed self.old.failures self.new.failures }
    {
        self.failures = self.failures.saturating_add(1);
    }
}

impl Hand for MemHand {
    ghost use Rattle.std.specs.Prelude.{◌≡◌, ◌≢◌, ◌↔◌, ◌⊎◌, ◌+◌, ◌^◌, ◌<◌, ◌≤◌, ◌++◌, [], List, ℕ, length, IfOk};
    ghost use Rattle.std.specs.Prelude.{IsOkAnd, OnOk, OnErr, IfErr};
    ghost use Rattle.std.specs.Result.{IsErrOf, IsErr};
    ghost use Rattle.device_core.specs.declared.file.State.TheVariants.{Open, Sealed, Retired, Discarded};
    ghost use Rattle.device_core.specs.Device.{Assignment, SealAgrees, ReadAgrees, FaultCause, IsFree};
    ghost use Rattle.device_core.specs.Made.{creates, appends, seals, discards, reads, retires, IsDeviceErr, IsSealErr};
    ghost use Rattle.device_core.specs.declared.hand.Stamp.{Stamp};
    ghost use Rattle.device_core.specs.MadeFiles.{Makes};
    ghost use Rattle.device_core.specs.Files.{HasFiles, IsOpen, IsKept, Serves, Becomes, files_of, failures_of};
    ghost use Rattle.device_core.specs.Files.{failures_after, more_failures};

    ghost agrees = { λ h a. HasFiles (files_of h) a };

    ghost pending = { λ h n b. IsOpen (files_of h) n b };

    ghost serves = { λ h s. Serves (files_of h) s };

    ghost works_for = { λ h n. Unit {0} };

    ghost fails = { λ h. ⊥ };

    ghost makes = { λ h call k. Makes (files_of h) (files_of k) call };

    ghost failed = { λ h. failures_of h };

    /// `Device` exactly at 2^63 files; `Memory` where memory is refused.
    fn create(&mut self) -> Result<Pen, HandFault>
        ensures pen { IfOk result (λ pen. IsOpen (files_of self.new) pen.number []) }
        ensures unused { IfOk result (λ pen.
            IsFree (HasFiles (files_of self.new)) (IsOpen (files_of self.old)) pen.number) }
        ensures others { (n : ℕ) (b : List ℕ) → IsOpen (files_of self.old) n b → IsOpen (files_of self.new) n b }
        ensures earlier { (n : ℕ) (b : List ℕ) → IsOpen (files_of self.new) n b →
            IsOpen (files_of self.old) n b ⊎ IsOkAnd result (λ pen. pen.number ≡ n) }
        ensures agrees { (a : Assignment) → HasFiles (files_of self.new) a ↔ HasFiles (files_of self.old) a }
        ensures serves { (s : Stamp) → Serves (files_of self.old) s → Serves (files_of self.new) s }
        ensures works { (n : ℕ) → Unit {0} → Unit {0} }
        ensures in_order { Unit {0} → IsDeviceErr result → ⊥ }
        ensures fails { ⊥ → IsDeviceErr result }
        ensures makes { Makes (files_of self.old) (files_of self.new) (creates result) }
        ensures rises { failures_of self.old < failures_of self.new → IsDeviceErr result }
        ensures counted { failures_of self.old ≤ failures_of self.new }
        ensures cause { IfErr result (λ e. FaultCause (failures_of self.old) (failures_of self.new) e) }
        ensures fresh { IfOk result (λ pen. pen.number ≡ length (files_of self.old) + 1) }
        ensures begins { OnOk result (Becomes (files_of self.old) (files_of self.new) (length (files_of self.old) + 1)
            Open []) }
        ensures more { OnOk result (length (files_of self.new) ≡ length (files_of self.old) + 1) }
        ensures same { OnErr result (files_of self.new ≡ files_of self.old) }
        ensures exact { IsErrOf result HandFault.Device ↔ 2 ^ 63 ≤ length (files_of self.old) }
        ensures failures { failures_of self.new ≡ failures_after (failures_of self.old) result }
    {
        if self.files.len() as u64 >= MOST_FILES {
            self.fail();
            return Err(HandFault::Device);
        }
        match file::add(&mut self.files, self.alloc) {
            Err(_) => Err(HandFault::Memory),
            Ok(()) => Ok(Pen {
                number: self.files.len() as u64,
            }),
        }
    }

    /// `Device` exactly where the pen is not open; `Memory` where memory is refused.
    fn append(&mut self, pen: &mut Pen, bytes: &[u8]) -> Result<(), HandFault>
        ensures number { pen.new.number ≡ pen.old.number }
        ensures pen { OnOk result ((b : List ℕ) → IsOpen (files_of self.old) pen.old.number b →
            IsOpen (files_of self.new) pen.old.number (b ++ bytes.now)) }
        ensures others { (n : ℕ) (b : List ℕ) → n ≢ pen.old.number → IsOpen (files_of self.old) n b →
            IsOpen (files_of self.new) n b }
        ensures earlier { (n : ℕ) (b : List ℕ) → n ≢ pen.old.number → IsOpen (files_of self.new) n b →
            IsOpen (files_of self.old) n b }
        ensures agrees { (a : Assignment) → HasFiles (files_of self.new) a ↔ HasFiles (files_of self.old) a }
        ensures serves { (s : Stamp) → Serves (files_of self.old) s → Serves (files_of self.new) s }
        ensures works { (n : ℕ) → Unit {0} → Unit {0} }
        ensures in_order { Unit {0} → (b : List ℕ) → IsOpen (files_of self.old) pen.old.number b → IsDeviceErr result →
            ⊥ }
        ensures fails { ⊥ → IsDeviceErr result }
        ensures makes { Makes (files_of self.old) (files_of self.new) (appends pen.old.number bytes.now result) }
        ensures rises { failures_of self.old < failures_of self.new → IsDeviceErr result }
        ensures counted { failures_of self.old ≤ failures_of self.new }
        ensures cause { IfErr result (λ e. FaultCause (failures_of self.old) (failures_of self.new) e) }
        ensures length { length (files_of self.new) ≡ length (files_of self.old) }
        ensures grows { OnOk result ((b : List ℕ) → IsOpen (files_of self.old) pen.old.number b →
            Becomes (files_of self.old) (files_of self.new) pen.old.number Open (b ++ bytes.now)) }
        ensures stays { OnErr result ((b : List ℕ) → IsOpen (files_of self.old) pen.old.number b →
            Becomes (files_of self.old) (files_of self.new) pen.old.number Open b) }
        ensures same { IsErrOf result HandFault.Device → files_of self.new ≡ files_of self.old }
        ensures exact { IsErrOf result HandFault.Device
            ↔ ((b : List ℕ) → IsOpen (files_of self.old) pen.old.number b → ⊥) }
        ensures failures { failures_of self.new ≡ failures_after (failures_of self.old) result }
    {
        match file::append(&mut self.files, pen.number, bytes) {
            None => {
                self.fail();
                Err(HandFault::Device)
            }
            Some(Err(_)) => Err(HandFault::Memory),
            Some(Ok(())) => Ok(()),
        }
    }

    /// `Device` exactly where the pen is not open.
    fn seal(&mut self, pen: Pen) -> Result<Stamp, (Pen, HandFault)>
        ensures number { IfErr result (λ e. e.0.number ≡ pen.number) }
        ensures others { (n : ℕ) (b : List ℕ) → n ≢ pen.number → IsOpen (files_of self.old) n b →
            IsOpen (files_of self.new) n b }
        ensures earlier { (n : ℕ) (b : List ℕ) → n ≢ pen.number → IsOpen (files_of self.new) n b →
            IsOpen (files_of self.old) n b }
        ensures agrees { (b : List ℕ) → IsOpen (files_of self.old) pen.number b → (a : Assignment) →
            HasFiles (files_of self.new) a ↔ HasFiles (files_of self.old) a × SealAgrees a b result }
        ensures kept { (a : Assignment) → HasFiles (files_of self.new) a → HasFiles (files_of self.old) a }
        ensures failing { OnErr result ((a : Assignment) →
            HasFiles (files_of self.new) a ↔ HasFiles (files_of self.old) a) }
        ensures served { IfOk result (λ stamp. Serves (files_of self.new) stamp) }
        ensures serves { (s : Stamp) → Serves (files_of self.old) s → Serves (files_of self.new) s }
        ensures works { (n : ℕ) → Unit {0} → Unit {0} }
        ensures in_order { Unit {0} → (b : List ℕ) → IsOpen (files_of self.old) pen.number b → IsSealErr result → ⊥ }
        ensures fails { ⊥ → IsSealErr result }
        ensures makes { Makes (files_of self.old) (files_of self.new) (seals pen result) }
        ensures rises { failures_of self.old < failures_of self.new → IsSealErr result }
        ensures sealed { OnOk result (IsFree (HasFiles (files_of self.new)) (IsOpen (files_of self.new)) pen.number) }
        ensures counted { failures_of self.old ≤ failures_of self.new }
        ensures cause { IfErr result (λ e. FaultCause (failures_of self.old) (failures_of self.new) e.1) }
        ensures length { length (files_of self.new) ≡ length (files_of self.old) }
        ensures seals { OnOk result ((b : List ℕ) → IsOpen (files_of self.old) pen.number b →
            Becomes (files_of self.old) (files_of self.new) pen.number Sealed b) }
        ensures same { OnErr result (files_of self.new ≡ files_of self.old) }
        ensures exact { IsErr result ↔ ((b : List ℕ) → IsOpen (files_of self.old) pen.number b → ⊥) }
        ensures fault { IfErr result (λ e. e.1 ≡ HandFault.Device) }
        ensures no_failure { OnOk result (failures_of self.new ≡ failures_of self.old) }
        ensures failure { IfErr result (λ e. failures_of self.new ≡ more_failures (failures_of self.old) e.1) }
    {
        match file::seal(&mut self.files, pen.number) {
            None => {
                self.fail();
                Err((pen, HandFault::Device))
            }
            Some(len) => {
                let Pen { number } = pen;
                Ok(Stamp { number, len })
            }
        }
    }

    /// A pen that is not open changes nothing.
    fn discard(&mut self, pen: Pen)
        ensures others { (n : ℕ) (b : List ℕ) → n ≢ pen.number → IsOpen (files_of self.old) n b →
            IsOpen (files_of self.new) n b }
        ensures earlier { (n : ℕ) (b : List ℕ) → n ≢ pen.number → IsOpen (files_of self.new) n b →
            IsOpen (files_of self.old) n b }
        ensures agrees { (a : Assignment) → HasFiles (files_of self.new) a ↔ HasFiles (files_of self.old) a }
        ensures serves { (s : Stamp) → Serves (files_of self.old) s → Serves (files_of self.new) s }
        ensures works { (n : ℕ) → Unit {0} → Unit {0} }
        ensures makes { Makes (files_of self.old) (files_of self.new) (discards pen) }
        ensures given_up { IsFree (HasFiles (files_of self.new)) (IsOpen (files_of self.new)) pen.number }
        ensures counted { failures_of self.new ≡ failures_of self.old }
        ensures length { length (files_of self.new) ≡ length (files_of self.old) }
        ensures ends { (b : List ℕ) → IsOpen (files_of self.old) pen.number b →
            Becomes (files_of self.old) (files_of self.new) pen.number Discarded b }
        ensures same { ((b : List ℕ) → IsOpen (files_of self.old) pen.number b → ⊥) →
            files_of self.new ≡ files_of self.old }
    {
        let Pen { number } = pen;
        file::discard(&mut self.files, number);
    }

    /// `Device` exactly where the stamp's file was not sealed here, is retired or is shorter than the stamp.
    fn read(&mut self, stamp: &Stamp, at: usize, into: &mut [u8]) -> Result<(), HandFault>
        requires { at + length into.old ≤ stamp.now.len }
        ensures others { (n : ℕ) (b : List ℕ) → IsOpen (files_of self.old) n b → IsOpen (files_of self.new) n b }
        ensures earlier { (n : ℕ) (b : List ℕ) → IsOpen (files_of self.new) n b → IsOpen (files_of self.old) n b }
        ensures agrees { (a : Assignment) →
            HasFiles (files_of self.new) a
            ↔ HasFiles (files_of self.old) a × ReadAgrees a stamp.now.number at into.new result }
        ensures serves { (s : Stamp) → Serves (files_of self.old) s → Serves (files_of self.new) s }
        ensures works { (n : ℕ) → Unit {0} → Unit {0} }
        ensures in_order { Unit {0} → Serves (files_of self.old) stamp.now → IsDeviceErr result → ⊥ }
        ensures fails { ⊥ → IsDeviceErr result }
        ensures makes { Makes (files_of self.old) (files_of self.new) (reads stamp.now at into.new result) }
        ensures rises { failures_of self.old < failures_of self.new → IsDeviceErr result }
        ensures counted { failures_of self.old ≤ failures_of self.new }
        ensures cause { IfErr result (λ e. FaultCause (failures_of self.old) (failures_of self.new) e) }
        ensures same { files_of self.new ≡ files_of self.old }
        ensures exact { IsErrOf result HandFault.Device
            ↔ ((b : List ℕ) → IsKept (files_of self.old) stamp.now.number b → length b < stamp.now.len) }
        ensures fault { IfErr result (λ e. e ≡ HandFault.Device) }
        ensures failures { failures_of self.new ≡ failures_after (failures_of self.old) result }
    {
        if file::read(&self.files, stamp.number, stamp.len, at, into) {
            return Ok(());
        }
        self.fail();
        Err(HandFault::Device)
    }

    /// `Device` exactly where a read of the stamp has it. The bytes stay.
    fn retire(&mut self, stamp: &Stamp) -> Result<(), HandFault>
        ensures others { (n : ℕ) (b : List ℕ) → IsOpen (files_of self.old) n b → IsOpen (files_of self.new) n b }
        ensures earlier { (n : ℕ) (b : List ℕ) → IsOpen (files_of self.new) n b → IsOpen (files_of self.old) n b }
        ensures agrees { (a : Assignment) → HasFiles (files_of self.new) a ↔ HasFiles (files_of self.old) a }
        ensures serves { (s : Stamp) → s.number ≢ stamp.now.number → Serves (files_of self.old) s →
            Serves (files_of self.new) s }
        ensures works { (n : ℕ) → Unit {0} → Unit {0} }
        ensures in_order { Unit {0} → Serves (files_of self.old) stamp.now → IsDeviceErr result → ⊥ }
        ensures fails { ⊥ → IsDeviceErr result }
        ensures makes { Makes (files_of self.old) (files_of self.new) (retires stamp.now result) }
        ensures rises { failures_of self.old < failures_of self.new → IsDeviceErr result }
        ensures counted { failures_of self.old ≤ failures_of self.new }
        ensures cause { IfErr result (λ e. FaultCause (failures_of self.old) (failures_of self.new) e) }
        ensures length { length (files_of self.new) ≡ length (files_of self.old) }
        ensures retires { OnOk result ((b : List ℕ) → IsKept (files_of self.old) stamp.now.number b →
            Becomes (files_of self.old) (files_of self.new) stamp.now.number Retired b) }
        ensures same { OnErr result (files_of self.new ≡ files_of self.old) }
        ensures exact { IsErrOf result HandFault.Device
            ↔ ((b : List ℕ) → IsKept (files_of self.old) stamp.now.number b → length b < stamp.now.len) }
        ensures fault { IfErr result (λ e. e ≡ HandFault.Device) }
        ensures failures { failures_of self.new ≡ failures_after (failures_of self.old) result }
    {
        if file::retire(&mut self.files, stamp.number, stamp.len) {
            return Ok(());
        }
        self.fail();
        Err(HandFault::Device)
    }

    fn failures(&self) -> u64 {
        self.failures
    }
}
