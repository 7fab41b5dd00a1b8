//! A shelf in memory.

ghost use Rattle.std.specs.Prelude.{◌≡◌, IfOk, OnOk, OnErr};
ghost use Rattle.std.specs.FinMap as map;
ghost use Rattle.device_core.specs.Papers.{found_bytes};
ghost use Rattle.device_core.specs.MemShelf.{papers_of};

use crate::hand::HandFault;
use crate::shelf::Shelf;
use std::alloc::{AllocError, Global};
use std::collections::BTreeMap;
use std::marker::Model;

/// A store of bytes under names, in memory. It never fails for a device; where memory is refused, nothing
/// changes.
#[derive(Drop)]
pub struct MemShelf {
    papers: BTreeMap<Vec<u8>, Vec<u8>>,
    alloc: Global,
}

impl Model for MemShelf {
    ghost use Rattle.std.specs.Coded.{coded_list, coded_ℕ};
    ghost use Rattle.std.specs.FinMap as map;
    ghost use Rattle.device_core.specs.Papers.{Papers};
    ghost use Rattle.device_core.specs.MemShelf.{papers_of};

    ghost Value = { Papers };

    ghost coded = { map.code (coded_list coded_ℕ) (coded_list coded_ℕ) };

    ghost view = { λ a. papers_of a.papers };
}

impl MemShelf {
    /// A shelf that holds nothing. It takes no memory.
    pub fn new(alloc: Global) -> MemShelf
        ensures { result ≡ map.empty }
    {
        MemShelf {
            papers: BTreeMap::new(alloc),
            alloc,
        }
    }
}

// A copy of what stands under a name.
fn copy_of(
    alloc: Global,
    papers: &BTreeMap<Vec<u8>, Vec<u8>>,
    name: &[u8],
) -> Result<Option<Vec<u8>>, AllocError>
    ensures { IfOk result (λ found. found_bytes found ≡ map.get (papers_of papers.now) name.now) }
{
    match papers.get(name) {
        Some(bytes) => {
            let copy = bytes.to_vec(alloc)?;
            Ok(Some(copy))
        }
        None => Ok(None),
    }
}

// Puts a copy of bytes under a name, in place of what was there.
fn keep(
    alloc: Global,
    papers: &mut BTreeMap<Vec<u8>, Vec<u8>>,
    name: &[u8],
    bytes: &[u8],
) -> Result<(), AllocError>
    ensures ok { OnOk result (papers_of papers.new ≡ map.insert (papers_of papers.old) name.now bytes.now) }
    ensures err { OnErr result (papers_of papers.new ≡ papers_of papers.old) }
{
    let key = name.to_vec(alloc)?;
    let copy = bytes.to_vec(alloc)?;
    let _before = papers.insert(key, copy)?;
    Ok(())
}

impl Shelf for MemShelf {
    ghost use Rattle.std.specs.Prelude.{◌≡◌, ◌↔◌, ◌≤◌, List, ℕ, IfOk, OnOk, OnErr, IfErr};
    ghost use Rattle.std.specs.FinMap as map;
    ghost use Rattle.device_core.specs.Device.{FaultCause};
    ghost use Rattle.device_core.specs.Papers.{Papers, found_bytes, LoadAgrees, StoreAgrees};

    ghost holds = { λ s papers. papers ≡ s };

    ghost failed = { λ _. 0 };

    fn load(&mut self, alloc: Global, name: &[u8]) -> Result<Option<Vec<u8>>, HandFault>
        ensures agrees { (papers : Papers) →
            (papers ≡ self.new) ↔ (papers ≡ self.old) × LoadAgrees papers name.now result }
        ensures counted { 0 ≤ 0 }
        ensures cause { IfErr result (λ e. FaultCause 0 0 e) }
        // What this shelf promises besides: a copy of what was last stored, and only memory can be refused.
        ensures found { IfOk result (λ found. found_bytes found ≡ map.get self.old name.now) }
        ensures unchanged { self.new ≡ self.old }
        ensures memory { IfErr result (λ e. e ≡ HandFault.Memory) }
    {
        match copy_of(alloc, &self.papers, name) {
            Ok(found) => Ok(found),
            Err(_) => Err(HandFault::Memory),
        }
    }

    fn store(&mut self, name: &[u8], bytes: &[u8]) -> Result<(), HandFault>
        ensures agrees { (papers : Papers) → papers ≡ self.new →
            (before : Papers) × (before ≡ self.old) × StoreAgrees before name.now bytes.now result papers }
        ensures follows { (before : Papers) → before ≡ self.old →
            (papers : Papers) × (papers ≡ self.new) × StoreAgrees before name.now bytes.now result papers }
        ensures counted { 0 ≤ 0 }
        ensures cause { IfErr result (λ e. FaultCause 0 0 e) }
        // What this shelf promises besides: the bytes are there or nothing changed, and only memory can be refused.
        ensures stored { OnOk result (self.new ≡ map.insert self.old name.now bytes.now) }
        ensures unchanged { OnErr result (self.new ≡ self.old) }
        ensures memory { IfErr result (λ e. e ≡ HandFault.Memory) }
    {
        match keep(self.alloc, &mut self.papers, name, bytes) {
            Ok(()) => Ok(()),
            Err(_) => Err(HandFault::Memory),
        }
    }

    fn failures(&self) -> u64 {
        0
    }
}
