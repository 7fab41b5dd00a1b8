//! Public calls that no program makes: they are there for laws and tests, off the path of a call.

ghost use Rattle.std.specs.Prelude.{◌≡◌, ◌≢◌, ◌↔◌, [], IsTrue, IfOk};
ghost use Rattle.std.specs.Result.{IsOk, IsErrOf};
ghost use Rattle.page_core.specs.Cut.{together, AreCutLengths, lengths};
ghost use Rattle.page_core.specs.Faults.{page_fault_number, page_fault_name};
ghost use Rattle.page_core.specs.Opened.{open_fault_number, open_fault_name};
ghost use Rattle.page_core.specs.Saved.{save_fault_number, save_fault_name};

use crate::cut::{are_full, page_size, total};
use crate::fault::PageFault;
use crate::open::OpenFault;
use crate::page_list::PageList;
use crate::save::SaveFault;
use device_core::hand::Stamp;

// Whether so many bytes are cut into pages as long as these files.
#[tactic(auto, using(crate::proofs::Cuts::is_cut_by, crate::proofs::Cuts::no_cut_by))]
fn is_cut_of(count: usize, stamps: &[Stamp]) -> bool
    requires { count ≡ together (lengths stamps.now) }
    ensures { IsTrue result ↔ AreCutLengths (lengths stamps.now) }
{
    if count == 0 {
        return false;
    }
    match page_size(count) {
        None => false,
        Some(size) => are_full(size, stamps),
    }
}

/// Whether the lengths of these files are those of the pages into which as many bytes are cut. It takes no memory.
pub fn is_cut(stamps: &[Stamp]) -> bool
    ensures { IsTrue result ↔ AreCutLengths (lengths stamps.now) }
{
    match total(stamps) {
        None => false,
        Some(count) => is_cut_of(count, stamps),
    }
}

impl PageList {
    /// The page list that is these stamps.
    #[tactic(auto, using(crate::proofs::Stamps::few_stamps))]
    pub fn new(stamps: &[Stamp]) -> Result<PageList, PageFault>
        ensures shown { IfOk result (λ list. list ≡ stamps.now) }
        // It is refused exactly where there is no stamp, and where the lengths are those of no cut.
        ensures cut { IsOk result ↔ AreCutLengths (lengths stamps.now) }
        ensures empty { IsErrOf result PageFault.Empty ↔ (stamps.now ≡ []) }
        ensures bad_length { IsErrOf result PageFault.BadLength
            ↔ ((stamps.now ≢ []) × (AreCutLengths (lengths stamps.now) → ⊥)) }
    {
        if stamps.is_empty() {
            return Err(PageFault::Empty);
        }
        if !is_cut(stamps) {
            return Err(PageFault::BadLength);
        }
        Ok(PageList::of(stamps))
    }
}

impl PageFault {
    /// The number of the fault: 1 or 2.
    pub fn number(&self) -> u8
        ensures { result ≡ page_fault_number self.now }
    {
        match self {
            PageFault::Empty => 1,
            PageFault::BadLength => 2,
        }
    }

    /// The name of the fault, as in `Empty`.
    pub fn name(&self) -> &'static str
        ensures { result.now ≡ page_fault_name self.now }
    {
        match self {
            PageFault::Empty => "Empty",
            PageFault::BadLength => "BadLength",
        }
    }
}

impl OpenFault {
    /// The number of the fault: 1 to 3.
    pub fn number(&self) -> u8
        ensures { result ≡ open_fault_number self.now }
    {
        match self {
            OpenFault::Damaged(_) => 1,
            OpenFault::Device => 2,
            OpenFault::Memory => 3,
        }
    }

    /// The name of the fault, as in `Damaged`.
    pub fn name(&self) -> &'static str
        ensures { result.now ≡ open_fault_name self.now }
    {
        match self {
            OpenFault::Damaged(_) => "Damaged",
            OpenFault::Device => "Device",
            OpenFault::Memory => "Memory",
        }
    }
}

impl SaveFault {
    /// The number of the fault: 1 to 3.
    pub fn number(&self) -> u8
        ensures { result ≡ save_fault_number self.now }
    {
        match self {
            SaveFault::Damaged(_) => 1,
            SaveFault::Device(_) => 2,
            SaveFault::Memory => 3,
        }
    }

    /// The name of the fault, as in `Damaged`.
    pub fn name(&self) -> &'static str
        ensures { result.now ≡ save_fault_name self.now }
    {
        match self {
            SaveFault::Damaged(_) => "Damaged",
            SaveFault::Device(_) => "Device",
            SaveFault::Memory => "Memory",
        }
    }
}
