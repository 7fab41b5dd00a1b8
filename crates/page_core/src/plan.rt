//! Which pages of a changed part are written.

ghost use Rattle.std.specs.Prelude.{◌≡◌, ◌↔◌, ◌+◌, ◌<◌, ◌++◌, ◌∷◌, [], IsTrue, OnOk, length, min, take, drop};
ghost use Rattle.device_core.specs.declared.hand.Stamp.{Stamp as AStamp};
ghost use Rattle.page_core.specs.declared.plan.PageWrite.{PageWrite as AWrite};
ghost use Rattle.page_core.specs.Plans.{AddsPlan};

use crate::file_bytes::FileBytes;
use device_core::hand::Stamp;
use std::alloc::{AllocError, Global};

/// What stands in a list where a page is still to be written.
const NO_STAMP: Stamp = Stamp { number: 0, len: 0 };

/// A page that is written into a file of its own.
#[derive(Drop)]
pub struct PageWrite {
    /// Its place in the new list.
    pub place: usize,
    /// Its bytes.
    pub bytes: FileBytes,
}

/// What is planned for parts, one behind the other.
#[derive(Drop)]
pub struct Planned {
    /// The stamps of the new lists. Any stamp stands where a page is still to be written.
    pub stamps: Vec<Stamp>,
    /// The pages that are written.
    pub writes: Vec<PageWrite>,
    /// The stamps of the old lists that go.
    pub gone: Vec<Stamp>,
}

// Adds a stamp.
fn add(stamps: &mut Vec<Stamp>, stamp: &Stamp) -> Result<(), AllocError>
    ensures { OnOk result (stamps.new.items ≡ stamps.old.items ++ stamp.now ∷ []) }
{
    stamps.push(*stamp)?;
    Ok(())
}

// Adds a write.
fn push(writes: &mut Vec<PageWrite>, place: usize, bytes: FileBytes) -> Result<(), AllocError>
    ensures { OnOk result ((write : AWrite) × (write.place ≡ place) × (write.bytes ≡ bytes)
        × (writes.new.items ≡ writes.old.items ++ write ∷ [])) }
{
    match writes.push(PageWrite { place, bytes }) {
        Ok(()) => Ok(()),
        Err(_) => Err(AllocError),
    }
}

// A page of the new bytes is written.
fn write_page(
    alloc: Global,
    page: &[u8],
    stamps: &mut Vec<Stamp>,
    writes: &mut Vec<PageWrite>,
) -> Result<(), AllocError>
    ensures stamps { OnOk result ((stamp : AStamp) × (stamps.new.items ≡ stamps.old.items ++ stamp ∷ [])) }
    ensures writes { OnOk result ((write : AWrite) × (write.place ≡ length stamps.old.items) × (write.bytes ≡ page.now)
        × (writes.new.items ≡ writes.old.items ++ write ∷ [])) }
{
    let bytes = FileBytes::new(page.to_vec(alloc)?);
    push(writes, stamps.len(), bytes)?;
    add(stamps, &NO_STAMP)
}

// Adds stamps.
fn add_all(gone: &mut Vec<Stamp>, old: &[Stamp]) -> Result<(), AllocError>
    ensures { OnOk result (gone.new.items ≡ gone.old.items ++ old.now) }
{
    gone.extend_from_slice(old)
}

// The first page of some bytes, and what stands behind it.
fn first_page(size: usize, bytes: &[u8]) -> (&[u8], &[u8])
    ensures whole { bytes.now ≡ result.0.now ++ result.1.now }
    ensures len { length result.0.now ≡ min size (length bytes.now) }
{
    bytes.split_at(size.min(bytes.len()))
}

// So many first bytes, and what stands behind them: where there are fewer, all of them.
fn old_page(len: usize, bytes: &[u8]) -> (&[u8], &[u8])
    ensures page { result.0.now ≡ take len bytes.now }
    ensures rest { result.1.now ≡ drop len bytes.now }
{
    bytes.split_at(len.min(bytes.len()))
}

// Whether both are the same bytes.
fn is_same(first: &[u8], second: &[u8]) -> bool
    ensures { IsTrue result ↔ (first.now ≡ second.now) }
{
    first == second
}

/// Adds the plan for a part, from its old pages, their bytes and its new bytes, in pages of `size` bytes: the stamps
/// of the new list, what is written, and the stamps that go. Of the bytes before, each old page has as many as its
/// stamp says, as far as they go. The error is that memory was refused.
pub fn plan_part(
    alloc: Global,
    size: usize,
    old: &[Stamp],
    before: &[u8],
    after: &[u8],
    planned: &mut Planned,
) -> Result<(), AllocError>
    requires size { 0 < size }
    ensures { OnOk result (AddsPlan size old.now before.now after.now planned.old planned.new) }
{
    if after.is_empty() {
        return add_all(&mut planned.gone, old);
    }
    let (page, rest) = first_page(size, after);
    match old.split_first() {
        None => {
            write_page(alloc, page, &mut planned.stamps, &mut planned.writes)?;
            plan_part(alloc, size, old, before, rest, planned)
        }
        Some((stamp, others)) => {
            let (was, later) = old_page(stamp.len, before);
            if is_same(was, page) {
                add(&mut planned.stamps, stamp)?;
                return plan_part(alloc, size, others, later, rest, planned);
            }
            add(&mut planned.gone, stamp)?;
            write_page(alloc, page, &mut planned.stamps, &mut planned.writes)?;
            plan_part(alloc, size, others, later, rest, planned)
        }
    }
}
