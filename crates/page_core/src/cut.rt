//! How bytes are cut into pages.

ghost use Rattle.std.specs.Prelude.{◌≡◌, ◌↔◌, ℕ, ◌<◌, ◌≤◌, ◌^◌, IsTrue, IfSome, IfNone, length};
ghost use Rattle.page_core.specs.Cut.{IsFirstFor, IsPageSize, together, IsLength, AreFull, lengths};

use device_core::hand::Stamp;

/// The most pages of a part.
pub const MOST_PAGES: usize = 8;

/// The sizes that a page may have, in bytes, rising.
const SIZES: [usize; 9] = [
    1_024, 2_048, 4_096, 8_192, 16_384, 32_768, 65_536, 131_072, 262_144,
];

// The first of these sizes of which 8 pages hold so many bytes.
fn first_for(count: usize, sizes: &[usize]) -> Option<usize>
    ensures some { IfSome result (IsFirstFor count sizes.now) }
    ensures none { IfNone result ((size : ℕ) → IsFirstFor count sizes.now size → ⊥) }
{
    let (first, more) = sizes.split_first()?;
    if count <= first.saturating_mul(MOST_PAGES) {
        return Some(*first);
    }
    first_for(count, more)
}

/// The size of the pages into which so many bytes are cut, or `None` where 8 of the longest do not hold them.
pub fn page_size(count: usize) -> Option<usize>
    ensures some { IfSome result (IsPageSize count) }
    ensures none { IfNone result ((size : ℕ) → IsPageSize count size → ⊥) }
{
    first_for(count, &SIZES)
}

/// How many bytes these files have together, where a `usize` can tell, else `None`.
pub fn total(stamps: &[Stamp]) -> Option<usize>
    ensures some { IfSome result (λ count. count ≡ together (lengths stamps.now)) }
    ensures none { IfNone result (2 ^ 64 ≤ together (lengths stamps.now)) }
{
    match stamps.split_first() {
        None => Some(0),
        Some((first, more)) => match total(more) {
            None => None,
            Some(count) => count.checked_add(first.len),
        },
    }
}

// Whether a page of this length may stand before these.
fn is_length(size: usize, len: usize, more: &[Stamp]) -> bool
    ensures { IsTrue result ↔ IsLength size len (lengths more.now) }
{
    match more {
        [] => 0 < len && len <= size,
        _ => len == size,
    }
}

/// Whether all these files have this length but the last, which has one byte at least and no more than this.
pub fn are_full(size: usize, stamps: &[Stamp]) -> bool
    ensures { IsTrue result ↔ AreFull size (lengths stamps.now) }
{
    match stamps.split_first() {
        None => true,
        Some((first, more)) => is_length(size, first.len, more) && are_full(size, more),
    }
}
