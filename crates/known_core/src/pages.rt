//! Which pages of the parts are known.

ghost use Rattle.std.specs.Prelude.{◌≡◌, ◌≢◌, ◌+◌, ◌<◌, ◌≤◌, ◌↔◌, ℕ, length, if◌then◌else◌, slice_index};
ghost use Rattle.std.specs.Int.{bit_at};
ghost use Rattle.decl_core.specs.Bodies.{body_of};
ghost use Rattle.decl_core.specs.Touched.{Reads};
ghost use Rattle.known_core.specs.Masks.{known_by, IsOneMore, unread};
ghost use Rattle.known_core.specs.Wanted.{are_integers, AreFull, AreMasksFor, IsWanted, IsFitOf};

use apply_core::page::page_of;
use decl_core::footprint::{is_in, reads};
use decl_core::id::{MOST_PARTS, PartId};
use decl_core::object::Operation;
use std::marker::Model;
use value_core::kind::{Elem, Kind};

/// Which pages of each part are known: bit k of the mask of part p stands for page k. They are copied without memory.
#[derive(Clone, Copy)]
pub struct Pages {
    masks: [u16; MOST_PARTS],
}

impl Model for Pages {
    ghost use Rattle.std.specs.Prelude.{List, ℕ};

    ghost Value = { List ℕ };

    ghost use Rattle.known_core.specs.PageRow.{masks_of, AreMasks, row_of, row_again};

    ghost view = { masks_of };

    ghost invariant = { AreMasks };

    ghost inverse = { row_of };

    ghost inverse_ok = { row_again };
}

// The mask of a part of which each page is known.
const ALL: u16 = 255;

// The mask of a part of which the first page is known.
const FIRST: u16 = 1;

// The mask of a part of this kind, where that of an array of integers is given.
fn mask_for(kind: Kind, mask: u16) -> u16
    ensures { result ≡ (if are_integers kind then mask else 255) }
{
    match kind {
        Kind::Array(_, Elem::Integer) => mask,
        _ => ALL,
    }
}

// The mask of a part, where that of an array of integers that the operation reads is given.
fn fit_mask(operation: &Operation, reads: u16, part: usize, mask: u16) -> u16
    requires part { part < length operation.now.kinds.items }
    requires bits { (p : ℕ) → (bit_at reads p ≡ 1) ↔ Reads (body_of operation.now).statements p }
    ensures { IsFitOf operation.now part mask result }
{
    if !is_in(part, reads) {
        return ALL;
    }
    match operation.kinds[part] {
        Some(kind) => mask_for(kind, mask),
        None => ALL,
    }
}

impl Pages {
    /// All pages of all parts.
    pub fn full() -> Pages
        ensures full { AreFull result }
        ensures all { (p : ℕ) → p < 16 → slice_index result p ≡ 255 }
        ensures few { unread result ≤ 128 }
    {
        Pages {
            masks: [ALL; MOST_PARTS],
        }
    }

    /// These, where of this part the first page alone is known. PartValues count from 0, below 16.
    pub fn front(self, part: usize) -> Pages
        requires { part < 16 }
        ensures first { slice_index result part ≡ 1 }
        ensures others { (p : ℕ) → p ≢ part → slice_index result p ≡ slice_index self p }
        ensures few { unread result ≤ 128 }
    {
        let mut masks = self.masks;
        masks[part] = FIRST;
        Pages { masks }
    }

    /// These, where all pages are known of each part that is no array of integers that the operation reads.
    pub fn fit(self, operation: &Operation) -> Pages
        ensures masks { AreMasksFor operation.now result }
        ensures same { (p : ℕ) → IsWanted operation.now p → slice_index result p ≡ slice_index self p }
        ensures others { (p : ℕ) → p < 16 → (IsWanted operation.now p → ⊥) → slice_index result p ≡ 255 }
        // Where that is so already, they are the same.
        ensures kept { ((p : ℕ) → p < 16 → (IsWanted operation.now p → ⊥) → slice_index self p ≡ 255) → result ≡ self }
    {
        let reads = reads(operation);
        let mut masks = [ALL; MOST_PARTS];
        for part in 0..operation.kinds.len() {
            masks[part] = fit_mask(operation, reads, part, self.masks[part]);
        }
        Pages { masks }
    }

    // The mask of a part.
    fn mask(&self, part: usize) -> u16
        requires { part < 16 }
        ensures { result ≡ slice_index self.now part }
    {
        self.masks[part]
    }

    /// Whether the page of this element is known. Elements count from 0; a page has 1,024 bytes, the header and each
    /// element four.
    pub fn has(&self, part: PartId, index: u32) -> bool
        ensures { result ≡ known_by self.now part index }
    {
        let mask = self.mask(part.place() as usize);
        let page = page_of(index);
        if page >= 16 {
            return false;
        }
        is_in(page, mask)
    }

    /// These, and this page, which was not known. Pages count from 0, below 8.
    pub fn with(self, part: usize, page: usize) -> Pages
        requires part { part < 16 }
        requires page { page < 8 }
        requires new { bit_at (slice_index self part) page ≡ 0 }
        ensures more { IsOneMore self result part page }
        // So no more pages are read one after the other than are not known at first.
        ensures falls { unread result + 1 ≡ unread self }
    {
        let mut masks = self.masks;
        masks[part] |= 1 << page;
        Pages { masks }
    }
}
