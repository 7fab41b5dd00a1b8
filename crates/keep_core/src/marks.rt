//! Whether each entry of a history has a slip.

ghost use Rattle.std.specs.Prelude.{◌≡◌, ◌↔◌, ◌<◌, ◌≤◌, ℕ, IsTrue, length, slice_get, Some, true, false};
ghost use Rattle.office_core.specs.Receipts.{HaveSlips};
ghost use Rattle.keep_core.specs.Marks.{mark_at, marked};

use office_core::slip::Slip;
use page_core::entry::Entry;
use std::alloc::{AllocError, Global};
use std::marker::Model;

// The most entries of a history: the most calls of an object.
const MOST_ENTRIES: usize = 65_536;

/// A mark for each place of the longest history. All their memory is taken when they are made.
#[derive(Drop)]
pub struct Marks {
    row: Vec<bool>,
}

impl Model for Marks {
    ghost use Rattle.std.specs.Prelude.{◌≡◌, List, Bool, length};

    ghost Value = { List Bool };

    ghost view = { λ m. m.row.items };

    ghost invariant = { λ m. length m.row.items ≡ 65536 };
}

// So many marks from the first one on are taken away.
fn clear(row: &mut [bool], count: usize)
    requires { count ≤ length row.old }
    ensures each { length row.new ≡ length row.old }
    ensures cleared { (k : ℕ) → k < count → slice_get row.new k ≡ Some false }
{
    for k in 0..count {
        row[k] = false;
    }
}

// A place gets a mark. Places count from 1; where there is no such place nothing is marked.
fn mark(row: &mut [bool], place: usize)
    ensures { row.new ≡ mark_at row.old place }
{
    if place == 0 {
        return;
    }
    if place <= row.len() {
        row[place - 1] = true;
    }
}

// The places of these slips get marks.
fn mark_all(row: &mut [bool], slips: &[Slip])
    ensures { row.new ≡ marked row.old slips.now }
{
    let mut rest = slips;
    'all: while let [slip, tail @ ..] = rest {
        mark(row, slip.place());
        rest = tail;
    }
}

// Whether there are so many marks from the first one on.
fn are_marked(row: &[bool], count: usize) -> bool
    requires { count ≤ length row.now }
    ensures { IsTrue result ↔ ((k : ℕ) → k < count → slice_get row.now k ≡ Some true) }
{
    for k in 0..count {
        if !row[k] {
            return false;
        }
    }
    true
}

// Whether each entry of a history has a slip, by a row that has a mark for each place.
fn have_slips_by(row: &mut [bool], history: &[Entry], slips: &[Slip]) -> bool
    requires room { length history.now ≤ length row.old }
    ensures each { length row.new ≡ length row.old }
    ensures all { IsTrue result ↔ HaveSlips history.now slips.now }
{
    clear(row, history.len());
    mark_all(row, slips);
    are_marked(row, history.len())
}

impl Marks {
    /// Marks for 65,536 places. The error is that memory was refused.
    pub fn new(alloc: Global) -> Result<Marks, AllocError> {
        let row = vec![in alloc; false; MOST_ENTRIES]?;
        Ok(Marks { row })
    }

    /// Whether each entry of a history has a slip. It takes no memory, and looks at each slip and each entry once.
    pub fn have_slips(&mut self, history: &[Entry], slips: &[Slip]) -> bool
        requires few { length history.now ≤ 65536 }
        ensures { IsTrue result ↔ HaveSlips history.now slips.now }
    {
        have_slips_by(&mut self.row, history, slips)
    }
}
