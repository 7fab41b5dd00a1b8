//! The pin of a part: its pages in order.

ghost use Rattle.std.specs.Prelude.{◌≡◌, ◌<◌, ◌≤◌, ◌++◌, ◌∷◌, [], length, drop};
ghost use Rattle.page_core.specs.Cut.{no_stamp};

use crate::cut::MOST_PAGES;
use device_core::hand::Stamp;
use std::marker::Model;

/// What stands behind the stamps in their row.
const NO_STAMP: Stamp = Stamp { number: 0, len: 0 };

/// The files of the pages of a part, in order, at most 8. They are copied without memory.
#[derive(Clone, Copy, Drop)]
pub struct PageList {
    row: [Stamp; MOST_PAGES],
    len: u8,
}

impl Model for PageList {
    ghost use Rattle.std.specs.Prelude.{List};
    ghost use Rattle.std.specs.Coded.{codes};
    ghost use Rattle.device_core.specs.declared.hand.Stamp.{Stamp};
    ghost use Rattle.device_core.specs.contracts.hand.Stamp as e;

    ghost Value = { List Stamp };

    ghost coded = { Prim.hlevel (codes, e.the_row.coded) };

    ghost use Rattle.page_core.specs.PageLists.{stamps_of, IsKept, inside_of, stamps_again};

    ghost view = { stamps_of };

    ghost invariant = { IsKept };

    ghost inverse = { inside_of };

    ghost inverse_ok = { stamps_again };
}

impl PageList {
    /// The page list that is these stamps, whatever their lengths.
    pub fn of(stamps: &[Stamp]) -> PageList
        requires some { 0 < length stamps.now }
        requires few { length stamps.now ≤ 8 }
        ensures { result ≡ stamps.now }
    {
        let mut row = [NO_STAMP; MOST_PAGES];
        write_front(&mut row, stamps);
        PageList {
            row,
            len: stamps.len() as u8,
        }
    }

    /// The page list that stands behind the pins in their row.
    pub(crate) fn nothing() -> PageList
        ensures { result ≡ no_stamp ∷ [] }
    {
        PageList {
            row: [NO_STAMP; MOST_PAGES],
            len: 1,
        }
    }

    /// The stamps, in order.
    pub fn stamps(&self) -> &[Stamp]
        ensures stamps { result.now ≡ self.now }
        ensures some { 0 < length self.now }
        ensures few { length self.now ≤ 8 }
    {
        &self.row[..self.len as usize]
    }
}

// Writes stamps over the front of a row.
fn write_front(row: &mut [Stamp], stamps: &[Stamp])
    requires { length stamps.now ≤ length row.old }
    ensures { row.new ≡ stamps.now ++ drop (length stamps.now) row.old }
{
    row[..stamps.len()].copy_from_slice(stamps);
}
