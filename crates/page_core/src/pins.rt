//! Where the parts of an object stand on a hand.

ghost use Rattle.std.specs.Prelude.{◌≡◌, ◌<◌, ◌≤◌, ◌++◌, length, drop};
ghost use Rattle.std.specs.List.{slice_get, slice_set};

use crate::page_list::PageList;
use decl_core::id::MOST_PARTS;
use std::marker::Model;

/// One page list for each part of an object, in the order of the parts, at most 16. They are copied without
/// memory.
#[derive(Clone, Copy, Drop)]
pub struct Pins {
    row: [PageList; MOST_PARTS],
    len: u8,
}

impl Model for Pins {
    ghost use Rattle.std.specs.Prelude.{List};
    ghost use Rattle.std.specs.Coded.{codes};
    ghost use Rattle.device_core.specs.declared.hand.Stamp.{Stamp};
    ghost use Rattle.device_core.specs.contracts.hand.Stamp as e;

    ghost Value = { List (List Stamp) };

    ghost coded = { Prim.hlevel (codes, e.the_row.coded) };

    ghost use Rattle.page_core.specs.Pins.{pins_of, IsKept, inside_of, pins_again};

    ghost view = { pins_of };

    ghost invariant = { IsKept };

    ghost inverse = { inside_of };

    ghost inverse_ok = { pins_again };
}

impl Pins {
    /// The pins that are these page lists.
    pub fn new(lists: &[PageList]) -> Pins
        requires { length lists.now ≤ 16 }
        ensures { result ≡ lists.now }
    {
        let nothing = PageList::nothing();
        let mut row = [nothing; MOST_PARTS];
        write_front(&mut row, lists);
        Pins {
            row,
            len: lists.len() as u8,
        }
    }

    /// How many there are, from 0 to 16.
    pub fn len(&self) -> usize
        ensures len { result ≡ length self.now }
        ensures few { result ≤ 16 }
    {
        self.len as usize
    }

    /// The page list of a part, counted from 0, or `None` where there is no such part.
    pub fn get(&self, part: usize) -> Option<PageList>
        ensures { result ≡ slice_get self.now part }
    {
        self.as_slice().get(part).copied()
    }

    /// Puts another page list in the place of that of a part.
    pub fn set(&mut self, part: usize, list: PageList)
        requires { part < length self.old }
        ensures { self.new ≡ slice_set self.old part list }
    {
        let row = &mut self.row;
        row[part] = list;
    }

    /// The page lists, in the order of the parts.
    pub fn as_slice(&self) -> &[PageList]
        ensures lists { result.now ≡ self.now }
        ensures few { length self.now ≤ 16 }
    {
        &self.row[..self.len as usize]
    }
}

// Writes page lists over the front of a row.
fn write_front(row: &mut [PageList], lists: &[PageList])
    requires { length lists.now ≤ length row.old }
    ensures { row.new ≡ lists.now ++ drop (length lists.now) row.old }
{
    row[..lists.len()].copy_from_slice(lists);
}
