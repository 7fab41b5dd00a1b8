//! Rows that lie in the order of their keys. A key is asked for by a text, without memory.

ghost use Rattle.std.specs.Prelude.{◌≡◌, ◌≤◌, ◌<◌, [], ◌∷◌, length, map, is_some, true, Some, nat_lt, ◌&&◌};
ghost use Rattle.std.specs.Prelude.{if◌then◌else◌, vec_capacity, option_copied, IfOk, IfErr, OnOk, OnErr};
ghost use Rattle.std.specs.BTreeMap.{is_at};
ghost use Rattle.std.specs.FinMap.{put};
ghost use Rattle.value_core.specs.Limits.{most_elements};
ghost use Rattle.std.specs.List.{AllZip, insert};
ghost use Rattle.std.specs.List.Sorted.{IsStrictlySortedBy};
ghost use Rattle.std.specs.Map.{lookup, remove_entry};
ghost use Rattle.value_core.specs.TextOrder.{text_cmp};
ghost use Rattle.value_core.specs.Sorted.{Rise, StandsAt, IsGapFor};

use crate::limits::MOST_ELEMENTS;
use crate::row::Row;
use crate::text::Text;
use std::alloc::{AllocError, Global};
use std::marker::Model;

/// Keys that rise, and what stands under each. A contract sees them as a list of pairs.
#[derive(Drop)]
pub struct Sorted<X> {
    rows: Vec<(Row, X)>,
}

impl<X> Model for Sorted<X> {
    ghost use Rattle.std.specs.Prelude.{List, ℕ};
    ghost use Rattle.std.specs.Coded.{coded_list, coded_ℕ, coded×};

    ghost Value = { List (List ℕ × X) };

    ghost coded = { coded_list (coded× (coded_list coded_ℕ) X.code) };

    ghost use Rattle.value_core.specs.Sorted.{Rise};

    ghost view = { λ s. s.rows.items };

    ghost invariant = { λ s. Rise s.rows.items };
}

impl<X> Sorted<X> {
    /// No row. It takes no memory.
    pub(crate) fn new(alloc: Global) -> Sorted<X>
        ensures { result ≡ [] }
    {
        Sorted {
            rows: Vec::new(alloc),
        }
    }

    /// Where memory is taken for it.
    pub(crate) fn allocator(&self) -> Global {
        *self.rows.allocator()
    }

    /// The number of rows.
    pub(crate) fn len(&self) -> usize
        ensures len { result ≡ length self.now }
        ensures rise { Rise self.now }
    {
        self.rows.len()
    }

    /// The rows, keys rising.
    pub fn rows(&self) -> &[(Row, X)]
        ensures rows { result.now ≡ self.now }
        ensures rise { Rise self.now }
    {
        &self.rows
    }

    // Where a key stands, or where it would go.
    fn place(&self, key: &Text) -> Result<usize, usize>
        ensures found { IfOk result (StandsAt self.now key.now) }
        ensures gap { IfErr result (IsGapFor self.now key.now) }
    {
        self.rows
            .as_slice()
            .binary_search_by(|row| row.0.compare(key))
    }

    /// What stands under a key.
    pub(crate) fn get(&self, key: &Text) -> Option<&X>
        ensures { option_copied result ≡ lookup (is_at (text_cmp key.now)) self.now }
    {
        match self.place(key) {
            Ok(place) => Some(&self.rows[place].1),
            Err(_) => None,
        }
    }

    /// Whether a key is there.
    pub(crate) fn has(&self, key: &Text) -> bool
        ensures { result ≡ is_some (lookup (is_at (text_cmp key.now)) self.now) }
    {
        match self.place(key) {
            Ok(_) => true,
            Err(_) => false,
        }
    }
}

impl<X: Drop> Sorted<X> {
    /// Puts a value under a key, in the place of what stood there.
    pub(crate) fn insert(&mut self, key: &Text, value: X) -> Result<(), AllocError>
        ensures ok { OnOk result (self.new ≡ put text_cmp key.now value self.old) }
        ensures err { OnErr result (self.new ≡ self.old) }
        ensures rise { Rise self.old }
    {
        match self.place(key) {
            Ok(place) => {
                self.rows[place].1 = value;
                Ok(())
            }
            Err(place) => {
                let row = Row::new(*self.rows.allocator(), key)?;
                Ok(self.rows.insert(place, (row, value))?)
            }
        }
    }

    /// Removes a key, if it is there. It takes no memory.
    pub(crate) fn remove(&mut self, key: &Text)
        ensures rows { self.new ≡ remove_entry (is_at (text_cmp key.now)) self.old }
        ensures rise { Rise self.old }
        ensures still { Rise self.new }
    {
        if let Ok(place) = self.place(key) {
            let _row = self.rows.remove(place);
        }
    }
}

impl<X: Drop> Sorted<X> {
    /// Removes a key that is there, and gives its row.
    pub(crate) fn take_out(&mut self, key: &Text) -> (Row, X)
        requires { is_some (lookup (is_at (text_cmp key.now)) self.old) ≡ true }
        ensures rows { self.new ≡ remove_entry (is_at (text_cmp key.now)) self.old }
        ensures key { result.0 ≡ key.now }
        ensures value { lookup (is_at (text_cmp key.now)) self.old ≡ Some result.1 }
        ensures rise { Rise self.old }
        ensures still { Rise self.new }
    {
        match self.place(key) {
            Ok(place) => self.rows.remove(place),
            Err(_) => unreachable!(),
        }
    }

    /// Puts a value in the place of what stands under a key that is there; else nothing changes. It takes no memory.
    pub(crate) fn exchange(&mut self, key: &Text, value: X)
        ensures rows { self.new ≡ (if is_some (lookup (is_at (text_cmp key.now)) self.old) then put text_cmp key.now value self.old else self.old) }
        ensures rise { Rise self.old }
        ensures still { Rise self.new }
    {
        if let Ok(place) = self.place(key) {
            self.rows[place].1 = value;
        }
    }

    /// Puts a row in, in this room, where it has room for them all; else nothing changes. It takes no memory.
    pub(crate) fn put_back(&mut self, row: Row, value: X, room: Vec<(Row, X)>)
        ensures rows { self.new ≡ (if nat_lt (length self.old) (vec_capacity room) && nat_lt (length self.old) most_elements
            then put text_cmp row value self.old else self.old) }
        ensures rise { Rise self.old }
        ensures still { Rise self.new }
    {
        if self.rows.len() < room.capacity() && self.rows.len() < MOST_ELEMENTS as usize {
            self.put_row(row, value, room);
        }
    }

    // Puts a row in, in this room, which has room for them all.
    fn put_row(&mut self, row: Row, value: X, room: Vec<(Row, X)>)
        requires { length self.old < vec_capacity room }
        ensures rows { self.new ≡ put text_cmp row value self.old }
        ensures rise { Rise self.old }
        ensures still { Rise self.new }
    {
        match self.place(&row.text()) {
            Ok(place) => self.rows[place].1 = value,
            Err(place) => put_in(&mut self.rows, place, (row, value), room),
        }
    }
}

// Puts a row in at this place, in this room, which has room for them all.
fn put_in<X: Drop>(rows: &mut Vec<X>, place: usize, row: X, room: Vec<X>)
    requires place { place ≤ length rows.old.items }
    requires room { length rows.old.items < vec_capacity room }
    ensures { rows.new.items ≡ insert rows.old.items place row }
{
    let mut more = room;
    more.clear();
    match more.append(rows) {
        Ok(()) => {}
        Err(_) => unreachable!(),
    }
    match more.insert(place, row) {
        Ok(()) => {}
        Err(_) => unreachable!(),
    }
    *rows = more;
}

impl<X: Clone> Sorted<X> {
    /// A copy of the rows, in memory of its own.
    pub(crate) fn copy(&self) -> Result<Sorted<X>, AllocError>
        ensures { IfOk result (λ copy. AllZip (λ p q. (q.0 ≡ p.0) × X.is_clone p.1 q.1) self.now copy) }
    {
        Ok(Sorted {
            rows: self.rows.clone()?,
        })
    }
}
