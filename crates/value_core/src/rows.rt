//! The elements of a table, in the order of their keys.

ghost use Rattle.std.specs.Prelude.{◌≡◌, IfOk, OnOk, OnErr};
ghost use Rattle.value_core.specs.declared.kind.Elem.{Elem};
ghost use Rattle.value_core.specs.Contents.{AreRows};
ghost use Rattle.std.specs.FinMap as map;
ghost use Rattle.value_core.specs.Datum.{elem_of};
ghost use Rattle.std.specs.Prelude.{◌≤◌, ◌&&◌, true, if◌then◌else◌};
ghost use Rattle.value_core.specs.Limits.{most_elements};
ghost use Rattle.value_core.specs.Undo.{table_back, kept_datum, is_kept_of};
ghost use Rattle.std.specs.Prelude.{option_map, IfSome};
ghost use Rattle.value_core.specs.declared.datum.Datum.TheVariants as datum;
ghost use Rattle.value_core.specs.Rows.{as_data, rows_sort, rows_map};

use crate::datum::Datum;
use crate::kind::Elem;
use crate::row::Row;
use crate::sorted::Sorted;
use crate::text::Text;
use crate::undo::{Kept, Undo};
use std::alloc::{AllocError, Global};

/// The elements of a table. Each key and each text has memory of its own length.
#[derive(Drop)]
pub enum Rows {
    Integers(Sorted<u32>),
    Texts(Sorted<Row>),
}

impl Rows {
    /// No elements of this sort. It takes no memory.
    pub fn new(alloc: Global, sort: Elem) -> Rows
        ensures sort { rows_sort result ≡ sort }
        ensures data { rows_map result ≡ map.empty }
    {
        match sort {
            Elem::Integer => Rows::Integers(Sorted::new(alloc)),
            Elem::Text => Rows::Texts(Sorted::new(alloc)),
        }
    }

    /// Which sort its elements are.
    pub(crate) fn sort(&self) -> Elem
        ensures { result ≡ rows_sort self.now }
    {
        match self {
            Rows::Integers(_) => Elem::Integer,
            Rows::Texts(_) => Elem::Text,
        }
    }

    /// The number of keys.
    pub(crate) fn len(&self) -> usize
        ensures { result ≡ map.len (rows_map self.now) }
    {
        match self {
            Rows::Integers(all) => all.len(),
            Rows::Texts(all) => all.len(),
        }
    }

    /// What stands under a key.
    pub(crate) fn get(&self, key: &Text) -> Option<Datum>
        ensures { result ≡ map.get (rows_map self.now) key.now }
    {
        match self {
            Rows::Integers(all) => match all.get(key) {
                Some(number) => Some(Datum::Integer(*number)),
                None => None,
            },
            Rows::Texts(all) => match all.get(key) {
                Some(row) => Some(Datum::Text(row.text())),
                None => None,
            },
        }
    }

    /// Whether a key is there.
    pub(crate) fn has(&self, key: &Text) -> bool
        ensures { result ≡ map.contains_key (rows_map self.now) key.now }
    {
        match self {
            Rows::Integers(all) => all.has(key),
            Rows::Texts(all) => all.has(key),
        }
    }

    /// Puts an element under a key, in the place of what stood there.
    pub fn insert(&mut self, key: Text, datum: Datum) -> Result<(), AllocError>
        requires { elem_of datum ≡ rows_sort self.old }
        ensures sort { rows_sort self.new ≡ rows_sort self.old }
        ensures ok { OnOk result (rows_map self.new ≡ map.insert (rows_map self.old) key datum) }
        ensures err { OnErr result (rows_map self.new ≡ rows_map self.old) }
    {
        match self {
            Rows::Integers(all) => match datum {
                Datum::Integer(number) => all.insert(&key, number),
                Datum::Text(_) => unreachable!(),
            },
            Rows::Texts(all) => match datum {
                Datum::Text(text) => {
                    let row = Row::new(all.allocator(), &text)?;
                    all.insert(&key, row)
                }
                Datum::Integer(_) => unreachable!(),
            },
        }
    }

    /// Removes a key, if it is there. It takes no memory.
    pub(crate) fn remove(&mut self, key: &Text)
        ensures sort { rows_sort self.new ≡ rows_sort self.old }
        ensures data { rows_map self.new ≡ map.remove (rows_map self.old) key.now }
        ensures rows { (e : Elem) → AreRows e (rows_map self.old) → AreRows e (rows_map self.new) }
    {
        match self {
            Rows::Integers(all) => all.remove(key),
            Rows::Texts(all) => all.remove(key),
        }
    }

    /// Puts an element under a key, and says what takes that back.
    pub(crate) fn store(&mut self, key: Text, datum: Datum) -> Result<Undo, AllocError>
        requires { elem_of datum ≡ rows_sort self.old }
        ensures sort { rows_sort self.new ≡ rows_sort self.old }
        ensures ok { OnOk result (rows_map self.new ≡ map.insert (rows_map self.old) key datum) }
        ensures back { IfOk result (λ undo. table_back undo (rows_sort self.new) (rows_map self.new) ≡ rows_map self.old) }
        ensures err { OnErr result (rows_map self.new ≡ rows_map self.old) }
    {
        let row = self.row(&key)?;
        match self.kept(&key)? {
            Some(kept) => {
                self.insert(key, datum)?;
                Ok(Undo::Under(row, kept))
            }
            None => {
                self.insert(key, datum)?;
                Ok(Undo::Added(row))
            }
        }
    }

    // A copy of a key.
    fn row(&self, key: &Text) -> Result<Row, AllocError>
        ensures { IfOk result (λ row. row ≡ key.now) }
    {
        match self {
            Rows::Integers(all) => Row::new(all.allocator(), key),
            Rows::Texts(all) => Row::new(all.allocator(), key),
        }
    }

    // A copy of what stands under a key, if it is there.
    fn kept(&self, key: &Text) -> Result<Option<Kept>, AllocError>
        ensures data { IfOk result (λ kept. option_map kept_datum kept ≡ map.get (rows_map self.now) key.now) }
        ensures sort { IfOk result (λ kept. IfSome kept (λ k. is_kept_of (rows_sort self.now) k ≡ true)) }
    {
        match self {
            Rows::Integers(all) => match all.get(key) {
                Some(number) => Ok(Some(Kept::Integer(*number))),
                None => Ok(None),
            },
            Rows::Texts(all) => match all.get(key) {
                Some(row) => {
                    let copy = row.copy()?;
                    Ok(Some(Kept::Text(copy)))
                }
                None => Ok(None),
            },
        }
    }

    /// Removes a key that is there, and says what takes that back.
    pub(crate) fn erase(&mut self, key: &Text) -> Result<Undo, AllocError>
        requires there { map.contains_key (rows_map self.old) key.now ≡ true }
        requires few { map.len (rows_map self.old) ≤ most_elements }
        ensures sort { rows_sort self.new ≡ rows_sort self.old }
        ensures ok { OnOk result (rows_map self.new ≡ map.remove (rows_map self.old) key.now) }
        ensures back { IfOk result (λ undo. table_back undo (rows_sort self.new) (rows_map self.new) ≡ rows_map self.old) }
        ensures err { OnErr result (rows_map self.new ≡ rows_map self.old) }
        ensures rows { (e : Elem) → AreRows e (rows_map self.old) → AreRows e (rows_map self.new) }
    {
        match self {
            Rows::Integers(all) => {
                let room = Vec::with_capacity(all.allocator(), all.len())?;
                let row = all.take_out(key);
                Ok(Undo::RowOfInteger(row.0, row.1, room))
            }
            Rows::Texts(all) => {
                let room = Vec::with_capacity(all.allocator(), all.len())?;
                let row = all.take_out(key);
                Ok(Undo::RowOfText(row.0, row.1, room))
            }
        }
    }

    /// Takes a change of the rows back; where it is none of these, nothing changes. It takes no memory.
    pub(crate) fn take_back(&mut self, undo: Undo)
        ensures sort { rows_sort self.new ≡ rows_sort self.old }
        ensures data { rows_map self.new ≡ table_back undo (rows_sort self.old) (rows_map self.old) }
    {
        match undo {
            Undo::Under(key, kept) => self.put_kept(&key.text(), kept),
            Undo::Added(key) => self.remove(&key.text()),
            Undo::RowOfInteger(key, number, room) => match self {
                Rows::Integers(all) => all.put_back(key, number, room),
                Rows::Texts(_) => {}
            },
            Undo::RowOfText(key, row, room) => match self {
                Rows::Texts(all) => all.put_back(key, row, room),
                Rows::Integers(_) => {}
            },
            _ => {}
        }
    }

    // Puts an element that was kept under a key that is there.
    fn put_kept(&mut self, key: &Text, kept: Kept)
        ensures sort { rows_sort self.new ≡ rows_sort self.old }
        ensures data { rows_map self.new ≡ (if is_kept_of (rows_sort self.old) kept && map.contains_key (rows_map self.old) key.now
            then map.insert (rows_map self.old) key.now (kept_datum kept) else rows_map self.old) }
    {
        match kept {
            Kept::Integer(number) => match self {
                Rows::Integers(all) => all.exchange(key, number),
                Rows::Texts(_) => {}
            },
            Kept::Text(row) => match self {
                Rows::Texts(all) => all.exchange(key, row),
                Rows::Integers(_) => {}
            },
        }
    }

    /// A copy of the rows, in memory of its own.
    pub(crate) fn copy(&self) -> Result<Rows, AllocError>
        ensures sort { IfOk result (λ copy. rows_sort copy ≡ rows_sort self.now) }
        ensures data { IfOk result (λ copy. rows_map copy ≡ rows_map self.now) }
    {
        match self {
            Rows::Integers(all) => Ok(Rows::Integers(all.copy()?)),
            Rows::Texts(all) => Ok(Rows::Texts(all.copy()?)),
        }
    }

    /// The keys and what stands under them, keys rising.
    pub(crate) fn list(&self, alloc: Global) -> Result<Vec<(Text, Datum)>, AllocError>
        ensures { IfOk result (λ list. list.items ≡ map.entries (rows_map self.now)) }
    {
        match self {
            Rows::Integers(all) => list_integers(alloc, all.rows()),
            Rows::Texts(all) => list_texts(alloc, all.rows()),
        }
    }
}

fn list_integers(alloc: Global, all: &[(Row, u32)]) -> Result<Vec<(Text, Datum)>, AllocError>
    ensures { IfOk result (λ list. list.items ≡ as_data datum.Integer all.now) }
{
    let mut list = Vec::with_capacity(alloc, all.len())?;
    for place in 0..all.len() {
        let row = &all[place];
        list.push((row.0.text(), Datum::Integer(row.1)))?;
    }
    Ok(list)
}

fn list_texts(alloc: Global, all: &[(Row, Row)]) -> Result<Vec<(Text, Datum)>, AllocError>
    ensures { IfOk result (λ list. list.items ≡ as_data datum.Text all.now) }
{
    let mut list = Vec::with_capacity(alloc, all.len())?;
    for place in 0..all.len() {
        let row = &all[place];
        list.push((row.0.text(), Datum::Text(row.1.text())))?;
    }
    Ok(list)
}
