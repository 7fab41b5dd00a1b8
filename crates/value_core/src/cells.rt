//! The elements of an array: integers in four bytes each, texts in their rows.

ghost use Rattle.std.specs.Prelude.{◌≡◌, ◌<◌, length, replicate, slice_get, slice_set, IfOk, OnOk, OnErr, ◌≤◌, if◌then◌else◌};
ghost use Rattle.value_core.specs.Limits.{most_elements};
ghost use Rattle.value_core.specs.Undo.{array_back, is_kept_of, kept_datum};
ghost use Rattle.value_core.specs.Datum.{elem_of, zero_of};
ghost use Rattle.value_core.specs.Cells.{cells_sort, cells_data};

use crate::datum::Datum;
use crate::kind::Elem;
use crate::row::Row;
use crate::text::Text;
use crate::undo::{Kept, Undo};
use std::alloc::{AllocError, Global};

/// The elements of an array.
#[derive(Drop)]
pub enum Cells {
    Integers(Vec<u32>),
    Texts(Vec<Text>),
}

impl Cells {
    /// So many zeros or empty texts.
    pub(crate) fn zeros(alloc: Global, sort: Elem, count: usize) -> Result<Cells, AllocError>
        ensures sort { IfOk result (λ cells. cells_sort cells ≡ sort) }
        ensures data { IfOk result (λ cells. cells_data cells ≡ replicate count (zero_of sort)) }
    {
        match sort {
            Elem::Integer => Ok(Cells::Integers(vec![in alloc; 0; count]?)),
            Elem::Text => Ok(Cells::Texts(vec![in alloc; Text::empty(); count]?)),
        }
    }

    /// Which sort its elements are.
    pub(crate) fn sort(&self) -> Elem
        ensures { result ≡ cells_sort self.now }
    {
        match self {
            Cells::Integers(_) => Elem::Integer,
            Cells::Texts(_) => Elem::Text,
        }
    }

    /// The number of elements.
    pub(crate) fn len(&self) -> usize
        ensures { result ≡ length (cells_data self.now) }
    {
        match self {
            Cells::Integers(all) => all.len(),
            Cells::Texts(all) => all.len(),
        }
    }

    /// The element at a place, counted from 0.
    pub(crate) fn get(&self, place: usize) -> Option<Datum>
        ensures { result ≡ slice_get (cells_data self.now) place }
    {
        match self {
            Cells::Integers(all) => match all.get(place) {
                Some(number) => Some(Datum::Integer(*number)),
                None => None,
            },
            Cells::Texts(all) => match all.get(place) {
                Some(text) => Some(Datum::Text(*text)),
                None => None,
            },
        }
    }

    /// Puts an element in the place of another.
    pub(crate) fn set(&mut self, place: usize, datum: Datum)
        requires place { place < length (cells_data self.old) }
        requires sort { elem_of datum ≡ cells_sort self.old }
        ensures sort { cells_sort self.new ≡ cells_sort self.old }
        ensures data { cells_data self.new ≡ slice_set (cells_data self.old) place datum }
    {
        match self {
            Cells::Integers(all) => match datum {
                Datum::Integer(number) => all[place] = number,
                Datum::Text(_) => unreachable!(),
            },
            Cells::Texts(all) => match datum {
                Datum::Text(text) => all[place] = text,
                Datum::Integer(_) => unreachable!(),
            },
        }
    }

    /// Puts an element in the place of another, and says what takes that back.
    #[tactic(auto, using(crate::proofs::Backs::kept_sort, crate::proofs::Backs::element_back, crate::proofs::Backs::cell_sort))]
    pub(crate) fn replace(&mut self, place: usize, datum: Datum) -> Result<Undo, AllocError>
        requires place { place < length (cells_data self.old) }
        requires few { length (cells_data self.old) ≤ most_elements }
        requires sort { elem_of datum ≡ cells_sort self.old }
        ensures sort { cells_sort self.new ≡ cells_sort self.old }
        ensures ok { OnOk result (cells_data self.new ≡ slice_set (cells_data self.old) place datum) }
        ensures back { IfOk result (λ undo. array_back undo (cells_sort self.new) (cells_data self.new) ≡ cells_data self.old) }
        ensures err { OnErr result (cells_data self.new ≡ cells_data self.old) }
    {
        match self.get(place) {
            Some(old) => {
                let kept = Kept::new(self.allocator(), &old)?;
                self.set(place, datum);
                Ok(Undo::Element(place as u32, kept))
            }
            None => unreachable!(),
        }
    }

    // Where memory is taken for it.
    fn allocator(&self) -> Global {
        match self {
            Cells::Integers(all) => *all.allocator(),
            Cells::Texts(all) => *all.allocator(),
        }
    }

    /// Takes a change of the elements back; where it is none of these, nothing changes. It takes no memory.
    pub(crate) fn take_back(&mut self, undo: Undo)
        ensures sort { cells_sort self.new ≡ cells_sort self.old }
        ensures data { cells_data self.new ≡ array_back undo (cells_sort self.old) (cells_data self.old) }
    {
        match undo {
            Undo::Element(place, kept) => self.put_kept(place as usize, kept),
            _ => {}
        }
    }

    #[tactic(auto, using(crate::proofs::Backs::kept_sort, crate::proofs::Backs::other_sort))]
    // Puts an element that was kept in the place of another, where there is one.
    fn put_kept(&mut self, place: usize, kept: Kept)
        ensures sort { cells_sort self.new ≡ cells_sort self.old }
        ensures data { cells_data self.new ≡ (if is_kept_of (cells_sort self.old) kept
            then slice_set (cells_data self.old) place (kept_datum kept) else cells_data self.old) }
    {
        let datum = kept.datum();
        if datum.elem() == self.sort() {
            self.set_known(place, datum);
        }
    }

    // Puts an element in the place of another, where there is one.
    fn set_known(&mut self, place: usize, datum: Datum)
        requires sort { elem_of datum ≡ cells_sort self.old }
        ensures sort { cells_sort self.new ≡ cells_sort self.old }
        ensures data { cells_data self.new ≡ slice_set (cells_data self.old) place datum }
    {
        if place < self.len() {
            self.set(place, datum);
        }
    }

    /// A copy of the elements, in memory of its own.
    pub(crate) fn copy(&self, alloc: Global) -> Result<Cells, AllocError>
        ensures sort { IfOk result (λ copy. cells_sort copy ≡ cells_sort self.now) }
        ensures data { IfOk result (λ copy. cells_data copy ≡ cells_data self.now) }
    {
        match self {
            Cells::Integers(all) => Ok(Cells::Integers(Vec::from_slice(alloc, all)?)),
            Cells::Texts(all) => Ok(Cells::Texts(Vec::from_slice(alloc, all)?)),
        }
    }

    /// The elements, in order.
    pub(crate) fn list(&self, alloc: Global) -> Result<Vec<Datum>, AllocError>
        ensures { IfOk result (λ list. list.items ≡ cells_data self.now) }
    {
        let mut list = Vec::with_capacity(alloc, self.len())?;
        for place in 0..self.len() {
            if let Some(datum) = self.get(place) {
                list.push(datum)?;
            }
        }
        Ok(list)
    }
}
