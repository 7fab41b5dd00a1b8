//! The numbers of calls that lines told of.

ghost use Rattle.std.specs.Prelude.{◌≡◌, ◌≢◌, ℕ, suc, ◌≤◌, length, List, IsTrue, true, false, ◌↔◌, OnOk, IfOk, max};
ghost use Rattle.std.specs.Prelude.{slice_index_or, ◌∷◌, []};
ghost use Rattle.audit_core.specs.Steps.{Step, IsUnused};
ghost use Rattle.audit_core.specs.Numbers.{AreNumbers, HasNumber};

use std::alloc::{AllocError, Global};

// The numbers of calls that ended or were cancelled.
#[derive(Drop)]
pub(crate) struct NumberSet {
    // for each number up to some one, whether it is one of them
    used: Vec<bool>,
    // the greatest of them, or 0
    greatest: u32,
}

// Whether a number is marked.
fn is_marked(marks: &[bool], number: u32) -> bool
    ensures { result ≡ slice_index_or marks.now number false }
{
    match marks.get(number as usize) {
        None => false,
        Some(mark) => *mark,
    }
}

// Marks a number.
fn mark(marks: &mut Vec<bool>, number: u32) -> Result<(), AllocError>
    ensures here { OnOk result (slice_index_or marks.new.items number false ≡ true) }
    ensures others { OnOk result ((n : ℕ) → n ≢ number →
        slice_index_or marks.new.items n false ≡ slice_index_or marks.old.items n false) }
{
    let place = number as usize;
    make_room(marks, place)?;
    marks[place] = true;
    Ok(())
}

// Makes room for the numbers up to one.
fn make_room(marks: &mut Vec<bool>, place: usize) -> Result<(), AllocError>
    ensures room { OnOk result (suc place ≤ length marks.new.items) }
    ensures same { OnOk result ((n : ℕ) → slice_index_or marks.new.items n false
        ≡ slice_index_or marks.old.items n false) }
{
    while marks.len() <= place {
        marks.push(false)?;
    }
    Ok(())
}

fn greater(a: u32, b: u32) -> u32
    ensures { result ≡ max a b }
{
    if a < b {
        return b;
    }
    a
}

impl NumberSet {
    // No number.
    pub(crate) fn new(alloc: Global) -> NumberSet
        ensures { AreNumbers result.used.items result.greatest [] }
    {
        NumberSet {
            used: Vec::new(alloc),
            greatest: 0,
        }
    }

    // Whether it is none of them.
    pub(crate) fn is_new(&self, number: u32) -> bool
        ensures { (steps : List Step) → AreNumbers self.now.used.items self.now.greatest steps →
            (IsTrue result ↔ IsUnused number steps) }
    {
        !is_marked(&self.used, number)
    }

    // Takes a number among them.
    pub(crate) fn take(&mut self, number: u32) -> Result<(), AllocError>
        ensures { OnOk result ((steps : List Step) (step : Step) → HasNumber number step →
            AreNumbers self.old.used.items self.old.greatest steps →
            AreNumbers self.new.used.items self.new.greatest (step ∷ steps)) }
    {
        mark(&mut self.used, number)?;
        self.greatest = greater(number, self.greatest);
        Ok(())
    }

    // The greatest of them; 0 where there is none.
    pub(crate) fn greatest(&self) -> u32
        ensures { result ≡ self.now.greatest }
    {
        self.greatest
    }
}
