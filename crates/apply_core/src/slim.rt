//! Data in memory of their own length.

ghost use Rattle.std.specs.Prelude.{◌≡◌, ◌↔◌, ◌++◌, [], IsTrue, IfOk, OnOk, map, slice_get};
ghost use Rattle.apply_core.specs.Slim.{datum_of};

use std::alloc::{AllocError, Global};
use std::marker::Model;
use value_core::datum::Datum;
use value_core::row::Row;

// A datum of which a text has memory of its own.
#[derive(Drop)]
enum Slim {
    Integer(u32),
    Text(Row),
}

/// Data, in order. A contract sees them as such.
#[derive(Drop)]
pub struct Slims {
    all: Vec<Slim>,
}

impl Model for Slims {
    ghost use Rattle.std.specs.Prelude.{List, map};
    ghost use Rattle.std.specs.Coded.{coded_list};
    ghost use Rattle.value_core.specs.declared.datum.Datum.{Datum};
    ghost use Rattle.value_core.specs.Code.{datum_code};

    ghost Value = { List Datum };

    ghost coded = { coded_list datum_code };

    ghost use Rattle.apply_core.specs.Slim.{datum_of};

    ghost view = { λ s. map datum_of s.all.items };
}

impl Slim {
    fn new(alloc: Global, datum: &Datum) -> Result<Slim, AllocError>
        ensures { IfOk result (λ s. datum_of s ≡ datum.now) }
    {
        match datum {
            Datum::Integer(number) => Ok(Slim::Integer(*number)),
            Datum::Text(text) => {
                let row = Row::new(alloc, text)?;
                Ok(Slim::Text(row))
            }
        }
    }

    fn is(&self, datum: &Datum) -> bool
        ensures { IsTrue result ↔ (datum_of self.now ≡ datum.now) }
    {
        match (self, datum) {
            (Slim::Integer(number), Datum::Integer(other)) => *number == *other,
            (Slim::Text(row), Datum::Text(text)) => row.is(text),
            _ => false,
        }
    }

    fn is_same(&self, other: &Slim) -> bool
        ensures { IsTrue result ↔ (datum_of self.now ≡ datum_of other.now) }
    {
        match (self, other) {
            (Slim::Integer(first), Slim::Integer(second)) => *first == *second,
            (Slim::Text(first), Slim::Text(second)) => first.is_same(second),
            _ => false,
        }
    }

    fn datum(&self) -> Datum
        ensures { result ≡ datum_of self.now }
    {
        match self {
            Slim::Integer(number) => Datum::Integer(*number),
            Slim::Text(row) => Datum::Text(row.text()),
        }
    }
}

// Whether these are those data.
fn are(slims: &[Slim], all: &[Datum]) -> bool
    ensures { IsTrue result ↔ (map datum_of slims.now ≡ all.now) }
{
    match (slims, all) {
        ([], []) => true,
        ([x, xs @ ..], [y, ys @ ..]) => x.is(y) && are(xs, ys),
        _ => false,
    }
}

// Whether both are the same data.
fn same(a: &[Slim], b: &[Slim]) -> bool
    ensures { IsTrue result ↔ (map datum_of a.now ≡ map datum_of b.now) }
{
    match (a, b) {
        ([], []) => true,
        ([x, xs @ ..], [y, ys @ ..]) => x.is_same(y) && same(xs, ys),
        _ => false,
    }
}

// Adds the data to a list.
fn push_all(out: &mut Vec<Datum>, all: &[Slim]) -> Result<(), AllocError>
    ensures { OnOk result (out.new.items ≡ out.old.items ++ map datum_of all.now) }
{
    match all.split_first() {
        None => Ok(()),
        Some((slim, rest)) => {
            let Ok(()) = out.push(slim.datum()) else {
                return Err(AllocError);
            };
            push_all(out, rest)
        }
    }
}

// Adds data.
fn add(alloc: Global, out: &mut Vec<Slim>, all: &[Datum]) -> Result<(), AllocError>
    ensures { OnOk result (map datum_of out.new.items ≡ map datum_of out.old.items ++ all.now) }
{
    match all.split_first() {
        None => Ok(()),
        Some((datum, rest)) => {
            let slim = Slim::new(alloc, datum)?;
            let Ok(()) = out.push(slim) else {
                return Err(AllocError);
            };
            add(alloc, out, rest)
        }
    }
}

impl Slims {
    /// These data. The error is that memory was refused.
    pub fn new(alloc: Global, all: &[Datum]) -> Result<Slims, AllocError>
        ensures { IfOk result (λ s. s ≡ all.now) }
    {
        let mut out = Vec::with_capacity(alloc, all.len())?;
        add(alloc, &mut out, all)?;
        Ok(Slims { all: out })
    }

    /// No data. It takes no memory.
    pub fn empty(alloc: Global) -> Slims
        ensures { result ≡ [] }
    {
        Slims {
            all: Vec::new(alloc),
        }
    }

    /// Whether both are the same data.
    pub fn is_same(&self, other: &Slims) -> bool
        ensures { IsTrue result ↔ (self.now ≡ other.now) }
    {
        same(&self.all, &other.all)
    }

    /// The data, with room for the longest text each.
    pub fn list(&self, alloc: Global) -> Result<Vec<Datum>, AllocError>
        ensures { IfOk result (λ list. list.items ≡ self.now) }
    {
        let mut out = Vec::with_capacity(alloc, self.all.len())?;
        push_all(&mut out, &self.all)?;
        Ok(out)
    }

    /// Whether they are these.
    pub fn are(&self, all: &[Datum]) -> bool
        ensures { IsTrue result ↔ (self.now ≡ all.now) }
    {
        are(&self.all, all)
    }

    /// The datum at a place, from 0.
    pub fn get(&self, place: usize) -> Option<Datum>
        ensures { result ≡ slice_get self.now place }
    {
        let slim = self.all.get(place)?;
        Some(slim.datum())
    }
}
