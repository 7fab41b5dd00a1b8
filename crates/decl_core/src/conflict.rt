//! Where two operations conflict.

ghost use Rattle.std.specs.Prelude.{◌≡◌, ◌≤◌, ◌↔◌, ◌⊎◌, ℕ, MatchOption, slice_get};
ghost use Rattle.std.specs.Option.{option_map};
ghost use Rattle.std.specs.Int.{bit_at};
ghost use Rattle.decl_core.specs.Bodies.{body_of};
ghost use Rattle.decl_core.specs.Touched.{ConflictAt};
ghost use Rattle.decl_core.specs.ObjectMap.{operation_of};
ghost use Rattle.decl_core.specs.ObjectMap.{object_of};
ghost use Rattle.decl_core.specs.Exclusive.{ConflictsAt};

use crate::exclude_footprint::{Footprint, footprint};
use crate::object::{Object, Operation};

// The parts that one of them writes and the other one touches.
fn contested(first: Footprint, second: Footprint) -> u16
    ensures { (p : ℕ) → (bit_at result p ≡ 1) ↔
        (((bit_at first.writes p ≡ 1) × ((bit_at second.reads p ≡ 1) ⊎ (bit_at second.writes p ≡ 1)))
        ⊎ ((bit_at second.writes p ≡ 1) × ((bit_at first.reads p ≡ 1) ⊎ (bit_at first.writes p ≡ 1)))) }
{
    (first.writes & (second.reads | second.writes)) | (second.writes & (first.reads | first.writes))
}

// The parts at which two operations conflict.
fn conflict(first: &Operation, second: &Operation) -> u16
    ensures { (p : ℕ) → (bit_at result p ≡ 1)
        ↔ ConflictAt (body_of first.now).statements (body_of second.now).statements p }
{
    contested(footprint(first), footprint(second))
}

// The first of these parts.
fn first_part(parts: u16) -> Option<usize>
    ensures { MatchOption result ((p : ℕ) → bit_at parts p ≡ 1 →
        ⊥) (λ p. (bit_at parts p ≡ 1) × ((q : ℕ) → bit_at parts q ≡ 1 → p ≤ q)) }
{
    if parts == 0 {
        return None;
    }
    Some(parts.trailing_zeros() as usize)
}

// The operation of this number.
fn operation_at(object: &Object, number: usize) -> Option<&Operation>
    ensures { slice_get (object_of object.now).operations number ≡ option_map (λ o. operation_of o.now) result }
{
    let found = object.operations.get(number)?;
    Some(found)
}

/// The first part at which the operations of these numbers conflict.
pub fn conflict_of(object: &Object, first: usize, second: usize) -> Option<usize>
    ensures { MatchOption result ((p : ℕ) → ConflictsAt (object_of object.now) first second p → ⊥)
        (λ p. ConflictsAt (object_of object.now) first second p
        × ((q : ℕ) → ConflictsAt (object_of object.now) first second q → p ≤ q)) }
{
    let a = operation_at(object, first)?;
    let b = operation_at(object, second)?;
    first_part(conflict(a, b))
}
