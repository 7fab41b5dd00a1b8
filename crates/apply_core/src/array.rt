//! Arrays in the bytes that spell them.

ghost use Rattle.std.specs.Prelude.{◌≡◌, ℕ, IfOk};
ghost use Rattle.value_core.specs.declared.kind.Kind.TheVariants as kinds;
ghost use Rattle.value_core.specs.Datum.{elem_of, IsElement};
ghost use Rattle.value_core.specs.Contents.{Contents};
ghost use Rattle.value_core.specs.Meaning.{element_at, with_element};
ghost use Rattle.value_bytes.specs.Spelling.{Spells};
ghost use Rattle.apply_core.specs.Remade.{Remade};

use crate::header::opened;
use crate::skip::{before, behind, datum_at, skip};
use crate::splice::with_datum;
use std::alloc::Global;
use value_core::datum::Datum;
use value_core::kind::{Elem, Kind};
use value_core::refusal::{GrowFault, Refusal};

/// The element at an index of the array that these bytes spell, counted from 0. Refused `index` where the index is not
/// below the array's length.
pub fn element(sort: Elem, bytes: &[u8], index: u32) -> Result<Datum, Refusal>
    ensures value { (n : ℕ) (v : Contents) → Spells bytes.now (kinds.Array n sort) v → result ≡ element_at v index }
    ensures sort { IfOk result (IsElement sort) }
{
    let (count, entries) = opened(bytes);
    let index = index as usize;
    if index >= count as usize {
        return Err(Refusal::Index);
    }
    match datum_at(sort, behind(sort, index, entries)) {
        Some(datum) => Ok(datum),
        None => Err(Refusal::Index),
    }
}

/// The bytes with another element at an index of the array that these spell. Refused `index` as by `element`, then
/// `Memory`.
pub fn set(
    alloc: Global,
    sort: Elem,
    bytes: &[u8],
    index: u32,
    datum: &Datum,
) -> Result<Vec<u8>, GrowFault>
    requires { elem_of datum.now ≡ sort }
    ensures { (n : ℕ) (v : Contents) → Spells bytes.now (kinds.Array n sort) v →
        Remade (kinds.Array n sort) result (with_element v index datum.now) }
{
    // Called for its contract alone: this is a datum.
    let _sort = datum.elem();
    let (count, entries) = opened(bytes);
    let index = index as usize;
    if index >= count as usize {
        return Err(GrowFault::Refused(Refusal::Index));
    }
    let rest = behind(sort, index, entries);
    let front = before(entries, rest);
    let Some(next) = skip(sort, rest) else {
        return Err(GrowFault::Refused(Refusal::Index));
    };
    match with_datum(alloc, Kind::Array(count, sort), count, front, datum, next) {
        Ok(out) => Ok(out),
        Err(_) => Err(GrowFault::Memory),
    }
}
