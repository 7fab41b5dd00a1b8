//! Queues in the bytes that spell them.

ghost use Rattle.std.specs.Prelude.{◌≡◌, IfOk};
ghost use Rattle.value_core.specs.declared.kind.Kind.TheVariants as kinds;
ghost use Rattle.value_core.specs.Datum.{elem_of, IsElement};
ghost use Rattle.value_core.specs.Contents.{Contents};
ghost use Rattle.value_core.specs.Meaning.{oldest_of, without_oldest, with_newest};
ghost use Rattle.value_bytes.specs.Spelling.{Spells};
ghost use Rattle.apply_core.specs.Remade.{Remade};

use crate::header::opened;
use crate::skip::{datum_at, skip};
use crate::splice::{joined, with_datum};
use std::alloc::Global;
use value_core::datum::Datum;
use value_core::kind::{Elem, Kind};
use value_core::limits::MOST_ELEMENTS;
use value_core::refusal::{GrowFault, Refusal};

/// The oldest element of the queue that these bytes spell. Refused `empty` where there is none.
pub fn first(sort: Elem, bytes: &[u8]) -> Result<Datum, Refusal>
    ensures value { (v : Contents) → Spells bytes.now (kinds.Queue sort) v → result ≡ oldest_of v }
    ensures sort { IfOk result (IsElement sort) }
{
    let (count, entries) = opened(bytes);
    if count == 0 {
        return Err(Refusal::Empty);
    }
    match datum_at(sort, entries) {
        Some(datum) => Ok(datum),
        None => Err(Refusal::Empty),
    }
}

/// The bytes without the oldest element of the queue that these spell. Refused `empty` where there is none, then
/// `Memory`.
pub fn take(alloc: Global, sort: Elem, bytes: &[u8]) -> Result<Vec<u8>, GrowFault>
    ensures { (v : Contents) → Spells bytes.now (kinds.Queue sort) v →
        Remade (kinds.Queue sort) result (without_oldest v) }
{
    let (count, entries) = opened(bytes);
    if count == 0 {
        return Err(GrowFault::Refused(Refusal::Empty));
    }
    let Some(rest) = skip(sort, entries) else {
        return Err(GrowFault::Refused(Refusal::Empty));
    };
    match joined(alloc, Kind::Queue(sort), count - 1, &[], rest) {
        Ok(out) => Ok(out),
        Err(_) => Err(GrowFault::Memory),
    }
}

/// The bytes with one element more, as the newest of the queue that these spell. Refused `full` at 1,024 elements,
/// then `Memory`.
pub fn append(alloc: Global, sort: Elem, bytes: &[u8], datum: &Datum) -> Result<Vec<u8>, GrowFault>
    requires { elem_of datum.now ≡ sort }
    ensures { (v : Contents) → Spells bytes.now (kinds.Queue sort) v →
        Remade (kinds.Queue sort) result (with_newest v datum.now) }
{
    // Called for its contract alone: this is a datum.
    let _sort = datum.elem();
    let (count, entries) = opened(bytes);
    if count >= MOST_ELEMENTS {
        return Err(GrowFault::Refused(Refusal::Full));
    }
    match with_datum(alloc, Kind::Queue(sort), count + 1, entries, datum, &[]) {
        Ok(out) => Ok(out),
        Err(_) => Err(GrowFault::Memory),
    }
}
