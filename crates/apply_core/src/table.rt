//! Tables in the bytes that spell them.

ghost use Rattle.std.specs.FinMap.{FinMap, entries};
ghost use Rattle.std.specs.Prelude.{◌≡◌, ◌<◌, ◌≤◌, ◌++◌, List, ℕ, IfOk};
ghost use Rattle.value_core.specs.TextOrder.{text_cmp};
ghost use Rattle.value_core.specs.declared.datum.Datum.{Datum};
ghost use Rattle.value_core.specs.declared.format.Format.TheVariants.{Second};
ghost use Rattle.value_core.specs.declared.kind.Kind.TheVariants as kinds;
ghost use Rattle.value_core.specs.Datum.{elem_of, IsElement};
ghost use Rattle.value_core.specs.Contents.{Contents};
ghost use Rattle.value_core.specs.Meaning.{has_key, under_key, with_row as with_this, without_key};
ghost use Rattle.value_bytes.specs.Spelling.{Spells};
ghost use Rattle.apply_core.specs.Remade.{Remade};

use crate::find::find_text;
use crate::header::opened;
use crate::skip::{before, datum_at, skip};
use crate::splice::{joined, over_row, with_row};
use std::alloc::Global;
use value_core::datum::Datum;
use value_core::kind::{Elem, Kind};
use value_core::limits::MOST_ELEMENTS;
use value_core::refusal::{GrowFault, Refusal};
use value_core::text::Text;

/// Whether the table that these bytes spell has a key.
pub fn has(sort: Elem, bytes: &[u8], key: &Text) -> bool
    ensures { (v : Contents) → Spells bytes.now (kinds.Table sort) v → result ≡ has_key v key.now }
{
    let (count, entries) = opened(bytes);
    let (there, _, _) = find_text(sort, count, entries, key);
    there
}

/// What stands under a key of the table that these bytes spell. Refused `missing` where the table has no such key.
pub fn lookup(sort: Elem, bytes: &[u8], key: &Text) -> Result<Datum, Refusal>
    ensures value { (v : Contents) → Spells bytes.now (kinds.Table sort) v → result ≡ under_key v key.now }
    ensures sort { IfOk result (IsElement sort) }
{
    let (count, entries) = opened(bytes);
    let (there, _, value) = find_text(sort, count, entries, key);
    if !there {
        return Err(Refusal::Missing);
    }
    match datum_at(sort, value) {
        Some(datum) => Ok(datum),
        None => Err(Refusal::Missing),
    }
}

/// The bytes with an element under a key of the table that these spell. Refused `full` for a new key at 1,024 keys,
/// then `Memory`.
pub fn store(
    alloc: Global,
    sort: Elem,
    bytes: &[u8],
    key: &Text,
    datum: &Datum,
) -> Result<Vec<u8>, GrowFault>
    requires { elem_of datum.now ≡ sort }
    ensures { (v : Contents) → Spells bytes.now (kinds.Table sort) v →
        Remade (kinds.Table sort) result (with_this v key.now datum.now) }
{
    // Called for their contracts alone: this is a datum, and a key is a text.
    let _sort = datum.elem();
    let _bytes = key.bytes();
    let (count, entries) = opened(bytes);
    let (there, rest, value) = find_text(sort, count, entries, key);
    let front = before(entries, rest);
    if there {
        let Some(next) = skip(sort, value) else {
            return Err(GrowFault::Refused(Refusal::Full));
        };
        return match over_row(alloc, Kind::Table(sort), count, front, key, datum, next) {
            Ok(out) => Ok(out),
            Err(_) => Err(GrowFault::Memory),
        };
    }
    if count >= MOST_ELEMENTS {
        return Err(GrowFault::Refused(Refusal::Full));
    }
    match with_row(alloc, Kind::Table(sort), count + 1, front, key, datum, rest) {
        Ok(out) => Ok(out),
        Err(_) => Err(GrowFault::Memory),
    }
}

/// The bytes without a key of the table that these spell. Refused `missing` where the table has no such key, then
/// `Memory`.
pub fn erase(alloc: Global, sort: Elem, bytes: &[u8], key: &Text) -> Result<Vec<u8>, GrowFault>
    ensures { (v : Contents) → Spells bytes.now (kinds.Table sort) v →
        Remade (kinds.Table sort) result (without_key v key.now) }
{
    let (count, entries) = opened(bytes);
    let (there, rest, value) = find_text(sort, count, entries, key);
    if !there {
        return Err(GrowFault::Refused(Refusal::Missing));
    }
    let front = before(entries, rest);
    let Some(next) = skip(sort, value) else {
        return Err(GrowFault::Refused(Refusal::Missing));
    };
    match joined(
        alloc,
        Kind::Table(sort),
        count.saturating_sub(1),
        front,
        next,
    ) {
        Ok(out) => Ok(out),
        Err(_) => Err(GrowFault::Memory),
    }
}
