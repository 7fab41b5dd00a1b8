//! Where a key stands among the rows of a table, or would go.

ghost use Rattle.std.specs.Prelude.{◌≡◌, ◌<◌, List, ℕ, All, IsTrue, IsFalse};
ghost use Rattle.std.specs.FinMap.{FinMap, entries};
ghost use Rattle.value_core.specs.TextOrder.{text_cmp};
ghost use Rattle.value_core.specs.declared.datum.Datum.{Datum};
ghost use Rattle.value_core.specs.declared.format.Format.TheVariants.{Second};
ghost use Rattle.value_bytes.specs.Spelling.{SpellRows};
ghost use Rattle.apply_core.specs.Cuts.{StandsIn, GapIn};

use crate::order::order;
use crate::skip::{skip, split_text};
use std::cmp::Ordering;
use value_core::kind::Elem;
use value_core::text::Text;

// As `find_text`, by the bytes of a key.
fn find<'a>(sort: Elem, count: u16, bytes: &'a [u8], key: &[u8]) -> (bool, &'a [u8], &'a [u8])
    ensures stands { IsTrue result.0 → (m : FinMap text_cmp Datum) → SpellRows Second bytes.now sort count m →
        StandsIn (entries m) key.now bytes.now result.1.now result.2.now }
    ensures gap { IsFalse result.0 → (m : FinMap text_cmp Datum) → SpellRows Second bytes.now sort count m →
        GapIn (entries m) key.now bytes.now result.1.now }
{
    let mut rest = bytes;
    for place in 0..count {
        let Some((front, value)) = split_text(rest) else {
            return (false, rest, rest);
        };
        match order(front, key) {
            Ordering::Less => (),
            Ordering::Equal => return (true, rest, value),
            Ordering::Greater => return (false, rest, value),
        }
        let Some(next) = skip(sort, value) else {
            return (false, rest, rest);
        };
        rest = next;
    }
    (false, rest, rest)
}

/// Where a key stands among so many rows: whether it is there; the rows from its own on, and what is behind it in its
/// row. Where it is not there, the rows from its place on. It looks at lengths, and at keys up to its place.
pub fn find_text<'a>(
    sort: Elem,
    count: u16,
    bytes: &'a [u8],
    key: &Text,
) -> (bool, &'a [u8], &'a [u8])
    ensures stands { IsTrue result.0 → (m : FinMap text_cmp Datum) → SpellRows Second bytes.now sort count m →
        StandsIn (entries m) key.now bytes.now result.1.now result.2.now }
    ensures gap { IsFalse result.0 → (m : FinMap text_cmp Datum) → SpellRows Second bytes.now sort count m →
        GapIn (entries m) key.now bytes.now result.1.now }
{
    find(sort, count, bytes, key.bytes())
}
