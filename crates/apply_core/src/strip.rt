//! Entries that lie one behind the other in bytes, in the second format: they are walked without memory.

ghost use Rattle.std.specs.Int.{w16, w32, to_be_bytes};
ghost use Rattle.value_core.specs.declared.kind.Elem.TheVariants as elem;
ghost use Rattle.std.specs.Prelude.{◌≡◌, ◌≢◌, ◌<◌, ◌^◌, ◌++◌, ◌↔◌, List, [], ℕ, IfSome, IfNone, IsTrue, IsFalse};
ghost use Rattle.std.specs.FinMap.{FinMap};
ghost use Rattle.value_core.specs.Plain.{IsText};
ghost use Rattle.value_core.specs.TextOrder.{text_cmp};
ghost use Rattle.value_core.specs.declared.datum.Datum.{Datum};
ghost use Rattle.value_core.specs.declared.format.Format.TheVariants.{Second};
ghost use Rattle.value_core.specs.Datum.{IsElement};
ghost use Rattle.value_core.specs.Contents.{IsRow};
ghost use Rattle.value_bytes.specs.Spelling.{spelled_text, spelled_datum, spelled_row, SpellElements, SpellRows, IsAfter};
ghost use Rattle.apply_core.specs.There.{last_key, BytesTell};

use crate::order::order;
use crate::plain::is_text;
use std::cmp::Ordering;
use value_core::kind::Elem;
use value_core::limits::TextLength;

/// The number in two bytes, and what is behind it.
pub fn past_length(bytes: &[u8]) -> Option<(TextLength, &[u8])>
    ensures some { IfSome result (λ r. (bytes.now ≡ to_be_bytes w16 r.0 ++ r.1.now) × (r.0 < 2 ^ 16)) }
    ensures none { IfNone result ((n : ℕ) (rest : List ℕ) → bytes.now ≢ to_be_bytes w16 n ++ rest) }
{
    match bytes {
        [high, low, rest @ ..] => Some((TextLength::from_be_bytes([*high, *low]), rest)),
        _ => None,
    }
}

/// The bytes of the text at the front, and what is behind it.
pub fn past_text(bytes: &[u8]) -> Option<(&[u8], &[u8])>
    ensures some { IfSome result (λ r. IsText r.0.now × (bytes.now ≡ spelled_text r.0.now ++ r.1.now)) }
    ensures none { IfNone result ((text rest : List ℕ) → IsText text → bytes.now ≢ spelled_text text ++ rest) }
{
    let Some((len, rest)) = past_length(bytes) else {
        return None;
    };
    if rest.len() < len as usize {
        return None;
    }
    let (text, behind) = rest.split_at(len as usize);
    if !is_text(text) {
        return None;
    }
    Some((text, behind))
}

/// The integer of four bytes at the front, the highest first, and what is behind it.
pub fn read_integer(bytes: &[u8]) -> Option<(u32, &[u8])>
    ensures some { IfSome result (λ r. (bytes.now ≡ to_be_bytes w32 r.0 ++ r.1.now) × (r.0 < 2 ^ 32)) }
    ensures none { IfNone result ((n : ℕ) (rest : List ℕ) → bytes.now ≢ to_be_bytes w32 n ++ rest) }
{
    match bytes {
        [a, b, c, d, rest @ ..] => Some((u32::from_be_bytes([*a, *b, *c, *d]), rest)),
        _ => None,
    }
}

// What is behind the integer at the front.
fn past_integer(bytes: &[u8]) -> Option<&[u8]>
    ensures some { IfSome result (λ rest. (d : Datum) × IsElement elem.Integer d
        × (bytes.now ≡ spelled_datum d ++ rest.now)) }
    ensures none { IfNone result ((d : Datum) (rest : List ℕ) → IsElement elem.Integer d →
        bytes.now ≢ spelled_datum d ++ rest) }
{
    match read_integer(bytes) {
        Some((_, rest)) => Some(rest),
        None => None,
    }
}

// What is behind the text at the front, as an element.
fn past_one_text(bytes: &[u8]) -> Option<&[u8]>
    ensures some { IfSome result (λ rest. (d : Datum) × IsElement elem.Text d
        × (bytes.now ≡ spelled_datum d ++ rest.now)) }
    ensures none { IfNone result ((d : Datum) (rest : List ℕ) → IsElement elem.Text d →
        bytes.now ≢ spelled_datum d ++ rest) }
{
    match past_text(bytes) {
        Some((_, rest)) => Some(rest),
        None => None,
    }
}

/// What is behind the element at the front.
pub fn past_datum(sort: Elem, bytes: &[u8]) -> Option<&[u8]>
    ensures some { IfSome result (λ rest. (d : Datum) × IsElement sort d
        × (bytes.now ≡ spelled_datum d ++ rest.now)) }
    ensures none { IfNone result ((d : Datum) (rest : List ℕ) → IsElement sort d →
        bytes.now ≢ spelled_datum d ++ rest) }
{
    match sort {
        Elem::Integer => past_integer(bytes),
        Elem::Text => past_one_text(bytes),
    }
}

// Whether no byte is left.
fn is_end(bytes: &[u8]) -> bool
    ensures yes { IsTrue result → bytes.now ≡ [] }
    ensures no { IsFalse result → bytes.now ≢ [] }
{
    match bytes {
        [] => true,
        _ => false,
    }
}

// Whether the bytes are so many integers: each four bytes are one.
fn are_integers(count: u16, bytes: &[u8]) -> bool
    ensures yes { IsTrue result → (xs : List Datum) × SpellElements Second bytes.now elem.Integer count xs }
    ensures no { IsFalse result → (xs : List Datum) → SpellElements Second bytes.now elem.Integer count xs → ⊥ }
{
    bytes.len() == count as usize * 4
}

// Whether the bytes are so many texts.
fn are_texts(count: u16, bytes: &[u8]) -> bool
    ensures yes { IsTrue result → (xs : List Datum) × SpellElements Second bytes.now elem.Text count xs }
    ensures no { IsFalse result → (xs : List Datum) → SpellElements Second bytes.now elem.Text count xs → ⊥ }
{
    let mut rest = bytes;
    for place in 0..count {
        let Some(behind) = past_one_text(rest) else {
            return false;
        };
        rest = behind;
    }
    is_end(rest)
}

/// Whether the bytes are so many elements of this sort.
pub fn are_elements(sort: Elem, count: u16, bytes: &[u8]) -> bool
    ensures yes { IsTrue result → (xs : List Datum) × SpellElements Second bytes.now sort count xs }
    ensures no { IsFalse result → (xs : List Datum) → SpellElements Second bytes.now sort count xs → ⊥ }
{
    match sort {
        Elem::Integer => are_integers(count, bytes),
        Elem::Text => are_texts(count, bytes),
    }
}

// The key of the row at the front, and what is behind the row.
fn past_row(sort: Elem, bytes: &[u8]) -> Option<(&[u8], &[u8])>
    ensures some { IfSome result (λ r. (d : Datum) × IsRow sort (r.0.now, d)
        × (bytes.now ≡ spelled_row (r.0.now, d) ++ r.1.now)) }
    ensures none { IfNone result ((row : List ℕ × Datum) (rest : List ℕ) → IsRow sort row →
        bytes.now ≢ spelled_row row ++ rest) }
{
    let Some((key, behind)) = past_text(bytes) else {
        return None;
    };
    let Some(rest) = past_datum(sort, behind) else {
        return None;
    };
    Some((key, rest))
}

// Whether a key is the first one, or comes after the last one.
fn rises(first: bool, last: &[u8], key: &[u8]) -> bool
    ensures { IsTrue result ↔ IsAfter (last_key first last.now) key.now }
{
    if first {
        return true;
    }
    matches!(order(last, key), Ordering::Less)
}

/// Whether the bytes are so many rows of a table, keys rising.
pub fn are_rows(sort: Elem, count: u16, bytes: &[u8]) -> bool
    ensures yes { IsTrue result → (m : FinMap text_cmp Datum) × SpellRows Second bytes.now sort count m }
    ensures no { IsFalse result → (m : FinMap text_cmp Datum) → SpellRows Second bytes.now sort count m → ⊥ }
{
    let mut rest = bytes;
    let mut last: &[u8] = &[];
    let mut first = true;
    for place in 0..count {
        let Some((key, behind)) = past_row(sort, rest) else {
            return false;
        };
        if !rises(first, last, key) {
            return false;
        }
        last = key;
        first = false;
        rest = behind;
    }
    is_end(rest)
}

/// Bytes tell the value that they spell.
pub fn bytes_tell()
    ensures { BytesTell }
{}
