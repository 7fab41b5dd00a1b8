//! What stands at the front of bytes that are entries of a value: it is passed by its length alone, or read.

ghost use Rattle.std.specs.Int.{w16, w32, to_be_bytes};
ghost use Rattle.value_core.specs.declared.kind.Elem.TheVariants as elem;
ghost use Rattle.std.specs.Prelude.{◌≡◌, ◌≢◌, ◌<◌, ◌≤◌, ◌^◌, ◌++◌, List, ℕ, All, IfSome, IfNone, length, drop};
ghost use Rattle.std.specs.List.{flat_map};
ghost use Rattle.value_core.specs.Plain.{IsText};
ghost use Rattle.value_core.specs.declared.datum.Datum.{Datum};
ghost use Rattle.value_core.specs.Datum.{IsElement};
ghost use Rattle.value_bytes.specs.Spelling.{spelled_text, spelled_datum};

use crate::strip::{past_length, read_integer};
use value_core::datum::Datum;
use value_core::kind::Elem;
use value_core::text::Text;

// So many first bytes, and those behind them.
fn cut(bytes: &[u8], len: usize) -> (&[u8], &[u8])
    requires { len ≤ length bytes.now }
    ensures whole { bytes.now ≡ result.0.now ++ result.1.now }
    ensures len { length result.0.now ≡ len }
{
    bytes.split_at(len)
}

/// The bytes before those that are the end of these.
pub fn before<'a>(bytes: &'a [u8], rest: &[u8]) -> &'a [u8]
    ensures { (front : List ℕ) → bytes.now ≡ front ++ rest.now → result.now ≡ front }
{
    let (front, _) = cut(bytes, bytes.len().saturating_sub(rest.len()));
    front
}

/// The bytes of the text at the front, where one stands there, and what is behind it. It looks at its length alone.
pub fn split_text(bytes: &[u8]) -> Option<(&[u8], &[u8])>
    ensures some { IfSome result (λ r. (text rest : List ℕ) → IsText text → bytes.now ≡ spelled_text text ++ rest →
        (r.0.now ≡ text) × (r.1.now ≡ rest)) }
    ensures none { IfNone result ((text rest : List ℕ) → IsText text → bytes.now ≢ spelled_text text ++ rest) }
{
    let Some((len, behind)) = past_length(bytes) else {
        return None;
    };
    if behind.len() < len as usize {
        return None;
    }
    let (text, rest) = cut(behind, len as usize);
    Some((text, rest))
}

// What is behind the integer at the front, where one stands there.
fn skip_integer(bytes: &[u8]) -> Option<&[u8]>
    ensures some { IfSome result (λ r. (d : Datum) (rest : List ℕ) → IsElement elem.Integer d →
        bytes.now ≡ spelled_datum d ++ rest → r.now ≡ rest) }
    ensures none { IfNone result ((d : Datum) (rest : List ℕ) → IsElement elem.Integer d →
        bytes.now ≢ spelled_datum d ++ rest) }
{
    match read_integer(bytes) {
        Some((_, rest)) => Some(rest),
        None => None,
    }
}

// What is behind the text at the front, where one stands there.
fn skip_text(bytes: &[u8]) -> Option<&[u8]>
    ensures some { IfSome result (λ r. (d : Datum) (rest : List ℕ) → IsElement elem.Text d →
        bytes.now ≡ spelled_datum d ++ rest → r.now ≡ rest) }
    ensures none { IfNone result ((d : Datum) (rest : List ℕ) → IsElement elem.Text d →
        bytes.now ≢ spelled_datum d ++ rest) }
{
    match split_text(bytes) {
        Some((_, rest)) => Some(rest),
        None => None,
    }
}

/// What is behind the element at the front, where one stands there. It looks at its length alone.
pub fn skip(sort: Elem, bytes: &[u8]) -> Option<&[u8]>
    ensures some { IfSome result (λ r. (d : Datum) (rest : List ℕ) → IsElement sort d →
        bytes.now ≡ spelled_datum d ++ rest → r.now ≡ rest) }
    ensures none { IfNone result ((d : Datum) (rest : List ℕ) → IsElement sort d →
        bytes.now ≢ spelled_datum d ++ rest) }
{
    match sort {
        Elem::Integer => skip_integer(bytes),
        Elem::Text => skip_text(bytes),
    }
}

// What is behind so many integers, where there are so many: each takes four bytes.
fn behind_integers(count: usize, bytes: &[u8]) -> &[u8]
    ensures { (xs : List Datum) → All (IsElement elem.Integer) xs → bytes.now ≡ flat_map spelled_datum xs →
        count ≤ length xs → result.now ≡ flat_map spelled_datum (drop count xs) }
{
    if count > bytes.len() / 4 {
        return bytes;
    }
    let (_, rest) = cut(bytes, count * 4);
    rest
}

// What is behind so many texts, where there are so many: their lengths are walked.
fn behind_texts(count: usize, bytes: &[u8]) -> &[u8]
    ensures { (xs : List Datum) → All (IsElement elem.Text) xs → bytes.now ≡ flat_map spelled_datum xs →
        count ≤ length xs → result.now ≡ flat_map spelled_datum (drop count xs) }
{
    let mut rest = bytes;
    for place in 0..count {
        let Some(next) = skip_text(rest) else {
            return rest;
        };
        rest = next;
    }
    rest
}

/// What is behind so many elements, where there are so many.
pub fn behind(sort: Elem, count: usize, bytes: &[u8]) -> &[u8]
    ensures { (xs : List Datum) → All (IsElement sort) xs → bytes.now ≡ flat_map spelled_datum xs →
        count ≤ length xs → result.now ≡ flat_map spelled_datum (drop count xs) }
{
    match sort {
        Elem::Integer => behind_integers(count, bytes),
        Elem::Text => behind_texts(count, bytes),
    }
}

// The integer at the front, where one stands there.
fn integer_at(bytes: &[u8]) -> Option<Datum>
    ensures some { IfSome result (IsElement elem.Integer) }
    ensures some_is { IfSome result (λ r. (d : Datum) (rest : List ℕ) → IsElement elem.Integer d →
        bytes.now ≡ spelled_datum d ++ rest → r ≡ d) }
    ensures none { IfNone result ((d : Datum) (rest : List ℕ) → IsElement elem.Integer d →
        bytes.now ≢ spelled_datum d ++ rest) }
{
    match read_integer(bytes) {
        Some((number, _)) => Some(Datum::Integer(number)),
        None => None,
    }
}

// The text at the front, where one stands there.
fn text_at(bytes: &[u8]) -> Option<Datum>
    ensures some { IfSome result (IsElement elem.Text) }
    ensures some_is { IfSome result (λ r. (d : Datum) (rest : List ℕ) → IsElement elem.Text d →
        bytes.now ≡ spelled_datum d ++ rest → r ≡ d) }
    ensures none { IfNone result ((d : Datum) (rest : List ℕ) → IsElement elem.Text d →
        bytes.now ≢ spelled_datum d ++ rest) }
{
    let Some((front, _)) = split_text(bytes) else {
        return None;
    };
    match Text::from_bytes(front) {
        Some(text) => Some(Datum::Text(text)),
        None => None,
    }
}

/// The element at the front, where one stands there.
pub fn datum_at(sort: Elem, bytes: &[u8]) -> Option<Datum>
    ensures some { IfSome result (IsElement sort) }
    ensures some_is { IfSome result (λ r. (d : Datum) (rest : List ℕ) → IsElement sort d →
        bytes.now ≡ spelled_datum d ++ rest → r ≡ d) }
    ensures none { IfNone result ((d : Datum) (rest : List ℕ) → IsElement sort d →
        bytes.now ≢ spelled_datum d ++ rest) }
{
    match sort {
        Elem::Integer => integer_at(bytes),
        Elem::Text => text_at(bytes),
    }
}
