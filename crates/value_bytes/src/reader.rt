//! What stands at the front of bytes: each function answers it with the bytes behind it, or `None` where
//! the bytes begin with no such thing.

ghost use Rattle.std.specs.Prelude.{◌≡◌, ◌≢◌, ◌<◌, ◌^◌, ◌++◌, ◌∷◌, List, ℕ, IfSome, IfNone};
ghost use Rattle.std.specs.Int.{w16, w32, to_be_bytes};
ghost use Rattle.value_core.specs.declared.datum.Datum.{Datum};
ghost use Rattle.value_core.specs.Format.{most_text, IsTextIn};
ghost use Rattle.value_bytes.specs.Format.{number_of, spelled_length};
ghost use Rattle.value_core.specs.Datum.{IsElementIn};
ghost use Rattle.value_core.specs.Contents.{IsRowIn};
ghost use Rattle.value_bytes.specs.Spelling.{spelled_text_in, spelled_datum_in, spelled_row_in};

use crate::header::format_byte;
use value_core::datum::Datum;
use value_core::format::Format;
use value_core::kind::Elem;
use value_core::limits::TextLength;
use value_core::text::Text;

/// The byte of the kind, and the number of elements.
pub fn read_header(format: Format, bytes: &[u8]) -> Option<(u8, u16, &[u8])>
    ensures some { IfSome result (λ r. (bytes.now ≡ number_of format ∷ r.0 ∷ to_be_bytes w16 r.1 ++ r.2.now)
        × (r.1 < 2 ^ 16)) }
    ensures none { IfNone result ((code count : ℕ) (rest : List ℕ) →
        bytes.now ≢ number_of format ∷ code ∷ to_be_bytes w16 count ++ rest) }
{
    match bytes {
        [number, code, high, low, rest @ ..] => {
            if *number != format_byte(format) {
                return None;
            }
            Some((*code, u16::from_be_bytes([*high, *low]), rest))
        }
        _ => None,
    }
}

/// An integer of four bytes, the highest first.
pub fn read_integer(bytes: &[u8]) -> Option<(u32, &[u8])>
    ensures some { IfSome result (λ r. (bytes.now ≡ to_be_bytes w32 r.0 ++ r.1.now) × (r.0 < 2 ^ 32)) }
    ensures none { IfNone result ((n : ℕ) (rest : List ℕ) → bytes.now ≢ to_be_bytes w32 n ++ rest) }
{
    match bytes {
        [a, b, c, d, rest @ ..] => Some((u32::from_be_bytes([*a, *b, *c, *d]), rest)),
        _ => None,
    }
}

// The length of a text.
fn read_length(format: Format, bytes: &[u8]) -> Option<(TextLength, &[u8])>
    ensures some { IfSome result (λ r. (bytes.now ≡ spelled_length format r.0 ++ r.1.now) × (r.0 < 2 ^ 16)) }
    ensures none { IfNone result ((n : ℕ) (rest : List ℕ) → bytes.now ≢ spelled_length format n ++ rest) }
{
    match format {
        Format::First => match bytes {
            [len, rest @ ..] => Some((TextLength::from(*len), rest)),
            _ => None,
        },
        Format::Second => match bytes {
            [high, low, rest @ ..] => Some((TextLength::from_be_bytes([*high, *low]), rest)),
            _ => None,
        },
    }
}

// The most bytes of a text.
fn most_text(format: Format) -> TextLength
    ensures { result ≡ most_text format }
{
    match format {
        Format::First => 255,
        Format::Second => 1000,
    }
}

/// A text: its length, and its bytes.
pub fn read_text(format: Format, bytes: &[u8]) -> Option<(Text, &[u8])>
    ensures some { IfSome result (λ r. IsTextIn format r.0 × (bytes.now ≡ spelled_text_in format r.0 ++ r.1.now)) }
    ensures none { IfNone result ((text rest : List ℕ) → IsTextIn format text →
        bytes.now ≢ spelled_text_in format text ++ rest) }
{
    let Some((len, rest)) = read_length(format, bytes) else {
        return None;
    };
    if len > most_text(format) {
        return None;
    }
    if rest.len() < len as usize {
        return None;
    }
    let (front, behind) = rest.split_at(len as usize);
    let text = Text::from_bytes(front)?;
    Some((text, behind))
}

/// An integer or a text.
pub fn read_datum(format: Format, sort: Elem, bytes: &[u8]) -> Option<(Datum, &[u8])>
    ensures some { IfSome result (λ r. IsElementIn format sort r.0
        × (bytes.now ≡ spelled_datum_in format r.0 ++ r.1.now)) }
    ensures none { IfNone result ((datum : Datum) (rest : List ℕ) → IsElementIn format sort datum →
        bytes.now ≢ spelled_datum_in format datum ++ rest) }
{
    match sort {
        Elem::Integer => {
            let Some((number, rest)) = read_integer(bytes) else {
                return None;
            };
            Some((Datum::Integer(number), rest))
        }
        Elem::Text => {
            let Some((text, rest)) = read_text(format, bytes) else {
                return None;
            };
            Some((Datum::Text(text), rest))
        }
    }
}

/// The key of a table, and what stands under it.
pub fn read_row(format: Format, sort: Elem, bytes: &[u8]) -> Option<(Text, Datum, &[u8])>
    ensures some { IfSome result (λ r. IsRowIn format sort (r.0, r.1)
        × (bytes.now ≡ spelled_row_in format (r.0, r.1) ++ r.2.now)) }
    ensures none { IfNone result ((row : List ℕ × Datum) (rest : List ℕ) → IsRowIn format sort row →
        bytes.now ≢ spelled_row_in format row ++ rest) }
{
    let Some(front) = read_text(format, bytes) else {
        return None;
    };
    let (key, behind) = front;
    let Some((datum, rest)) = read_datum(format, sort, behind) else {
        return None;
    };
    Some((key, datum, rest))
}
