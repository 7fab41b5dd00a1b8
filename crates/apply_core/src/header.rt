//! The front of the bytes of a value, and whether bytes spell one.

ghost use Rattle.std.specs.Int.{w16, to_be_bytes};
ghost use Rattle.std.specs.Prelude.{◌≡◌, ◌≢◌, ◌<◌, ◌≤◌, ◌^◌, ◌++◌, ◌∷◌, List, ℕ, IfSome, IfNone, IsTrue, IsFalse};
ghost use Rattle.value_core.specs.declared.kind.Kind.{Kind};
ghost use Rattle.value_core.specs.Limits.{most_elements};
ghost use Rattle.value_core.specs.Contents.{Contents};
ghost use Rattle.value_core.specs.Meaning.{count_of};
ghost use Rattle.value_bytes.specs.Spelling.{header, Spells};
ghost use Rattle.apply_core.specs.Entries.{behind_header};

use crate::splice::{NUMBER, code};
use crate::strip::{are_elements, are_rows};
use value_core::kind::Kind;
use value_core::limits::MOST_ELEMENTS;

// The byte of the kind, the number of entries, and the bytes behind.
fn read_header(bytes: &[u8]) -> Option<(u8, u16, &[u8])>
    ensures some { IfSome result (λ r. (bytes.now ≡ 2 ∷ r.0 ∷ to_be_bytes w16 r.1 ++ r.2.now) × (r.1 < 2 ^ 16)) }
    ensures none { IfNone result ((code count : ℕ) (rest : List ℕ) →
        bytes.now ≢ 2 ∷ code ∷ to_be_bytes w16 count ++ rest) }
{
    match bytes {
        [number, code, high, low, rest @ ..] => {
            if *number != NUMBER {
                return None;
            }
            Some((*code, u16::from_be_bytes([*high, *low]), rest))
        }
        _ => None,
    }
}

/// The number of entries, and the bytes behind the header.
pub fn opened(bytes: &[u8]) -> (u16, &[u8])
    ensures { (k : Kind) (v : Contents) → Spells bytes.now k v →
        (result.0 ≡ count_of v) × (result.1.now ≡ behind_header v) }
{
    match read_header(bytes) {
        Some((_, count, rest)) => (count, rest),
        None => (0, bytes),
    }
}

/// The length of an array or a queue, the number of keys of a table; from 0 to 1,024.
pub fn count(bytes: &[u8]) -> u32
    ensures { (k : Kind) (v : Contents) → Spells bytes.now k v → result ≡ count_of v }
{
    let (count, _) = opened(bytes);
    count as u32
}

// Whether the bytes behind the header spell a value of this kind, with so many entries.
fn spell_entries(kind: Kind, count: u16, bytes: &[u8]) -> bool
    requires { count ≤ most_elements }
    ensures yes { IsTrue result → (v : Contents) × Spells (header kind count ++ bytes.now) kind v }
    ensures no { IsFalse result → (v : Contents) → Spells (header kind count ++ bytes.now) kind v → ⊥ }
{
    match kind {
        Kind::Array(length, sort) => {
            if count != length {
                return false;
            }
            are_elements(sort, count, bytes)
        }
        Kind::Queue(sort) => are_elements(sort, count, bytes),
        Kind::Table(sort) => are_rows(sort, count, bytes),
    }
}

/// Whether the bytes spell a value of this kind. It takes no memory.
pub fn spell(kind: Kind, bytes: &[u8]) -> bool
    ensures yes { IsTrue result → (v : Contents) × Spells bytes.now kind v }
    ensures no { IsFalse result → (v : Contents) → Spells bytes.now kind v → ⊥ }
{
    let Some((byte, count, rest)) = read_header(bytes) else {
        return false;
    };
    if byte != code(kind) {
        return false;
    }
    if count > MOST_ELEMENTS {
        return false;
    }
    spell_entries(kind, count, rest)
}
