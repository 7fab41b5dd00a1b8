//! The opening value of a part.

ghost use Rattle.std.specs.Prelude.{◌≡◌, ◌↔◌, IsTrue, ℕ, List, IfOk, MatchOption, Some, slice_get};
ghost use Rattle.value_core.specs.Contents.{Contents};
ghost use Rattle.value_bytes.specs.Spelling.{SpellsInSome};
ghost use Rattle.decl_core.specs.ObjectMap.{parts_of};
ghost use Rattle.audit_core.specs.Tells.{IsHex};
ghost use Rattle.audit_core.specs.Parts.{IsPartAt};

use decl_core::object::Part;
use hex::FromHexError;
use std::alloc::{AllocError, Global};
use value_bytes::decode::{DecodeFault, decode_kept};
use value_core::kind::Kind;
use value_core::value::Value;

// The bytes of a word in lower-case hexadecimal.
fn read_hex(alloc: Global, word: &[u8]) -> Result<Option<Vec<u8>>, AllocError>
    ensures { IfOk result (λ found. MatchOption found ((bytes : List ℕ) → IsHex word.now bytes → ⊥)
        (λ v. IsHex word.now v.items)) }
{
    match hex::decode(alloc, word) {
        Ok(bytes) => {
            let lower = hex::encode(alloc, bytes.as_slice())?;
            if is_same(lower.as_bytes(), word) {
                return Ok(Some(bytes));
            }
            Ok(None)
        }
        Err(FromHexError::OutOfMemory) => Err(AllocError),
        Err(_) => Ok(None),
    }
}

fn is_same(a: &[u8], b: &[u8]) -> bool
    ensures { IsTrue result ↔ (a.now ≡ b.now) }
{
    a == b
}

// The value of a kind that a word spells in lower-case hexadecimal, in either format.
fn read_spelled(alloc: Global, kind: Kind, word: &[u8]) -> Result<Option<Value>, AllocError>
    ensures { IfOk result (λ found. MatchOption found
        ((bytes : List ℕ) (value : Contents) → IsHex word.now bytes → SpellsInSome bytes kind value → ⊥)
        (λ value. (bytes : List ℕ) × IsHex word.now bytes × SpellsInSome bytes kind value)) }
{
    let Some(bytes) = read_hex(alloc, word)? else {
        return Ok(None);
    };
    match decode_kept(alloc, kind, &bytes) {
        Ok(value) => Ok(Some(value)),
        Err(DecodeFault::Damaged) => Ok(None),
        Err(DecodeFault::Memory) => Err(AllocError),
    }
}

/// The value of the part at a place, where it has this name and the word spells a value of its kind in either format.
pub fn read_value(
    alloc: Global,
    parts: &[Part],
    place: usize,
    name: &[u8],
    word: &[u8],
) -> Result<Option<Value>, AllocError>
    ensures { IfOk result (λ found. MatchOption found ((value : Contents) →
        IsPartAt (parts_of parts.now) place name.now word.now value → ⊥)
        (IsPartAt (parts_of parts.now) place name.now word.now)) }
{
    match parts.get(place) {
        None => Ok(None),
        Some(part) => {
            if !is_same(part.name.as_bytes(), name) {
                return Ok(None);
            }
            read_spelled(alloc, part.kind, word)
        }
    }
}
