//! The values of an object that ends, as `serve` saves them.

ghost use Rattle.std.specs.Prelude.{◌≡◌, ◌++◌, List, ℕ, IfOk, OnOk, OnErr};
ghost use Rattle.device_core.specs.Papers.{Papers, part_key};
ghost use Rattle.keep_core.specs.Saved.{IsSaved, MayBeSaved};

use device_core::hand::HandFault;
use device_core::shelf::Shelf;
use path_tree::name::Name;
use std::alloc::{AllocError, Global};
use value_bytes::encode::encode;
use value_core::value::Value;

// The name of a part on a shelf, `OBJECT.PART`.
pub(crate) fn key_of(alloc: Global, object: &Name, part: &Name) -> Result<Vec<u8>, AllocError>
    ensures { IfOk result (λ key. key.items ≡ part_key object.now part.now) }
{
    let mut key = Vec::new(alloc);
    key.extend_from_slice(object.as_bytes())?;
    key.extend_from_slice(b".")?;
    key.extend_from_slice(part.as_bytes())?;
    Ok(key)
}

// Stores the value of a part under the part's name, spelled in the second format. After a failure either that or what was
// there before is there.
pub(crate) fn save_value<S: Shelf>(
    alloc: Global,
    object: &Name,
    part: &Name,
    value: &Value,
    shelf: &mut S,
) -> Result<(), HandFault>
    ensures saved { OnOk result ((papers : Papers) → S.holds shelf.new papers → (before : Papers)
        × S.holds shelf.old before × IsSaved before (part_key object.now part.now) value.now papers) }
    ensures left { OnErr result ((papers : Papers) → S.holds shelf.new papers → (before : Papers)
        × S.holds shelf.old before × MayBeSaved before (part_key object.now part.now) value.now papers) }
{
    let Ok(key) = key_of(alloc, object, part) else {
        return Err(HandFault::Memory);
    };
    let Ok(bytes) = encode(alloc, value) else {
        return Err(HandFault::Memory);
    };
    match shelf.store(&key, &bytes) {
        Ok(()) => Ok(()),
        Err(fault) => Err(fault),
    }
}
