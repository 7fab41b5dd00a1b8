//! The parts of objects that end, saved for people and for `serve` in another folder.

ghost use Rattle.std.specs.Prelude.{OnOk};
ghost use Rattle.device_core.specs.Papers.{Papers};
ghost use Rattle.keep_core.specs.Ending.{AreSaved, MayAllBeSaved, ObjectsAreSaved, ObjectsMayBeSaved};

use crate::save::{key_of, save_value};
use decl_core::object::Part;
use device_core::hand::HandFault;
use device_core::shelf::Shelf;
use live_core::hosted::Hosted;
use path_tree::name::Name;
use std::alloc::Global;
use std::io::Write;
use value_core::value::Value;
use value_core::write_whole;

// `OBJECT.PART not saved`. Where there is no memory for the line, or nobody takes it, nothing is said.
fn tell_unsaved<E: Write>(alloc: Global, object: &Name, part: &Name, error: &mut E) {
    let Ok(mut line) = key_of(alloc, object, part) else {
        return;
    };
    if line.extend_from_slice(b" not saved\n").is_ok() {
        let _ = write_whole(error, &line);
    }
}

// Saves the values of these parts of an object, in order. What is wrong with one keeps no other one from being saved: it
// is said, and the last fault is the answer.
fn save_parts<S: Shelf, E: Write>(
    alloc: Global,
    object: &Name,
    parts: &[Part],
    values: &[Value],
    shelf: &mut S,
    error: &mut E,
) -> Result<(), HandFault>
    ensures saved { OnOk result ((papers : Papers) → S.holds shelf.new papers → (before : Papers)
        × S.holds shelf.old before × AreSaved object.now parts.now values.now before papers) }
    ensures left { (papers : Papers) → S.holds shelf.new papers → (before : Papers)
        × S.holds shelf.old before × MayAllBeSaved object.now parts.now values.now before papers }
{
    let Some((part, parts)) = parts.split_first() else {
        return Ok(());
    };
    let Some((value, values)) = values.split_first() else {
        // Each part has a value: this does not come.
        tell_unsaved(alloc, object, &part.name, error);
        return Err(HandFault::Device);
    };
    match save_value(alloc, object, &part.name, value, shelf) {
        Ok(()) => save_parts(alloc, object, parts, values, shelf, error),
        Err(fault) => {
            tell_unsaved(alloc, object, &part.name, error);
            match save_parts(alloc, object, parts, values, shelf, error) {
                Ok(()) => Err(fault),
                Err(last) => Err(last),
            }
        }
    }
}

// Saves the values of all parts of an object.
fn save_object<S: Shelf, E: Write>(
    alloc: Global,
    hosted: &Hosted,
    shelf: &mut S,
    error: &mut E,
) -> Result<(), HandFault>
    ensures saved { OnOk result ((papers : Papers) → S.holds shelf.new papers → (before : Papers)
        × S.holds shelf.old before × AreSaved hosted.now.hall.object.name hosted.now.hall.object.parts.items
        hosted.now.hall.contents before papers) }
    ensures left { (papers : Papers) → S.holds shelf.new papers → (before : Papers)
        × S.holds shelf.old before × MayAllBeSaved hosted.now.hall.object.name hosted.now.hall.object.parts.items
        hosted.now.hall.contents before papers }
{
    let live = hosted.live();
    let object = live.object();
    save_parts(
        alloc,
        &object.name,
        &object.parts,
        live.contents(),
        shelf,
        error,
    )
}

/// Saves the parts of each object, as `serve` does. What is wrong with one of them keeps no other one from being saved:
/// it is said, `OBJECT.PART not saved`, where somebody takes the line, and it is as it was or is saved.
///
/// The error is that of the last part that was not saved.
pub fn save_objects<S: Shelf, E: Write>(
    alloc: Global,
    objects: &[Hosted],
    shelf: &mut S,
    error: &mut E,
) -> Result<(), HandFault>
    ensures saved { OnOk result ((papers : Papers) → S.holds shelf.new papers → (before : Papers)
        × S.holds shelf.old before × ObjectsAreSaved objects.now before papers) }
    ensures left { (papers : Papers) → S.holds shelf.new papers → (before : Papers)
        × S.holds shelf.old before × ObjectsMayBeSaved objects.now before papers }
{
    let Some((hosted, rest)) = objects.split_first() else {
        return Ok(());
    };
    match save_object(alloc, hosted, shelf, error) {
        Ok(()) => save_objects(alloc, rest, shelf, error),
        Err(fault) => match save_objects(alloc, rest, shelf, error) {
            Ok(()) => Err(fault),
            Err(last) => Err(last),
        },
    }
}
