//! How objects that were served end.

ghost use Rattle.std.specs.Prelude.{◌≡◌, IfErr, OnOk};
ghost use Rattle.answer_core.specs.declared.failure.ToolFailure.TheVariants.{WriteFault};
ghost use Rattle.device_core.specs.Papers.{Papers};
ghost use Rattle.keep_core.specs.Ending.{ObjectsAreSaved};

use answer_core::failure::ToolFailure;
use device_core::hand::HandFault;
use device_core::shelf::Shelf;
use keep_core::ending::save_objects;
use live_core::hosted::Hosted;
use std::alloc::Global;
use std::io::Write;
use value_core::write_whole;

// Writes a line whole.
pub(crate) fn say<W: Write>(writer: &mut W, line: &[u8]) -> Result<(), ToolFailure>
    ensures { IfErr result (λ failure. failure ≡ WriteFault) }
{
    match write_whole(writer, line) {
        Ok(()) => Ok(()),
        Err(_) => Err(ToolFailure::WriteFault),
    }
}

// `NAME entries K` for each object, in order: so many calls of it finished since the server began.
fn tell_entries<W: Write>(
    alloc: Global,
    objects: &[Hosted],
    writer: &mut W,
) -> Result<(), ToolFailure> {
    for hosted in objects {
        let entries = hosted.entries();
        let mut line = hosted.name().as_bytes().to_vec(alloc)?;
        let told = format!(in alloc; " entries {entries}\n")?;
        line.extend_from_slice(told.as_bytes())?;
        say(writer, &line)?;
    }
    Ok(())
}

/// Ends objects that were served: their parts are saved, for people and for another folder (here they are read from the
/// journals alone), and `NAME entries K` is said of each.
///
/// A failure is `Memory`, or `WriteFault` where a part or a line could not be written. What is wrong with one part keeps no
/// other one from being saved.
pub fn end_objects<S: Shelf, W: Write, E: Write>(
    alloc: Global,
    objects: &[Hosted],
    shelf: &mut S,
    writer: &mut W,
    error: &mut E,
) -> Result<(), ToolFailure>
    ensures saved { OnOk result ((papers : Papers) → S.holds shelf.new papers → (before : Papers)
        × S.holds shelf.old before × ObjectsAreSaved objects.now before papers) }
{
    let saved = save_objects(alloc, objects, shelf, error);
    let told = tell_entries(alloc, objects, writer);
    match saved {
        Ok(()) => told,
        Err(HandFault::Device) => Err(ToolFailure::WriteFault),
        Err(HandFault::Memory) => Err(ToolFailure::Memory),
    }
}
