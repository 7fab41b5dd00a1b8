//! The laws, each a function without a body whose contract it is.

ghost use Rattle.std.specs.Prelude.{IfOk};
ghost use Rattle.history_law.specs.Asker.{RepliesAreAsked, WaitsAreAsked, CrashLeavesAsked};
ghost use Rattle.history_law.specs.Asker.{AreAskedFrom, CrashLeavesAskedFrom};

use client_core::all::AllHeld;
use live_core::hosted::Hosted;
use std::alloc::{AllocError, Global};
use table_core::table::Table;

/// A text that tells a connection how a call ended tells it of a call for which a line of this connection asked: of the
/// operation of this name, with these arguments, of the object that a line of it asked to open. Its number was told to this
/// connection before, and it stands in the one history of its object, where this is the reply of the sequential object.
pub fn replies_are_asked()
    ensures { RepliesAreAsked }
{}

/// Behind any turns each connection that waits waits for a call of its session for which a line of it asked, and of which it
/// was told the number; no two wait by one session of one object; and what is held of a connection are lines that it said.
pub fn waits_are_asked()
    ensures { WaitsAreAsked }
{}

/// After a crash, where answers wait for the disk, the one history of turns is such.
pub fn crash_leaves_asked()
    ensures { CrashLeavesAsked }
{}

/// Of a table that is made nobody has opened an object: so all of that is so from it on. Each table of a server is made so.
pub fn made_are_asked(
    alloc: Global,
    objects: Vec<Hosted>,
    custody: AllHeld,
    places: usize,
    now: u64,
) -> Result<Table, AllocError>
    ensures asked { IfOk result AreAskedFrom }
    ensures crash { IfOk result CrashLeavesAskedFrom }
{
    Table::with_held(alloc, objects, custody, places, now)
}
