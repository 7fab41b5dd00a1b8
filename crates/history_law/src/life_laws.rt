//! The laws, each a function without a body whose contract it is.

ghost use Rattle.history_law.specs.Ends.{TurnsEndSo, HeldSaysSo, CrashSaysHeld};
ghost use Rattle.history_law.specs.LifeKeeps.{ObjectsKeep};
ghost use Rattle.history_law.specs.TurnLives.{WrittenLivesOn, FirstStarts, BehindStarts, CrashLeavesLives};
ghost use Rattle.history_law.specs.Rows.{FrontHasRows, FirstHasRows, NextHasRows, FirstKeeps, BehindKeeps};

use recover_core::laws::held_are_lines;

/// An object keeps what its fronts need, however many epochs it begins.
pub fn objects_keep()
    ensures { ObjectsKeep }
{}

/// Each line of a front of such an object says something by itself.
pub fn front_has_rows()
    ensures { FrontHasRows }
{}

/// So does each line of the front of its own epoch,
pub fn first_has_rows()
    ensures { FirstHasRows }
{}

/// and of the next one.
pub fn next_has_rows()
    ensures { NextHasRows }
{}

/// An object of which there was no journal keeps it,
pub fn first_keeps()
    ensures { FirstKeeps }
{}

/// and so does one that goes on behind the lines of its journal.
pub fn behind_keeps()
    ensures { BehindKeeps }
{}

/// What a start reads of a front that was written, and of the first bytes of the lines behind it, however many, is an epoch of the
/// object behind the ones before it; and the front is the one that was written.
pub fn written_lives_on()
    ensures { WrittenLivesOn }
{}

/// After a crash, where answers wait for the disk, so it is of each journal: of the text by which it last began anew, or of that
/// which the start wrote.
pub fn crash_leaves_lives()
    ensures { CrashLeavesLives }
{}

/// The calls that ended in any turns could have been asked of the object, and have a reply of their operation; their numbers are
/// those that were told, in 64 bits.
pub fn turns_end_so()
    ensures { TurnsEndSo }
{}

/// So each line of what is held says something by itself, by the law of `recover_core`.
pub fn held_says_so()
    ensures { HeldSaysSo }
{
    held_are_lines();
}

/// An object of which there was no journal begins so,
pub fn first_starts()
    ensures { FirstStarts }
{}

/// and so does one that goes on behind its journal: it has lived in the epoch that was read, and in those before.
pub fn behind_starts()
    ensures { BehindStarts }
{}

/// After a crash, where answers wait for the disk, the text by which a journal last began anew says of its object and of what is
/// held just that, wherever a crash has cut what stands behind it; and so does what the start wrote.
pub fn crash_says_held()
    ensures { CrashSaysHeld }
{
    held_are_lines();
}
