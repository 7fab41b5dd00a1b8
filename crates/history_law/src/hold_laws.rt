//! The laws, each a function without a body whose contract it is.

ghost use Rattle.history_law.specs.Ended.{TurnsHold};
ghost use Rattle.history_law.specs.Keeps.{ReadAreApart, TurnsKeepHolds, TurnsGiveOnce};
ghost use Rattle.history_law.specs.Newest.{DueStays, DueGivesNewest};
ghost use Rattle.history_law.specs.Played.{PlayedIsHeld, NextLeavesHeld, StartLeavesHeld};
ghost use Rattle.history_law.specs.Older.{RecoveredIsOlder, LifeKeepsHolds};
ghost use Rattle.history_law.specs.Crashed.{CrashLeavesHeld};

/// Over any turns, in which an object begins any number of epochs, what is held of it is what just the calls have left that
/// ended in them, in their order, each with the number that was told of it, behind those of before.
pub fn turns_hold()
    ensures { TurnsHold }
{}

/// In rules that are read each operation that ends a hold ends one alone, and what is called again and again ends none.
pub fn read_are_apart()
    ensures { ReadAreApart }
{}

/// Over any turns each call that waits may still be made by its session, by what is held; and each that ended could be, when
/// it did.
pub fn turns_keep_holds()
    ensures { TurnsKeepHolds }
{}

/// So of a hold that not everybody may end what was given back and what is held are together what was taken, over any turns.
pub fn turns_give_once()
    ensures { TurnsGiveOnce }
{}

/// Where a start recovers steps behind a front, and plays what was held behind it, it holds what the calls of just these steps
/// have left.
pub fn played_is_held()
    ensures { PlayedIsHeld }
{}

/// Where an object begins its next epoch, the text says what is held then, and whatever a crash leaves of the lines since, what
/// is played of it is what the calls have left that are recovered.
pub fn next_leaves_held()
    ensures { NextLeavesHeld }
{}

/// So it is of the front that a start writes for an object, and of what the object then holds.
pub fn start_leaves_held()
    ensures { StartLeavesHeld }
{}

/// What is recovered behind a front is the first of what ended in these turns: all else ended later.
pub fn recovered_is_older()
    ensures { RecoveredIsOlder }
{}

/// So of an object of a new life, of which no call waits, the same is kept as of the old one.
pub fn life_keeps_holds()
    ensures { LifeKeepsHolds }
{}

/// After a crash, where answers wait for the disk, what each text says of what is held, and what is played of it, is what the
/// calls have left that had ended until then, and those that are recovered behind it.
pub fn crash_leaves_held()
    ensures { CrashLeavesHeld }
{}

/// A call that gives back the newest that its session holds, and not everybody may give back, is due for the same hold while
/// it waits, whichever calls of others end.
pub fn due_stays()
    ensures { DueStays }
{}

/// When it was done it has given back that hold, and no other; where it was refused or failed it has given back nothing.
pub fn due_gives_newest()
    ensures { DueGivesNewest }
{}
