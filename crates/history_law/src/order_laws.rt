//! The laws, each a function without a body whose contract it is.

ghost use Rattle.history_law.specs.Order.{AnswersAreInOrder, CrashLeavesInOrder};
ghost use Rattle.history_law.specs.TurnStands.{SettlesInOrder};

/// What a turn does behind what it was asked for: each held line is done once, in the order in which it came, and none is
/// skipped; behind `accepted N` comes the end of this call before the next line of its connection is done, and it is the call
/// for which that line asked; and of each object the ends that a connection is told stand in that order in what happened.
pub fn settles_in_order()
    ensures { SettlesInOrder }
{}

/// What a connection was told, over any turns, is one talk with the lines that it said: each line is done once, in their
/// order, and none is skipped; behind `accepted N` comes the end of this call before the next line is done; and of each
/// object the ends that it was told stand in the one history in that order, each at a place of its own.
pub fn answers_are_in_order()
    ensures { AnswersAreInOrder }
{}

/// After a crash, where answers wait for the disk, the one history of turns is such.
pub fn crash_leaves_in_order()
    ensures { CrashLeavesInOrder }
{}
