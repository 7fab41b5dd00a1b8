//! Laws of what is held, over the definitions alone.

ghost use Rattle.guest_core.specs.Laws.{EachGivenOnce, NeverMoreGiven, OnlyDoneEnds, UndoGivesNewest};

/// Where not anybody may end a hold, and each session ended only what it held, what was given back and what is held are
/// together what was taken.
pub fn each_given_once()
    ensures { EachGivenOnce }
{}

/// So never more is given back than was taken.
pub fn never_more_given()
    ensures { NeverMoreGiven }
{}

/// Where done calls alone end a hold, one that was refused or failed leaves all that is held.
pub fn only_done_ends()
    ensures { OnlyDoneEnds }
{}

/// What is called for a session that is gone gives back the newest that it holds.
pub fn undo_gives_newest()
    ensures { UndoGivesNewest }
{}
