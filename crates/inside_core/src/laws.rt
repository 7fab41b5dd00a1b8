//! Laws of the counts, over the definitions alone.

ghost use Rattle.inside_core.specs.Laws.{CountsAreOfTheCalls, SumsGrowAsTheHistory, TakenIsCounted};

/// The counts of an operation grow by the calls of it that ran, by how they ended.
pub fn counts_are_of_the_calls()
    ensures { CountsAreOfTheCalls }
{}

/// The sum of all counts of an object grows by the number of its calls that ran: as the history does.
pub fn sums_grow_as_the_history()
    ensures { SumsGrowAsTheHistory }
{}

/// A call that was taken is counted once, and so is each call that ran, of this object alone.
pub fn taken_is_counted()
    ensures { TakenIsCounted }
{}
