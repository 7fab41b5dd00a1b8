//! A law of what is kept, over the definitions alone.

ghost use Rattle.keep_core.specs.Laws.{KeptIsHistory, OpeningIsKept};

/// What is saved of an object that is closed is what its history leads to, where each slip is true.
pub fn kept_is_history()
    ensures { KeptIsHistory }
{}

/// The history of an object that is closed is legal from the values that were read when it opened, and what is saved is
/// what it leads to from them, where each slip is true.
pub fn opening_is_kept()
    ensures { OpeningIsKept }
{}
