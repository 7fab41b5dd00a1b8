//! The law, a function without a body whose contract it is.

ghost use Rattle.history_law.specs.Said.{TurnsSay};

/// Each reply that a turn tells is that of a call that ran in it, or of one that was made before under a key and is
/// remembered; and the objects went by the steps in which it ran.
pub fn turns_say()
    ensures { TurnsSay }
{}
