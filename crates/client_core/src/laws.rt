//! The laws, each a function without a body whose contract it is.

ghost use Rattle.client_core.specs.Laws.{TurnsMove, CancelledIsAsked, HeldFollows, PausesDouble};

/// Each turn moves the objects by steps, and the lines that it adds are those of these steps.
pub fn turns_move()
    ensures { TurnsMove }
{}

/// The call that is cancelled is the one of which the number was told that was asked for.
pub fn cancelled_is_asked()
    ensures { CancelledIsAsked }
{}

/// What is held of an object is what the ends of its calls have left, in their order, turn by turn.
pub fn held_follows()
    ensures { HeldFollows }
{}

/// What gives back for one that is gone is made again behind pauses that double, up to a minute, where each is refused.
pub fn pauses_double()
    ensures { PausesDouble }
{}
