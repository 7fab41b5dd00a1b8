//! Laws of the lines of a session, over the definitions alone.

ghost use Rattle.session_core.specs.Laws.{AcceptedEnds, LastWasAccepted, ByeIsLast};

/// In the lines of a session that has ended each call that was accepted has its last line, before any other call is
/// accepted.
pub fn accepted_ends()
    ensures { AcceptedEnds }
{}

/// Each last line is that of the call that was accepted before it.
pub fn last_was_accepted()
    ensures { LastWasAccepted }
{}

/// Nothing comes behind `bye`.
pub fn bye_is_last()
    ensures { ByeIsLast }
{}
