//! The law, a function without a body whose contract it is.

ghost use Rattle.history_law.specs.Held.{WrittenHasHeld};
ghost use Rattle.history_law.specs.Written.{WrittenIsRead};

/// The front that is read of a text is the one that was written, however much stands behind that of what was added since.
pub fn written_is_read()
    ensures { WrittenIsRead }
{}

/// So is what is held, of which lines stand behind the front: a text that was written says of the object and of what is held
/// just that, and nothing of it behind.
pub fn written_has_held()
    ensures { WrittenHasHeld }
{}
