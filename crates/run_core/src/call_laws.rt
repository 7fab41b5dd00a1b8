//! Laws of new page lists, over the definitions alone.

ghost use Rattle.run_core.specs.Laws.{NewPinsAreLeft, NewPinsAreOldOrSealed};

/// When all that was planned is sealed, the new pins hold what the body changed.
pub fn new_pins_are_left()
    ensures { NewPinsAreLeft }
{}

/// Each stamp of a new page list stood at the same place of the old one, or was sealed.
pub fn new_pins_are_old_or_sealed()
    ensures { NewPinsAreOldOrSealed }
{}
