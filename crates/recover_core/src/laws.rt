//! Laws of the lines of what is held, over the definitions alone.

ghost use Rattle.recover_core.specs.Laws.{HeldAreLines, LinesTellOne};

/// What is held by what happened to the calls of an object is told by lines that are read again.
pub fn held_are_lines()
    ensures { HeldAreLines }
{}

/// Lines of what is held tell one thing, and it is known where they end.
pub fn lines_tell_one()
    ensures { LinesTellOne }
{}
