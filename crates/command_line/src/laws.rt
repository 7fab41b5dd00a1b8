//! Laws of what the words of a command line ask for, over the definitions alone.

ghost use Rattle.command_line.specs.Laws.{AsksOnce};

/// Words ask for one thing at most.
pub fn asks_once()
    ensures { AsksOnce }
{}
