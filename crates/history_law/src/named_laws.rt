//! The law, a function without a body whose contract it is.

ghost use Rattle.history_law.specs.Named.{ReadAreNamed};

/// Each object that is read of a source has a name, and so have its parts and its operations; each operation is the first
/// of its name.
pub fn read_are_named()
    ensures { ReadAreNamed }
{}
