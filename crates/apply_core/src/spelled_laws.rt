//! Laws of spellings entry by entry, over the definitions alone.

ghost use Rattle.apply_core.specs.Entries.{SpelledByEntries, ChangesAreSplices};

/// A value is spelled by its header and its entries.
pub fn spelled_by_entries()
    ensures { SpelledByEntries }
{}

/// Each change of a value is a splice of its entries.
pub fn changes_are_splices()
    ensures { ChangesAreSplices }
{}
