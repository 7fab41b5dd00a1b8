//! Laws of operations, over the definitions alone.

ghost use Rattle.decl_core.specs.FootprintLaws.{ApplyIsLocal, OthersStay, WritesAreReads};
ghost use Rattle.decl_core.specs.KindLaws.{KindsStay};

/// Where the contents of two objects agree at the parts that an operation reads, it replies the same on
/// both, and what it leaves agrees at those parts.
pub fn apply_is_local()
    ensures { ApplyIsLocal }
{}

/// An operation leaves as many parts as there were, and each that it does not write as it was.
pub fn others_stay()
    ensures { OthersStay }
{}

/// The parts that an operation writes are among those that it reads.
pub fn writes_are_reads()
    ensures { WritesAreReads }
{}

/// An operation leaves each part of the kind that it was of.
pub fn kinds_stay()
    ensures { KindsStay }
{}
