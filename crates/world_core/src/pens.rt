//! Laws of the files that runs write, over files in memory.

ghost use Rattle.world_core.specs.RunLaws.{PensStay, PensAreOpen};

/// Files in memory hold what a run appended, where its file is as it was.
pub fn pens_stay()
    ensures { PensStay }
{}

/// Where files in memory hold what a run appended, the file that it writes is open.
pub fn pens_are_open()
    ensures { PensAreOpen }
{}
