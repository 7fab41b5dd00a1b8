//! Laws of boards and of entries, over the definitions alone.

ghost use Rattle.board_core.specs.Chain.{ChainedAreLegal};
ghost use Rattle.board_core.specs.Laws.{RunningNeverConflict, PinsStay, PickedAreFree, TruthIsNoted, AdmissionStarts};
ghost use Rattle.board_core.specs.Laws.{AdmissionRests, NeededIsPublished, PublishedArePicked, PinsAreNewOrOld};
ghost use Rattle.board_core.specs.Laws.{LeftOutAreNeeded};

/// Chained entries of which each is true are a legal history, and it leads to what the last pins spell.
pub fn chained_are_legal()
    ensures { ChainedAreLegal }
{}

/// Two calls that run at once have operations that do not conflict.
pub fn running_never_conflict()
    ensures { RunningNeverConflict }
{}

/// The published pin of each part that a running call reads or writes is the one that it took.
pub fn pins_stay()
    ensures { PinsStay }
{}

/// No file that a receipt frees is a page of a published pin, or of one that a running call reads.
pub fn picked_are_free()
    ensures { PickedAreFree }
{}

/// Where an outcome is true, so is the entry that is made of it.
pub fn truth_is_noted()
    ensures { TruthIsNoted }
{}

/// Admission starts calls that waited, and changes nothing else.
pub fn admission_starts()
    ensures { AdmissionStarts }
{}

/// After admission no waiting call may start.
pub fn admission_rests()
    ensures { AdmissionRests }
{}

/// A file that is needed on a sound board is a page of a published pin.
pub fn needed_is_published()
    ensures { NeededIsPublished }
{}

/// Stamps that are picked as not published are picked as not needed, on a sound board.
pub fn published_are_picked()
    ensures { PublishedArePicked }
{}

/// After a finish the published pin of each part is the new one of the call that finished, or the one that was there
/// before: nothing else is ever published.
pub fn pins_are_new_or_old()
    ensures { PinsAreNewOrOld }
{}

/// A file that a receipt leaves out is needed: by a published pin, or by a running call.
pub fn left_out_are_needed()
    ensures { LeftOutAreNeeded }
{}
