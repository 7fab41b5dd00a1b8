//! Laws of the traces of desks, over the definitions alone.

ghost use Rattle.history_law.specs.Laws.{DeskTextIsLegal};

/// The text of the trace of a desk is a legal trace with as many ends as there are entries, where the history of its
/// entries is legal from the opening contents.
pub fn desk_text_is_legal()
    ensures { DeskTextIsLegal }
{}
