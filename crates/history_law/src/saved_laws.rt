//! A law of the traces that are saved, over the definitions alone.

ghost use Rattle.history_law.specs.SavedLaws.{SavedTraceIsLegal};

/// The text of the trace of an object that is closed is a legal trace with as many ends as its history has entries, where
/// each slip that its sessions left is true, and the pins at its opening were sealed with its opening values.
pub fn saved_trace_is_legal()
    ensures { SavedTraceIsLegal }
{}
