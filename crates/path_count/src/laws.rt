//! Laws of counters and traces, over the definitions alone.

ghost use Rattle.path_count.specs.Laws.{StandsForSatisfying};

/// Counters stand only for traces of at most 65,536 calls that satisfy every path.
pub fn stands_for_satisfying()
    ensures { StandsForSatisfying }
{}
