//! Laws of calls under keys, over the definitions alone.

ghost use Rattle.board_core.specs.KeyedLaws.{KeptExactly, SubmitIsKeyed};

/// A call under a key is answered by what became of an earlier one exactly where the session made it under that key.
pub fn kept_exactly()
    ensures { KeptExactly }
{}

/// A submission is a call under the session's next key.
pub fn submit_is_keyed()
    ensures { SubmitIsKeyed }
{}
