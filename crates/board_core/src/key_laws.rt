//! Laws of keys, over the definitions alone.

ghost use Rattle.board_core.specs.Keys.{KeysAreExact, KeysStandOnce};

/// A session has one call of each key, from 1 to the one below its next.
pub fn keys_are_exact()
    ensures { KeysAreExact }
{}

/// Each session and key stands in a history at most once.
pub fn keys_stand_once()
    ensures { KeysStandOnce }
{}
