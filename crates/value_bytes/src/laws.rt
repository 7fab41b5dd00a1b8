//! Laws of the bytes of values, over the definitions alone.

ghost use Rattle.value_bytes.specs.Laws.{SpellingUnique, IntegersStandInPlace, SpellingIsBytes};

/// No two values share a spelling.
pub fn spelling_unique()
    ensures { SpellingUnique }
{}

/// The integers of an array stand at fixed places of its bytes.
pub fn integers_stand_in_place()
    ensures { IntegersStandInPlace }
{}

/// A spelling is bytes.
pub fn spelling_is_bytes()
    ensures { SpellingIsBytes }
{}
