//! A law of spellings, over the definitions alone. It speaks of values, not of devices, and belongs to `value_bytes`.

ghost use Rattle.page_core.specs.StoreLaws.{SpellingsFit};

/// A spelling has a byte, and no more than 8 pages of the longest size hold.
pub fn spellings_fit()
    ensures { SpellingsFit }
{}
