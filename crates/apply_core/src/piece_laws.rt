//! Laws of the bytes of arrays of integers.

ghost use Rattle.apply_core.specs.Laws.{AllBytesSpell, FrameIsDue, PagesTell};

/// Behind the header of an array of integers all bytes are integers: whatever they are, they spell an array.
pub fn all_bytes_spell()
    ensures { AllBytesSpell }
{}

/// What spells an array of integers has its header and its length.
pub fn frame_is_due()
    ensures { FrameIsDue }
{}

/// Two arrays of as many integers have the same page exactly where they have the same elements in it.
pub fn pages_tell()
    ensures { PagesTell }
{}
