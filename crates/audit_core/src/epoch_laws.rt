//! Laws of lines behind a front, over the definitions alone.

ghost use Rattle.audit_core.specs.EpochLaws.{CutIsPlayed, SoundHasNoFault};

/// Of sound lines the first ones, however many, are sound up to the last of them at which no call runs: so is what a
/// crash leaves of them.
pub fn cut_is_played()
    ensures { CutIsPlayed }
{}

/// Of sound lines none has a fault, and none of the first ones, however many: they are played.
pub fn sound_has_no_fault()
    ensures { SoundHasNoFault }
{}
