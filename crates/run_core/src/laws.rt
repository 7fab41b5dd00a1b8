//! Laws of what was read of parts.

ghost use Rattle.run_core.specs.Grown.{KnownGrows, FirstIsKnown, MissIsDamaged};
ghost use Rattle.run_core.specs.Planned.{PlansOfWholes};

/// What was read stays known when a page more is read into its place.
pub fn known_grows()
    ensures { KnownGrows }
{}

/// Of an array of integers the first page is known where it was read.
pub fn first_is_known()
    ensures { FirstIsKnown }
{}

/// Where the first page and the length show no frame, the part is damaged.
pub fn miss_is_damaged()
    ensures { MissIsDamaged }
{}

/// Which pages are written, as told from what was read, is what is written of the whole bytes.
pub fn plans_of_wholes()
    ensures { PlansOfWholes }
{}
