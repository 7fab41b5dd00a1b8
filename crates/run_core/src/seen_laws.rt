//! Laws of what a call has seen.

ghost use Rattle.run_core.specs.SeenLaws.{NoneIsSeen, NextIsSeen, AllIsSeen, PlansAreWhole};

/// Nothing is seen before the first part.
pub fn none_is_seen()
    ensures { NoneIsSeen }
{}

/// What is seen before one part is seen before the next one that the call reads.
pub fn next_is_seen()
    ensures { NextIsSeen }
{}

/// Where the call reads no further part, all is seen.
pub fn all_is_seen()
    ensures { AllIsSeen }
{}

/// A plan of what was seen is a plan of the bytes under the pins.
pub fn plans_are_whole()
    ensures { PlansAreWhole }
{}
