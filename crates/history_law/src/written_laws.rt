//! The laws, each a function without a body whose contract it is.

ghost use Rattle.history_law.specs.Told.{StepIsTold, StepsAreTold};
ghost use Rattle.history_law.specs.Begins.{BegunStands, FollowedStands, AgainStands, RecoveredAreSeated};
ghost use Rattle.history_law.specs.WrittenRead.{FrontIsRead, AllIsRead, StoredIsRead, NoFaultIsFound};

/// The lines of one thing that happens to an object with its clients tell just that.
pub fn step_is_told()
    ensures { StepIsTold }
{}

/// So do the lines of more such things, one after the other.
pub fn steps_are_told()
    ensures { StepsAreTold }
{}

/// An object at the beginning of an epoch stands behind the front with the past that stands behind it.
pub fn begun_stands()
    ensures { BegunStands }
{}

/// An object that has begun its next epoch stands behind the front that was written for it.
pub fn followed_stands()
    ensures { FollowedStands }
{}

/// An object that was served before and begins again stands behind its front.
pub fn again_stands()
    ensures { AgainStands }
{}

/// The clients that are recovered have their places, and no session is 0.
pub fn recovered_are_seated()
    ensures { RecoveredAreSeated }
{}

/// What is recovered of the first bytes that were added, however many, is the first steps of what happened.
pub fn front_is_read()
    ensures { FrontIsRead }
{}

/// What is recovered of all that was added is what happened, all of it.
pub fn all_is_read()
    ensures { AllIsRead }
{}

/// What is recovered of bytes in which all is that was stored, and the first bytes of what was added behind it, is all that
/// had happened when it was stored, and the first steps of what happened then.
pub fn stored_is_read()
    ensures { StoredIsRead }
{}

/// In none of the first bytes that were added a line with a fault is found.
pub fn no_fault_is_found()
    ensures { NoFaultIsFound }
{}
