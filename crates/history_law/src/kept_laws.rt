//! The laws, each a function without a body whose contract it is.

ghost use Rattle.history_law.specs.Kept.{RunsAreSteps, ObjectsStand, LinesAreRead, NextIsServed, CrashLeavesAnswered};
ghost use Rattle.history_law.specs.Starts.{FirstStands, BehindStands};
ghost use Rattle.history_law.specs.Lived.{StoodHasLived, TurnsLiveOn, ReadLivesOn, StartLivesOn, CrashLeavesOneHistory};
ghost use Rattle.history_law.specs.Replied.{TurnsHaveOneHistory, RepliesStand, CrashLeavesReplied};
ghost use Rattle.history_law.specs.TurnKeys.{TurnsKeepKeys, StartHasKeys, RepeatsAreOfTheirKeys};

/// An object that begins no epoch goes by steps, and the lines that all turns add to its journal are those of them.
pub fn runs_are_steps()
    ensures { RunsAreSteps }
{}

/// An object stands behind what lines told of it, however many epochs it begins.
pub fn objects_stand()
    ensures { ObjectsStand }
{}

/// What is recovered of lines that have those of some turns, and the first bytes of those of the turns behind them, is all
/// that happened to the object in the former, and the first steps of what happened in the latter; and no line with a fault is
/// found.
pub fn lines_are_read()
    ensures { LinesAreRead }
{}

/// Where an object begins its next epoch, the front that was written tells it as it then was, and it stands behind that front.
pub fn next_is_served()
    ensures { NextIsServed }
{}

/// After a crash, where answers wait for the disk: there is one history of turns, each of which does what its line asks
/// for; each connection was written a front of what it is told there; and of each object, however many epochs it began, what
/// is recovered behind its last front is all that happened since in the turns of which a connection may have read an answer,
/// and the first steps of what happened in those behind them, and no line with a fault is found.
pub fn crash_leaves_answered()
    ensures { CrashLeavesAnswered }
{}

/// An object of which there was no journal stands behind the front that is written for it.
pub fn first_stands()
    ensures { FirstStands }
{}

/// So does an object that goes on behind the lines of its journal.
pub fn behind_stands()
    ensures { BehindStands }
{}

/// An object has lived in the epoch in which it stands.
pub fn stood_has_lived()
    ensures { StoodHasLived }
{}

/// Over any turns, in which it begins any number of epochs, all its starts and ends are one trace, each prefix of which
/// satisfies every path, and all ends are one legal history, which leads to the values of now; what had been done stays done.
pub fn turns_live_on()
    ensures { TurnsLiveOn }
{}

/// What a start reads of the text of its last epoch is an epoch behind the same ones.
pub fn read_lives_on()
    ensures { ReadLivesOn }
{}

/// An object that a start has begun behind its journal has lived in the epoch that was read, and in those before it: so all of
/// that holds over all its lives.
pub fn start_lives_on()
    ensures { StartLivesOn }
{}

/// After a crash, where answers wait for the disk, there is one history of turns, of which both of that is so: each connection
/// was written a front of what it is told there, and what was answered is recovered; and over it and all lives before each
/// object keeps its paths at each moment, and its ends are one legal history.
pub fn crash_leaves_one_history()
    ensures { CrashLeavesOneHistory }
{}

/// Any turns have one history: what happened in each of them, of which what it tells is true, and by just which each object
/// has lived on.
pub fn turns_have_one_history()
    ensures { TurnsHaveOneHistory }
{}

/// A text that a connection is told in a turn tells the end of a call, with its number and its reply, and the call stands in
/// the one history of its object, where this is the reply of the sequential object; or the end of a call that was made before
/// under a key, as the object remembers it; or no reply.
pub fn replies_stand()
    ensures { RepliesStand }
{}

/// After a crash, where answers wait for the disk, the one history of turns is such: what was told is true of it.
pub fn crash_leaves_replied()
    ensures { CrashLeavesReplied }
{}

/// Over any turns, in which an object begins any number of epochs, each key of a name stands once in what is told of names.
pub fn turns_keep_keys()
    ensures { TurnsKeepKeys }
{}

/// An object that a start has begun behind its journal has the keys of all epochs that were read.
pub fn start_has_keys()
    ensures { StartHasKeys }
{}

/// Who is told of a call that was made before under a key is told of the one call of this name under this key, with its
/// number and its reply.
pub fn repeats_are_of_their_keys()
    ensures { RepeatsAreOfTheirKeys }
{}
