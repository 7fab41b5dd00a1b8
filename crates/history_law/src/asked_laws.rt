//! The laws, each a function without a body whose contract it is.

ghost use Rattle.history_law.specs.AskedKeys.{CrashLeavesKeys, KeysAreAsked};
ghost use Rattle.history_law.specs.AskedLines.{CallsAreOfLines, CrashLeavesLines, KeysAreOfLines, RepeatsAreOfLines};
ghost use Rattle.history_law.specs.Repeats.{RepeatsAreAsked};
ghost use Rattle.history_law.specs.AskedStarts.{StartsAreAsked};
ghost use Rattle.history_law.specs.Tells.{StepsTellAsked};
ghost use Rattle.history_law.specs.Turns.{NobodyHasAsked, TurnsHaveAsked};

/// Each call of which steps tell that it ended with a reply under a key is one that ran in them, of the session that the client
/// of that name had then, and of the operation and with the arguments that were asked.
pub fn steps_tell_asked()
    ensures { StepsTellAsked }
{}

/// Over any turns each call that waits or runs is the one for which the client of its session asked, and a client has that
/// session; and who has a session of an object has it alone.
pub fn turns_have_asked()
    ensures { TurnsHaveAsked }
{}

/// So it is of a table of which nobody has opened an object, and no call waits.
pub fn nobody_has_asked()
    ensures { NobodyHasAsked }
{}

/// Behind any turns, in which an object begins any number of epochs, the call that stands in the one history under each key is the
/// one that was asked under it: of the operation and with the arguments that are remembered, and of the session of this name.
pub fn keys_are_asked()
    ensures { KeysAreAsked }
{}

/// Who is told how a call ended that was made before under a key asks for just what that call had asked, and is told of the call
/// that was made so: which stands in the one history, or of which it was told before these turns, or which the front of the oldest
/// epoch has.
pub fn repeats_are_asked()
    ensures { RepeatsAreAsked }
{}

/// Each call of which the epochs tell that a start has read that it ended under a key with a reply has its end in their one history:
/// of the operation and with the arguments that were asked.
pub fn starts_are_asked()
    ensures { StartsAreAsked }
{}

/// After a crash, where answers wait for the disk, there is one history of turns, in which it is so.
pub fn crash_leaves_keys()
    ensures { CrashLeavesKeys }
{}

/// Over any turns each call that is made for a client with a name is one for which a line asked, under just the key
/// under which it is counted, or without one: of a connection of which a line opened the object by this name. Or by
/// the rules of the object it was owed.
pub fn calls_are_of_lines()
    ensures { CallsAreOfLines }
{}

/// So is each call of which they tell that it ended, or was cancelled, under a key of a name, and each that is
/// remembered so.
pub fn keys_are_of_lines()
    ensures { KeysAreOfLines }
{}

/// So is the call of which who asks again under a key is told how it ended.
pub fn repeats_are_of_lines()
    ensures { RepeatsAreOfLines }
{}

/// After a crash, where answers wait for the disk, there is one history of turns, in which it is so.
pub fn crash_leaves_lines()
    ensures { CrashLeavesLines }
{}
