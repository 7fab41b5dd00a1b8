//! The laws, each a function without a body whose contract it is.

ghost use Rattle.history_law.specs.Keyed.{StepsKeepKeys, EpochKeepsKeys, NobodyHasKeys, ReadHaveKeys, RepeatIsTheCall};

/// Whatever happens to an object with its clients, each key of a name stands once in what that tells of names, and what is
/// remembered of a call is what was told of it.
pub fn steps_keep_keys()
    ensures { StepsKeepKeys }
{}

/// So it is where an epoch begins.
pub fn epoch_keeps_keys()
    ensures { EpochKeepsKeys }
{}

/// So it is where nobody is known.
pub fn nobody_has_keys()
    ensures { NobodyHasKeys }
{}

/// So it is behind epochs that were read of texts, with what these tell of names.
pub fn read_have_keys()
    ensures { ReadHaveKeys }
{}

/// Who repeats a call under a key is told of the call that was told under this key, with its number and its reply.
pub fn repeat_is_the_call()
    ensures { RepeatIsTheCall }
{}
