//! The laws, each a function without a body whose contract it is.

ghost use Rattle.history_law.specs.Year.{KeptIsEpoch, BegunFollows, EpochsAreSound};
ghost use Rattle.history_law.specs.Read.{ReadIsEpoch, TextsAreEpochs};
ghost use Rattle.history_law.specs.Lives.{FoundGoesOn, LifeFollows};
ghost use Rattle.history_law.specs.Keys.{KeysStandOnce, RepeatsAreTold, RepeatsStand, TextsTellKeys};

/// What `Live` holds at one of its moments is an epoch.
pub fn kept_is_epoch()
    ensures { KeptIsEpoch }
{}

/// An epoch that `Live::epoch` has begun follows the one before it, at each of its moments.
pub fn begun_follows()
    ensures { BegunFollows }
{}

/// Over all epochs of an object every prefix of starts and ends satisfies every path, and all ends are one legal
/// history, from the contents with which the first epoch opened to those of now.
pub fn epochs_are_sound()
    ensures { EpochsAreSound }
{}

/// What is recovered of the text of a journal is an epoch.
pub fn read_is_epoch()
    ensures { ReadIsEpoch }
{}

/// Texts that `Epochs::hear` has found to follow one another tell epochs that do, over which all of that holds.
pub fn texts_are_epochs()
    ensures { TextsAreEpochs }
{}

/// What is recovered of a text that has more than what was stored of it has each call that ended in what was stored, in
/// the same order and with the same reply, and maybe more behind them.
pub fn found_goes_on()
    ensures { FoundGoesOn }
{}

/// An epoch that a start has begun behind a journal follows the epoch that the journal tells, at each of its moments.
pub fn life_follows()
    ensures { LifeFollows }
{}

/// Over all epochs that are read of texts, where the clients of each were known in the one before it, a key stands in
/// the history once while its name stays known: each call of a name has the key behind that of the call before it, also
/// across epochs, and the next key of each client is the one behind them all.
pub fn keys_stand_once()
    ensures { KeysStandOnce }
{}

/// Who repeats a call under a key now is told of the call of the history that has this key; where that ended before the
/// epoch began, what the front of the epoch has of it.
pub fn repeats_are_told()
    ensures { RepeatsAreTold }
{}

/// Who repeats a call under a key now is told of the call in the history of all epochs that has this key; where that
/// ended before the oldest epoch, what the front of that one has of it.
pub fn repeats_stand()
    ensures { RepeatsStand }
{}

/// Texts that `Epochs::hear` has found to follow one another tell epochs that do, in whose one history keys stand once.
pub fn texts_tell_keys()
    ensures { TextsTellKeys }
{}
