//! The law, a function without a body whose contract it is.

ghost use Rattle.history_law.specs.Repeat.{RepeatsStand};

/// The reply that is told of a call which was made before under a key is that of a call in the one history of its object, where
/// it is the reply of the sequential object; or of one of which it was told before.
pub fn repeats_stand()
    ensures { RepeatsStand }
{}
