//! The laws, each a function without a body whose contract it is.

ghost use Rattle.path_count.specs.Future.{SameFuture, OnePastIsEnough, EpochsGoOn};
ghost use Rattle.path_count.specs.Alone.{OneAtATime};
ghost use Rattle.path_count.specs.Apart.{OnePathIsKept};
ghost use Rattle.path_count.specs.Rest.{SemicolonsApart};
ghost use Rattle.path_count.specs.Certified.{CertifiedIsKept, CertifiedIsLost};
ghost use Rattle.path_count.specs.Needs.{FullNeedsEnd, TurnNeedsEnd};

/// Two traces that leave the same counters have the same future: what follows and satisfies the paths behind the one
/// does so behind the other.
pub fn same_future()
    ensures { SameFuture }
{}

/// Events that keep the paths behind one past, in which nothing runs any more, keep them behind each past that leaves
/// the same counters.
pub fn one_past_is_enough()
    ensures { OnePastIsEnough }
{}

/// Of two pasts that leave the same counters and in which nothing runs any more: an epoch that goes on from the one and
/// whose calls have ended leaves, numbered on behind the other one, the same counters as there.
pub fn epochs_go_on()
    ensures { EpochsGoOn }
{}

/// Where no burst stands in a sequence, the calls of a trace that satisfies a path satisfy it one at a time, and where
/// nothing runs the path remembers the same of both.
pub fn one_at_a_time()
    ensures { OneAtATime }
{}

/// Where nothing runs, calls of a path's own operations lead to a start of each of them.
pub fn one_path_is_kept()
    ensures { OnePathIsKept }
{}

/// Where no operation stands in two paths that have a semicolon, each operation can still come to start, after whatever
/// the paths allowed.
pub fn semicolons_apart()
    ensures { SemicolonsApart }
{}

/// Where an operation has a certificate and no burst stands in a sequence, it can still come to start after each trace
/// that the paths allow.
pub fn certified_is_kept()
    ensures { CertifiedIsKept }
{}

/// Where an operation has a certificate that it is lost after a trace, no trace that goes on from it has a start of it.
pub fn certified_is_lost()
    ensures { CertifiedIsLost }
{}

/// A bound that is full lets no further activation begin before an operation has ended that ends one.
pub fn full_needs_end()
    ensures { FullNeedsEnd }
{}

/// A member of a sequence that waits for the one before it does not begin before an operation has ended that ends that
/// one.
pub fn turn_needs_end()
    ensures { TurnNeedsEnd }
{}
