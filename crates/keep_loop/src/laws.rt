//! Laws.

ghost use Rattle.std.specs.Prelude.{◌≡◌, ◌<◌, ℕ, List, true};
ghost use Rattle.keep_loop.specs.Seen.{Happened, stored_in, added_in};
ghost use Rattle.keep_loop.specs.Epochs.{rules_of, since_in, stored_since};
ghost use Rattle.keep_loop.specs.Stands.{IsHonest, IsBetween, Survives, SurvivesSince};

use crate::keep::LoopLimits;
use crate::served::Served;

/// After a crash, where answers wait for the disk: the lines that are found in each journal have each turn of which a
/// connection may have read, and are those of a history that goes on as the one that was seen.
pub fn crash_keeps_what_was_answered<O: Served>()
    ensures { (first : O) (limits : LoopLimits) (seen : List Happened) (found : ℕ → List ℕ) → limits.waits ≡ true → IsHonest (rules_of O.gives O.fronts) first limits seen
        → ((j : ℕ) → j < limits.journals → IsBetween (stored_in j seen) (added_in j seen) (found j)) → Survives O.gives first limits seen found }
{}

/// The same, where of each journal the front is found by which it last began anew, and behind it lines that have all that was
/// stored since: in the same history it last began anew by that front.
pub fn crash_keeps_the_last_epoch<O: Served>()
    ensures { (first : O) (limits : LoopLimits) (seen : List Happened) (found : ℕ → List ℕ) → limits.waits ≡ true → IsHonest (rules_of O.gives O.fronts) first limits seen
        → ((j : ℕ) → j < limits.journals → IsBetween (stored_since j seen) (since_in j seen) (found j)) → SurvivesSince (rules_of O.gives O.fronts) first limits seen found }
{}
