//! Laws of scripts, over the definitions alone.

ghost use Rattle.world_core.specs.ScriptLaws.{ScriptsAreSerial};

use crate::laws::fails_only_with_its_device;
use apply_core::laws::{leads_by_one, legal_by_one};

/// What a script writes on finishes and values is what the sequential object gives, call by call as they finish, and a
/// `repeat` line of a call that has finished has the reply that it had there. So the finish and `show` lines of a
/// script in which each call is stepped to its end and finished before the next one is called are those of the
/// sequential object, apart from calls that failed for memory, or of which a step was to fail.
pub fn scripts_are_serial()
    ensures { ScriptsAreSerial }
{
    legal_by_one();
    leads_by_one();
    fails_only_with_its_device();
}
