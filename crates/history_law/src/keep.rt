//! A journal whose text is a legal trace.

ghost use Rattle.std.specs.Prelude.{◌≡◌, ◌++◌, ◌≤◌, List, ℕ};
ghost use Rattle.decl_core.specs.ObjectForm.{ObjectForm};
ghost use Rattle.audit_core.specs.Verdicts.{IsLegalTrace};
ghost use Rattle.keep_loop.specs.Device.{LeavesOnly};
ghost use Rattle.keep_loop.specs.Journal.{AreLines, Begins};
ghost use Rattle.keep_loop.specs.Order.{IsInOrder, Holds};
ghost use Rattle.keep_loop.specs.Run.{AreSteps, added};
ghost use Rattle.history_law.specs.CrashLaws.{TellsParts, FileIsLeft};

use crate::crash_laws::crash_leaves_legal;
use keep_loop::device::{Device, DeviceError};
use keep_loop::journal::Journal;
use keep_loop::taken::taken_are_lines;
use keep_loop::uncalled::JournalStep;

/// Adds lines of a trace and stores them, in these steps, up to the first that fails; `Err` is that of the step. Where
/// the text with all these lines is a legal trace of an object whose parts are stored, a crash at any moment leaves a
/// legal trace: with each end that was stored before, and no end that was not made.
pub fn keep<D: Device>(journal: &mut Journal<D>, steps: &[JournalStep]) -> Result<(), DeviceError>
    requires in_order { IsInOrder D.seen D.may_leave journal.old }
    requires lines { AreSteps steps.now }

    ensures any_moment { (o : ObjectForm) (front stored text : List ℕ) (ends : ℕ)
        → TellsParts o front → AreLines front → Begins front stored → AreLines stored → Holds D.seen journal.old stored text
        → IsLegalTrace o (text ++ added steps.now) ends
        → LeavesOnly D.moment D.left_since journal.old.device journal.new.device
        (λ c. FileIsLeft o stored (text ++ added steps.now) ends c) }
{
    // Called for their contracts alone.
    crash_leaves_legal();
    taken_are_lines();
    journal.run(steps)
}
