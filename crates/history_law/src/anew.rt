//! A journal that begins anew, between two epochs.

ghost use Rattle.std.specs.Prelude.{◌≡◌, ◌⊎◌, ◌+◌, ◌<◌, ◌^◌, List, ℕ, length, true, false, IfOk, OnOk};
ghost use Rattle.decl_core.specs.ObjectForm.{ObjectForm};
ghost use Rattle.audit_core.specs.Verdicts.{IsLegalTrace};
ghost use Rattle.keep_loop.specs.Device.{LeavesOnly};
ghost use Rattle.keep_loop.specs.Journal.{AreLines, Begins};
ghost use Rattle.keep_loop.specs.Order.{IsInOrder, Holds};
ghost use Rattle.keep_loop.specs.Taken.{IsFront, Tells};
ghost use Rattle.history_law.specs.CrashLaws.{TellsParts, FileIsLeft};

use crate::crash_laws::crash_leaves_legal;
use keep_loop::device::{Device, DeviceError};
use keep_loop::journal::Journal;
use keep_loop::taken::taken_are_lines;
use std::alloc::Global;

/// Begins the journal of an object anew with this front, and room for so many bytes behind it, as [`Journal::change`] does.
/// Where the text of before is a legal trace of an object whose parts are stored, a crash at any moment leaves of it a
/// legal trace, with each end that was stored and no end that was not made; or the front. Where the answer is `false`, the
/// journal holds what it held, and a crash leaves nothing but such a trace.
pub fn begin_anew<D: Device>(
    alloc: Global,
    journal: &mut Journal<D>,
    front: &[u8],
    room: usize,
) -> Result<bool, DeviceError>
    requires in_order { IsInOrder D.seen D.may_leave journal.old }
    requires lines { IsFront front.now }
    requires small { length front.now + room < 2 ^ 62 }

    ensures in_order { OnOk result (IsInOrder D.seen D.may_leave journal.new) }
    ensures begun { IfOk result (λ went. went ≡ true → ((stored text : List ℕ) → Holds D.seen journal.old stored text
        → Holds D.seen journal.new front.now front.now)) }
    ensures kept { IfOk result (λ went. went ≡ false → ((stored text : List ℕ) → Holds D.seen journal.old stored text
        → Holds D.seen journal.new stored text)) }

    ensures any_moment { (o : ObjectForm) (opening stored text : List ℕ) (ends : ℕ)
        → TellsParts o opening → AreLines opening → Begins opening stored → AreLines stored
        → Holds D.seen journal.old stored text → IsLegalTrace o text ends
        → LeavesOnly D.moment D.left_since journal.old.device journal.new.device
        (λ c. FileIsLeft o stored text ends c ⊎ Tells front.now c) }

    ensures any_moment_kept { IfOk result (λ went. went ≡ false → ((o : ObjectForm) (opening stored text : List ℕ) (ends : ℕ)
        → TellsParts o opening → AreLines opening → Begins opening stored → AreLines stored
        → Holds D.seen journal.old stored text → IsLegalTrace o text ends
        → LeavesOnly D.moment D.left_since journal.old.device journal.new.device
        (λ c. FileIsLeft o stored text ends c))) }
{
    // Called for their contracts alone.
    crash_leaves_legal();
    taken_are_lines();
    let went = journal.change(alloc, front, room)?;
    Ok(went)
}
