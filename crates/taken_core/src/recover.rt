//! The file of a journal, read behind a crash.

ghost use Rattle.std.specs.Prelude.{◌≡◌, List, ℕ, false, IfOk, IsErrOf, Some};
ghost use Rattle.keep_loop.specs.Device.{IsOnDisk, LeavesOnly, Rises};
ghost use Rattle.keep_loop.specs.Journal.{AreLines};
ghost use Rattle.keep_loop.specs.Taken.{IsTaken, taken};
ghost use Rattle.keep_loop.specs.declared.device.DeviceError.TheVariants.{Full, Failed};
ghost use Rattle.taken_core.specs.TakeFile.{Answers, TellsLines};

use crate::taken::{TakeFault, TakenFile, take_file};
use keep_loop::device::{Device, DeviceError};
use std::alloc::Global;

/// What a file tells that a crash may have left, or why it is not taken. Nothing is changed, and a crash meanwhile leaves the
/// same file. The outer `Err`: `Memory`, or `Failed` of the device.
pub fn recover<D: Device>(
    alloc: Global,
    device: &mut D,
) -> Result<Result<TakenFile, TakeFault>, DeviceError>
    // After a restart, what is read is what is on the disk.
    requires { IsOnDisk (D.seen device.old) (D.may_leave device.old) }

    ensures answers { IfOk result (λ answer. (file : List ℕ) → D.seen device.old ≡ Some file → Answers file false answer) }
    ensures lines { IfOk result (λ answer. (file : List ℕ) → D.seen device.old ≡ Some file → IsTaken file
        → TellsLines (taken file) answer) }
    ensures are_lines { IfOk result (λ answer. IfOk answer (λ told. AreLines told.lines.items)) }
    ensures same { D.seen device.new ≡ D.seen device.old }
    ensures on_disk { IsOnDisk (D.seen device.new) (D.may_leave device.new) }
    ensures any_moment { (file : List ℕ) → D.seen device.old ≡ Some file
        → LeavesOnly D.moment D.left_since device.old device.new (λ c. c ≡ file) }
    ensures failed { IsErrOf result Failed → Rises (D.faults device.old) (D.faults device.new) }
    ensures full { IsErrOf result Full → ⊥ }
{
    let file = device.read(alloc)?;
    let answer = take_file(alloc, &file, false)?;
    Ok(answer)
}
