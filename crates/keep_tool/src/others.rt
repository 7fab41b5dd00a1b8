//! Ended epochs of another history than a journal.

ghost use Rattle.std.specs.Prelude.{IfErr};
ghost use Rattle.answer_core.specs.Status.{IsFault};

use answer_core::failure::ToolFailure;
use answer_core::lack::{Lacking, Wanted};
use answer_core::said::told;
use keep_loop::journal::recovered_len;
use mio_core::others::other_history;
use mio_core::traces::epoch_of;

/// The line of an object whose journal has these bytes, of which a file of this folder has the name of its epoch, or of a
/// later one, and tells of another history. Where the folder cannot be read that is told; a failure is `ReadFault` or
/// `Memory`.
pub(crate) fn other_line(
    rt: &HostRuntime,
    folder: &str,
    name: &str,
    bytes: &[u8],
) -> Result<Option<Vec<u8>>, ToolFailure>
    ensures { IfErr result IsFault }
{
    let alloc = rt.alloc();
    let lines = &bytes[..recovered_len(bytes)];
    let Some(epoch) = epoch_of(lines) else {
        return Ok(None);
    };
    match other_history(*rt, folder, name, epoch, lines) {
        Ok(None) => Ok(None),
        Ok(Some(number)) => {
            let said = format!(in alloc; "{name}.{number:06}.trace tells another history\n")?;
            Ok(Some(said.as_bytes().to_vec(alloc)?))
        }
        Err(error) => Err(told(rt, Lacking::of(Wanted::Folder, error), folder)),
    }
}
