//! What is told of a state that was recovered.

ghost use Rattle.std.specs.Prelude.{IfOk, IfSome};
ghost use Rattle.crash_trial.specs.GoesOn.{IsFrontBehind};

use audit_core::epoch_replay::ReplayedEpoch;
use decl_core::object::Object;
use live_core::call::Limits;
use live_core::source::source_of;
use live_core::start::{EndedEpoch, begin_again};
use recover_core::recover::Recovered;
use std::alloc::{AllocError, Global};

/// The front with which an object goes on behind what was recovered. `None`: it cannot. The error is that memory was
/// refused.
pub fn front_behind(
    alloc: Global,
    object: Object,
    recovered: Recovered,
    limits: Limits,
) -> Result<Option<Vec<u8>>, AllocError>
    ensures { IfOk result (λ found. IfSome found (λ front. IsFrontBehind object recovered limits front.items)) }
{
    let source = source_of(&object);
    let Recovered {
        epoch,
        base,
        played,
        guests,
        ..
    } = recovered;
    let ReplayedEpoch {
        contents,
        counters,
        long,
        greatest,
    } = played;
    let ended = EndedEpoch {
        epoch,
        base,
        greatest,
        contents,
        counters,
        long,
        guests,
    };
    match begin_again(alloc, object, ended, source, limits)? {
        None => Ok(None),
        Some(hosted) => {
            let mut front = Vec::new(alloc);
            let is_whole = hosted.push_first(&mut front)?;
            if is_whole {
                return Ok(Some(front));
            }
            Ok(None)
        }
    }
}
