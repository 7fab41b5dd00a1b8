//! What `keep` says at its start of objects that can get stuck.

ghost use Rattle.std.specs.Prelude.{List, IfOk, IsTrue, length};
ghost use Rattle.path_tree.specs.Trace.{Event};
ghost use Rattle.decl_core.specs.ObjectMap.{object_of};
ghost use Rattle.stuck_core.specs.Stuck.{IsStuckAfter};

use decl_core::analyse::Accepted;
use decl_core::object::Object;
use std::alloc::{AllocError, Global};
use stuck_core::found::StuckVerdict;
use stuck_core::search::find;

// So many states of each object are looked at before a server begins.
const MOST_STATES: usize = 1_000;

// Whether an object is known to get stuck after some calls.
fn gets_stuck(alloc: Global, object: &Object) -> Result<bool, AllocError>
    ensures { IfOk result (λ stuck. IsTrue stuck → (t : List Event)
        × IsStuckAfter (object_of object.now).paths (length (object_of object.now).operations) t) }
{
    let count = object.operations.len() as u16;
    let found = find(alloc, &object.paths, count, MOST_STATES)?;
    match found.ending {
        StuckVerdict::After(_) => Ok(true),
        StuckVerdict::Never | StuckVerdict::Unknown => Ok(false),
    }
}

// `object NAME can get stuck: ..` for each of these objects of which that is known, in order. It fails only with memory.
pub(crate) fn stuck_lines(alloc: Global, accepted: &[Accepted]) -> Result<Vec<u8>, AllocError> {
    let mut lines = Vec::new(alloc);
    for one in accepted {
        let object = one.object();
        if gets_stuck(alloc, object)? {
            lines.extend_from_slice(b"object ")?;
            lines.extend_from_slice(object.name.as_bytes())?;
            lines.extend_from_slice(b" can get stuck: `check --stuck --explain` tells how\n")?;
        }
    }
    Ok(lines)
}
