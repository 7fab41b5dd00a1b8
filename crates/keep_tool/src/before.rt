//! What was done of objects before a first start.

use crate::lines::object_line;
use crate::notes::note;
use command_line::past::Past;
use decl_core::analyse::Accepted;
use decl_core::object::Object;
use keep_core::start::push_calls;
use keep_log::log::Log;
use path_count::past::PastEvent;
use path_tree::node::OpId;
use std::alloc::{AllocError, Global};
use std::io::Write;

// Whether what was done before is told of an object.
fn is_of(object: &Object, past: &Past<'_>) -> bool {
    object.name.is_spelled_by(past.object.as_bytes())
}

// The operation of this name.
fn operation_of(object: &Object, name: &str) -> Option<OpId> {
    let place = object
        .operations
        .iter()
        .position(|operation| operation.name.is_spelled_by(name.as_bytes()))?;
    Some(place as OpId)
}

// What was done of an object before its parts were made, or the line that names an operation that it has not.
pub(crate) fn done_before(
    alloc: Global,
    object: &Object,
    name: &str,
    pasts: &[Past<'_>],
) -> Result<Result<Vec<PastEvent>, Vec<u8>>, AllocError> {
    let mut done = Vec::new(alloc);
    for past in pasts {
        if is_of(object, past) {
            match operation_of(object, past.operation) {
                Some(operation) => push_calls(&mut done, operation, past.times)?,
                None => {
                    let said = format!(in alloc; " no operation {}\n", past.operation)?;
                    return Ok(Err(object_line(alloc, name, said.as_bytes())?));
                }
            }
        }
    }
    Ok(Ok(done))
}

// Tells of each word of the command line that tells of the past of an object which has a journal: the journal has its past.
pub(crate) fn note_pasts<E: Write, L: Write>(
    alloc: Global,
    object: &Object,
    name: &str,
    pasts: &[Past<'_>],
    error: &mut E,
    log: &mut Log<HostRuntime, L>,
) -> Result<(), AllocError> {
    for past in pasts {
        if is_of(object, past) {
            let (said, operation, times) = (past.object, past.operation, past.times);
            let line = format!(in alloc;
                "--past {said}:{operation}:{times}: {name} has a journal, which has its past\n"
            )?;
            note(line.as_bytes(), error, log);
        }
    }
    Ok(())
}

// `no object NAME` for each word that tells of the past of an object that is not there.
pub(crate) fn strangers(
    alloc: Global,
    accepted: &[Accepted],
    pasts: &[Past<'_>],
) -> Result<Vec<u8>, AllocError> {
    let mut lines = Vec::new(alloc);
    for past in pasts {
        if !accepted.iter().any(|one| is_of(one.object(), past)) {
            let line = format!(in alloc; "no object {}\n", past.object)?;
            lines.extend_from_slice(line.as_bytes())?;
        }
    }
    Ok(lines)
}
