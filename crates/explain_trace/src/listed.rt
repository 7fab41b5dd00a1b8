//! The objects of a source, as a prompt lists them.

use decl_core::object::Object;
use indexmap::IndexMap;
use path_tree::name::Name;
use std::alloc::{AllocError, Global};
use stuck_core::list::{push_list, push_object, push_operations};

/// What `list` is answered at a prompt: the names of all objects, in order, and the operations of this one.
pub fn listed(
    alloc: Global,
    all: &IndexMap<Name, Object>,
    object: &Object,
) -> Result<Vec<u8>, AllocError> {
    let mut text = Vec::new(alloc);
    let lines = all.len().saturating_add(object.operations.len());
    push_list(&mut text, lines as u64)?;
    for other in all.values() {
        push_object(&mut text, &other.name)?;
    }
    push_operations(&mut text, object)?;
    Ok(text)
}
