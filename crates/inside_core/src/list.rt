//! Which objects there are.

ghost use Rattle.std.specs.Prelude.{◌≡◌, ◌++◌, map, flat_map, length, IfOk, OnOk};
ghost use Rattle.decl_core.specs.ObjectMap.{object_of};
ghost use Rattle.live_core.specs.Scene.{Scene};
ghost use Rattle.stuck_core.specs.List.{object_line, open_count, open_text};
ghost use Rattle.client_core.specs.ToldInside.{form_at, IsList};

use live_core::hosted::Hosted;
use std::alloc::{AllocError, Global};
use stuck_core::list::{push_list, push_object, push_operations};

// Adds the line of an object.
fn push_name(out: &mut Vec<u8>, object: &Hosted) -> Result<(), AllocError>
    ensures { OnOk result (out.new.items ≡ out.old.items ++ object_line object.now.hall.object.name) }
{
    push_object(out, object.name())
}

// Adds a line for each object, in order.
fn push_objects(out: &mut Vec<u8>, objects: &[Hosted]) -> Result<(), AllocError>
    ensures { OnOk result (out.new.items ≡ out.old.items
        ++ flat_map object_line (map (λ (s : Scene). s.hall.object.name) objects.now)) }
{
    for object in objects {
        push_name(out, object)?;
    }
    Ok(())
}

// How many operations the object at a place has, where there is one.
fn count_at(objects: &[Hosted], at: Option<usize>) -> usize
    ensures { result ≡ open_count (form_at objects.now at) }
{
    match at {
        None => 0,
        Some(at) => match objects.get(at) {
            None => 0,
            Some(object) => object.live().object().operations.len(),
        },
    }
}

// Adds the lines of its operations.
fn push_open(out: &mut Vec<u8>, objects: &[Hosted], at: Option<usize>) -> Result<(), AllocError>
    ensures { OnOk result (out.new.items ≡ out.old.items ++ open_text (form_at objects.now at)) }
{
    match at {
        None => Ok(()),
        Some(at) => match objects.get(at) {
            None => Ok(()),
            Some(object) => push_operations(out, object.live().object()),
        },
    }
}

/// The names of all objects, in order, and the operations of the one at a place, where one is open.
pub fn list_of(alloc: Global, objects: &[Hosted], at: Option<usize>) -> Result<Vec<u8>, AllocError>
    ensures { IfOk result (λ text. IsList objects.now at text.items) }
{
    let mut out = Vec::new(alloc);
    push_list(
        &mut out,
        objects.len() as u64 + count_at(objects, at) as u64,
    )?;
    push_objects(&mut out, objects)?;
    push_open(&mut out, objects, at)?;
    Ok(out)
}
