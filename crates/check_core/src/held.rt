//! The line of a call that is held, as scripts and `keep` tell it to who asks `who`.

ghost use Rattle.std.specs.Prelude.{◌≡◌, ◌++◌, OnOk};
ghost use Rattle.decl_core.specs.ObjectMap.{object_of};
ghost use Rattle.word_core.specs.Text.{operation_name};
ghost use Rattle.decl_core.specs.HoldMap.{holds_of};
ghost use Rattle.check_core.specs.HeldTold.{holds_line, op_of};

use decl_core::hold::Hold;
use decl_core::object::Object;
use guest_core::held::HeldCall;
use path_tree::node::OpId;
use std::alloc::AllocError;
use word_core::line::push_line;
use word_core::word::Written;

// The operation of the hold at this place.
fn op_at(rules: &[Hold], place: usize) -> OpId
    ensures { result ≡ op_of (holds_of rules.now) place }
{
    match rules.get(place) {
        Some(hold) => hold.op,
        None => 0,
    }
}

// The name of the operation at a place of the object; no bytes where there is none.
fn name_of(object: &Object, operation: OpId) -> &[u8]
    ensures { result.now ≡ operation_name (object_of object.now) operation }
{
    match object.operations.get(operation as usize) {
        Some(found) => found.name.as_bytes(),
        None => &[],
    }
}

/// Adds `holds N sS OP`: a call that is held by one of these holds of an object, with its number and its session. The error
/// is that memory was refused; how much then stands in `out` is not said.
pub fn push_held_call(
    out: &mut Vec<u8>,
    object: &Object,
    rules: &[Hold],
    held: &HeldCall,
) -> Result<(), AllocError>
    ensures { OnOk result (out.new.items ≡ out.old.items
        ++ holds_line (object_of object.now) (holds_of rules.now) held.now) }
{
    let op = op_at(rules, held.rule());
    push_line(
        out,
        &[
            Written::Bare(b"holds"),
            Written::Integer(held.number()),
            Written::Session(held.session() as u64),
            Written::Bare(name_of(object, op)),
        ],
    )?;
    Ok(())
}
