//! The lines that `pathserve check` prints of holds.

ghost use Rattle.std.specs.Prelude.{◌≡◌, ◌++◌, OnOk, slice_get};
ghost use Rattle.decl_core.specs.ObjectMap.{object_of};
ghost use Rattle.check_core.specs.Report.{operation_name};
ghost use Rattle.decl_core.specs.HoldMap.{every_of, everies_of, hold_of, holds_of, rules_of};
ghost use Rattle.check_core.specs.HoldLines.{every_line, every_lines, hold_line, hold_lines, loose_text, names_behind, rule_lines};

use decl_core::hold::{Every, Hold, Rules};
use decl_core::object::Object;
use path_tree::node::OpId;
use std::alloc::AllocError;
use value_core::reply::push_number;

// The name of an operation of an object.
fn operation_name(object: &Object, place: usize) -> &[u8]
    ensures { result.now ≡ operation_name (slice_get (object_of object.now).operations place) }
{
    match object.operations.get(place) {
        Some(operation) => operation.name.as_bytes(),
        None => b"",
    }
}

// Adds the names of these operations, each behind a comma, and the first behind this text.
fn push_names(
    out: &mut Vec<u8>,
    object: &Object,
    first: &[u8],
    ops: &[OpId],
) -> Result<(), AllocError>
    ensures { OnOk result (out.new.items ≡ out.old.items ++ names_behind (object_of object.now) first.now ops.now) }
{
    match ops {
        [] => Ok(()),
        [op, rest @ ..] => {
            out.extend_from_slice(first)?;
            out.extend_from_slice(operation_name(object, usize::from(*op)))?;
            push_names(out, object, b", ", rest)?;
            Ok(())
        }
    }
}

// Adds what is said of a hold that anybody may end.
fn push_loose(out: &mut Vec<u8>, by_any: bool) -> Result<(), AllocError>
    ensures { OnOk result (out.new.items ≡ out.old.items ++ loose_text by_any) }
{
    if by_any {
        out.extend_from_slice(b" by any")?;
    }
    Ok(())
}

// Adds the line of a hold.
fn push_hold(out: &mut Vec<u8>, object: &Object, hold: &Hold) -> Result<(), AllocError>
    ensures { OnOk result (out.new.items ≡ out.old.items ++ hold_line (object_of object.now) (hold_of hold.now)) }
{
    out.extend_from_slice(b"hold ")?;
    out.extend_from_slice(operation_name(object, usize::from(hold.op)))?;
    push_names(out, object, b" until ", &hold.until)?;
    push_loose(out, hold.by_any)?;
    out.push(b'\n')?;
    Ok(())
}

// Adds the lines of these holds.
fn push_holds(out: &mut Vec<u8>, object: &Object, holds: &[Hold]) -> Result<(), AllocError>
    ensures { OnOk result (out.new.items ≡ out.old.items ++ hold_lines (object_of object.now) (holds_of holds.now)) }
{
    match holds {
        [] => Ok(()),
        [hold, rest @ ..] => {
            push_hold(out, object, hold)?;
            push_holds(out, object, rest)?;
            Ok(())
        }
    }
}

// Adds the line of an operation that is called again and again.
fn push_every(out: &mut Vec<u8>, object: &Object, every: &Every) -> Result<(), AllocError>
    ensures { OnOk result (out.new.items ≡ out.old.items ++ every_line (object_of object.now) (every_of every.now)) }
{
    push_number(out, b"every ", u64::from(every.seconds))?;
    out.extend_from_slice(b" call ")?;
    out.extend_from_slice(operation_name(object, usize::from(every.op)))?;
    out.push(b'\n')?;
    Ok(())
}

// Adds the lines of what is called again and again.
fn push_everies(out: &mut Vec<u8>, object: &Object, everies: &[Every]) -> Result<(), AllocError>
    ensures { OnOk result (out.new.items ≡ out.old.items
        ++ every_lines (object_of object.now) (everies_of everies.now)) }
{
    match everies {
        [] => Ok(()),
        [every, rest @ ..] => {
            push_every(out, object, every)?;
            push_everies(out, object, rest)?;
            Ok(())
        }
    }
}

/// Adds the lines of what an object says of clients that are gone and of time.
pub(crate) fn push_rules(
    out: &mut Vec<u8>,
    object: &Object,
    rules: &Rules,
) -> Result<(), AllocError>
    ensures { OnOk result (out.new.items ≡ out.old.items ++ rule_lines (object_of object.now) (rules_of rules.now)) }
{
    push_holds(out, object, &rules.holds)?;
    push_everies(out, object, &rules.everies)?;
    Ok(())
}
