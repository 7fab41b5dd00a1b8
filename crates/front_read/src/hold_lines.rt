//! The lines of a front that tell what is held.

ghost use Rattle.std.specs.Prelude.{◌≡◌, ◌++◌, OnOk, codes, slice_get};
ghost use Rattle.decl_core.specs.ObjectMap.{object_of};
ghost use Rattle.word_core.specs.Words.{line_of};
ghost use Rattle.front_read.specs.Rows.{row_words};
ghost use Rattle.decl_core.specs.HoldMap.{holds_of};
ghost use Rattle.front_read.specs.HeldLines.{held_words, held_text, held_with, op_by};
ghost use Rattle.word_core.specs.Text.{operation_name};

use decl_core::hold::Hold;
use decl_core::object::Object;
use guest_core::held::{HeldCall, Holds};
use path_tree::node::OpId;
use std::alloc::AllocError;
use value_core::datum::Datum;
use word_core::event::name_of;
use word_core::line::push_data_line;
use word_core::word::Written;

/// How a call is held, beside its values.
#[derive(Clone, Copy)]
pub struct HeldSo {
    /// The session that holds it.
    pub session: u32,
    /// Its number.
    pub number: u64,
    /// The place of its hold among those of the object.
    pub rule: usize,
}

// The operation of the hold at a place.
fn op_at(holds: &[Hold], rule: usize) -> OpId
    ensures { result ≡ op_by (slice_get (holds_of holds.now) rule) }
{
    match holds.get(rule) {
        Some(hold) => hold.op,
        None => OpId::MAX,
    }
}

// The name of the operation whose calls are held so; no bytes where there is none.
fn held_name<'a>(object: &'a Object, holds: &[Hold], rule: usize) -> &'a [u8]
    ensures { result.now ≡ operation_name (object_of object.now) (op_by (slice_get (holds_of holds.now) rule)) }
{
    name_of(object, op_at(holds, rule))
}

/// Adds `held sK N OP DATA ..`, the line of a call that is held so; without a name, where there is no such hold. The error
/// is that memory was refused; how much then stands in `out` is not said.
pub fn push_held_so(
    out: &mut Vec<u8>,
    object: &Object,
    holds: &[Hold],
    so: HeldSo,
    values: &[Datum],
) -> Result<(), AllocError>
    ensures { OnOk result (out.new.items ≡ out.old.items
        ++ line_of (row_words (codes "held") (held_words (object_of object.now) (holds_of holds.now))
        (held_with so values.now))) }
{
    push_data_line(
        out,
        &[
            Written::Bare(b"held"),
            Written::Session(u64::from(so.session)),
            Written::Integer(so.number),
            Written::Bare(held_name(object, holds, so.rule)),
        ],
        values,
    )
}

// Adds the line of a call that is held.
fn push_held_call(
    out: &mut Vec<u8>,
    object: &Object,
    holds: &[Hold],
    held: &HeldCall,
) -> Result<(), AllocError>
    ensures { OnOk result (out.new.items ≡ out.old.items
        ++ line_of (row_words (codes "held") (held_words (object_of object.now) (holds_of holds.now)) held.now)) }
{
    push_held_so(
        out,
        object,
        holds,
        HeldSo {
            session: held.session(),
            number: held.number(),
            rule: held.rule(),
        },
        held.values(),
    )
}

/// Adds `held sK N OP DATA ..` for each call that is held, the oldest first. The error is that memory was refused; how much
/// then stands in `out` is not said.
pub fn push_held(
    out: &mut Vec<u8>,
    object: &Object,
    holds: &[Hold],
    held: &Holds,
) -> Result<(), AllocError>
    ensures { OnOk result (out.new.items ≡ out.old.items
        ++ held_text (object_of object.now) (holds_of holds.now) held.now) }
{
    push_all(out, object, holds, held.all())
}

// Adds the lines of these.
fn push_all(
    out: &mut Vec<u8>,
    object: &Object,
    holds: &[Hold],
    all: &[HeldCall],
) -> Result<(), AllocError>
    ensures { OnOk result (out.new.items ≡ out.old.items
        ++ held_text (object_of object.now) (holds_of holds.now) all.now) }
{
    for held in all {
        push_held_call(out, object, holds, held)?;
    }
    Ok(())
}
