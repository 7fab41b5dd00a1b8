//! The lines of a trace before its first event.

ghost use Rattle.std.specs.Prelude.{◌≡◌, ◌++◌, OnOk};
ghost use Rattle.decl_core.specs.ObjectMap.{object_of, parts_of};
ghost use Rattle.word_core.specs.Words.{line_of};
ghost use Rattle.word_core.specs.Text.{part_words, parts_words, front_words, lines_of};

use crate::line::push_line;
use crate::word::Written;
use decl_core::object::{Object, Part};
use std::alloc::{AllocError, Global};
use value_bytes::encode::encode;
use value_core::value::Value;

/// Adds the lines of a trace before its first event: `object NAME`, and then `part NAME HEX` for each part, in order of
/// declaration, with the bytes of its opening value. There are as many of these as there are parts and values.
///
/// The error is that memory was refused; how much of the lines then stands in `out` is not said.
pub fn push_front(
    alloc: Global,
    out: &mut Vec<u8>,
    object: &Object,
    opening: &[Value],
) -> Result<(), AllocError>
    ensures { OnOk result (out.new.items ≡ out.old.items ++ lines_of (front_words (object_of object.now) opening.now)) }
{
    push_line(
        out,
        &[
            Written::Bare(b"object"),
            Written::Bare(object.name.as_bytes()),
        ],
    )?;
    push_parts(alloc, out, &object.parts, opening)
}

/// Adds `part NAME HEX` for each part, in order of declaration. There are as many values as parts. The error is that
/// memory was refused; how much then stands in `out` is not said.
pub fn push_parts(
    alloc: Global,
    out: &mut Vec<u8>,
    parts: &[Part],
    opening: &[Value],
) -> Result<(), AllocError>
    ensures { OnOk result (out.new.items ≡ out.old.items ++ lines_of (parts_words (parts_of parts.now) opening.now)) }
{
    match parts {
        [] => Ok(()),
        [part, parts @ ..] => match opening {
            [] => Ok(()),
            [value, opening @ ..] => {
                push_part(alloc, out, part.name.as_bytes(), value)?;
                push_parts(alloc, out, parts, opening)
            }
        },
    }
}

/// Adds `part NAME HEX`. The error is that memory was refused; how much then stands in `out` is not said.
pub fn push_part(
    alloc: Global,
    out: &mut Vec<u8>,
    name: &[u8],
    value: &Value,
) -> Result<(), AllocError>
    ensures { OnOk result (out.new.items ≡ out.old.items ++ line_of (part_words name.now value.now)) }
{
    let bytes = encode(alloc, value)?;
    let hex = hex::encode(alloc, bytes.as_slice())?;
    push_line(
        out,
        &[
            Written::Bare(b"part"),
            Written::Bare(name),
            Written::Bare(hex.as_bytes()),
        ],
    )
}
