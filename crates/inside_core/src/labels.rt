//! The label that tells of which server a number is, so that one collector has the numbers of several.

ghost use Rattle.std.specs.Prelude.{◌≡◌, ◌++◌, flat_map, IfOk, OnOk};
ghost use Rattle.inside_core.specs.Labels.{label_value, label_byte, labelled, server_label, with_label};

use std::alloc::{AllocError, Global};

// Adds a byte, as the value of a label has it.
fn push_byte(out: &mut Vec<u8>, byte: u8) -> Result<(), AllocError>
    ensures { OnOk result (out.new.items ≡ out.old.items ++ label_byte byte) }
{
    if byte == b'\\' {
        return out.extend_from_slice(b"\\\\");
    }
    if byte == b'"' {
        return out.extend_from_slice(b"\\\"");
    }
    if byte == b'\n' {
        return out.extend_from_slice(b"\\n");
    }
    out.push(byte)?;
    Ok(())
}

// Adds a text, as the value of a label has it.
fn push_value(out: &mut Vec<u8>, text: &[u8]) -> Result<(), AllocError>
    ensures { OnOk result (out.new.items ≡ out.old.items ++ label_value text.now) }
{
    for byte in text {
        push_byte(out, *byte)?;
    }
    Ok(())
}

/// The label of the server of this folder, as it was named. The error is that memory was refused.
pub fn server_label(alloc: Global, folder: &[u8]) -> Result<Vec<u8>, AllocError>
    ensures { IfOk result (λ label. label.items ≡ server_label folder.now) }
{
    let mut label = Vec::new(alloc);
    label.extend_from_slice(b"server=\"")?;
    push_value(&mut label, folder)?;
    label.push(b'"')?;
    Ok(label)
}

// Adds a byte of lines that have labels.
fn push_with_label(out: &mut Vec<u8>, label: &[u8], byte: u8) -> Result<(), AllocError>
    ensures { OnOk result (out.new.items ≡ out.old.items ++ with_label label.now byte) }
{
    if byte == b'{' {
        out.push(b'{')?;
        out.extend_from_slice(label)?;
        out.push(b',')?;
        return Ok(());
    }
    out.push(byte)?;
    Ok(())
}

/// Adds lines of which each that is a number has labels, with this label before them. The error is that memory was refused;
/// how much then stands in `out` is not said.
pub fn push_labelled(out: &mut Vec<u8>, label: &[u8], text: &[u8]) -> Result<(), AllocError>
    ensures { OnOk result (out.new.items ≡ out.old.items ++ labelled label.now text.now) }
{
    for byte in text {
        push_with_label(out, label, *byte)?;
    }
    Ok(())
}
