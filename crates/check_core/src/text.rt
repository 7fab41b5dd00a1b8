//! The parts of the lines that `pathserve check` prints.

ghost use Rattle.std.specs.Prelude.{◌≡◌, ◌++◌, OnOk, codes, slice_get};
ghost use Rattle.decl_core.specs.ObjectMap.{object_of};
ghost use Rattle.check_core.specs.Report.{fault_word, operation_name, pair_line, pair_lines, pair_text, part_name};

use decl_core::certificate::SeparatedPair;
use decl_core::object::Object;
use decl_read::fault::DeclFault;
use std::alloc::AllocError;
use value_core::reply::push_number;

// The name of an operation of an object.
fn operation_name(object: &Object, place: usize) -> &[u8]
    ensures { result.now ≡ operation_name (slice_get (object_of object.now).operations place) }
{
    match object.operations.get(place) {
        Some(operation) => operation.name.as_bytes(),
        None => b"",
    }
}

/// The name of a part of an object.
pub(crate) fn part_name(object: &Object, place: usize) -> &[u8]
    ensures { result.now ≡ part_name (slice_get (object_of object.now).parts place) }
{
    match object.parts.get(place) {
        Some(part) => part.name.as_bytes(),
        None => b"",
    }
}

/// Adds the names of two operations.
pub(crate) fn push_pair(
    out: &mut Vec<u8>,
    object: &Object,
    first: usize,
    second: usize,
) -> Result<(), AllocError>
    ensures { OnOk result (out.new.items ≡ out.old.items ++ pair_text (object_of object.now) first second) }
{
    out.extend_from_slice(operation_name(object, first))?;
    out.push(b' ')?;
    out.extend_from_slice(operation_name(object, second))?;
    Ok(())
}

// Adds the line of an entry.
fn push_entry(out: &mut Vec<u8>, object: &Object, entry: SeparatedPair) -> Result<(), AllocError>
    ensures { OnOk result (out.new.items ≡ out.old.items ++ pair_line (object_of object.now) entry) }
{
    out.extend_from_slice(b"pair ")?;
    push_pair(out, object, entry.first, entry.second)?;
    push_number(out, b" path ", entry.path as u64)?;
    push_number(out, b" node ", entry.node as u64)?;
    out.push(b'\n')?;
    Ok(())
}

/// Adds the lines of these entries.
pub(crate) fn push_entries(
    out: &mut Vec<u8>,
    object: &Object,
    entries: &[SeparatedPair],
) -> Result<(), AllocError>
    ensures { OnOk result (out.new.items ≡ out.old.items ++ pair_lines (object_of object.now) entries.now) }
{
    let mut rest = entries;
    'entries: while let [entry, tail @ ..] = rest {
        push_entry(out, object, *entry)?;
        rest = tail;
    }
    Ok(())
}

/// Adds `object`, the name of an object, and what is said of it.
pub(crate) fn push_said(out: &mut Vec<u8>, object: &Object, said: &[u8]) -> Result<(), AllocError>
    ensures { OnOk result (out.new.items ≡ out.old.items ++ (codes "object " ++ object.now.name ++ said.now)) }
{
    out.extend_from_slice(b"object ")?;
    out.extend_from_slice(object.name.as_bytes())?;
    out.extend_from_slice(said)?;
    Ok(())
}

/// The word before a fault of a source.
pub(crate) fn fault_word(fault: &DeclFault) -> &'static [u8]
    ensures { result.now ≡ fault_word fault.now }
{
    match fault {
        DeclFault::Lex(_) => b"lex ",
        DeclFault::Path(_) => b"path ",
        DeclFault::Syntax(_)
        | DeclFault::DuplicateName(_)
        | DeclFault::WrongType(_)
        | DeclFault::UnknownName(_)
        | DeclFault::TooMany(_)
        | DeclFault::Memory => b"decl ",
    }
}
