//! In what FILE declares an object otherwise than its journal has it.

use decl_core::hold::{Hold, Rules};
use decl_core::object::{Object, Operation};
use live_core::source::source_of;
use recover_core::changed::{
    DeclaredPart, first_other_hold, first_other_operation, first_other_part, line_at, name_at,
    operation_in, operation_of, parts_in, parts_of, source_in,
};
use recover_core::recover::RecoverFault;
use std::alloc::{AllocError, Global};
use value_core::kind::{Elem, Kind};
use value_core::reply::push_number;

/// An object as it is declared, now or before.
#[derive(Drop)]
pub(crate) struct DeclaredObject {
    pub(crate) object: Object,
    pub(crate) rules: Rules,
}

fn sort_text(sort: Elem) -> &'static [u8] {
    match sort {
        Elem::Integer => b"integer",
        Elem::Text => b"text",
    }
}

// What a part holds, as a declaration says it; of arrays of one sort only how long they are.
fn push_kind(out: &mut Vec<u8>, kind: Kind, is_same_sort: bool) -> Result<(), AllocError> {
    match kind {
        Kind::Array(count, sort) => {
            push_number(out, b"array [", u64::from(count))?;
            out.extend_from_slice(b"]")?;
            if is_same_sort {
                return Ok(());
            }
            out.extend_from_slice(b" of ")?;
            out.extend_from_slice(sort_text(sort))
        }
        Kind::Queue(sort) => {
            out.extend_from_slice(b"queue of ")?;
            out.extend_from_slice(sort_text(sort))
        }
        Kind::Table(sort) => {
            out.extend_from_slice(b"table of ")?;
            out.extend_from_slice(sort_text(sort))
        }
    }
}

// A text between two others.
fn push_between(
    out: &mut Vec<u8>,
    front: &[u8],
    text: &[u8],
    back: &[u8],
) -> Result<(), AllocError> {
    out.extend_from_slice(front)?;
    out.extend_from_slice(text)?;
    out.extend_from_slice(back)
}

// Whether both are arrays of one sort.
fn are_arrays(before: Kind, now: Kind) -> bool {
    match (before, now) {
        (Kind::Array(_, first), Kind::Array(_, second)) => first == second,
        _ => false,
    }
}

fn has_name(parts: &[DeclaredPart], name: &[u8]) -> bool {
    parts.iter().any(|part| part.name.as_slice() == name)
}

// What is said of two parts that are not the same, of which these and more follow.
fn push_two_parts(
    out: &mut Vec<u8>,
    before: &[DeclaredPart],
    now: &[DeclaredPart],
    first: &DeclaredPart,
    second: &DeclaredPart,
) -> Result<(), AllocError> {
    if first.name.as_slice() == second.name.as_slice() {
        let is_same_sort = are_arrays(first.kind, second.kind);
        push_between(out, b"part ", &second.name, b" is ")?;
        push_kind(out, second.kind, is_same_sort)?;
        out.extend_from_slice(b", the journal has ")?;
        return push_kind(out, first.kind, is_same_sort);
    }
    if has_name(before, &second.name) && !has_name(now, &first.name) {
        return push_between(out, b"part ", &first.name, b" is gone");
    }
    if !has_name(before, &second.name) && has_name(now, &first.name) {
        return push_between(out, b"part ", &second.name, b" is new");
    }
    push_between(
        out,
        b"part ",
        &second.name,
        b" stands where the journal has ",
    )?;
    out.extend_from_slice(&first.name)
}

// What is said of parts, the first of which are not the same. False: there is none.
fn push_parts(
    out: &mut Vec<u8>,
    before: &[DeclaredPart],
    now: &[DeclaredPart],
) -> Result<bool, AllocError> {
    match (before, now) {
        ([first, ..], [second, ..]) => push_two_parts(out, before, now, first, second)?,
        ([first, ..], []) => push_between(out, b"part ", &first.name, b" is gone")?,
        ([], [second, ..]) => push_between(out, b"part ", &second.name, b" is new")?,
        ([], []) => return Ok(false),
    }
    Ok(true)
}

// What an operation takes.
fn push_takes(out: &mut Vec<u8>, operation: &Operation) -> Result<(), AllocError> {
    if operation.params.is_empty() {
        return out.extend_from_slice(b"nothing");
    }
    for at in 0..operation.params.len() {
        if at > 0 {
            out.extend_from_slice(b", ")?;
        }
        out.extend_from_slice(sort_text(operation.params[at].kind))?;
    }
    Ok(())
}

// What it replies.
fn push_reply(out: &mut Vec<u8>, operation: &Operation) -> Result<(), AllocError> {
    match operation.result {
        Some(sort) => out.extend_from_slice(sort_text(sort)),
        None => out.extend_from_slice(b"nothing"),
    }
}

// Whether two operations take the same.
fn take_same(before: &Operation, now: &Operation) -> bool {
    if before.params.len() != now.params.len() {
        return false;
    }
    for at in 0..before.params.len() {
        if before.params[at].kind != now.params[at].kind {
            return false;
        }
    }
    true
}

// What is said of an operation that an object has not as it was before.
fn push_operation(
    out: &mut Vec<u8>,
    before: &Operation,
    object: &Object,
) -> Result<(), AllocError> {
    let name = before.name.as_bytes();
    let Some(now) = operation_of(object, name) else {
        return push_between(out, b"operation ", name, b" is gone");
    };
    if take_same(before, now) {
        push_between(out, b"operation ", name, b" replies ")?;
        push_reply(out, now)?;
        out.extend_from_slice(b", the journal has ")?;
        return push_reply(out, before);
    }
    push_between(out, b"operation ", name, b" takes ")?;
    push_takes(out, now)?;
    out.extend_from_slice(b", the journal has ")?;
    push_takes(out, before)
}

// A hold of an object, as a declaration says it.
fn push_hold(out: &mut Vec<u8>, object: &Object, hold: &Hold) -> Result<(), AllocError> {
    push_between(out, b"hold ", name_at(object, hold.op), b" until ")?;
    for at in 0..hold.until.len() {
        if at > 0 {
            out.extend_from_slice(b" or ")?;
        }
        out.extend_from_slice(name_at(object, hold.until[at]))?;
    }
    if hold.by_any {
        out.extend_from_slice(b" by any")?;
    }
    Ok(())
}

// What is said of an object of before that has other holds. False: it has the same.
fn push_holds(
    out: &mut Vec<u8>,
    before: &DeclaredObject,
    object: &Object,
    holds: &[Hold],
) -> Result<bool, AllocError> {
    if let Some(hold) = first_other_hold(&before.object, &before.rules.holds, object, holds) {
        push_hold(out, &before.object, hold)?;
        out.extend_from_slice(b" is gone")?;
        return Ok(true);
    }
    if let Some(hold) = first_other_hold(object, holds, &before.object, &before.rules.holds) {
        push_hold(out, object, hold)?;
        out.extend_from_slice(b" is new")?;
        return Ok(true);
    }
    Ok(false)
}

// What is said of a line of a front that tells of an operation as the object has none. False: nothing is known.
fn push_unread(out: &mut Vec<u8>, object: &Object, line: &[u8]) -> Result<bool, AllocError> {
    let name = operation_in(line);
    if name.is_empty() {
        return Ok(false);
    }
    if operation_of(object, name).is_none() {
        push_between(out, b"operation ", name, b" is gone")?;
        return Ok(true);
    }
    if line.starts_with(b"held ") {
        push_between(out, b"the journal holds ", name, b" otherwise")?;
        return Ok(true);
    }
    push_between(
        out,
        b"operation ",
        name,
        b" takes or replies something else in the journal",
    )?;
    Ok(true)
}

// What is said of an object, of which this line of its journal cannot be read, by what is known of it before.
fn push_behind_parts(
    out: &mut Vec<u8>,
    before: Option<&DeclaredObject>,
    object: &Object,
    holds: &[Hold],
    line: &[u8],
) -> Result<bool, AllocError> {
    let Some(before) = before else {
        return push_unread(out, object, line);
    };
    if let Some(operation) = first_other_operation(&before.object, object) {
        push_operation(out, operation, object)?;
        return Ok(true);
    }
    if line.starts_with(b"held ") {
        return push_holds(out, before, object, holds);
    }
    Ok(false)
}

// What is said of an object that begins otherwise than these lines, of which one cannot be read. False: nothing is known.
fn push_change(
    alloc: Global,
    out: &mut Vec<u8>,
    before: Option<&DeclaredObject>,
    object: &Object,
    holds: &[Hold],
    lines: &[u8],
    line: u64,
) -> Result<bool, AllocError> {
    let now = parts_of(alloc, object)?;
    let then = match before {
        Some(before) => parts_of(alloc, &before.object)?,
        None => parts_in(alloc, lines)?,
    };
    if source_in(lines) != Some(source_of(object)) {
        if let Some((then, now)) = first_other_part(&then, &now) {
            return push_parts(out, then, now);
        }
    }
    push_behind_parts(out, before, object, holds, line_at(lines, line))
}

// The number of the first line that tells what is held.
fn held_line(lines: &[u8]) -> Option<u64> {
    let mut number: u64 = 1;
    let mut begins = true;
    for at in 0..lines.len() {
        if begins && lines.get(at..).unwrap_or(&[]).starts_with(b"held ") {
            return Some(number);
        }
        begins = lines[at] == b'\n';
        if begins {
            number = number.saturating_add(1);
        }
    }
    None
}

// `object NAME was changed: `.
fn changed_head(alloc: Global, object: &Object) -> Result<Vec<u8>, AllocError> {
    let mut out = Vec::new(alloc);
    push_between(
        &mut out,
        b"object ",
        object.name.as_bytes(),
        b" was changed: ",
    )?;
    Ok(out)
}

// `object NAME was changed: start the old FILE once`.
fn start_old(alloc: Global, object: &Object) -> Result<Vec<u8>, AllocError> {
    let mut out = changed_head(alloc, object)?;
    out.extend_from_slice(b"start the old FILE once\n")?;
    Ok(out)
}

// What is said of an object, of which this line of its journal cannot be read. `None`: nothing is known.
fn changed_at(
    alloc: Global,
    before: Option<&DeclaredObject>,
    object: &Object,
    holds: &[Hold],
    lines: &[u8],
    line: u64,
) -> Result<Option<Vec<u8>>, AllocError> {
    let mut out = changed_head(alloc, object)?;
    if push_change(alloc, &mut out, before, object, holds, lines, line)? {
        out.extend_from_slice(b"\n")?;
        return Ok(Some(out));
    }
    Ok(None)
}

// The same, of an object whose lines behind the front, or what is held in that, keep another declaration from going on.
fn changed_behind(
    alloc: Global,
    before: Option<&DeclaredObject>,
    object: &Object,
    holds: &[Hold],
    lines: &[u8],
) -> Result<Vec<u8>, AllocError> {
    if holds.is_empty() {
        if let Some(line) = held_line(lines) {
            if let Some(said) = changed_at(alloc, before, object, holds, lines, line)? {
                return Ok(said);
            }
        }
    }
    start_old(alloc, object)
}

// The same, of an object whose line of this number cannot be read. `None`: it was not changed, as far as is known.
fn changed_line_at(
    alloc: Global,
    before: Option<&DeclaredObject>,
    object: &Object,
    holds: &[Hold],
    lines: &[u8],
    line: u64,
) -> Result<Option<Vec<u8>>, AllocError> {
    let is_held = line_at(lines, line).starts_with(b"held ");
    if line <= 2 || (!is_held && source_in(lines) == Some(source_of(object))) {
        return Ok(None);
    }
    match changed_at(alloc, before, object, holds, lines, line)? {
        Some(said) => Ok(Some(said)),
        None => if is_held {
            Ok(Some(start_old(alloc, object)?))
        } else {
            Ok(None)
        },
    }
}

/// What is said of an object whose journal has this fault since FILE declares it otherwise: `object NAME was changed: ..`.
/// `None`: it was not changed, as far as is known. `before` is the object as the journal knows it, where that is known.
pub(crate) fn changed_line(
    alloc: Global,
    before: &Option<DeclaredObject>,
    now: &DeclaredObject,
    lines: &[u8],
    fault: RecoverFault,
) -> Result<Option<Vec<u8>>, AllocError> {
    let object = &now.object;
    let holds = now.rules.holds.as_slice();
    let before = match before {
        Some(before) => Some(before),
        None => None,
    };
    match fault {
        RecoverFault::Changed => {
            let said = changed_behind(alloc, before, object, holds, lines)?;
            Ok(Some(said))
        }
        RecoverFault::Front(line) | RecoverFault::Line(line, _) => {
            changed_line_at(alloc, before, object, holds, lines, line)
        }
        RecoverFault::Contradicts(_) | RecoverFault::Past => Ok(None),
    }
}
