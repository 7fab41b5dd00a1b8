//! In what an object is declared otherwise than before: its parts, its operations, and what it holds.

ghost use Rattle.std.specs.Prelude.{◌≡◌, ◌↔◌, ◌≤◌, IsTrue, MatchOption, length, map};
ghost use Rattle.recover_core.specs.Changed.{AreSameParts};

use decl_core::hold::Hold;
use decl_core::object::{Object, Operation};
use path_tree::node::OpId;
use std::alloc::{AllocError, Global};
use value_core::kind::{Elem, Kind};

/// A part as it was declared.
#[derive(Drop)]
pub struct DeclaredPart {
    /// Its name.
    pub name: Vec<u8>,
    /// What it holds.
    pub kind: Kind,
}

/// The parts that an object declares, in order. The error is that memory was refused.
pub fn parts_of(alloc: Global, object: &Object) -> Result<Vec<DeclaredPart>, AllocError> {
    let mut all = Vec::with_capacity(alloc, object.parts.len())?;
    for part in &object.parts {
        all.push(DeclaredPart {
            name: part.name.as_bytes().to_vec(alloc)?,
            kind: part.kind,
        })?;
    }
    Ok(all)
}

fn is_same(a: &[u8], b: &[u8]) -> bool
    ensures { IsTrue result ↔ (a.now ≡ b.now) }
{
    a == b
}

// Whether both have the same name.
fn is_same_name(before: &DeclaredPart, now: &DeclaredPart) -> bool
    ensures { IsTrue result ↔ (before.now.name.items ≡ now.now.name.items) }
{
    is_same(before.name.as_slice(), now.name.as_slice())
}

// Whether both hold the same.
fn is_same_kind(before: &DeclaredPart, now: &DeclaredPart) -> bool
    ensures { IsTrue result ↔ (before.now.kind ≡ now.now.kind) }
{
    before.kind == now.kind
}

// Whether parts have the same names, one by one.
fn are_same_names(before: &[DeclaredPart], now: &[DeclaredPart]) -> bool
    ensures { IsTrue result ↔ (map (λ part. part.name.items) before.now ≡ map (λ part. part.name.items) now.now) }
{
    match before {
        [] => now.is_empty(),
        [first, rest @ ..] => match now {
            [] => false,
            [second, others @ ..] => is_same_name(first, second) && are_same_names(rest, others),
        },
    }
}

// Whether parts hold the same, one by one.
fn are_same_kinds(before: &[DeclaredPart], now: &[DeclaredPart]) -> bool
    ensures { IsTrue result ↔ (map (λ part. part.kind) before.now ≡ map (λ part. part.kind) now.now) }
{
    match before {
        [] => now.is_empty(),
        [first, rest @ ..] => match now {
            [] => false,
            [second, others @ ..] => is_same_kind(first, second) && are_same_kinds(rest, others),
        },
    }
}

/// Whether these are the same parts, one by one: of the same names, and holding the same.
pub fn are_same_parts(before: &[DeclaredPart], now: &[DeclaredPart]) -> bool
    ensures { IsTrue result ↔ AreSameParts before.now now.now }
{
    are_same_names(before, now) && are_same_kinds(before, now)
}

// The place of the first part that is another one than before, gone or new, or behind all of them.
fn first_other(before: &[DeclaredPart], now: &[DeclaredPart]) -> usize {
    for at in 0..before.len() {
        let Some(second) = now.get(at) else {
            return at;
        };
        if !is_same_name(&before[at], second) || !is_same_kind(&before[at], second) {
            return at;
        }
    }
    before.len()
}

/// The parts from the first on that is another one than before, gone or new: those of before, and those of now. `None`: the
/// parts are the same.
pub fn first_other_part<'a>(
    before: &'a [DeclaredPart],
    now: &'a [DeclaredPart],
) -> Option<(&'a [DeclaredPart], &'a [DeclaredPart])>
    ensures { MatchOption result (AreSameParts before.now now.now) (λ _. AreSameParts before.now now.now → ⊥) }
{
    if are_same_parts(before, now) {
        return None;
    }
    let at = first_other(before, now);
    Some((
        before.get(at..).unwrap_or(&[]),
        now.get(at..).unwrap_or(&[]),
    ))
}

// A digit of a hexadecimal number.
fn hex_in(byte: u8) -> Option<u8> {
    match byte.checked_sub(b'0') {
        Some(digit) if digit < 10 => Some(digit),
        _ => match byte.checked_sub(b'a') {
            Some(digit) if digit < 6 => Some(digit + 10),
            _ => None,
        },
    }
}

// The number that so many digits spell, behind a place.
fn number_at(text: &[u8], from: usize, digits: usize) -> Option<u64> {
    let mut number: u64 = 0;
    for at in from..from.saturating_add(digits) {
        let digit = hex_in(*text.get(at)?)?;
        number = number.wrapping_mul(16).wrapping_add(u64::from(digit));
    }
    Some(number)
}

// The kind of the value that these digits spell.
fn kind_in(digits: &[u8]) -> Option<Kind> {
    let count = u16::try_from(number_at(digits, 4, 4)?).ok()?;
    match number_at(digits, 2, 2)? {
        1 => Some(Kind::Array(count, Elem::Integer)),
        2 => Some(Kind::Array(count, Elem::Text)),
        3 => Some(Kind::Queue(Elem::Integer)),
        4 => Some(Kind::Queue(Elem::Text)),
        5 => Some(Kind::Table(Elem::Integer)),
        6 => Some(Kind::Table(Elem::Text)),
        _ => None,
    }
}

/// The line of this number, from 1 on, without its LF; nothing where there is none.
pub fn line_at(lines: &[u8], number: u64) -> &[u8] {
    let mut count: u64 = 1;
    let mut begin = 0;
    for at in 0..lines.len() {
        if lines[at] == b'\n' {
            if count == number {
                return lines.get(begin..at).unwrap_or(&[]);
            }
            count = count.saturating_add(1);
            begin = at + 1;
        }
    }
    &[]
}

/// The number of the declaration with which the epoch began of which these are the lines, where line 2 tells one.
pub fn source_in(lines: &[u8]) -> Option<u64> {
    let line = line_at(lines, 2);
    if line.len() != 23 || !line.starts_with(b"source ") {
        return None;
    }
    number_at(line, 7, 16)
}

// The place of the first space of a text, or its length.
fn space_in(text: &[u8]) -> usize
    ensures { result ≤ length text.now }
{
    for at in 0..text.len() {
        if text[at] == b' ' {
            return at;
        }
    }
    text.len()
}

// The part that a line of a front tells of.
fn part_in(alloc: Global, line: &[u8]) -> Result<Option<DeclaredPart>, AllocError> {
    let Some(rest) = line.strip_prefix(b"part ".as_slice()) else {
        return Ok(None);
    };
    let (name, digits) = rest.split_at(space_in(rest));
    let Some(digits) = digits.strip_prefix(b" ".as_slice()) else {
        return Ok(None);
    };
    match kind_in(digits) {
        Some(kind) => Ok(Some(DeclaredPart {
            name: name.to_vec(alloc)?,
            kind,
        })),
        None => Ok(None),
    }
}

/// The parts of which the front at the beginning of these lines tells, in order, as far as their kinds can be read. The
/// error is that memory was refused.
pub fn parts_in(alloc: Global, lines: &[u8]) -> Result<Vec<DeclaredPart>, AllocError> {
    let mut all = Vec::new(alloc);
    for number in 3..64 {
        match part_in(alloc, line_at(lines, number))? {
            Some(part) => all.push(part)?,
            None => return Ok(all),
        }
    }
    Ok(all)
}

// Whether two operations take and reply the same.
fn is_same_use(before: &Operation, now: &Operation) -> bool {
    if before.params.len() != now.params.len() || before.result != now.result {
        return false;
    }
    for at in 0..before.params.len() {
        if before.params[at].kind != now.params[at].kind {
            return false;
        }
    }
    true
}

/// The operation of this name.
pub fn operation_of<'a>(object: &'a Object, name: &[u8]) -> Option<&'a Operation> {
    for operation in &object.operations {
        if operation.name.as_bytes() == name {
            return Some(operation);
        }
    }
    None
}

// Whether an object has an operation of the same name that takes and replies the same.
fn has_same(object: &Object, operation: &Operation) -> bool {
    match operation_of(object, operation.name.as_bytes()) {
        Some(found) => is_same_use(operation, found),
        None => false,
    }
}

/// The first operation of an object that another one has not, or that takes or replies something else there.
pub fn first_other_operation<'a>(object: &'a Object, other: &Object) -> Option<&'a Operation> {
    for operation in &object.operations {
        if !has_same(other, operation) {
            return Some(operation);
        }
    }
    None
}

/// The name of the operation at a place; nothing where there is none.
pub fn name_at(object: &Object, operation: OpId) -> &[u8] {
    match object.operations.get(operation as usize) {
        Some(found) => found.name.as_bytes(),
        None => &[],
    }
}

// Whether two holds say the same of operations of the same names.
fn is_same_hold(before: &Object, hold: &Hold, now: &Object, other: &Hold) -> bool {
    if name_at(before, hold.op) != name_at(now, other.op) || hold.by_any != other.by_any {
        return false;
    }
    if hold.until.len() != other.until.len() {
        return false;
    }
    for at in 0..hold.until.len() {
        if name_at(before, hold.until[at]) != name_at(now, other.until[at]) {
            return false;
        }
    }
    true
}

// Whether one of these holds says the same.
fn has_hold(before: &Object, hold: &Hold, now: &Object, holds: &[Hold]) -> bool {
    for other in holds {
        if is_same_hold(before, hold, now, other) {
            return true;
        }
    }
    false
}

/// The first hold of an object that another object has not among its holds.
pub fn first_other_hold<'a>(
    object: &Object,
    holds: &'a [Hold],
    other: &Object,
    others: &[Hold],
) -> Option<&'a Hold> {
    for hold in holds {
        if !has_hold(object, hold, other, others) {
            return Some(hold);
        }
    }
    None
}

// The end of the word that begins at a place: a space outside of apostrophes, or the end.
fn end_of(line: &[u8], from: usize) -> usize {
    let mut is_text = false;
    for at in from..line.len() {
        if line[at] == b'\'' {
            is_text = !is_text;
        }
        if line[at] == b' ' && !is_text {
            return at;
        }
    }
    line.len()
}

// The word of this number, from 0 on; nothing where there is none.
fn word_at(line: &[u8], number: usize) -> &[u8] {
    let mut begin = 0;
    for _ in 0..number {
        let end = end_of(line, begin);
        if end >= line.len() {
            return &[];
        }
        begin = end + 1;
    }
    line.get(begin..end_of(line, begin)).unwrap_or(&[])
}

// Whether a word begins as a name does.
fn is_name(word: &[u8]) -> bool {
    match word.first() {
        Some(byte) => b'a' <= *byte && *byte <= b'z',
        None => false,
    }
}

// The operation behind the words that say how a call ended, which begin with the fifth word.
fn operation_behind(line: &[u8]) -> &[u8] {
    let verb = word_at(line, 4);
    let word = word_at(line, 5);
    if verb == b"cancelled".as_slice() || (verb == b"done".as_slice() && is_name(word)) {
        return word;
    }
    word_at(line, 6)
}

/// The name of the operation of which a line of a front tells; nothing where it tells of none.
pub fn operation_in(line: &[u8]) -> &[u8] {
    let verb = word_at(line, 0);
    if verb == b"past".as_slice() {
        let word = word_at(line, 1);
        if word == b"begin".as_slice() || word == b"end".as_slice() {
            return word_at(line, 2);
        }
        return word;
    }
    if verb == b"held".as_slice() {
        return word_at(line, 3);
    }
    if verb == b"carried".as_slice() {
        return word_at(line, 4);
    }
    if verb == b"kept".as_slice() {
        return operation_behind(line);
    }
    &[]
}
