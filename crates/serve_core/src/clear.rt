//! Value files that go: those of an earlier run at the start, and those of this run at the end.

ghost use Rattle.std.specs.Prelude.{◌≡◌, ◌+◌, ◌*◌, ◌<◌, ◌≤◌, ◌++◌, [], ℕ, List, Option, Ok, true, IfOk, OnErr};
ghost use Rattle.std.specs.Prelude.{length, codes, decimal, vec_capacity};
ghost use Rattle.serve_core.specs.Numbers.{value_name, AreBetween};
ghost use Rattle.serve_core.specs.Deeds.{RemovesAll, PutsAll, MovesLeft};
ghost use Rattle.serve_core.specs.Told.{values_text, moved_front, Tells, AreTold};

use crate::values::Values;
use itoa::Buffer;
use std::alloc::{AllocError, Global};
use std::io;
use std::io::Write;
use value_core::write_whole;

// The most bytes that a line has of one value file: a space, 20 digits and the ending.
const NAME_BYTES: usize = 25;

// The most bytes that a line has beside that.
const FRONT_BYTES: usize = 64;

// Adds bytes to a line, which has room for them.
fn add(line: &mut Vec<u8>, bytes: &[u8])
    requires { length line.old.items + length bytes.now ≤ vec_capacity line.old }
    ensures items { line.new.items ≡ line.old.items ++ bytes.now }
    ensures room { vec_capacity line.old ≤ vec_capacity line.new }
{
    let _ = line.extend_from_slice(bytes);
}

// Adds a number to a line, which has room for it.
fn add_digits(line: &mut Vec<u8>, number: u64)
    requires { length line.old.items + 20 ≤ vec_capacity line.old }
    ensures items { line.new.items ≡ line.old.items ++ decimal number }
    ensures most { length line.new.items ≤ length line.old.items + 20 }
    ensures room { vec_capacity line.old ≤ vec_capacity line.new }
{
    let mut buffer = Buffer::new();
    add(line, buffer.format(number).as_bytes());
}

// Adds a value file to a line, which has room for it.
fn add_value(line: &mut Vec<u8>, number: u64)
    requires { length line.old.items + 25 ≤ vec_capacity line.old }
    ensures items { line.new.items ≡ line.old.items ++ (codes " " ++ value_name number) }
    ensures most { length line.new.items ≤ length line.old.items + 25 }
    ensures room { vec_capacity line.old ≤ vec_capacity line.new }
{
    add(line, b" ");
    add_digits(line, number);
    add(line, b".val");
}

// Adds value files to a line, which has room for them.
fn add_values(line: &mut Vec<u8>, numbers: &[u64])
    requires { length line.old.items + 25 * length numbers.now ≤ vec_capacity line.old }
    ensures items { line.new.items ≡ line.old.items ++ values_text numbers.now }
    ensures most { length line.new.items ≤ length line.old.items + 25 * length numbers.now }
    ensures room { vec_capacity line.old ≤ vec_capacity line.new }
{
    for number in numbers {
        add_value(line, *number);
    }
}

// Writes a line of value files after its front, which is there, where there are any. It answers whether all was
// written.
fn tell_values<E: Write>(line: &mut Vec<u8>, numbers: &[u64], error: &mut E) -> bool
    requires { length line.old.items + 25 * length numbers.now < vec_capacity line.old }
    ensures told { Tells line.old.items numbers.now result (E.contents error.old) (E.contents error.new) }
    ensures room { vec_capacity line.old ≤ vec_capacity line.new }
{
    if numbers.is_empty() {
        return true;
    }
    add_values(line, numbers);
    add(line, b"\n");
    write_whole(error, line).is_ok()
}

// `moved to left/K: N.val ..`, where any were.
fn tell_moved<E: Write>(line: &mut Vec<u8>, left: u64, there: &[u64], error: &mut E) -> bool
    requires { 64 + 25 * length there.now ≤ vec_capacity line.old }
    ensures told { Tells (moved_front left) there.now result (E.contents error.old) (E.contents error.new) }
    ensures room { vec_capacity line.old ≤ vec_capacity line.new }
{
    line.clear();
    add(line, b"moved to left/");
    add_digits(line, left);
    add(line, b":");
    tell_values(line, there, error)
}

// `not moved: N.val ..`, where any are.
fn tell_stays<E: Write>(line: &mut Vec<u8>, stays: &[u64], error: &mut E) -> bool
    requires { 64 + 25 * length stays.now ≤ vec_capacity line.old }
    ensures { Tells (codes "not moved:") stays.now result (E.contents error.old) (E.contents error.new) }
{
    line.clear();
    add(line, b"not moved:");
    tell_values(line, stays, error)
}

// Value files that were moved, and those that stay.
#[derive(Drop)]
struct Moved {
    there: Vec<u64>,
    stays: Vec<u64>,
}

// Puts these value files into that folder, each once.
fn put_all<V: Values>(values: &mut V, numbers: &[u64], left: u64, moved: &mut Moved)
    requires none { (moved.old.there.items ≡ []) × (moved.old.stays.items ≡ []) }
    requires there { length numbers.now ≤ vec_capacity moved.old.there }
    requires stays { length numbers.now ≤ vec_capacity moved.old.stays }
    ensures puts { PutsAll V.does left values.old numbers.now moved.new.there.items moved.new.stays.items values.new }
    ensures few { (length moved.new.there.items ≤ length numbers.now)
        × (length moved.new.stays.items ≤ length numbers.now) }
{
    for number in numbers {
        if values.put_left(*number, left) {
            moved.there.push_reserved(*number);
        } else {
            moved.stays.push_reserved(*number);
        }
    }
}

// Moves these value files into a folder of their own, and tells which.
fn move_told<V: Values, E: Write>(
    values: &mut V,
    numbers: &[u64],
    line: &mut Vec<u8>,
    moved: &mut Moved,
    error: &mut E,
) -> bool
    requires line { 64 + 25 * length numbers.now ≤ vec_capacity line.old }
    requires none { (moved.old.there.items ≡ []) × (moved.old.stays.items ≡ []) }
    requires there { length numbers.now ≤ vec_capacity moved.old.there }
    requires stays { length numbers.now ≤ vec_capacity moved.old.stays }
    ensures { (left : Option ℕ) × (there : List ℕ) × (stays : List ℕ)
        × MovesLeft V.does values.old numbers.now left there stays values.new
        × AreTold left there stays result (E.contents error.old) (E.contents error.new) }
{
    match values.open_left() {
        Some(left) => {
            put_all(values, numbers, left, moved);
            let first = tell_moved(line, left, &moved.there, error);
            let second = tell_stays(line, &moved.stays, error);
            first && second
        }
        None => tell_stays(line, numbers, error),
    }
}

/// Moves the value files of these numbers, which a run left that did not save all, into a folder of their own, so that
/// none is written over, and tells `error` where they are: `moved to left/K: N.val ..`, or `not moved: N.val ..` of
/// those that stay where they were. It answers whether these lines were written whole.
///
/// The error is that memory was refused for these lines; nothing was moved then, and nothing written.
pub fn move_left<V: Values, E: Write>(
    values: &mut V,
    alloc: Global,
    numbers: &[u64],
    error: &mut E,
) -> Result<bool, AllocError>
    // Where there are none, nothing is asked.
    ensures none { numbers.now ≡ [] → (result ≡ Ok true) × (values.new ≡ values.old)
        × (E.contents error.new ≡ E.contents error.old) }
    // Exactly these are moved, each once, in order, and the lines say which.
    ensures moved { 0 < length numbers.now → IfOk result (λ told.
        (left : Option ℕ) × (there : List ℕ) × (stays : List ℕ)
        × MovesLeft V.does values.old numbers.now left there stays values.new
        × AreTold left there stays told (E.contents error.old) (E.contents error.new)) }
    ensures err { OnErr result ((values.new ≡ values.old) × (E.contents error.new ≡ E.contents error.old)) }
{
    if numbers.is_empty() {
        return Ok(true);
    }
    let Some(bytes) = numbers.len().checked_mul(NAME_BYTES) else {
        return Err(AllocError);
    };
    let Some(room) = bytes.checked_add(FRONT_BYTES) else {
        return Err(AllocError);
    };
    let mut line = Vec::with_capacity(alloc, room)?;
    let mut moved = Moved {
        there: Vec::with_capacity(alloc, numbers.len())?,
        stays: Vec::with_capacity(alloc, numbers.len())?,
    };
    Ok(move_told(values, numbers, &mut line, &mut moved, error))
}

/// Removes the value files of these numbers, each once. One that can't be removed is left.
pub fn remove_all<V: Values>(values: &mut V, numbers: &[u64])
    ensures { RemovesAll V.does values.old numbers.now values.new }
{
    for number in numbers {
        values.remove(*number);
    }
}

/// Removes the value files of a folder whose numbers are from the first one up to the last one, which is left. One that
/// can't be removed is left too.
///
/// The error is that of reading the folder, or of kind `OutOfMemory`; nothing was removed then.
pub fn remove_between<V: Values>(
    values: &mut V,
    alloc: Global,
    first: u64,
    end: u64,
) -> io::Result<()>
    // Only files of these numbers are removed.
    ensures removed { (numbers : List ℕ) × AreBetween first end numbers
        × RemovesAll V.does values.old numbers values.new }
    ensures err { OnErr result (values.new ≡ values.old) }
{
    let numbers = values.numbers(alloc, first, end)?;
    remove_all(values, &numbers);
    Ok(())
}
