//! The lines of an object.

ghost use Rattle.std.specs.Prelude.{◌≡◌, ◌++◌, ◌∷◌, ◌+◌, ◌*◌, ◌^◌, ◌<◌, ◌≤◌, [], List, OnOk, codes, decimal, drop, length};
ghost use Rattle.decl_core.specs.ObjectMap.{object_of};
ghost use Rattle.stuck_core.specs.Places.{place_of, places_of};
ghost use Rattle.stuck_core.specs.Waits.{waits};
ghost use Rattle.check_core.specs.Lines.{calls_text, ending_line, lost_words, name_at, names_text, runs, some_lost};
ghost use Rattle.check_core.specs.Lines.{start_line, start_lines, start_words, stuck_words, wait_line, wait_lines};
ghost use Rattle.check_core.specs.Lines.{wait_lines_in, wait_lines_of};

use decl_core::object::Object;
use path_tree::node::OpId;
use path_tree::tree::PathTree;
use std::alloc::{AllocError, Global};
use stuck_core::found::{Finding, Findings, StuckVerdict, Why};
use stuck_core::wait::{HoldingNode, waits_of};
use value_core::reply::push_number;

// The name of an operation of an object.
fn name_of(object: &Object, op: usize) -> &[u8]
    ensures { result.now ≡ name_at (object_of object.now) op }
{
    match object.operations.get(op) {
        Some(operation) => operation.name.as_bytes(),
        None => b"",
    }
}

// Adds a word and the name of an operation.
fn push_named(out: &mut Vec<u8>, word: &[u8], object: &Object, op: usize) -> Result<(), AllocError>
    ensures { OnOk result (out.new.items ≡ out.old.items ++ (word.now ++ name_at (object_of object.now) op)) }
{
    out.extend_from_slice(word)?;
    out.extend_from_slice(name_of(object, op))?;
    Ok(())
}

// Adds the names of operations, each behind a space.
fn push_names(out: &mut Vec<u8>, object: &Object, ops: &[OpId]) -> Result<(), AllocError>
    ensures { OnOk result (out.new.items ≡ out.old.items ++ names_text (object_of object.now) ops.now) }
{
    let mut rest = ops;
    'ops: while let [op, behind @ ..] = rest {
        push_named(out, b" ", object, usize::from(*op))?;
        rest = behind;
    }
    Ok(())
}

// How many of these are this one, at the front.
#[tactic(auto, using(crate::proofs::Runs::run_begun, crate::proofs::Runs::run_on, crate::proofs::Runs::run_ends, crate::proofs::Runs::run_out))]
fn run_length(first: OpId, behind: &[OpId]) -> usize
    ensures within { result ≤ length behind.now }
    ensures few { result * 2 < 2 ^ 63 }
    ensures run { runs (first ∷ behind.now) ≡ record { count = 1 + result; op = first } ∷ runs (drop result behind.now) }
{
    let mut count = 0;
    for op in behind {
        if *op != first {
            return count;
        }
        count += 1;
    }
    count
}

// Adds ` K OP`.
fn push_run(out: &mut Vec<u8>, object: &Object, count: usize, op: OpId) -> Result<(), AllocError>
    ensures { OnOk result (out.new.items ≡ out.old.items
        ++ (codes " " ++ decimal count ++ codes " " ++ name_at (object_of object.now) op)) }
{
    push_number(out, b" ", count as u64)?;
    push_named(out, b" ", object, usize::from(op))?;
    Ok(())
}

// Adds ` K OP` for each run of equal calls.
#[tactic(auto, using(crate::proofs::Runs::one_run))]
fn push_calls(out: &mut Vec<u8>, object: &Object, calls: &[OpId]) -> Result<(), AllocError>
    ensures { OnOk result (out.new.items ≡ out.old.items ++ calls_text (object_of object.now) calls.now) }
{
    let mut rest = calls;
    'calls: while let [op, behind @ ..] = rest {
        let count = run_length(*op, behind);
        push_run(out, object, 1 + count, *op)?;
        rest = &behind[count..];
    }
    Ok(())
}

// Adds after which calls an operation is lost.
fn push_lost(out: &mut Vec<u8>, object: &Object, calls: &[OpId]) -> Result<(), AllocError>
    ensures { OnOk result (out.new.items ≡ out.old.items ++ lost_words (object_of object.now) calls.now) }
{
    match calls {
        [] => out.extend_from_slice(b" never\n"),
        [_, ..] => {
            out.extend_from_slice(b" lost after")?;
            push_calls(out, object, calls)?;
            out.push(b'\n')?;
            Ok(())
        }
    }
}

// Adds what is said of an operation.
fn push_words(out: &mut Vec<u8>, object: &Object, finding: &Finding) -> Result<(), AllocError>
    ensures { OnOk result (out.new.items ≡ out.old.items ++ start_words (object_of object.now) finding.now) }
{
    match finding {
        Finding::Always => out.extend_from_slice(b" always\n"),
        Finding::Lost(calls) => push_lost(out, object, calls),
        Finding::Unknown(Why::States) => out.extend_from_slice(b" unknown states\n"),
        Finding::Unknown(Why::Overlaps) => out.extend_from_slice(b" unknown overlaps\n"),
    }
}

// Adds the line of an operation.
fn push_start(
    out: &mut Vec<u8>,
    object: &Object,
    op: usize,
    finding: &Finding,
) -> Result<(), AllocError>
    ensures { OnOk result (out.new.items ≡ out.old.items ++ start_line (object_of object.now) op finding.now) }
{
    push_named(out, b"start ", object, op)?;
    push_words(out, object, finding)?;
    Ok(())
}

// Adds the line of each operation.
fn push_starts(out: &mut Vec<u8>, object: &Object, each: &[Finding]) -> Result<(), AllocError>
    ensures { OnOk result (out.new.items ≡ out.old.items ++ start_lines (object_of object.now) 0 each.now) }
{
    let mut op = 0;
    for finding in each {
        push_start(out, object, op, finding)?;
        op += 1;
    }
    Ok(())
}

// Adds the line of a place at which an operation can wait.
fn push_wait(
    out: &mut Vec<u8>,
    object: &Object,
    op: usize,
    path: usize,
    place: &HoldingNode,
) -> Result<(), AllocError>
    ensures { OnOk result (out.new.items ≡ out.old.items
        ++ wait_line (object_of object.now) op path (place_of place.now)) }
{
    push_named(out, b"wait ", object, op)?;
    out.extend_from_slice(b" for")?;
    push_names(out, object, &place.needs)?;
    push_number(out, b" path ", path as u64)?;
    push_number(out, b" node ", place.node as u64)?;
    out.push(b'\n')?;
    Ok(())
}

// Adds the lines of some places.
fn push_places(
    out: &mut Vec<u8>,
    object: &Object,
    op: usize,
    path: usize,
    places: &[HoldingNode],
) -> Result<(), AllocError>
    ensures { OnOk result (out.new.items ≡ out.old.items
        ++ wait_lines_of (object_of object.now) op path (places_of places.now)) }
{
    let mut rest = places;
    'places: while let [place, behind @ ..] = rest {
        push_wait(out, object, op, path, place)?;
        rest = behind;
    }
    Ok(())
}

// Adds the lines of the places in a path.
fn push_path(
    alloc: Global,
    out: &mut Vec<u8>,
    object: &Object,
    op: OpId,
    path: usize,
    tree: &PathTree,
) -> Result<(), AllocError>
    ensures { OnOk result (out.new.items ≡ out.old.items
        ++ wait_lines_of (object_of object.now) op path (waits tree.now op)) }
{
    let places = waits_of(alloc, tree, op)?;
    push_places(out, object, usize::from(op), path, &places)?;
    Ok(())
}

// Adds the lines of the places in these paths.
fn push_paths(
    alloc: Global,
    out: &mut Vec<u8>,
    object: &Object,
    op: OpId,
    paths: &[PathTree],
) -> Result<(), AllocError>
    ensures { OnOk result (out.new.items ≡ out.old.items ++ wait_lines_in (object_of object.now) op 1 paths.now) }
{
    let mut path = 1;
    for tree in paths {
        push_path(alloc, out, object, op, path, tree)?;
        path += 1;
    }
    Ok(())
}

// Adds the lines of the places in all paths.
fn push_waits(alloc: Global, out: &mut Vec<u8>, object: &Object, op: OpId) -> Result<(), AllocError>
    ensures { OnOk result (out.new.items ≡ out.old.items
        ++ wait_lines_in (object_of object.now) op 1 (object_of object.now).paths) }
{
    push_paths(alloc, out, object, op, &object.paths)
}

// Adds the lines of the places of so many operations.
#[tactic(auto, using(crate::proofs::Runs::one_waits, crate::proofs::Runs::no_waits))]
fn push_all_waits(
    alloc: Global,
    out: &mut Vec<u8>,
    object: &Object,
    count: OpId,
) -> Result<(), AllocError>
    ensures { OnOk result (out.new.items ≡ out.old.items ++ wait_lines (object_of object.now) 0 count) }
{
    for op in 0..count {
        push_waits(alloc, out, object, op)?;
    }
    Ok(())
}

// Adds after which calls an object is stuck.
fn push_stuck(out: &mut Vec<u8>, object: &Object, calls: &[OpId]) -> Result<(), AllocError>
    ensures { OnOk result (out.new.items ≡ out.old.items ++ stuck_words (object_of object.now) calls.now) }
{
    match calls {
        [] => out.extend_from_slice(b"stuck at once\n"),
        [_, ..] => {
            out.extend_from_slice(b"stuck after")?;
            push_calls(out, object, calls)?;
            out.push(b'\n')?;
            Ok(())
        }
    }
}

// Adds the line of the object: whether it can get stuck.
fn push_ending(out: &mut Vec<u8>, object: &Object, ending: &StuckVerdict) -> Result<(), AllocError>
    ensures { OnOk result (out.new.items ≡ out.old.items ++ ending_line (object_of object.now) ending.now) }
{
    match ending {
        StuckVerdict::Never => out.extend_from_slice(b"stuck never\n"),
        StuckVerdict::After(calls) => push_stuck(out, object, calls),
        StuckVerdict::Unknown => out.extend_from_slice(b"stuck unknown\n"),
    }
}

/// Whether some operation is lost.
pub(crate) fn is_losing(each: &[Finding]) -> bool
    ensures { result ≡ some_lost each.now }
{
    for finding in each {
        match finding {
            Finding::Lost(_) => return true,
            Finding::Always | Finding::Unknown(_) => {}
        }
    }
    false
}

/// Adds the lines of an object with so many operations of which this is known.
pub(crate) fn push_found(
    alloc: Global,
    out: &mut Vec<u8>,
    object: &Object,
    count: OpId,
    found: &Findings,
) -> Result<(), AllocError>
    ensures { OnOk result (out.new.items ≡ out.old.items
        ++ (start_lines (object_of object.now) 0 found.now.each.items ++ wait_lines (object_of object.now) 0 count
        ++ ending_line (object_of object.now) found.now.ending)) }
{
    push_starts(out, object, &found.each)?;
    push_all_waits(alloc, out, object, count)?;
    push_ending(out, object, &found.ending)?;
    Ok(())
}
