//! How a server of kept objects ends.

ghost use Rattle.std.specs.Prelude.{◌≡◌, [], IfOk, IfSome};
ghost use Rattle.keep_loop.specs.Seen.{Always};
ghost use Rattle.keep_loop.specs.Epochs.{rules_of};
ghost use Rattle.keep_loop.specs.Stands.{IsHonest};
ghost use Rattle.table_core.specs.Moves.{Gives, Fronts};
ghost use Rattle.table_core.specs.Seen.{seen};
ghost use Rattle.pathserve.specs.Ends.{keep_status};
ghost use Rattle.pathserve.specs.Kept.{AreRenewed, IsKept, IsKeptAs, WasHonest};

use answer_core::answer::{ACCEPTED, REFUSED};
use answer_core::failure::ToolFailure;
use device_core::shelf::Shelf;
use keep_loop::{Fault, LoopLimits, Outside, run};
use keep_tool::ending::end_objects;
use std::alloc::Global;
use std::io::Write;
use table_core::table::Table;

/// That a server of kept objects has ended well. `serve_table` alone makes one.
#[derive(Drop)]
pub struct Ended {
    // Nobody else can.
    made: (),
}

/// How keeping objects ended.
pub enum KeepEnd {
    /// Each was served until the server was to end, and ended well.
    Whole(Ended),
    /// A line says why the source is refused, or why an object is not begun with.
    Refused,
}

/// The exit status: 0 where each object ended well, else 1.
pub fn status_of_keep(end: KeepEnd) -> u8
    ensures { result ≡ keep_status end }
{
    match end {
        KeepEnd::Whole(Ended { made: () }) => ACCEPTED,
        KeepEnd::Refused => REFUSED,
    }
}

// What a fault of the loop ends with.
fn failure_of(fault: Fault) -> ToolFailure {
    match fault {
        Fault::Memory => ToolFailure::Memory,
        Fault::Journal(_) => ToolFailure::WriteFault,
    }
}

// Begins the journal at a place anew with this front.
#[tactic(auto, using(crate::proofs::Kept::grown, crate::proofs::Kept::grown_if))]
fn renew_by<O: Outside>(
    table: &Table,
    at: usize,
    front: &[u8],
    outside: &mut O,
) -> Result<(), Fault>
    requires { Fronts table.now at front.now }
    ensures { AreRenewed (Fronts table.now) (O.seen outside.old) (O.seen outside.new) }
{
    let _went = outside.change(at, front)?;
    Ok(())
}

// Begins the journal of the object at a place anew with the front of its next epoch, where one can begin.
#[tactic(auto, using(crate::proofs::Kept::not_renewed))]
fn renew_one<O: Outside>(
    table: &Table,
    at: usize,
    front: &mut Vec<u8>,
    outside: &mut O,
) -> Result<(), Fault>
    ensures { AreRenewed (Fronts table.now) (O.seen outside.old) (O.seen outside.new) }
{
    if !table.write_front(at, front) {
        return Ok(());
    }
    renew_by(table, at, front.as_slice(), outside)
}

// Begins the journals of all objects anew, each with the front of its next epoch, where one can begin.
#[tactic(auto, using(crate::proofs::Kept::not_renewed, crate::proofs::Kept::renewed_on))]
fn renew<O: Outside>(alloc: Global, table: &Table, outside: &mut O) -> Result<(), Fault>
    ensures { AreRenewed (Fronts table.now) (O.seen outside.old) (O.seen outside.new) }
{
    let mut front = Vec::new(alloc);
    for at in 0..table.objects().len() {
        renew_one(table, at, &mut front, outside)?;
    }
    Ok(())
}

/// Serves a table until the server is to end, and ends its objects: their parts are saved, and `NAME entries K` is said of
/// each. The table is handed back.
///
/// A failure is `Memory`, or `WriteFault` where a journal, a part or a line could not be written. What is wrong with one part
/// keeps no other one from being saved.
pub fn serve_table<O: Outside, S: Shelf, W: Write, E: Write>(
    alloc: Global,
    table: Table,
    limits: LoopLimits,
    outside: &mut O,
    shelf: &mut S,
    writer: &mut W,
    error: &mut E,
) -> Result<(Ended, Table), ToolFailure>
    requires { IfSome (O.seen outside.old) (λ seen. seen ≡ []) }
    ensures honest { IfSome (O.seen outside.new) (λ seen. Always (IsHonest (rules_of Gives Fronts) table limits) seen) }
    ensures kept { IfOk result (λ it. IsKeptAs Gives (λ last. (seen last).objects) table it.1 limits (O.seen outside.new)
        (λ papers. S.holds shelf.old papers) (λ papers. S.holds shelf.new papers)) }
{
    match run(alloc, table, limits, outside, u64::MAX) {
        Ok(table) => {
            end_objects(alloc, table.objects(), shelf, writer, error)?;
            Ok((Ended { made: () }, table))
        }
        Err(Fault::Memory) => Err(ToolFailure::Memory),
        Err(Fault::Journal(_)) => Err(ToolFailure::WriteFault),
    }
}

/// The same; behind that the journal of each object begins its next epoch, where one can begin, so that it is a front alone. A
/// failure is that of before, or `WriteFault` where a journal failed then, or `Memory`.
#[tactic(auto, using(crate::proofs::Kept::kept_to_end, crate::proofs::Kept::honest_to_end, crate::proofs::Kept::honest_at_once))]
pub fn serve_to_end<O: Outside, S: Shelf, W: Write, E: Write>(
    alloc: Global,
    table: Table,
    limits: LoopLimits,
    outside: &mut O,
    shelf: &mut S,
    writer: &mut W,
    error: &mut E,
) -> Result<Ended, ToolFailure>
    requires { IfSome (O.seen outside.old) (λ seen. seen ≡ []) }
    ensures honest { WasHonest (rules_of Gives Fronts) table limits (O.seen outside.new) }
    ensures kept { IfOk result (λ _. IsKept (rules_of Gives Fronts) (λ last. (seen last).objects) table limits (O.seen outside.new)
        (λ papers. S.holds shelf.old papers) (λ papers. S.holds shelf.new papers)) }
{
    let (ended, table) = serve_table(alloc, table, limits, outside, shelf, writer, error)?;
    match renew(alloc, &table, outside) {
        Ok(()) => Ok(ended),
        Err(fault) => Err(failure_of(fault)),
    }
}
