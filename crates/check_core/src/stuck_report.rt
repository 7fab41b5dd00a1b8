//! What `pathserve check --stuck` prints.

ghost use Rattle.std.specs.Prelude.{◌≡◌, ◌++◌, ◌||◌, ℕ, List, Bool, false, IfOk, OnOk, IsErrOf, length, take};
ghost use Rattle.std.specs.Io.KnownBytes.{Appends, Keeps};
ghost use Rattle.std.specs.Map.{values_of};
ghost use Rattle.decl_core.specs.ObjectMap.{object_of, objects_of};
ghost use Rattle.decl_core.specs.Refusals.{IsWhy};
ghost use Rattle.check_core.specs.Report.{IsWantOfMemory, count_line, fault_line};
ghost use Rattle.check_core.specs.declared.report.CheckEnd.{CheckEnd};
ghost use Rattle.check_core.specs.declared.report.CheckEnd.TheVariants.{Counted, Faulty};
ghost use Rattle.check_core.specs.declared.report.CheckFault.TheVariants.{WriteFault, Memory};
ghost use Rattle.stuck_core.specs.Found.{IsTold};
ghost use Rattle.stuck_core.specs.declared.found.Findings.{Findings};
ghost use Rattle.check_core.specs.Lines.{some_lost, told_lines};
ghost use Rattle.check_core.specs.StuckReport.{AreSaid, IsSaid, IsStuckCheck};

use crate::lines::{is_losing, push_found};
use crate::report::{CheckEnd, CheckFault, push_accepted, push_source_fault, push_unseparated};
use decl_core::analyse::{Accepted, ObjectRefusal, Refused, analyse};
use decl_core::object::Object;
use decl_read::fault::DeclFault;
use decl_read::read::read_objects;
use indexmap::IndexMap;
use path_tree::lex::fault::LexFault;
use path_tree::name::Name;
use path_tree::node::OpId;
use path_tree::path_fault::PathFault;
use std::alloc::{AllocError, Global};
use std::io::Write;
use stuck_core::search::{MOST_STATES, find};
use value_core::reply::push_number;
use value_core::write_whole;

/// How a check ended that was also asked what can get stuck.
#[derive(Clone, Copy, Debug, PartialEq, Eq)]
pub struct StuckEnd {
    /// As a check ends that is not asked.
    pub end: CheckEnd,
    /// Whether an accepted object can lose an operation.
    pub lost: bool,
}

// What is said of an object: how many of it are refused, and whether an operation is lost.
#[derive(Clone, Copy)]
struct StuckTally {
    refused: usize,
    lost: bool,
}

// How many operations an object has.
fn count_of(object: &Object) -> OpId
    ensures { result ≡ length (object_of object.now).operations }
{
    object.operations.len() as OpId
}

// Adds what can be lost, waited for and stuck, and tells whether an operation is lost.
fn push_told(alloc: Global, out: &mut Vec<u8>, object: &Object) -> Result<bool, AllocError>
    ensures { IfOk result (λ lost. (found : Findings)
        × IsTold (object_of object.now).paths (length (object_of object.now).operations) found
        × (out.new.items ≡ out.old.items ++ told_lines (object_of object.now) found)
        × (lost ≡ some_lost found.each.items)) }
{
    let count = count_of(object);
    let found = find(alloc, &object.paths, count, MOST_STATES)?;
    push_found(alloc, out, object, count, &found)?;
    Ok(is_losing(&found.each))
}

// Adds the lines of an accepted object.
fn push_kept(
    alloc: Global,
    out: &mut Vec<u8>,
    accepted: &Accepted,
) -> Result<StuckTally, AllocError>
    ensures { IfOk result (λ said. (text : List ℕ) × (out.new.items ≡ out.old.items ++ text)
        × IsSaid (object_of accepted.now) said.refused said.lost text) }
{
    push_accepted(out, accepted)?;
    let lost = push_told(alloc, out, accepted.object())?;
    Ok(StuckTally { refused: 0, lost })
}

// Adds the line of an object that is refused.
fn push_refused(out: &mut Vec<u8>, refused: &Refused) -> Result<StuckTally, AllocError>
    requires { IsWhy (object_of refused.now.object) refused.now.why }
    ensures { IfOk result (λ said. (text : List ℕ) × (out.new.items ≡ out.old.items ++ text)
        × IsSaid (object_of refused.now.object) said.refused said.lost text) }
{
    match refused.why {
        ObjectRefusal::Memory => Err(AllocError),
        ObjectRefusal::Unseparated(first, second, part) => {
            push_unseparated(out, &refused.object, first, second, part)?;
            Ok(StuckTally {
                refused: 1,
                lost: false,
            })
        }
    }
}

// Adds the lines of an object.
fn push_object(alloc: Global, out: &mut Vec<u8>, object: Object) -> Result<StuckTally, AllocError>
    ensures { IfOk result (λ said. (text : List ℕ) × (out.new.items ≡ out.old.items ++ text)
        × IsSaid (object_of object) said.refused said.lost text) }
{
    match analyse(alloc, object) {
        Ok(accepted) => {
            let said = push_kept(alloc, out, &accepted)?;
            Ok(said)
        }
        Err(refused) => {
            let said = push_refused(out, &refused)?;
            Ok(said)
        }
    }
}

// What a check writes, and how it ends.
#[derive(Drop)]
struct StuckText {
    end: CheckEnd,
    lost: bool,
    text: Vec<u8>,
}

// The lines of objects, how many are refused, and whether one loses an operation.
#[derive(Drop)]
struct StuckLines {
    text: Vec<u8>,
    refused: usize,
    lost: bool,
}

// Whether one of two is so.
fn either(one: bool, other: bool) -> bool
    ensures { result ≡ (one || other) }
{
    one || other
}

// The lines of all objects.
fn report_objects(alloc: Global, all: IndexMap<Name, Object>) -> Result<StuckLines, AllocError>
    ensures { IfOk result (λ r. AreSaid (objects_of (values_of all.entries)) r.refused r.lost r.text.items) }
{
    let mut text = Vec::new(alloc);
    let mut refused = 0;
    let mut lost = false;
    for object in all.into_values() {
        let said = push_object(alloc, &mut text, object)?;
        refused += said.refused;
        lost = either(lost, said.lost);
    }
    Ok(StuckLines {
        text,
        refused,
        lost,
    })
}

// The report of the objects of a file.
fn report_file(alloc: Global, all: IndexMap<Name, Object>) -> Result<StuckText, AllocError>
    ensures { IfOk result (λ r. (refused : ℕ) × (text : List ℕ)
        × AreSaid (objects_of (values_of all.entries)) refused r.lost text
        × (r.end ≡ Counted (length (values_of all.entries)) refused)
        × (r.text.items ≡ text ++ count_line (length (values_of all.entries)) refused)) }
{
    let objects = all.len();
    let StuckLines {
        mut text,
        refused,
        lost,
    } = report_objects(alloc, all)?;
    push_number(&mut text, b"", objects as u64)?;
    push_number(&mut text, b" objects, ", refused as u64)?;
    text.extend_from_slice(b" refused\n")?;
    Ok(StuckText {
        end: CheckEnd::Counted { objects, refused },
        lost,
        text,
    })
}

// The fault of a source, apart from a want of memory.
fn told_fault(fault: DeclFault) -> Result<DeclFault, AllocError>
    ensures { IfOk result (λ told. (told ≡ fault) × (IsWantOfMemory fault → ⊥)) }
{
    match fault {
        DeclFault::Memory | DeclFault::Lex(LexFault::Memory) | DeclFault::Path(PathFault::Memory) =>
            Err(AllocError),
        _ => Ok(fault),
    }
}

// The report of a source that is no file of objects.
fn report_fault(alloc: Global, fault: DeclFault) -> Result<StuckText, AllocError>
    ensures { IfOk result (λ r. (IsWantOfMemory fault → ⊥) × (r.end ≡ Faulty) × (r.lost ≡ false)
        × (r.text.items ≡ fault_line fault)) }
{
    let fault = told_fault(fault)?;
    let mut text = Vec::new(alloc);
    push_source_fault(&mut text, fault)?;
    Ok(StuckText {
        end: CheckEnd::Faulty,
        lost: false,
        text,
    })
}

// The report of a source.
fn report(alloc: Global, source: &[u8]) -> Result<StuckText, AllocError>
    ensures { IfOk result (λ r. IsStuckCheck source.now r.end r.lost r.text.items) }
{
    match read_objects(alloc, source) {
        Ok(all) => {
            let report = report_file(alloc, all)?;
            Ok(report)
        }
        Err(fault) => {
            let report = report_fault(alloc, fault)?;
            Ok(report)
        }
    }
}

/// Checks each object of a source, and writes the report of `check_report`, in which behind the lines of each accepted
/// object stands what can be lost, waited for and stuck. The whole report is written at once.
///
/// The faults, in this order: `Memory` where a growth was refused, and nothing was written; `WriteFault`
/// where a write failed, and a front of the report was written.
pub fn stuck_report<W: Write>(
    alloc: Global,
    source: &[u8],
    writer: &mut W,
) -> Result<StuckEnd, CheckFault>
    ensures ended { IfOk result (λ ended. (text : List ℕ) × IsStuckCheck source.now ended.end ended.lost text
        × Appends (W.contents writer.old) (W.contents writer.new) text) }
    ensures cut { IsErrOf result WriteFault → (end : CheckEnd) × (lost : Bool) × (text : List ℕ) × (count : ℕ)
        × IsStuckCheck source.now end lost text
        × Appends (W.contents writer.old) (W.contents writer.new) (take count text) }
    ensures memory { IsErrOf result Memory → Keeps (W.contents writer.old) (W.contents writer.new) }
{
    match report(alloc, source) {
        Err(_) => Err(CheckFault::Memory),
        Ok(report) => match write_whole(writer, &report.text) {
            Ok(()) => Ok(StuckEnd {
                end: report.end,
                lost: report.lost,
            }),
            Err(_) => Err(CheckFault::WriteFault),
        },
    }
}
