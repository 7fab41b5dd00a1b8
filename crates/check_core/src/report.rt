//! What `pathserve check` prints.

ghost use Rattle.std.specs.Prelude.{◌≡◌, ◌++◌, ⊤, ℕ, List, IfOk, OnOk, IsErrOf, MatchResult, length, take};
ghost use Rattle.std.specs.Io.KnownBytes.{Appends, Keeps};
ghost use Rattle.std.specs.Map.{values_of};
ghost use Rattle.decl_core.specs.ObjectForm.{ObjectForm};
ghost use Rattle.decl_read.specs.Sources.{AreObjectsOf};
ghost use Rattle.decl_core.specs.ObjectMap.{object_of, objects_of};
ghost use Rattle.decl_core.specs.Certificate.{IsFirstCertificate};
ghost use Rattle.decl_core.specs.Exclusive.{IsExclusive};
ghost use Rattle.decl_core.specs.Refusals.{IsWhy};
ghost use Rattle.check_core.specs.Report.{AreReported, IsCheck, IsReported, IsWantOfMemory, accepted_lines, count_line};
ghost use Rattle.check_core.specs.Report.{fault_line, refused_line};
ghost use Rattle.decl_core.specs.declared.certificate.SeparatedPair.{SeparatedPair};
ghost use Rattle.check_core.specs.declared.report.CheckEnd.TheVariants.{Counted, Faulty};
ghost use Rattle.check_core.specs.declared.report.CheckFault.TheVariants.{WriteFault, Memory};

use crate::text::{fault_word, part_name, push_entries, push_pair, push_said};
use decl_core::analyse::{Accepted, ObjectRefusal, Refused, analyse};
use decl_core::object::Object;
use decl_read::fault::DeclFault;
use decl_read::read::read_objects;
use indexmap::IndexMap;
use path_tree::lex::fault::LexFault;
use path_tree::name::Name;
use path_tree::path_fault::PathFault;
use std::alloc::{AllocError, Global};
use std::io::Write;
use thiserror::Error;
use value_core::reply::{push_fault, push_number};
use value_core::write_whole;

/// How a check ended.
#[derive(Clone, Copy, Debug, PartialEq, Eq)]
pub enum CheckEnd {
    /// The source is a file of so many objects, so many of which are refused.
    Counted { objects: usize, refused: usize },
    /// The source is no file of objects, and the line that says why was written.
    Faulty,
}

/// Why a check has no end to tell.
#[derive(Clone, Copy, Debug, PartialEq, Eq, Error)]
pub enum CheckFault {
    /// A write failed, or took no byte.
    #[error("WriteFault")]
    WriteFault,
    /// There was no memory for the objects, a certificate or the text.
    #[error("Memory")]
    Memory,
}

/// Adds the lines of an accepted object: `object NAME accepted`, and `pair A B path P node K` for each
/// entry of its certificate.
pub fn push_accepted(out: &mut Vec<u8>, accepted: &Accepted) -> Result<(), AllocError>
    ensures { OnOk result ((entries : List SeparatedPair) × IsFirstCertificate (object_of accepted.now) entries
        × IsExclusive (object_of accepted.now)
        × (out.new.items ≡ out.old.items ++ accepted_lines (object_of accepted.now) entries)) }
{
    let object = accepted.object();
    push_said(out, object, b" accepted\n")?;
    push_entries(out, object, &accepted.certificate().entries)?;
    Ok(())
}

/// Adds the line of an object that is refused: `object NAME refused 1 Unseparated A B PART`.
pub fn push_unseparated(
    out: &mut Vec<u8>,
    object: &Object,
    first: usize,
    second: usize,
    part: usize,
) -> Result<(), AllocError>
    ensures { OnOk result (out.new.items ≡ out.old.items ++ refused_line (object_of object.now) first second part) }
{
    push_said(out, object, b" refused 1 Unseparated ")?;
    push_pair(out, object, first, second)?;
    out.push(b' ')?;
    out.extend_from_slice(part_name(object, part))?;
    out.push(b'\n')?;
    Ok(())
}

/// Adds the line of a fault of a source: `lex`, `path` or `decl`, its number, its name, and `at K` where it
/// has a place. `check_report` tells no want of memory so: that is its fault `Memory`.
pub fn push_source_fault(out: &mut Vec<u8>, fault: DeclFault) -> Result<(), AllocError>
    ensures { OnOk result (out.new.items ≡ out.old.items ++ fault_line fault) }
{
    out.extend_from_slice(fault_word(&fault))?;
    push_fault(out, fault.number(), fault.name(), fault.at())?;
    Ok(())
}

// Adds the line of an object that is refused, and gives 1: so many are refused of it.
fn push_refused(out: &mut Vec<u8>, refused: &Refused) -> Result<usize, AllocError>
    requires { IsWhy (object_of refused.now.object) refused.now.why }
    ensures { IfOk result (λ count. (text : List ℕ) × (out.new.items ≡ out.old.items ++ text)
        × IsReported (object_of refused.now.object) count text) }
{
    match refused.why {
        ObjectRefusal::Memory => Err(AllocError),
        ObjectRefusal::Unseparated(first, second, part) => {
            push_unseparated(out, &refused.object, first, second, part)?;
            Ok(1)
        }
    }
}

// Adds the lines of an object, and gives how many of it are refused.
fn push_object(alloc: Global, out: &mut Vec<u8>, object: Object) -> Result<usize, AllocError>
    ensures { IfOk result (λ refused. (text : List ℕ) × (out.new.items ≡ out.old.items ++ text)
        × IsReported (object_of object) refused text) }
{
    match analyse(alloc, object) {
        Ok(accepted) => {
            push_accepted(out, &accepted)?;
            Ok(0)
        }
        Err(refused) => {
            let count = push_refused(out, &refused)?;
            Ok(count)
        }
    }
}

// What a check writes, and how it ends.
#[derive(Drop)]
struct CheckReport {
    end: CheckEnd,
    text: Vec<u8>,
}

// The lines of objects, and how many are refused.
fn report_objects(
    alloc: Global,
    all: IndexMap<Name, Object>,
) -> Result<(Vec<u8>, usize), AllocError>
    ensures { IfOk result (λ r. AreReported (objects_of (values_of all.entries)) r.1 r.0.items) }
{
    let mut text = Vec::new(alloc);
    let mut refused = 0;
    for object in all.into_values() {
        refused += push_object(alloc, &mut text, object)?;
    }
    Ok((text, refused))
}

// The report of the objects of a file.
fn report_file(alloc: Global, all: IndexMap<Name, Object>) -> Result<CheckReport, AllocError>
    ensures { IfOk result (λ r. (refused : ℕ) × (text : List ℕ)
        × AreReported (objects_of (values_of all.entries)) refused text
        × (r.end ≡ Counted (length (values_of all.entries)) refused)
        × (r.text.items ≡ text ++ count_line (length (values_of all.entries)) refused)) }
{
    let objects = all.len();
    let (mut text, refused) = report_objects(alloc, all)?;
    push_number(&mut text, b"", objects as u64)?;
    push_number(&mut text, b" objects, ", refused as u64)?;
    text.extend_from_slice(b" refused\n")?;
    Ok(CheckReport {
        end: CheckEnd::Counted { objects, refused },
        text,
    })
}

// The fault of a source, apart from a want of memory.
fn told_fault(fault: DeclFault) -> Result<DeclFault, AllocError>
    ensures { IfOk result (λ told. (told ≡ fault) × (IsWantOfMemory fault → ⊥)) }
{
    match fault {
        DeclFault::Memory | DeclFault::Lex(LexFault::Memory) | DeclFault::Path(PathFault::Memory) =>
            Err(AllocError),
        _ => Ok(fault),
    }
}

// The report of a source that is no file of objects.
fn report_fault(alloc: Global, fault: DeclFault) -> Result<CheckReport, AllocError>
    ensures { IfOk result (λ r. (IsWantOfMemory fault → ⊥) × (r.end ≡ Faulty) × (r.text.items ≡ fault_line fault)) }
{
    let fault = told_fault(fault)?;
    let mut text = Vec::new(alloc);
    push_source_fault(&mut text, fault)?;
    Ok(CheckReport {
        end: CheckEnd::Faulty,
        text,
    })
}

// The report of a source.
fn report(alloc: Global, source: &[u8]) -> Result<CheckReport, AllocError>
    ensures is { IfOk result (λ r. IsCheck source.now r.end r.text.items) }
    ensures only { (objects : List ObjectForm) → AreObjectsOf source.now objects →
        IfOk result (λ r. (refused : ℕ) × (r.end ≡ Counted (length objects) refused)) }
{
    match read_objects(alloc, source) {
        Ok(all) => {
            let report = report_file(alloc, all)?;
            Ok(report)
        }
        Err(fault) => {
            let report = report_fault(alloc, fault)?;
            Ok(report)
        }
    }
}

/// Checks each object of a source, and writes the report: per object `object NAME accepted` and one line
/// `pair A B path P node K` for each entry of its certificate, or `object NAME refused 1 Unseparated A B
/// PART`; and last `N objects, M refused`. A source that is no file of objects gets the line of its fault
/// alone, which is never a want of memory. The whole report is written at once.
///
/// The faults, in this order: `Memory` where a growth was refused, and nothing was written; `WriteFault`
/// where a write failed, and a front of the report was written.
pub fn check_report<W: Write>(
    alloc: Global,
    source: &[u8],
    writer: &mut W,
) -> Result<CheckEnd, CheckFault>
    ensures ended { IfOk result (λ end. (text : List ℕ) × IsCheck source.now end text
        × Appends (W.contents writer.old) (W.contents writer.new) text) }
    ensures cut { IsErrOf result WriteFault →
        (end : CheckEnd) × (text : List ℕ) × (count : ℕ) × IsCheck source.now end text
        × Appends (W.contents writer.old) (W.contents writer.new) (take count text) }
    ensures memory { IsErrOf result Memory → Keeps (W.contents writer.old) (W.contents writer.new) }
    // The objects of a file of the grammar are counted.
    ensures only { (objects : List ObjectForm) → AreObjectsOf source.now objects →
        MatchResult result (λ end. (refused : ℕ) × (end ≡ Counted (length objects) refused)) (λ _. ⊤) }
{
    match report(alloc, source) {
        Err(_) => Err(CheckFault::Memory),
        Ok(report) => match write_whole(writer, &report.text) {
            Ok(()) => Ok(report.end),
            Err(_) => Err(CheckFault::WriteFault),
        },
    }
}
