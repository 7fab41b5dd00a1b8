//! `pathserve audit` over any reader and writer: what it writes, and the exit status that it ends with.

ghost use Rattle.std.specs.Prelude.{◌≡◌, ◌≤◌, ◌++◌, ℕ, List, OnOk, IfOk, IfErr, IfSome, IsErrOf, codes, decimal, take};
ghost use Rattle.std.specs.Io.KnownBytes.{Appends, Keeps};
ghost use Rattle.audit_core.specs.declared.verdict.AuditVerdict.TheVariants as verdicts;
ghost use Rattle.check_core.specs.Named.{NamesObject};
ghost use Rattle.command_tool.specs.AuditRun.{audit_status, line_number, verdict_line, IsAuditRun};
ghost use Rattle.answer_core.specs.Status.{IsFault};
ghost use Rattle.answer_core.specs.declared.failure.ToolFailure.TheVariants.{ReadFault, WriteFault, Memory};

use answer_core::answer::{ACCEPTED, REFUSED};
use answer_core::failure::ToolFailure;
use answer_core::source::read_whole;
use audit_core::audit::audit;
use audit_core::verdict::AuditVerdict;
use check_core::head::named_object;
use check_core::open::{OpenedScript, open_script};
use std::alloc::{AllocError, Global};
use std::io::{Read, Write};
use value_core::reply::{push_count, push_number};
use value_core::write_whole;

// What an audit ends with: the exit status, and the line that is written.
#[derive(Drop)]
struct AuditReport {
    status: u8,
    line: Vec<u8>,
}

// Adds what is said of the line of this number.
fn push_fault_line(out: &mut Vec<u8>, line: u64, fault: &[u8]) -> Result<(), AllocError>
    ensures { OnOk result (out.new.items ≡ out.old.items ++ (line_number line ++ fault.now)) }
{
    push_number(out, b"line ", line)?;
    out.extend_from_slice(fault)?;
    Ok(())
}

// Adds the line of a start that a path refuses.
fn push_breach(out: &mut Vec<u8>, line: u64, path: usize) -> Result<(), AllocError>
    ensures { OnOk result (out.new.items ≡ out.old.items ++ verdict_line (verdicts.BreaksPath line path)) }
{
    push_number(out, b"line ", line)?;
    push_count(out, b" breaks path ", path as u64)?;
    Ok(())
}

// Adds the line of a verdict. A want of memory has none.
fn push_verdict(out: &mut Vec<u8>, verdict: AuditVerdict) -> Result<(), AllocError>
    ensures { OnOk result ((verdict ≡ verdicts.Memory → ⊥) × (out.new.items ≡ out.old.items ++ verdict_line verdict)) }
{
    match verdict {
        AuditVerdict::Legal { entries } => push_count(out, b"legal ", entries),
        AuditVerdict::BadLine(line) => push_fault_line(out, line, b" bad\n"),
        AuditVerdict::BreaksPath(line, path) => push_breach(out, line, path),
        AuditVerdict::WrongReply(line) => push_fault_line(out, line, b" wrong reply\n"),
        AuditVerdict::NotRunning(line) => push_fault_line(out, line, b" not running\n"),
        AuditVerdict::Memory => Err(AllocError),
    }
}

fn status_of_verdict(verdict: AuditVerdict) -> u8
    ensures { result ≡ audit_status verdict }
{
    match verdict {
        AuditVerdict::Legal { .. } => ACCEPTED,
        _ => REFUSED,
    }
}

// What is said of a trace with this verdict.
fn verdict_said(alloc: Global, verdict: AuditVerdict) -> Result<AuditReport, AllocError>
    ensures known { IfOk result (λ said. verdict ≡ verdicts.Memory → ⊥) }
    ensures status { IfOk result (λ said. said.status ≡ audit_status verdict) }
    ensures line { IfOk result (λ said. said.line.items ≡ verdict_line verdict) }
{
    let mut line = Vec::new(alloc);
    push_verdict(&mut line, verdict)?;
    Ok(AuditReport {
        status: status_of_verdict(verdict),
        line,
    })
}

// What is said where there is nothing to audit a trace by.
fn lacking_said(line: Vec<u8>) -> AuditReport
    ensures status { result.status ≡ 1 }
    ensures line { result.line.items ≡ line.items }
{
    AuditReport {
        status: REFUSED,
        line,
    }
}

// What is said of a trace that names no object.
fn unnamed_said(alloc: Global) -> Result<AuditReport, AllocError>
    ensures status { IfOk result (λ said. said.status ≡ 1) }
    ensures line { IfOk result (λ said. said.line.items ≡ codes "line 1 bad\n") }
{
    let mut line = Vec::new(alloc);
    line.extend_from_slice(b"line 1 bad\n")?;
    Ok(lacking_said(line))
}

// What is said of a trace whose first line names an object.
fn named_said(alloc: Global, source: &[u8], text: &[u8]) -> Result<AuditReport, AllocError>
    ensures { (name : List ℕ) → NamesObject text.now name →
        IfOk result (λ said. IsAuditRun source.now text.now said.status said.line.items) }
{
    match open_script(alloc, source, text)? {
        OpenedScript::Told(line) => Ok(lacking_said(line)),
        OpenedScript::Ready(accepted) => {
            let verdict = audit(alloc, &accepted, text);
            let said = verdict_said(alloc, verdict)?;
            Ok(said)
        }
    }
}

// What is said of the text of a trace.
fn audit_said(alloc: Global, source: &[u8], text: &[u8]) -> Result<AuditReport, AllocError>
    ensures { IfOk result (λ said. IsAuditRun source.now text.now said.status said.line.items) }
{
    match named_object(alloc, text)? {
        None => {
            let said = unnamed_said(alloc)?;
            Ok(said)
        }
        Some(_name) => {
            let said = named_said(alloc, source, text)?;
            Ok(said)
        }
    }
}

/// `pathserve audit`: tells whether a trace is legal for the object of a source that its first line names, or its first
/// fault, and gives the exit status: 0 where it is legal, 1 where it is not, and where there is no such object.
///
/// A failure is `ReadFault`, `WriteFault` or `Memory`. A `WriteFault` leaves a front of the line, the
/// others leave nothing.
pub fn audit_trace<R: Read + Drop, W: Write>(
    alloc: Global,
    source: &[u8],
    reader: R,
    writer: &mut W,
) -> Result<u8, ToolFailure>
    ensures ended { IfOk result (λ status. IfSome (R.remaining reader) (λ text. (written : List ℕ)
        × Appends (W.contents writer.old) (W.contents writer.new) written
        × IsAuditRun source.now text status written)) }
    ensures status { IfOk result (λ status. status ≤ 1) }
    ensures fault { IfErr result IsFault }
    ensures cut { IsErrOf result WriteFault →
        IfSome (R.remaining reader) (λ text. (status : ℕ) × (whole : List ℕ) × (count : ℕ)
        × IsAuditRun source.now text status whole
        × Appends (W.contents writer.old) (W.contents writer.new) (take count whole)) }
    ensures unread { IsErrOf result ReadFault → Keeps (W.contents writer.old) (W.contents writer.new) }
    ensures memory { IsErrOf result Memory → Keeps (W.contents writer.old) (W.contents writer.new) }
{
    let text = match read_whole(alloc, reader) {
        Ok(text) => text,
        Err(error) => return Err(ToolFailure::from(error)),
    };
    let said = match audit_said(alloc, source, &text) {
        Ok(said) => said,
        Err(_) => return Err(ToolFailure::Memory),
    };
    match write_whole(writer, &said.line) {
        Ok(()) => Ok(said.status),
        Err(_) => Err(ToolFailure::WriteFault),
    }
}
