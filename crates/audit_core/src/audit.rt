//! The audit of a trace.

ghost use Rattle.std.specs.Prelude.{◌≡◌, ◌⊎◌, ℕ, IfOk};
ghost use Rattle.decl_core.specs.ObjectMap.{object_of};
ghost use Rattle.audit_core.specs.Verdicts.{IsVerdict, IsLegalTrace, verdict_for};

use crate::state::Audit;
use crate::verdict::{AuditFault, AuditVerdict};
use decl_core::analyse::Accepted;
use decl_core::object::Object;
use std::alloc::{AllocError, Global};
use value_core::next_line;

/// Reads a trace of an object, and tells whether it is legal, or its first fault.
///
/// It is legal exactly where its bytes are a trace of the format, what happened satisfies every path at each line, and
/// the history is legal from the contents that the part lines tell. Else the first faulty line is told, by its number
/// from 1, and of a start that paths refuse the first such path, from 1; where the lines end before that of the last
/// part, the line behind them is bad. `Memory` says nothing of the trace.
pub fn audit(alloc: Global, accepted: &Accepted, trace: &[u8]) -> AuditVerdict
    // What is answered is so, and a legal trace is answered as legal unless memory is refused.
    ensures verdict { IsVerdict (object_of accepted.now) trace.now result }
    ensures exact { (entries : ℕ) → IsLegalTrace (object_of accepted.now) trace.now entries →
        (result ≡ AuditVerdict.Legal entries) ⊎ (result ≡ AuditVerdict.Memory) }
{
    match follow(alloc, accepted.object(), trace) {
        Ok(verdict) => verdict,
        Err(_) => AuditVerdict::Memory,
    }
}

// The verdict, unless memory was refused.
fn follow(alloc: Global, object: &Object, trace: &[u8]) -> Result<AuditVerdict, AllocError>
    ensures { IfOk result (IsVerdict (object_of object.now) trace.now) }
{
    let mut audit = Audit::new(alloc, object)?;
    let mut number: u64 = 0;
    let mut rest = trace;
    'lines: while let Some((line, tail)) = next_line(rest) {
        number += 1;
        if let Some(fault) = audit.hear(object, line)? {
            return Ok(verdict_of(number, fault));
        }
        rest = tail;
    }
    if audit.is_opened(object) {
        return Ok(AuditVerdict::Legal {
            entries: audit.entries(),
        });
    }
    Ok(AuditVerdict::BadLine(number + 1))
}

// What is answered where the line of this number has this fault.
fn verdict_of(number: u64, fault: AuditFault) -> AuditVerdict
    ensures { result ≡ verdict_for number fault }
{
    match fault {
        AuditFault::Bad => AuditVerdict::BadLine(number),
        AuditFault::Breaks(path) => AuditVerdict::BreaksPath(number, path),
        AuditFault::Wrong => AuditVerdict::WrongReply(number),
        AuditFault::Stranger => AuditVerdict::NotRunning(number),
    }
}
