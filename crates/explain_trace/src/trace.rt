//! The first faulty line of a trace.

use crate::bad::bad_line;
use crate::breach::push_breach;
use crate::reply::{not_running, push_wrong_reply};
use crate::script::{explained, line_at};
use crate::story::{FaultyLine, story_before};
use audit_core::audit::audit;
use audit_core::verdict::AuditVerdict;
use decl_core::analyse::Accepted;
use note_core::diagnostic::push_both;
use note_core::files::Files;
use note_core::line_words::words_at;
use note_core::page::Page;
use note_core::span::Span;
use std::alloc::{AllocError, Global};

// The line that a verdict tells, if it tells one.
fn line_of(verdict: AuditVerdict) -> Option<u64> {
    match verdict {
        AuditVerdict::BadLine(line) => Some(line),
        AuditVerdict::BreaksPath(line, _) => Some(line),
        AuditVerdict::WrongReply(line) => Some(line),
        AuditVerdict::NotRunning(line) => Some(line),
        AuditVerdict::Legal { .. } | AuditVerdict::Memory => None,
    }
}

// Adds why a faulty line has the fault that a verdict tells. `declared` is the source.
fn push_fault(
    out: &mut Vec<u8>,
    faulty: FaultyLine<'_>,
    declared: Page<'_>,
    verdict: AuditVerdict,
) -> Result<(), AllocError> {
    match verdict {
        AuditVerdict::BreaksPath(_, path) => push_breach(out, faulty, declared, path),
        AuditVerdict::WrongReply(_) => push_wrong_reply(out, faulty),
        AuditVerdict::NotRunning(_) => push_both(out, faulty.page, not_running(faulty)),
        _ => {
            let found = bad_line(*out.allocator(), faulty)?;
            push_both(out, faulty.page, found)
        }
    }
}

/// Adds what is wrong with a trace of this object. `declared` is the source.
pub(crate) fn push_verdict(
    out: &mut Vec<u8>,
    page: Page<'_>,
    declared: Page<'_>,
    accepted: &Accepted,
) -> Result<(), AllocError> {
    let alloc = *out.allocator();
    let verdict = audit(alloc, accepted, page.source);
    let Some(number) = line_of(verdict) else {
        return Ok(());
    };
    let story = story_before(alloc, accepted.object(), page.source, number)?;
    let span = match line_at(page.source, story.bytes) {
        Some((span, _)) => span,
        None => Span {
            start: page.source.len(),
            end: page.source.len(),
        },
    };
    let words = words_at(alloc, page.source, span)?;
    let faulty = FaultyLine {
        page,
        object: accepted.object(),
        story: &story,
        words: &words,
        number,
    };
    push_fault(out, faulty, declared, verdict)
}

/// What a person is told of the first faulty line of a trace, or of a first line that names no object of the source. It
/// is empty where the trace is legal, and where the source, or the object, is refused: `explain` tells why.
pub fn explain_trace(
    alloc: Global,
    files: Files<'_>,
    source: &[u8],
    text: &[u8],
) -> Result<Vec<u8>, AllocError> {
    explained(alloc, files, source, text, true)
}
