//! What is told of objects that are not begun with.

ghost use Rattle.std.specs.Prelude.{IfErr};
ghost use Rattle.answer_core.specs.Status.{IsFault};

use answer_core::failure::ToolFailure;
use audit_core::verdict::AuditFault as TraceFault;
use decl_core::object::Object;
use keep_core::open::push_damaged;
use keep_core::start::NotBegun;
use recover_core::recover::RecoverFault;
use std::alloc::{AllocError, Global};
use taken_core::taken::{TakeFault, line_in_file};

// How many lines there are.
pub(crate) fn count_lines(lines: &[u8]) -> u64 {
    let mut count: u64 = 0;
    for byte in lines {
        if *byte == b'\n' {
            count = count.saturating_add(1);
        }
    }
    count
}

pub(crate) fn object_line(alloc: Global, name: &str, said: &[u8]) -> Result<Vec<u8>, AllocError> {
    let mut line = Vec::new(alloc);
    line.extend_from_slice(b"object ")?;
    line.extend_from_slice(name.as_bytes())?;
    line.extend_from_slice(said)?;
    Ok(line)
}

// What is said of a fault of a line.
fn fault_text(alloc: Global, fault: TraceFault) -> Result<String, AllocError> {
    match fault {
        TraceFault::Bad => format!(in alloc; "bad"),
        TraceFault::Breaks(path) => format!(in alloc; "breaks path {path}"),
        TraceFault::Wrong => format!(in alloc; "wrong reply"),
        TraceFault::Stranger => format!(in alloc; "not running"),
    }
}

// The line of the file of a journal that is not taken.
pub(crate) fn taken_line(
    alloc: Global,
    name: &str,
    fault: TakeFault,
) -> Result<Vec<u8>, AllocError> {
    let line = match fault {
        TakeFault::Line(line) => format!(in alloc; "{name}.journal line {line} bad\n")?,
        TakeFault::Format(format) => format!(in alloc; "{name}.journal has format {format}\n")?,
        TakeFault::Behind(line, count) => format!(in alloc;
            "{name}.journal line {line}: {count} bytes behind it are not 0\n"
        )?,
    };
    line.as_bytes().to_vec(alloc)
}

/// The line of the file of a journal that ends behind this line, and lacks room.
pub(crate) fn short_line(alloc: Global, name: &str, line: u64) -> Result<Vec<u8>, AllocError> {
    let line = format!(in alloc; "{name}.journal line {line}: the file ends behind it\n")?;
    line.as_bytes().to_vec(alloc)
}

// The line of a journal that is refused, of which this is the file.
pub(crate) fn refused_line(
    alloc: Global,
    name: &str,
    file: &[u8],
    fault: RecoverFault,
) -> Result<Vec<u8>, AllocError> {
    let line = match fault {
        RecoverFault::Changed => {
            format!(in alloc; "object {name} was changed: start the old FILE once\n")?
        }
        RecoverFault::Past => format!(in alloc; "object {name} past does not fit\n")?,
        RecoverFault::Front(line) | RecoverFault::Contradicts(line) => {
            let line = line_in_file(file, line);
            format!(in alloc; "{name}.journal line {line} bad\n")?
        }
        RecoverFault::Line(line, fault) => {
            let line = line_in_file(file, line);
            let said = fault_text(alloc, fault)?;
            format!(in alloc; "{name}.journal line {line} {said}\n")?
        }
    };
    line.as_bytes().to_vec(alloc)
}

// The line that says why an object is not begun with.
pub(crate) fn told_line(
    alloc: Global,
    object: &Object,
    name: &str,
    why: NotBegun,
) -> Result<Vec<u8>, ToolFailure>
    ensures { IfErr result IsFault }
{
    let line = match why {
        NotBegun::Refused(fault) => refused_line(alloc, name, &[], fault)?,
        NotBegun::NoPast => object_line(alloc, name, b" past does not fit\n")?,
        NotBegun::Uncounted => object_line(alloc, name, b" past is not known\n")?,
        NotBegun::Damaged(part) => {
            let mut line = Vec::new(alloc);
            push_damaged(&mut line, object, part)?;
            line
        }
        NotBegun::Device => return Err(ToolFailure::ReadFault),
        NotBegun::Memory => return Err(ToolFailure::Memory),
    };
    Ok(line)
}
