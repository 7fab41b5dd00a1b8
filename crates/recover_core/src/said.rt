//! The lines that tell of the epochs of an object.

ghost use Rattle.std.specs.Prelude.{◌≡◌, ◌≤◌, ◌++◌, ◌==◌, if◌then◌else◌, OnOk, codes, decimal};
ghost use Rattle.recover_core.specs.Said.{at_line, line_words, chain_words, fault_words, of_epoch, epoch_words};
ghost use Rattle.recover_core.specs.Said.{whole_words};
ghost use Rattle.recover_core.specs.Stray.{past_zero, solid_bytes};

use crate::chain::ChainFault;
use crate::epochs::EpochFault;
use crate::recover::RecoverFault;
use audit_core::verdict::AuditFault;
use std::alloc::AllocError;
use value_core::reply::{push_count, push_number};

// Adds ` line N`, and more.
fn push_at_line(out: &mut Vec<u8>, line: u64, more: &[u8]) -> Result<(), AllocError>
    ensures { OnOk result (out.new.items ≡ out.old.items ++ at_line line more.now) }
{
    push_number(out, b" line ", line)?;
    out.extend_from_slice(more)?;
    Ok(())
}

// Adds what is told of a start that a path refuses.
fn push_breach(out: &mut Vec<u8>, line: u64, path: usize) -> Result<(), AllocError>
    ensures { OnOk result (out.new.items ≡ out.old.items ++ at_line line (codes " breaks path "
        ++ (decimal path ++ codes "\n"))) }
{
    push_number(out, b" line ", line)?;
    push_count(out, b" breaks path ", path as u64)?;
    Ok(())
}

// Adds what is told of a faulty line.
fn push_line_fault(out: &mut Vec<u8>, line: u64, fault: AuditFault) -> Result<(), AllocError>
    ensures { OnOk result (out.new.items ≡ out.old.items ++ line_words line fault) }
{
    match fault {
        AuditFault::Bad => push_at_line(out, line, b" bad\n"),
        AuditFault::Breaks(path) => push_breach(out, line, path),
        AuditFault::Wrong => push_at_line(out, line, b" wrong reply\n"),
        AuditFault::Stranger => push_at_line(out, line, b" not running\n"),
    }
}

// What of a front is not as the epoch before it left it.
fn chain_text(fault: ChainFault) -> &'static [u8]
    ensures { result.now ≡ chain_words fault }
{
    match fault {
        ChainFault::Epoch => b" does not follow: epoch\n",
        ChainFault::Values => b" does not follow: values\n",
        ChainFault::Past => b" does not follow: past\n",
        ChainFault::Numbers => b" does not follow: numbers\n",
        ChainFault::Clients => b" does not follow: clients\n",
    }
}

// Adds why nothing is recovered of an epoch.
fn push_recover_fault(out: &mut Vec<u8>, fault: RecoverFault) -> Result<(), AllocError>
    ensures { OnOk result (out.new.items ≡ out.old.items ++ fault_words fault) }
{
    match fault {
        RecoverFault::Front(line) => push_at_line(out, line, b" bad\n"),
        RecoverFault::Changed => out.extend_from_slice(b" was changed\n"),
        RecoverFault::Contradicts(line) => push_at_line(out, line, b" contradicts\n"),
        RecoverFault::Past => out.extend_from_slice(b" past does not fit\n"),
        RecoverFault::Line(line, fault) => push_line_fault(out, line, fault),
    }
}

// Adds ` epoch E`, and why it may not follow the one before it.
fn push_chain(out: &mut Vec<u8>, epoch: u64, fault: ChainFault) -> Result<(), AllocError>
    ensures { OnOk result (out.new.items ≡ out.old.items ++ of_epoch epoch (chain_words fault)) }
{
    push_number(out, b" epoch ", epoch)?;
    out.extend_from_slice(chain_text(fault))?;
    Ok(())
}

// Adds ` epoch E`, and why nothing is recovered of it.
fn push_epoch(out: &mut Vec<u8>, epoch: u64, fault: RecoverFault) -> Result<(), AllocError>
    ensures { OnOk result (out.new.items ≡ out.old.items ++ of_epoch epoch (fault_words fault)) }
{
    push_number(out, b" epoch ", epoch)?;
    push_recover_fault(out, fault)?;
    Ok(())
}

// Adds the name of a file, and which line of its front is bad.
fn push_front(out: &mut Vec<u8>, file: &[u8], line: u64) -> Result<(), AllocError>
    ensures { OnOk result (out.new.items ≡ out.old.items ++ ((codes " " ++ file.now)
        ++ at_line line (codes " bad\n"))) }
{
    out.extend_from_slice(b" ")?;
    out.extend_from_slice(file)?;
    push_at_line(out, line, b" bad\n")?;
    Ok(())
}

/// Adds, behind the name of an object, why the text of an epoch is refused, in a file of this name. The error is that
/// memory was refused; how much then stands in `out` is not said.
pub fn push_fault(out: &mut Vec<u8>, file: &[u8], fault: EpochFault) -> Result<(), AllocError>
    ensures { OnOk result (out.new.items ≡ out.old.items ++ epoch_words file.now fault) }
{
    match fault {
        EpochFault::Front(line) => push_front(out, file, line),
        EpochFault::Chain(epoch, fault) => push_chain(out, epoch, fault),
        EpochFault::Epoch(epoch, fault) => push_epoch(out, epoch, fault),
    }
}

/// Adds, behind the name of an object, that its epochs are whole: how many they are, and how many calls ended in them.
/// The error is that memory was refused; how much then stands in `out` is not said.
pub fn push_whole(out: &mut Vec<u8>, count: u64, entries: u64) -> Result<(), AllocError>
    ensures { OnOk result (out.new.items ≡ out.old.items ++ whole_words count entries) }
{
    push_number(out, b" epochs ", count)?;
    push_number(out, b" entries ", entries)?;
    out.extend_from_slice(b" whole\n")?;
    Ok(())
}

// What stands behind the first byte 0 of a file.
fn behind_zero(file: &[u8]) -> &[u8]
    ensures { result.now ≡ past_zero file.now }
{
    let mut rest = file;
    'bytes: while let Some((byte, more)) = rest.split_first() {
        if *byte == 0 {
            return more;
        }
        rest = more;
    }
    &[]
}

// How many bytes are not 0.
fn count_bytes(bytes: &[u8]) -> u64
    ensures { result ≡ solid_bytes bytes.now }
{
    let mut rest = bytes;
    let mut count: u64 = 0;
    'bytes: while let Some((byte, more)) = rest.split_first() {
        count += is_solid(*byte);
        rest = more;
    }
    count
}

// 1 where a byte is not 0.
fn is_solid(byte: u8) -> u64
    ensures one { result ≡ (if byte == 0 then 0 else 1) }
    ensures few { result ≤ 1 }
{
    if byte == 0 {
        return 0;
    }
    1
}

/// How many bytes of a file are not 0 behind its first byte 0: such as a crash left there, or somebody else.
pub fn stray_bytes(file: &[u8]) -> u64
    ensures { result ≡ solid_bytes (past_zero file.now) }
{
    count_bytes(behind_zero(file))
}
