//! Writes that tell what a failure leaves.

ghost use Rattle.std.specs.Prelude.{◌≡◌, ◌≤◌, ◌<◌, ℕ, IfOk, IfErr, OnOk, OnErr, length, take};
ghost use Rattle.std.specs.Io.KnownBytes.{Appends, Keeps};
ghost use Rattle.value_core.specs.Sent.{IsSent, IsNotSent};

use crate::machine::LinesFault;
use std::io::{self, ErrorKind, Write};

// So many writes in a row may a signal break before that counts as a fault.
const MOST_TRIES: u32 = 16_777_216;

// What a write did: it took so many bytes, at least one, or a signal broke it and it can be made again.
fn sent(answer: io::Result<usize>) -> Result<Option<usize>, LinesFault>
    ensures ok { IfOk result (IsSent answer) }
    ensures err { OnErr result (IsNotSent answer) }
    ensures fault { IfErr result (λ fault. fault ≡ LinesFault.WriteFault) }
{
    match answer {
        Ok(0) => Err(LinesFault::WriteFault),
        Ok(count) => Ok(Some(count)),
        Err(e) if e.kind() == ErrorKind::Interrupted => Ok(None),
        Err(_) => Err(LinesFault::WriteFault),
    }
}

// Writes some of the bytes, at least one, and gives how many.
fn send_some<W: Write>(writer: &mut W, bytes: &[u8]) -> Result<usize, LinesFault>
    ensures some { IfOk result (λ count. 0 < count) }
    ensures bound { IfOk result (λ count. count ≤ length bytes.now) }
    ensures ok { IfOk result (λ count. Appends (W.contents writer.old) (W.contents writer.new) (take count bytes.now)) }
    ensures err { OnErr result (Keeps (W.contents writer.old) (W.contents writer.new)) }
    ensures fault { IfErr result (λ fault. fault ≡ LinesFault.WriteFault) }
{
    for _ in 0..MOST_TRIES {
        let answer = writer.write(bytes);
        if let Some(count) = sent(answer)? {
            return Ok(count);
        }
    }
    Err(LinesFault::WriteFault)
}

/// Writes all of the bytes. After a `WriteFault` a front of them was written.
///
/// A write that takes no byte is a fault at once, and so is one that fails. One that a signal broke is
/// made again, at most 16,777,216 times in a row.
pub fn write_whole<W: Write>(writer: &mut W, bytes: &[u8]) -> Result<(), LinesFault>
    ensures ok { OnOk result (Appends (W.contents writer.old) (W.contents writer.new) bytes.now) }
    ensures err { OnErr result ((count : ℕ)
        × Appends (W.contents writer.old) (W.contents writer.new) (take count bytes.now)) }
    ensures fault { IfErr result (λ fault. fault ≡ LinesFault.WriteFault) }
{
    let mut sent = 0;
    // each turn sends at least one byte, so this ends
    while sent < bytes.len() {
        sent += send_some(writer, &bytes[sent..])?;
    }
    Ok(())
}
