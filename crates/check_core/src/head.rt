//! The head of a script: what is read of it until its first line is whole.

ghost use Rattle.std.specs.Prelude.{◌≡◌, ◌↔◌, ◌++◌, ◌≤◌, ℕ, List, IfOk, IfErr, IsTrue, MatchOption, length, vec_len};
ghost use Rattle.std.specs.Result.{IsErrOf};
ghost use Rattle.std.specs.Io.KnownBytes.{Consumes};
ghost use Rattle.value_core.specs.Runs.{NoLineFeed};
ghost use Rattle.value_core.specs.declared.machine.LinesFault.{LinesFault};
ghost use Rattle.check_core.specs.Named.{HasShortLine, IsHead, NamesObject};

use path_tree::name::Name;
use std::alloc::{AllocError, Global};
use std::io::{ErrorKind, Read};
use value_core::{LinesFault, MOST_READS};
use word_core::first::first_object;

/// The most bytes that the first line of a script may have, its line end counted.
pub const MOST_FIRST_LINE: usize = 65_536;

// The bytes of one read.
const PIECE: usize = 65_536;

// Whether no byte is an LF.
fn has_no_line_feed(bytes: &[u8]) -> bool
    ensures { IsTrue result ↔ NoLineFeed bytes.now }
{
    bytes.iter().all(|b| *b != b'\n')
}

// Whether the first line has no more bytes than it may have.
fn has_short_line(head: &[u8]) -> bool
    ensures { IsTrue result ↔ HasShortLine head.now }
{
    if head.len() <= MOST_FIRST_LINE {
        return true;
    }
    !has_no_line_feed(&head[..MOST_FIRST_LINE])
}

// Room for the bytes of one read.
fn room_for_piece(alloc: Global) -> Result<Vec<u8>, AllocError>
    ensures { IfOk result (λ piece. vec_len piece ≡ PIECE) }
{
    vec![in alloc; 0u8; PIECE]
}

/// The head of a script: all bytes up to the end of the read that brought the end of the first line, or the byte that
/// makes it too long, or all bytes.
///
/// The faults, each of which loses what was read: `ReadFault` where a read failed, or 16,777,216 reads brought no line
/// end; `Memory`.
pub fn read_head<R: Read>(alloc: Global, reader: &mut R) -> Result<Vec<u8>, LinesFault>
    ensures taken { IfOk result (λ head. Consumes (R.remaining reader.old) (R.remaining reader.new) head.items) }
    ensures enough { IfOk result (λ head. IsHead head.items (R.remaining reader.new)) }
    // It reads no further: what came before the last read has no line end, and is not too long.
    ensures barely { IfOk result (λ head. (front : List ℕ) × (last : List ℕ) × (head.items ≡ front ++ last)
        × NoLineFeed front × (length front ≤ 65536) × (length last ≤ 65536)) }
    // It gives up on no head that is whole.
    ensures unread { IsErrOf result LinesFault.ReadFault →
        (text : List ℕ) × Consumes (R.remaining reader.old) (R.remaining reader.new) text
        × NoLineFeed text × (length text ≤ 65536) }
    ensures fault { IfErr result (λ fault. fault ≡ LinesFault.WriteFault → ⊥) }
{
    let mut piece = room_for_piece(alloc)?;
    let mut head = Vec::new(alloc);
    for _turn in 0..MOST_READS {
        let len = match reader.read(&mut piece) {
            Ok(len) => len,
            Err(e) if e.kind() == ErrorKind::Interrupted => continue,
            Err(_) => return Err(LinesFault::ReadFault),
        };
        let bytes = &piece[..len];
        head.extend_from_slice(bytes)?;
        if len == 0 {
            return Ok(head);
        }
        if head.len() > MOST_FIRST_LINE {
            return Ok(head);
        }
        if !has_no_line_feed(bytes) {
            return Ok(head);
        }
    }
    Err(LinesFault::ReadFault)
}

/// The name of the object in the first line of a script, of which this is the head; `None` where that line is not
/// `object NAME` or has more than 65,536 bytes, its end counted.
///
/// The error is that memory was refused.
pub fn named_object(alloc: Global, head: &[u8]) -> Result<Option<Name>, AllocError>
    ensures { IfOk result (λ found. MatchOption found ((name : List ℕ) → NamesObject head.now name → ⊥)
        (λ name. NamesObject head.now name)) }
{
    if !has_short_line(head) {
        return Ok(None);
    }
    match first_object(head) {
        Some(written) => {
            let name = Name::of_identifier(alloc, written)?;
            Ok(Some(name))
        }
        None => Ok(None),
    }
}
