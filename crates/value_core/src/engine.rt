//! The engine: from pieces of a text to lines, and from answers to writes.

ghost use Rattle.std.specs.Prelude.{◌≡◌, ◌+◌, ◌*◌, ◌≤◌, ◌<◌, ◌^◌, ◌++◌, ◌∷◌, [], ℕ, List, Bool, true, false};
ghost use Rattle.std.specs.Prelude.{MatchOption, IfOk, OnOk, OnErr, IsErrOf, length, vec_len};
ghost use Rattle.std.specs.Io.KnownBytes.{Appends, Consumes};
ghost use Rattle.std.specs.Str.Lines.{strip_carriage_return};
ghost use Rattle.value_core.specs.Runs.{NoLineFeed};
ghost use Rattle.value_core.specs.Ends.{Ends, Begins, AllAnswered};
ghost use Rattle.value_core.specs.declared.machine.LinesFault.TheVariants.{ReadFault};

use crate::machine::{LinesEnd, LinesFault, Machine};
use crate::send::write_whole;
use std::alloc::{AllocError, Global};
use std::io::{ErrorKind, Read, Write};

/// After so many reads the text counts as one that never ends.
pub const MOST_READS: u32 = 16_777_216;

// The bytes of one read.
const PIECE: usize = 65_536;

// What stands before the first LF, and what stands after it.
pub(crate) fn split_line(bytes: &[u8]) -> Option<(&[u8], &[u8])>
    ensures { MatchOption result (NoLineFeed bytes.now) (λ parts. NoLineFeed parts.0.now
        × (bytes.now ≡ parts.0.now ++ 10 ∷ parts.1.now)) }
{
    let at = bytes.iter().position(|b| *b == b'\n')?;
    Some((&bytes[..at], &bytes[at + 1..]))
}

// The line without the CR before its LF.
pub(crate) fn without_cr(line: &[u8]) -> &[u8]
    ensures { result.now ≡ strip_carriage_return line.now }
{
    let len = line.len();
    if len > 0 && line[len - 1] == b'\r' {
        &line[..len - 1]
    } else {
        line
    }
}

// Answers the line that is held and then goes on as `front`.
fn answer_line<M: Machine>(
    machine: &mut M,
    number: u64,
    held: &mut Vec<u8>,
    front: &[u8],
    out: &mut Vec<u8>,
) -> Result<bool, AllocError>
    ensures held { OnOk result (held.new.items ≡ []) }
    ensures answer { IfOk result (λ goes. (text : List ℕ) × (out.new.items ≡ out.old.items ++ text)
        × M.gives machine.old number (strip_carriage_return (held.old.items ++ front.now)) text goes machine.new) }
{
    if held.is_empty() {
        return machine.answer(number, without_cr(front), out);
    }
    held.extend_from_slice(front)?;
    let goes = machine.answer(number, without_cr(held.as_slice()), out)?;
    held.clear();
    Ok(goes)
}

// The lines answered so far.
#[derive(Drop)]
struct Pending {
    // The number of the next line.
    number: u64,
    // What has come of it.
    held: Vec<u8>,
    // Answers that are not yet written.
    out: Vec<u8>,
}

impl Pending {
    ghost use Rattle.value_core.specs.Runs.{Feeds, Finished};

    // Answers each line that is whole with this piece, up to one that stops the run.
    fn feed<M: Machine>(&mut self, machine: &mut M, piece: &[u8]) -> Result<bool, AllocError>
        requires held { NoLineFeed self.old.held.items }
        requires room { self.old.number + length piece.now < 2 ^ 64 }
        ensures held { result ≡ Ok true → NoLineFeed self.new.held.items }
        ensures room { OnOk result (self.new.number ≤ self.old.number + length piece.now) }
        ensures fed { IfOk result (λ goes. (answers : List ℕ) × (self.new.out.items ≡ self.old.out.items ++ answers)
            × Feeds M.gives machine.old self.old piece.now goes answers machine.new self.new) }
    {
        let mut rest = piece;
        while let Some((front, back)) = split_line(rest) {
            if !answer_line(machine, self.number, &mut self.held, front, &mut self.out)? {
                return Ok(false);
            }
            self.number += 1;
            rest = back;
        }
        self.held.extend_from_slice(rest)?;
        Ok(true)
    }

    // Answers what is held as the last line, if it is any.
    fn finish<M: Machine>(&mut self, machine: &mut M) -> Result<bool, AllocError>
        requires { NoLineFeed self.old.held.items }
        ensures number { self.new.number ≡ self.old.number }
        ensures finished { IfOk result (λ goes. (answers : List ℕ)
            × (self.new.out.items ≡ self.old.out.items ++ answers)
            × Finished M.gives machine.old self.old.number self.old.held.items goes answers machine.new) }
    {
        if self.held.is_empty() {
            return Ok(true);
        }
        let goes = machine.answer(self.number, self.held.as_slice(), &mut self.out)?;
        Ok(goes)
    }
}

// Room for the bytes of one read.
fn room_for_piece(alloc: Global) -> Result<Vec<u8>, AllocError>
    ensures { IfOk result (λ piece. vec_len piece ≡ PIECE) }
{
    vec![in alloc; 0u8; PIECE]
}

/// Answers the lines of a text, each as soon as it has come: all answers to the lines of a piece are
/// written before the next read.
///
/// After a fault the machine's state is open. After a `ReadFault` each line that had come whole is answered.
pub fn run_lines<M: Machine, R: Read, W: Write>(
    alloc: Global,
    machine: &mut M,
    reader: &mut R,
    writer: &mut W,
) -> Result<LinesEnd, LinesFault>
    // The text read was answered, as is known of a machine's answers, and nothing else was written.
    ensures ended { IfOk result (λ end. (text : List ℕ) × (written : List ℕ)
        × Consumes (R.remaining reader.old) (R.remaining reader.new) text
        × Appends (W.contents writer.old) (W.contents writer.new) written
        × Ends M.gives machine.old text (R.remaining reader.new) end written machine.new) }
    // A fault leaves a front of the answers.
    ensures faulted { OnErr result ((text : List ℕ) × (written : List ℕ)
        × Consumes (R.remaining reader.old) (R.remaining reader.new) text
        × Appends (W.contents writer.old) (W.contents writer.new) written
        × Begins M.gives machine.old text (R.remaining reader.new) written) }
    // The answers to all lines that have come are written before the next read: any read may fail.
    ensures unread { IsErrOf result ReadFault → (text : List ℕ) × (written : List ℕ)
        × Consumes (R.remaining reader.old) (R.remaining reader.new) text
        × Appends (W.contents writer.old) (W.contents writer.new) written
        × AllAnswered M.gives machine.old text written }
{
    let mut piece = room_for_piece(alloc)?;
    let mut pending = Pending {
        number: 1,
        held: Vec::new(alloc),
        out: Vec::new(alloc),
    };
    for _turn in 0..MOST_READS {
        let len = match reader.read(&mut piece) {
            Ok(len) => len,
            Err(e) if e.kind() == ErrorKind::Interrupted => continue,
            Err(_) => return Err(LinesFault::ReadFault),
        };
        if len == 0 {
            let goes = pending.finish(machine)?;
            write_whole(writer, pending.out.as_slice())?;
            if goes {
                return Ok(LinesEnd::Whole);
            }
            return Ok(LinesEnd::Stopped(pending.number));
        }
        let goes = pending.feed(machine, &piece[..len])?;
        write_whole(writer, pending.out.as_slice())?;
        if !goes {
            return Ok(LinesEnd::Stopped(pending.number));
        }
        pending.out.clear();
    }
    Err(LinesFault::ReadFault)
}
