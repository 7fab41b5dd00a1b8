//! Lines of a reader.

ghost use Rattle.std.specs.Prelude.{◌≡◌, ◌<◌, ◌⊎◌, ◌↔◌, [], IsTrue, true, false, length};
ghost use Rattle.std.specs.declared.io.ErrorKind.TheVariants.{Interrupted, WouldBlock, TimedOut, OutOfMemory};
ghost use Rattle.tokio_util.specs.Codec.Next.{Resumes};
ghost use Rattle.tokio_util.specs.Codec.Lines.{gives_lines, at_line_start};
ghost use Rattle.session_text.specs.HearLines.{IsUnbroken, Finds, IsLast, Tells, ComesOnce, Brings};
ghost use Rattle.session_text.specs.Told.{IsToldAs, told_last};

use crate::fault::HearFault;
use bytes::BytesMut;
use std::alloc::Global;
use std::io::{self, Read};
use std::marker::Model;
use tokio_util::codec::{Decoder, LinesCodec, LinesCodecError};

/// The most bytes of a line before its LF, a CR counted.
pub const MOST_LINE_BYTES: usize = 4096;

// The bytes of one read.
const PIECE: usize = 4096;

/// What comes next in the bytes that were read.
#[derive(Debug, Drop)]
pub enum NextLine {
    /// A line, without its end.
    Line(String),
    /// What stands behind the last line end, where the input ended.
    Rest(String),
    /// A line that is no text.
    NoText,
    /// The input ended.
    End,
    /// A line has more than 4,096 bytes.
    LineTooLong,
    /// Memory was refused.
    Memory,
}

/// A reader that is cut into lines.
#[derive(Drop)]
pub struct LineReader<I: Read + Drop> {
    reader: I,
    // the bytes of the last read
    piece: Vec<u8>,
    buffer: BytesMut,
    codec: LinesCodec,
    ended: bool,
    // whether nothing more comes: a line was too long, or memory was refused
    over: bool,
}

impl<I: Read + Drop> Model for LineReader<I> {
    ghost use Rattle.std.specs.Prelude.{◌≡◌, false};
    ghost use Rattle.tokio_util.specs.Codec.Next.{Resumes};
    ghost use Rattle.tokio_util.specs.Codec.Lines.{gives_lines, at_line_start};
    ghost use Rattle.session_text.specs.HearLines.{Unread};

    ghost Value = { Unread };

    ghost view = { λ r. record {
      bytes = r.buffer.items;
      ended = r.ended;
      over = r.over;
      remaining = I.remaining r.reader;
    } };

    ghost invariant = { λ r. r.over ≡ false →
        Resumes gives_lines (at_line_start 4096) r.buffer.items r.codec r.buffer.items };
}

/// Whether a read or a write did nothing because it was interrupted, or its time ran out.
pub fn is_pause(kind: io::ErrorKind) -> bool
    ensures { IsTrue result ↔ (kind ≡ Interrupted) ⊎ (kind ≡ WouldBlock) ⊎ (kind ≡ TimedOut) }
{
    matches!(
        kind,
        io::ErrorKind::Interrupted | io::ErrorKind::WouldBlock | io::ErrorKind::TimedOut
    )
}

fn is_memory(kind: io::ErrorKind) -> bool
    ensures { IsTrue result ↔ (kind ≡ OutOfMemory) }
{
    matches!(kind, io::ErrorKind::OutOfMemory)
}

// Whether no line ends among these bytes.
fn is_unbroken(bytes: &[u8]) -> bool
    ensures { IsTrue result ↔ IsUnbroken bytes.now }
{
    !bytes.contains(&b'\n')
}

// A line, or what stands behind the last line end.
fn last(is_rest: bool, line: String) -> NextLine
    ensures { result ≡ told_last is_rest line }
{
    if is_rest {
        NextLine::Rest(line)
    } else {
        NextLine::Line(line)
    }
}

// Why there is no text.
fn refused(error: LinesCodecError) -> NextLine
    ensures { IsToldAs error result }
{
    match error {
        LinesCodecError::MaxLineLengthExceeded => NextLine::LineTooLong,
        LinesCodecError::Io(e) => if is_memory(e.kind()) {
            NextLine::Memory
        } else {
            NextLine::NoText
        },
    }
}

// What comes next in these bytes, where more may come.
fn next_line(codec: &mut LinesCodec, buffer: &mut BytesMut) -> Option<NextLine>
    requires { Resumes gives_lines (at_line_start 4096) buffer.old.items codec.old buffer.old.items }
    ensures found { Finds false buffer.old.items result buffer.new.items }
    ensures goes_on { (IsLast result → ⊥) →
        Resumes gives_lines (at_line_start 4096) buffer.new.items codec.new buffer.new.items }
{
    match codec.decode(buffer) {
        Ok(Some(line)) => Some(NextLine::Line(line)),
        Ok(None) => None,
        Err(e) => Some(refused(e)),
    }
}

// What comes next in these bytes, where the input ended with them.
fn last_line(codec: &mut LinesCodec, buffer: &mut BytesMut) -> Option<NextLine>
    requires { Resumes gives_lines (at_line_start 4096) buffer.old.items codec.old buffer.old.items }
    ensures found { Finds true buffer.old.items result buffer.new.items }
    ensures goes_on { (IsLast result → ⊥) →
        Resumes gives_lines (at_line_start 4096) buffer.new.items codec.new buffer.new.items }
{
    let is_rest = is_unbroken(buffer.as_slice());
    match codec.decode_eof(buffer) {
        Ok(Some(line)) => Some(last(is_rest, line)),
        Ok(None) => Some(NextLine::End),
        Err(e) => Some(refused(e)),
    }
}

// Whether nothing more comes behind this.
fn is_last(next: &Option<NextLine>) -> bool
    ensures { IsTrue result ↔ IsLast next.now }
{
    match next {
        Some(NextLine::LineTooLong) => true,
        Some(NextLine::Memory) => true,
        _ => false,
    }
}

// Reads once, with this room, and adds what came to what was read. It answers whether the input has ended.
fn read_once<I: Read>(
    reader: &mut I,
    room: &mut [u8],
    buffer: &mut BytesMut,
) -> Result<bool, HearFault>
    requires { 0 < length room.old }
    ensures { ComesOnce (I.remaining reader.old) (I.remaining reader.new) buffer.old.items buffer.new.items result }
{
    match reader.read(room) {
        Ok(0) => Ok(true),
        Ok(n) => match buffer.extend_from_slice(&room[..n]) {
            Ok(()) => Ok(false),
            Err(_) => Err(HearFault::Memory),
        },
        Err(e) => if is_pause(e.kind()) {
            Ok(false)
        } else {
            Err(HearFault::ReadFault)
        },
    }
}

impl<I: Read + Drop> LineReader<I> {
    /// Nothing is read yet.
    pub fn new(alloc: Global, reader: I) -> LineReader<I>
        ensures { result ≡ record { bytes = []; ended = false; over = false; remaining = I.remaining reader } }
    {
        LineReader {
            reader,
            piece: Vec::new(alloc),
            buffer: BytesMut::new(alloc),
            codec: LinesCodec::new_with_max_length(MOST_LINE_BYTES),
            ended: false,
            over: false,
        }
    }

    /// Whether a read found the end of the input.
    pub fn has_ended(&self) -> bool
        ensures { result ≡ self.now.ended }
    {
        self.ended
    }

    /// What comes next in the bytes that were read, or `None` where more have to be read for it. Behind a line that is
    /// too long, and behind a want of memory, it is the end.
    pub fn ready(&mut self) -> Option<NextLine>
        ensures { Tells self.old result self.new }
    {
        if self.over {
            return Some(NextLine::End);
        }
        let next = if self.ended {
            last_line(&mut self.codec, &mut self.buffer)
        } else {
            next_line(&mut self.codec, &mut self.buffer)
        };
        self.over = is_last(&next);
        next
    }

    /// Reads once, and gives the fault that it met. A read that was interrupted, or whose time ran out, brings nothing
    /// and is no fault.
    pub fn read(&mut self) -> Option<HearFault>
        ensures { Brings self.old result self.new }
    {
        if self.piece.is_empty() && self.piece.resize(PIECE, 0).is_err() {
            return Some(HearFault::Memory);
        }
        match read_once(&mut self.reader, &mut self.piece, &mut self.buffer) {
            Ok(true) => {
                self.ended = true;
                None
            }
            Ok(false) => None,
            Err(fault) => Some(fault),
        }
    }

    /// Lets the bytes go that were read.
    pub fn skip(&mut self)
        ensures { self.new ≡ record self.old { bytes = [] } }
    {
        self.buffer.clear();
        self.codec = LinesCodec::new_with_max_length(MOST_LINE_BYTES);
    }
}
