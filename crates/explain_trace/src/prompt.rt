//! What a person reads on standard error at a prompt: the prompt itself, and why a line is not taken.

use crate::script::{line_at, push_why};
use decl_core::analyse::Accepted;
use note_core::span::{behind, front, text_at};
use std::alloc::{AllocError, Global};
use std::io::{self, Read, Write};
use value_core::write_whole;
use word_core::first::one_bare;

/// What is told of the lines that are read.
#[derive(Clone, Copy)]
pub struct Manner {
    /// Whether it is told why a line is bad, or a call is one that the object does not take.
    pub explains: bool,
    /// Whether a prompt stands before each line.
    pub asks: bool,
}

/// A reader that hands on what another one gives. Before it reads, when all that came has been answered, it tells of the
/// lines that came, and asks for the next one.
#[derive(Drop)]
pub struct Asking<R, E> {
    alloc: Global,
    inner: R,
    error: E,
    accepted: Accepted,
    manner: Manner,
    // What came behind the lines of which it was told, as long as there is memory for it.
    held: Option<Vec<u8>>,
    // How many lines came before that.
    before: usize,
}

// How many line ends there are, and how many bytes up to the last one.
fn line_ends(text: &[u8]) -> (usize, usize) {
    let mut count: usize = 0;
    let mut whole = 0;
    for (place, byte) in text.iter().enumerate() {
        if *byte == b'\n' {
            count = count.saturating_add(1);
            whole = place.saturating_add(1);
        }
    }
    (count, whole)
}

// These bytes behind others, unless memory was refused.
fn with_more(held: Option<Vec<u8>>, bytes: &[u8]) -> Option<Vec<u8>> {
    let mut held = held?;
    match held.extend_from_slice(bytes) {
        Ok(()) => Some(held),
        Err(_) => None,
    }
}

// What is told of lines, of which so many came before: of each but `help`, which only a prompt has.
fn told_of(
    alloc: Global,
    accepted: &Accepted,
    lines: &[u8],
    before: usize,
) -> Result<Vec<u8>, AllocError> {
    let mut out = Vec::new(alloc);
    let mut place = 0;
    for number in before..before.saturating_add(lines.len()) {
        let Some((span, next)) = line_at(lines, place) else {
            break;
        };
        let line = text_at(lines, span);
        if !matches!(one_bare(line), Some(b"help")) {
            push_why(&mut out, accepted.object(), number, line)?;
        }
        place = next;
    }
    Ok(out)
}

impl<R: Read + Drop, E: Write + Drop> Asking<R, E> {
    /// A reader over another one, of which nothing has been read, for lines to this object.
    pub fn new(
        alloc: Global,
        inner: R,
        error: E,
        accepted: Accepted,
        manner: Manner,
    ) -> Asking<R, E> {
        Asking {
            alloc,
            inner,
            error,
            accepted,
            manner,
            held: Some(Vec::new(alloc)),
            before: 0,
        }
    }

    /// Tells of the last line, where it came without its end.
    pub fn end(mut self) {
        if let Some(held) = self.held.take() {
            self.tell(&held);
        }
    }
}

impl<R: Read, E: Write> Asking<R, E> {
    // Tells of these lines.
    fn tell(&mut self, lines: &[u8]) {
        if self.manner.explains {
            if let Ok(text) = told_of(self.alloc, &self.accepted, lines, self.before) {
                let _ = write_whole(&mut self.error, &text);
            }
        }
        let (count, _) = line_ends(lines);
        self.before = self.before.saturating_add(count);
    }

    // Tells of the lines that have come with their ends. What is left has come of the next one.
    fn tell_whole(&mut self) {
        if let Some(held) = self.held.take() {
            let (_, whole) = line_ends(&held);
            self.tell(front(&held, whole));
            self.held = with_more(Some(Vec::new(self.alloc)), behind(&held, whole));
        }
    }

    // Asks for a line, by the name of the object, where nothing has come of it.
    fn ask(&mut self) {
        let is_within = match &self.held {
            Some(held) => !held.is_empty(),
            None => false,
        };
        if self.manner.asks && !is_within {
            let _ = write_whole(&mut self.error, self.accepted.object().name.as_bytes());
            let _ = write_whole(&mut self.error, b"> ");
        }
    }
}

impl<R: Read, E: Write> Read for Asking<R, E> {
    fn read(&mut self, buf: &mut [u8]) -> io::Result<usize> {
        self.tell_whole();
        self.ask();
        let count = self.inner.read(buf)?;
        if count == 0 && self.manner.asks {
            let _ = write_whole(&mut self.error, b"\n");
        }
        let held = self.held.take();
        self.held = with_more(held, &buf[..count]);
        Ok(count)
    }
}
