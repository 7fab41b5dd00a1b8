//! The lines of a session that are held back.

ghost use Rattle.std.specs.Prelude.{◌≡◌, ◌++◌, [], false, OnOk, OnErr};
ghost use Rattle.std.specs.Bool.{OnFalse};
ghost use Rattle.session_core.specs.declared.note.ReplyNote.{ReplyNote};
ghost use Rattle.session_text.specs.Answers.{said_of};
ghost use Rattle.session_core.specs.Says.{MaySay};
ghost use Rattle.session_core.specs.Written.{note_of, IsHeld, IsSilent, Adds, HandsOver};

use crate::note::{ReplyNote, add_note};
use crate::room::make_room_for;
use crate::stage::{SessionStage, behind};
use session_text::line::{AnyLine, push_line};
use std::alloc::{AllocError, Global};
use std::marker::Model;
use std::mem;
use value_core::limits::MOST_TEXT_BYTES;

/// Room for the longest line that is written of a call, in bytes, twice over.
const LINE_ROOM: usize = 4096;

/// Lines that are held back, whole and each in its turn, and the notes of the last lines of calls among them.
#[derive(Drop)]
pub struct HeldReplies {
    text: Vec<u8>,
    notes: Vec<ReplyNote>,
    line: Vec<u8>,
    // memory for the reply of a note
    spare: Vec<u8>,
    alloc: Global,
    // where the lines before them had come to, and where these have
    first: SessionStage,
    at: SessionStage,
    // Whether a line was lost, for which there was no memory. No more are begun then.
    lost: bool,
    // Whether a line was not taken, since it may not stand where it was said. No more are begun then.
    mixed: bool,
}

impl Model for HeldReplies {
    ghost use Rattle.std.specs.Prelude.{ℕ, List, Bool};
    ghost use Rattle.session_core.specs.declared.note.ReplyNote.{ReplyNote};
    ghost use Rattle.session_core.specs.declared.stage.SessionStage.{SessionStage};
    ghost use Rattle.session_core.specs.Written.{IsHeld};

    ghost Value = { List ℕ × List ReplyNote × SessionStage × SessionStage × Bool × Bool };

    ghost view = { λ h. (h.text.items, h.notes.items, h.first, h.at, h.lost, h.mixed) };

    ghost invariant = { λ h. IsHeld h.text.items h.notes.items h.first h.at };
}

// Notes a line, where it is the last one of a call that has a receipt.
fn add_note_of(
    alloc: Global,
    notes: &mut Vec<ReplyNote>,
    spare: &mut Vec<u8>,
    line: AnyLine<'_>,
) -> Result<(), AllocError>
    ensures ok { OnOk result (notes.new.items ≡ notes.old.items ++ note_of (said_of line.entry)) }
    ensures err { OnErr result (notes.new.items ≡ notes.old.items) }
{
    match line {
        AnyLine::Ended(number, reply) => add_note(alloc, notes, spare, number, reply),
        AnyLine::Opened(_, _) => Ok(()),
        AnyLine::Repeated(_, _) => Ok(()),
        AnyLine::Told(_) => Ok(()),
    }
}

// Holds a line back, and notes it where it is the last one of a call that has a receipt. The last line of a call that was
// made before is not noted: its receipt is of another session, or of this one at its time.
fn add_line(
    alloc: Global,
    held: &mut Vec<u8>,
    text: &mut Vec<u8>,
    notes: &mut Vec<ReplyNote>,
    spare: &mut Vec<u8>,
    line: AnyLine<'_>,
) -> bool
    ensures { Adds held.old.items held.new.items notes.old.items notes.new.items (said_of line.entry) result }
{
    text.clear();
    if push_line(text, line).is_err() {
        return false;
    }
    let before = held.len();
    if held.extend_from_slice(text.as_slice()).is_err() {
        return false;
    }
    if add_note_of(alloc, notes, spare, line).is_err() {
        held.truncate(before);
        return false;
    }
    true
}

// Makes room for the reply of a note, where there is none. Without memory it answers false.
fn make_spare(spare: &mut Vec<u8>) -> bool {
    spare.reserve_exact(MOST_TEXT_BYTES).is_ok()
}

// Hands lines and their notes over.
fn hand_over(
    text: &mut Vec<u8>,
    notes: &mut Vec<ReplyNote>,
    to: &mut Vec<u8>,
    noted: &mut Vec<ReplyNote>,
) -> bool
    requires { to.old.items ≡ [] }
    ensures { HandsOver text.old.items text.new.items notes.old.items notes.new.items to.new.items noted.old.items
        noted.new.items result }
{
    if noted.append(notes).is_err() {
        return false;
    }
    mem::swap(text, to);
    true
}

impl HeldReplies {
    /// Nothing is held back yet.
    pub fn new(alloc: Global) -> HeldReplies
        ensures { result ≡ ([], [], SessionStage.Free, SessionStage.Free, false, false) }
    {
        HeldReplies {
            text: Vec::new(alloc),
            notes: Vec::new(alloc),
            line: Vec::new(alloc),
            spare: Vec::new(alloc),
            alloc,
            first: SessionStage::Free,
            at: SessionStage::Free,
            lost: false,
            mixed: false,
        }
    }

    /// Makes room for the lines of one call and for its note. Without memory it answers false.
    pub fn make_room(&mut self) -> bool
        ensures { self.new ≡ self.old }
    {
        if self.text.reserve(LINE_ROOM).is_err() {
            return false;
        }
        if self.line.reserve(LINE_ROOM).is_err() {
            return false;
        }
        if !make_spare(&mut self.spare) {
            return false;
        }
        make_room_for(&mut self.notes, 1)
    }

    /// How many notes there are.
    pub fn count(&self) -> usize {
        self.notes.len()
    }

    /// Whether a line was lost, for which there was no memory.
    pub fn is_lost(&self) -> bool
        ensures { result ≡ self.now.4 }
    {
        self.lost
    }

    /// Whether a line was not taken, since it may not stand where it was said.
    pub fn is_mixed(&self) -> bool
        ensures { result ≡ self.now.5 }
    {
        self.mixed
    }

    /// Whether each line that was said was held back.
    pub fn is_whole(&self) -> bool
        ensures { OnFalse result (IsSilent self.now.4 self.now.5) }
    {
        !self.lost && !self.mixed
    }

    /// Where the lines before those that are held back had come to.
    pub fn first(&self) -> SessionStage
        ensures { result ≡ self.now.2 }
    {
        self.first
    }

    /// Where the lines that are held back have come to.
    pub fn at(&self) -> SessionStage
        ensures { result ≡ self.now.3 }
    {
        self.at
    }

    /// Holds a line back, unless it may not stand here, or a line before it was not held back. It answers whether it
    /// did. The last line of a call that has a receipt stands only while that call is open, and is noted; `opened NAME`
    /// and the last line of a call that was made before stand only where no call is open.
    pub fn say(&mut self, line: AnyLine<'_>) -> bool
        requires { MaySay line }
        ensures silent { OnFalse result (IsSilent self.new.4 self.new.5) }
        ensures added { Adds self.old.0 self.new.0 self.old.1 self.new.1 (said_of line.entry) result }
    {
        if !self.is_whole() {
            return false;
        }
        let Some(to) = behind(self.at, line) else {
            self.mixed = true;
            return false;
        };
        if !add_line(
            self.alloc,
            &mut self.text,
            &mut self.line,
            &mut self.notes,
            &mut self.spare,
            line,
        ) {
            self.lost = true;
            return false;
        }
        self.at = to;
        true
    }

    /// Hands all lines over to `to`, in which there is none, and adds their notes to `noted`. Without memory for the
    /// notes it answers false, and hands nothing over.
    pub fn hand_over(&mut self, to: &mut Vec<u8>, noted: &mut Vec<ReplyNote>) -> bool
        requires { to.old.items ≡ [] }
        ensures over { HandsOver self.old.0 self.new.0 self.old.1 self.new.1 to.new.items noted.old.items
            noted.new.items result }
        ensures held { IsHeld self.old.0 self.old.1 self.old.2 self.old.3 }
        ensures empty { to.old.items ≡ [] }
    {
        if !hand_over(&mut self.text, &mut self.notes, to, noted) {
            return false;
        }
        self.first = self.at;
        true
    }
}
