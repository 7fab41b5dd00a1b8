//! The writer of a session.
//!
//! Lines come to it whole, from those that are held back ([`HeldReplies`]), and are sent together by [`Output::flush`].

ghost use Rattle.std.specs.Prelude.{◌≡◌, ◌↔◌, [], IsTrue, ℕ, List, Option};
ghost use Rattle.session_core.specs.declared.note.ReplyNote.{ReplyNote};
ghost use Rattle.session_core.specs.Written.{IsWritten, IsSaid, IsStopped, Sends};

use crate::held::HeldReplies;
use crate::note::ReplyNote;
use crate::room::make_room_for;
use crate::stage::{SessionStage, is_same, is_shut};
use std::alloc::Global;
use std::io::Write;
use std::marker::{Brand, Model, PhantomData};
use value_core::write_whole;

/// What a writer held when its session began. Each session picks it.
pub trait Start {
    ghost use Rattle.std.specs.Prelude.{Option, List, ℕ};

    ghost start: { Option (List ℕ) };
}

impl Start for Brand {
    ghost use Rattle.std.specs.Prelude.{None};

    ghost start = { None };
}

/// Whether more is written.
#[derive(Clone, Copy, Debug, PartialEq, Eq)]
pub enum Health {
    /// All lines so far are sent or held back.
    Fine,
    /// There was no memory for a line. It was not begun, and no more are.
    NoMemory,
    /// A line was said where it may not stand. It was not begun, and no more are.
    Mixed,
    /// A write failed, or lines were not sent. What was not sent is lost, and no more lines are begun.
    Broken,
}

/// A writer, the lines that are to be sent, and the notes of the last lines of calls among them and those sent.
#[derive(Drop)]
pub struct Output<W: Write + Drop, J: Start> {
    writer: W,
    held: Vec<u8>,
    notes: Vec<ReplyNote>,
    // where the lines have come to that were sent and are to be
    at: SessionStage,
    health: Health,
    of: PhantomData<J>,
}

impl<W: Write + Drop, J: Start> Model for Output<W, J> {
    ghost use Rattle.std.specs.Prelude.{List};
    ghost use Rattle.session_core.specs.declared.note.ReplyNote.{ReplyNote};
    ghost use Rattle.session_core.specs.declared.output.Health.{Health};
    ghost use Rattle.session_core.specs.Written.{IsWritten};

    ghost Value = { List ReplyNote × Health };

    ghost view = { λ o. (o.notes.items, o.health) };

    ghost invariant = { λ o. IsWritten J.start (W.contents o.writer) o.held.items o.health o.notes.items o.at };
}

// Sends the lines that are held back.
fn send<W: Write>(writer: &mut W, held: &mut Vec<u8>) -> bool
    ensures { Sends (W.contents writer.old) (W.contents writer.new) held.old.items held.new.items result }
{
    let Ok(()) = write_whole(writer, held.as_slice()) else {
        return false;
    };
    held.clear();
    true
}

fn is_none(held: &[u8]) -> bool
    ensures { IsTrue result ↔ (held.now ≡ []) }
{
    held.is_empty()
}

fn is_fine(health: Health) -> bool
    ensures { IsTrue result ↔ (health ≡ Health.Fine) }
{
    match health {
        Health::Fine => true,
        Health::NoMemory => false,
        Health::Mixed => false,
        Health::Broken => false,
    }
}

// Whether nothing more is sent.
fn is_stopped(health: Health) -> bool
    ensures { IsTrue result ↔ IsStopped health }
{
    match health {
        Health::Fine => false,
        Health::NoMemory => false,
        Health::Mixed => true,
        Health::Broken => true,
    }
}

// How all went, when no more is said: lines that were not sent are lost.
fn last_health(health: Health, held: &[u8], at: SessionStage) -> Health
    ensures { (start now : Option (List ℕ)) (notes : List ReplyNote) → IsWritten start now held.now health notes at →
        IsSaid start now result notes }
{
    match health {
        Health::Fine => if !is_none(held) {
            Health::Broken
        } else if is_shut(at) {
            Health::Fine
        } else {
            Health::Mixed
        },
        Health::NoMemory => Health::NoMemory,
        Health::Mixed => Health::Mixed,
        Health::Broken => Health::Broken,
    }
}

impl<W: Write + Drop, J: Start> Output<W, J> {
    /// Nothing is written yet.
    pub fn new(alloc: Global, writer: W) -> Output<W, J>
        requires { W.contents writer ≡ J.start }
    {
        Output {
            writer,
            held: Vec::new(alloc),
            notes: Vec::new(alloc),
            at: SessionStage::Free,
            health: Health::Fine,
            of: PhantomData,
        }
    }

    /// Makes room for so many notes. Without memory it answers false.
    pub fn make_room(&mut self, count: usize) -> bool {
        make_room_for(&mut self.notes, count)
    }

    /// Takes the lines that are held back, unless some were taken that could not be sent. Where there is no memory for
    /// their notes, or they do not go on where those taken before had come to, none are taken, now and later.
    pub fn take(&mut self, more: &mut HeldReplies) {
        if !is_fine(self.health) {
            return;
        }
        if !self.held.is_empty() {
            return;
        }
        if !is_same(more.first(), self.at) {
            self.health = Health::Mixed;
            return;
        }
        let at = more.at();
        if !more.hand_over(&mut self.held, &mut self.notes) {
            self.health = Health::NoMemory;
            return;
        }
        self.at = at;
    }

    /// A line was lost for which there was no memory: no more are taken.
    pub fn lose(&mut self) {
        if !is_fine(self.health) {
            return;
        }
        self.health = Health::NoMemory;
    }

    /// Sends the lines that were taken, in one write where the writer takes them so. It answers whether all
    /// lines so far were sent.
    pub fn flush(&mut self) -> bool {
        if is_stopped(self.health) {
            return false;
        }
        if is_none(&self.held) {
            return is_fine(self.health);
        }
        if !send(&mut self.writer, &mut self.held) {
            self.health = Health::Broken;
            return false;
        }
        is_fine(self.health)
    }

    /// The writer, the notes, and how all went. Lines that were taken and not sent are lost, and `Broken` is told for
    /// them; `Mixed` is told where the last line of a call is missing.
    pub fn into_parts(self) -> (W, Vec<ReplyNote>, Health)
        ensures { IsSaid J.start (W.contents result.0) result.2 result.1.items }
    {
        let Output {
            writer,
            held,
            notes,
            at,
            health,
            of: _,
        } = self;
        let health = last_health(health, &held, at);
        (writer, notes, health)
    }
}
