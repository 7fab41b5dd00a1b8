//! The writing side of a session, which its threads share.
//!
//! What they say is held back under one lock, and sent under another one. So nobody who says something waits for a
//! client that does not read; only who sends does.

ghost use Rattle.std.specs.Prelude.{◌≡◌, ℕ, List, Option};
ghost use Rattle.session_core.specs.declared.note.ReplyNote.{ReplyNote};
ghost use Rattle.session_core.specs.Says.{MaySay};
ghost use Rattle.session_core.specs.Written.{IsSaid};

use crate::held::HeldReplies;
use crate::note::ReplyNote;
use crate::output::{Health, Output, Start};
use session_text::line::AnyLine;
use std::alloc::Global;
use std::io::Write;
use std::mem;
use std::sync::{Condvar, Mutex, Wait};

/// What the third thread of a session is to do.
#[derive(Clone, Copy, Debug, PartialEq, Eq)]
pub enum Wish {
    /// To wait.
    Nothing,
    /// To send what is held back, for this session of the object at this place.
    Send(usize, u32),
    /// To end.
    End,
}

/// The lines that are held back, the writer, and what is wished of the third thread.
#[derive(Drop)]
pub struct Mouth<W: Write + Drop, J: Start> {
    held: Mutex<HeldReplies>,
    output: Mutex<Output<W, J>>,
    wish: Mutex<Wish>,
    came: Condvar,
}

// How all went, by the writer and by the lines that were held back.
fn with_held(health: Health, held: &HeldReplies) -> Health
    ensures { (start now : Option (List ℕ)) (notes : List ReplyNote) → IsSaid start now health notes →
        IsSaid start now result notes }
{
    if held.is_mixed() {
        return Health::Mixed;
    }
    match health {
        Health::Fine => if held.is_lost() {
            Health::NoMemory
        } else {
            Health::Fine
        },
        Health::NoMemory => Health::NoMemory,
        Health::Mixed => Health::Mixed,
        Health::Broken => Health::Broken,
    }
}

impl<W: Write + Drop, J: Start> Mouth<W, J> {
    /// Nothing is said yet.
    pub fn new(alloc: Global, writer: W) -> Mouth<W, J>
        requires { W.contents writer ≡ J.start }
    {
        Mouth {
            held: Mutex::new(HeldReplies::new(alloc)),
            output: Mutex::new(Output::new(alloc, writer)),
            wish: Mutex::new(Wish::Nothing),
            came: Condvar::new(),
        }
    }

    /// Makes room for the lines of one call and for its note. It waits for who sends. Without memory it answers false.
    pub fn make_room<R: Wait>(&self, rt: &R) -> bool {
        let mut output = self.output.lock(rt);
        let mut held = self.held.lock(rt);
        held.make_room() && output.make_room(held.count().saturating_add(1))
    }

    /// Holds a line back, unless it may not stand here, or a line before it was not held back. It answers whether it
    /// did. The last line of a call that has a receipt stands only while that call is open, and is noted; `opened NAME`
    /// and the last line of a call that was made before stand only where no call is open. It waits for nobody who sends.
    pub fn say<R: Wait>(&self, rt: &R, line: AnyLine<'_>) -> bool
        requires { MaySay line }
    {
        self.held.lock(rt).say(line)
    }

    /// Sends the lines that are held back, and waits until the writer has taken them. It answers whether all
    /// lines so far were sent.
    pub fn flush<R: Wait>(&self, rt: &R) -> bool {
        let mut output = self.output.lock(rt);
        let is_whole = {
            let mut held = self.held.lock(rt);
            output.take(&mut held);
            held.is_whole()
        };
        output.flush() && is_whole
    }

    /// Has the third thread send the lines that are held back, for this session of the object at this place. It
    /// does not wait for that.
    pub fn ask<R: Wait>(&self, rt: &R, at: usize, session: u32) {
        *self.wish.lock(rt) = Wish::Send(at, session);
        self.came.notify_all();
    }

    /// Has the third thread end.
    pub fn close<R: Wait>(&self, rt: &R) {
        *self.wish.lock(rt) = Wish::End;
        self.came.notify_all();
    }

    /// Waits until something is wished, and gives it. What is to be sent is wished once.
    pub fn wished<R: Wait>(&self, rt: &R) -> Wish {
        let mut wish = self.wish.lock(rt);
        for _ in rt.forever() {
            if *wish != Wish::Nothing {
                break;
            }
            wish = self.came.wait(rt, wish);
        }
        match *wish {
            Wish::End => Wish::End,
            _ => mem::replace(&mut *wish, Wish::Nothing),
        }
    }

    /// The writer, the notes, and how all went. Lines that are held back are lost, and `Broken` is told for them;
    /// `Mixed` is told where a line was said where it may not stand, or the last line of a call is missing.
    pub fn into_parts(self) -> (W, Vec<ReplyNote>, Health)
        ensures { IsSaid J.start (W.contents result.0) result.2 result.1.items }
    {
        let Mouth {
            held,
            output,
            wish: _,
            came: _,
        } = self;
        let mut held = held.into_inner();
        let mut output = output.into_inner();
        output.take(&mut held);
        if held.is_lost() {
            output.lose();
        }
        let (writer, notes, health) = output.into_parts();
        let health = with_held(health, &held);
        (writer, notes, health)
    }
}
