//! The reading side of a session, as the first thread has it: in its hands, or lent to the second thread.

ghost use Rattle.std.specs.Prelude.{◌≡◌, None, Some};
ghost use Rattle.std.specs.Bool.{OnTrue, OnFalse};
ghost use Rattle.session_text.specs.Ears.{each, opened_at, HearsIn, ReadsIn};

use crate::bell::Bell;
use crate::ear::{Ear, Heard};
use crate::relay::Relay;
use crate::session::Action;
use crossbeam_channel::{SendError, Sender};
use std::alloc::Global;
use std::io::Read;
use std::sync::Wait;

/// The reading side, where it is not lent.
#[derive(Drop)]
pub struct ReadingSide<'a, I: Read + Drop> {
    ear: Option<Ear<I>>,
    // The object that is opened, by its place, and the session there.
    opened: Option<(usize, u32)>,
    to: Sender<Ear<I>>,
    relay: &'a Relay<I>,
    bell: &'a Bell,
}

impl<'a, I: Read + Drop> ReadingSide<'a, I> {
    /// It is in the first thread's hands.
    pub fn new(
        ear: Ear<I>,
        to: Sender<Ear<I>>,
        relay: &'a Relay<I>,
        bell: &'a Bell,
    ) -> ReadingSide<'a, I>
        ensures ear { result.ear ≡ Some ear }
        ensures opened { result.opened ≡ None }
    {
        ReadingSide {
            ear: Some(ear),
            opened: None,
            to,
            relay,
            bell,
        }
    }

    /// Whether the session is to end.
    pub fn is_stopped(&self) -> bool {
        self.bell.has_rung()
    }

    /// The object that is opened, by its place, and the session there.
    pub fn opened(&self) -> Option<(usize, u32)>
        ensures { result ≡ self.now.opened }
    {
        self.opened
    }

    /// An object was opened.
    pub fn set_opened(&mut self, at: usize, session: u32)
        ensures opened { self.new.opened ≡ Some (at, session) }
        ensures ear { self.new.ear ≡ each (opened_at (at, session)) self.old.ear }
    {
        self.opened = Some((at, session));
        if let Some(ear) = &mut self.ear {
            ear.set_opened(at, session);
        }
    }

    /// What is heard next, where it is not lent.
    pub fn hear(&mut self, alloc: Global) -> Option<Heard>
        ensures heard { HearsIn self.old.ear result self.new.ear }
        ensures opened { self.new.opened ≡ self.old.opened }
    {
        match &mut self.ear {
            Some(ear) => Some(ear.hear(alloc)),
            None => None,
        }
    }

    /// Reads once, where it is not lent.
    pub fn read(&mut self)
        ensures read { ReadsIn self.old.ear self.new.ear }
        ensures opened { self.new.opened ≡ self.old.opened }
    {
        if let Some(ear) = &mut self.ear {
            ear.read();
        }
    }

    /// Lends it to the second thread, where that runs. It answers whether the second thread has it.
    pub fn lend<R: Wait>(&mut self, rt: &R) -> bool
        ensures lent { OnTrue result (self.new.ear ≡ None) }
        ensures kept { OnFalse result (self.new.ear ≡ self.old.ear) }
        ensures opened { self.new.opened ≡ self.old.opened }
    {
        if !self.relay.is_there(rt) {
            return false;
        }
        let Some(ear) = self.ear.take() else {
            return true;
        };
        match self.to.send(rt, ear) {
            Ok(()) => true,
            Err(SendError::Disconnected(back)) | Err(SendError::OutOfMemory(back)) => {
                self.ear = Some(back);
                false
            }
        }
    }

    /// What the second thread handed over, in order.
    pub fn taken<R: Wait>(&self, rt: &R, alloc: Global) -> Vec<Action> {
        self.relay.taken(rt, alloc)
    }

    /// Waits until the second thread hands something over or gives the reading side back.
    pub fn await_ear<R: Wait>(&mut self, rt: &R)
        ensures { self.new.opened ≡ self.old.opened }
    {
        self.ear = self.relay.await_ear(rt);
    }

    /// The first thread does nothing more.
    pub fn over<R: Wait>(&self, rt: &R) {
        self.relay.end(rt);
    }
}
