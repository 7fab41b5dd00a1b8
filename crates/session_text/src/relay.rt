//! What the second thread of a session hands to the first.

ghost use Rattle.std.specs.Prelude.{◌≡◌, ◌⊎◌, ◌↔◌, [], IsTrue, None, Some, true, false};
ghost use Rattle.std.specs.Bool.{OnTrue, OnFalse};
ghost use Rattle.session_text.specs.Ears.{ended_by};
ghost use Rattle.session_text.specs.Handing.{IsWanted, IsReady, Passes, TakesEar};

use crate::ear::Ear;
use crate::fault::HearFault;
use crate::session::Action;
use std::alloc::Global;
use std::io::Read;
use std::mem;
use std::sync::{Condvar, Mutex, Wait};

// What was heard and not done yet.
#[derive(Drop)]
struct PendingActions<I: Read + Drop> {
    // In the order of the lines.
    actions: Vec<Action>,
    // The reading side, where it was given back.
    ear: Option<Ear<I>>,
    // Whether the first thread has nothing to do.
    is_idle: bool,
    // Whether it does nothing more.
    is_over: bool,
    // Whether the second thread runs.
    is_there: bool,
}

impl<I: Read + Drop> PendingActions<I> {
    // Nothing was heard.
    fn new(alloc: Global) -> PendingActions<I>
        ensures actions { result.actions.items ≡ [] }
        ensures ear { result.ear ≡ None }
        ensures flags { (result.is_idle ≡ false) × (result.is_over ≡ false) × (result.is_there ≡ false) }
    {
        PendingActions {
            actions: Vec::new(alloc),
            ear: None,
            is_idle: false,
            is_over: false,
            is_there: false,
        }
    }

    // Whether the first thread wants the reading side.
    fn is_wanted(&self) -> bool
        ensures { IsTrue result ↔ IsWanted self.now.is_over self.now.is_idle self.now.actions.items }
    {
        self.is_over || self.is_idle && self.actions.is_empty()
    }

    // Whether the first thread has something to do or to take.
    fn is_ready(&self) -> bool
        ensures { IsTrue result ↔ IsReady self.now.actions.items self.now.ear }
    {
        !self.actions.is_empty() || self.ear.is_some()
    }

    // Adds what was heard behind all that was heard before it, and answers whether it did. Without memory nothing is
    // added, and nothing more is heard.
    fn pass(&mut self, action: Action, ear: &mut Ear<I>) -> bool
        ensures passed { Passes self.old.actions.items action result self.new.actions.items }
        ensures heard { OnTrue result (ear.new ≡ ear.old) }
        ensures refused { OnFalse result (ear.new ≡ ended_by (Some HearFault.Memory) ear.old) }
    {
        if self.actions.push(action).is_ok() {
            return true;
        }
        ear.end(Some(HearFault::Memory));
        false
    }

    // Takes all that was heard, in order.
    fn take(&mut self, alloc: Global) -> Vec<Action>
        ensures taken { result.items ≡ self.old.actions.items }
        ensures left { self.new.actions.items ≡ [] }
    {
        mem::replace(&mut self.actions, Vec::new(alloc))
    }

    // Takes the reading side, where it was given back and nothing is to be done before.
    fn take_ear(&mut self) -> Option<Ear<I>>
        ensures { TakesEar self.old.actions.items self.old.ear result self.new.ear }
    {
        if self.actions.is_empty() {
            self.ear.take()
        } else {
            None
        }
    }
}

/// What the second thread heard, and the reading side once it gives it back.
#[derive(Drop)]
pub struct Relay<I: Read + Drop> {
    pending: Mutex<PendingActions<I>>,
    came: Condvar,
}

impl<I: Read + Drop> Relay<I> {
    /// Nothing was heard.
    pub fn new(alloc: Global) -> Relay<I> {
        Relay {
            pending: Mutex::new(PendingActions::new(alloc)),
            came: Condvar::new(),
        }
    }

    /// The second thread runs.
    pub fn arrive<R: Wait>(&self, rt: &R) {
        self.pending.lock(rt).is_there = true;
    }

    /// Whether the second thread runs. It does not where no thread can be made, or not yet.
    pub fn is_there<R: Wait>(&self, rt: &R) -> bool {
        self.pending.lock(rt).is_there
    }

    /// Whether the first thread wants the reading side: it has nothing else to do, or it has ended.
    pub fn is_wanted<R: Wait>(&self, rt: &R) -> bool {
        self.pending.lock(rt).is_wanted()
    }

    /// Hands something over that the first thread is to do, which was heard by this reading side. Without memory it is
    /// not handed over, and nothing more is heard.
    pub fn pass<R: Wait>(&self, rt: &R, action: Action, ear: &mut Ear<I>)
        ensures { (ear.new ≡ ear.old) ⊎ (ear.new ≡ ended_by (Some HearFault.Memory) ear.old) }
    {
        if self.pending.lock(rt).pass(action, ear) {
            self.came.notify_all();
        }
    }

    /// Gives the reading side back.
    pub fn give_back<R: Wait>(&self, rt: &R, ear: Ear<I>) {
        self.pending.lock(rt).ear = Some(ear);
        self.came.notify_all();
    }

    /// What is to be done, in the order of the lines.
    pub fn taken<R: Wait>(&self, rt: &R, alloc: Global) -> Vec<Action> {
        self.pending.lock(rt).take(alloc)
    }

    /// Waits until there is something to be done, or else the reading side, which it takes.
    pub fn await_ear<R: Wait>(&self, rt: &R) -> Option<Ear<I>> {
        let mut pending = self.pending.lock(rt);
        pending.is_idle = true;
        for _ in rt.forever() {
            if pending.is_ready() {
                break;
            }
            pending = self.came.wait(rt, pending);
        }
        pending.is_idle = false;
        pending.take_ear()
    }

    /// The first thread does nothing more.
    pub fn end<R: Wait>(&self, rt: &R) {
        self.pending.lock(rt).is_over = true;
    }
}
