//! What is outside of a loop, as a schedule says.

ghost use Rattle.std.specs.Prelude.{◌≡◌, [], Some};
ghost use Rattle.keep_loop.specs.Seen.{Grows};
ghost use Rattle.schedule_trial.specs.Told.{event_of, seen_of};

use crate::plan::Schedule;
use crate::rows::{EventKind, EventRow, kind_of, note};
use crate::steps::{LoopCall, StepResult};
use keep_loop::{Fault, Outside, ReadEnd};
use std::alloc::{AllocError, Global};

/// A schedule, and what was seen, the oldest first.
#[derive(Drop)]
pub struct Fake {
    alloc: Global,
    plan: Schedule,
    rows: Option<Vec<EventRow>>,
}

impl Fake {
    /// A schedule of which nothing has happened.
    pub fn new(alloc: Global, plan: Schedule) -> Fake
        ensures { seen_of result.rows ≡ Some [] }
    {
        Fake {
            alloc,
            plan,
            rows: Some(Vec::new(alloc)),
        }
    }

    /// What was seen, the oldest first. `None`: memory was refused, and it is not known.
    pub fn rows(&self) -> Option<&[EventRow]> {
        match &self.rows {
            Some(rows) => Some(rows.as_slice()),
            None => None,
        }
    }

    // One thing more happened.
    fn note(&mut self, kind: EventKind, number: u64, bytes: &[u8])
        ensures { Grows (event_of kind number bytes.now) (seen_of self.old.rows) (seen_of self.new.rows) }
    {
        note(self.alloc, &mut self.rows, kind, number, bytes);
    }
}

impl Outside for Fake {
    ghost seen = { λ f. seen_of f.rows };

    fn wait(&mut self, _idle: bool) {
        self.plan.go_on();
    }

    fn next(&mut self) -> Option<u64> {
        self.plan.next()
    }

    fn accept(&mut self, who: u64) -> bool {
        if !self.plan.comes(who) {
            return false;
        }
        self.note(EventKind::Joins, who, &[]);
        true
    }

    fn read(&mut self, who: u64, piece: &mut Vec<u8>) -> Result<ReadEnd, AllocError> {
        let read = self.plan.read(who, piece)?;
        self.note(kind_of(read), who, piece);
        Ok(read)
    }

    fn is_over(&mut self, who: u64) -> bool {
        if !self.plan.is_over(who) {
            return false;
        }
        self.note(EventKind::Broke, who, &[]);
        true
    }

    fn write(&mut self, who: u64, bytes: &[u8]) -> Option<usize> {
        let n = self.plan.write(who, bytes.len())?;
        self.note(EventKind::Wrote, who, &bytes[..n]);
        Some(n)
    }

    fn leave(&mut self, who: u64) {
        self.note(EventKind::Leaves, who, &[]);
    }

    fn close(&mut self, _who: u64) {}

    fn tick(&mut self) -> Option<u64> {
        let answer = self.plan.answer(LoopCall::Tick, 0)?;
        let time = answer.number as u64;
        self.note(EventKind::Ticks, time, &[]);
        Some(time)
    }

    fn ends(&mut self) -> bool {
        if !self.plan.ends() {
            return false;
        }
        self.note(EventKind::Ends, 0, &[]);
        true
    }

    fn is_sync_due(&mut self) -> bool {
        self.plan.refuses(LoopCall::Due, 0).is_some()
    }

    fn append(&mut self, journal: usize, lines: &[u8]) -> Result<(), Fault> {
        self.note(EventKind::Added, journal as u64, lines);
        match self.plan.refuses(LoopCall::Append, journal) {
            None => Ok(()),
            Some(_) => Err(Fault::Journal(journal)),
        }
    }

    fn sync(&mut self, journal: usize) -> Result<(), Fault> {
        if self.plan.refuses(LoopCall::Sync, journal).is_some() {
            return Err(Fault::Journal(journal));
        }
        self.note(EventKind::Stored, journal as u64, &[]);
        Ok(())
    }

    fn change(&mut self, journal: usize, front: &[u8]) -> Result<bool, Fault> {
        let refuses = self.plan.refuses(LoopCall::Change, journal);
        if let Some(StepResult::Ends) = refuses {
            return Ok(false);
        }
        self.note(EventKind::Changed, journal as u64, front);
        match refuses {
            None => Ok(true),
            Some(_) => Err(Fault::Journal(journal)),
        }
    }
}
