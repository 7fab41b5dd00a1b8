//! What the steps of a schedule answer, as they come about.

ghost use Rattle.std.specs.Prelude.{◌≤◌, ◌<◌, length, IfSome};

use crate::steps::{LoopCall, ScheduleStep, StepResult};
use keep_loop::ReadEnd;
use std::alloc::AllocError;

/// A schedule, and how far it is.
#[derive(Drop)]
pub struct Schedule {
    steps: Vec<ScheduleStep>,
    // So many have come about.
    there: usize,
    // Of so many of them it was told who can be read or written.
    told: usize,
    // The numbers of the connections that were taken, in order.
    taken: Vec<u64>,
}

// What a step answers.
#[derive(Clone, Copy)]
pub struct PlannedAnswer {
    pub how: StepResult,
    pub at: usize,
    pub number: usize,
}

impl Schedule {
    pub fn new(steps: Vec<ScheduleStep>, taken: Vec<u64>) -> Schedule {
        Schedule {
            steps,
            there: 0,
            told: 0,
            taken,
        }
    }

    // Whether the step at a place has come about, and answers this.
    fn answers(&self, at: usize, call: LoopCall, place: usize) -> bool {
        match self.steps.get(at) {
            Some(step) => step.call == call && step.place == place && !step.is_done,
            None => false,
        }
    }

    // The first step that answers this.
    fn find(&self, call: LoopCall, place: usize) -> Option<usize> {
        for at in 0..self.there {
            if self.answers(at, call, place) {
                return Some(at);
            }
        }
        None
    }

    /// What the first step says that answers this, which it does once.
    pub fn answer(&mut self, call: LoopCall, place: usize) -> Option<PlannedAnswer> {
        let at = self.find(call, place)?;
        let step = self.steps.get_mut(at)?;
        step.is_done = true;
        Some(PlannedAnswer {
            how: step.how,
            at,
            number: step.number,
        })
    }

    /// Whether a step says that this fails, or does not.
    pub fn refuses(&mut self, call: LoopCall, place: usize) -> Option<StepResult> {
        let answer = self.answer(call, place)?;
        Some(answer.how)
    }

    // The place of a connection.
    fn place_of(&self, who: u64) -> Option<usize> {
        self.taken.iter().position(|taken| *taken == who)
    }

    /// All steps come about up to the next one that waits.
    pub fn go_on(&mut self) {
        for at in self.there..self.steps.len() {
            self.there = at + 1;
            if self.answers(at, LoopCall::Wait, 0) {
                return;
            }
        }
    }

    // The connection of a step that tells of one.
    fn who_at(&self, at: usize) -> Option<u64> {
        let step = self.steps.get(at)?;
        match step.call {
            LoopCall::Read | LoopCall::Write => Some(*self.taken.get(step.place)?),
            _ => None,
        }
    }

    /// The connection of the next step that was not told of.
    pub fn next(&mut self) -> Option<u64> {
        for at in self.told..self.there {
            self.told = at + 1;
            if let Some(who) = self.who_at(at) {
                return Some(who);
            }
        }
        None
    }

    /// Whether a connection comes. What came of it before is told of from now on.
    pub fn comes(&mut self, who: u64) -> bool {
        let Some(
            PlannedAnswer {
                how: StepResult::Goes,
                ..
            },
        ) = self.answer(LoopCall::Accept, 0)
        else {
            return false;
        };
        self.told = 0;
        self.taken.push(who).is_ok()
    }

    /// Reads once, in place of what is in `piece`.
    pub fn read(&mut self, who: u64, piece: &mut Vec<u8>) -> Result<ReadEnd, AllocError> {
        piece.clear();
        let Some(place) = self.place_of(who) else {
            return Ok(ReadEnd::Broken);
        };
        let Some(answer) = self.answer(LoopCall::Read, place) else {
            return Ok(ReadEnd::NoMore);
        };
        match answer.how {
            StepResult::Ends => return Ok(ReadEnd::Ended),
            StepResult::Fails => return Ok(ReadEnd::Broken),
            StepResult::Goes => {}
        }
        if let Some(step) = self.steps.get(answer.at) {
            piece.extend_from_slice(&step.bytes)?;
        }
        match self.find(LoopCall::Read, place) {
            Some(_) => Ok(ReadEnd::More),
            None => Ok(ReadEnd::NoMore),
        }
    }

    /// How many bytes a write of so many takes, or `None` where it is refused.
    pub fn write(&mut self, who: u64, most: usize) -> Option<usize>
        ensures { IfSome result (λ n. n ≤ most) }
    {
        let place = self.place_of(who)?;
        match self.answer(LoopCall::Write, place) {
            None => Some(most),
            Some(answer) => match answer.how {
                StepResult::Goes => Some(answer.number.min(most)),
                StepResult::Ends | StepResult::Fails => None,
            },
        }
    }

    // Whether the step at a place says that a connection sends no more.
    fn ends_at(&self, at: usize, place: usize) -> bool {
        match self.steps.get(at) {
            Some(step) => step.how != StepResult::Goes && self.answers(at, LoopCall::Read, place),
            None => false,
        }
    }

    /// Whether a connection sends no more.
    pub fn is_over(&self, who: u64) -> bool {
        let Some(place) = self.place_of(who) else {
            return true;
        };
        for at in 0..self.there {
            if self.ends_at(at, place) {
                return true;
            }
        }
        false
    }

    /// Whether the server is to end.
    pub fn ends(&mut self) -> bool {
        self.answer(LoopCall::End, 0).is_some() || self.there >= self.steps.len()
    }
}
