//! Whether a call would start, before it is submitted.

ghost use Rattle.std.specs.Prelude.{◌≡◌, ◌↔◌, ◌⊎◌, IsTrue};
ghost use Rattle.std.specs.Bool.{OnTrue, OnFalse};

use decl_core::analyse::Accepted;
use decl_core::object::Operation;
use path_tree::node::OpId;
use std::sync::Arc;

// The most operations that an object has.
const OPERATIONS: usize = 32;

/// When a call is best submitted. It is advice: whenever it is submitted, the paths decide when it starts.
#[derive(Clone, Copy, Drop)]
pub enum Pace {
    /// Now: no running call is known with which it conflicts.
    Now,
    /// When the running call with which it conflicts has ended, which lasts some microseconds.
    Soon,
    /// When the running call with which it conflicts has ended, and its turn has come: it conflicts with calls of its
    /// own operation too, which come one after another.
    InTurn,
}

/// The call that runs now of an operation that conflicts with itself. Of such calls, at most one runs of an operation;
/// of several operations the one that started last is meant.
#[derive(Drop)]
pub struct Turns {
    // For each operation those with which it conflicts, a bit each.
    conflicts: [u32; OPERATIONS],
    // The call's number, or 0.
    number: u32,
    // Its operation.
    op: usize,
}

// The bits with one more.
fn with_bit(bits: u32, at: usize) -> u32 {
    if at < OPERATIONS {
        bits | 1u32 << at
    } else {
        bits
    }
}

// Whether a bit is set.
fn has_bit(bits: u32, at: usize) -> bool {
    at < OPERATIONS && (bits >> at) & 1 == 1
}

// The place of the first operation of this name.
fn place_named(operations: &[Arc<Operation>], name: &[u8]) -> Option<usize> {
    for (place, operation) in operations.iter().enumerate() {
        if operation.name.is_spelled_by(name) {
            return Some(place);
        }
    }
    None
}

impl Turns {
    /// No call runs.
    pub fn new(accepted: &Accepted) -> Turns
        ensures { result.number ≡ 0 }
    {
        let mut turns = Turns {
            conflicts: [0; OPERATIONS],
            number: 0,
            op: 0,
        };
        for entry in &accepted.certificate().entries {
            turns.add(entry.first, entry.second);
            turns.add(entry.second, entry.first);
        }
        turns
    }

    // Two operations that conflict.
    fn add(&mut self, op: usize, other: usize)
        ensures { self.new.number ≡ self.old.number }
    {
        if let Some(bits) = self.conflicts.get_mut(op) {
            *bits = with_bit(*bits, other);
        }
    }

    // Whether two operations conflict.
    fn conflict(&self, op: usize, other: usize) -> bool {
        match self.conflicts.get(op) {
            Some(bits) => has_bit(*bits, other),
            None => false,
        }
    }

    /// A call started. One of an operation that does not conflict with itself changes nothing.
    pub fn note_start(&mut self, number: u32, op: OpId)
        ensures { (self.new ≡ self.old) ⊎ ((self.new.number ≡ number) × (self.new.conflicts ≡ self.old.conflicts)) }
    {
        let op = op as usize;
        if self.conflict(op, op) {
            self.number = number;
            self.op = op;
        }
    }

    /// A call ended. It answers whether it was the one that is meant.
    pub fn note_end(&mut self, number: u32) -> bool
        ensures meant { IsTrue result ↔ (self.old.number ≡ number) }
        ensures open { OnTrue result (self.new.number ≡ 0) }
        ensures same { OnFalse result (self.new ≡ self.old) }
    {
        if self.number != number {
            return false;
        }
        self.number = 0;
        true
    }

    /// Whether no such call runs.
    pub fn is_open(&self) -> bool
        ensures { IsTrue result ↔ (self.now.number ≡ 0) }
    {
        self.number == 0
    }

    /// When a call of the operation of this name is best submitted: now, where no call is known to run.
    pub fn pace(&self, operations: &[Arc<Operation>], name: &[u8]) -> Pace
        ensures { self.now.number ≡ 0 → result ≡ Pace.Now }
    {
        if self.is_open() {
            return Pace::Now;
        }
        let Some(op) = place_named(operations, name) else {
            return Pace::Now;
        };
        if !self.conflict(op, self.op) {
            return Pace::Now;
        }
        if self.conflict(op, op) {
            Pace::InTurn
        } else {
            Pace::Soon
        }
    }
}
