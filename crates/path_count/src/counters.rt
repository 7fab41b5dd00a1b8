//! The counters of an object.

ghost use Rattle.std.specs.Prelude.{◌≡◌, ◌∷◌, false, List, [], ℕ, ◌-◌, ◌<◌, ◌≤◌, ◌↔◌, IsTrue, IfOk};
ghost use Rattle.path_tree.specs.Path.{Path};
ghost use Rattle.path_tree.specs.Trace.{Event, Call, Start, End, starts, ends, IsFresh, IsAmong, running_calls};
ghost use Rattle.path_tree.specs.Satisfies.{MayStart};
ghost use Rattle.path_count.specs.Stands.{StandsFor, started_calls};

use crate::compile::{no_calls, operations, zeros};
use crate::object::{OperationPrograms, all_admit, finish_all, start_all};
use path_tree::node::OpId;
use path_tree::tree::PathTree;
use std::alloc::{AllocError, Global};
use std::marker::Model;

/// How many starts counters take in all.
pub const MOST_STARTS: u32 = 65_536;

/// What the paths of an object have counted of a trace: for each operation, whether it may start now,
/// and how many of its calls run. A contract says for which traces the counters stand.
#[derive(Drop)]
pub struct Counters {
    words: Vec<u64>,
    operations: Vec<OperationPrograms>,
    running: Vec<u32>,
    taken: u32,
}

impl Model for Counters {
    ghost use Rattle.std.specs.Prelude.{ℕ, List};
    ghost use Rattle.path_tree.specs.Path.{Path};
    ghost use Rattle.path_tree.specs.Trace.{Event};
    ghost use Rattle.path_count.specs.State.{State};

    ghost Value = { State };

    ghost use Rattle.path_count.specs.View.{state_of};
    ghost use Rattle.path_count.specs.Stands.{StandsFor};

    ghost view = { state_of };

    ghost invariant = { λ a. (n : ℕ) × (paths : List Path) × (t : List Event) × StandsFor (state_of a) n paths t };
}

impl Counters {
    /// Whether every path admits a start of the operation now. No operation from `n_ops` on may start.
    pub fn can_start(&self, op: OpId) -> bool
        ensures { (n : ℕ) (paths : List Path) (t : List Event) → StandsFor self.now n paths t →
            (IsTrue result ↔ ((op < n) × MayStart paths op t)) }
    {
        let at = op as usize;
        at < self.operations.len() && all_admit(&self.operations[at].starts, &self.words)
    }

    /// Takes a start of the operation where every path admits it and fewer than 65,536 starts were
    /// taken. It answers false where not, and then changes nothing.
    pub fn start(&mut self, op: OpId) -> bool
        ensures answer { (n : ℕ) (paths : List Path) (t : List Event) → StandsFor self.old n paths t →
            (IsTrue result ↔ ((op < n) × MayStart paths op t × (started_calls t < 65536))) }
        ensures taken { IsTrue result → (n : ℕ) (paths : List Path) (t : List Event) (call : Call) →
            StandsFor self.old n paths t →
            call.operation ≡ op → IsFresh call.number t → StandsFor self.new n paths (Start call ∷ t) }
        ensures refused { result ≡ false → self.new ≡ self.old }
    {
        let at = op as usize;
        if self.taken >= MOST_STARTS || at >= self.operations.len() {
            return false;
        }
        let programs = &self.operations[at].starts;
        if !all_admit(programs, &self.words) {
            return false;
        }
        start_all(programs, &mut self.words);
        self.running[at] += 1;
        self.taken += 1;
        true
    }

    /// Takes a finish of the operation where a call of it runs. It answers false where none does, and
    /// then changes nothing.
    pub fn finish(&mut self, op: OpId) -> bool
        ensures answer { (n : ℕ) (paths : List Path) (t : List Event) → StandsFor self.old n paths t →
            (IsTrue result ↔ ((op < n) × (ends op t < starts op t))) }
        ensures ended { IsTrue result → (n : ℕ) (paths : List Path) (t : List Event) (call : Call) →
            StandsFor self.old n paths t →
            call.operation ≡ op → IsAmong call (running_calls t) → StandsFor self.new n paths (End call ∷ t) }
        ensures refused { result ≡ false → self.new ≡ self.old }
    {
        let at = op as usize;
        if at >= self.operations.len() || self.running[at] == 0 {
            return false;
        }
        finish_all(&self.operations[at].finishes, &mut self.words);
        self.running[at] -= 1;
        true
    }

    /// How many calls of the operation run now: at most 65,536, and none of an operation from `n_ops` on.
    pub fn running(&self, op: OpId) -> u32
        ensures known { (n : ℕ) (paths : List Path) (t : List Event) → StandsFor self.now n paths t →
            op < n → result ≡ starts op t - ends op t }
        ensures unknown { (n : ℕ) (paths : List Path) (t : List Event) → StandsFor self.now n paths t →
            n ≤ op → result ≡ 0 }
    {
        let at = op as usize;
        if at >= self.running.len() {
            return 0;
        }
        self.running[at]
    }

    /// What they hold: for each bound and each burst how many of its activations are open, and for each semicolon how many
    /// finishes no start has used, in the order of the paths.
    pub fn words(&self) -> &[u64]
        ensures { result.now ≡ self.now.words }
    {
        &self.words
    }

    /// Whether other counters have counted the same: of two traces that leave the same counters, what may follow the one
    /// may follow the other.
    pub fn leaves_same(&self, other: &Counters) -> bool
        ensures { IsTrue result ↔ (self.now.words ≡ other.now.words) }
    {
        self.words == other.words
    }

    /// Whether 65,536 starts were taken, so that no further one will be.
    pub fn spent(&self) -> bool
        ensures { (n : ℕ) (paths : List Path) (t : List Event) → StandsFor self.now n paths t →
            (IsTrue result ↔ (started_calls t ≡ 65536)) }
    {
        self.taken == MOST_STARTS
    }
}

/// Counters of these paths before any call, for the operations below `n_ops`. It fails only with memory.
pub fn compile(alloc: Global, paths: &[PathTree], n_ops: OpId) -> Result<Counters, AllocError>
    ensures { IfOk result (λ c. StandsFor c n_ops paths.now []) }
{
    let words = zeros(alloc, paths, &[])?;
    let operations = operations(alloc, paths, &[], n_ops)?;
    let running = no_calls(alloc, n_ops)?;
    Ok(Counters {
        words,
        operations,
        running,
        taken: 0,
    })
}
