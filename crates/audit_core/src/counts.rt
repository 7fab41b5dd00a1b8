//! What the paths of an object have counted, of all paths together and of each by itself.

ghost use Rattle.std.specs.Prelude.{◌≡◌, ℕ, ◌+◌, ◌<◌, List, [], ◌∷◌, IfOk, IfSome, MatchOption, IsTrue, ◌↔◌};
ghost use Rattle.path_tree.specs.Path.{Path};
ghost use Rattle.path_tree.specs.Trace.{Call, Event, Start, End, IsFresh, running_calls};
ghost use Rattle.path_tree.specs.Satisfies.{MayStart};
ghost use Rattle.path_count.specs.Stands.{StandsFor, started_calls};
ghost use Rattle.path_count.specs.Past.{events_of, AreBefore};
ghost use Rattle.audit_core.specs.Counting.{AreCounters, AllMayStart, RefusesFirst};
ghost use Rattle.audit_core.specs.Counts.{Counted};

use crate::counters::{finish_each, refusing, start_each};
use path_count::counters::Counters;
use path_count::past::{PastEvent, counters_behind};
use path_tree::node::OpId;
use path_tree::tree::PathTree;
use std::alloc::{AllocError, Global};

// What paths have counted.
#[derive(Drop)]
pub(crate) struct Counts {
    // of all paths together
    all: Counters,
    // of each path by itself
    each: Vec<Counters>,
}

// For each of these paths its counters behind a past. `None`: a path did not let it happen.
fn each_behind(
    alloc: Global,
    paths: &[PathTree],
    n_ops: OpId,
    past: &[PastEvent],
) -> Result<Option<Vec<Counters>>, AllocError>
    ensures { IfOk result (λ found. IfSome found (λ v. AreCounters v.items n_ops paths.now (events_of past.now))) }
{
    let mut all = Vec::new(alloc);
    for place in 0..paths.len() {
        let Some(counters) = counters_behind(alloc, &paths[place..place + 1], n_ops, past)? else {
            return Ok(None);
        };
        all.push(counters)?;
    }
    Ok(Some(all))
}

// Counts a start of an operation and its finish.
fn pass(counters: &mut Counters, op: OpId)
    ensures { (n : ℕ) (paths : List Path) (t : List Event) (call : Call) → StandsFor counters.old n paths t →
        call.operation ≡ op → op < n → MayStart paths op t → started_calls t < 65536 → IsFresh call.number t →
        StandsFor counters.new n paths (End call ∷ Start call ∷ t) }
{
    counters.start(op);
    counters.finish(op);
}

// Counts a start of an operation and its finish, for each path.
fn pass_each(each: &mut [Counters], op: OpId)
    ensures { (n : ℕ) (paths : List Path) (t : List Event) (call : Call) → AreCounters each.old n paths t →
        call.operation ≡ op → op < n → AllMayStart paths op t → started_calls t < 65536 → IsFresh call.number t →
        AreCounters each.new n paths (End call ∷ Start call ∷ t) }
{
    start_each(each, op);
    finish_each(each, op);
}

impl Counts {
    // What these paths have counted of a past, for the operations below `n_ops`. `None`: they did not let it happen,
    // more than 65,536 calls start in it, or a call runs at its end. The error is that memory was refused.
    pub(crate) fn behind(
        alloc: Global,
        paths: &[PathTree],
        n_ops: OpId,
        past: &[PastEvent],
    ) -> Result<Option<Counts>, AllocError>
        ensures counted { IfOk result (λ found. IfSome found (λ c.
            Counted c.all c.each.items n_ops paths.now (events_of past.now))) }
        ensures quiet { IfOk result (λ found. IfSome found (λ c. running_calls (events_of past.now) ≡ [])) }
        ensures before { AreBefore (events_of past.now) }
    {
        let Some(all) = counters_behind(alloc, paths, n_ops, past)? else {
            return Ok(None);
        };
        let Some(each) = each_behind(alloc, paths, n_ops, past)? else {
            return Ok(None);
        };
        Ok(Some(Counts { all, each }))
    }

    // Whether no further call may start, since 65,536 have.
    pub(crate) fn is_spent(&self) -> bool
        ensures { (n : ℕ) (paths : List Path) (t : List Event) → Counted self.now.all self.now.each.items n paths t →
            (IsTrue result ↔ (started_calls t ≡ 65536)) }
    {
        self.all.spent()
    }

    // The number, counted from 1, of the first path that refuses a start of the operation.
    pub(crate) fn refusing(&self, op: OpId) -> Option<usize>
        ensures { (n : ℕ) (paths : List Path) (t : List Event) → Counted self.now.all self.now.each.items n paths t →
            op < n → MatchOption result (AllMayStart paths op t) (λ number. (place : ℕ) × (number ≡ place + 1)
            × RefusesFirst paths op t place) }
    {
        refusing(&self.each, op)
    }

    // Counts a call of the operation, which every path admits.
    pub(crate) fn pass(&mut self, op: OpId)
        ensures { (n : ℕ) (paths : List Path) (t : List Event) (call : Call) →
            Counted self.old.all self.old.each.items n paths t →
            call.operation ≡ op → op < n → AllMayStart paths op t → started_calls t < 65536 → IsFresh call.number t →
            Counted self.new.all self.new.each.items n paths (End call ∷ Start call ∷ t) }
    {
        pass(&mut self.all, op);
        pass_each(&mut self.each, op);
    }

    // The counters of all paths.
    pub(crate) fn all(self) -> Counters
        ensures { result ≡ self.all }
    {
        self.all
    }
}
