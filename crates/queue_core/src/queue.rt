//! The calls that wait, counted by operation.
//!
//! At each call of a desk it is asked which of them is next. As a rule none is, or the one that was just added, and the
//! counts tell that without a look at each.

ghost use Rattle.std.specs.Prelude.{◌≡◌, ◌≢◌, ◌↔◌, ℕ, ◌+◌, ◌<◌, ◌≤◌, [], ◌∷◌, ◌++◌, List, length, IfOk, IfSome, IfNone};
ghost use Rattle.std.specs.Prelude.{Some, IsTrue, slice_get, take, drop, filter, not, ◌==◌};
ghost use Rattle.path_tree.specs.Path.{Path};
ghost use Rattle.path_tree.specs.Trace.{Event};
ghost use Rattle.path_count.specs.Stands.{StandsFor};
ghost use Rattle.page_core.specs.Lists.{Every};
ghost use Rattle.page_core.specs.ObjectCalls.{WaitingCall};
ghost use Rattle.queue_core.specs.Starts.{IsFirst, CanStart, OpCanStart, AreRefused, OthersRest};
ghost use Rattle.queue_core.specs.Queue.{AreCounted};

use crate::open_call::Waiting;
use path_count::counters::Counters;
use path_tree::node::OpId;
use std::alloc::{AllocError, Global};
use std::marker::Model;

/// The most operations of an object.
const MOST_OPERATIONS: usize = 32;

/// The most calls that wait.
const MOST_WAITING: usize = 256;

/// The calls that wait, in the order of their numbers, and for each operation how many at most are of it.
#[derive(Drop)]
pub struct WaitingQueue {
    rows: Vec<Waiting>,
    counts: [u16; MOST_OPERATIONS],
}

impl Model for WaitingQueue {
    ghost use Rattle.std.specs.Prelude.{List};
    ghost use Rattle.page_core.specs.ObjectCalls.{WaitingCall};
    ghost use Rattle.decl_core.specs.contracts.object.Operation as e;
    ghost use Rattle.std.specs.Coded.{codes};

    ghost Value = { List WaitingCall };

    ghost coded = { Prim.hlevel (codes, e.the_row.coded) };

    ghost use Rattle.queue_core.specs.Queue.{calls_of, IsQueue};

    ghost view = { calls_of };

    ghost invariant = { IsQueue };
}

// One call more of this operation is counted.
fn count_in(counts: &mut [u16], op: OpId)
    requires { op < length counts.old }
    ensures each { length counts.new ≡ length counts.old }
    ensures counted { (waiting : List WaitingCall) (w : WaitingCall) → AreCounted waiting counts.old →
        length waiting < 65535 → w.call.op ≡ op → AreCounted (waiting ++ w ∷ []) counts.new }
{
    counts[op as usize] = counts[op as usize].saturating_add(1);
}

// One call less of this operation is counted.
fn count_out(counts: &mut [u16], op: OpId)
    requires { op < length counts.old }
    ensures each { length counts.new ≡ length counts.old }
    ensures counted { (waiting : List WaitingCall) (place : ℕ) (w : WaitingCall) → AreCounted waiting counts.old →
        slice_get waiting place ≡ Some w → w.call.op ≡ op →
        AreCounted (take place waiting ++ drop (place + 1) waiting) counts.new }
{
    counts[op as usize] = counts[op as usize].saturating_sub(1);
}

// The counts of these calls.
fn counts_of(rows: &[Waiting]) -> [u16; MOST_OPERATIONS]
    requires few { length rows.now ≤ 256 }
    requires each { Every (λ w. w.call.op < 32) rows.now }
    ensures { AreCounted rows.now result }
{
    let mut counts = [0; MOST_OPERATIONS];
    for place in 0..rows.len() {
        count_in(&mut counts, rows[place].op());
    }
    counts
}

// Whether a call of this operation can start. An operation that was refused is not asked again.
fn asks(counters: &Counters, refused: &mut [bool], op: OpId) -> bool
    ensures answer { (n : ℕ) (paths : List Path) (t : List Event) → StandsFor counters.now n paths t →
        AreRefused n paths t refused.old → (IsTrue result ↔ OpCanStart n paths t op) }
    ensures refused { (n : ℕ) (paths : List Path) (t : List Event) → StandsFor counters.now n paths t →
        AreRefused n paths t refused.old → AreRefused n paths t refused.new }
{
    let place = op as usize;
    if place >= refused.len() {
        return counters.can_start(op);
    }
    if refused[place] {
        return false;
    }
    let can = counters.can_start(op);
    refused[place] = !can;
    can
}

// The place of the first waiting call that can start.
fn first_to_start(counters: &Counters, waiting: &[Waiting]) -> Option<usize>
    ensures some { (n : ℕ) (paths : List Path) (t : List Event) → StandsFor counters.now n paths t →
        IfSome result (IsFirst n paths t waiting.now) }
    ensures none { (n : ℕ) (paths : List Path) (t : List Event) → StandsFor counters.now n paths t →
        IfNone result (Every (λ w. CanStart n paths t w → ⊥) waiting.now) }
{
    let mut refused = [false; MOST_OPERATIONS];
    for place in 0..waiting.len() {
        if asks(counters, &mut refused, waiting[place].op()) {
            return Some(place);
        }
    }
    None
}

// Whether this operation is another one than the last call's, has calls, and can start.
fn can_pass(counters: &Counters, count: u16, op: OpId, last: OpId) -> bool
    ensures { (n : ℕ) (paths : List Path) (t : List Event) → StandsFor counters.now n paths t →
        (IsTrue result ↔ ((count ≢ 0) × (op ≢ last) × OpCanStart n paths t op)) }
{
    if count == 0 {
        return false;
    }
    if op == last {
        return false;
    }
    counters.can_start(op)
}

// Whether no operation but that of the last call has calls that can start.
fn others_rest(counters: &Counters, counts: &[u16; MOST_OPERATIONS], last: OpId) -> bool
    ensures { (n : ℕ) (paths : List Path) (t : List Event) → StandsFor counters.now n paths t → IsTrue result →
        OthersRest n paths t counts.now last }
{
    for op in 0..MOST_OPERATIONS {
        if can_pass(counters, counts[op], op as OpId, last) {
            return false;
        }
    }
    true
}

// The place of the first of these calls that can start. Each is looked at only where one before the last might.
fn next_of(counters: &Counters, rows: &[Waiting], counts: &[u16; MOST_OPERATIONS]) -> Option<usize>
    requires { AreCounted rows.now counts.now }
    ensures some { (n : ℕ) (paths : List Path) (t : List Event) → StandsFor counters.now n paths t →
        IfSome result (IsFirst n paths t rows.now) }
    ensures none { (n : ℕ) (paths : List Path) (t : List Event) → StandsFor counters.now n paths t →
        IfNone result (Every (λ w. CanStart n paths t w → ⊥) rows.now) }
{
    if rows.len() == 0 {
        return None;
    }
    let last = rows[rows.len() - 1].op();
    if !others_rest(counters, counts, last) {
        return first_to_start(counters, rows);
    }
    if !counters.can_start(last) {
        return None;
    }
    if counts[last as usize] > 1 {
        return first_to_start(counters, rows);
    }
    Some(rows.len() - 1)
}

impl WaitingQueue {
    /// No calls, and room for as many as may wait.
    pub fn new(alloc: Global) -> Result<WaitingQueue, AllocError>
        ensures { IfOk result (λ q. q ≡ []) }
    {
        let rows = Vec::with_capacity(alloc, MOST_WAITING)?;
        Ok(WaitingQueue {
            rows,
            counts: [0; MOST_OPERATIONS],
        })
    }

    /// How many there are.
    pub fn len(&self) -> usize
        ensures { result ≡ length self.now }
    {
        self.rows.len()
    }

    /// All of them.
    pub fn calls(&self) -> &[Waiting]
        ensures { result.now ≡ self.now }
    {
        &self.rows
    }

    /// The place of the first that can start.
    pub fn next(&self, counters: &Counters) -> Option<usize>
        ensures some { (n : ℕ) (paths : List Path) (t : List Event) → StandsFor counters.now n paths t →
            IfSome result (IsFirst n paths t self.now) }
        ensures none { (n : ℕ) (paths : List Path) (t : List Event) → StandsFor counters.now n paths t →
            IfNone result (Every (λ w. CanStart n paths t w → ⊥) self.now) }
    {
        next_of(counters, &self.rows, &self.counts)
    }

    /// One call more waits.
    pub fn push(&mut self, asked: Waiting)
        requires few { length self.old < 256 }
        requires op { asked.call.op < 32 }
        ensures { self.new ≡ self.old ++ asked ∷ [] }
    {
        count_in(&mut self.counts, asked.op());
        self.rows.push_reserved(asked);
    }

    /// Takes out the call at this place.
    pub fn take(&mut self, place: usize) -> Waiting
        requires { place < length self.old }
        ensures rest { self.new ≡ take place self.old ++ drop (place + 1) self.old }
        ensures call { (w : WaitingCall) → slice_get self.old place ≡ Some w → result ≡ w }
    {
        let asked = self.rows.remove(place);
        count_out(&mut self.counts, asked.op());
        asked
    }

    /// Takes out the call of this number.
    pub fn leave(&mut self, number: u32)
        ensures { self.new ≡ filter (λ w. not (w.number == number)) self.old }
    {
        self.rows.retain(|w| w.number() != number);
        self.counts = counts_of(&self.rows);
    }

    /// Takes out the calls of this session.
    pub fn leave_of(&mut self, session: u32)
        ensures { self.new ≡ filter (λ w. not (w.call.session == session)) self.old }
    {
        self.rows.retain(|w| w.session() != session);
        self.counts = counts_of(&self.rows);
    }
}
