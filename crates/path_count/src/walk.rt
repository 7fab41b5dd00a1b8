//! The numbers by which the walk of a long past is seen to come back to where it was: for each bound and each burst how
//! many of its activations are open, for each turn of a sequence how many finishes no start has used, and for each
//! operation how many of its calls run.
//!
//! They are those of path_count, whose own lie inside `Counters` with what stands behind them; here nothing stands
//! behind them, and no clause speaks of them. What is found by them is played again by path_count.

use crate::past::PastEvent;
use path_tree::node::{Members, Node, OpId};
use path_tree::tree::PathTree;
use std::alloc::{AllocError, Global};

// The operation of an event.
fn operation_of(event: PastEvent) -> OpId {
    match event {
        PastEvent::Start(op) => op,
        PastEvent::End(op) => op,
    }
}

// One more at a place, where there is one.
fn add_one(words: &mut [u64], at: usize) {
    if at < words.len() {
        words[at] = words[at].saturating_add(1);
    }
}

// One less at a place, where there is one.
fn take_one(words: &mut [u64], at: usize) {
    if at < words.len() {
        words[at] = words[at].saturating_sub(1);
    }
}

// What is within a bound or a burst began or ended.
fn count_open(words: &mut [u64], at: usize, event: PastEvent) {
    match event {
        PastEvent::Start(_) => add_one(words, at),
        PastEvent::End(_) => take_one(words, at),
    }
}

// Whether what is within a burst began as the first, or ended as the last one.
fn is_edge(words: &[u64], at: usize, event: PastEvent) -> bool {
    let open = if at < words.len() { words[at] } else { 0 };
    match event {
        PastEvent::Start(_) => open == 1,
        PastEvent::End(_) => open == 0,
    }
}

// A start of the later member uses a finish of the first one. The sequence begins with its first member and ends with
// its last one.
fn count_turn(words: &mut [u64], at: usize, event: PastEvent, first: bool, later: bool) -> bool {
    match event {
        PastEvent::Start(_) => {
            if later {
                take_one(words, at);
            }
            first
        }
        PastEvent::End(_) => {
            if first {
                add_one(words, at);
            }
            later
        }
    }
}

// Counts an event in a node whose numbers begin at a place: whether an activation of the node begins or ends by it, and
// the place behind its numbers.
#[cycle(counting)]
fn count(e: &Node, event: PastEvent, at: usize, words: &mut [u64]) -> (bool, usize) {
    match e {
        Node::Name(op) => (*op == operation_of(event), at),
        Node::List(ms) => count_any(ms, event, at, words),
        Node::Sequence(ms) => count_turns(ms, event, at, words),
        Node::Bound(_, e) => {
            let (here, next) = count(e, event, at.saturating_add(1), words);
            if here {
                count_open(words, at, event);
            }
            (here, next)
        }
        Node::Burst(e) => {
            let (here, next) = count(e, event, at.saturating_add(1), words);
            if here {
                count_open(words, at, event);
            }
            (here && is_edge(words, at, event), next)
        }
    }
}

// The same for the members of a list, of which any one may be it.
#[cycle(counting)]
fn count_any(ms: &Members, event: PastEvent, at: usize, words: &mut [u64]) -> (bool, usize) {
    match ms {
        Members::Two(a, b) => {
            let (first, next) = count(a, event, at, words);
            let (second, end) = count(b, event, next, words);
            (first || second, end)
        }
        Members::More(a, rest) => {
            let (first, next) = count(a, event, at, words);
            let (later, end) = count_any(rest, event, next, words);
            (first || later, end)
        }
    }
}

// The same for the members of a sequence: before each but the first stands the number of its turn.
#[cycle(counting)]
fn count_turns(ms: &Members, event: PastEvent, at: usize, words: &mut [u64]) -> (bool, usize) {
    match ms {
        Members::Two(a, b) => {
            let (first, next) = count(a, event, at.saturating_add(1), words);
            let (second, end) = count(b, event, next, words);
            (count_turn(words, at, event, first, second), end)
        }
        Members::More(a, rest) => {
            let (first, next) = count(a, event, at.saturating_add(1), words);
            let (later, end) = count_turns(rest, event, next, words);
            (count_turn(words, at, event, first, later), end)
        }
    }
}

// Counts an event in each path, and returns the place behind their numbers.
fn count_in_paths(paths: &[PathTree], event: PastEvent, words: &mut [u64]) -> usize {
    let mut at: usize = 0;
    for path in paths {
        let (_, next) = count(path.root(), event, at, words);
        at = next;
    }
    at
}

/// The numbers before any event, for the operations below `n_ops`. It fails only with memory.
pub fn numbers(alloc: Global, paths: &[PathTree], n_ops: OpId) -> Result<Vec<u64>, AllocError> {
    let places = count_in_paths(paths, PastEvent::Start(0), &mut []);
    let mut words = Vec::new(alloc);
    words.resize(places.saturating_add(n_ops as usize), 0)?;
    Ok(words)
}

/// Counts an event.
pub fn count_event(paths: &[PathTree], event: PastEvent, words: &mut [u64]) {
    let places = count_in_paths(paths, event, words);
    count_open(
        words,
        places.saturating_add(operation_of(event) as usize),
        event,
    );
}
