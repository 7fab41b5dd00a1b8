//! What was seen of a loop, in order, and how it is told.

ghost use Rattle.std.specs.Prelude.{◌≡◌, ◌∷◌, [], ℕ, List, OnOk};
ghost use Rattle.keep_loop.specs.Seen.{Grows, read_of};
ghost use Rattle.schedule_trial.specs.Told.{event_of, behind, seen_of};

use keep_loop::ReadEnd;
use std::alloc::{AllocError, Global};
use value_core::reply::push_number;

/// What happened.
#[derive(Clone, Copy, Debug, PartialEq, Eq)]
pub enum EventKind {
    Came,
    Ended,
    Broke,
    Wrote,
    Joins,
    Leaves,
    Ticks,
    Ends,
    Added,
    Stored,
    Changed,
}

/// What happened to the connection or the journal of a number, or at a time, with these bytes.
#[derive(Drop)]
pub struct EventRow {
    pub kind: EventKind,
    pub number: u64,
    pub bytes: Vec<u8>,
}

#[tactic(auto, using(crate::proofs::Told::behind_push))]
// One thing more happened.
fn push(
    alloc: Global,
    known: &mut Vec<EventRow>,
    kind: EventKind,
    number: u64,
    bytes: &[u8],
) -> Result<(), AllocError>
    ensures { OnOk result (behind [] known.new.items ≡ event_of kind number bytes.now ∷ behind [] known.old.items) }
{
    let bytes = bytes.to_vec(alloc)?;
    known.push(EventRow {
        kind,
        number,
        bytes,
    })?;
    Ok(())
}

/// One thing more happened. Where memory is refused, nothing is known any more.
pub fn note(
    alloc: Global,
    rows: &mut Option<Vec<EventRow>>,
    kind: EventKind,
    number: u64,
    bytes: &[u8],
)
    ensures { Grows (event_of kind number bytes.now) (seen_of rows.old) (seen_of rows.new) }
{
    let Some(known) = rows else {
        return;
    };
    if push(alloc, known, kind, number, bytes).is_err() {
        *rows = None;
    }
}

/// What a read saw.
pub fn kind_of(read: ReadEnd) -> EventKind
    ensures { (who : ℕ) (bytes : List ℕ) → event_of result who bytes ≡ read_of who bytes read }
{
    match read {
        ReadEnd::More | ReadEnd::NoMore => EventKind::Came,
        ReadEnd::Ended => EventKind::Ended,
        ReadEnd::Broken => EventKind::Broke,
    }
}

fn word_of(kind: EventKind) -> &'static [u8] {
    match kind {
        EventKind::Came => b"came ",
        EventKind::Ended => b"end ",
        EventKind::Broke => b"broke ",
        EventKind::Wrote => b"wrote ",
        EventKind::Joins => b"joins ",
        EventKind::Leaves => b"leaves ",
        EventKind::Ticks => b"ticks ",
        EventKind::Ends => b"ends ",
        EventKind::Added => b"added ",
        EventKind::Stored => b"stored ",
        EventKind::Changed => b"changed ",
    }
}

/// Adds a line of a word, a number and how many bytes there are, and these bytes.
pub fn push_block(
    out: &mut Vec<u8>,
    word: &[u8],
    number: u64,
    bytes: &[u8],
) -> Result<(), AllocError> {
    push_number(out, word, number)?;
    push_number(out, b" ", bytes.len() as u64)?;
    out.push(b'\n')?;
    if !bytes.is_empty() {
        out.extend_from_slice(bytes)?;
        out.push(b'\n')?;
    }
    Ok(())
}

/// Adds all that happened.
pub fn push_rows(out: &mut Vec<u8>, rows: &[EventRow]) -> Result<(), AllocError> {
    for row in rows {
        push_block(out, word_of(row.kind), row.number, &row.bytes)?;
    }
    Ok(())
}
