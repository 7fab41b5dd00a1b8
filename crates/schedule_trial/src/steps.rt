//! The steps of a schedule, and how a text says them: a line `WORD PLACE NUMBER` each. The place is that of a connection,
//! in the order in which they came, or of a journal; else it is 0.
//!
//! ```text
//! past 1 9      before all this the object of the journal at 1 has had nine calls of its first operation, without a body
//! wait 0 0      all steps up to here come about once the loop waits
//! come 0 0      a connection comes
//! short 0 0     an accept is refused
//! say 2 5       five bytes come of the connection at 2: those behind this line, which an LF ends
//! end 2 0       its input ends
//! break 2 0     it breaks
//! take 2 7      a write to it takes seven bytes at most
//! cut 2 0       a write to it is refused
//! tick 0 9      it is the second 9
//! due 0 0       it is time to store
//! unadded 1 0   the journal at 1 refuses lines
//! unstored 1 0  it refuses to be stored
//! full 1 0      it cannot begin anew, and goes on
//! unbegun 1 0   it fails where it is to begin anew
//! stop 0 0      the server is to end, as it is where all steps have come about
//! ```

use std::alloc::{AllocError, Global};
use word_core::front::next_bare;
use word_core::number::integer_of;

/// What the loop asks for.
#[derive(Clone, Copy, Debug, PartialEq, Eq)]
pub enum LoopCall {
    Wait,
    Accept,
    Read,
    Write,
    Tick,
    End,
    Due,
    Append,
    Sync,
    Change,
    Past,
}

/// What it is answered.
#[derive(Clone, Copy, Debug, PartialEq, Eq)]
pub enum StepResult {
    Goes,
    Ends,
    Fails,
}

/// A step.
#[derive(Drop)]
pub struct ScheduleStep {
    pub call: LoopCall,
    pub how: StepResult,
    pub place: usize,
    pub number: usize,
    pub bytes: Vec<u8>,
    // Whether it has answered.
    pub is_done: bool,
}

/// The words of a line.
#[derive(Clone, Copy)]
pub struct StepWords<'a> {
    pub word: &'a [u8],
    pub place: usize,
    pub number: usize,
}

/// The words of a line, where it has three.
pub fn words_of(line: &[u8]) -> Option<StepWords<'_>> {
    let (word, rest) = next_bare(line)?;
    let (place, rest) = next_bare(rest)?;
    let (number, _) = next_bare(rest)?;
    Some(StepWords {
        word,
        place: integer_of(place)? as usize,
        number: integer_of(number)? as usize,
    })
}

/// Whether a line ends a schedule.
pub fn is_run(words: StepWords<'_>) -> bool {
    words.word == b"run".as_slice()
}

// What a word says.
fn said(word: &[u8]) -> Option<(LoopCall, StepResult)> {
    match word {
        b"wait" => Some((LoopCall::Wait, StepResult::Goes)),
        b"come" => Some((LoopCall::Accept, StepResult::Goes)),
        b"short" => Some((LoopCall::Accept, StepResult::Fails)),
        b"say" => Some((LoopCall::Read, StepResult::Goes)),
        b"end" => Some((LoopCall::Read, StepResult::Ends)),
        b"break" => Some((LoopCall::Read, StepResult::Fails)),
        b"take" => Some((LoopCall::Write, StepResult::Goes)),
        b"cut" => Some((LoopCall::Write, StepResult::Fails)),
        b"tick" => Some((LoopCall::Tick, StepResult::Goes)),
        b"due" => Some((LoopCall::Due, StepResult::Goes)),
        b"unadded" => Some((LoopCall::Append, StepResult::Fails)),
        b"unstored" => Some((LoopCall::Sync, StepResult::Fails)),
        b"full" => Some((LoopCall::Change, StepResult::Ends)),
        b"unbegun" => Some((LoopCall::Change, StepResult::Fails)),
        b"stop" => Some((LoopCall::End, StepResult::Goes)),
        b"past" => Some((LoopCall::Past, StepResult::Goes)),
        _ => None,
    }
}

/// The bytes behind a line that belong to it, and what stands behind them.
pub fn cut_bytes<'a>(words: StepWords<'_>, behind: &'a [u8]) -> (&'a [u8], &'a [u8]) {
    if words.word != b"say".as_slice() {
        return (&[], behind);
    }
    let (bytes, rest) = behind.split_at(words.number.min(behind.len()));
    match rest {
        [b'\n', rest @ ..] => (bytes, rest),
        _ => (bytes, rest),
    }
}

/// Adds a step with these bytes. `false`: its word says nothing.
pub fn push_step(
    alloc: Global,
    steps: &mut Vec<ScheduleStep>,
    words: StepWords<'_>,
    bytes: &[u8],
) -> Result<bool, AllocError> {
    let Some((call, how)) = said(words.word) else {
        return Ok(false);
    };
    let step = ScheduleStep {
        call,
        how,
        place: words.place,
        number: words.number,
        bytes: bytes.to_vec(alloc)?,
        is_done: false,
    };
    steps.push(step)?;
    Ok(true)
}
