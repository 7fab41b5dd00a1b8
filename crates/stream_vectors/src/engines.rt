//! `paths` over readers and writers that fail. What is written then is a front of the answers, by contract.

use crate::fakes::{Choppy, Endless, Mood, Shy};
use path_count::paths::{PathsEnd, PathsFault, run_paths};
use std::alloc::Global;
use std::io::ErrorKind;

const READERS_WRITERS: &[u8] = b"ops read write
path 1:([read], write) end
start read
start read
start write
finish read
start write
finish read
start write
start read
finish write
finish write
";

// How many bytes are answered to that.
const ANSWERED: usize = 175;

// How `paths` ends at a reader whose read of this number fails so, each read being of one byte.
fn read_to(alloc: Global, fails_at: u64, kind: ErrorKind) -> Result<PathsEnd, PathsFault> {
    let mut reader = Choppy {
        rest: READERS_WRITERS,
        most: 1,
        reads: 0,
        fails_at,
        kind,
    };
    run_paths(alloc, &mut reader, &mut Vec::new(alloc))
}

// No case can show it: a read fails behind each byte of a text.
#[test]
fn a_failed_read_is_a_read_fault(rt: HostRuntime) {
    for fails_at in 0..=READERS_WRITERS.len() as u64 {
        let ended = read_to(rt.alloc(), fails_at, ErrorKind::Other);
        assert!(rt; ended == Err(PathsFault::ReadFault));
    }
}

// Catches `broken_read_is_a_fault`: the same, where a signal broke the read.
#[test]
fn a_read_that_a_signal_broke_is_made_again(rt: HostRuntime) {
    for fails_at in 0..=READERS_WRITERS.len() as u64 {
        let ended = read_to(rt.alloc(), fails_at, ErrorKind::Interrupted);
        assert!(rt; ended == Ok(PathsEnd::Whole));
    }
}

// No case can show it: a reader that never ends.
#[test]
fn an_endless_text_is_a_read_fault(rt: HostRuntime) {
    let mut reader = Endless { reads: 0 };
    let ended = run_paths(rt.alloc(), &mut reader, &mut Vec::new(rt.alloc()));
    assert!(rt; ended == Err(PathsFault::ReadFault) && reader.reads == 16_777_216);
}

// How `paths` ends at such a writer with so much room, and after how many writes.
fn write_to(alloc: Global, mood: Mood, room: usize) -> (Result<PathsEnd, PathsFault>, u64) {
    let mut writer = Shy {
        mood,
        writes: 0,
        room,
    };
    let mut reader = READERS_WRITERS;
    let ended = run_paths(alloc, &mut reader, &mut writer);
    (ended, writer.writes)
}

const WRITE_FAULT: Result<PathsEnd, PathsFault> = Err(PathsFault::WriteFault);

// No case can show it: a write fails behind each byte of the answers.
#[test]
fn a_failed_write_is_a_write_fault(rt: HostRuntime) {
    for most in [1, 65_536] {
        for room in 0..ANSWERED {
            assert!(rt; write_to(rt.alloc(), Mood::Takes(most), room).0 == WRITE_FAULT);
        }
        assert!(rt; write_to(rt.alloc(), Mood::Takes(most), ANSWERED).0 == Ok(PathsEnd::Whole));
    }
}

// No case can show it: a writer that takes no byte is asked once, and one that signals break is asked again.
#[test]
fn a_write_that_a_signal_broke_is_made_again(rt: HostRuntime) {
    assert!(rt; write_to(rt.alloc(), Mood::TakesNone, 0) == (WRITE_FAULT, 1));
    let whole = write_to(rt.alloc(), Mood::BrokenEachSecond, 0);
    assert!(rt; whole == (Ok(PathsEnd::Whole), 2));
}

// No case can show it: a writer that signals break for ever.
#[test]
fn a_writer_that_signals_break_for_ever_is_a_write_fault(rt: HostRuntime) {
    assert!(rt; write_to(rt.alloc(), Mood::Broken, 0) == (WRITE_FAULT, 16_777_216));
}
