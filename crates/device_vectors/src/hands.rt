//! What every hand does: in memory here, and in a folder by a line of `folder`.

use crate::hand_calls::HandCall::{
    Append, Create, Discard, Failures, NoAppend, NoRead, NoRetire, NoSeal, Read, Resized, Retire,
    Seal, Stamped,
};
use crate::hand_calls::{A, B, C, FileRow, HandCall};
use device_core::hand::{Hand, Stamp};
use device_core::memory::MemHand;
use device_core::uncalled::fetch;
use device_core::whole::put;
use std::alloc::Global;
use std::process::Abort;

// What is appended is read back, whole and in pieces.
const READS: &[HandCall] = &[
    Create(A),
    Append(A, b"hello, "),
    Append(A, b"world"),
    Seal(A, 12),
    Read(A, 0, b"hello, world"),
    Read(A, 0, b"h"),
    Read(A, 11, b"d"),
    Read(A, 5, b", wor"),
    Read(A, 12, b""),
    Read(A, 0, b"hello, world"),
    // A stamp of fewer bytes is read too.
    Resized(A, 5),
    Read(A, 0, b"hello"),
    Create(B),
    Seal(B, 0),
    Read(B, 0, b""),
    Create(C),
    Append(C, b""),
    Append(C, b"x"),
    Append(C, b""),
    Seal(C, 1),
    Read(C, 0, b"x"),
    Failures(0),
];

// Files that are written at one time do not mix.
const PENS_APART: &[HandCall] = &[
    Create(A),
    Create(B),
    Create(C),
    Append(A, b"ab"),
    Append(B, b"1"),
    Discard(C),
    Append(A, b"cd"),
    Append(B, b"234"),
    Seal(A, 4),
    Append(B, b"5"),
    Read(A, 0, b"abcd"),
    Seal(B, 5),
    Read(B, 0, b"12345"),
    Read(A, 1, b"bc"),
    Read(B, 1, b"23"),
    Failures(0),
];

// The number of a file that was given up is that of no later file, and nothing is read of it.
const DISCARDED: &[HandCall] = &[
    Create(A),
    Append(A, b"lost"),
    Discard(A),
    Failures(0),
    Create(B),
    Append(B, b"kept"),
    Seal(B, 4),
    Create(B),
    Append(B, b"kept"),
    Seal(B, 4),
    Create(B),
    Append(B, b"kept"),
    Seal(B, 4),
    Create(B),
    Append(B, b"kept"),
    Seal(B, 4),
    Create(B),
    Append(B, b"kept"),
    Seal(B, 4),
    Failures(0),
    Resized(A, 4),
    NoRead(A, 0),
    Failures(1),
];

// A file that was retired is read no more, and each other one still is.
const RETIRED: &[HandCall] = &[
    Create(A),
    Append(A, b"gone"),
    Seal(A, 4),
    Create(B),
    Append(B, b"kept"),
    Seal(B, 4),
    Read(A, 0, b"gone"),
    Retire(A),
    Failures(0),
    NoRead(A, 0),
    Failures(1),
    NoRetire(A),
    Failures(2),
    Read(B, 0, b"kept"),
    Create(C),
    Append(C, b"other"),
    Seal(C, 5),
    Read(B, 0, b"kept"),
    Retire(C),
    Read(B, 2, b"pt"),
    Failures(2),
];

// A stamp that no seal gave, or that has more bytes than the file, is refused.
const BAD_STAMPS: &[HandCall] = &[
    Create(A),
    Append(A, b"hello"),
    Seal(A, 5),
    Stamped(B, u64::MAX, 1),
    NoRead(B, 0),
    NoRetire(B),
    Stamped(B, u64::MAX - 1, 1),
    NoRead(B, 0),
    NoRetire(B),
    Stamped(B, 1 << 63, 1),
    NoRead(B, 0),
    NoRetire(B),
    Failures(6),
    Resized(A, 6),
    NoRead(A, 0),
    NoRead(A, 5),
    Resized(A, 7),
    NoRead(A, 0),
    NoRead(A, 5),
    Resized(A, 1000),
    NoRead(A, 0),
    NoRead(A, 5),
    Failures(12),
    Resized(A, 5),
    Read(A, 0, b"hello"),
    Failures(12),
];

// A pen whose file was sealed or given up, or that no file has, is refused. Giving it up changes nothing.
const BAD_PENS: &[HandCall] = &[
    Create(A),
    Append(A, b"hello"),
    Seal(A, 5),
    Create(B),
    Discard(B),
    NoAppend(A, b"more"),
    Failures(1),
    NoAppend(A, b""),
    Failures(2),
    NoSeal(A),
    Failures(3),
    Discard(A),
    Failures(3),
    NoAppend(B, b"more"),
    Failures(4),
    NoAppend(B, b""),
    Failures(5),
    NoSeal(B),
    Failures(6),
    Discard(B),
    Failures(6),
    Stamped(C, u64::MAX, 0),
    NoAppend(C, b"more"),
    Failures(7),
    NoAppend(C, b""),
    Failures(8),
    NoSeal(C),
    Failures(9),
    Discard(C),
    Failures(9),
    Read(A, 0, b"hello"),
    Failures(9),
];

// How many bytes the longest file has.
const MANY: usize = 70_000;

/// 70,000 bytes.
pub fn many_bytes(rt: &impl Abort, alloc: Global) -> Vec<u8> {
    let mut all = Vec::with_capacity(alloc, MANY).expect(rt, "memory");
    for place in 0..MANY {
        all.push((place % 251) as u8).expect(rt, "memory");
    }
    all
}

// Whether 15 bytes beyond 65,535 of a file are these.
fn reads_far<H: Hand>(hand: &mut H, stamp: &Stamp, want: &[u8]) -> bool {
    let mut into = [0xAA; 15];
    stamp.len == MANY
        && hand.read(stamp, 65_530, &mut into).is_ok()
        && want.get(65_530..65_545) == Some(into.as_slice())
}

// A file of 70,000 bytes, whole and in part.
fn holds_many_bytes<H: Hand>(rt: &impl Abort, alloc: Global, hand: &mut H) {
    let all = many_bytes(rt, alloc);
    let stamp = put(hand, &all).expect(rt, "a file");
    let found = fetch(alloc, hand, &stamp).expect(rt, "the bytes");
    assert!(rt; found.as_slice() == all.as_slice() && reads_far(hand, &stamp, &all));
}

/// All of the above, on a new hand.
pub fn is_a_hand<H: Hand>(rt: &impl Abort, alloc: Global, hand: &mut H) {
    for (line, calls) in SCRIPTS.iter().enumerate() {
        FileRow::new(hand).play(rt, hand, calls, line);
    }
    holds_many_bytes(rt, alloc, hand);
    // One read of a discarded file, two calls on a retired one, twelve bad stamps, three calls on each of
    // three bad pens.
    assert!(rt; hand.failures() == 24);
}

const SCRIPTS: [&[HandCall]; 6] = [READS, PENS_APART, DISCARDED, RETIRED, BAD_STAMPS, BAD_PENS];

// No case can show it: calls that no program makes, such as those of pens and stamps that are none.
#[test]
fn a_hand_in_memory(rt: HostRuntime) {
    let mut hand = MemHand::new(rt.alloc());
    is_a_hand(&rt, rt.alloc(), &mut hand);
}
