//! What the file of a journal tells, and at which line it is not as it was written; and its CRCs, by vectors of others.

use crate::shelf_calls::Bytes;
use keep_loop::crc::{CRC_START, CrcTable, crc_end};
use std::alloc::{AllocError, Global};
use std::process::Abort;
use taken_core::taken::{TakeFault, line_in_file, take_file};

// What is answered of a file.
#[derive(Clone, Copy)]
enum WantedTaking {
    // It tells these lines.
    Taken(Bytes),
    // It is not taken.
    Wrong(TakeFault),
}

use WantedTaking::{Taken, Wrong};

const FILES: [(Bytes, WantedTaking); 19] = [
    // As it was written.
    (
        b"object a format 2 epoch 1\npart v 00\nfront 36 bcf7d17e\nstart 1\nstored 54 3afbfc3b\nend 1\nstored 81 260dfb45\n\0\0",
        Taken(b"object a epoch 1\npart v 00\nstart 1\nend 1\n"),
    ),
    // A round without its check line.
    (
        b"object a format 2 epoch 1\npart v 00\nfront 36 bcf7d17e\nstart 1\nend 1\nstored 54 6aede383\n\0",
        Taken(b"object a epoch 1\npart v 00\nstart 1\nend 1\n"),
    ),
    // A crash cut the last line.
    (
        b"object a format 2 epoch 1\npart v 00\nfront 36 bcf7d17e\nstart 1\nstored 54 3afbfc3b\nend 1\nstored 6\0",
        Taken(b"object a epoch 1\npart v 00\nstart 1\nend 1\n"),
    ),
    // A crash left a hole in what was not stored.
    (
        b"object a format 2 epoch 1\npart v 00\nfront 36 bcf7d17e\nsta\0t 1\nstored 54 3afbfc3b\n\0",
        Taken(b"object a epoch 1\npart v 00\n"),
    ),
    // A file of before.
    (b"object a epoch 1\nx\n\0", Taken(b"object a epoch 1\nx\n")),
    // No line.
    (b"", Wrong(TakeFault::Line(1))),
    // No whole line.
    (b"object a format 2 epoch 1\0", Wrong(TakeFault::Line(1))),
    // No object.
    (b"part v 00\n", Wrong(TakeFault::Line(1))),
    // A form that is not known.
    (b"object a format 3 epoch 1\n", Wrong(TakeFault::Format(3))),
    // Other spellings of a form.
    (b"object a format 1 epoch 1\n", Wrong(TakeFault::Line(1))),
    (b"object a format 02 epoch 1\n", Wrong(TakeFault::Line(1))),
    // No last line of the front.
    (
        b"object a format 2 epoch 1\npart v 00\n",
        Wrong(TakeFault::Line(3)),
    ),
    // A byte of the front was changed.
    (
        b"object a format 2 epoch 1\npart v 01\nfront 36 bcf7d17e\n",
        Wrong(TakeFault::Line(3)),
    ),
    // The front has another number of bytes.
    (
        b"object a format 2 epoch 1\npart v 00\nfront 37 bcf7d17e\n",
        Wrong(TakeFault::Line(3)),
    ),
    // Two last lines of the front.
    (
        b"object a format 2 epoch 1\npart v 00\nfront 36 bcf7d17e\nfront 54 00000000\n",
        Wrong(TakeFault::Line(4)),
    ),
    // A round before the front ends.
    (
        b"object a format 2 epoch 1\npart v 00\nstart 1\nstored 0 2de57ae7\n",
        Wrong(TakeFault::Line(4)),
    ),
    // A byte of a round was changed.
    (
        b"object a format 2 epoch 1\npart v 00\nfront 36 bcf7d17e\nstart 2\nstored 54 3afbfc3b\nend 1\nstored 81 260dfb45\n",
        Wrong(TakeFault::Line(5)),
    ),
    // More was stored than stands there.
    (
        b"object a format 2 epoch 1\npart v 00\nfront 36 bcf7d17e\nstart 1\nstored 153 3afbfc3b\n",
        Wrong(TakeFault::Line(5)),
    ),
    // A hole in what was stored.
    (
        b"object a format 2 epoch 1\npart v 00\nfront 36 bcf7d17e\n\0tart 1\nstored 54 3afbfc3b\nend 1\nstored 81 260dfb45\n\0",
        Wrong(TakeFault::Behind(3, 51)),
    ),
];

// Whether a file is answered so.
fn is_answered(alloc: Global, file: &[u8], answer: WantedTaking) -> Result<bool, AllocError> {
    Ok(match (take_file(alloc, file, false)?, answer) {
        (Ok(taken), Taken(lines)) => taken.lines.as_slice() == lines,
        (Err(fault), Wrong(want)) => fault == want,
        _ => false,
    })
}

#[test]
fn files_of_journals(rt: HostRuntime) {
    for (file, answer) in FILES {
        assert!(rt; is_answered(rt.alloc(), file, answer) == Ok(true));
    }
}

// With a cut that is accepted the lines before it are taken.
#[test]
fn a_cut_is_accepted(rt: HostRuntime) {
    let (file, _) = FILES[18];
    match take_file(rt.alloc(), file, true) {
        Ok(Ok(taken)) => {
            assert!(rt; taken.lines.as_slice() == b"object a epoch 1\npart v 00\n".as_slice());
            assert!(rt; taken.format == 2 && taken.size == 54 && taken.behind == 51);
        }
        _ => panic!(rt; "it is not taken"),
    }
}

// The lines that a file tells have other numbers in it.
#[test]
fn lines_have_their_numbers(rt: HostRuntime) {
    let (file, _) = FILES[0];
    for (line, number) in [(1, 1), (2, 2), (3, 4), (4, 6), (5, 8)] {
        assert!(rt; line_in_file(file, line) == number);
    }
    assert!(rt; line_in_file(b"object a epoch 1\nx\n", 2) == 2);
}

// The CRC-32C of bytes.
fn crc_of(alloc: Global, bytes: &[u8]) -> Result<u32, AllocError> {
    Ok(crc_end(CrcTable::new(alloc)?.more(CRC_START, bytes)))
}

// The vectors of RFC 3720, and the one that everybody has.
#[test]
fn crcs(rt: HostRuntime) {
    let alloc = rt.alloc();
    let mut up: [u8; 32] = [0; 32];
    let mut down: [u8; 32] = [0; 32];
    for at in 0..32 {
        up[at] = at as u8;
        down[at] = 31 - at as u8;
    }
    assert!(rt; crc_of(alloc, b"123456789") == Ok(0xe306_9283));
    assert!(rt; crc_of(alloc, &[0; 32]) == Ok(0x8a91_36aa));
    assert!(rt; crc_of(alloc, &[255; 32]) == Ok(0x62a8_ab43));
    assert!(rt; crc_of(alloc, &up) == Ok(0x46dd_794e));
    assert!(rt; crc_of(alloc, &down) == Ok(0x113f_db5c));
}
