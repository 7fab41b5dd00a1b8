//! What a session answers, and how it ends.

use crate::make::{CELL, ZERO, first_of, offices, serve};
use crate::streams::{Streams, connected};
use apply_core::reply::Reply;
use office_core::office::Office;
use office_core::seat::Seat;
use office_core::slip::Slip;
use session_core::fault::SessionFault;
use session_core::order::Named;
use std::alloc::Global;
use std::process::Abort;
use std::sync::Wait;
use std::thread::Threads;
use std::time::Clock;

// Lines, and what answers them.
const ASKED: &[u8] = b"open cell\ncancel 7\ndance\nopen nothing\nquit\n";

const ASKED_TOLD: &[u8] = b"opened cell\ncancel 7 Unknown\nno BadLine\nno Opened\nbye\n";

const NOTHING: &[u8] = b"call get\nopen nothing\nquit\n";

const NOTHING_TOLD: &[u8] = b"no NotOpen\nno NoObject\nbye\n";

const CALLED: &[u8] = b"open cell\ncall put 7\ncall get\nquit\n";

const CALLED_TOLD: &[u8] = b"opened cell\naccepted 1\ndone 1\naccepted 2\ndone 2 7\nbye\n";

// Whether the office of an object is closed with this seat and these slips.
fn is_closed(all: Vec<Named>, seats: Vec<Seat>, slips: &[Slip]) -> bool {
    let mut all = all;
    match all.pop() {
        Some(named) => named.office.close_by_slips(seats, slips).is_ok(),
        None => false,
    }
}

// Whether all of these tell of a call that was done.
fn are_done(slips: &[Slip]) -> bool {
    for slip in slips {
        if !matches!(slip.reply(), Reply::Done(_)) {
            return false;
        }
    }
    true
}

// Plays a session over these lines. It answers whether what was written is a front of what is expected, as long as the
// writer takes it, whether the fault is this one, and whether the office is closed with the seat and the receipts.
fn plays<R: Abort + Threads + Wait + Clock + Sync>(
    rt: &R,
    alloc: Global,
    lines: &[u8],
    streams: Streams,
    told: &[u8],
    fault: Option<SessionFault>,
) -> bool {
    let (all, hand) = offices(rt, alloc, CELL, ZERO);
    let end = serve(rt, alloc, &all, connected(alloc, lines, streams), hand);
    let mut seats = Vec::new(alloc);
    if let Some(seat) = end.seat {
        assert!(rt; seats.push(seat).is_ok());
    }
    let len = told.len().min(streams.takes);
    end.writer.bytes.as_slice() == &told[..len]
        && end.fault == fault
        && are_done(&end.receipts)
        && is_closed(all, seats, &end.receipts)
}

// Whether a session over these lines writes this and has no fault, whole, in pieces and in single bytes.
fn answers<R: Abort + Threads + Wait + Clock + Sync>(
    rt: &R,
    alloc: Global,
    lines: &[u8],
    told: &[u8],
) -> bool {
    for step in [1, 7, 4096] {
        if !plays(rt, alloc, lines, Streams::whole(step), told, None) {
            return false;
        }
    }
    true
}

// Catches the edits of what a session says in its turn: `accepted_line_is_left_out`, `accepted_of_another_number`,
// `cancel_does_nothing`, `first_object_has_each_name`, `last_line_before_the_end`, `last_line_is_left_out`,
// `line_is_not_said`, `no_call_is_new`, `no_object_is_opened`, `no_office_is_found`, `nobody_gets_a_seat`,
// `open_does_nothing` and `seat_is_not_handed_back`.
#[test]
fn sessions_answer_by_the_table(rt: HostRuntime) {
    let alloc = rt.alloc();
    assert!(rt; answers(&rt, alloc, ASKED, ASKED_TOLD));
    assert!(rt; answers(&rt, alloc, NOTHING, NOTHING_TOLD));
    assert!(rt; answers(&rt, alloc, CALLED, CALLED_TOLD));
}

// No case can show it: a writer that fails, or takes no more, behind each byte.
#[test]
fn a_write_fails_at_each_byte(rt: HostRuntime) {
    let fault = Some(SessionFault::WriteFault);
    for takes in 0..CALLED_TOLD.len() {
        for fails in [false, true] {
            let streams = Streams {
                step: 4096,
                takes,
                fails,
            };
            assert!(rt; plays(&rt, rt.alloc(), CALLED, streams, CALLED_TOLD, fault));
        }
    }
}

// No case can show it: a read fails, and what had come of a line is not done.
#[test]
fn a_read_fails(rt: HostRuntime) {
    let fails = Streams {
        step: 7,
        takes: 4096,
        fails: true,
    };
    let fault = Some(SessionFault::ReadFault);
    assert!(rt;
        plays(
            &rt,
            rt.alloc(),
            b"open cell\ndan",
            fails,
            b"opened cell\n",
            fault
        )
    );
}

// A line of so many letters, and `quit`.
fn letters(rt: &impl Abort, alloc: Global, count: usize) -> Vec<u8> {
    let mut line = Vec::new(alloc);
    assert!(rt; line.resize(count, b'x').is_ok());
    assert!(rt; line.extend_from_slice(b"\nquit\n").is_ok());
    line
}

// Catches `goes_on_behind_a_line_too_long`.
#[test]
fn a_line_is_too_long(rt: HostRuntime) {
    let alloc = rt.alloc();
    let long = letters(&rt, alloc, 4096);
    let whole = Streams::whole(4096);
    assert!(rt; plays(&rt, alloc, &long, whole, b"no BadLine\nbye\n", None));
    let longer = letters(&rt, alloc, 4097);
    let fault = Some(SessionFault::LineTooLong);
    assert!(rt; plays(&rt, alloc, &longer, whole, b"no LineTooLong\n", fault));
}

// What is answered to the two calls, from so many bytes of them on: a call whose line came whole has its last line, and
// one that was cut off is not done.
const CALLED_CUT: &[(usize, &[u8])] = &[
    (0, b""),
    (1, b"no BadLine\n"),
    (6, b"no NoObject\n"),
    (9, b"opened cell\n"),
    (11, b"opened cell\nno BadLine\n"),
    (16, b"opened cell\nno Gone\n"),
    (21, b"opened cell\naccepted 1\ndone 1\n"),
    (22, b"opened cell\naccepted 1\ndone 1\nno BadLine\n"),
    (27, b"opened cell\naccepted 1\ndone 1\nno Gone\n"),
    (
        30,
        b"opened cell\naccepted 1\ndone 1\naccepted 2\ndone 2 7\n",
    ),
    (
        31,
        b"opened cell\naccepted 1\ndone 1\naccepted 2\ndone 2 7\nno BadLine\n",
    ),
    (34, CALLED_TOLD),
];

// The row of the table for so many bytes.
fn told_from(len: usize) -> &'static [u8] {
    let mut told: &'static [u8] = b"";
    for (from, answer) in CALLED_CUT {
        if *from <= len {
            told = answer;
        }
    }
    told
}

// Catches `does_a_call_that_was_cut_off`, and no case can show it: the input ends behind each byte.
#[test]
fn the_input_ends_at_each_byte(rt: HostRuntime) {
    for len in 0..=CALLED.len() {
        assert!(rt; answers(&rt, rt.alloc(), &CALLED[..len], told_from(len)));
    }
}

// Gives out the seats of an office that are left after this one.
fn fills<R: Abort + Wait>(rt: &R, office: &Office, from: u32) -> bool {
    for session in from..=1024 {
        match office.seat(rt) {
            Ok(seat) => {
                if seat.session() != session {
                    return false;
                }
            }
            Err(_) => return false,
        }
    }
    true
}

// No case can show it, since a server has at most 64 sessions: all 1,024 seats of an object are given out.
#[test]
fn a_name_keeps_its_seat_where_all_are_given_out(rt: HostRuntime) {
    let alloc = rt.alloc();
    let (all, hand) = offices(&rt, alloc, CELL, ZERO);
    let whole = Streams::whole(4096);
    let first = connected(alloc, b"open cell as ann\nquit\n", whole);
    let first = serve(&rt, alloc, &all, first, hand);
    assert!(rt; first.writer.bytes.as_slice() == b"opened cell next 1\nbye\n".as_slice());
    assert!(rt; fills(&rt, first_of(&rt, &all), 2));
    let lines = b"open cell as bob\nopen cell\nopen cell as ann\ncall #1 get\nquit\n";
    let second = connected(alloc, lines, whole);
    let second = serve(&rt, alloc, &all, second, first.hand);
    let told = b"no Full\nno Full\nopened cell next 1\naccepted 1\ndone 1 0\nbye\n";
    assert!(rt; second.writer.bytes.as_slice() == told.as_slice());
}
