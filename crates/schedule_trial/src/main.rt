//! Plays schedules on the loop of `pathserve keep`, and tells what was seen of it.
//!
//! `schedule_trial FILE`: standard input has schedules of steps (`steps`), each ended by a line `run PLACES WAITS`. The
//! objects of FILE, which nobody has used, are served over what the steps say, by so many places for connections; WAITS is
//! 1 where answers wait for the disk, and 0 where they do not. Nothing else comes in, so the same schedule gives the same
//! bytes again.
//!
//! Standard output gets of each schedule the fronts of the journals, and then all that was seen, in order: a line
//! `WORD NUMBER SIZE`, and where SIZE is not 0 so many bytes and an LF. A crash is a front of that. The last line is
//! `ended 0 0`, `memory 0 0`, or `fault JOURNAL 0`. Statuses: 0, 1 a line of a schedule says nothing or FILE has no
//! objects, 2 a wrong command line, 3 a fault of a file, 4 out of memory.
#![tactic(auto)]

mod fake;
mod plan;
mod rows;
mod steps;
mod trial;

use std::alloc::Global;
use std::env;
use std::fs::File;
use std::io::{self, Read};
use std::process::ExitCode;
use trial::{ScheduleFault, play_all};
use value_core::write_whole;

// The file that is named, alone, on the command line.
fn file_of(rt: &HostRuntime) -> Result<Vec<u8>, u8> {
    let alloc = rt.alloc();
    let words: Vec<String> = match env::args(rt) {
        Ok(words) => match words.collect(alloc) {
            Ok(words) => words,
            Err(_) => return Err(4),
        },
        Err(_) => return Err(4),
    };
    let [_, file] = words.as_slice() else {
        return Err(2);
    };
    let mut source = Vec::new(alloc);
    let Ok(mut opened) = File::open(rt, file) else {
        return Err(3);
    };
    if opened.read_to_end(&mut source).is_err() {
        return Err(3);
    }
    Ok(source)
}

// Plays what standard input has.
fn run(rt: &HostRuntime) -> Result<(), u8> {
    let alloc = rt.alloc();
    let source = file_of(rt)?;
    let mut text = Vec::new(alloc);
    if rt.stdin().read_to_end(&mut text).is_err() {
        return Err(3);
    }
    let mut out = Vec::new(alloc);
    match play_all(alloc, &source, &text, &mut out) {
        Ok(()) => {}
        Err(ScheduleFault::Bad) => return Err(1),
        Err(ScheduleFault::Memory) => return Err(4),
    }
    match write_whole(&mut io::writer(rt), &out) {
        Ok(()) => Ok(()),
        Err(_) => Err(3),
    }
}

fn main(rt: HostRuntime) -> ExitCode {
    match run(&rt) {
        Ok(()) => ExitCode::from(0),
        Err(status) => ExitCode::from(status),
    }
}
