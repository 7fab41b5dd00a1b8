//! Draws crashes of the journal of a kept object, recovers behind each, and tells what was wrong.
//!
//! `crash_trial FILE CRASHES SEED`: standard input has `object NAME`, an object of FILE, and then the lines of a scenario
//! (`drive::Drive::play`). It is played; then a crash is tried at each byte of each write, and CRASHES more are drawn. Behind
//! each the journal is recovered. What is recovered has to be a front of what was written, with all that was stored.
//!
//! Standard output gets the lines of each epoch; each state that was recovered, once, as the front with which the object
//! would go on; and at last how many crashes were tried and how many were wrong. Statuses: 0 none is wrong, 1 one is, or
//! there is nothing to play, 2 a wrong command line, 3 a fault of a file, 4 out of memory.
#![tactic(auto)]

pub mod crash;
pub mod device;
pub mod drive;
pub mod judge;
pub mod tell;
mod trial;

use std::env;
use std::fs::File;
use std::io::{self, Read, Write};
use std::process::ExitCode;
use trial::{TrialEnd, TrialInput, run_trial};

fn number_of(word: &str) -> Option<u64> {
    word.parse::<u64>().ok()
}

// Reads what is asked for, and does it.
fn run(rt: &HostRuntime) -> Result<u8, u8> {
    let alloc = rt.alloc();
    let words: Vec<String> = match env::args(rt) {
        Ok(words) => match words.collect(alloc) {
            Ok(words) => words,
            Err(_) => return Err(4),
        },
        Err(_) => return Err(4),
    };
    let [_, file, crashes, seed] = words.as_slice() else {
        return Err(2);
    };
    let (Some(crashes), Some(seed)) = (number_of(crashes), number_of(seed)) else {
        return Err(2);
    };
    let mut source = Vec::new(alloc);
    let Ok(mut opened) = File::open(rt, file) else {
        return Err(3);
    };
    if opened.read_to_end(&mut source).is_err() {
        return Err(3);
    }
    let mut scenario = Vec::new(alloc);
    if rt.stdin().read_to_end(&mut scenario).is_err() {
        return Err(3);
    }
    let asked = TrialInput {
        source,
        scenario,
        crashes,
        seed,
    };
    match run_trial(alloc, &asked, &mut io::writer(rt)) {
        Ok(TrialEnd::Right) => Ok(0),
        Ok(TrialEnd::Wrong) => Ok(1),
        Err(_) => Err(4),
    }
}

fn main(rt: HostRuntime) -> ExitCode {
    match run(&rt) {
        Ok(status) => ExitCode::from(status),
        Err(status) => ExitCode::from(status),
    }
}
