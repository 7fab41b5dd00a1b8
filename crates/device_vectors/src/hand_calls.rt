//! Calls of any hand, as the rows of scripts.
//!
//! A script names its files by their places in a row, `A`, `B`, .. A pen is nothing but the number of its file:
//! the row keeps the number, and each call gets a pen of it.

use device_core::hand::{Hand, HandFault, Pen, Stamp};
use std::process::Abort;

/// A call of a hand, of the file at a place of the row, and what it answers. Each call that fails does so for
/// the device.
#[derive(Clone, Copy, Drop)]
pub enum HandCall {
    /// A file is begun. No other file of the row has its number.
    Create(usize),
    /// No file is begun.
    NoCreate,
    /// These bytes are added.
    Append(usize, &'static [u8]),
    /// These bytes are not added.
    NoAppend(usize, &'static [u8]),
    /// The file is ended, under the number of its pen, and has so many bytes.
    Seal(usize, usize),
    /// The file is not ended, and given up.
    NoSeal(usize),
    /// The file is given up.
    Discard(usize),
    /// From this byte on it reads so.
    Read(usize, usize, &'static [u8]),
    /// The byte at this place, which the stamp has, is not read.
    NoRead(usize, usize),
    /// The file is read no more.
    Retire(usize),
    /// The file is not retired.
    NoRetire(usize),
    /// The place gets a stamp of this number and so many bytes.
    Stamped(usize, u64, usize),
    /// The stamp gets so many bytes.
    Resized(usize, usize),
    /// The file has this number.
    Number(usize, u64),
    /// So many calls failed for the device since the row was made.
    Failures(u64),
}

/// Places in the row of files.
pub const A: usize = 0;

pub const B: usize = 1;

pub const C: usize = 2;

pub const D: usize = 3;

pub const E: usize = 4;

// How many files a row has.
const FILES: usize = 8;

// What a call answers whose device failed.
const DEVICE: Result<(), HandFault> = Err(HandFault::Device);

/// The files of a script. Those that are not begun have the number 0.
#[derive(Clone, Copy, Drop)]
pub struct FileRow {
    stamps: [Stamp; FILES],
    // How many calls of the hand had failed before.
    failures: u64,
}

// Begins a file.
fn create<H: Hand>(hand: &mut H) -> Result<Stamp, HandFault> {
    let Pen { number } = hand.create()?;
    Ok(Stamp { number, len: 0 })
}

fn append<H: Hand>(hand: &mut H, number: u64, bytes: &[u8]) -> Result<(), HandFault> {
    let mut pen = Pen { number };
    let answer = hand.append(&mut pen, bytes);
    let Pen { number: _ } = pen;
    answer
}

// Ends a file, or gives it up where that fails.
fn seal<H: Hand>(hand: &mut H, number: u64) -> Result<Stamp, HandFault> {
    match hand.seal(Pen { number }) {
        Ok(stamp) => Ok(stamp),
        Err((pen, fault)) => {
            hand.discard(pen);
            Err(fault)
        }
    }
}

fn discard<H: Hand>(hand: &mut H, number: u64) -> bool {
    hand.discard(Pen { number });
    true
}

// The most bytes that one row reads.
const MOST_READ: usize = 16;

// Whether a stamp that has so many bytes from this one on reads so, or why it does not.
fn reads<H: Hand>(
    hand: &mut H,
    stamp: Stamp,
    at: usize,
    want: &[u8],
) -> Option<Result<bool, HandFault>> {
    let mut row = [0xAA; MOST_READ];
    let into = row.get_mut(..want.len())?;
    if at > stamp.len || into.len() > stamp.len - at {
        return None;
    }
    match hand.read(&stamp, at, into) {
        Ok(()) => Some(Ok(*into == *want)),
        Err(fault) => Some(Err(fault)),
    }
}

impl FileRow {
    /// A row of files for this hand.
    pub fn new<H: Hand>(hand: &H) -> FileRow {
        FileRow {
            stamps: [Stamp { number: 0, len: 0 }; FILES],
            failures: hand.failures(),
        }
    }

    // The stamp at a place.
    fn at(&self, place: usize) -> Stamp {
        match self.stamps.get(place) {
            Some(stamp) => *stamp,
            None => Stamp { number: 0, len: 0 },
        }
    }

    // Whether there is such a place, which gets this stamp.
    fn set(&mut self, place: usize, number: u64, len: usize) -> bool {
        match self.stamps.get_mut(place) {
            Some(stamp) => {
                *stamp = Stamp { number, len };
                true
            }
            None => false,
        }
    }

    // Whether no file has this number.
    fn is_new(&self, number: u64) -> bool {
        for stamp in &self.stamps {
            if stamp.number == number {
                return false;
            }
        }
        true
    }

    fn creates<H: Hand>(&mut self, hand: &mut H, place: usize) -> bool {
        match create(hand) {
            Ok(stamp) => self.is_new(stamp.number) && self.set(place, stamp.number, 0),
            Err(_) => false,
        }
    }

    fn seals<H: Hand>(&mut self, hand: &mut H, place: usize, len: usize) -> bool {
        let number = self.at(place).number;
        seal(hand, number) == Ok(Stamp { number, len }) && self.set(place, number, len)
    }

    // Makes a call of a file that is written, and tells whether it answers what the row says.
    fn writes<H: Hand>(&mut self, hand: &mut H, call: HandCall) -> bool {
        match call {
            HandCall::Create(place) => self.creates(hand, place),
            HandCall::NoCreate => create(hand) == Err(HandFault::Device),
            HandCall::Append(place, bytes) => append(hand, self.at(place).number, bytes).is_ok(),
            HandCall::NoAppend(place, bytes) => append(hand, self.at(place).number, bytes)
                == DEVICE,
            HandCall::Seal(place, len) => self.seals(hand, place, len),
            HandCall::NoSeal(place) => seal(hand, self.at(place).number) == Err(HandFault::Device),
            HandCall::Discard(place) => discard(hand, self.at(place).number),
            _ => false,
        }
    }

    // Makes a call, and tells whether it answers what the row says.
    fn is_right<H: Hand>(&mut self, hand: &mut H, call: HandCall) -> bool {
        match call {
            HandCall::Read(place, at, bytes) => {
                reads(hand, self.at(place), at, bytes) == Some(Ok(true))
            }
            HandCall::NoRead(place, at) => {
                reads(hand, self.at(place), at, b"?") == Some(Err(HandFault::Device))
            }
            HandCall::Retire(place) => hand.retire(&self.at(place)).is_ok(),
            HandCall::NoRetire(place) => hand.retire(&self.at(place)) == DEVICE,
            HandCall::Stamped(place, number, len) => self.set(place, number, len),
            HandCall::Resized(place, len) => self.set(place, self.at(place).number, len),
            HandCall::Number(place, number) => self.at(place).number == number,
            HandCall::Failures(count) => hand.failures().wrapping_sub(self.failures) == count,
            written => self.writes(hand, written),
        }
    }

    /// Makes calls, and asserts that each answers what its row says. They stand in this line of a script.
    pub fn play<H: Hand>(
        &mut self,
        rt: &impl Abort,
        hand: &mut H,
        calls: &[HandCall],
        line: usize,
    ) {
        for (number, call) in calls.iter().enumerate() {
            assert!(rt; self.is_right(hand, *call), "line {line}: call {number}");
        }
    }
}
