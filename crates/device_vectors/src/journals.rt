//! Journals over a file in memory, and the file of a journal in a folder.

use crate::scratch::Deed::{self, Has, Lacks, MakeFolder, Remove, RemoveFolder, Write as Put};
use crate::scratch::Scratch;
use crate::shelf_calls::Bytes;
use keep_loop::device::{Device, DeviceError};
use keep_loop::folder::FolderFile;
use keep_loop::head::is_front;
use keep_loop::journal::{Journal, recovered_len};
use keep_loop::memory::Memory;
use keep_loop::uncalled::{JournalStep, RoundFault};
use std::alloc::Global;
use std::io::{self, ErrorKind, Write};
use std::process;
use std::process::Abort;
use std::rt::Files;
use taken_core::recover::recover;

// A writer that takes nothing.
#[derive(Drop)]
struct Deaf;

impl Write for Deaf {
    fn write(&mut self, _buf: &[u8]) -> io::Result<usize> {
        Err(io::Error::from(ErrorKind::BrokenPipe))
    }

    fn flush(&mut self) -> io::Result<()> {
        Ok(())
    }
}

// Whether the lines of a file in memory are these, and it has no other ones.
fn recovers(alloc: Global, file: Memory, want: &[u8]) -> bool {
    let mut file = file;
    match recover(alloc, &mut file) {
        Ok(Ok(taken)) => {
            taken.lines.as_slice() == want && taken.size == recovered_len(file.bytes())
        }
        _ => false,
    }
}

// Whether steps are made, and lines that have no room are told so.
fn makes_steps(alloc: Global) -> Result<bool, DeviceError> {
    let mut steps = Vec::new(alloc);
    steps.push(JournalStep::Lines(b"b\n".to_vec(alloc)?))?;
    steps.push(JournalStep::Sync)?;
    if !is_front(b"object a epoch 1\n") {
        return Ok(false);
    }
    let file = Memory::new(alloc, Vec::new(alloc));
    let Ok(mut journal) = Journal::begin(alloc, file, b"object a epoch 1\n", 4) else {
        return Ok(false);
    };
    journal.run(&steps)?;
    let Err(DeviceError::Full) = journal.append(b"cc\n") else {
        return Ok(false);
    };
    Ok(recovers(alloc, journal.into_device(), b"object a epoch 1\nb\n"))
}

// Whether rounds are told as they ended: stored and answered, stored and not answered, and not stored.
fn makes_rounds(alloc: Global) -> bool {
    if !is_front(b"object a epoch 1\n") || !is_front(b"object d epoch 2\n") {
        return false;
    }
    let file = Memory::new(alloc, Vec::new(alloc));
    let Ok(mut journal) = Journal::begin(alloc, file, b"object a epoch 1\n", 4) else {
        return false;
    };
    let mut answers = Vec::new(alloc);
    let Ok(()) = journal.round(&mut answers, b"b\n", b"done\n") else {
        return false;
    };
    let Err(RoundFault::NotWritten) = journal.round(&mut Deaf, b"c\n", b"done\n") else {
        return false;
    };
    let Ok(true) = journal.change(alloc, b"object d epoch 2\n", 1) else {
        return false;
    };
    let Err(RoundFault::NotStored) = journal.round(&mut answers, b"e\n", b"done\n") else {
        return false;
    };
    answers.as_slice() == b"done\n".as_slice()
        && recovers(alloc, journal.into_device(), b"object d epoch 2\n")
}

// Catches `room_that_lacks_is_no_memory`, `steps_are_not_made`, `answers_are_not_written`, `journal_never_begins_anew`
// and `nothing_is_read_again`: no clause says that a call that can be made is made.
#[test]
fn a_journal_in_memory(rt: HostRuntime) {
    assert!(rt; makes_steps(rt.alloc()) == Ok(true));
    assert!(rt; makes_rounds(rt.alloc()));
}

// What is done with the file of a journal, or what it is.
#[derive(Clone, Copy, Drop)]
enum JournalLine {
    // Its bytes are these.
    Reads(Bytes),
    // These are written over it, from this byte on, and go to the disk.
    Writes(usize, Bytes),
    // These take the place of all.
    Replaces(Bytes),
    // They could not, and it is as it was.
    Stays(Bytes),
    // It is not known whether they do.
    Fails(Bytes),
    // Someone does this with the file of this name in its folder, or this is so of it.
    At(&'static str, Deed),
}

// More bytes than are looked at at once.
const ZEROS: [u8; 8_200] = [0; 8_200];

const LINES: [JournalLine; 30] = [
    // Nothing is made before something takes its place.
    JournalLine::At("kept.journal", Lacks),
    JournalLine::Reads(b""),
    JournalLine::Replaces(b"a\n\0\0"),
    JournalLine::At("kept.journal", Has(b"a\n\0\0")),
    JournalLine::At("kept.journal.new", Lacks),
    JournalLine::Writes(2, b"b\n"),
    JournalLine::Reads(b"a\nb\n"),
    // A longer one that a crash left has its place.
    JournalLine::At("kept.journal.new", Put(b"all that was to be written")),
    JournalLine::Replaces(b"c\n\0\0\0"),
    JournalLine::At("kept.journal", Has(b"c\n\0\0\0")),
    // What is written goes to the one that is there now.
    JournalLine::Writes(2, b"d\n"),
    JournalLine::At("kept.journal", Has(b"c\nd\n\0")),
    // Nothing can be written beside it.
    JournalLine::At("kept.journal.new", MakeFolder),
    JournalLine::Stays(b"e\n"),
    JournalLine::At("kept.journal", Has(b"c\nd\n\0")),
    JournalLine::Writes(2, b"f\n"),
    JournalLine::At("kept.journal", Has(b"c\nf\n\0")),
    JournalLine::At("kept.journal.new", RemoveFolder),
    JournalLine::Replaces(b"e\n"),
    // One that stands ready takes its place, cut to what is given, or made longer.
    JournalLine::At("kept.next", Put(b"\0\0\0\0\0\0")),
    JournalLine::Replaces(b"h\n\0\0"),
    JournalLine::At("kept.journal", Has(b"h\n\0\0")),
    JournalLine::At("kept.next", Lacks),
    JournalLine::At("kept.next", Put(b"\0\0")),
    JournalLine::Replaces(&ZEROS),
    JournalLine::At("kept.journal", Has(&ZEROS)),
    JournalLine::At("kept.journal.new", Lacks),
    // What was written beside it cannot be put in its place.
    JournalLine::At("kept.journal", Remove),
    JournalLine::At("kept.journal", MakeFolder),
    JournalLine::Fails(b"g\n"),
];

// Does what a line says, and tells whether it is so.
fn is_right<R: Files + AllocGlobal + Copy + Drop>(
    alloc: Global,
    scratch: &Scratch<R>,
    file: &mut FolderFile<R>,
    line: JournalLine,
) -> bool {
    match line {
        JournalLine::Reads(want) => match file.read(alloc) {
            Ok(bytes) => bytes.as_slice() == want,
            Err(_) => false,
        },
        JournalLine::Writes(at, bytes) => file.write_at(at, bytes).is_ok() && file.sync().is_ok(),
        JournalLine::Replaces(bytes) => file.replace(bytes) == Ok(true),
        JournalLine::Stays(bytes) => file.replace(bytes) == Ok(false),
        JournalLine::Fails(bytes) => file.replace(bytes) == Err(DeviceError::Failed),
        JournalLine::At(name, deed) => scratch.does(name, deed),
    }
}

// Plays the lines in a new folder of a process.
fn play<R: Abort + Files + AllocGlobal + Copy + Drop>(rt: R, process: u32) -> io::Result<()> {
    let scratch = Scratch::new(rt, process, "journal")?;
    let folder = scratch.path(".")?;
    let mut file = FolderFile::open(rt, folder.as_str(), "kept")?;
    for line in LINES {
        assert!(rt; is_right(rt.alloc(), &scratch, &mut file, line));
    }
    scratch.remove()
}

// Catches `written_at_the_end`, `longer_ready_file_is_not_cut`, `shorter_ready_file_is_not_filled`,
// `removed_file_is_written`, `half_a_file_is_put` and `renaming_is_not_looked_at`: no clause says what a folder has.
#[test]
fn the_file_of_a_journal_in_a_folder(rt: HostRuntime) {
    play(rt, process::id(rt.process())).expect(&rt, "a folder");
    assert!(rt; FolderFile::open(rt, "/no such folder", "kept").is_err());
}
