//! Devices in one folder, and what others do there, as the rows of scripts.

use crate::hand_calls::{FileRow, HandCall};
use crate::hands::is_a_hand;
use crate::scratch::{Deed, Scratch};
use crate::shelf_calls::{ShelfCall, play};
use crate::shelves::is_a_shelf;
use device_core::ahead::{AheadHand, Ends};
use device_core::dir::DirHand;
use device_core::dir_shelf::DirShelf;
use device_core::numbers::Numbers;
use device_core::sealed::Sealed;
use std::alloc::Global;
use std::io;
use std::os::unix::fs::FileExt;
use std::process::Abort;
use std::rt::Files;
use std::sync::Arc;

/// What is done in a folder, or what is there.
#[derive(Clone, Copy, Drop)]
pub enum FolderStep {
    /// What every hand does, and every shelf. Both have to be new.
    All,
    /// Calls of the hand, which has the files of the script.
    Hand(&'static [HandCall]),
    /// Calls of another hand on the folder, with the same numbers and the same files of the script.
    Other(&'static [HandCall]),
    /// Calls of a hand on the folder that has its next file ready, with the same numbers and the same
    /// files of the script.
    Ahead(&'static [HandCall]),
    /// Calls of another such hand, which shares with it what they sealed last.
    Twin(&'static [HandCall]),
    /// The first of these two ends.
    AheadEnds,
    /// Calls of the shelf.
    Shelf(&'static [ShelfCall]),
    /// Calls of the hand and of the shelf, where the system lets this process write no file in the folder.
    Denied(&'static [HandCall], &'static [ShelfCall]),
    /// Someone does this with the file of this name, or this is so of it.
    At(&'static str, Deed),
}

/// Four hands and a shelf in one folder, with the files of a script.
#[derive(Drop)]
pub struct SharedFolder<R: Files + AllocGlobal> {
    hand: DirHand<R>,
    other: DirHand<R>,
    ahead: AheadHand<R>,
    twin: AheadHand<R>,
    shelf: DirShelf<R>,
    files: FileRow,
}

impl<R: Files + AllocGlobal + Copy + Drop> SharedFolder<R>
where
    R::File: FileExt,
{
    /// New devices on this folder, with numbers from this one on.
    pub fn new(rt: R, folder: &str, first: u64) -> io::Result<SharedFolder<R>> {
        let numbers = Arc::new(rt.alloc(), Numbers::new(first))?;
        let others = Arc::try_clone(&numbers)?;
        let sealed = Arc::new(rt.alloc(), Sealed::new(rt.alloc())?)?;
        let ahead = DirHand::new(rt, folder, Arc::try_clone(&numbers)?)?;
        let ahead = AheadHand::new(rt, ahead, folder, Arc::try_clone(&sealed)?)?;
        let twin = DirHand::new(rt, folder, Arc::try_clone(&numbers)?)?;
        let twin = AheadHand::new(rt, twin, folder, sealed)?;
        let hand = DirHand::new(rt, folder, numbers)?;
        let other = DirHand::new(rt, folder, others)?;
        let shelf = DirShelf::new(rt, folder)?;
        let files = FileRow::new(&hand);
        Ok(SharedFolder {
            hand,
            other,
            ahead,
            twin,
            shelf,
            files,
        })
    }

    // Makes calls of the hand and of the shelf.
    fn calls(
        &mut self,
        rt: &impl Abort,
        alloc: Global,
        calls: &[HandCall],
        entries: &[ShelfCall],
        number: usize,
    ) {
        self.files.play(rt, &mut self.hand, calls, number);
        play(rt, alloc, &mut self.shelf, entries, number);
    }

    // What every hand and every shelf does.
    fn all(&mut self, rt: &impl Abort, alloc: Global) {
        is_a_hand(rt, alloc, &mut self.hand);
        is_a_hand(rt, alloc, &mut self.ahead);
        is_a_shelf(rt, alloc, &mut self.shelf);
    }

    // Does what a line says, and tells whether it is so.
    fn is_right(
        &mut self,
        rt: &impl Abort,
        alloc: Global,
        scratch: &Scratch<R>,
        line: FolderStep,
        number: usize,
    ) -> bool {
        match line {
            FolderStep::All => self.all(rt, alloc),
            FolderStep::Hand(calls) => self.calls(rt, alloc, calls, &[], number),
            FolderStep::Other(calls) => self.files.play(rt, &mut self.other, calls, number),
            FolderStep::Ahead(calls) => self.files.play(rt, &mut self.ahead, calls, number),
            FolderStep::Twin(calls) => self.files.play(rt, &mut self.twin, calls, number),
            FolderStep::AheadEnds => self.ahead.end(),
            FolderStep::Shelf(entries) => self.calls(rt, alloc, &[], entries, number),
            FolderStep::Denied(calls, entries) => {
                if !scratch.does("probe", Deed::Write(b"")) {
                    self.calls(rt, alloc, calls, entries, number);
                }
            }
            FolderStep::At(name, deed) => return scratch.does(name, deed),
        }
        true
    }

    /// Does what the lines say, and asserts that it is so. The first line has this number.
    pub fn play(
        &mut self,
        rt: &impl Abort,
        alloc: Global,
        scratch: &Scratch<R>,
        lines: &[FolderStep],
        first: usize,
    ) {
        let mut number = first;
        for line in lines {
            assert!(rt;
                self.is_right(rt, alloc, scratch, *line, number),
                "line {number}"
            );
            number = number.saturating_add(1);
        }
    }
}
