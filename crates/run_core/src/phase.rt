//! Where a run stands.

ghost use Rattle.std.specs.Prelude.{◌≡◌, ◌<◌, ◌≤◌, length, slice_index};
ghost use Rattle.std.specs.Int.{bit_at};
ghost use Rattle.page_core.specs.CallPins.{AreSized};

use crate::plan::PagePlan;
use crate::seen::Seen;
use apply_core::reply::Reply;
use device_core::hand::{Pen, Stamp};
use page_core::part_pins::PartPins;
use value_core::datum::Datum;

/// A run that reads.
#[derive(Drop)]
pub(crate) struct ReadingRun {
    // the part that is read, and the page of its pin that is read next, counted from 0
    pub(crate) part: usize,
    pub(crate) page: usize,
    // what was read of the parts before it
    pub(crate) seen: Seen,
    // its own bytes so far
    pub(crate) got: Vec<u8>,
    ghost low: { part < 16 },
    ghost places: { length seen.read.items ≤ part },
}

/// A run that reads the page that its body comes to.
#[derive(Drop)]
pub(crate) struct More {
    // the part that is read, and the page of its pin, counted from 0
    pub(crate) part: usize,
    pub(crate) page: usize,
    // what was read of all parts
    pub(crate) seen: Seen,
    ghost low: { part < 16 },
    ghost short: { page < 8 },
    // the page is not known
    ghost clear: { bit_at (slice_index seen.known part) page ≡ 0 },
}

/// A run that writes.
#[derive(Drop)]
pub(crate) struct Plan {
    // what the body replied
    pub(crate) reply: Option<Datum>,
    // what is written of what it changed, and what was sealed of it
    pub(crate) pages: PagePlan,
    ghost left: { length pages.sealed.items < length pages.writes.items },
}

/// What a run that has ended leaves.
#[derive(Drop)]
pub(crate) struct Leaving {
    // the new page lists of the parts that the body changed
    pub(crate) news: PartPins,
    // the files of the old lists that are not in these, in order
    pub(crate) gone: Vec<Stamp>,
    // the files that the run sealed, in order
    pub(crate) sealed: Vec<Stamp>,
    // the new page lists once more, in a row of their own
    pub(crate) entry: PartPins,
    ghost twice: { entry ≡ news },
    // each of them has from 1 to 8 pages
    ghost sized: { AreSized news },
}

/// Where a run stands.
pub(crate) enum Phase {
    Reading(ReadingRun),
    Paging(More),
    // a file is begun for the next page
    Creating(Plan),
    // its bytes are added to this file
    Appending(Plan, Pen),
    Sealing(Plan, Pen),
    // how the run ended, and what it leaves
    Ended(Reply, Leaving),
}

// Lets go of what stood in the place of a phase.
pub(crate) fn let_go(phase: Phase) {
    match phase {
        Phase::Appending(_plan, pen) => {
            let Pen { number: _ } = pen;
        }
        Phase::Sealing(_plan, pen) => {
            let Pen { number: _ } = pen;
        }
        Phase::Reading(_read) => {}
        Phase::Paging(_more) => {}
        Phase::Creating(_plan) => {}
        Phase::Ended(_reply, _left) => {}
    }
}
