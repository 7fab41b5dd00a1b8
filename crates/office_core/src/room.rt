//! The making of slips, with memory that is taken ahead.

ghost use Rattle.std.specs.Prelude.{◌≡◌, [], IfSome, IfNone, OnOk};
ghost use Rattle.page_core.specs.Outcomes.{outcome_call};
ghost use Rattle.office_core.specs.Rooms.{IsMade};
ghost use Rattle.office_core.specs.Slips.{told_by};

use crate::slip::Slip;
use apply_core::short::Short;
use apply_core::slim::Slims;
use device_core::hand::Stamp;
use page_core::outcome::Outcome;
use page_core::part_pins::PartPins;
use std::alloc::{AllocError, Global};
use std::mem;
use value_core::datum::Datum;
use value_core::limits::MOST_TEXT_BYTES;

// The most pages that the parts of an object may have: 16 parts of 8 pages.
const MOST_STAMPS: usize = 128;

// Memory for a row of at most 128 stamps. As many as the last row had are there in a piece of their own: to take the
// whole row and to shrink it costs more than all else of a slip.
#[derive(Drop)]
pub(crate) struct RowRoom {
    usual: Vec<Stamp>,
    most: Vec<Stamp>,
    // how many the last row had
    count: usize,
}

/// Memory for the next slip of a session, so that a slip is made without memory.
#[derive(Drop)]
pub struct SlipRoom {
    alloc: Global,
    args: Slims,
    reply: Vec<u8>,
    pins: RowRoom,
    news: RowRoom,
}

// Takes a row away, and leaves none.
fn emptied(row: &mut Vec<Stamp>, alloc: Global) -> Vec<Stamp>
    ensures { result.items ≡ [] }
{
    let mut out = mem::replace(row, Vec::new(alloc));
    out.clear();
    out
}

impl RowRoom {
    // No memory yet.
    fn new(alloc: Global) -> RowRoom {
        RowRoom {
            usual: Vec::new(alloc),
            most: Vec::new(alloc),
            count: 0,
        }
    }

    // Takes the memory for a row.
    fn make(&mut self) -> Result<(), AllocError> {
        self.usual.reserve_exact(self.count)?;
        self.most.reserve_exact(MOST_STAMPS)?;
        Ok(())
    }

    // An empty row for so many stamps, in memory that was taken for it. Where that is too little, it has less room.
    fn row(&mut self, alloc: Global, len: usize) -> Vec<Stamp>
        ensures { result.items ≡ [] }
    {
        if len == 0 {
            return Vec::new(alloc);
        }
        self.count = len;
        if self.usual.capacity() == len {
            return emptied(&mut self.usual, alloc);
        }
        let mut row = emptied(&mut self.most, alloc);
        row.shrink_to(len);
        row
    }

    // These pins in memory that was taken for them, or where they lie, where it is too little.
    fn filled(&mut self, alloc: Global, pins: PartPins) -> PartPins
        ensures { result ≡ pins }
    {
        let row = self.row(alloc, pins.len());
        pins.within(row)
    }
}

impl SlipRoom {
    /// No memory yet.
    pub fn new(alloc: Global) -> SlipRoom {
        SlipRoom {
            alloc,
            args: Slims::empty(alloc),
            reply: Vec::new(alloc),
            pins: RowRoom::new(alloc),
            news: RowRoom::new(alloc),
        }
    }

    /// Takes the memory for the slip of a call with these arguments. The error is that memory was refused.
    pub fn make(&mut self, args: &[Datum]) -> Result<(), AllocError>
        ensures { OnOk result (IsMade args.now self.new) }
    {
        self.reply.reserve_exact(MOST_TEXT_BYTES)?;
        self.pins.make()?;
        self.news.make()?;
        self.args = Slims::new(self.alloc, args)?;
        Ok(())
    }

    /// The slip of an outcome of a call of this session, whose entry has this place, from 1. It gives one wherever
    /// memory was taken for a call with its arguments (`make`), and takes none.
    pub fn slip(&mut self, place: usize, session: u32, outcome: Outcome) -> Option<Slip>
        ensures told { IfSome result (λ s. s ≡ told_by place session outcome) }
        ensures given { IfNone result (IsMade (outcome_call outcome).arguments self.old → ⊥) }
    {
        let args = mem::replace(&mut self.args, Slims::empty(self.alloc));
        if !args.are(outcome.args()) {
            return None;
        }
        if self.reply.capacity() < MOST_TEXT_BYTES {
            return None;
        }
        let reply = Short::within(self.alloc, &mut self.reply, outcome.reply());
        let number = outcome.number();
        let (operation, pins, news) = outcome.into_rows();
        let pins = self.pins.filled(self.alloc, pins);
        let news = self.news.filled(self.alloc, news);
        Some(Slip {
            place,
            number,
            session,
            operation,
            args,
            reply,
            pins,
            news,
        })
    }
}
