//! Slips.

ghost use Rattle.std.specs.Prelude.{◌≡◌, ◌↔◌, [], IsTrue, IfSome, IfNone};
ghost use Rattle.office_core.specs.Slips.{StandsIn, IsEntryTold, pins_told};

use apply_core::short::Short;
use apply_core::slim::Slims;
use decl_core::object::Operation;
use decl_core::same::same_declaration;
use page_core::entry::Entry;
use page_core::part_pins::PartPins;
use std::marker::Model;
use std::sync::Arc;

/// What a receipt tells of its entry, in little room. A contract sees it as that.
#[derive(Drop)]
pub struct Slip {
    pub(crate) place: usize,
    pub(crate) number: u32,
    pub(crate) session: u32,
    pub(crate) operation: Arc<Operation>,
    pub(crate) args: Slims,
    pub(crate) reply: Short,
    // of the parts that the operation reads
    pub(crate) pins: PartPins,
    // the page lists that the run made; of a call that was not done they are published by nobody, and not shown
    pub(crate) news: PartPins,
}

impl Model for Slip {
    ghost use Rattle.std.specs.Arc.{arc_value};
    ghost use Rattle.decl_core.specs.contracts.object.Operation as e;
    ghost use Rattle.page_core.specs.CallPins.{call_of};
    ghost use Rattle.page_core.specs.Outcomes.{if_done};
    ghost use Rattle.office_core.specs.Slips.{Told};
    ghost use Rattle.std.specs.Coded.{codes};

    ghost Value = { Told };

    ghost coded = { Prim.hlevel (codes, e.the_row.coded) };

    ghost view = { λ s. record {
      place = s.place;
      session = s.session;
      call = call_of s.number (arc_value s.operation) s.args s.pins;
      reply = s.reply;
      news = if_done s.reply s.news;
    } };
}

impl Slip {
    /// The place of the entry in the history, from 1.
    pub fn place(&self) -> usize
        ensures { result ≡ self.now.place }
    {
        self.place
    }

    /// The number of the call.
    pub fn number(&self) -> u32
        ensures { result ≡ self.now.call.number }
    {
        self.number
    }

    /// Whether this is what the call replied.
    pub fn is_reply(&self, reply: &Short) -> bool
        ensures { IsTrue result ↔ (self.now.reply ≡ reply.now) }
    {
        self.reply.is_same(reply)
    }

    // The page lists that were published.
    fn new_pins(&self) -> Option<&PartPins>
        ensures some { IfSome result (λ pins. pins.now ≡ pins_told self.now) }
        ensures none { IfNone result (pins_told self.now ≡ []) }
    {
        if self.reply.is_done() {
            Some(&self.news)
        } else {
            None
        }
    }

    // Whether an entry has its new pins.
    fn has_news(&self, entry: &Entry) -> bool
        ensures { IsTrue result ↔ (entry.now.news ≡ pins_told self.now) }
    {
        match (entry.new_pins(), self.new_pins()) {
            (Some(news), Some(others)) => news.is_same(others),
            (Some(news), None) => news.is_empty(),
            (None, Some(others)) => others.is_empty(),
            (None, None) => true,
        }
    }

    /// Whether this is the entry that it tells of. It takes no memory.
    pub fn is_of(&self, entry: &Entry) -> bool
        ensures { IsTrue result ↔ IsEntryTold self.now entry.now }
    {
        if entry.number() != self.number {
            return false;
        }
        if entry.session() != self.session {
            return false;
        }
        if !same_declaration(entry.operation(), &self.operation) {
            return false;
        }
        if !self.args.is_same(entry.args()) {
            return false;
        }
        if !self.reply.is_same(entry.kept_reply()) {
            return false;
        }
        if !self.has_news(entry) {
            return false;
        }
        entry.pins().is_same(&self.pins)
    }

    /// Whether the entry at its place in a history is the one that it tells of. It takes no memory.
    pub fn stands_in(&self, history: &[Entry]) -> bool
        ensures { IsTrue result ↔ StandsIn history.now self.now }
    {
        if self.place == 0 {
            return false;
        }
        match history.get(self.place - 1) {
            None => false,
            Some(entry) => self.is_of(entry),
        }
    }
}
