//! Entries of a history.

ghost use Rattle.std.specs.Prelude.{◌≡◌, [], IfSome, IfNone};
ghost use Rattle.std.specs.Arc.{arc_value};
ghost use Rattle.page_core.specs.Outcomes.{if_done};
ghost use Rattle.page_core.specs.ObjectCalls.{noted_of};

use crate::call::Call;
use crate::part_pins::PartPins;
use apply_core::reply::Reply;
use apply_core::short::Short;
use apply_core::slim::Slims;
use decl_core::object::Operation;
use std::marker::Model;
use std::sync::Arc;

/// A call that has finished: how it ended, by which pins it read, and which page lists it published.
#[derive(Drop)]
pub struct Entry {
    number: u32,
    call: Arc<Call>,
    reply: Short,
    pins: PartPins,
    // of a call that was not done they are published by nobody, and not shown
    news: PartPins,
}

impl Model for Entry {
    ghost use Rattle.std.specs.Arc.{arc_value};
    ghost use Rattle.page_core.specs.ObjectCalls.{Noted, noted_of};
    ghost use Rattle.page_core.specs.Outcomes.{if_done};
    ghost use Rattle.decl_core.specs.contracts.object.Operation as e;
    ghost use Rattle.std.specs.Coded.{codes};

    ghost Value = { Noted };

    ghost coded = { Prim.hlevel (codes, e.the_row.coded) };

    ghost view = { λ e. noted_of e.number (arc_value e.call) e.reply e.pins (if_done e.reply e.news) };
}

impl Entry {
    /// The entry of a call that ended so: the pins of the parts that its operation reads, and the new pins of the parts
    /// that it changed, which count where it was done. It takes no memory.
    pub fn new(number: u32, call: Arc<Call>, reply: Short, pins: PartPins, news: PartPins) -> Entry
        ensures { result ≡ noted_of number (arc_value call) reply pins (if_done reply news) }
    {
        Entry {
            number,
            call,
            reply,
            pins,
            news,
        }
    }

    /// The number of the call.
    pub fn number(&self) -> u32
        ensures { result ≡ self.now.number }
    {
        self.number
    }

    /// The session that made it.
    pub fn session(&self) -> u32
        ensures { result ≡ self.now.session }
    {
        self.call.session()
    }

    /// The operation that was called.
    pub fn operation(&self) -> &Arc<Operation>
        ensures { arc_value result.now ≡ self.now.operation }
    {
        self.call.operation()
    }

    /// The arguments, in order.
    pub fn args(&self) -> &Slims
        ensures { result.now ≡ self.now.arguments }
    {
        self.call.args()
    }

    /// What the call replied.
    pub fn reply(&self) -> Reply
        ensures { result ≡ self.now.reply }
    {
        self.reply.reply()
    }

    /// What the call replied, where it is kept.
    pub fn kept_reply(&self) -> &Short
        ensures { result.now ≡ self.now.reply }
    {
        &self.reply
    }

    /// The pins by which the call read, one for each part that its operation reads, in the order of the parts.
    pub fn pins(&self) -> &PartPins
        ensures { result.now ≡ self.now.pins }
    {
        &self.pins
    }

    /// The new pins that were published, for the parts that the call changed, in the order of the parts. Only a call
    /// that was done has some.
    pub fn new_pins(&self) -> Option<&PartPins>
        ensures some { IfSome result (λ pins. pins.now ≡ self.now.news) }
        ensures none { IfNone result (self.now.news ≡ []) }
    {
        if self.reply.is_done() {
            return Some(&self.news);
        }
        None
    }
}
