//! How a run ended.

ghost use Rattle.std.specs.Prelude.{◌≡◌, ◌≢◌, ◌↔◌, [], ℕ, IsTrue, None, IfSome, IfNone};
ghost use Rattle.std.specs.Arc.{arc_value};
ghost use Rattle.decl_core.specs.Bodies.{body_of};
ghost use Rattle.decl_core.specs.Touched.{Writes};
ghost use Rattle.page_core.specs.PartPins.{pin_at};
ghost use Rattle.page_core.specs.CallPins.{AreSized};

use crate::part_pins::PartPins;
use crate::ticket::Ticket;
use apply_core::reply::Reply;
use decl_core::id::MOST_PARTS;
use decl_core::object::Operation;
use device_core::hand::Stamp;
use std::mem;
use std::sync::Arc;
use value_core::datum::Datum;

/// How a run of a call ended. A run alone makes one.
#[derive(Drop)]
pub struct Outcome {
    number: u32,
    operation: Arc<Operation>,
    args: Vec<Datum>,
    pins: PartPins,
    reply: Reply,
    // the new page lists of the parts that the body changed
    news: PartPins,
    // the new page lists once more, for the entry, until they are taken
    entry: PartPins,
    // the files of the old lists that are not in these, in order
    gone: Vec<Stamp>,
    // the files that the run sealed, in order
    sealed: Vec<Stamp>,
    // each of its new page lists has from 1 to 8 pages
    ghost sized: { AreSized news },
    // its new page lists are of parts that the operation writes
    ghost inside: { (p : ℕ) → pin_at news p ≢ None → (Writes (body_of (arc_value operation)).statements p → ⊥) → ⊥ },
}

impl Outcome {
    ghost use Rattle.page_core.specs.Outcomes.{outcome_call, outcome_reply, outcome_news, outcome_sealed, outcome_pins};
    ghost use Rattle.page_core.specs.Outcomes.{outcome_free, outcome_entry, outcome_gone, IsFresh, TellsSame};
    ghost use Rattle.page_core.specs.Tickets.{ticket_call};

    /// How the call of a ticket ended: its reply, the new page lists of the parts that its body changed, these once more
    /// for the entry, the files of the old lists that are not in the new ones, and the files that the run sealed. It takes
    /// no memory.
    pub fn of(
        ticket: Ticket,
        reply: Reply,
        news: PartPins,
        entry: PartPins,
        gone: Vec<Stamp>,
        sealed: Vec<Stamp>,
    ) -> Outcome
        requires sized { AreSized news }
        requires inside { (p : ℕ) → pin_at news p ≢ None →
            (Writes (body_of (ticket_call ticket).operation).statements p → ⊥) → ⊥ }
        ensures call { outcome_call result ≡ ticket_call ticket }
        ensures reply { outcome_reply result ≡ reply }
        ensures news { outcome_news result ≡ news }
        ensures entry { outcome_entry result ≡ entry }
        ensures gone { outcome_gone result ≡ gone.items }
        ensures sealed { outcome_sealed result ≡ sealed.items }
    {
        let (number, operation, args, pins) = ticket.into_parts();
        Outcome {
            number,
            operation,
            args,
            pins,
            reply,
            news,
            entry,
            gone,
            sealed,
        }
    }

    /// The number of the call.
    pub fn number(&self) -> u32
        ensures { result ≡ (outcome_call self.now).number }
    {
        self.number
    }

    /// The operation that was called.
    pub fn operation(&self) -> &Arc<Operation>
        ensures { arc_value result.now ≡ (outcome_call self.now).operation }
    {
        &self.operation
    }

    /// The arguments, in order.
    pub fn args(&self) -> &[Datum]
        ensures { result.now ≡ (outcome_call self.now).arguments }
    {
        &self.args
    }

    /// The pins that the run read by, one for each part that the operation reads.
    pub fn pins(&self) -> &PartPins
        ensures { result.now ≡ (outcome_call self.now).pins }
    {
        &self.pins
    }

    /// What the call replies.
    pub fn reply(&self) -> &Reply
        ensures { result.now ≡ outcome_reply self.now }
    {
        &self.reply
    }

    /// The new pins of the parts that the body changed, in the order of the parts: of each part from 1 to 8 pages. Only
    /// a call that was done has some.
    pub fn new_pins(&self) -> Option<&PartPins>
        ensures some { IfSome result (λ pins. pins.now ≡ outcome_pins self.now) }
        ensures none { IfNone result (outcome_pins self.now ≡ []) }
        ensures inside { (p : ℕ) → pin_at (outcome_pins self.now) p ≢ None →
            Writes (body_of (outcome_call self.now).operation).statements p }
        ensures sized { AreSized (outcome_pins self.now) }
    {
        match self.reply {
            Reply::Done(_) => Some(&self.news),
            Reply::Refused(_) => None,
            Reply::Failed(_) => None,
        }
    }

    /// The files that the call leaves to nobody, in order: after a body that was done those of its old page lists that
    /// are not in the new ones, and after a failure those that the run sealed.
    pub fn free(&self) -> &[Stamp]
        ensures { result.now ≡ outcome_free self.now }
    {
        match self.reply {
            Reply::Done(_) => &self.gone,
            Reply::Refused(_) => &[],
            Reply::Failed(_) => &self.sealed,
        }
    }

    /// The operation that was called, the pins that the run read by, and the page lists that it made, where the rest of
    /// the outcome is not needed any more.
    pub fn into_rows(self) -> (Arc<Operation>, PartPins, PartPins)
        ensures operation { arc_value result.0 ≡ (outcome_call self).operation }
        ensures pins { result.1 ≡ (outcome_call self).pins }
        ensures news { result.2 ≡ outcome_news self }
    {
        let Outcome {
            number: _,
            operation,
            args: _,
            pins,
            reply: _,
            news,
            entry: _,
            gone: _,
            sealed: _,
        } = self;
        (operation, pins, news)
    }

    /// The files that the run sealed, in order.
    pub fn sealed(&self) -> &[Stamp]
        ensures { result.now ≡ outcome_sealed self.now }
    {
        &self.sealed
    }

    /// Whether it can be handed in: the row of its entry was not taken. It takes no memory.
    pub fn is_fresh(&self) -> bool
        ensures { IsTrue result ↔ IsFresh self.now }
    {
        self.entry.is_same(&self.news)
    }

    /// Takes the row of new pins that the run made for the entry. It takes no memory.
    pub fn take_entry(&mut self) -> PartPins
        ensures taken { result ≡ outcome_entry self.old }
        ensures same { TellsSame self.old self.new }
        ensures free { outcome_free self.new ≡ outcome_free self.old }
    {
        let none = PartPins::from_counts([0; MOST_PARTS], Vec::new(*self.gone.allocator()));
        mem::replace(&mut self.entry, none)
    }

    /// Takes the files that the call leaves to nobody, as `free` tells them. It takes no memory.
    pub fn take_free(&mut self) -> Vec<Stamp>
        ensures taken { result.items ≡ outcome_free self.old }
        ensures same { TellsSame self.old self.new }
        ensures entry { outcome_entry self.new ≡ outcome_entry self.old }
    {
        let none = Vec::new(*self.gone.allocator());
        match self.reply {
            Reply::Done(_) => mem::replace(&mut self.gone, none),
            Reply::Refused(_) => none,
            Reply::Failed(_) => mem::replace(&mut self.sealed, none),
        }
    }
}
