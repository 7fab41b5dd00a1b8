//! A call that is run.

ghost use Rattle.std.specs.Prelude.{◌≡◌, ◌≢◌, ◌<◌, ◌≤◌, ℕ, IfSome, IfNone, Some, None};
ghost use Rattle.std.specs.Arc.{arc_value};
ghost use Rattle.std.specs.Int.{bit_at};
ghost use Rattle.decl_core.specs.Bodies.{body_of};
ghost use Rattle.decl_core.specs.Touched.{Reads};
ghost use Rattle.apply_core.specs.Fits.{ArgumentsFit};
ghost use Rattle.page_core.specs.PartPins.{pin_at};

use decl_core::footprint::{is_in, reads};
use decl_core::id::MOST_PARTS;
use decl_core::object::Operation;
use device_core::hand::Stamp;
use page_core::part_pins::PartPins;
use page_core::ticket::Ticket;
use std::sync::Arc;
use value_core::datum::Datum;

/// A call that is run, and which parts it reads.
#[derive(Drop)]
pub struct Task {
    /// The number of the call.
    pub number: u32,
    /// The operation that was called.
    pub operation: Arc<Operation>,
    /// The arguments, in order.
    pub args: Vec<Datum>,
    /// The pins of the parts that it reads.
    pub pins: PartPins,
    /// The parts that it reads: bit p stands for part p.
    pub reads: u16,
    ghost fits: { ArgumentsFit (arc_value operation) args.items },
    // the bit of each part that the operation reads is set
    ghost named: { (p : ℕ) → Reads (body_of (arc_value operation)).statements p → bit_at reads p ≡ 1 },
    // that of no other part
    ghost only: { (p : ℕ) → bit_at reads p ≡ 1 → (Reads (body_of (arc_value operation)).statements p → ⊥) → ⊥ },
    // it reads parts of an object, of which there are at most 16
    ghost low: { (p : ℕ) → Reads (body_of (arc_value operation)).statements p → p < 16 },
    // each part whose bit is set has a pin
    ghost pinned: { (p : ℕ) → bit_at reads p ≡ 1 → pin_at pins p ≢ None },
}

// The first part from this one on whose bit is set.
fn next_bit(bits: u16, from: usize) -> Option<usize>
    ensures found { IfSome result (λ p. (from ≤ p) × (p < 16) × (bit_at bits p ≡ 1)) }
    ensures first { IfSome result (λ p. (q : ℕ) → from ≤ q → q < p → bit_at bits q ≡ 1 → ⊥) }
    ensures none { IfNone result ((q : ℕ) → from ≤ q → bit_at bits q ≡ 1 → ⊥) }
{
    let mut part = from;
    while part < MOST_PARTS {
        if is_in(part, bits) {
            return Some(part);
        }
        part += 1;
    }
    None
}

/// The pages of a part that has a pin.
pub fn pages_of(pins: &PartPins, part: usize) -> &[Stamp]
    requires { pin_at pins.now part ≢ None }
    ensures { pin_at pins.now part ≡ Some result.now }
{
    match pins.pages(part) {
        Some(pages) => pages,
        None => &[],
    }
}

impl Task {
    ghost use Rattle.run_core.specs.Tasks.{task_call};
    ghost use Rattle.page_core.specs.Tickets.{ticket_call};
    ghost use Rattle.page_core.specs.CallPins.{IsNext, ReadsNone};

    /// The call of a ticket. It takes no memory.
    pub fn new(ticket: Ticket) -> Task
        ensures { task_call result ≡ ticket_call ticket }
    {
        let (number, operation, args, pins) = ticket.into_parts();
        let reads = reads(&operation);
        Task {
            number,
            operation,
            args,
            pins,
            reads,
        }
    }

    /// The first part from this one on that the call reads, from 0 to 15, or `None` where there is none.
    pub fn next_part(&self, from: usize) -> Option<usize>
        ensures next { IfSome result (λ p. IsNext (task_call self.now) from p × (p < 16)) }
        ensures none { IfNone result (ReadsNone (task_call self.now) from) }
    {
        match next_bit(self.reads, from) {
            Some(part) => Some(part),
            None => None,
        }
    }
}
