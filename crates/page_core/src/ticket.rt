//! A call that may run.

ghost use Rattle.std.specs.Prelude.{◌≡◌};
ghost use Rattle.std.specs.Arc.{arc_value};
ghost use Rattle.apply_core.specs.Fits.{ArgumentsFit};
ghost use Rattle.page_core.specs.CallPins.{HasPins};

use crate::part_pins::PartPins;
use decl_core::object::Operation;
use std::sync::Arc;
use value_core::datum::Datum;

/// A call of an operation that was admitted, with the pins that it reads. It has to be spent, by a run.
pub struct Ticket {
    number: u32,
    operation: Arc<Operation>,
    args: Vec<Datum>,
    pins: PartPins,
    // the arguments are as many as the parameters, each of its sort
    ghost fits: { ArgumentsFit (arc_value operation) args.items },
    // each part that the operation reads has a pin
    ghost pinned: { HasPins (arc_value operation) pins },
}

impl Ticket {
    ghost use Rattle.page_core.specs.Tickets.{ticket_call};
    ghost use Rattle.page_core.specs.CallPins.{call_of};

    /// The call of this number. The arguments have to fit the operation's parameters, and each part that it
    /// reads has to have a pin. It takes no memory.
    pub fn new(number: u32, operation: Arc<Operation>, args: Vec<Datum>, pins: PartPins) -> Ticket
        requires fits { ArgumentsFit (arc_value operation) args.items }
        requires pinned { HasPins (arc_value operation) pins }
        ensures { ticket_call result ≡ call_of number (arc_value operation) args.items pins }
    {
        Ticket {
            number,
            operation,
            args,
            pins,
        }
    }

    /// Its number, its operation, its arguments and its pins.
    pub fn into_parts(self) -> (u32, Arc<Operation>, Vec<Datum>, PartPins)
        ensures call { call_of result.0 (arc_value result.1) result.2.items result.3 ≡ ticket_call self }
        ensures fits { ArgumentsFit (arc_value result.1) result.2.items }
        ensures pinned { HasPins (arc_value result.1) result.3 }
    {
        let Ticket {
            number,
            operation,
            args,
            pins,
        } = self;
        (number, operation, args, pins)
    }
}
