//! Objects, and what is made of them.

use decl_core::analyse::{Accepted, analyse};
use decl_core::object::Object;
use decl_read::read::read_objects;
use device_core::hand::Hand;
use device_core::mem_shelf::MemShelf;
use office_core::inside::Inside;
use office_core::office::Office;
use office_core::seat::{Seat, Started, Submitted};
use page_core::open::open_parts;
use page_core::pins::Pins;
use page_core::ticket::Ticket;
use std::alloc::Global;
use std::process::Abort;
use std::sync::Wait;
use value_core::datum::Datum;

// The last object of a text.
fn object_of(rt: &impl Abort, alloc: Global, text: &[u8]) -> Object {
    let mut objects = match read_objects(alloc, text) {
        Ok(objects) => objects,
        Err(_) => panic!(rt; "no objects"),
    };
    match objects.pop() {
        Some((_name, object)) => object,
        None => panic!(rt; "no object"),
    }
}

/// The one object of a text, accepted.
pub fn accepted(rt: &impl Abort, alloc: Global, text: &[u8]) -> Accepted {
    match analyse(alloc, object_of(rt, alloc, text)) {
        Ok(accepted) => accepted,
        Err(_) => panic!(rt; "refused"),
    }
}

/// The pins of an object whose parts have their opening values, each page a file of this hand.
pub fn pins_of<H: Hand>(rt: &impl Abort, alloc: Global, object: &Object, hand: &mut H) -> Pins {
    let mut shelf = MemShelf::new(alloc);
    match open_parts(alloc, object, &mut shelf, hand) {
        Ok((pins, _values)) => pins,
        Err(_) => panic!(rt; "no parts"),
    }
}

// One value, read by many or changed by one.
const CELL: &[u8] = b"object cell;
  path 1:([get], put) end;
  var v : array [1] of integer;
  entry function get : integer; begin get := v[0] end;
  entry procedure put(x : integer); begin v[0] := x end;
end;
";

/// The office of a cell that is `[0]`, in file 1 of this hand.
pub fn office_of<H: Hand>(rt: &impl Abort, alloc: Global, hand: &mut H) -> Office {
    let cell = accepted(rt, alloc, CELL);
    let pins = pins_of(rt, alloc, cell.object(), hand);
    assert!(rt; pins.len() == cell.object().parts.len());
    let inside = match Inside::open(alloc, cell, pins) {
        Ok(inside) => inside,
        Err(_) => panic!(rt; "no memory"),
    };
    match Office::open(alloc, inside) {
        Ok(office) => office,
        Err(_) => panic!(rt; "no memory"),
    }
}

/// The ticket of a call that starts now or later.
pub fn ticket_of<R: Abort + Wait>(
    rt: &R,
    office: &Office,
    seat: &mut Seat,
    op: &str,
    args: &[Datum],
) -> Ticket {
    match office.submit(rt, seat, op, args) {
        Ok(submitted) => started(rt, office, submitted),
        Err(_) => panic!(rt; "no call"),
    }
}

// The ticket of a submission, once it has started.
fn started<R: Abort + Wait>(rt: &R, office: &Office, submitted: Submitted) -> Ticket {
    match office.await_start(rt, submitted) {
        Started::Ticket(ticket) => ticket,
        _ => panic!(rt; "no ticket"),
    }
}

/// A seat without a name.
pub fn seat_of<R: Abort + Wait>(rt: &R, office: &Office) -> Seat {
    match office.seat(rt) {
        Ok(seat) => seat,
        Err(_) => panic!(rt; "no seat"),
    }
}
