//! Offices of small objects, and sessions on them.

use crate::streams::Told;
use decl_core::analyse::{Accepted, analyse};
use decl_core::object::Object;
use decl_read::read::read_objects;
use device_core::hand::Hand;
use device_core::memory::MemHand;
use device_core::whole::put;
use office_core::inside::Inside;
use office_core::office::Office;
use office_core::seat::{Seat, Tried};
use page_core::page_list::PageList;
use page_core::pins::Pins;
use page_core::ticket::Ticket;
use path_tree::name::Name;
use run_core::at_once::run_at_once;
use session_core::end::SessionEnd;
use session_core::order::Named;
use session_core::serve::{Connection, serve_session};
use session_text::bell::Bell;
use std::alloc::Global;
use std::io::{Read, Write};
use std::process::Abort;
use std::sync::Wait;
use std::thread::Threads;
use std::time::Clock;

/// An object with one part, of one number.
pub const CELL: &[u8] = b"object cell;
  path 1:([get], put) end;
  var v : array [1] of integer;
  entry function get : integer; begin get := v[0] end;
  entry procedure put(x : integer); begin v[0] := x end;
end;
";

/// An object whose `remove` waits for a `deposit`.
pub const BUFFER: &[u8] = b"object buffer;
  path 5:(deposit; remove) end;
  path 1:(deposit, remove) end;
  var box : queue of integer;
  entry procedure deposit(x : integer); begin append(box, x) end;
  entry function remove : integer; begin remove := first(box); take(box) end;
end;
";

/// An object whose `b` comes after an `a`, and which does nothing with its part, so that any hand performs its calls.
pub const TURNS: &[u8] = b"object turns;
  path a; b end;
  path 1:(a, b) end;
  var v : array [1] of integer;
  entry procedure a; begin end;
  entry procedure b; begin end;
end;
";

/// An object whose calls come one after another, since each writes what the next one reads.
pub const STEPS: &[u8] = b"object steps;
  path 1:(a) end;
  var v : array [1] of integer;
  entry procedure a; begin v[0] := v[0] + 1 end;
end;
";

/// The array `[0]`.
pub const ZERO: &[u8] = b"\x02\x01\x00\x01\x00\x00\x00\x00";

/// The queue `<>`.
pub const EMPTY: &[u8] = b"\x02\x03\x00\x00";

// The last object of a text.
fn object_of(rt: &impl Abort, alloc: Global, text: &[u8]) -> Object {
    let mut objects = match read_objects(alloc, text) {
        Ok(objects) => objects,
        Err(_) => panic!(rt; "no objects"),
    };
    match objects.pop() {
        Some((_name, object)) => object,
        None => panic!(rt; "no object"),
    }
}

// The one object of a text, accepted.
fn accepted(rt: &impl Abort, alloc: Global, text: &[u8]) -> Accepted {
    match analyse(alloc, object_of(rt, alloc, text)) {
        Ok(accepted) => accepted,
        Err(_) => panic!(rt; "refused"),
    }
}

/// The name that these bytes spell.
pub fn name(rt: &impl Abort, alloc: Global, bytes: &[u8]) -> Name {
    match Name::read(alloc, bytes) {
        Ok(Some(name)) => name,
        _ => panic!(rt; "no name"),
    }
}

// The office of an object whose one part is spelled so, in a file of this hand.
fn office_of(
    rt: &impl Abort,
    alloc: Global,
    accepted: Accepted,
    part: &[u8],
    hand: &mut MemHand,
) -> Office {
    let stamp = match put(hand, part) {
        Ok(stamp) => stamp,
        Err(_) => panic!(rt; "no file"),
    };
    let pins = Pins::new(&[PageList::of(&[stamp])]);
    assert!(rt; pins.len() == accepted.object().parts.len());
    let inside = match Inside::open(alloc, accepted, pins) {
        Ok(inside) => inside,
        Err(_) => panic!(rt; "no memory"),
    };
    match Office::open(alloc, inside) {
        Ok(office) => office,
        Err(_) => panic!(rt; "no memory"),
    }
}

/// The office of the object of a text, whose one part is spelled so, and the hand that its file is on.
pub fn offices(rt: &impl Abort, alloc: Global, text: &[u8], part: &[u8]) -> (Vec<Named>, MemHand) {
    let mut hand = MemHand::new(alloc);
    let accepted = accepted(rt, alloc, text);
    let name = name(rt, alloc, accepted.object().name.as_bytes());
    let office = office_of(rt, alloc, accepted, part, &mut hand);
    let mut all = Vec::new(alloc);
    assert!(rt; all.push(Named { name, office }).is_ok());
    (all, hand)
}

/// The first of some offices.
pub fn first_of<'a>(rt: &impl Abort, all: &'a Vec<Named>) -> &'a Office {
    match all.first() {
        Some(named) => &named.office,
        None => panic!(rt; "no office"),
    }
}

/// A seat without a name.
pub fn seat_of<R: Abort + Wait>(rt: &R, office: &Office) -> Seat {
    match office.seat(rt) {
        Ok(seat) => seat,
        Err(_) => panic!(rt; "no seat"),
    }
}

/// Serves a session that no bell stops.
pub fn serve<
    R: Threads + Wait + Clock + Sync,
    I: Read + Drop + Send,
    W: Write + Drop + Send,
    H: Hand + Drop,
>(
    rt: &R,
    alloc: Global,
    all: &Vec<Named>,
    connection: Connection<I, W>,
    hand: H,
) -> SessionEnd<W, H> {
    serve_session(rt, alloc, connection, &Bell::new(), all, hand)
}

/// The hand of a session without a fault that writes this.
pub fn tells<
    R: Threads + Wait + Clock + Sync,
    I: Read + Drop + Send,
    W: Write + Told + Drop + Send,
    H: Hand + Drop,
>(
    rt: &R,
    alloc: Global,
    all: &Vec<Named>,
    connection: Connection<I, W>,
    hand: H,
    told: &[u8],
) -> Option<H> {
    let end = serve(rt, alloc, all, connection, hand);
    if end.fault.is_some() || end.writer.told() != told {
        return None;
    }
    Some(end.hand)
}

/// The ticket of a call of `a`, which starts at once.
pub fn begun<R: Abort + Wait + Clock>(rt: &R, office: &Office, seat: &mut Seat) -> Ticket {
    match office.submit_and_try(rt, seat, "a", &[]) {
        Ok((_, Tried::Ticket(ticket))) => ticket,
        _ => panic!(rt; "no ticket"),
    }
}

/// Runs a call at once, and hands it in. It answers its number.
pub fn ends<R: Abort + Wait>(
    rt: &R,
    alloc: Global,
    office: &Office,
    seat: &mut Seat,
    ticket: Ticket,
    hand: &mut MemHand,
) -> u32 {
    let mut outcome = run_at_once(alloc, ticket, hand);
    assert!(rt; office.complete_in_place(rt, seat, &mut outcome).is_ok());
    outcome.number()
}
