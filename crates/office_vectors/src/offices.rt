//! What an office refuses.

use crate::make::{office_of, seat_of, ticket_of};
use board_core::receipt::Receipt;
use device_core::memory::MemHand;
use office_core::inside::CloseFault;
use office_core::named::{NameFault, ParkFault};
use office_core::office::Office;
use office_core::seat::{CompleteFault, Seat, Tried};
use office_core::uncalled::Resubmitted;
use page_core::outcome::Outcome;
use page_core::ticket::Ticket;
use path_tree::name::Name;
use run_core::perform::perform;
use run_core::run::Run;
use std::alloc::Global;
use std::process::Abort;
use std::sync::Wait;
use value_core::datum::Datum;

// What a `get` of this seat comes to.
fn outcome_of<R: Abort + Wait>(
    rt: &R,
    alloc: Global,
    office: &Office,
    seat: &mut Seat,
    hand: &mut MemHand,
) -> Outcome {
    let ticket = ticket_of(rt, office, seat, "get", &[]);
    perform(Run::new(alloc, ticket), hand)
}

// The receipt of an outcome that is taken, told for this place.
fn receipt_of<R: Abort + Wait>(
    rt: &R,
    office: &Office,
    seat: &mut Seat,
    outcome: Outcome,
    place: usize,
) -> Receipt {
    match office.complete(rt, seat, outcome) {
        Ok(mut receipt) => {
            receipt.place = place;
            receipt
        }
        Err(_) => panic!(rt; "no receipt"),
    }
}

// Why an office is not closed with these seats and receipts.
fn fault_of(office: Office, seats: Vec<Seat>, receipts: &[Receipt]) -> Option<CloseFault> {
    match office.close(seats, receipts) {
        Ok(_) => None,
        Err(refused) => Some(refused.why),
    }
}

// Why an office with one entry is not closed with its one seat or with none, and with its receipt, told for this place.
fn not_closed<R: Abort + Wait>(
    rt: &R,
    alloc: Global,
    has_seat: bool,
    place: usize,
) -> Option<CloseFault> {
    let mut hand = MemHand::new(alloc);
    let office = office_of(rt, alloc, &mut hand);
    let mut seat = seat_of(rt, &office);
    let outcome = outcome_of(rt, alloc, &office, &mut seat, &mut hand);
    let receipt = receipt_of(rt, &office, &mut seat, outcome, place);
    let mut receipts = Vec::new(alloc);
    assert!(rt; receipts.push(receipt).is_ok());
    let mut seats = Vec::new(alloc);
    if has_seat {
        assert!(rt; seats.push(seat).is_ok());
    }
    fault_of(office, seats, &receipts)
}

const MISMATCH: CloseFault = CloseFault::Mismatch {
    receipt: 0,
    place: 2,
};

// No case can show it: no program closes an office with receipts, without its seat, or with a receipt of another place.
#[test]
fn an_office_closes_with_its_seat_and_its_receipt(rt: HostRuntime) {
    assert!(rt; not_closed(&rt, rt.alloc(), true, 1).is_none());
    assert!(rt; not_closed(&rt, rt.alloc(), false, 1) == Some(CloseFault::SeatMissing));
    assert!(rt; not_closed(&rt, rt.alloc(), true, 2) == Some(MISMATCH));
}

// Whether an outcome is not taken of a seat that has seen as much.
fn is_seen<R: Wait>(rt: &R, office: &Office, seat: &mut Seat, outcome: Outcome) -> bool {
    matches!(
        office.complete(rt, seat, outcome),
        Err(CompleteFault::Front { .. })
    )
}

// Whether an outcome is not taken where no such call runs.
fn is_strange<R: Wait>(rt: &R, office: &Office, seat: &mut Seat, outcome: Outcome) -> bool {
    matches!(
        office.complete(rt, seat, outcome),
        Err(CompleteFault::Stranger(_))
    )
}

// No case can show it: no program takes an outcome to another office or seat, or closes an office while a call runs.
#[test]
fn an_outcome_is_taken_by_its_office_and_its_seat(rt: HostRuntime) {
    let alloc = rt.alloc();
    let mut hand = MemHand::new(alloc);
    let office = office_of(&rt, alloc, &mut hand);
    let other = office_of(&rt, alloc, &mut hand);
    let mut seat = seat_of(&rt, &office);
    let outcome = outcome_of(&rt, alloc, &office, &mut seat, &mut hand);
    let _first = receipt_of(&rt, &office, &mut seat, outcome, 1);
    let outcome = outcome_of(&rt, alloc, &other, &mut seat_of(&rt, &other), &mut hand);
    assert!(rt; is_seen(&rt, &other, &mut seat, outcome));
    let outcome = outcome_of(&rt, alloc, &other, &mut seat_of(&rt, &other), &mut hand);
    assert!(rt; is_strange(&rt, &office, &mut seat, outcome));
    assert!(rt; fault_of(other, Vec::new(alloc), &[]) == Some(CloseFault::Outstanding));
}

// Why a seat is not parked.
fn not_parked<R: Wait>(rt: &R, office: &Office, seat: Seat) -> Option<ParkFault> {
    match office.park(rt, seat) {
        Ok(()) => None,
        Err((_seat, why)) => Some(why),
    }
}

// The ticket of `put 7` under key 1, which starts at once.
fn keyed<R: Abort + Wait>(rt: &R, office: &Office, seat: &mut Seat) -> Ticket {
    match office.submit_keyed(rt, seat, 1, "put", &[Datum::Integer(7)]) {
        Ok(Resubmitted::New(submitted)) => {
            match office.try_start(rt, submitted) {
                Tried::Ticket(ticket) => ticket,
                _ => panic!(rt; "no ticket"),
            }
        }
        _ => panic!(rt; "no call"),
    }
}

// The seat of a name.
fn named<R: Abort + Wait>(rt: &R, office: &Office, name: &Name) -> Seat {
    match office.seat_named(rt, name) {
        Ok(seat) => seat,
        Err(_) => panic!(rt; "no seat"),
    }
}

// No case can show it: a session parks its own seat alone, once its call has ended.
#[test]
fn a_seat_is_parked_once_its_call_does_not_run(rt: HostRuntime) {
    let alloc = rt.alloc();
    let mut hand = MemHand::new(alloc);
    let office = office_of(&rt, alloc, &mut hand);
    let Ok(Some(ann)) = Name::read(alloc, b"ann") else {
        panic!(rt; "no name")
    };
    let mut seat = named(&rt, &office, &ann);
    assert!(rt; office.seat_named(&rt, &ann).err() == Some(NameFault::InUse));
    assert!(rt; not_parked(&rt, &office, seat_of(&rt, &office)) == Some(ParkFault::Stranger));
    let outcome = perform(Run::new(alloc, keyed(&rt, &office, &mut seat)), &mut hand);
    assert!(rt; outcome.number() == 1);
    assert!(rt; not_parked(&rt, &office, seat) == Some(ParkFault::Running));
}
