//! The object that a session has opened, and its seat there.
//!
//! A client that has a name gets the seat of that name each time that it opens the object, and its session goes on
//! where it left. Any other gets a seat of its own.

ghost use Rattle.std.specs.Prelude.{◌≡◌, ◌≢◌, ◌<◌, ◌≤◌, ◌↔◌, IsTrue, IsSome, IfOk, IfErr};
ghost use Rattle.session_core.specs.Entering.{IsFound, LeavesSeat, why_not};

use crate::order::Offices;
use office_core::named::NameFault;
use office_core::office::Office;
use office_core::seat::Seat;
use path_tree::name::Name;
use session_text::line::LineRefusal;
use std::sync::Wait;

/// The object that is opened.
#[derive(Drop)]
pub(crate) struct EnteredObject {
    /// Its place among the offices.
    pub(crate) at: usize,
    pub(crate) seat: Seat,
    /// Whether the seat is that of a client that has a name.
    pub(crate) is_named: bool,
}

/// Why an object is not opened.
#[derive(Clone, Copy, Debug, PartialEq, Eq)]
pub(crate) enum NotEntered {
    /// It is answered so.
    Refused(LineRefusal),
    /// There is no memory for the name of the client.
    Memory,
}

// Why a client gets no seat of its own.
fn not_entered(why: NameFault) -> NotEntered
    ensures { result ≡ why_not why }
{
    match why {
        NameFault::InUse => NotEntered::Refused(LineRefusal::InUse),
        NameFault::SeatsFull => NotEntered::Refused(LineRefusal::Full),
        NameFault::Memory => NotEntered::Memory,
    }
}

// The seat of a client at an office: its own, where it has a name.
fn seat_of<R: Wait>(rt: &R, office: &Office, client: &Option<Name>) -> Result<Seat, NotEntered>
    ensures within { IfOk result (λ seat. (0 < seat.session) × (seat.session ≤ 1024)) }
    ensures not { IfErr result (λ why. why ≢ NotEntered.Refused LineRefusal.NoObject) }
{
    let Some(client) = client else {
        return match office.seat(rt) {
            Ok(seat) => Ok(seat),
            Err(_) => Err(NotEntered::Refused(LineRefusal::Full)),
        };
    };
    match office.seat_named(rt, client) {
        Ok(seat) => Ok(seat),
        Err(why) => Err(not_entered(why)),
    }
}

// The key of the next call of this seat's session, where the seat is that of a client that has a name.
fn next_key<R: Wait>(rt: &R, office: &Office, seat: &Seat, is_named: bool) -> Option<u32>
    ensures { IsSome result ↔ IsTrue is_named }
{
    if is_named {
        Some(office.next_key(rt, seat))
    } else {
        None
    }
}

/// Opens the object of this name, and gives the next key that is told. `NoObject` is told where there is none, and
/// only there.
pub(crate) fn seat_at<R: Wait, O: Offices>(
    rt: &R,
    offices: &O,
    name: &Name,
    client: &Option<Name>,
) -> Result<(EnteredObject, Option<u32>), NotEntered>
    ensures { IsFound (O.named offices.now) name.now client.now result }
{
    let Some(at) = offices.place_of(name) else {
        return Err(NotEntered::Refused(LineRefusal::NoObject));
    };
    let Some(office) = offices.office(at) else {
        return Err(NotEntered::Refused(LineRefusal::NoObject));
    };
    match seat_of(rt, office, client) {
        Ok(seat) => {
            let is_named = client.is_some();
            let next = next_key(rt, office, &seat, is_named);
            Ok((EnteredObject { at, seat, is_named }, next))
        }
        Err(why) => Err(why),
    }
}

/// Parks the seat of a client that has a name, so that its next session finds it there, and gives the object and the
/// seat that is left: that of a client that has none, or one that the office does not take.
pub(crate) fn parked<R: Wait, O: Offices>(
    rt: &R,
    offices: &O,
    seat: Option<EnteredObject>,
) -> (Option<usize>, Option<Seat>)
    ensures { LeavesSeat seat result.0 result.1 }
{
    let Some(entered) = seat else {
        return (None, None);
    };
    let EnteredObject { at, seat, is_named } = entered;
    if !is_named {
        return (Some(at), Some(seat));
    }
    let Some(office) = offices.office(at) else {
        return (Some(at), Some(seat));
    };
    match office.park(rt, seat) {
        Ok(()) => (Some(at), None),
        Err((seat, _)) => (Some(at), Some(seat)),
    }
}
