//! Seats as they are made.

ghost use Rattle.std.specs.Prelude.{◌≡◌, ◌<◌};
ghost use Rattle.office_core.specs.ClientSeats.{IsFresh, Advances};

use crate::client_seat::Seat;

impl Seat {
    /// A seat of this session that has seen nothing. Who gives sessions out makes one of each.
    pub fn new(session: u32) -> Seat
        ensures { IsFresh session result }
    {
        Seat {
            session,
            seen: 0,
            count: 0,
        }
    }

    /// The seat that has seen this place, too, and counts one receipt more.
    pub fn after(&self, place: usize) -> Seat
        requires { self.now.seen < place }
        ensures { Advances self.now place result }
    {
        Seat {
            session: self.session,
            seen: place,
            count: self.count + 1,
        }
    }
}
