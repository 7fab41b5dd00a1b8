//! Seats that are given out under a name, and parked.

ghost use Rattle.std.specs.Prelude.{◌≡◌, ◌<◌, ◌≤◌, IfOk, IfErr, Some, slice_get};
ghost use Rattle.office_core.specs.declared.clients.Client.{Client as AClient};
ghost use Rattle.office_core.specs.Clients.{IsOut};
ghost use Rattle.office_core.specs.Named.{GivesNamed, IsNew, Parks};

use crate::client_seat::Seat;
use crate::inside::{Inside, MOST_SESSIONS};
use crate::office::{Office, bed_of, started};
use path_tree::name::Name;
use std::sync::Wait;

/// Why no seat is given out under a name. The first that applies is told.
#[derive(Clone, Copy, Debug, PartialEq, Eq)]
pub enum NameFault {
    /// The seat of this name is out.
    InUse,
    /// The name is new, and all sessions are given out.
    SeatsFull,
    /// The name is new, and memory was refused.
    Memory,
}

/// Why a seat is not parked. The first that applies is told.
#[derive(Clone, Copy, Debug, PartialEq, Eq)]
pub enum ParkFault {
    /// Its session is that of no name whose seat is out.
    Stranger,
    /// Its call runs.
    Running,
}

impl Inside {
    /// The seat that was given out under this name and parked: its session is back, and it has seen what it had seen. A
    /// new name gets the next session, and with it the room that [`Inside::park`] needs.
    ///
    /// The errors, of which the first that applies is told, are those of [`NameFault`]; they change nothing.
    pub fn seat_named(&mut self, name: &Name) -> Result<Seat, NameFault>
        ensures gives { GivesNamed self.old name.now result self.new }
        ensures within { IfOk result (λ seat. (0 < seat.session) × (seat.session ≤ 1024)) }
    {
        match self.clients.place_of(name) {
            Some(place) => self.seat_again(place),
            None => self.seat_new(name),
        }
    }

    // The seat of the client at this place, where it is parked. Its session is back.
    fn seat_again(&mut self, place: usize) -> Result<Seat, NameFault>
        requires { (c : AClient) × (slice_get self.old.clients place ≡ Some c) }
        ensures gives { (c : AClient) → slice_get self.old.clients place ≡ Some c →
            GivesNamed self.old c.name result self.new }
        ensures within { IfOk result (λ seat. (0 < seat.session) × (seat.session ≤ 1024)) }
    {
        match self.clients.take_at(place) {
            Some(seat) => {
                self.desk.resume(seat.session());
                Ok(seat)
            }
            None => Err(NameFault::InUse),
        }
    }

    // The next session, under a name that is new.
    fn seat_new(&mut self, name: &Name) -> Result<Seat, NameFault>
        requires { IsNew self.old name.now }
        ensures gives { GivesNamed self.old name.now result self.new }
        ensures within { IfOk result (λ seat. (0 < seat.session) × (seat.session ≤ 1024)) }
    {
        if self.given >= MOST_SESSIONS {
            return Err(NameFault::SeatsFull);
        }
        match self.clients.add(name, self.given + 1) {
            Ok(()) => {
                self.given += 1;
                Ok(Seat::new(self.given))
            }
            Err(_) => Err(NameFault::Memory),
        }
    }

    /// Parks the seat of a name: its waiting call is cancelled and its session leaves, until [`Inside::seat_named`] gives
    /// the seat out again. It takes no memory.
    ///
    /// The errors, of which the first that applies is told, are those of [`ParkFault`]; they hand the seat back and
    /// change nothing. A seat does not tell of which inside it is: that of another inside is a stranger only where its
    /// session has no name here whose seat is out.
    pub fn park(&mut self, seat: Seat) -> Result<(), (Seat, ParkFault)>
        ensures { Parks self.old seat result self.new }
    {
        match self.clients.place_out(seat.session()) {
            Some(place) => self.park_at(place, seat),
            None => Err((seat, ParkFault::Stranger)),
        }
    }

    // Parks the seat of the client at this place, where no call of its session runs.
    fn park_at(&mut self, place: usize, seat: Seat) -> Result<(), (Seat, ParkFault)>
        requires { (c : AClient) × (slice_get self.old.clients place ≡ Some c) × IsOut seat.session c }
        ensures { Parks self.old seat result self.new }
    {
        let session = seat.session();
        if self.desk.runs_for(session) {
            return Err((seat, ParkFault::Running));
        }
        self.desk.disconnect(session);
        self.clients.put_at(place, seat);
        Ok(())
    }
}

impl Office {
    /// The seat of this name, as [`Inside::seat_named`]: the one that was parked, or for a new name the next session.
    ///
    /// The errors, of which the first that applies is told, are those of [`NameFault`]; they change nothing.
    pub fn seat_named<R: Wait>(&self, rt: &R, name: &Name) -> Result<Seat, NameFault>
        ensures { IfOk result (λ seat. (0 < seat.session) × (seat.session ≤ 1024)) }
    {
        self.enter(rt).seat_named(name)
    }

    /// Parks the seat of a name, as [`Inside::park`]: who waits for a call of its session is told that it was cancelled.
    ///
    /// The errors, of which the first that applies is told, are those of [`ParkFault`]; they hand the seat
    /// back and change nothing.
    pub fn park<R: Wait>(&self, rt: &R, seat: Seat) -> Result<(), (Seat, ParkFault)>
        ensures { IfErr result (λ e. e.0 ≡ seat) }
    {
        let bed = bed_of(seat.session());
        let mut inside = self.enter(rt);
        let before = inside.desk().trace().len();
        let answer = inside.park(seat);
        let beds = started(&mut inside, before) | 1u64 << bed;
        drop(inside);
        if answer.is_ok() {
            self.wake(beds);
        }
        answer
    }
}
