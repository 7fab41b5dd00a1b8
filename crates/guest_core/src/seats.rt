//! The numbers of sessions.

ghost use Rattle.std.specs.Prelude.{◌≡◌, ◌≢◌, ℕ, ◌<◌, ◌+◌, ◌↔◌, IsTrue, IfOk, IfSome, IfNone, Some, None, map, slice_get};
ghost use Rattle.std.specs.Prelude.{slice_set, length};
ghost use Rattle.guest_core.specs.declared.seats.SeatHolder.TheVariants.{Free as AFree, Nameless as ANameless};
ghost use Rattle.guest_core.specs.declared.seats.SeatHolder.TheVariants.{Named as ANamed};
ghost use Rattle.guest_core.specs.Seats.{free_seats, IsLeastFree, NoneIsFree, renewed};

use std::alloc::{AllocError, Global};
use std::marker::Model;

/// What a number of a session is.
#[derive(Clone, Copy, Debug, PartialEq, Eq)]
pub enum SeatHolder {
    /// No number of a session: 0.
    Void,
    /// Nobody has it.
    Free,
    /// A client without a name has it.
    Nameless,
    /// The client that has a name and stands at this place has it.
    Named(u16),
    /// It was that of a name that was forgotten: nobody has it until the next epoch.
    Retired,
}

// What each number is, from 0 on.
#[derive(Drop)]
pub(crate) struct Seats {
    rows: Vec<SeatHolder>,
    // no number below this one is free
    low: usize,
}

impl Model for Seats {
    ghost use Rattle.std.specs.Prelude.{List};
    ghost use Rattle.std.specs.Coded.{codes};
    ghost use Rattle.guest_core.specs.declared.seats.SeatHolder.{SeatHolder};
    ghost use Rattle.guest_core.specs.contracts.seats.SeatHolder as s;
    ghost use Rattle.guest_core.specs.SeatsView.{AreSeats};

    ghost Value = { List SeatHolder };

    ghost coded = { Prim.hlevel (codes, s.the_row.coded) };

    ghost view = { λ s. s.rows.items };

    ghost invariant = { AreSeats };
}

// Whether nobody has a number.
fn is_free(seat: SeatHolder) -> bool
    ensures { IsTrue result ↔ (seat ≡ AFree) }
{
    match seat {
        SeatHolder::Free => true,
        _ => false,
    }
}

// Whether a client without a name has a number.
fn is_nameless(seat: SeatHolder) -> bool
    ensures { IsTrue result ↔ (seat ≡ ANameless) }
{
    match seat {
        SeatHolder::Nameless => true,
        _ => false,
    }
}

// The place of the client that has a number, where one that has a name has it.
fn place_of(seat: SeatHolder) -> Option<u16>
    ensures some { IfSome result (λ p. seat ≡ ANamed p) }
    ensures none { IfNone result ((p : ℕ) → seat ≢ ANamed p) }
{
    match seat {
        SeatHolder::Named(place) => Some(place),
        _ => None,
    }
}

// What a number is in the next epoch.
fn renew(seat: SeatHolder) -> SeatHolder
    ensures { result ≡ renewed seat }
{
    match seat {
        SeatHolder::Retired => SeatHolder::Free,
        seat => seat,
    }
}

impl Seats {
    // All numbers from 1 to the most are free.
    pub(crate) fn new(alloc: Global, most: u16) -> Result<Seats, AllocError>
        ensures { IfOk result (λ s. s ≡ free_seats most) }
    {
        let mut rows = Vec::with_capacity(alloc, most as usize + 1)?;
        rows.push_reserved(SeatHolder::Void);
        for _ in 0..most {
            rows.push_reserved(SeatHolder::Free);
        }
        Ok(Seats { rows, low: 0 })
    }

    // The least number that is free.
    pub(crate) fn least_free(&mut self) -> Option<u16>
        ensures some { IfSome result (IsLeastFree self.old) }
        ensures none { IfNone result (NoneIsFree self.old) }
        ensures same { self.new ≡ self.old }
    {
        while self.low < self.rows.len() {
            if is_free(self.rows[self.low]) {
                return Some(self.low as u16);
            }
            self.low += 1;
        }
        None
    }

    // The place of the client that has a number, where one that has a name has it.
    pub(crate) fn place(&self, session: u16) -> Option<u16>
        ensures some { IfSome result (λ p. slice_get self.now session ≡ Some (ANamed p)) }
        ensures none { IfNone result ((p : ℕ) → slice_get self.now session ≢ Some (ANamed p)) }
    {
        match self.rows.get(session as usize) {
            None => None,
            Some(seat) => place_of(*seat),
        }
    }

    // Whether a number is free.
    pub(crate) fn is_free(&self, session: u16) -> bool
        ensures { IsTrue result ↔ (slice_get self.now session ≡ Some AFree) }
    {
        match self.rows.get(session as usize) {
            None => false,
            Some(seat) => is_free(*seat),
        }
    }

    // Whether a client without a name has a number.
    pub(crate) fn is_nameless(&self, session: u16) -> bool
        ensures { IsTrue result ↔ (slice_get self.now session ≡ Some ANameless) }
    {
        match self.rows.get(session as usize) {
            None => false,
            Some(seat) => is_nameless(*seat),
        }
    }

    // A number is this from now on. One past the most stays none.
    pub(crate) fn set(&mut self, session: u16, seat: SeatHolder)
        ensures { self.new ≡ slice_set self.old session seat }
    {
        if session as usize >= self.rows.len() {
            return;
        }
        self.rows[session as usize] = seat;
        if (session as usize) < self.low {
            self.low = session as usize;
        }
    }

    // The numbers of forgotten names are free.
    pub(crate) fn renew(&mut self)
        ensures { self.new ≡ map renewed self.old }
    {
        for place in 0..self.rows.len() {
            self.rows[place] = renew(self.rows[place]);
        }
        self.low = 0;
    }
}
