//! The numbers of parts and of parameters.

ghost use Rattle.std.specs.Prelude.{◌≡◌, ◌<◌};

use std::marker::Model;

/// The most parts of an object.
pub const MOST_PARTS: usize = 16;

/// The number of a part: its place among the parts of its object, from 0, below 16.
#[derive(Clone, Copy, Drop)]
pub struct PartId {
    place: u8,
}

/// The number of a parameter: its place among the parameters of its operation, from 0, below 8.
pub type ParamId = u8;

impl Model for PartId {
    ghost use Rattle.std.specs.Prelude.{ℕ, ◌<◌};

    ghost Value = { ℕ };

    ghost use Rattle.decl_core.specs.PartPlace.{place_of, id_of, id_again};

    ghost view = { place_of };

    ghost invariant = { λ a. a.place < 16 };

    ghost inverse = { id_of };

    ghost inverse_ok = { id_again };
}

impl PartId {
    /// The part of this number.
    pub fn new(place: u8) -> PartId
        requires { place < 16 }
        ensures { result ≡ place }
    {
        PartId { place }
    }

    /// Its number, from 0, below 16.
    pub fn place(&self) -> u8
        ensures place { result ≡ self.now }
        ensures few { self.now < 16 }
    {
        self.place
    }
}
