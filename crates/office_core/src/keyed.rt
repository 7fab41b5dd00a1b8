//! Calls under a key: a call that a session made before is not run again.

ghost use Rattle.std.specs.Prelude.{◌≡◌, ◌<◌, ◌≤◌};
ghost use Rattle.board_core.specs.Board.{Board};
ghost use Rattle.board_core.specs.Sound.{IsSound};
ghost use Rattle.board_core.specs.Keys.{next_key};
ghost use Rattle.board_core.specs.Keyed.{Finds};

use crate::client_seat::Seat;
use crate::inside::Inside;
use crate::office::Office;
use board_core::answer::EarlierCall;
use guest_core::answer::KeyedFault;
use std::sync::Wait;
use value_core::datum::Datum;

impl Inside {
    /// What is known of a key of this seat's session, as the desk's `kept` tells: the call that the session made under
    /// it, or `None` where it is the key of its next call. The errors are those of `kept`, in its order.
    pub fn kept(
        &self,
        seat: &Seat,
        key: u32,
        op: &str,
        args: &[Datum],
    ) -> Result<Option<EarlierCall>, KeyedFault>
        ensures finds { Finds self.now.board (record {
          session = seat.now.session;
          name = op.now;
          arguments = args.now;
        }) key result }
        ensures sound { IsSound self.now.board }
    {
        // Called for its contract alone: the board is sound.
        let _history = self.desk.history();
        self.desk.kept(seat.session(), key, op, args)
    }

    /// The key of the next call of this seat's session, from 1.
    pub fn next_key(&self, seat: &Seat) -> u32
        ensures { 0 < seat.now.session → seat.now.session ≤ 1024 →
            result ≡ next_key self.now.board.calls seat.now.session }
    {
        self.desk.next_key(seat.session())
    }
}

impl Office {
    /// What is known of a key of this seat's session, as [`Inside::kept`], of some board of this office.
    pub fn kept<R: Wait>(
        &self,
        rt: &R,
        seat: &Seat,
        key: u32,
        op: &str,
        args: &[Datum],
    ) -> Result<Option<EarlierCall>, KeyedFault>
        ensures { (b : Board) × IsSound b × Finds b (record {
          session = seat.now.session;
          name = op.now;
          arguments = args.now;
        }) key result }
    {
        self.enter(rt).kept(seat, key, op, args)
    }

    /// The key of the next call of this seat's session, from 1, as some board of this office has it.
    pub fn next_key<R: Wait>(&self, rt: &R, seat: &Seat) -> u32
        ensures { (b : Board) × (0 < seat.now.session → seat.now.session ≤ 1024 →
            result ≡ next_key b.calls seat.now.session) }
    {
        self.enter(rt).next_key(seat)
    }
}
