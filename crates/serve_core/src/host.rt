//! What serves objects: it opens them, listens, serves them, and closes them.

ghost use Rattle.std.specs.Prelude.{◌≡◌, ◌<◌, ◌∷◌, ℕ, List, [], Some, length};
ghost use Rattle.std.specs.Vec.Iter.{into_iter_len, into_iter_steps};
ghost use Rattle.keep_core.specs.Troubles.{fault_in};
ghost use Rattle.keep_core.specs.Lines.{AreSaid};
ghost use Rattle.serve_core.specs.Backed.{AreBacked};
ghost use Rattle.serve_core.specs.Gathers.{slips_in, none_of, IsGathered};
ghost use Rattle.serve_core.specs.Ends.{IsEndOf};
ghost use Rattle.serve_core.specs.Closes.{Closes};
ghost use Rattle.keep_core.specs.Moments.{moment_of};
ghost use Rattle.serve_core.specs.Runs.{named_in, listening_line, GathersAndCloses, IsRunIn};
ghost use Rattle.serve_core.specs.Runs.{AreNotServed, IsLineOf};

use crate::gate::Gate;
use crate::gather::{Gathered, Gathering};
use crate::listen::{SessionResult, serve_all};
use crate::open::ServedObjects;
use crate::serve::{ServeEnd, tell_refused};
use decl_core::analyse::Accepted;
use device_core::ahead::Ends;
use device_core::hand::Hand;
use device_core::shelf::Shelf;
use keep_core::close::{Closing, ClosingObject};
use keep_core::open::NotOpened;
use keep_core::opening::ObjectOpening;
use keep_core::trouble::Trouble;
use session_core::order::Named;
use std::alloc::{AllocError, Global};
use std::io::Write;
use std::mem;
use std::sync::Wait;
use std::thread::Threads;
use std::time::Clock;
use std::vec::IntoIter;
use value_core::reply::push_reply;
use value_core::{LinesFault, write_whole};

/// What serves objects: what opens and closes them, and a hand for each session that comes.
#[derive(Drop)]
pub(crate) struct Host<S: Shelf + Drop, T: Shelf + Drop, K: Hand + Drop, H: Hand + Drop> {
    pub(crate) alloc: Global,
    pub(crate) closing: Closing<S, T, K>,
    pub(crate) hands: Vec<H>,
}

// The end that what went wrong comes to.
fn end_of(trouble: Trouble) -> Result<ServeEnd, LinesFault>
    ensures { IsEndOf trouble.fault trouble.refused result }
{
    match trouble.fault {
        Some(fault) => Err(fault),
        None => {
            if trouble.refused {
                Ok(ServeEnd::Refused)
            } else {
                Ok(ServeEnd::Whole)
            }
        }
    }
}

// Writes why objects are not opened, where a part of one is damaged.
fn tell_not_opened<W: Write>(why: NotOpened, writer: &mut W) -> Result<ServeEnd, LinesFault>
    ensures { AreNotServed (IsLineOf why) result (W.contents writer.old) (W.contents writer.new) }
{
    match why {
        NotOpened::Damaged(line) => tell_refused(&line, writer),
        NotOpened::Fault(fault) => {
            if fault == LinesFault::ReadFault {
                Ok(ServeEnd::Unopened)
            } else {
                Err(fault)
            }
        }
    }
}

// The next one of items of which there is one more.
fn next_of<X>(items: &mut IntoIter<X>) -> X
    requires { 0 < into_iter_len items.old }
    ensures { into_iter_steps items.old (Some result) items.new }
{
    match items.next() {
        Some(item) => item,
        None => unreachable!(),
    }
}

// An object at the end, with what its sessions left.
fn ending_of<H: Hand + Drop>(
    named: Named,
    opening: ObjectOpening,
    gathered: Gathered<H>,
) -> ClosingObject
    ensures name { result.name ≡ named.name }
    ensures opening { result.opening ≡ opening }
    ensures slips { result.receipts.items ≡ gathered.backed }
    ensures backed { AreBacked H.agrees result.receipts.items }
{
    let Named { name, office } = named;
    let Gathered { seats, backed } = gathered;
    ClosingObject {
        name,
        office,
        opening,
        seats,
        receipts: backed.into_receipts(),
    }
}

// Closes each object, with what its parts opened with and what its sessions left.
fn close_all<S: Shelf + Drop, T: Shelf + Drop, K: Hand + Drop, H: Hand + Drop, W: Write, E: Write>(
    served: ServedObjects,
    gathered: Vec<Gathered<H>>,
    closing: &mut Closing<S, T, K>,
    writer: &mut W,
    error: &mut E,
)
    requires openings { length served.openings.items ≡ length served.offices.items }
    requires gathered { length gathered.items ≡ length served.offices.items }
    ensures { Closes H.agrees (moment_of S.holds T.holds K.agrees closing.old (W.contents writer.old))
        (moment_of S.holds T.holds K.agrees closing.new (W.contents writer.new)) (named_in served.offices.items)
        served.openings.items (slips_in gathered.items) }
{
    let ServedObjects { offices, openings } = served;
    let mut values = openings.into_iter();
    let mut left = gathered.into_iter();
    for named in offices {
        let opening = next_of(&mut values);
        let by_sessions = next_of(&mut left);
        let ending = ending_of(named, opening, by_sessions);
        closing.close_one(ending, writer, error);
    }
}

// Gathers what came of the sessions of objects. Where memory was refused before any came, that is noted.
fn gather_came<H: Hand + Drop, E: Write>(
    room: Gathering<H>,
    came: Result<Vec<SessionResult<H>>, AllocError>,
    offices: &[Named],
    error: &mut E,
    trouble: &mut Trouble,
) -> Vec<Gathered<H>>
    ensures { IsGathered H (slips_in room.all.items) trouble.old trouble.new (slips_in result.items) }
{
    let mut gathering = room;
    match came {
        Ok(all) => {
            gathering.gather(all, offices, error, trouble);
            gathering.into_all()
        }
        Err(_) => {
            trouble.note(LinesFault::Memory);
            gathering.into_all()
        }
    }
}

impl<S: Shelf + Drop, T: Shelf + Drop, K: Hand + Drop, H: Ends + Send> Host<S, T, K, H> {
    // Says `listening PLACE`.
    fn listen<W: Write>(&self, gate: &Gate, writer: &mut W) -> Result<(), LinesFault>
        ensures { (place : List ℕ) × AreSaid (listening_line place ∷ []) (fault_in result) (W.contents writer.old)
            (W.contents writer.new) }
    {
        let mut line = Vec::new(self.alloc);
        match push_reply(&mut line, b"listening ", gate.place().as_bytes()) {
            Ok(()) => {}
            Err(_) => return Err(LinesFault::Memory),
        }
        write_whole(writer, &line)
    }

    // Serves objects that are open to a connection for each hand, and gives what came of them.
    fn serve<R: Threads + Wait + Clock + Sync>(
        &mut self,
        rt: &R,
        gate: &Gate,
        offices: &Vec<Named>,
    ) -> Result<Vec<SessionResult<H>>, AllocError>
        ensures { self.new.closing ≡ self.old.closing }
    {
        let hands = mem::replace(&mut self.hands, Vec::new(self.alloc));
        serve_all(rt, self.alloc, gate, hands, offices)
    }

    // Gathers what came of the sessions of objects, and closes these. Nothing of it can fail by itself: what goes wrong
    // is noted.
    fn close<W: Write, E: Write>(
        &mut self,
        served: ServedObjects,
        room: Gathering<H>,
        came: Result<Vec<SessionResult<H>>, AllocError>,
        writer: &mut W,
        error: &mut E,
    )
        requires openings { length served.openings.items ≡ length served.offices.items }
        requires none { slips_in room.all.items ≡ none_of (length served.offices.items) }
        ensures { GathersAndCloses H.agrees (moment_of S.holds T.holds K.agrees self.old.closing (W.contents writer.old))
            (moment_of S.holds T.holds K.agrees self.new.closing (W.contents writer.new))
            (named_in served.offices.items) served.openings.items }
    {
        let gathered = gather_came(
            room,
            came,
            &served.offices,
            error,
            &mut self.closing.trouble,
        );
        close_all(served, gathered, &mut self.closing, writer, error);
    }

    /// Opens objects, tells the place, serves them, and closes them. Where they are not all served and closed, nobody
    /// was: the hands of the sessions are there as before.
    pub(crate) fn run<R: Threads + Wait + Clock + Sync, W: Write, E: Write>(
        &mut self,
        rt: &R,
        ready: Vec<Accepted>,
        gate: &Gate,
        writer: &mut W,
        error: &mut E,
    ) -> Result<ServeEnd, LinesFault>
        ensures { IsRunIn H.agrees (moment_of S.holds T.holds K.agrees self.old.closing (W.contents writer.old))
            (moment_of S.holds T.holds K.agrees self.new.closing (W.contents writer.new)) self.old.hands.items
            self.new.hands.items ready.items result }
    {
        let served = match self.open(ready) {
            Ok(served) => served,
            Err(why) => return tell_not_opened(why, writer),
        };
        let room = match Gathering::new(self.alloc, served.offices.len(), self.hands.len()) {
            Ok(room) => room,
            Err(_) => return Err(LinesFault::Memory),
        };
        match self.listen(gate, writer) {
            Ok(()) => {}
            Err(fault) => return Err(fault),
        }
        let came = self.serve(rt, gate, &served.offices);
        self.close(served, room, came, writer, error);
        end_of(self.closing.trouble)
    }
}
