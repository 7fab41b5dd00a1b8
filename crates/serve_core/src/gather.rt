//! What sessions left, by objects.

ghost use Rattle.std.specs.Prelude.{◌≡◌, ◌++◌, [], ◌≤◌, All, OnOk, OnErr, IfOk};
ghost use Rattle.std.specs.Vec.{vec_capacity};
ghost use Rattle.keep_core.specs.Troubles.{first_of};
ghost use Rattle.serve_core.specs.Gathers.{noted_by, mixed_by, slips_in, put_in, none_of, Gathers, GathersAll};

use crate::backed::{AllBacked, Backed};
use crate::listen::{SessionLeavings, SessionResult};
use device_core::hand::Hand;
use keep_core::trouble::Trouble;
use office_core::seat::Seat;
use session_core::fault::SessionFault;
use session_core::order::Named;
use std::alloc::{AllocError, Global};
use std::io::Write;
use value_core::reply::push_reply;
use value_core::{LinesFault, write_whole};

// The most bytes of a line: a name and words.
const LINE_BYTES: usize = 128;

/// What the sessions of one object left.
#[derive(Drop)]
pub struct Gathered<H: Hand + Drop> {
    pub(crate) seats: Vec<Seat>,
    pub(crate) backed: AllBacked<H>,
}

impl<H: Hand + Drop> Gathered<H> {
    // Nothing yet, and room for the seats and the hands of so many sessions.
    fn with_room(alloc: Global, sessions: usize) -> Result<Gathered<H>, AllocError>
        ensures { IfOk result (λ gathered. (gathered.backed ≡ []) × (sessions ≤ vec_capacity gathered.seats)) }
    {
        Ok(Gathered {
            seats: Vec::with_capacity(alloc, sessions)?,
            backed: AllBacked::with_room(alloc, sessions)?,
        })
    }

    // Adds what one session left.
    fn add(&mut self, seat: Option<Seat>, backed: Backed<H>) -> Result<(), AllocError>
        ensures ok { OnOk result (self.new.backed ≡ self.old.backed ++ backed) }
        ensures err { OnErr result (self.new.backed ≡ self.old.backed) }
    {
        if let Some(seat) = seat {
            let Ok(()) = self.seats.push(seat) else {
                return Err(AllocError);
            };
        }
        self.backed.add(backed)
    }
}

/// What the sessions of each object left, and memory for what is said of them.
#[derive(Drop)]
pub struct Gathering<H: Hand + Drop> {
    pub(crate) all: Vec<Gathered<H>>,
    line: Vec<u8>,
}

// Notes why a session ended, where it was for the server. It answers whether it was mixed.
fn heed(fault: Option<SessionFault>, trouble: &mut Trouble) -> bool
    ensures fault { trouble.new.fault ≡ first_of trouble.old.fault (noted_by fault) }
    ensures refused { trouble.new.refused ≡ mixed_by trouble.old.refused fault }
{
    match fault {
        Some(SessionFault::LogMixed) => {
            trouble.refuse();
            true
        }
        Some(SessionFault::Memory) => {
            trouble.note(LinesFault::Memory);
            false
        }
        _ => false,
    }
}

// Says on standard error, where it is so, that a session was told of a call of which it keeps no receipt: `session of
// NAME mixed`.
fn tell_mixed<E: Write>(line: &mut Vec<u8>, mixed: bool, named: Option<&Named>, error: &mut E) {
    if !mixed {
        return;
    }
    let Some(named) = named else {
        return;
    };
    line.clear();
    let made = line.extend_from_slice(b"session of ");
    if made.is_ok() && push_reply(line, named.name.as_bytes(), b" mixed").is_ok() {
        let _ = write_whole(error, line.as_slice());
    }
}

impl<H: Hand + Drop> Gathering<H> {
    /// Room for the seats and the hands of so many objects and sessions, none of which is there yet, and for a line.
    /// The error is that memory was refused.
    pub fn new(alloc: Global, objects: usize, sessions: usize) -> Result<Gathering<H>, AllocError>
        ensures none { IfOk result (λ gathering. slips_in gathering.all.items ≡ none_of objects) }
        ensures room { IfOk result (λ gathering. All (λ g. sessions ≤ vec_capacity g.seats) gathering.all.items) }
    {
        let mut all = Vec::new(alloc);
        for _ in 0..objects {
            let gathered = Gathered::with_room(alloc, sessions)?;
            let Ok(()) = all.push(gathered) else {
                return Err(AllocError);
            };
        }
        Ok(Gathering {
            all,
            line: Vec::with_capacity(alloc, LINE_BYTES)?,
        })
    }

    // Puts what a session left to its object, where there is that one. Where memory is refused no receipt is put.
    fn put(
        &mut self,
        object: usize,
        seat: Option<Seat>,
        backed: Backed<H>,
    ) -> Result<(), AllocError>
        ensures ok { OnOk result (slips_in self.new.all.items ≡ put_in object backed (slips_in self.old.all.items)) }
        ensures err { OnErr result (slips_in self.new.all.items ≡ slips_in self.old.all.items) }
    {
        match self.all.get_mut(object) {
            Some(gathered) => gathered.add(seat, backed),
            None => Ok(()),
        }
    }

    // Puts what a session left to its object. What went wrong in it, and was not for its client, is noted and told.
    fn gather_left<E: Write>(
        &mut self,
        left: SessionLeavings<H>,
        offices: &[Named],
        error: &mut E,
        trouble: &mut Trouble,
    )
        ensures { Gathers (SessionResult.Session left) trouble.old trouble.new (slips_in self.old.all.items)
            (slips_in self.new.all.items) }
    {
        let SessionLeavings {
            object,
            seat,
            backed,
            fault,
        } = left;
        let mixed = heed(fault, trouble);
        let Some(at) = object else {
            return;
        };
        tell_mixed(&mut self.line, mixed, offices.get(at), error);
        trouble.heed_memory(self.put(at, seat, backed));
    }

    // Gathers what one thread left.
    fn gather_one<E: Write>(
        &mut self,
        came: SessionResult<H>,
        offices: &[Named],
        error: &mut E,
        trouble: &mut Trouble,
    )
        ensures { Gathers came trouble.old trouble.new (slips_in self.old.all.items) (slips_in self.new.all.items) }
    {
        match came {
            SessionResult::Fault(fault) => trouble.note(fault),
            SessionResult::Session(left) => self.gather_left(left, offices, error, trouble),
        }
    }

    /// Puts what the sessions left to their objects. What went wrong in a session, and was not for its client, is noted
    /// and told: that it was mixed, and that memory was refused. A fault of a connection is noted too. The first fault
    /// stays. Where memory is refused for receipts that is noted, and they are let go: a close looks at those that it
    /// is handed.
    pub fn gather<E: Write>(
        &mut self,
        all: Vec<SessionResult<H>>,
        offices: &[Named],
        error: &mut E,
        trouble: &mut Trouble,
    )
        ensures { GathersAll all.items trouble.old trouble.new (slips_in self.old.all.items)
            (slips_in self.new.all.items) }
    {
        for came in all {
            self.gather_one(came, offices, error, trouble);
        }
    }

    /// What was gathered, an item for each object.
    pub fn into_all(self) -> Vec<Gathered<H>>
        ensures { slips_in result.items ≡ slips_in self.all.items }
    {
        self.all
    }
}
