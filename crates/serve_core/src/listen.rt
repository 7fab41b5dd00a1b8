//! Connections, each of them served on threads of its own.

ghost use Rattle.std.specs.Prelude.{◌≡◌};
ghost use Rattle.session_core.specs.Truth.{AreTrue};

use crate::backed::Backed;
use crate::gate::Door;
use crossbeam_channel::Receiver;
use device_core::ahead::Ends;
use device_core::hand::Hand;
use keep_core::trouble::fault_of;
use office_core::seat::Seat;
use session_core::end::SessionEnd;
use session_core::fault::SessionFault;
use session_core::order::Offices;
use session_core::patient::Patient;
use session_core::serve::{Connection, serve_session};
use session_text::bell::Bell;
use std::alloc::{AllocError, Global};
use std::net::TcpStream;
use std::sync::{Mutex, Wait};
use std::thread;
use std::thread::Threads;
use std::time::{Clock, Duration};
use value_core::LinesFault;

// How long a read waits where nothing comes, and a write where nothing is taken, in milliseconds.
const PAUSE: u64 = 250;

/// What a session leaves to its object.
#[derive(Drop)]
pub struct SessionLeavings<H: Hand + Drop> {
    /// The object that it opened, by its place.
    pub object: Option<usize>,
    /// Its seat there, but that of a client that has a name.
    pub seat: Option<Seat>,
    /// What the receipts of its calls tell, in order, and the hand by which they are true.
    pub backed: Backed<H>,
    /// Why it ended, where that was not by `quit` or the end of its input.
    pub fault: Option<SessionFault>,
}

/// What a thread that was to serve a connection leaves.
#[derive(Drop)]
pub enum SessionResult<H: Hand + Drop> {
    /// A session.
    Session(SessionLeavings<H>),
    /// No connection could be taken, or not be served.
    Fault(LinesFault),
}

/// Where threads put what they leave.
pub trait TakesResults<C> {
    /// Adds what one thread leaves.
    fn put<R: Wait>(&self, rt: &R, came: C);
}

/// What threads leave, in room that is taken before they begin.
#[derive(Drop)]
pub struct Results<C: Drop> {
    all: Mutex<Vec<C>>,
}

impl<C: Drop> Results<C> {
    // Room for so many, none of which is there yet.
    fn with_room(alloc: Global, count: usize) -> Result<Results<C>, AllocError> {
        let room = Vec::with_capacity(alloc, count)?;
        Ok(Results {
            all: Mutex::new(room),
        })
    }

    // All that was left.
    fn into_all(self) -> Vec<C> {
        self.all.into_inner()
    }
}

impl<C: Drop> TakesResults<C> for Results<C> {
    fn put<R: Wait>(&self, rt: &R, came: C) {
        let _put = self.all.lock(rt).push(came);
    }
}

// Has answers go out at once, and a read return after a while where nothing comes, as a write where nothing is taken.
// Where the system can't do that, it is done without.
fn prepare(stream: &TcpStream) {
    let _ = stream.set_nodelay(true);
    let _ = stream.set_read_timeout(Some(Duration::from_millis(PAUSE)));
    let _ = stream.set_write_timeout(Some(Duration::from_millis(PAUSE)));
}

// What a session leaves to its object, once its hand has ended: all that it hands back but the writer.
fn left_of<W: Drop, H: Ends>(end: SessionEnd<W, H>) -> SessionLeavings<H>
    requires { AreTrue H.agrees end.hand end.receipts.items }
    ensures object { result.object ≡ end.object }
    ensures seat { result.seat ≡ end.seat }
    ensures backed { result.backed ≡ end.receipts.items }
    ensures fault { result.fault ≡ end.fault }
{
    let SessionEnd {
        object,
        seat,
        receipts,
        writer,
        mut hand,
        fault,
    } = end;
    drop(writer);
    hand.end();
    SessionLeavings {
        object,
        seat,
        backed: Backed::new(receipts, hand),
        fault,
    }
}

// What serves connections: where they come from, the hands that are free, and the objects.
#[derive(Drop)]
struct Sessions<'a, R, H: Hand + Drop, O, D> {
    rt: &'a R,
    alloc: Global,
    door: &'a D,
    free: &'a Receiver<H>,
    offices: &'a O,
}

impl<R: Threads + Wait + Clock + Sync, H: Ends + Send, O: Offices + Sync, D: Door> Sessions<
    '_,
    R,
    H,
    O,
    D,
> {
    // Serves a connection with this hand, and has the hand end.
    fn serve(&self, stream: TcpStream, hand: H) -> SessionResult<H> {
        prepare(&stream);
        let writer = match stream.try_clone() {
            Ok(writer) => writer,
            Err(error) => return SessionResult::Fault(fault_of(error)),
        };
        let bell = self.door.bell();
        let connection = Connection {
            reader: stream,
            writer: Patient::new(writer, bell),
        };
        let end = serve_session(self.rt, self.alloc, connection, bell, self.offices, hand);
        SessionResult::Session(left_of(end))
    }

    // Takes a connection and serves it with the next hand. `None`: no more are taken.
    fn next(&self) -> Option<SessionResult<H>> {
        let Ok(hand) = self.free.recv(self.rt) else {
            return None;
        };
        match self.door.accept() {
            Ok(Some(stream)) => Some(self.serve(stream, hand)),
            Ok(None) => None,
            Err(error) => Some(SessionResult::Fault(fault_of(error))),
        }
    }

    // Takes a connection, serves it with the next hand, and puts what came of it to the others. Where no more are taken,
    // it does nothing.
    fn put_next<B: TakesResults<SessionResult<H>>>(&self, results: &B) {
        if let Some(came) = self.next() {
            results.put(self.rt, came);
        }
    }
}

// Takes and serves so many connections, each in a thread of its own where these can be made, and else one after another,
// and returns when all have ended.
fn put_each<
    R: Threads + Wait + Clock + Sync,
    H: Ends + Send,
    O: Offices + Sync,
    D: Door + Sync,
    B: TakesResults<SessionResult<H>> + Sync,
>(sessions: &Sessions<'_, R, H, O, D>, count: usize, results: &B) {
    let Sessions {
        rt,
        alloc,
        door,
        free,
        offices,
    } = *sessions;
    // A refusal of memory comes only once all have ended, and takes nothing from what they left.
    let _ended = thread::map_indices(
        rt,
        alloc,
        count,
        &|_part| {
            let session = Sessions {
                rt,
                alloc,
                door,
                free,
                offices,
            };
            session.put_next(results)
        },
    );
}

/// Serves a connection for each hand, each on threads of its own where these can be made and else one after another,
/// until all have ended, or no more are taken and those that were have ended. It gives what came of them.
///
/// The error is that memory was refused; nobody was served then. The room for what comes is taken before.
pub fn serve_all<
    R: Threads + Wait + Clock + Sync,
    H: Ends + Send,
    O: Offices + Sync,
    D: Door + Sync,
>(
    rt: &R,
    alloc: Global,
    door: &D,
    hands: Vec<H>,
    offices: &O,
) -> Result<Vec<SessionResult<H>>, AllocError> {
    let count = hands.len();
    let results = Results::with_room(alloc, count)?;
    let (to, free) = crossbeam_channel::unbounded(alloc)?;
    for hand in hands {
        if to.send(rt, hand).is_err() {
            return Err(AllocError);
        }
    }
    let sessions = Sessions {
        rt,
        alloc,
        door,
        free: &free,
        offices,
    };
    put_each(&sessions, count, &results);
    Ok(results.into_all())
}
