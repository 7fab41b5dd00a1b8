//! A server from its start to its end.

ghost use Rattle.std.specs.Prelude.{◌≡◌, ◌∷◌, ℕ, List, [], IfOk};
ghost use Rattle.std.specs.Io.KnownBytes.{Appends};
ghost use Rattle.std.specs.Arc.{arc_value};
ghost use Rattle.serve_core.specs.Numbers.{AreBetween};
ghost use Rattle.serve_core.specs.Deeds.{RemovesAll};
ghost use Rattle.serve_core.specs.Handled.{IsHandled};
ghost use Rattle.keep_core.specs.Moments.{moment_of};
ghost use Rattle.serve_core.specs.Runs.{IsRunOf, IsRunIn, IsRefusedBy, IsRun, IsEndBehind};
ghost use Rattle.serve_core.specs.Tidies.{TidiesValues};

use crate::clear::{move_left, remove_between};
use crate::found::FoundFiles;
use crate::gate::Gate;
use crate::host::Host;
use crate::values::{DirValues, Values};
use check_core::judge::{JudgedSource, judge};
use decl_core::analyse::Accepted;
use device_core::ahead::Ends;
use device_core::dir::DirHand;
use device_core::dir_shelf::{DirShelf, ShelfKind};
use device_core::hand::Hand;
use device_core::numbers::Numbers;
use device_core::shelf::Shelf;
use keep_core::close::Closing;
use std::alloc::{AllocError, Global};
use std::io::{ErrorKind, Write};
use std::os::unix::fs::FileExt;
use std::rt::Files;
use std::sync::{Arc, Wait};
use std::thread::Threads;
use std::time::Clock;
use value_core::{LinesFault, write_whole};

/// Where a server keeps its files, and the hands of its sessions: it takes a connection for each.
#[derive(Drop)]
pub struct ServerFolder<H: Drop> {
    /// The folder.
    pub folder: String,
    /// The numbers of the value files that an earlier run left there, and the first number above them.
    pub found: FoundFiles,
    /// Numbers from that one on, from which each of the hands draws.
    pub numbers: Arc<Numbers>,
    /// A hand on the folder for each session.
    pub hands: Vec<H>,
    // No number that is drawn is that of a file which was left.
    ghost above: { arc_value numbers ≡ found.first },
}

/// How a server ended.
#[derive(Clone, Copy, Debug, PartialEq, Eq)]
pub enum ServeEnd {
    /// Each object was served, closed and saved.
    Whole,
    /// Something was refused, damaged or mixed, and a line says what.
    Refused,
    /// The parts of an object cannot be opened in the folder: nothing was served.
    Unopened,
}

// What closes the objects in a folder.
fn closing_in<R: Files + AllocGlobal + Clone + Drop>(
    rt: &R,
    alloc: Global,
    folder: &str,
    numbers: &Arc<Numbers>,
) -> Result<Closing<DirShelf<R>, DirShelf<R>, DirHand<R>>, AllocError>
where
    R::File: FileExt,
{
    let parts = DirShelf::of(rt.clone()?, folder, ShelfKind::Parts)?;
    let traces = DirShelf::of(rt.clone()?, folder, ShelfKind::Traces)?;
    let hand = DirHand::new(rt.clone()?, folder, Arc::try_clone(numbers)?)?;
    Closing::new(alloc, parts, traces, hand)
}

// The value files of a folder.
fn values_in<R: Files + AllocGlobal + Clone + Drop>(
    rt: &R,
    folder: &str,
) -> Result<DirValues<R>, AllocError> {
    DirValues::new(rt.clone()?, folder)
}

// The value files of a folder, with what an earlier run left there and the numbers of this one.
#[derive(Drop)]
struct ValueFiles<V: Values + Drop> {
    values: V,
    found: FoundFiles,
    numbers: Arc<Numbers>,
}

impl<S: Shelf + Drop, T: Shelf + Drop, K: Hand + Drop, H: Ends + Send> Host<S, T, K, H> {
    // Moves the value files aside that an earlier run left, serves objects that are accepted, and removes the value
    // files of this run where nothing hangs on them any more.
    fn run_in<R: Threads + Wait + Clock + Sync, V: Values + Drop, W: Write, E: Write>(
        &mut self,
        rt: &R,
        ready: Vec<Accepted>,
        files: &mut ValueFiles<V>,
        gate: &Gate,
        writer: &mut W,
        error: &mut E,
    ) -> Result<ServeEnd, LinesFault>
        ensures run { IsRunIn H.agrees (moment_of S.holds T.holds K.agrees self.old.closing (W.contents writer.old))
            (moment_of S.holds T.holds K.agrees self.new.closing (W.contents writer.new)) self.old.hands.items
            self.new.hands.items ready.items result }
        // Those that were found are moved, and of this run's own none is removed where an object was not saved and traced.
        ensures files { TidiesValues V.does files.old.values files.old.found.numbers (arc_value files.old.numbers)
            self.new.closing.keeps_all result files.new.values }
    {
        match move_left(&mut files.values, self.alloc, files.found.numbers(), error) {
            Ok(_) => {}
            Err(_) => return Err(LinesFault::Memory),
        }
        let ended = self.run(rt, ready, gate, writer, error);
        if self.closing.keeps_all {
            remove_own(&mut files.values, self.alloc, &files.numbers, ended)
        } else {
            ended
        }
    }
}

impl<H: Ends + Send> ServerFolder<H> {
    // Serves objects that are accepted, over this folder.
    fn serve<
        R: Files + AllocGlobal + Threads + Wait + Clock + Clone + Drop + Sync,
        W: Write,
        E: Write,
    >(
        self,
        rt: &R,
        ready: Vec<Accepted>,
        gate: &Gate,
        writer: &mut W,
        error: &mut E,
    ) -> Result<ServeEnd, LinesFault>
    where
        R::File: FileExt,
        ensures { IsRunOf H.agrees ready.items result (W.contents writer.old) (W.contents writer.new) }
    {
        let alloc = rt.alloc();
        let ServerFolder {
            folder,
            found,
            numbers,
            hands,
        } = self;
        let folder = folder.as_str();
        let closing = match closing_in(rt, alloc, folder, &numbers) {
            Ok(closing) => closing,
            Err(_) => return Err(LinesFault::Memory),
        };
        let values = match values_in(rt, folder) {
            Ok(values) => values,
            Err(_) => return Err(LinesFault::Memory),
        };
        let mut files = ValueFiles {
            values,
            found,
            numbers,
        };
        let mut host = Host {
            alloc,
            closing,
            hands,
        };
        host.run_in(rt, ready, &mut files, gate, writer, error)
    }
}

/// Writes why nothing is served.
pub(crate) fn tell_refused<W: Write>(line: &[u8], writer: &mut W) -> Result<ServeEnd, LinesFault>
    ensures by { IsRefusedBy line.now result (W.contents writer.old) (W.contents writer.new) }
    ensures ok { IfOk result (λ end. (end ≡ ServeEnd.Refused)
        × Appends (W.contents writer.old) (W.contents writer.new) line.now) }
{
    match write_whole(writer, line) {
        Ok(()) => Ok(ServeEnd::Refused),
        Err(fault) => Err(fault),
    }
}

// Removes the value files of this run, which has ended so. Where memory for that is refused they are left.
fn remove_own<V: Values>(
    values: &mut V,
    alloc: Global,
    numbers: &Numbers,
    ended: Result<ServeEnd, LinesFault>,
) -> Result<ServeEnd, LinesFault>
    ensures ended { IsEndBehind ended result }
    // Only files of this run are removed: none is below its first number.
    ensures own { (end : ℕ) × (own : List ℕ) × AreBetween numbers.now end own
        × RemovesAll V.does values.old own values.new }
{
    // All numbers of this run are below the next one.
    match (
        remove_between(values, alloc, numbers.first(), numbers.draw()),
        ended,
    ) {
        (Err(error), Ok(_)) if error.kind() == ErrorKind::OutOfMemory => Err(LinesFault::Memory),
        _ => ended,
    }
}

/// Serves the objects of a source to so many connections at a gate, each on threads of its own, and ends when all have
/// ended, or the gate is shut and those that were taken have ended. The parts of each object are read from the folder
/// at the start, and saved there at the end, with its trace.
///
/// It writes `listening PLACE` once connections are taken, and at the end `NAME entries K` for each object, in order,
/// that was closed and saved, and whose trace was written. Where nothing is served it writes why: the fault of the
/// source, or a line for each object that is refused, as a check does; or `part OBJECT.PART damaged`. At the end that
/// line stands for a part that spells no value, and `close OBJECT refused` for an object that does not close; it
/// is saved all the same.
///
/// `error` is told what a user has to know beside that: `moved to left/K: N.val ..` of the value files that an earlier
/// run left, where it did not save all; `session of NAME mixed`; `OBJECT.PART not saved: N.val ..` with the files that
/// hold the value, page by page; `OBJECT.trace not written`.
/// The value files of this run are removed at the end where each object was saved and traced, and
/// where nothing was served.
///
/// The faults: `ReadFault` where a connection could not be taken or served, after which all else is still done;
/// `WriteFault` where a part or a trace cannot be saved or a line not be written; `Memory`. Of
/// several the first is told.
pub fn serve_on<
    R: Files + AllocGlobal + Threads + Wait + Clock + Clone + Drop + Sync,
    H: Ends + Send,
    W: Write,
    E: Write,
>(
    rt: &R,
    source: &[u8],
    place: ServerFolder<H>,
    gate: &Gate,
    writer: &mut W,
    error: &mut E,
) -> Result<ServeEnd, LinesFault>
where
    R::File: FileExt,
    // A source that is not served: what says why is written, and nothing else. Of a source that is served
    // each object is accepted.
    ensures handled { IfOk result (IsHandled source.now (W.contents writer.old) (W.contents writer.new)) }
    ensures run { IsRun H.agrees source.now result (W.contents writer.old) (W.contents writer.new) }
{
    match judge(rt.alloc(), source) {
        Ok(JudgedSource::Told(text)) => tell_refused(&text, writer),
        Ok(JudgedSource::Ready(ready)) => place.serve(rt, ready, gate, writer, error),
        Err(_) => Err(LinesFault::Memory),
    }
}
