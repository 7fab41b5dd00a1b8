//! Files in a folder, of which the next one is ready.

ghost use Rattle.std.specs.Prelude.{◌≡◌, ◌<◌, ◌≤◌, IfOk};
ghost use Rattle.device_core.specs.Device.{FaultCause};

use crate::dir::DirHand;
use crate::hand::{Hand, HandFault, Pen, Stamp};
use crate::reads::Reads;
use crate::sealed::{MOST_BYTES, Sealed};
use itoa::Buffer;
use std::alloc::AllocError;
use std::fs;
use std::os::unix::fs::FileExt;
use std::rt::Files;
use std::sync::Arc;

// The most bytes that a path has beyond its folder: a slash, 20 digits and the ending.
const NAME_BYTES: usize = 25;

/// What is done once, after the last call of a hand.
pub trait Ends: Hand + Drop {
    ghost use Rattle.device_core.specs.Device.{Assignment};

    /// Ends the work. An assignment that agrees with the hand then agreed with it before.
    fn end(&mut self)
        ensures kept { (a : Assignment) → Self.agrees self.new a → Self.agrees self.old a };
}

/// A hand over a `DirHand` that makes its next file ahead, and keeps what it read last.
///
/// - After a `retire` an empty file is made, if none is ready: the next `create` gives it, where it still lies in the
///   folder. Where none can be
///   made, or it lies there no more, `create` makes one, and fails as a `DirHand` does. A failure ahead is none of a
///   call.
/// - The last 8 reads of at most 4,096 bytes are kept (`Reads`), and a read of the same stamp, place and length as one
///   of them is answered from memory, until
///   the hand retires the file: a sealed file does not change.
/// - A file of at most 4,096 bytes that it seals is shared with the other hands of its folder (`Sealed`), and a read of
///   one that is shared is answered from
///   there, until one of them retires it.
/// - `end` removes the file that is ready.
///
/// Its other answers, and its failures, are those of the `DirHand`. Only `create`, and the making ahead, take memory.
#[derive(Drop)]
pub struct AheadHand<R: Files + AllocGlobal> {
    rt: R,
    inner: DirHand<R>,
    folder: String,
    // The path of the file that is ready.
    path: String,
    // Its number.
    ready: Option<u64>,
    // What was read last.
    reads: Reads,
    // The bytes of the file that was created last, as long as they are few, and its number.
    written: Vec<u8>,
    written_of: Option<u64>,
    // What the hands of the folder sealed last.
    sealed: Arc<Sealed>,
    failures: u64,
}

// Counts a fault, but where memory was wanted.
fn count(failures: &mut u64, fault: HandFault) -> HandFault
    ensures fault { result ≡ fault }
    ensures counted { failures.old ≤ failures.new }
    ensures cause { FaultCause failures.old failures.new result }
    ensures rises { failures.old < failures.new → result ≡ HandFault.Device }
{
    match fault {
        HandFault::Device => *failures = failures.saturating_add(1),
        HandFault::Memory => {}
    }
    fault
}

impl<R: Files + AllocGlobal + Drop> AheadHand<R> {
    /// A hand over this one, whose folder is named, and what the hands of that folder share. It touches no file yet.
    pub fn new(
        rt: R,
        inner: DirHand<R>,
        folder: &str,
        sealed: Arc<Sealed>,
    ) -> Result<AheadHand<R>, AllocError>
        ensures { IfOk result (λ hand. hand.failures ≡ 0) }
    {
        let alloc = rt.alloc();
        let path = String::with_capacity(alloc, folder.len().saturating_add(NAME_BYTES))?;
        let folder = String::from_str(alloc, folder)?;
        let reads = Reads::new(alloc)?;
        let written = Vec::with_capacity(alloc, MOST_BYTES)?;
        Ok(AheadHand {
            rt,
            inner,
            folder,
            path,
            ready: None,
            reads,
            written,
            written_of: None,
            sealed,
            failures: 0,
        })
    }
}

impl<R: Files + AllocGlobal> AheadHand<R>
where
    R::File: FileExt,
{
    // Puts the path of a file into the buffer. Without memory it answers false.
    fn set_path(&mut self, number: u64) -> bool
        ensures { self.new.failures ≡ self.old.failures }
    {
        let mut digits = Buffer::new();
        self.path.clear();
        self.path.push_str(self.folder.as_str()).is_ok()
            && self.path.push('/').is_ok()
            && self.path.push_str(digits.format(number)).is_ok()
            && self.path.push_str(".val").is_ok()
    }

    // Makes the next file, if none is ready. A failure is not counted, since no call asked for it.
    fn prepare(&mut self)
        ensures { self.new.failures ≡ self.old.failures }
    {
        if self.ready.is_some() {
            return;
        }
        let Ok(pen) = self.inner.create() else {
            return;
        };
        if !self.set_path(pen.number) {
            self.inner.discard(pen);
            return;
        }
        let Pen { number } = pen;
        self.ready = Some(number);
    }

    // The file that is ready, where it lies in the folder. One that was removed is given up.
    fn take_ready(&mut self) -> Option<u64>
        ensures { self.new.failures ≡ self.old.failures }
    {
        let number = self.ready.take()?;
        match fs::exists(&self.rt, self.path.as_str()) {
            Ok(true) => Some(number),
            _ => {
                self.inner.discard(Pen { number });
                None
            }
        }
    }

    // Notes the file that is written next, which has no bytes yet.
    fn note_created(&mut self, number: u64)
        ensures { self.new.failures ≡ self.old.failures }
    {
        self.written.clear();
        self.written_of = Some(number);
    }

    // Notes what was appended to a file, as long as it has few bytes.
    fn note_appended(&mut self, number: u64, bytes: &[u8])
        ensures { self.new.failures ≡ self.old.failures }
    {
        if self.written_of != Some(number) {
            return;
        }
        if bytes.len() > MOST_BYTES - self.written.len().min(MOST_BYTES) {
            self.written_of = None;
            return;
        }
        if self.written.extend_from_slice(bytes).is_err() {
            self.written_of = None;
        }
    }

    // Shares a file that was sealed, where all its bytes were noted.
    fn share(&mut self, stamp: &Stamp)
        ensures { self.new.failures ≡ self.old.failures }
    {
        if self.written_of != Some(stamp.number) {
            return;
        }
        self.written_of = None;
        if self.written.len() == stamp.len {
            self.sealed.keep(stamp.number, &self.written);
        }
    }
}

/// Its failures are those of a `DirHand`, call by call.
impl<R: Files + AllocGlobal> Hand for AheadHand<R>
where
    R::File: FileExt,
{
    // No clause can say what a folder holds, so no assignment agrees.
    ghost agrees = { λ h a. ⊥ };

    ghost pending = { λ h n b. Unit {0} };

    ghost serves = { λ h s. Unit {0} };

    // Nor can one say that it is in order.
    ghost works_for = { λ h n. ⊥ };

    ghost fails = { λ h. ⊥ };

    ghost makes = { λ h call k. Unit {0} };

    ghost failed = { λ h. h.failures };

    fn create(&mut self) -> Result<Pen, HandFault> {
        if let Some(number) = self.take_ready() {
            self.note_created(number);
            return Ok(Pen { number });
        }
        match self.inner.create() {
            Ok(pen) => {
                self.note_created(pen.number);
                Ok(pen)
            }
            Err(fault) => Err(count(&mut self.failures, fault)),
        }
    }

    fn append(&mut self, pen: &mut Pen, bytes: &[u8]) -> Result<(), HandFault> {
        match self.inner.append(pen, bytes) {
            Ok(()) => {
                self.note_appended(pen.number, bytes);
                Ok(())
            }
            Err(fault) => Err(count(&mut self.failures, fault)),
        }
    }

    fn seal(&mut self, pen: Pen) -> Result<Stamp, (Pen, HandFault)> {
        match self.inner.seal(pen) {
            Ok(stamp) => {
                self.share(&stamp);
                Ok(stamp)
            }
            Err((pen, fault)) => {
                let fault = count(&mut self.failures, fault);
                Err((pen, fault))
            }
        }
    }

    fn discard(&mut self, pen: Pen) {
        self.inner.discard(pen);
    }

    fn read(&mut self, stamp: &Stamp, at: usize, into: &mut [u8]) -> Result<(), HandFault> {
        if self.reads.give(stamp, at, into) {
            return Ok(());
        }
        if self.sealed.read(stamp, at, into) {
            self.reads.keep(stamp, at, into);
            return Ok(());
        }
        match self.inner.read(stamp, at, into) {
            Ok(()) => {
                self.reads.keep(stamp, at, into);
                Ok(())
            }
            Err(fault) => Err(count(&mut self.failures, fault)),
        }
    }

    fn retire(&mut self, stamp: &Stamp) -> Result<(), HandFault> {
        self.reads.forget(stamp.number);
        self.sealed.forget(stamp.number);
        let answer = match self.inner.retire(stamp) {
            Ok(()) => Ok(()),
            Err(fault) => Err(count(&mut self.failures, fault)),
        };
        self.prepare();
        answer
    }

    fn failures(&self) -> u64 {
        self.failures
    }
}

impl<R: Files + AllocGlobal + Drop> Ends for AheadHand<R>
where
    R::File: FileExt,
{
    fn end(&mut self) {
        if let Some(number) = self.ready.take() {
            self.inner.discard(Pen { number });
        }
    }
}
