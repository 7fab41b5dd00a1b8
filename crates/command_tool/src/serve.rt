//! `pathserve serve` over any runtime, hands and writer.

ghost use Rattle.std.specs.Prelude.{◌≡◌, ◌⊎◌, IfErr, IfOk, Result, length, string_bytes};
ghost use Rattle.std.specs.Arc.{arc_value};
ghost use Rattle.answer_core.specs.declared.failure.ToolFailure.TheVariants.{ReadFault, Memory};
ghost use Rattle.serve_core.specs.Runs.{IsRun};
ghost use Rattle.command_tool.specs.Ends.{serve_status, status_of_end};

use answer_core::answer::{ACCEPTED, REFUSED};
use answer_core::explanation::{Telling, explained};
use answer_core::failure::ToolFailure;
use answer_core::lack::{Unmet, Wanted, tell_lack};
use cause_core::cause::Cause;
use device_core::ahead::{AheadHand, Ends};
use device_core::dir::DirHand;
use device_core::hand::Hand;
use device_core::numbers::Numbers;
use device_core::sealed::Sealed;
use serve_core::found::found_in;
use serve_core::gate::Gate;
use serve_core::serve::{ServeEnd, ServerFolder, serve_on};
use serve_core::values::DirValues;
use std::alloc::AllocError;
use std::io::Write;
use std::os::unix::fs::FileExt;
use std::rt::Files;
use std::sync::{Arc, Wait};
use std::thread::Threads;
use std::time::Clock;
use value_core::LinesFault;

// Numbers from this one on, which hands share.
fn numbers_from<R: AllocGlobal>(rt: &R, first: u64) -> Result<Arc<Numbers>, AllocError>
    ensures { IfOk result (λ numbers. arc_value numbers ≡ first) }
{
    match Arc::new(rt.alloc(), Numbers::new(first)) {
        Ok(numbers) => Ok(numbers),
        Err(_) => Err(AllocError),
    }
}

// What the hands of a folder share.
fn shared<R: AllocGlobal>(rt: &R) -> Result<Arc<Sealed>, AllocError> {
    match Arc::new(rt.alloc(), Sealed::new(rt.alloc())?) {
        Ok(sealed) => Ok(sealed),
        Err(_) => Err(AllocError),
    }
}

// A hand on a folder for each of so many sessions.
fn hands_on<R: Files + AllocGlobal + Clone + Drop>(
    rt: &R,
    folder: &str,
    numbers: &Arc<Numbers>,
    sessions: usize,
) -> Result<Vec<AheadHand<R>>, AllocError>
    ensures { IfOk result (λ hands. length hands.items ≡ sessions) }
{
    let sealed = shared(rt)?;
    let mut hands = Vec::new(rt.alloc());
    for made in 0..sessions {
        let hand = DirHand::new(rt.clone()?, folder, Arc::try_clone(numbers)?)?;
        let hand = AheadHand::new(rt.clone()?, hand, folder, Arc::try_clone(&sealed)?)?;
        if hands.push(hand).is_err() {
            return Err(AllocError);
        }
    }
    Ok(hands)
}

/// A folder and a hand on it for each of so many sessions. It touches no file.
///
/// A failure is `ReadFault` where the folder cannot be read, or `Memory`.
pub fn place_of<R: Files + AllocGlobal + Clone + Drop>(
    rt: &R,
    folder: &str,
    sessions: usize,
) -> Result<ServerFolder<AheadHand<R>>, ToolFailure>
    ensures place { IfOk result (λ place. string_bytes place.folder ≡ folder.now) }
    ensures hands { IfOk result (λ place. length place.hands.items ≡ sessions) }
    ensures fault { IfErr result (λ failure. (failure ≡ ReadFault) ⊎ (failure ≡ Memory)) }
{
    let values = DirValues::new(rt.clone()?, folder)?;
    let found = found_in(&values, rt.alloc())?;
    let numbers = numbers_from(rt, found.first())?;
    let hands = hands_on(rt, folder, &numbers, sessions)?;
    let folder = String::from_str(rt.alloc(), folder)?;
    Ok(ServerFolder {
        folder,
        found,
        numbers,
        hands,
    })
}

// The exit status of a server that ended so.
fn status_of_serve(end: ServeEnd) -> Result<u8, ToolFailure>
    ensures { result ≡ serve_status end }
{
    match end {
        ServeEnd::Whole => Ok(ACCEPTED),
        ServeEnd::Refused => Ok(REFUSED),
        ServeEnd::Unopened => Err(ToolFailure::ReadFault),
    }
}

// What was lacking where a server ended so.
fn lack_of(ended: &Result<ServeEnd, LinesFault>) -> Option<Unmet> {
    match ended {
        Ok(ServeEnd::Unopened) => Some(Unmet {
            need: Wanted::Parts,
            cause: Cause::Unknown,
        }),
        _ => None,
    }
}

/// The text of a source, how much is told of it where it is refused, and the names of its file and of the folder of the
/// values, as the command line has them.
#[derive(Drop)]
pub struct ServedSource {
    pub text: Vec<u8>,
    pub telling: Telling,
    pub file: String,
    pub folder: String,
}

/// `pathserve serve`: serves the objects of a source to a connection at the gate for each hand, over the parts in a
/// folder, and gives the exit status: 0 where each object was served, closed and saved, 1 where a line says what was
/// refused, damaged or mixed.
///
/// `error` gets why the source is refused, as far as that is to be told, and why the server did not start.
///
/// A failure is `ReadFault`, `WriteFault` or `Memory`, the first that was met. What did not hang on it was still done.
pub fn serve_objects<
    R: Files + AllocGlobal + Threads + Wait + Clock + Clone + Drop + Sync,
    H: Hand + Ends + Drop + Send,
    W: Write,
    E: Write,
>(
    rt: &R,
    source: &ServedSource,
    place: ServerFolder<H>,
    gate: &Gate,
    writer: &mut W,
    error: &mut E,
) -> Result<u8, ToolFailure>
where
    R::File: FileExt,
    // The status is that of the end of the server.
    ensures { (end : Result ServeEnd LinesFault) × IsRun H.agrees source.now.text.items end (W.contents writer.old)
        (W.contents writer.new) × (result ≡ status_of_end end) }
{
    let ended = serve_on(rt, &source.text, place, gate, writer, error);
    tell_lack(rt.alloc(), lack_of(&ended), source.folder.as_str(), error);
    let ended = match ended {
        Ok(end) => status_of_serve(end),
        Err(fault) => Err(ToolFailure::from(fault)),
    };
    explained(
        rt.alloc(),
        ended,
        source.telling,
        source.file.as_str(),
        &source.text,
        None,
        error,
    )
}
