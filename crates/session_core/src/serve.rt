//! Sessions over a reader and a writer.

ghost use Rattle.std.specs.Prelude.{◌≡◌, ℕ, List, Option};
ghost use Rattle.device_core.specs.declared.hand.Stamp.{Stamp};
ghost use Rattle.session_core.specs.Truth.{Keeps, AreTrue};
ghost use Rattle.session_core.specs.Written.{IsSaid, HasWritten};
ghost use Rattle.session_text.specs.declared.fault.HearFault.{HearFault};
ghost use Rattle.session_core.specs.Causes.{IsCausedBy, IsCaused};
ghost use Rattle.session_core.specs.Working.{Works, HasWorked};

use crate::end::{SessionEnd, conclude};
use crate::entered::parked;
use crate::fault::SessionFault;
use crate::listen::listen;
use crate::mouth::Mouth;
use crate::note::ReplyNote;
use crate::order::Offices;
use crate::output::{Health, Start};
use crate::sender::send;
use crate::work::{Worked, work};
use device_core::hand::Hand;
use session_text::bell::{Bell, UntilBell};
use session_text::ear::Ear;
use session_text::reading::ReadingSide;
use session_text::relay::Relay;
use std::alloc::Global;
use std::io::{Read, Write};
use std::marker::Brand;
use std::sync::Wait;
use std::thread;
use std::thread::Threads;
use std::time::Clock;

/// The connection to a client, by its two sides.
#[derive(Drop)]
pub struct Connection<I: Read + Drop, W: Write + Drop> {
    /// What the client says is read here.
    pub reader: I,
    /// What the client is told is written here.
    pub writer: W,
}

// What a session hands back, by what was written and what its first thread left. All its threads have ended, so that
// none of them takes the session of a client out that has come back.
fn ended<R: Wait, W: Drop, H: Drop, O: Offices>(
    rt: &R,
    offices: &O,
    writer: W,
    notes: &[ReplyNote],
    health: Health,
    worked: Worked<H>,
) -> SessionEnd<W, H>
    ensures hand { result.hand ≡ worked.hand }
    ensures receipts { result.receipts.items ≡ worked.receipts.items }
    ensures writer { result.writer ≡ writer }
    ensures written { (start now : Option (List ℕ)) → IsSaid start now health notes.now →
        HasWritten start now worked.receipts.items result.fault }
    ensures caused { IsCausedBy worked.receipts.items notes.now health worked.fault result.fault }
{
    let Worked {
        hand,
        seat,
        receipts,
        room: _,
        free: _,
        deadline: _,
        fault: met,
    } = worked;
    let fault = conclude(&receipts, notes, health, met);
    let (object, seat) = parked(rt, offices, seat);
    SessionEnd {
        object,
        seat,
        receipts,
        writer,
        hand,
        fault,
    }
}

// The work of the first thread, with the third one beside it.
fn work_beside<
    J: Start + Send + Sync,
    R: Threads + Wait + Clock + Sync,
    I: Read + Drop + Send,
    W: Write + Drop + Send,
    H: Hand + Drop,
    O: Offices + Sync,
>(
    rt: &R,
    alloc: Global,
    offices: &O,
    mouth: &Mouth<W, J>,
    reading: ReadingSide<'_, I>,
    hand: H,
) -> Worked<H>
    ensures kept { Keeps H.agrees hand result.hand }
    ensures told { AreTrue H.agrees result.hand result.receipts.items }
    ensures works { Works H.makes hand result.hand result.free.items }
{
    let (_, worked) = thread::join(
        rt,
        move || send(rt, offices, mouth),
        move || -> Worked<H>
            ensures { HasWorked H.agrees H.makes hand result }
        { work(rt, alloc, offices, mouth, reading, hand) },
    );
    worked
}

// Serves one session over a connection whose writer held this at first.
fn serve_from<
    J: Start + Send + Sync,
    R: Threads + Wait + Clock + Sync,
    I: Read + Drop + Send,
    W: Write + Drop + Send,
    H: Hand + Drop,
    O: Offices + Sync,
>(
    rt: &R,
    alloc: Global,
    connection: Connection<I, W>,
    bell: &Bell,
    offices: &O,
    hand: H,
) -> SessionEnd<W, H>
    requires { W.contents connection.writer ≡ J.start }
    ensures kept { Keeps H.agrees hand result.hand }
    ensures told { AreTrue H.agrees result.hand result.receipts.items }
    ensures written { HasWritten J.start (W.contents result.writer) result.receipts.items result.fault }
    ensures caused { (heard : Option HearFault) ×
        IsCaused J.start (W.contents result.writer) result.receipts.items heard result.fault }
    ensures works { (left : List Stamp) × Works H.makes hand result.hand left }
{
    let Connection { reader, writer } = connection;
    let (to, from) = match crossbeam_channel::bounded(alloc, 1) {
        Ok(ends) => ends,
        Err(_) => {
            return SessionEnd {
                object: None,
                seat: None,
                receipts: Vec::new(alloc),
                writer,
                hand,
                fault: Some(SessionFault::Memory),
            };
        }
    };
    let mouth: Mouth<W, J> = Mouth::new(alloc, writer);
    let relay = Relay::new(alloc);
    let ear = Ear::new(alloc, reader);
    let shared = &mouth;
    let lent = &relay;
    let reading = ReadingSide::new(ear, to, lent, bell);
    let (_, worked) = thread::join(
        rt,
        move || listen(rt, alloc, from, offices, shared, lent),
        move || -> Worked<H>
            ensures { HasWorked H.agrees H.makes hand result }
        { work_beside(rt, alloc, offices, shared, reading, hand) },
    );
    let (writer, notes, health) = mouth.into_parts();
    ended(rt, offices, writer, &notes, health, worked)
}

/// Serves one session: the calling thread reads lines and does what they ask for; while a call waits for more than some
/// milliseconds, a second thread reads on, and a third one sends what is held back. So nothing is written by a thread
/// that has a call, from its submission to its end.
///
/// The session ends by `quit`, at the end of its input, when the bell has rung, or by a fault, which `fault` tells. But
/// by `quit` it leaves its object, also behind a `quit` that stands behind a waiting call: the waiting call is
/// cancelled, calls not yet submitted are answered `no Gone`, a running call is completed. Once all its threads have
/// ended, the seat of a client that has a name is parked, and the client may come back. A read that is interrupted or
/// whose time runs out is no fault. Where `quit` was read behind a waiting call, and where the bell has rung, the end
/// comes with the next read that returns, so a reader whose reads never time out may hold it up; so may a writer whose
/// writes never do. What stands behind the last line end is done only where it harms nobody: a call is answered `no
/// Gone`, a cancel `no BadLine`. Where no second thread can be made, nothing is read while a call waits, and where no
/// third one can be made, nothing is sent meanwhile. The receipts are true of each assignment that agrees with the hand
/// given back. What was written are whole lines of the table or of receipts, each where it may stand: behind `accepted N`
/// comes the last line of that call before any other is accepted, and only answers of cancels and `no LineTooLong` in
/// between; nothing comes behind `bye`. Each call that was accepted has its last line, and those of calls with a receipt
/// are those of the receipts, one by one. With `Memory` lines may be missing at the end; with `WriteFault` too, and a
/// front of one more may stand there. A fault is told for its cause alone: `LogMixed` where a line was said where it may
/// not stand, or the last lines that were said are not those of the receipts; `WriteFault` where the writer failed;
/// `Memory` where there was none for a line; and else what was met in reading, if anything was. Files whose retire
/// failed are tried again later, and left at the end.
pub fn serve_session<
    R: Threads + Wait + Clock + Sync,
    I: Read + Drop + Send,
    W: Write + Drop + Send,
    H: Hand + Drop,
    O: Offices + Sync,
>(
    rt: &R,
    alloc: Global,
    connection: Connection<I, W>,
    bell: &Bell,
    offices: &O,
    hand: H,
) -> SessionEnd<W, H>
    ensures kept { Keeps H.agrees hand result.hand }
    ensures told { AreTrue H.agrees result.hand result.receipts.items }
    ensures written { HasWritten (W.contents connection.writer) (W.contents result.writer) result.receipts.items
        result.fault }
    ensures caused { (heard : Option HearFault) × IsCaused (W.contents connection.writer) (W.contents result.writer)
        result.receipts.items heard result.fault }
    // It runs calls, and each file that it retires was handed out as free when the outcome of one of them was taken.
    ensures works { (left : List Stamp) × Works H.makes hand result.hand left }
{
    let Connection { reader, writer } = connection;
    serve_from::<Brand, R, UntilBell<'_, I>, W, H, O>(
        rt,
        alloc,
        Connection {
            reader: UntilBell::new(reader, bell),
            writer,
        },
        bell,
        offices,
        hand,
    )
}
