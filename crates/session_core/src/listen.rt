//! The second thread of a session: it reads while a call waits.

ghost use Rattle.session_core.specs.Heeding.{Heeds};

use crate::mouth::Mouth;
use crate::order::Offices;
use crate::output::Start;
use crossbeam_channel::Receiver;
use session_text::ear::{Ear, Heard};
use session_text::line::{AnyLine, LineRefusal, ReplyLine};
use session_text::relay::Relay;
use session_text::session::Action;
use std::alloc::Global;
use std::io::{Read, Write};
use std::sync::Wait;

// Writes a line at once.
fn tell<R: Wait, W: Write + Drop, J: Start>(rt: &R, mouth: &Mouth<W, J>, line: ReplyLine) -> bool {
    mouth.say(rt, AnyLine::Told(line)) && mouth.flush(rt)
}

// Cancels a call of the object that is opened, and answers at once.
fn cancel<R: Wait, W: Write + Drop, J: Start, O: Offices>(
    rt: &R,
    offices: &O,
    mouth: &Mouth<W, J>,
    opened: Option<(usize, u32)>,
    number: u32,
) -> bool {
    let Some((at, _)) = opened else {
        return true;
    };
    let Some(office) = offices.office(at) else {
        return true;
    };
    let answer = office.cancel(rt, number);
    tell(rt, mouth, ReplyLine::Cancel(u64::from(number), answer))
}

/// A session leaves its object.
pub(crate) fn leave<R: Wait, O: Offices>(rt: &R, offices: &O, opened: Option<(usize, u32)>) {
    if let Some((at, session)) = opened {
        if let Some(office) = offices.office(at) {
            office.leave(rt, session);
        }
    }
}

// Does what was heard, or hands it over. It answers whether the hearing goes on.
fn heed<R: Wait, I: Read + Drop, W: Write + Drop, J: Start, O: Offices>(
    rt: &R,
    offices: &O,
    mouth: &Mouth<W, J>,
    relay: &Relay<I>,
    ear: &mut Ear<I>,
    heard: Heard,
) -> bool
    ensures { Heeds heard ear.old result ear.new }
{
    match heard {
        Heard::Nothing => ear.read(),
        Heard::Action(Action::Cancel(number)) => {
            if !cancel(rt, offices, mouth, ear.opened(), number) {
                ear.end(None);
            }
        }
        Heard::Action(action) => {
            relay.pass(rt, action, ear);
        }
        Heard::LineTooLong => {
            let _told = tell(rt, mouth, ReplyLine::Refused(LineRefusal::LineTooLong));
        }
        Heard::End(_) => return false,
    }
    true
}

// Hears until the first thread wants the reading side, or nothing more is heard. Then the session leaves its object.
fn listen_on<R: Wait, I: Read + Drop, W: Write + Drop, J: Start, O: Offices>(
    rt: &R,
    alloc: Global,
    offices: &O,
    mouth: &Mouth<W, J>,
    relay: &Relay<I>,
    ear: Ear<I>,
) {
    let mut ear = ear;
    for _ in rt.forever() {
        if relay.is_wanted(rt) {
            break;
        }
        let heard = ear.hear(alloc);
        if !heed(rt, offices, mouth, relay, &mut ear, heard) {
            leave(rt, offices, ear.opened());
            break;
        }
    }
    relay.give_back(rt, ear);
}

/// Hears for the first thread, each time that it lends its reading side.
pub(crate) fn listen<R: Wait, I: Read + Drop, W: Write + Drop, J: Start, O: Offices>(
    rt: &R,
    alloc: Global,
    from: Receiver<Ear<I>>,
    offices: &O,
    mouth: &Mouth<W, J>,
    relay: &Relay<I>,
) {
    relay.arrive(rt);
    for _ in rt.forever() {
        let Ok(ear) = from.recv(rt) else {
            break;
        };
        listen_on(rt, alloc, offices, mouth, relay, ear);
    }
}
