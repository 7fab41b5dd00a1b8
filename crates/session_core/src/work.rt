//! The first thread of a session: it does the calls, and reads too, as long as no call waits.

ghost use Rattle.std.specs.Prelude.{◌≡◌, ◌<◌, ◌++◌, ◌∷◌, [], IsTrue, IfOk, IfSome, Ok, Some};
ghost use Rattle.std.specs.Vec.{vec_len, vec_capacity};
ghost use Rattle.board_core.specs.Board.{Board};
ghost use Rattle.board_core.specs.Sound.{IsSound};
ghost use Rattle.page_core.specs.Tickets.{ticket_call};
ghost use Rattle.page_core.specs.Outcomes.{outcome_call, TellsSame};
ghost use Rattle.office_core.specs.Rooms.{IsMade};
ghost use Rattle.board_core.specs.Answers.{HasName};
ghost use Rattle.board_core.specs.Keyed.{IsStateOf};
ghost use Rattle.office_core.specs.Slips.{told_by};
ghost use Rattle.office_core.specs.declared.seat.Submitted.{Submitted as Ask};
ghost use Rattle.office_core.specs.Submissions.{Asks, Tells, IsTicketOf};
ghost use Rattle.office_core.specs.Seats.{CompletedIn};
ghost use Rattle.session_core.specs.Truth.{Keeps, AreTrue};
ghost use Rattle.session_core.specs.Leaving.{RetiresLeft, PutsOff};
ghost use Rattle.session_core.specs.Making.{IsNew, MakesCall, MakesFor, MakesOnce, asked_by};
ghost use Rattle.session_core.specs.Opening.{Takes, Enters};
ghost use Rattle.session_core.specs.Working.{Works, WorksOn};

use crate::entered::{EnteredObject, NotEntered, seat_at};
use crate::listen::leave;
use crate::mouth::Mouth;
use crate::order::Offices;
use crate::output::Start;
use crate::room::make_room_in;
use board_core::answer::{CallState, EarlierCall, Finished};
use device_core::hand::{Hand, Stamp};
use device_core::retire::retire_all;
use guest_core::answer::SubmitFault;
use office_core::deadline::Deadline;
use office_core::office::Office;
use office_core::room::SlipRoom;
use office_core::seat::{Seat, Started, Submitted, Tried};
use office_core::slip::Slip;
use page_core::outcome::Outcome;
use page_core::ticket::Ticket;
use path_tree::name::Name;
use run_core::at_once::run_at_once;
use session_text::ear::Heard;
use session_text::fault::HearFault;
use session_text::line::{AnyLine, LineRefusal, ReplyLine, Unended};
use session_text::reading::ReadingSide;
use session_text::session::Action;
use std::alloc::Global;
use std::io::{Read, Write};
use std::sync::Wait;
use std::time::{Clock, Duration};
use std::{mem, str};
use value_core::datum::Datum;

/// How long a call may wait, in milliseconds, before the second thread reads meanwhile, and the third one sends what is
/// held back. So long at most a line that stands ready is held back because calls behind it wait for their turn.
const BRIEF: u64 = 10;

/// What a session is served with. It is shared by its threads. For one call of it, the office of the object that is
/// opened stands in place of all offices.
#[derive_where(Clone, Copy)]
struct Service<'a, R, P, W: Write + Drop, J: Start> {
    rt: &'a R,
    alloc: Global,
    // All offices that the session may open, or the one of a call.
    by: &'a P,
    mouth: &'a Mouth<W, J>,
}

/// What the first thread leaves.
#[derive(Drop)]
pub(crate) struct Worked<H: Drop> {
    pub(crate) hand: H,
    pub(crate) seat: Option<EnteredObject>,
    pub(crate) receipts: Vec<Slip>,
    // memory for the next of them
    pub(crate) room: SlipRoom,
    // files that nobody reads any more, not yet retired
    pub(crate) free: Vec<Stamp>,
    // how long lines are held back while calls wait
    pub(crate) deadline: Deadline,
    // what ended the hearing, where it was a fault
    pub(crate) fault: Option<HearFault>,
}

// How the session goes on.
#[derive(Clone, Copy, Debug, PartialEq, Eq)]
enum Goes {
    On,
    // The session leaves its object.
    Leaves(Option<HearFault>),
    // It ends by `quit`.
    Quits,
}

// Sends the lines that are held back. Where that fails, the session leaves its object.
fn flush<R: Wait, W: Write + Drop, J: Start>(service: Service<'_, R, Office, W, J>, seat: &Seat) {
    if !service.mouth.flush(service.rt) {
        service.by.leave(service.rt, seat.session());
    }
}

// Waits until a submitted call starts or is cancelled.
fn awaited<R: Wait>(rt: &R, office: &Office, submitted: Submitted) -> Option<Ticket>
    ensures { IfSome result (λ t. IsTicketOf submitted t) }
{
    let mut submitted = submitted;
    for _ in rt.forever() {
        match office.await_start(rt, submitted) {
            Started::Ticket(ticket) => return Some(ticket),
            Started::Cancelled => return None,
            Started::Stranger(back) => submitted = back,
        }
    }
    unreachable!()
}

// Waits until a submitted call starts or is cancelled, while the second thread reads. As long as that thread does not
// run, it looks again and again, also whether the session is to end.
fn awaited_beside<R: Wait, I: Read + Drop>(
    rt: &R,
    office: &Office,
    seat: &Seat,
    reading: &mut ReadingSide<'_, I>,
    submitted: Submitted,
) -> Option<Ticket>
    ensures { IfSome result (λ t. IsTicketOf submitted t) }
{
    let mut submitted = submitted;
    for _ in rt.forever() {
        if reading.lend(rt) {
            return awaited(rt, office, submitted);
        }
        if reading.is_stopped() {
            office.leave(rt, seat.session());
        }
        match office.try_start_within(rt, submitted, Duration::from_millis(BRIEF)) {
            Tried::Ticket(ticket) => return Some(ticket),
            Tried::Cancelled => return None,
            Tried::Waiting(back) => submitted = back,
            Tried::Stranger(back) => submitted = back,
        }
    }
    unreachable!()
}

// Has what is held back sent by the third thread, since this one has a call that may start at any time.
fn ask<R: Wait, I: Read + Drop, W: Write + Drop, J: Start>(
    service: Service<'_, R, Office, W, J>,
    reading: &ReadingSide<'_, I>,
) {
    if let Some((at, session)) = reading.opened() {
        service.mouth.ask(service.rt, at, session);
    }
}

// Waits until a call starts or is cancelled, of which a look at its submission, just made, told this. Before a call is
// waited for that does not start soon, the lines that are held back are sent, by the third thread.
fn started<R: Wait + Clock, I: Read + Drop, W: Write + Drop, J: Start>(
    service: Service<'_, R, Office, W, J>,
    deadline: &mut Deadline,
    seat: &Seat,
    reading: &mut ReadingSide<'_, I>,
    tried: Tried,
) -> Option<Ticket>
    ensures { IfSome result (λ t. (s : Ask) → Tells s tried → IsTicketOf s t) }
{
    let waiting = match tried {
        Tried::Ticket(ticket) => return Some(ticket),
        Tried::Cancelled => return None,
        Tried::Stranger(back) => return awaited(service.rt, service.by, back),
        Tried::Waiting(back) => back,
    };
    let most = deadline.left(service.rt);
    match service.by.try_start_within(service.rt, waiting, most) {
        Tried::Ticket(ticket) => Some(ticket),
        Tried::Cancelled => None,
        Tried::Waiting(back) => {
            ask(service, reading);
            deadline.reset();
            awaited_beside(service.rt, service.by, seat, reading, back)
        }
        Tried::Stranger(back) => awaited(service.rt, service.by, back),
    }
}

// Submits a call, and looks whether it has started. Where it is held back since a call runs that it would wait for, the
// lines that stand ready are sent after a while, before it is submitted.
fn submitted<R: Wait + Clock, W: Write + Drop, J: Start>(
    service: Service<'_, R, Office, W, J>,
    deadline: &mut Deadline,
    seat: &mut Seat,
    op: &str,
    args: &[Datum],
) -> Result<(u32, Tried), SubmitFault>
    ensures { IfOk result (λ r. (s : Ask) × Asks op.now args.now s × (r.0 ≡ s.number) × Tells s r.1) }
{
    if let Some(answer) = service
        .by
        .submit_in_turn(service.rt, seat, op, args, deadline)
    {
        return answer;
    }
    flush(service, seat);
    deadline.reset();
    service.by.submit_and_try(service.rt, seat, op, args)
}

// Hands an outcome in, until it is taken.
fn completed<R: Wait>(rt: &R, office: &Office, seat: &mut Seat, outcome: &mut Outcome) -> Finished
    ensures same { TellsSame outcome.old outcome.new }
    // What is free is what the inside that took it hands out.
    ensures inside { CompletedIn seat.old outcome.old (Ok result) outcome.new }
{
    for _ in rt.forever() {
        if let Ok(finished) = office.complete_in_place(rt, seat, outcome) {
            return finished;
        }
    }
    unreachable!()
}

// Retires the files that are left, and keeps those whose retire fails.
fn retire_left<H: Hand>(alloc: Global, hand: &mut H, left: &mut Vec<Stamp>)
    ensures kept { Keeps H.agrees hand.old hand.new }
    ensures retired { RetiresLeft H.makes hand.old left.old.items left.new.items hand.new }
    ensures works { WorksOn H.makes hand.old left.old.items hand.new left.new.items }
{
    if left.is_empty() {
        return;
    }
    let free = mem::replace(left, Vec::new(alloc));
    *left = retire_all(hand, free);
}

// Keeps the files of a receipt until the next call, or until its line was sent. Without memory they are retired now.
fn put_off<H: Hand>(hand: &mut H, free: Vec<Stamp>, left: &mut Vec<Stamp>)
    ensures kept { Keeps H.agrees hand.old hand.new }
    ensures left { PutsOff H.makes hand.old free.items left.old.items left.new.items hand.new }
{
    if left.extend_from_slice(&free).is_err() {
        let _left = retire_all(hand, free);
    }
}

// Holds a line back.
fn say<R: Wait, P, W: Write + Drop, J: Start>(service: Service<'_, R, P, W, J>, line: ReplyLine) {
    let _said = service.mouth.say(service.rt, AnyLine::Told(line));
}

// A call from its submission to its start, with the lines up to there. It answers no ticket where the
// call does not start.
fn begun<R: Wait + Clock, I: Read + Drop, W: Write + Drop, J: Start>(
    service: Service<'_, R, Office, W, J>,
    deadline: &mut Deadline,
    reading: &mut ReadingSide<'_, I>,
    seat: &mut Seat,
    op: &str,
    args: &[Datum],
) -> Option<Ticket>
    ensures arguments { IfSome result (λ t. (ticket_call t).arguments ≡ args.now) }
    ensures named { IfSome result (λ t. HasName op.now (ticket_call t).operation) }
{
    let (number, tried) = match submitted(service, deadline, seat, op, args) {
        Ok(answer) => answer,
        Err(fault) => {
            say(service, ReplyLine::Unsubmitted(fault));
            return None;
        }
    };
    say(service, ReplyLine::Accepted(u64::from(number)));
    let tried = match tried {
        Tried::Ticket(ticket) => return Some(ticket),
        other => other,
    };
    let ticket = started(service, deadline, seat, reading, tried);
    if ticket.is_none() {
        say(service, ReplyLine::Withdrawn(u64::from(number)));
    }
    ticket
}

// Makes room for a receipt, its note and its lines. Without memory it answers false.
fn make_room<R: Wait, W: Write + Drop, J: Start>(
    service: Service<'_, R, Office, W, J>,
    receipts: &mut Vec<Slip>,
    room: &mut SlipRoom,
    args: &[Datum],
) -> bool
    ensures same { receipts.new.items ≡ receipts.old.items }
    ensures room { IsTrue result → vec_len receipts.new < vec_capacity receipts.new }
    ensures made { IsTrue result → IsMade args.now room.new }
{
    make_room_in(receipts) && room.make(args).is_ok() && service.mouth.make_room(service.rt)
}

// Keeps what the receipt of an outcome tells. There is room for it, so that no receipt is lost.
fn keep(receipts: &mut Vec<Slip>, room: &mut SlipRoom, place: usize, session: u32, outcome: Outcome)
    requires one_more { vec_len receipts.now < vec_capacity receipts.now }
    requires made { IsMade (outcome_call outcome).arguments room.old }
    ensures { receipts.new.items ≡ receipts.old.items ++ told_by place session outcome ∷ [] }
{
    if let Some(slip) = room.slip(place, session, outcome) {
        receipts.push_reserved(slip);
    }
}

// One call, where there is room for its receipt, which tells of the seat's own session: one of another would not stand at
// the close. What earlier calls left is retired before it is submitted, while no other call waits for this one.
fn serve_at<R: Wait + Clock, I: Read + Drop, W: Write + Drop, H: Hand + Drop, J: Start>(
    service: Service<'_, R, Office, W, J>,
    reading: &mut ReadingSide<'_, I>,
    seat: &mut Seat,
    worked: &mut Worked<H>,
    op: &str,
    args: &[Datum],
)
    ensures kept { Keeps H.agrees worked.old.hand worked.new.hand }
    ensures told { AreTrue H.agrees worked.old.hand worked.old.receipts.items →
        AreTrue H.agrees worked.new.hand worked.new.receipts.items }
    ensures works { WorksOn H.makes worked.old.hand worked.old.free.items worked.new.hand worked.new.free.items }
    ensures made { MakesOnce seat.old.session op.now args.now worked.old.receipts.items worked.new.receipts.items }
{
    let own = seat.session();
    retire_left(service.alloc, &mut worked.hand, &mut worked.free);
    if !make_room(service, &mut worked.receipts, &mut worked.room, args) {
        say(service, ReplyLine::Unsubmitted(SubmitFault::Memory));
        return;
    }
    let begun = begun(service, &mut worked.deadline, reading, seat, op, args);
    let Some(ticket) = begun else {
        return;
    };
    let mut outcome = run_at_once(service.alloc, ticket, &mut worked.hand);
    let finished = completed(service.rt, service.by, seat, &mut outcome);
    let ended = AnyLine::Ended(u64::from(outcome.number()), outcome.reply());
    let _said = service.mouth.say(service.rt, ended);
    let Finished {
        place,
        session: _,
        free,
    } = finished;
    keep(&mut worked.receipts, &mut worked.room, place, own, outcome);
    put_off(&mut worked.hand, free, &mut worked.free);
}

// Says what became of a call that was made before.
fn say_kept<R: Wait, W: Write + Drop, J: Start>(
    service: Service<'_, R, Office, W, J>,
    kept: &EarlierCall,
)
    requires { (b : Board) × IsSound b × IsStateOf b kept.now.number kept.now.state }
{
    match &kept.state {
        CallState::Waiting => say(
            service,
            ReplyLine::Kept(u64::from(kept.number), Unended::Waiting),
        ),
        CallState::Running => say(
            service,
            ReplyLine::Kept(u64::from(kept.number), Unended::Running),
        ),
        CallState::Cancelled => say(
            service,
            ReplyLine::Kept(u64::from(kept.number), Unended::Cancelled),
        ),
        CallState::Ended(reply) => {
            let last = AnyLine::Repeated(u64::from(kept.number), reply);
            let _said = service.mouth.say(service.rt, last);
        }
    }
}

// Whether a call under a key is to be made: that of its session's next call.
fn is_next<R: Wait, W: Write + Drop, J: Start>(
    service: Service<'_, R, Office, W, J>,
    seat: &Seat,
    key: u32,
    op: &str,
    args: &[Datum],
) -> bool
    ensures { IsTrue result → IsNew (asked_by seat.now.session op.now args.now) (Some key) }
{
    match service.by.kept(service.rt, seat, key, op, args) {
        Ok(None) => true,
        Ok(Some(kept)) => {
            say_kept(service, &kept);
            false
        }
        Err(fault) => {
            say(service, ReplyLine::Unkeyed(fault));
            false
        }
    }
}

// Whether a call is to be made: it has no key, or that of its session's next call. Any other is answered here, before
// there is room for a call and whosever turn it is.
fn is_new<R: Wait, W: Write + Drop, J: Start>(
    service: Service<'_, R, Office, W, J>,
    seat: &Seat,
    key: Option<u32>,
    op: &str,
    args: &[Datum],
) -> bool
    ensures { IsTrue result → IsNew (asked_by seat.now.session op.now args.now) key }
{
    match key {
        None => true,
        // A call of its own, so that a call without a key clears no room for a reply that is kept.
        Some(key) => is_next(service, seat, key, op, args),
    }
}

// One call of the object that is opened.
fn serve_call<
    R: Wait + Clock,
    I: Read + Drop,
    W: Write + Drop,
    H: Hand + Drop,
    J: Start,
    O: Offices,
>(
    service: Service<'_, R, O, W, J>,
    reading: &mut ReadingSide<'_, I>,
    worked: &mut Worked<H>,
    key: Option<u32>,
    op: &Name,
    args: &[Datum],
)
    ensures kept { Keeps H.agrees worked.old.hand worked.new.hand }
    ensures told { AreTrue H.agrees worked.old.hand worked.old.receipts.items →
        AreTrue H.agrees worked.new.hand worked.new.receipts.items }
    ensures works { WorksOn H.makes worked.old.hand worked.old.free.items worked.new.hand worked.new.free.items }
    ensures made { MakesCall worked.old.seat key op.now args.now worked.old.receipts.items worked.new.receipts.items }
{
    let Ok(op) = str::from_utf8(op.as_bytes()) else {
        return;
    };
    let Some(entered) = worked.seat.take() else {
        return;
    };
    let mut entered = entered;
    if let Some(office) = service.by.office(entered.at) {
        let service = Service {
            rt: service.rt,
            alloc: service.alloc,
            by: office,
            mouth: service.mouth,
        };
        if is_new(service, &entered.seat, key, op, args) {
            serve_at(service, reading, &mut entered.seat, worked, op, args);
        }
    }
    worked.seat = Some(entered);
}

// Tells whether an object was opened, and takes the seat there. The session goes on or, where memory was refused, leaves.
fn take_found<R: Wait, I: Read + Drop, W: Write + Drop, J: Start, O: Offices>(
    service: Service<'_, R, O, W, J>,
    reading: &mut ReadingSide<'_, I>,
    seat: &mut Option<EnteredObject>,
    name: &Name,
    found: Result<(EnteredObject, Option<u32>), NotEntered>,
) -> Goes
    ensures { Takes found seat.old reading.old.opened seat.new reading.new.opened result }
{
    match found {
        Ok((entered, next)) => {
            reading.set_opened(entered.at, entered.seat.session());
            let next = match next {
                Some(key) => Some(u64::from(key)),
                None => None,
            };
            let _said = service.mouth.say(service.rt, AnyLine::Opened(name, next));
            *seat = Some(entered);
            Goes::On
        }
        Err(NotEntered::Refused(refusal)) => {
            say(service, ReplyLine::Refused(refusal));
            Goes::On
        }
        Err(NotEntered::Memory) => Goes::Leaves(Some(HearFault::Memory)),
    }
}

// Opens an object for this session, which goes on or, where memory is refused, leaves.
fn enter<R: Wait, I: Read + Drop, W: Write + Drop, J: Start, O: Offices>(
    service: Service<'_, R, O, W, J>,
    reading: &mut ReadingSide<'_, I>,
    seat: &mut Option<EnteredObject>,
    name: &Name,
    client: &Option<Name>,
) -> Goes
    ensures { Enters (O.named service.entry.by.now) name.now client.now seat.old reading.old.opened seat.new
        reading.new.opened result }
{
    let found = seat_at(service.rt, service.by, name, client);
    take_found(service, reading, seat, name, found)
}

// Cancels a call of the object that is opened.
fn cancel<R: Wait, W: Write + Drop, J: Start, O: Offices>(
    service: Service<'_, R, O, W, J>,
    seat: &Option<EnteredObject>,
    number: u32,
) {
    if let Some(entered) = seat {
        if let Some(office) = service.by.office(entered.at) {
            let answer = office.cancel(service.rt, number);
            say(service, ReplyLine::Cancel(u64::from(number), answer));
        }
    }
}

// Where the session is to end, it leaves its object: calls that were sent ahead are not done.
fn leave_if_stopped<R: Wait, I: Read + Drop, O: Offices>(
    rt: &R,
    offices: &O,
    reading: &ReadingSide<'_, I>,
) {
    if reading.is_stopped() {
        leave(rt, offices, reading.opened());
    }
}

// Does what a line asks for.
fn act<R: Wait + Clock, I: Read + Drop, W: Write + Drop, H: Hand + Drop, J: Start, O: Offices>(
    service: Service<'_, R, O, W, J>,
    reading: &mut ReadingSide<'_, I>,
    worked: &mut Worked<H>,
    action: Action,
) -> Goes
    ensures kept { Keeps H.agrees worked.old.hand worked.new.hand }
    ensures told { AreTrue H.agrees worked.old.hand worked.old.receipts.items →
        AreTrue H.agrees worked.new.hand worked.new.receipts.items }
    ensures works { WorksOn H.makes worked.old.hand worked.old.free.items worked.new.hand worked.new.free.items }
    ensures made { MakesFor action worked.old.seat worked.old.receipts.items worked.new.receipts.items }
{
    match action {
        Action::Open(name, client) => {
            return enter(service, reading, &mut worked.seat, &name, &client);
        }
        Action::Call(key, op, args) => {
            leave_if_stopped(service.rt, service.by, reading);
            serve_call(service, reading, worked, key, &op, &args)
        }
        Action::Cancel(number) => cancel(service, &worked.seat, number),
        Action::Quit => {
            say(service, ReplyLine::Bye);
            return Goes::Quits;
        }
        Action::Answer(refusal) => say(service, ReplyLine::Refused(refusal)),
    }
    Goes::On
}

// Does what lines ask for, in order.
fn act_all<R: Wait + Clock, I: Read + Drop, W: Write + Drop, H: Hand + Drop, J: Start, O: Offices>(
    service: Service<'_, R, O, W, J>,
    reading: &mut ReadingSide<'_, I>,
    worked: &mut Worked<H>,
    actions: Vec<Action>,
) -> Goes
    ensures kept { Keeps H.agrees worked.old.hand worked.new.hand }
    ensures told { AreTrue H.agrees worked.old.hand worked.old.receipts.items →
        AreTrue H.agrees worked.new.hand worked.new.receipts.items }
    ensures works { WorksOn H.makes worked.old.hand worked.old.free.items worked.new.hand worked.new.free.items }
{
    for action in actions {
        match act(service, reading, worked, action) {
            Goes::On => {}
            other => return other,
        }
    }
    Goes::On
}

// Sends the lines that are held back, and retires the files that are left. It answers whether all lines were sent.
fn rest<R: Wait, W: Write + Drop, H: Hand + Drop, J: Start, O: Offices>(
    service: Service<'_, R, O, W, J>,
    worked: &mut Worked<H>,
) -> bool
    ensures kept { Keeps H.agrees worked.old.hand worked.new.hand }
    ensures same { worked.new.receipts.items ≡ worked.old.receipts.items }
    ensures works { WorksOn H.makes worked.old.hand worked.old.free.items worked.new.hand worked.new.free.items }
{
    let sent = service.mouth.flush(service.rt);
    worked.deadline.reset();
    retire_left(service.alloc, &mut worked.hand, &mut worked.free);
    sent
}

// Does what was heard. Before more is read, the lines that are held back are sent.
fn heed<R: Wait + Clock, I: Read + Drop, W: Write + Drop, H: Hand + Drop, J: Start, O: Offices>(
    service: Service<'_, R, O, W, J>,
    reading: &mut ReadingSide<'_, I>,
    worked: &mut Worked<H>,
    heard: Heard,
) -> Goes
    ensures kept { Keeps H.agrees worked.old.hand worked.new.hand }
    ensures told { AreTrue H.agrees worked.old.hand worked.old.receipts.items →
        AreTrue H.agrees worked.new.hand worked.new.receipts.items }
    ensures works { WorksOn H.makes worked.old.hand worked.old.free.items worked.new.hand worked.new.free.items }
{
    match heard {
        Heard::Action(action) => act(service, reading, worked, action),
        Heard::LineTooLong => {
            say(service, ReplyLine::Refused(LineRefusal::LineTooLong));
            Goes::On
        }
        Heard::End(fault) => Goes::Leaves(fault),
        Heard::Nothing => {
            if !rest(service, worked) {
                return Goes::Leaves(None);
            }
            reading.read();
            Goes::On
        }
    }
}

// Does what the second thread heard. Where there is nothing to do, the lines that are held back are sent, and more is
// waited for, or the reading side.
fn follow<R: Wait + Clock, I: Read + Drop, W: Write + Drop, H: Hand + Drop, J: Start, O: Offices>(
    service: Service<'_, R, O, W, J>,
    reading: &mut ReadingSide<'_, I>,
    worked: &mut Worked<H>,
) -> Goes
    ensures kept { Keeps H.agrees worked.old.hand worked.new.hand }
    ensures told { AreTrue H.agrees worked.old.hand worked.old.receipts.items →
        AreTrue H.agrees worked.new.hand worked.new.receipts.items }
    ensures works { WorksOn H.makes worked.old.hand worked.old.free.items worked.new.hand worked.new.free.items }
{
    let actions = reading.taken(service.rt, service.alloc);
    if !actions.is_empty() {
        return act_all(service, reading, worked, actions);
    }
    if !rest(service, worked) {
        return Goes::Leaves(None);
    }
    reading.await_ear(service.rt);
    Goes::On
}

// One step: what is heard next is done.
fn step<R: Wait + Clock, I: Read + Drop, W: Write + Drop, H: Hand + Drop, J: Start, O: Offices>(
    service: Service<'_, R, O, W, J>,
    reading: &mut ReadingSide<'_, I>,
    worked: &mut Worked<H>,
) -> Goes
    ensures kept { Keeps H.agrees worked.old.hand worked.new.hand }
    ensures told { AreTrue H.agrees worked.old.hand worked.old.receipts.items →
        AreTrue H.agrees worked.new.hand worked.new.receipts.items }
    ensures works { WorksOn H.makes worked.old.hand worked.old.free.items worked.new.hand worked.new.free.items }
{
    match reading.hear(service.alloc) {
        Some(heard) => heed(service, reading, worked, heard),
        None => follow(service, reading, worked),
    }
}

// Takes steps until the session ends, and gives the fault that ended the hearing. But by `quit` the
// session leaves its object.
fn take_steps<
    R: Wait + Clock,
    I: Read + Drop,
    W: Write + Drop,
    H: Hand + Drop,
    J: Start,
    O: Offices,
>(
    service: Service<'_, R, O, W, J>,
    reading: &mut ReadingSide<'_, I>,
    worked: &mut Worked<H>,
) -> Option<HearFault>
    ensures kept { Keeps H.agrees worked.old.hand worked.new.hand }
    ensures told { AreTrue H.agrees worked.old.hand worked.old.receipts.items →
        AreTrue H.agrees worked.new.hand worked.new.receipts.items }
    ensures works { WorksOn H.makes worked.old.hand worked.old.free.items worked.new.hand worked.new.free.items }
{
    for _ in service.rt.forever() {
        match step(service, reading, worked) {
            Goes::On => {}
            Goes::Leaves(fault) => {
                leave(service.rt, service.by, reading.opened());
                return fault;
            }
            Goes::Quits => return None,
        }
    }
    unreachable!()
}

/// Serves a session: reads lines and does what they ask for, in order. While a call waits, the second thread reads.
/// Before it waits it sends the lines that are held back, and retires the files that are left.
pub(crate) fn work<
    R: Wait + Clock,
    I: Read + Drop,
    W: Write + Drop,
    H: Hand + Drop,
    J: Start,
    O: Offices,
>(
    rt: &R,
    alloc: Global,
    offices: &O,
    mouth: &Mouth<W, J>,
    reading: ReadingSide<'_, I>,
    hand: H,
) -> Worked<H>
    ensures kept { Keeps H.agrees hand result.hand }
    ensures told { AreTrue H.agrees result.hand result.receipts.items }
    ensures works { Works H.makes hand result.hand result.free.items }
{
    let mut worked = Worked {
        hand,
        seat: None,
        receipts: Vec::new(alloc),
        room: SlipRoom::new(alloc),
        free: Vec::new(alloc),
        deadline: Deadline::new(Duration::from_millis(BRIEF)),
        fault: None,
    };
    let mut reading = reading;
    let service = Service {
        rt,
        alloc,
        by: offices,
        mouth,
    };
    worked.fault = take_steps(service, &mut reading, &mut worked);
    let _sent = rest(service, &mut worked);
    reading.over(rt);
    mouth.close(rt);
    worked
}
