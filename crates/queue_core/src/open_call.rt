//! Calls that wait or run, with all that their start, their ticket and their entry will need.

ghost use Rattle.std.specs.Prelude.{◌≡◌, ◌+◌, ◌*◌, ◌≤◌, [], IfOk, IfSome, IfNone, true, false, length, vec_capacity};
ghost use Rattle.std.specs.Arc.{arc_value};
ghost use Rattle.page_core.specs.PartPins.{pins_in, room_in, count_pages};
ghost use Rattle.apply_core.specs.Fits.{ArgumentsFit};
ghost use Rattle.page_core.specs.CallPins.{HasPins, call_of};
ghost use Rattle.page_core.specs.Tickets.{ticket_call};
ghost use Rattle.page_core.specs.Outcomes.{if_done};
ghost use Rattle.page_core.specs.ObjectCalls.{noted_of, read_pins};

use apply_core::reply::Reply;
use apply_core::short::Short;
use apply_core::slim::Slims;
use decl_core::footprint::{is_in, reads};
use decl_core::id::MOST_PARTS;
use decl_core::object::Operation;
use device_core::hand::Stamp;
use page_core::call::Call;
use page_core::entry::Entry;
use page_core::page_list::PageList;
use page_core::part_pins::PartPins;
use page_core::pins::Pins;
use page_core::ticket::Ticket;
use path_tree::node::OpId;
use std::alloc::{AllocError, Global};
use std::marker::Model;
use std::mem;
use std::sync::Arc;
use value_core::datum::Datum;
use value_core::limits::MOST_TEXT_BYTES;

// What a ticket is made of.
#[derive(Drop)]
pub(crate) struct ForTicket {
    pub(crate) operation: Arc<Operation>,
    pub(crate) args: Vec<Datum>,
    // memory for the pins that it reads by
    pub(crate) room: Vec<Stamp>,
    ghost fits: { ArgumentsFit (arc_value operation) args.items },
}

// What a call needs that waits or runs. It lies apart, so that little is moved where calls start and end.
#[derive(Drop)]
pub(crate) struct Kit {
    call: Arc<Call>,
    // the parts that its operation reads: bit p stands for part p
    reads: u16,
    ticket: Option<ForTicket>,
    // memory for the pins of its start, while it waits
    row: Vec<Stamp>,
    // those of its start, once it runs
    pins: PartPins,
    // memory for the pins of its entry
    entry: Vec<Stamp>,
    // memory for the longest text that it may reply
    reply: Vec<u8>,
}

/// What is asked of an object.
#[derive(Clone, Copy)]
pub struct NewCall<'a> {
    /// The number that the call gets.
    pub number: u32,
    /// The session that asks.
    pub session: u32,
    /// The place of its operation in the object, from 0.
    pub op: OpId,
    /// What it is asked with.
    pub args: &'a [Datum],
}

/// A call that waits.
#[derive(Drop)]
pub struct Waiting {
    number: u32,
    session: u32,
    // Here too, since admission goes through the operations of all that wait.
    op: OpId,
    kit: Box<Kit>,
}

impl Model for Waiting {
    ghost use Rattle.page_core.specs.ObjectCalls.{WaitingCall};
    ghost use Rattle.decl_core.specs.contracts.object.Operation as e;
    ghost use Rattle.std.specs.Coded.{codes};

    ghost Value = { WaitingCall };

    ghost coded = { Prim.hlevel (codes, e.the_row.coded) };

    ghost use Rattle.queue_core.specs.Open.{waiting_of, IsWaiting};

    ghost view = { waiting_of };

    ghost invariant = { IsWaiting };
}

/// A call that runs.
#[derive(Drop)]
pub struct Running {
    number: u32,
    session: u32,
    kit: Box<Kit>,
}

impl Model for Running {
    ghost use Rattle.page_core.specs.ObjectCalls.{RunningCall};
    ghost use Rattle.decl_core.specs.contracts.object.Operation as e;
    ghost use Rattle.std.specs.Coded.{codes};

    ghost Value = { RunningCall };

    ghost coded = { Prim.hlevel (codes, e.the_row.coded) };

    ghost use Rattle.queue_core.specs.Open.{running_of, IsRunning};

    ghost view = { running_of };

    ghost invariant = { IsRunning };
}

// How many stamps the pins of the parts in a set may have.
fn room_for(parts: u16) -> usize
    ensures { result ≡ room_in parts 0 16 }
{
    let mut room = 0;
    for part in 0..MOST_PARTS {
        if is_in(part, parts) {
            room += 8;
        }
    }
    room
}

// How many pages the pins of the parts in a set have, of page lists of which the first is of this part.
fn pages_in(parts: u16, part: usize, lists: &[PageList]) -> usize
    requires { part + length lists.now ≤ 16 }
    ensures count { result ≡ count_pages (pins_in parts part lists.now) }
    ensures few { result ≤ 8 * length lists.now }
{
    match lists.split_first() {
        None => 0,
        Some((list, rest)) => {
            let pages = pages_in(parts, part + 1, rest);
            if is_in(part, parts) {
                return list.stamps().len() + pages;
            }
            pages
        }
    }
}

// Empty memory for the pins of the parts in a set.
fn row_for(alloc: Global, parts: u16) -> Result<Vec<Stamp>, AllocError>
    ensures empty { IfOk result (λ row. row.items ≡ []) }
    ensures room { IfOk result (λ row. room_in parts 0 16 ≤ vec_capacity row) }
{
    Vec::with_capacity(alloc, room_for(parts))
}

// The pins of the parts in a set, in a row that has room for them.
fn pins_of(row: Vec<Stamp>, parts: u16, pins: &Pins) -> PartPins
    requires few { length pins.now ≤ 16 }
    requires empty { row.items ≡ [] }
    requires room { room_in parts 0 16 ≤ vec_capacity row }
    ensures { result ≡ pins_in parts 0 pins.now }
{
    PartPins::filled(row, parts, pins)
}

impl ForTicket {
    // What a ticket of these is made of.
    fn new(
        alloc: Global,
        operation: &Arc<Operation>,
        args: &[Datum],
        reads: u16,
    ) -> Result<ForTicket, AllocError>
        requires { ArgumentsFit (arc_value operation.now) args.now }
        ensures made { IfOk result (λ t. (arc_value t.operation ≡ arc_value operation.now)
            × (t.args.items ≡ args.now)) }
        ensures room { IfOk result (λ t. (t.room.items ≡ []) × (room_in reads 0 16 ≤ vec_capacity t.room)) }
    {
        let operation = Arc::try_clone(operation)?;
        let args = args.to_vec(alloc)?;
        let room = row_for(alloc, reads)?;
        Ok(ForTicket {
            operation,
            args,
            room,
        })
    }
}

// A call of these, to be shared.
fn shared_call(
    alloc: Global,
    session: u32,
    op: OpId,
    operation: &Arc<Operation>,
    args: &[Datum],
) -> Result<Arc<Call>, AllocError>
    ensures { IfOk result (λ c. arc_value c
        ≡ record { session = session; op = op; operation = arc_value operation.now; arguments = args.now }) }
{
    let operation = Arc::try_clone(operation)?;
    let args = Slims::new(alloc, args)?;
    let call = Arc::new(alloc, Call::new(session, op, operation, args))?;
    Ok(call)
}

impl Waiting {
    /// A call that waits, with all that it will need: for its entry, as many stamps as the parts that it reads have
    /// pages in these pins, and as many bytes as the longest text. This is the operation that is asked for. The error
    /// is that memory was refused.
    pub fn new(
        alloc: Global,
        asked: NewCall<'_>,
        operation: &Arc<Operation>,
        pins: &Pins,
    ) -> Result<Waiting, AllocError>
        requires { ArgumentsFit (arc_value operation.now) asked.args.now }
        ensures { IfOk result (λ w. w ≡ record {
          number = asked.entry.number;
          call = record {
            session = asked.entry.session;
            op = asked.entry.op;
            operation = arc_value operation.now;
            arguments = asked.entry.args.now;
          };
        }) }
    {
        let NewCall {
            number,
            session,
            op,
            args,
        } = asked;
        let reads = reads(operation);
        let call = shared_call(alloc, session, op, operation, args)?;
        let ticket = ForTicket::new(alloc, operation, args, reads)?;
        let row = row_for(alloc, reads)?;
        let entry = Vec::with_capacity(alloc, pages_in(reads, 0, pins.as_slice()))?;
        let reply = Vec::with_capacity(alloc, MOST_TEXT_BYTES)?;
        let kit = Box::new(
            alloc,
            Kit {
                call,
                reads,
                ticket: Some(ticket),
                row,
                pins: PartPins::from_counts([0; MOST_PARTS], Vec::new(alloc)),
                entry,
                reply,
            },
        )?;
        Ok(Waiting {
            number,
            session,
            op,
            kit,
        })
    }

    /// Its call, shared once more.
    pub fn share(&self) -> Result<Arc<Call>, AllocError>
        ensures { IfOk result (λ c. arc_value c ≡ self.now.call) }
    {
        let call = Arc::try_clone(&self.kit.call)?;
        Ok(call)
    }

    /// Its number.
    pub fn number(&self) -> u32
        ensures { result ≡ self.now.number }
    {
        self.number
    }

    /// The place of its operation in the object, from 0.
    pub fn op(&self) -> OpId
        ensures { result ≡ self.now.call.op }
    {
        self.op
    }

    /// The session that made it.
    pub fn session(&self) -> u32
        ensures { result ≡ self.now.call.session }
    {
        self.session
    }

    /// It runs, with those of these pins whose parts it reads. It takes no memory.
    pub fn start(self, pins: &Pins) -> Running
        requires { length pins.now ≤ 16 }
        ensures { result ≡ record {
          number = self.number;
          call = self.call;
          pins = read_pins self.call.operation pins.now;
          taken = false;
        } }
    {
        let Waiting {
            number,
            session,
            op: _,
            mut kit,
        } = self;
        let none = Vec::new(*kit.row.allocator());
        let row = mem::replace(&mut kit.row, none);
        kit.pins = pins_of(row, kit.reads, pins);
        Running {
            number,
            session,
            kit,
        }
    }
}

impl Running {
    ghost use Rattle.page_core.specs.ObjectCalls.{noted_of, RunningCall};

    /// Its number.
    pub fn number(&self) -> u32
        ensures { result ≡ self.now.number }
    {
        self.number
    }

    /// The session that made it.
    pub fn session(&self) -> u32
        ensures { result ≡ self.now.call.session }
    {
        self.session
    }

    /// The call.
    pub fn call(&self) -> &Call
        ensures { result.now ≡ self.now.call }
    {
        &self.kit.call
    }

    /// The pins of its start, of the parts that it reads.
    pub fn pins(&self) -> &PartPins
        ensures { result.now ≡ self.now.pins }
    {
        &self.kit.pins
    }

    /// Whether its ticket was taken.
    pub fn is_taken(&self) -> bool
        ensures { result ≡ self.now.taken }
    {
        self.kit.ticket.is_none()
    }

    /// Its ticket, once. These are the published pins: of the parts that a running call reads they are still those of
    /// its start (`laws::pins_stay`). It takes no memory.
    pub fn ticket(&mut self, pins: &Pins) -> Option<Ticket>
        requires few { length pins.now ≤ 16 }
        requires stay { read_pins self.old.call.operation pins.now ≡ self.old.pins }
        requires pinned { HasPins self.old.call.operation self.old.pins }
        ensures some { IfSome result (λ t. (self.old.taken ≡ false)
            × (ticket_call t ≡ call_of self.old.number self.old.call.operation self.old.call.arguments self.old.pins)) }
        ensures none { IfNone result (self.old.taken ≡ true) }
        ensures taken { self.new ≡ record {
          number = self.old.number;
          call = self.old.call;
          pins = self.old.pins;
          taken = true;
        } }
    {
        let ForTicket {
            operation,
            args,
            room,
        } = self.kit.ticket.take()?;
        let read = pins_of(room, self.kit.reads, pins);
        Some(Ticket::new(self.number, operation, args, read))
    }

    /// Its entry: it has ended, with this reply and these new pins. It takes no memory.
    pub fn end(self, reply: &Reply, news: PartPins) -> Entry
        ensures { result ≡ noted_of self.number self.call reply.now self.pins (if_done reply.now news) }
    {
        let Running {
            number,
            session: _,
            kit,
        } = self;
        let Kit {
            call,
            reads: _,
            ticket: _,
            row: _,
            pins,
            entry,
            reply: mut room,
        } = Box::into_inner(kit);
        let alloc = *room.allocator();
        let reply = Short::within(alloc, &mut room, reply);
        Entry::new(number, call, reply, pins.within(entry), news)
    }
}
