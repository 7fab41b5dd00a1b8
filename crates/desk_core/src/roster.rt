//! The tables of a desk.

ghost use Rattle.std.specs.Prelude.{◌≡◌, ◌≢◌, ℕ, ◌+◌, ◌*◌, ◌<◌, ◌≤◌, [], ◌∷◌, ◌++◌, length, IfOk, IfErr, OnOk, OnErr};
ghost use Rattle.std.specs.Prelude.{IfSome, IfNone, Some, None, true, false, IsTrue, ◌↔◌, slice_get, slice_set, take};
ghost use Rattle.std.specs.Prelude.{drop, not, ◌==◌, vec_capacity};
ghost use Rattle.std.specs.Arc.{arc_value};
ghost use Rattle.path_count.specs.Stands.{StandsFor};
ghost use Rattle.decl_core.specs.declared.object.Operation.{Operation};
ghost use Rattle.decl_core.specs.ObjectMap.{object_of};
ghost use Rattle.apply_core.specs.Fits.{ArgumentsFit};
ghost use Rattle.page_core.specs.CallPins.{HasPins, call_of};
ghost use Rattle.page_core.specs.CallPins.{AreSized};
ghost use Rattle.page_core.specs.Tickets.{ticket_call};
ghost use Rattle.page_core.specs.Lists.{Every};
ghost use Rattle.page_core.specs.ObjectCalls.{AcceptedCall, WaitingCall, RunningCall, read_pins};
ghost use Rattle.decl_core.specs.Bodies.{body_of};
ghost use Rattle.decl_core.specs.Touched.{Writes};
ghost use Rattle.page_core.specs.PartPins.{pin_at};
ghost use Rattle.page_core.specs.Outcomes.{outcome_call, if_done, IsFresh};
ghost use Rattle.board_core.specs.Board.{Board, bodies, call_at, opened, joined, dismissed, released, taken_at, marked};
ghost use Rattle.board_core.specs.Board.{started, ended, entry_of, published, IsNext, Rests, Admits};
ghost use Rattle.board_core.specs.Keys.{next_key, resumed};
ghost use Rattle.board_core.specs.Keyed.{IsStateOf, Finds};
ghost use Rattle.board_core.specs.Answers.{HasName, IsGone, is_busy, waits_in, runs_in, runs_by, ended_in, IsLeft};
ghost use Rattle.board_core.specs.Answers.{NoneIsLeft, IsTaken, IsRefused, IsStranger};
ghost use Rattle.board_core.specs.Free.{IsNeeded, Picks};
ghost use Rattle.board_core.specs.Outcomes.{IsOf};
ghost use Rattle.desk_core.specs.Publishing.{ArePageLists, with_pin};
ghost use Rattle.word_core.specs.Text.{trace_text as text_of};
ghost use Rattle.desk_core.specs.Told.{lines_told};
ghost use Rattle.board_core.specs.Sound.{IsSound, IsFirstNamed};

use crate::find::{
    is_same_call, place_of, place_of_left, place_to_end, runs, runs_for, waits, waits_for,
};
use crate::marks::{Mark, event_of, note, note_end, note_start};
use crate::text::{call_of, push_marks};
use apply_core::fits::arguments_fit;
use apply_core::reply::Reply;
use board_core::answer::{CallState, EarlierCall};
use board_core::event::TraceEvent;
use board_core::index::Index;
use board_core::pick::pick;
use decl_core::analyse::Accepted;
use decl_core::object::Object;
use device_core::hand::Stamp;
use guest_core::answer::{KeyedFault, SubmitFault};
use page_core::call::Call;
use page_core::entry::Entry;
use page_core::outcome::Outcome;
use page_core::page_list::PageList;
use page_core::part_pins::PartPins;
use page_core::pins::Pins;
use page_core::ticket::Ticket;
use path_count::counters::{Counters, compile};
use path_tree::node::OpId;
use queue_core::open_call::{NewCall, Running, Waiting};
use queue_core::queue::WaitingQueue;
use std::alloc::{AllocError, Global};
use std::marker::Model;
use std::sync::Arc;
use value_core::datum::Datum;
use value_core::value::Value;
use word_core::trace_front::push_front;

/// Sessions have the numbers from 1 to this one.
pub(crate) const MOST_SESSIONS: usize = 1024;

/// The most calls that wait and run.
const MOST_OPEN: usize = 256;

/// The most numbers of calls.
const MOST_CALLS: usize = 65_536;

// The tables of a desk. Between its calls a waiting call may start.
#[derive(Drop)]
pub(crate) struct Roster {
    alloc: Global,
    accepted: Accepted,
    counters: Counters,
    calls: Vec<Arc<Call>>,
    places: Vec<usize>,
    index: Index,
    marks: Vec<Mark>,
    history: Vec<Entry>,
    waiting: WaitingQueue,
    running: Vec<Running>,
    gone: Vec<bool>,
    opening: Pins,
    pins: Pins,
}

impl Model for Roster {
    ghost use Rattle.board_core.specs.Board.{Board};
    ghost use Rattle.decl_core.specs.contracts.object.Object as o;
    ghost use Rattle.decl_core.specs.contracts.object.Operation as e;
    ghost use Rattle.std.specs.Coded.{codes};

    ghost Value = { Board };

    ghost coded = { Prim.hlevel (codes, o.the_row.coded, e.the_row.coded) };

    ghost use Rattle.desk_core.specs.Kept.{board_of, IsKept};

    ghost view = { board_of };

    ghost invariant = { IsKept };
}

// Whether arguments fit the operation at this place.
fn fits(object: &Object, place: usize, args: &[Datum]) -> bool
    requires { place < length object.now.operations.items }
    ensures { (operation : Operation) → slice_get (bodies object.now) place ≡ Some operation →
        (IsTrue result ↔ ArgumentsFit operation args.now) }
{
    arguments_fit(&object.operations[place], args)
}

// The counters of an object, before any call.
fn counters_of(alloc: Global, object: &Object) -> Result<Counters, AllocError>
    ensures { IfOk result (λ c. StandsFor c (length object.now.operations.items) (object_of object.now).paths []) }
{
    compile(alloc, &object.paths, object.operations.len() as OpId)
}

// The number and the operation of the call at this place.
fn asked_at(waiting: &[Waiting], place: usize) -> (u32, OpId)
    requires { place < length waiting.now }
    ensures { (w : WaitingCall) → slice_get waiting.now place ≡ Some w →
        (result.0 ≡ w.number) × (result.1 ≡ w.call.op) }
{
    let asked = &waiting[place];
    (asked.number(), asked.op())
}

// Moves the call at this place to those that run.
fn start_at(waiting: &mut WaitingQueue, running: &mut Vec<Running>, place: usize, pins: &Pins)
    requires there { place < length waiting.old }
    requires room { length running.old.items < vec_capacity running.old }
    requires few { length pins.now ≤ 16 }
    ensures waiting { waiting.new ≡ take place waiting.old ++ drop (place + 1) waiting.old }
    ensures running { (w : WaitingCall) → slice_get waiting.old place ≡ Some w →
        running.new.items ≡ running.old.items
        ++ (record { number = w.number; call = w.call; pins = read_pins w.call.operation pins.now; taken = false })
        ∷ [] }
    ensures running_room { vec_capacity running.new ≡ vec_capacity running.old }
{
    let asked = waiting.take(place);
    running.push_reserved(asked.start(pins));
}

// A waiting call of what is asked of an object.
fn asked_of(
    alloc: Global,
    object: &Object,
    asked: NewCall<'_>,
    pins: &Pins,
) -> Result<Waiting, AllocError>
    requires place { asked.op < length object.now.operations.items }
    requires fits { (operation : Operation) → slice_get (bodies object.now) asked.op ≡ Some operation →
        ArgumentsFit operation asked.args.now }
    ensures op { IfOk result (λ w. w.call.op < 32) }
    ensures call { IfOk result (λ w. (operation : Operation) →
        slice_get (bodies object.now) asked.entry.op ≡ Some operation →
        w ≡ record {
          number = asked.entry.number;
          call = record {
            session = asked.entry.session;
            op = asked.entry.op;
            operation = operation;
            arguments = asked.entry.args.now;
          };
        }) }
{
    let operation = &object.operations[asked.op as usize];
    Waiting::new(alloc, asked, operation, pins)
}

// Makes room for all that one call more and the calls which wait or run will add.
fn make_room(
    calls: &mut Vec<Arc<Call>>,
    places: &mut Vec<usize>,
    marks: &mut Vec<Mark>,
    history: &mut Vec<Entry>,
    waits: usize,
    running: &mut Vec<Running>,
) -> Result<(), AllocError>
    requires { waits + length running.old.items < 256 }
    ensures calls { calls.new.items ≡ calls.old.items }
    ensures places { places.new.items ≡ places.old.items }
    ensures marks { marks.new.items ≡ marks.old.items }
    ensures history { history.new.items ≡ history.old.items }
    ensures running { running.new.items ≡ running.old.items }
    ensures marks_kept { vec_capacity marks.old ≤ vec_capacity marks.new }
    ensures history_kept { vec_capacity history.old ≤ vec_capacity history.new }
    ensures running_kept { vec_capacity running.old ≤ vec_capacity running.new }
    ensures calls_room { OnOk result (length calls.old.items < vec_capacity calls.new) }
    ensures places_room { OnOk result (length places.old.items < vec_capacity places.new) }
    ensures marks_room { OnOk result (length marks.old.items + 2 * waits + length running.old.items + 2
        ≤ vec_capacity marks.new) }
    ensures history_room { OnOk result (length history.old.items + waits + length running.old.items + 1
        ≤ vec_capacity history.new) }
    ensures running_room { OnOk result (waits + length running.old.items + 1 ≤ vec_capacity running.new) }
{
    let runs = running.len();
    calls.reserve(1)?;
    places.reserve(1)?;
    marks.reserve(2 * waits + runs + 2)?;
    history.reserve(waits + runs + 1)?;
    running.reserve(waits + 1)?;
    Ok(())
}

// The ticket of the running call at this place, where these are the published pins.
fn ticket_at(running: &mut Vec<Running>, place: usize, pins: &Pins) -> Option<Ticket>
    requires place { place < length running.old.items }
    requires few { length pins.now ≤ 16 }
    requires pins { (r : RunningCall) → slice_get running.old.items place ≡ Some r →
        (read_pins r.call.operation pins.now ≡ r.pins) × HasPins r.call.operation r.pins }
    ensures some { IfSome result (λ t. (r : RunningCall) → slice_get running.old.items place ≡ Some r →
        (r.taken ≡ false) × (ticket_call t ≡ call_of r.number r.call.operation r.call.arguments r.pins)) }
    ensures none { IfNone result ((r : RunningCall) → slice_get running.old.items place ≡ Some r → r.taken ≡ true) }
    ensures items { (r : RunningCall) → slice_get running.old.items place ≡ Some r →
        running.new.items ≡ slice_set running.old.items place (record r { taken = true }) }
    ensures room { vec_capacity running.new ≡ vec_capacity running.old }
{
    running[place].ticket(pins)
}

// Puts the new pin of a part in the place of its old one, where it has one.
fn put_pin(pins: &mut Pins, part: usize, news: &PartPins)
    requires part { part < length pins.old }
    requires sized { ArePageLists (length pins.old) news.now }
    ensures { pins.new ≡ with_pin pins.old part (pin_at news.now part) }
{
    match news.pages(part) {
        Some(pages) => pins.set(part, PageList::of(pages)),
        None => {}
    }
}

// Puts new pins in the places of those of their parts. Where there are none, the pins are not written.
fn put_pins(pins: &mut Pins, news: &PartPins)
    requires { ArePageLists (length pins.old) news.now }
    ensures { pins.new ≡ published pins.old news.now }
{
    if news.len() == 0 {
        return;
    }
    for part in 0..pins.len() {
        put_pin(pins, part, news);
    }
}

// Publishes new pins, where there are some.
fn publish(pins: &mut Pins, news: Option<&PartPins>)
    requires { IfSome news (λ n. ArePageLists (length pins.old) n.now) }
    ensures some { IfSome news.entry (λ n. pins.new ≡ published pins.old n.now) }
    ensures none { IfNone news.entry (pins.new ≡ pins.old) }
{
    match news {
        Some(news) => put_pins(pins, news),
        None => {}
    }
}

// The number, the session and the operation of the running call at this place.
fn running_at(running: &[Running], place: usize) -> (u32, u32, OpId)
    requires { place < length running.now }
    ensures { (r : RunningCall) → slice_get running.now place ≡ Some r →
        (result.0 ≡ r.number) × (result.1 ≡ r.call.session) × (result.2 ≡ r.call.op) }
{
    let asked = &running[place];
    (asked.number(), asked.session(), asked.call().op())
}

// The entry of the running call at this place, which has ended and is taken out.
fn end_at(running: &mut Vec<Running>, place: usize, reply: &Reply, news: PartPins) -> Entry
    requires { place < length running.old.items }
    ensures running { running.new.items ≡ take place running.old.items ++ drop (place + 1) running.old.items }
    ensures room { vec_capacity running.new ≡ vec_capacity running.old }
    ensures kept { (r : RunningCall) → slice_get running.old.items place ≡ Some r → result ≡ entry_of r reply.now news }
{
    let asked = running.remove(place);
    asked.end(reply, news)
}

impl Roster {
    pub(crate) fn open(alloc: Global, accepted: Accepted, pins: Pins) -> Result<Roster, AllocError>
        requires each { length pins ≡ length accepted.parts.items }
        ensures { IfOk result (λ r. r ≡ opened accepted pins) }
    {
        let counters = counters_of(alloc, accepted.object())?;
        let gone = vec![in alloc; false; MOST_SESSIONS]?;
        let waiting = WaitingQueue::new(alloc)?;
        let index = Index::new(alloc)?;
        Ok(Roster {
            alloc,
            accepted,
            counters,
            calls: Vec::new(alloc),
            places: Vec::new(alloc),
            index,
            marks: Vec::new(alloc),
            history: Vec::new(alloc),
            waiting,
            running: Vec::new(alloc),
            gone,
            opening: pins,
            pins,
        })
    }

    // The place of the waiting call that is next to start.
    fn next_start(&self) -> Option<usize>
        ensures some { IfSome result (λ k. (w : WaitingCall) × (slice_get self.now.waiting k ≡ Some w)
            × IsNext self.now w) }
        ensures none { IfNone result (Rests self.now) }
    {
        self.waiting.next(&self.counters)
    }

    // Starts the call at this place, which is next.
    fn begin(&mut self, place: usize)
        requires { (w : WaitingCall) × (slice_get self.old.waiting place ≡ Some w) × IsNext self.old w }
        ensures { (w : WaitingCall) → slice_get self.old.waiting place ≡ Some w → self.new ≡ started self.old w }
    {
        let (number, op) = asked_at(self.waiting.calls(), place);
        self.counters.start(op);
        note_start(&mut self.marks, number);
        start_at(&mut self.waiting, &mut self.running, place, &self.pins);
    }

    // Starts calls as long as one may start.
    pub(crate) fn admit(&mut self)
        ensures { Admits self.old self.new }
    {
        let turns = self.waiting.len();
        for turn in 0..turns {
            match self.next_start() {
                None => return,
                Some(place) => self.begin(place),
            }
        }
    }

    // Adds a waiting call of the operation at this place, with the next number.
    pub(crate) fn join(
        &mut self,
        session: u32,
        place: usize,
        args: &[Datum],
    ) -> Result<(u32, Arc<Call>), AllocError>
        requires place { place < length self.old.object.operations.items }
        requires fits { (operation : Operation) → slice_get (bodies self.old.object) place ≡ Some operation →
            ArgumentsFit operation args.now }
        requires few { length self.old.calls < 65536 }
        requires open_few { length self.old.waiting + length self.old.running < 256 }
        requires free { is_busy self.old session ≡ false }
        requires session { (0 < session) × (session ≤ 1024) }
        requires first { (operation : Operation) → slice_get (bodies self.old.object) place ≡ Some operation →
            IsFirstNamed self.old.object place operation }
        ensures number { IfOk result (λ r. r.0 ≡ length self.old.calls + 1) }
        ensures shared { IfOk result (λ r. (operation : Operation) →
            slice_get (bodies self.old.object) place ≡ Some operation →
            arc_value r.1 ≡ record { session = session; op = place; operation = operation; arguments = args.now }) }
        ensures ok { OnOk result ((operation : Operation) → slice_get (bodies self.old.object) place ≡ Some operation →
            self.new ≡ joined self.old (record {
              session = session;
              op = place;
              operation = operation;
              arguments = args.now;
            })) }
        ensures err { OnErr result (self.new ≡ self.old) }
    {
        let number = self.calls.len() as u32 + 1;
        let asked = asked_of(
            self.alloc,
            self.accepted.object(),
            NewCall {
                number,
                session,
                op: place as OpId,
                args,
            },
            &self.pins,
        )?;
        let call = asked.share()?;
        let shared = asked.share()?;
        make_room(
            &mut self.calls,
            &mut self.places,
            &mut self.marks,
            &mut self.history,
            self.waiting.len(),
            &mut self.running,
        )?;
        self.index.add(session, number)?;
        self.places.push_reserved(0);
        self.calls.push_reserved(call);
        self.waiting.push(asked);
        Ok((number, shared))
    }

    // Takes a waiting call out.
    pub(crate) fn dismiss(&mut self, number: u32)
        ensures { self.new ≡ dismissed self.old number }
    {
        self.waiting.leave(number);
    }

    // Takes out the waiting calls of a session.
    pub(crate) fn release(&mut self, session: u32)
        ensures { self.new ≡ released self.old session }
    {
        self.waiting.leave_of(session);
    }

    // Marks a session as one that has left.
    pub(crate) fn mark(&mut self, session: u32)
        requires { (0 < session) × (session ≤ 1024) }
        ensures { self.new ≡ marked self.old session }
    {
        self.gone[session as usize - 1] = true;
    }

    // Marks a session as one that has not left.
    pub(crate) fn unmark(&mut self, session: u32)
        requires { (0 < session) × (session ≤ 1024) }
        ensures { self.new ≡ resumed self.old session }
    {
        self.gone[session as usize - 1] = false;
    }

    // Ends the running call at this place, publishes new pins, where there are some, and tells its session. Its entry
    // keeps the second row of these.
    pub(crate) fn end(
        &mut self,
        place: usize,
        reply: &Reply,
        news: Option<&PartPins>,
        kept: PartPins,
    ) -> u32
        requires there { (r : RunningCall) × (slice_get self.old.running place ≡ Some r)
            × ((p : ℕ) → pin_at (if_done reply.now kept) p ≢ None → Writes (body_of r.call.operation).statements p) }
        requires some { IfSome news (λ n. n.now ≡ if_done reply.now kept) }
        requires none { IfNone news (if_done reply.now kept ≡ []) }
        requires sized { AreSized (if_done reply.now kept) }
        ensures board { (r : RunningCall) → slice_get self.old.running place ≡ Some r →
            self.new ≡ ended self.old (entry_of r reply.now kept) }
        ensures session { (r : RunningCall) → slice_get self.old.running place ≡ Some r → result ≡ r.call.session }
    {
        let (number, session, op) = running_at(&self.running, place);
        let entry = end_at(&mut self.running, place, reply, kept);
        self.counters.finish(op);
        note_end(&mut self.marks, self.history.len());
        note(&mut self.history, entry);
        self.places[number as usize - 1] = self.history.len();
        publish(&mut self.pins, news);
        session
    }

    // Takes out the files that somebody needs, and of each file all stamps but the first.
    pub(crate) fn pick(&self, free: &mut Vec<Stamp>)
        ensures { Picks (IsNeeded self.now.pins self.now.running) [] free.old.items free.new.items }
    {
        pick(free, &self.pins);
    }

    // The object.
    pub(crate) fn accepted(&self) -> &Accepted
        ensures { result.now ≡ self.now.object }
    {
        &self.accepted
    }

    // Whether the session has left, or has no number from 1 to 1,024.
    fn is_gone(&self, session: u32) -> bool
        ensures { IsTrue result ↔ IsGone self.now session }
    {
        session == 0 || session as usize > MOST_SESSIONS || self.gone[session as usize - 1]
    }

    // Whether a call of the session waits or runs.
    fn is_busy(&self, session: u32) -> bool
        ensures { result ≡ is_busy self.now session }
    {
        waits_for(self.waiting.calls(), session) || runs_for(&self.running, session)
    }

    // The place of the operation that is asked for, where nothing speaks against the call.
    pub(crate) fn asked(
        &self,
        session: u32,
        name: &[u8],
        args: &[Datum],
    ) -> Result<usize, SubmitFault>
        ensures taken { IfOk result (λ k. (operation : Operation)
            × IsTaken self.now (record { session = session; name = name.now; arguments = args.now })
            (record { session = session; op = k; operation = operation; arguments = args.now })) }
        ensures refused { IfErr result (λ f.
            IsRefused self.now (record { session = session; name = name.now; arguments = args.now }) f) }
    {
        if self.is_gone(session) {
            return Err(SubmitFault::Gone);
        }
        let object = self.accepted.object();
        let Some(place) = place_of(object, name) else {
            return Err(SubmitFault::UnknownOp);
        };
        if !fits(object, place, args) {
            return Err(SubmitFault::BadArgs);
        }
        if self.is_busy(session) {
            return Err(SubmitFault::SessionBusy);
        }
        if self.waiting.len() + self.running.len() >= MOST_OPEN {
            return Err(SubmitFault::Full);
        }
        if self.calls.len() >= MOST_CALLS {
            return Err(SubmitFault::HistoryFull);
        }
        Ok(place)
    }

    // The key of the session's next call.
    pub(crate) fn next_key(&self, session: u32) -> u32
        requires { (0 < session) × (session ≤ 1024) }
        ensures { result ≡ next_key self.now.calls session }
    {
        self.index.count(session) as u32 + 1
    }

    // What became of the accepted call of this number.
    fn state(&self, number: u32) -> CallState
        requires { (0 < number) × (number ≤ length self.now.calls) }
        ensures { IsStateOf self.now number result }
    {
        if self.waits(number) {
            return CallState::Waiting;
        }
        if self.runs(number) {
            return CallState::Running;
        }
        let place = self.places[number as usize - 1];
        if place == 0 {
            return CallState::Cancelled;
        }
        CallState::Ended(self.history[place - 1].reply())
    }

    // Whether the call of this number is of the operation of this name, with these arguments.
    fn is_same(&self, number: u32, name: &[u8], args: &[Datum]) -> bool
        ensures { IsTrue result ↔ ((call : AcceptedCall) × (call_at self.now.calls number ≡ Some call)
            × HasName name.now call.operation × (call.arguments ≡ args.now)) }
    {
        match self.call(number) {
            Some(call) => is_same_call(call, name, args),
            None => false,
        }
    }

    // What is known of a key of a session, for a call of the operation of this name.
    pub(crate) fn kept(
        &self,
        session: u32,
        key: u32,
        name: &[u8],
        args: &[Datum],
    ) -> Result<Option<EarlierCall>, KeyedFault>
        ensures { Finds self.now (record { session = session; name = name.now; arguments = args.now }) key result }
    {
        if self.is_gone(session) {
            return Err(KeyedFault::Gone);
        }
        if key == 0 {
            return Err(KeyedFault::BadKey);
        }
        if key > self.next_key(session) {
            return Err(KeyedFault::BadKey);
        }
        match self.index.number(session, key) {
            None => Ok(None),
            Some(number) => {
                if !self.is_same(number, name, args) {
                    return Err(KeyedFault::KeyReused);
                }
                let state = self.state(number);
                Ok(Some(EarlierCall { number, state }))
            }
        }
    }

    // The place of the running call that ends with an outcome, where that was not handed in before.
    pub(crate) fn place_to_end(&self, outcome: &Outcome) -> Option<usize>
        ensures some { IfSome result (λ k. IsFresh outcome.now
            × ((r : RunningCall) × (slice_get self.now.running k ≡ Some r) × IsOf (outcome_call outcome.now) r)) }
        ensures none { IfNone result (IsStranger self.now outcome.now) }
    {
        place_to_end(&self.running, outcome)
    }

    // Whether a call of this number waits.
    pub(crate) fn waits(&self, number: u32) -> bool
        ensures { result ≡ waits_in self.now number }
    {
        waits(self.waiting.calls(), number)
    }

    // Whether a call of this number runs.
    pub(crate) fn runs(&self, number: u32) -> bool
        ensures { result ≡ runs_in self.now number }
    {
        runs(&self.running, number)
    }

    // Whether a call of this session runs.
    pub(crate) fn runs_for(&self, session: u32) -> bool
        ensures { result ≡ runs_by self.now session }
    {
        runs_for(&self.running, session)
    }

    // The call of this number.
    pub(crate) fn call(&self, number: u32) -> Option<&Call>
        ensures some { IfSome result (λ x. call_at self.now.calls number ≡ Some x.now) }
        ensures none { IfNone result (call_at self.now.calls number ≡ None) }
    {
        call_of(&self.calls, number)
    }

    // How many calls wait or run.
    pub(crate) fn open_calls(&self) -> usize
        ensures { result ≡ length self.now.waiting + length self.now.running }
    {
        self.waiting.len() + self.running.len()
    }

    // How much happened.
    pub(crate) fn trace_len(&self) -> usize
        ensures { result ≡ length self.now.trace }
    {
        self.marks.len()
    }

    // What happened at this place of the trace, from 0.
    pub(crate) fn event(&self, place: usize) -> Option<TraceEvent>
        ensures { result ≡ slice_get self.now.trace place }
    {
        if place >= self.marks.len() {
            return None;
        }
        Some(event_of(&self.history, self.marks[place]))
    }

    // The text of the trace.
    pub(crate) fn trace_text(&self, opening: &[Value]) -> Result<Vec<u8>, AllocError>
        ensures { IfOk result (λ text. text.items
            ≡ text_of (object_of self.now.object) opening.now (lines_told self.now)) }
    {
        let object = self.accepted.object();
        let mut out = Vec::new(self.alloc);
        push_front(self.alloc, &mut out, object, opening)?;
        push_marks(
            self.alloc,
            &mut out,
            object,
            &self.calls,
            &self.history,
            &self.marks,
        )?;
        Ok(out)
    }

    // The history.
    pub(crate) fn history(&self) -> &[Entry]
        ensures history { result.now ≡ self.now.history }
        ensures sound { IsSound self.now }
        ensures each { (length self.now.pins ≤ 16) × (length self.now.opening ≤ 16) }
    {
        &self.history
    }

    // The published pins.
    pub(crate) fn pins(&self) -> Pins
        ensures { result ≡ self.now.pins }
    {
        self.pins
    }

    // The pins of the beginning.
    pub(crate) fn opening_pins(&self) -> Pins
        ensures { result ≡ self.now.opening }
    {
        self.opening
    }

    // The place of the running call of this number whose ticket was not taken.
    pub(crate) fn place_of_left(&self, number: u32) -> Option<usize>
        ensures some { IfSome result (λ k. (r : RunningCall) × IsLeft self.now number k r) }
        ensures none { IfNone result (NoneIsLeft self.now number) }
    {
        place_of_left(&self.running, number)
    }

    // Takes the ticket of the running call at this place, where it was not taken.
    pub(crate) fn collect(&mut self, place: usize) -> Option<Ticket>
        requires { (r : RunningCall) × (slice_get self.old.running place ≡ Some r) }
        ensures some { IfSome result (λ t. (r : RunningCall) → slice_get self.old.running place ≡ Some r →
            (r.taken ≡ false) × (ticket_call t ≡ call_of r.number r.call.operation r.call.arguments r.pins)) }
        ensures none { IfNone result ((r : RunningCall) → slice_get self.old.running place ≡ Some r → r.taken ≡ true) }
        ensures board { (r : RunningCall) → slice_get self.old.running place ≡ Some r →
            self.new ≡ taken_at self.old place r }
    {
        ticket_at(&mut self.running, place, &self.pins)
    }

    // Whether a call of this number has finished.
    pub(crate) fn is_ended(&self, number: u32) -> bool
        ensures { result ≡ ended_in self.now number }
    {
        if number as usize > self.places.len() {
            return false;
        }
        if number == 0 {
            return false;
        }
        self.places[number as usize - 1] != 0
    }
}
