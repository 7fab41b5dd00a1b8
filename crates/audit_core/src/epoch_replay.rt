//! An epoch that is played again, line by line.

ghost use Rattle.std.specs.Prelude.{◌≡◌, ℕ, ◌≤◌, ◌<◌, ◌+◌, ◌∷◌, ◌↔◌, IsTrue, IfOk, IfSome, OnOk, MatchOption};
ghost use Rattle.std.specs.Prelude.{◌++◌, [], IfNone, length, map, ◌≢◌};
ghost use Rattle.path_tree.specs.Trace.{running_calls};
ghost use Rattle.value_core.specs.Contents.{kind_of};
ghost use Rattle.path_count.specs.Past.{events_of, AreBefore};
ghost use Rattle.audit_core.specs.Counts.{Counted};
ghost use Rattle.decl_core.specs.ObjectForm.{ObjectForm};
ghost use Rattle.decl_core.specs.declared.object.Part.{Part as APart};
ghost use Rattle.audit_core.specs.EpochStands.{known_call};
ghost use Rattle.audit_core.specs.declared.epoch_replay.Known.{Known as Known_of};
ghost use Rattle.decl_core.specs.ObjectMap.{object_of};

use crate::calls::ActiveCall;
use crate::carried::{WaitedCall, is_as_carried};
use crate::counts::Counts;
use crate::epoch_said::{AskedCall, EpochLine, read_line};
use crate::numbers::NumberSet;
use crate::replay::is_right;
use crate::start::operation_for;
use crate::told::ToldReply;
use crate::verdict::AuditFault;
use decl_core::object::{Object, Part};
use path_count::counters::Counters;
use path_count::past::PastEvent;
use path_tree::name::Name;
use path_tree::node::OpId;
use std::alloc::{AllocError, Global};
use value_core::datum::Datum;
use value_core::value::Value;

/// A call that a line told of.
#[derive(Drop)]
pub struct Known {
    /// Its number in this epoch.
    pub number: u32,
    /// Its session, operation and arguments.
    pub call: ActiveCall,
}

/// What a line told.
#[derive(Drop)]
pub enum ReplayNote {
    /// A call started. Its end is to follow.
    Began,
    /// The call that had started ended with this reply.
    Ran(Known, ToldReply),
    /// A call that waited was cancelled.
    Cancelled(Known),
    /// This session got a name.
    Named(u32, Name),
}

/// An epoch up to some line.
#[derive(Drop)]
pub struct Replay {
    alloc: Global,
    // what the paths have counted of the past and of the calls that ended
    counts: Counts,
    // the values of all parts
    parts: Vec<Value>,
    // the numbers of calls that ended or were cancelled
    numbers: NumberSet,
    // the calls that waited when the epoch began: their numbers are those from 1
    carried: Vec<WaitedCall>,
    // the call that has started and not ended
    running: Option<Known>,
    // the past, and the starts and ends of calls that ended
    long: Vec<PastEvent>,
}

/// What an epoch came to.
#[derive(Drop)]
pub struct ReplayedEpoch {
    /// The values of all parts.
    pub contents: Vec<Value>,
    /// What the paths have counted of the past and of all calls since.
    pub counters: Counters,
    /// The past of the epoch, and the starts and ends since, the oldest first.
    pub long: Vec<PastEvent>,
    /// The greatest number of a call that ended or was cancelled; 0 where there is none.
    pub greatest: u32,
}

// Whether values are of the kinds of parts, in order.
fn are_of(values: &[Value], parts: &[Part]) -> bool
    ensures { IsTrue result ↔ (map kind_of values.now ≡ map (λ (p : APart). p.kind) parts.now) }
{
    match (values, parts) {
        ([], []) => true,
        ([value, values @ ..], [part, parts @ ..]) => value.kind() == part.kind
            && are_of(values, parts),
        _ => false,
    }
}

// What the paths of an object have counted of a past.
fn counts_of(
    alloc: Global,
    object: &Object,
    past: &[PastEvent],
) -> Result<Option<Counts>, AllocError>
    ensures counted { IfOk result (λ found. IfSome found (λ c. Counted c.all c.each.items
        (length (object_of object.now).operations) (object_of object.now).paths (events_of past.now))) }
    ensures quiet { IfOk result (λ found. IfSome found (λ c. running_calls (events_of past.now) ≡ [])) }
    ensures before { AreBefore (events_of past.now) }
{
    Counts::behind(alloc, &object.paths, object.operations.len() as OpId, past)
}

// Whether a call may have this number.
fn is_call_number(number: u32) -> bool
    ensures { IsTrue result ↔ ((1 ≤ number) × (number ≤ 65536)) }
{
    number >= 1 && number <= 65536
}

// Whether there is this session behind a front.
fn is_session(session: u32) -> bool
    ensures { IsTrue result ↔ ((1 ≤ session) × (session ≤ 65535)) }
{
    session >= 1 && session <= 65535
}

impl Replay {
    ghost use Rattle.std.specs.Prelude.{ℕ, List, [], ◌≡◌};
    ghost use Rattle.audit_core.specs.EpochSaid.{a_start, an_end, a_cancel, a_name, asks};
    ghost use Rattle.word_core.specs.Events.{Called};
    ghost use Rattle.audit_core.specs.Steps.{Begun, Heard, nothing_heard};
    ghost use Rattle.audit_core.specs.EpochTells.{IsCall};
    ghost use Rattle.audit_core.specs.EpochView.{asked_view};
    ghost use Rattle.audit_core.specs.EpochStands.{Stands, Hears, HearsSaid, begun_with};
    ghost use Rattle.audit_core.specs.View.{told_view};
    ghost use Rattle.path_count.specs.declared.past.PastEvent.TheVariants as past;
    ghost use Rattle.path_tree.specs.Path.{Path};
    ghost use Rattle.path_tree.specs.Trace.{Call, Event, Start, End, IsFresh};
    ghost use Rattle.path_count.specs.Stands.{started_calls};
    ghost use Rattle.audit_core.specs.Counting.{AllMayStart};
    ghost use Rattle.audit_core.specs.Numbers.{AreNumbers, HasNumber};
    ghost use Rattle.audit_core.specs.Steps.{Step};

    /// An epoch before its first line: with this past, the oldest event first, these values, and these calls that wait,
    /// which have the numbers from 1. `None`: a value is not of its part's kind, the paths did not let the past happen,
    /// more than 65,536 calls start in it, or a call runs at its end. The error is that memory was refused.
    pub fn behind(
        alloc: Global,
        object: &Object,
        past: Vec<PastEvent>,
        parts: Vec<Value>,
        carried: Vec<WaitedCall>,
    ) -> Result<Option<Replay>, AllocError>
        ensures { IfOk result (λ found. IfSome found (λ r.
            Stands (object_of object.now) (begun_with past.items parts.items carried.items) r nothing_heard)) }
    {
        if !are_of(&parts, &object.parts) {
            return Ok(None);
        }
        let Some(counts) = counts_of(alloc, object, &past)? else {
            return Ok(None);
        };
        Ok(Some(Replay {
            alloc,
            counts,
            parts,
            numbers: NumberSet::new(alloc),
            carried,
            running: None,
            long: past,
        }))
    }

    /// Hears a line, and answers what it told, or its fault; after a fault, and where memory is refused, the state is
    /// open.
    pub fn hear(
        &mut self,
        object: &Object,
        line: &[u8],
    ) -> Result<Result<ReplayNote, AuditFault>, AllocError>
        ensures { IfOk result (λ found. Hears (object_of object.now) line.now self.old found self.new) }
    {
        match read_line(self.alloc, line)? {
            None => Ok(Err(AuditFault::Bad)),
            Some(
                EpochLine::Start(
                    AskedCall {
                        number,
                        session,
                        name,
                        arguments,
                    },
                ),
            ) => Ok(self.hear_start(object, number, session, name, arguments)),
            Some(EpochLine::End(number, told)) => self.hear_end(object, number, told),
            Some(
                EpochLine::Cancel(
                    AskedCall {
                        number,
                        session,
                        name,
                        arguments,
                    },
                ),
            ) => self.hear_cancel(object, number, session, name, arguments),
            Some(EpochLine::Name(session, client)) => self.hear_name(session, client),
        }
    }

    // The operation of a call of which a line may tell.
    fn place_for(
        &self,
        object: &Object,
        number: u32,
        session: u32,
        name: &[u8],
        arguments: &[Datum],
    ) -> Option<OpId>
        ensures { (e : Begun) (heard : Heard) → Stands (object_of object.now) e self.now heard →
            MatchOption result ((call : Called) →
            IsCall (object_of object.now) e heard (asks number session name.now arguments.now) call → ⊥)
            (λ place. IsCall (object_of object.now) e heard (asks number session name.now arguments.now) (record {
              number = number;
              session = session;
              operation = place;
              arguments = arguments.now;
            })) }
    {
        if self.running.is_some() || !is_call_number(number) || !is_session(session) {
            return None;
        }
        if !self.numbers.is_new(number) {
            return None;
        }
        let operation = operation_for(&object.operations, name, arguments)?;
        if !is_as_carried(&self.carried, number, session, operation, arguments) {
            return None;
        }
        Some(operation)
    }

    // Hears a start.
    fn hear_start(
        &mut self,
        object: &Object,
        number: u32,
        session: u32,
        name: &[u8],
        arguments: Vec<Datum>,
    ) -> Result<ReplayNote, AuditFault>
        ensures { HearsSaid (object_of object.now) (a_start (asks number session name.now arguments.items)) self.old result
            self.new }
    {
        let Some(operation) = self.place_for(object, number, session, name, &arguments) else {
            return Err(AuditFault::Bad);
        };
        if self.counts.is_spent() {
            return Err(AuditFault::Bad);
        }
        if let Some(path) = self.counts.refusing(operation) {
            return Err(AuditFault::Breaks(path));
        }
        self.running = Some(make_known(number, session, operation, arguments));
        Ok(ReplayNote::Began)
    }

    // Hears an end.
    fn hear_end(
        &mut self,
        object: &Object,
        number: u32,
        told: ToldReply,
    ) -> Result<Result<ReplayNote, AuditFault>, AllocError>
        ensures { IfOk result (λ found.
            HearsSaid (object_of object.now) (an_end number (told_view told)) self.old found self.new) }
    {
        let Some(known) = self.take_running(number) else {
            return Ok(Err(AuditFault::Stranger));
        };
        if !is_right(self.alloc, object, &known.call, &told, &mut self.parts)? {
            return Ok(Err(AuditFault::Wrong));
        }
        self.count(number, known.call.operation)?;
        Ok(Ok(ReplayNote::Ran(known, told)))
    }

    // Hears that a call that waited was cancelled.
    fn hear_cancel(
        &mut self,
        object: &Object,
        number: u32,
        session: u32,
        name: &[u8],
        arguments: Vec<Datum>,
    ) -> Result<Result<ReplayNote, AuditFault>, AllocError>
        ensures { IfOk result (λ found.
            HearsSaid (object_of object.now) (a_cancel (asks number session name.now arguments.items)) self.old found
            self.new) }
    {
        let Some(operation) = self.place_for(object, number, session, name, &arguments) else {
            return Ok(Err(AuditFault::Bad));
        };
        self.numbers.take(number)?;
        Ok(Ok(ReplayNote::Cancelled(make_known(number, session, operation, arguments))))
    }

    // Hears that a session got a name.
    fn hear_name(
        &self,
        session: u32,
        client: &[u8],
    ) -> Result<Result<ReplayNote, AuditFault>, AllocError>
        ensures { IfOk result (λ found. (o : ObjectForm) →
            HearsSaid o (a_name session client.now) self.now found self.now) }
    {
        if self.running.is_some() || !is_session(session) {
            return Ok(Err(AuditFault::Bad));
        }
        match Name::read(self.alloc, client)? {
            None => Ok(Err(AuditFault::Bad)),
            Some(name) => Ok(Ok(ReplayNote::Named(session, name))),
        }
    }

    /// What the epoch came to, up to the last line at which no call runs.
    pub fn end(self) -> ReplayedEpoch
        ensures { result ≡ record {
          contents = self.parts;
          counters = self.counts.all;
          long = self.long;
          greatest = self.numbers.greatest;
        } }
    {
        let Replay {
            counts,
            parts,
            numbers,
            long,
            ..
        } = self;
        ReplayedEpoch {
            contents: parts,
            counters: counts.all(),
            long,
            greatest: numbers.greatest(),
        }
    }

    // The call that runs, where it has this number; it runs no more then.
    fn take_running(&mut self, number: u32) -> Option<Known>
        ensures some { IfSome result (λ k. (self.old.running ≡ Some k) × (k.number ≡ number)
            × (self.new ≡ record self.old { running = None })) }
        ensures none { IfNone result ((k : Known_of) → self.old.running ≡ Some k → k.number ≢ number) }
    {
        match self.running.take() {
            None => None,
            Some(known) => {
                if known.number == number {
                    return Some(known);
                }
                None
            }
        }
    }

    // Counts a call of this number and operation, which every path admits.
    fn count(&mut self, number: u32, operation: OpId) -> Result<(), AllocError>
        ensures numbers { OnOk result ((steps : List Step) (step : Step) → HasNumber number step →
            AreNumbers self.old.numbers.used.items self.old.numbers.greatest steps →
            AreNumbers self.new.numbers.used.items self.new.numbers.greatest (step ∷ steps)) }
        ensures long { OnOk result (self.new.long.items
            ≡ self.old.long.items ++ past.Start operation ∷ past.End operation ∷ []) }
        ensures counted { OnOk result ((n : ℕ) (paths : List Path) (t : List Event) (call : Call) →
            Counted self.old.counts.all self.old.counts.each.items n paths t →
            call.operation ≡ operation → operation < n → AllMayStart paths operation t → started_calls t < 65536 →
            IsFresh call.number t →
            Counted self.new.counts.all self.new.counts.each.items n paths (End call ∷ Start call ∷ t)) }
        ensures same { (self.new.parts ≡ self.old.parts) × (self.new.carried ≡ self.old.carried)
            × (self.new.running ≡ self.old.running) }
    {
        self.numbers.take(number)?;
        self.long.push(PastEvent::Start(operation))?;
        self.long.push(PastEvent::End(operation))?;
        self.counts.pass(operation);
        Ok(())
    }
}

// A call that a line told of.
fn make_known(number: u32, session: u32, operation: OpId, arguments: Vec<Datum>) -> Known
    ensures { known_call result ≡ record {
      number = number;
      session = session;
      operation = operation;
      arguments = arguments.items;
    } }
{
    Known {
        number,
        call: ActiveCall {
            session,
            operation,
            arguments,
        },
    }
}
