//! What may happen in a world, and what it answers.

ghost use Rattle.std.specs.Prelude.{◌≡◌};
ghost use Rattle.world_core.specs.Names.{fault_name, keyed_name, refusal_name};

use apply_core::need::Need;
use apply_core::reply::Reply;
use board_core::answer::EarlierCall;
use guest_core::answer::{Cancelled, KeyedFault, SubmitFault};
use run_core::step::StepAnswer;
use value_core::datum::Datum;
use value_core::value::Value;

/// What may happen.
#[derive(Clone, Copy)]
pub enum Event<'a> {
    /// A session calls the operation of this name, in any case, with these arguments.
    Call(u32, &'a str, &'a [Datum]),
    /// A session, by its first number, does so under the key that the second one is.
    CallKey(u32, u32, &'a str, &'a [Datum]),
    /// The run of the call of this number makes its next step, which works or fails for the device.
    Step(u32, bool),
    /// The call of this number finishes.
    Finish(u32),
    /// The call of this number is cancelled, if it waits.
    Cancel(u32),
    /// A session leaves.
    Drop(u32),
    /// A session is back.
    Resume(u32),
    /// The contents are asked for.
    Show,
}

/// Why an event is refused. It has changed nothing then.
#[derive(Clone, Copy, Debug, PartialEq, Eq)]
pub enum EventRefusal {
    /// A call is refused by the desk, or for want of memory.
    Submit(SubmitFault),
    /// A call under a key is refused by the desk, or for want of memory.
    Keyed(KeyedFault),
    /// No call of this number runs.
    NotRunning,
    /// The run has ended: it has no step.
    NoStep,
    /// The run has not ended.
    NotDone,
    /// There is no session of this number: they are those from 1 to 1,024.
    NoSession,
    /// Memory for the contents was refused.
    Memory,
}

// The name of a fault of a call.
fn fault_name(fault: SubmitFault) -> &'static str
    ensures { result.now ≡ fault_name fault }
{
    match fault {
        SubmitFault::Gone => "Gone",
        SubmitFault::UnknownOp => "UnknownOp",
        SubmitFault::BadArgs => "BadArgs",
        SubmitFault::SessionBusy => "SessionBusy",
        SubmitFault::Full => "Full",
        SubmitFault::HistoryFull => "HistoryFull",
        SubmitFault::Memory => "Memory",
    }
}

// The name of a fault of a call under a key.
fn keyed_name(fault: KeyedFault) -> &'static str
    ensures { result.now ≡ keyed_name fault }
{
    match fault {
        KeyedFault::Gone => "Gone",
        KeyedFault::BadKey => "BadKey",
        KeyedFault::KeyReused => "KeyReused",
        KeyedFault::Submit(fault) => fault_name(fault),
    }
}

impl EventRefusal {
    /// Its name, as in `NotRunning`.
    pub fn name(&self) -> &'static str
        ensures { result.now ≡ refusal_name self.now }
    {
        match self {
            EventRefusal::Submit(fault) => fault_name(*fault),
            EventRefusal::Keyed(fault) => keyed_name(*fault),
            EventRefusal::NotRunning => "NotRunning",
            EventRefusal::NoStep => "NoStep",
            EventRefusal::NotDone => "NotDone",
            EventRefusal::NoSession => "NoSession",
            EventRefusal::Memory => "Memory",
        }
    }
}

/// What an event is answered.
#[derive(Drop)]
pub enum WorldAnswer {
    /// The call was accepted, with this number.
    Number(u32),
    /// The session made the call before, under this number, and this became of it. Nothing was changed.
    Kept(EarlierCall),
    /// The run made its step: the device call that it needed, and how that went.
    Stepped(Need, StepAnswer),
    /// The call has finished, with this reply.
    Ended(Reply),
    /// What became of the cancel.
    Cancel(Cancelled),
    /// The session has left.
    Dropped,
    /// The session is back.
    Resumed,
    /// The published contents, part by part.
    Shown(Vec<Value>),
    /// The event was refused, and changed nothing.
    Refused(EventRefusal),
}

/// What an event did.
#[derive(Drop)]
pub struct EventAnswer {
    /// What it is answered.
    pub answer: WorldAnswer,
    /// How many calls it started: so many starts are the last events of the trace.
    pub starts: usize,
}
