//! The lines behind a front, played.

ghost use Rattle.std.specs.Prelude.{◌≡◌, ◌+◌, ◌≤◌, ◌<◌, ◌^◌, IsTrue, List, ℕ, IfOk, IfErr, cond, length, false};
ghost use Rattle.audit_core.specs.View.{told_view};
ghost use Rattle.decl_core.specs.ObjectMap.{object_of};
ghost use Rattle.audit_core.specs.Steps.{ran, cancelled, named};
ghost use Rattle.audit_core.specs.EpochStands.{known_call};
ghost use Rattle.recover_core.specs.Clients.{Makes};
ghost use Rattle.recover_core.specs.Odd.{IsOdd, CannotCome, IsOddNote};
ghost use Rattle.live_core.specs.declared.front.CarriedCall.{CarriedCall as CarriedCall_of};
ghost use Rattle.recover_core.specs.Playing.{TakesNote, Counts, IsRest, PlaysAll};

use crate::clients::{admit, remember_cancelled, remember_ended};
use crate::lines::split_line;
use crate::numbers::EpochNumbers;
use apply_core::reply::Reply;
use audit_core::epoch_replay::{Known, Replay, ReplayNote};
use audit_core::told::ToldReply;
use audit_core::verdict::AuditFault;
use decl_core::object::Object;
use guest_core::guests::Guests;
use path_tree::name::Name;
use std::alloc::{AllocError, Global};
use value_core::datum::Datum;

// Why a line is not taken.
#[derive(Clone, Copy, Debug, PartialEq, Eq)]
pub(crate) enum RefusedLine {
    // it has this fault
    Faulty(AuditFault),
    // what it tells of clients contradicts what was told of them before
    Odd,
}

// An epoch up to some line, and its clients.
#[derive(Drop)]
pub(crate) struct Playing {
    pub(crate) replay: Replay,
    pub(crate) guests: Guests,
    pub(crate) numbers: EpochNumbers,
    // the second since which clients are away
    pub(crate) now: u64,
    // how many calls ended
    pub(crate) ended: u64,
}

// The reply that a line told.
fn reply_of(told: &ToldReply) -> Reply
    ensures { result ≡ told_view told.now }
{
    match told {
        ToldReply::Nothing => Reply::Done(None),
        ToldReply::Integer(number) => Reply::Done(Some(Datum::Integer(*number))),
        ToldReply::Other(reply) => **reply,
    }
}

// A call that ended is remembered, where its client has a name. False: its number has more than 64 bits, or its client
// has a call that has not ended, or no key is left.
fn take_ran(
    guests: &mut Guests,
    numbers: &EpochNumbers,
    known: &Known,
    told: &ToldReply,
) -> Result<bool, AllocError>
    ensures yes { IfOk result (λ yes. IsTrue yes → (now : ℕ) →
        Makes numbers.now.base numbers.now.carried.items now guests.old
        (ran (known_call known.now) (told_view told.now)) guests.new) }
    ensures no { IfOk result (λ yes. yes ≡ false → IsOdd numbers.now.base numbers.now.carried.items guests.old
        (ran (known_call known.now) (told_view told.now))) }
{
    let Ok(session) = u16::try_from(known.call.session) else {
        return Ok(false);
    };
    let Some(number) = numbers.told(known.number) else {
        return Ok(false);
    };
    let reply = reply_of(told);
    remember_ended(
        guests,
        session,
        known.call.operation,
        &known.call.arguments,
        number,
        &reply,
    )
}

// A call that was cancelled is remembered, where its client has a name. False: as of one that ended.
fn take_cancelled(
    guests: &mut Guests,
    numbers: &EpochNumbers,
    known: &Known,
) -> Result<bool, AllocError>
    ensures yes { IfOk result (λ yes. IsTrue yes → (now : ℕ) →
        Makes numbers.now.base numbers.now.carried.items now guests.old (cancelled (known_call known.now))
        guests.new) }
    ensures no { IfOk result (λ yes. yes ≡ false → IsOdd numbers.now.base numbers.now.carried.items guests.old
        (cancelled (known_call known.now))) }
{
    let Ok(session) = u16::try_from(known.call.session) else {
        return Ok(false);
    };
    let Some(number) = numbers.told(known.number) else {
        return Ok(false);
    };
    remember_cancelled(
        guests,
        session,
        known.call.operation,
        &known.call.arguments,
        number,
    )
}

// A session gets a name. False: its number is not free, or there are as many names as may be.
fn take_name(guests: &mut Guests, now: u64, session: u32, name: &Name) -> Result<bool, AllocError>
    ensures yes { IfOk result (λ yes. IsTrue yes → (base : ℕ) (carried : List CarriedCall_of) →
        Makes base carried now guests.old (named session name.now) guests.new) }
    ensures no { IfOk result (λ yes. yes ≡ false → CannotCome guests.old session) }
{
    let Ok(session) = u16::try_from(session) else {
        return Ok(false);
    };
    admit(guests, name, session, 1, now)
}

// What a line told is told to the clients. False: it contradicts what was told of them before.
fn take(
    guests: &mut Guests,
    numbers: &EpochNumbers,
    now: u64,
    note: &ReplayNote,
) -> Result<bool, AllocError>
    ensures yes { IfOk result (λ yes. IsTrue yes →
        TakesNote numbers.now.base numbers.now.carried.items now guests.old note.now guests.new) }
    ensures no { IfOk result (λ yes. yes ≡ false →
        IsOddNote numbers.now.base numbers.now.carried.items guests.old note.now) }
{
    match note {
        ReplayNote::Began => Ok(true),
        ReplayNote::Ran(known, told) => take_ran(guests, numbers, known, told),
        ReplayNote::Cancelled(known) => take_cancelled(guests, numbers, known),
        ReplayNote::Named(session, name) => take_name(guests, now, *session, name),
    }
}

// How many calls ended by what a line told.
fn ended_by(note: &ReplayNote) -> u64
    ensures counts { Counts note.now result }
    ensures few { result ≤ 1 }
{
    match note {
        ReplayNote::Ran(_, _) => 1,
        _ => 0,
    }
}

// Whether no call runs behind a line that told this.
fn is_rest(note: &ReplayNote) -> bool
    ensures { IsRest note.now result }
{
    match note {
        ReplayNote::Began => false,
        _ => true,
    }
}

impl Playing {
    ghost use Rattle.recover_core.specs.Playing.{Plays};

    // Hears a line, and answers whether no call runs behind it, or why it is not taken; then, and where memory is
    // refused, the state is open.
    pub(crate) fn hear(
        &mut self,
        object: &Object,
        line: &[u8],
    ) -> Result<Result<bool, RefusedLine>, AllocError>
        requires room { self.old.ended + 1 < 2 ^ 64 }
        ensures heard { IfOk result (λ found. Plays (object_of object.now) line.now self.old found self.new) }
        ensures ended { self.new.ended ≤ self.old.ended + 1 }
    {
        let note = match self.replay.hear(object, line)? {
            Err(fault) => return Ok(Err(RefusedLine::Faulty(fault))),
            Ok(note) => note,
        };
        if !take(&mut self.guests, &self.numbers, self.now, &note)? {
            return Ok(Err(RefusedLine::Odd));
        }
        self.ended += ended_by(&note);
        Ok(Ok(is_rest(&note)))
    }
}

// How far is played: to here, where nothing runs, or only to there.
fn mark_of(rests: bool, here: usize, there: usize) -> usize
    ensures mark { result ≡ cond rests here there }
    ensures few { (n : ℕ) → here ≤ n → there ≤ n → result ≤ n }
{
    if rests {
        return here;
    }
    there
}

// Plays lines, and answers the length of those up to the last at which no call runs; or the number of the line that is
// not taken, from 1, and why.
pub(crate) fn play(
    playing: &mut Playing,
    object: &Object,
    behind: &[u8],
) -> Result<Result<usize, (u64, RefusedLine)>, AllocError>
    requires { playing.old.ended ≡ 0 }
    ensures played { IfOk result (λ found. PlaysAll (object_of object.now) behind.now playing.old found playing.new) }
    ensures mark { IfOk result (λ found. IfOk found (λ mark. mark ≤ length behind.now)) }
    ensures number { IfOk result (λ found. IfErr found (λ at. at.0 ≤ length behind.now)) }
{
    let mut rest = behind;
    let mut number: u64 = 0;
    let mut mark: usize = 0;
    'lines: while let Some((line, tail)) = split_line(rest) {
        number += 1;
        let rests = match playing.hear(object, line)? {
            Err(refused) => return Ok(Err((number, refused))),
            Ok(rests) => rests,
        };
        mark = mark_of(rests, behind.len() - tail.len(), mark);
        rest = tail;
    }
    Ok(Ok(mark))
}
