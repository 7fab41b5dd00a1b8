//! What was held at the end of a journal.

ghost use Rattle.std.specs.Prelude.{◌≡◌, ◌<◌, ◌^◌, ◌∷◌, List, true, IfOk, IfSome, OnOk, drop};
ghost use Rattle.decl_core.specs.ObjectMap.{object_of};
ghost use Rattle.word_core.specs.Events.{Happened, ended as ended_by};
ghost use Rattle.audit_core.specs.View.{told_view};
ghost use Rattle.live_core.specs.Front.{opening_of};
ghost use Rattle.audit_core.specs.EpochStands.{IsNote, Stands};
ghost use Rattle.audit_core.specs.Steps.{Begun, Heard, nothing_heard};
ghost use Rattle.audit_core.specs.EpochTells.{Tells};
ghost use Rattle.recover_core.specs.Carried.{told_by};
ghost use Rattle.recover_core.specs.Playing.{begun_by};
ghost use Rattle.decl_core.specs.HoldMap.{holds_of};
ghost use Rattle.guest_core.specs.Held.{AreHeldBy};
ghost use Rattle.recover_core.specs.HeldPlay.{HaveNumbers, HeldOn, PlaysLines, ends_in as ends_in_format, rules_by, told_as};

use crate::numbers::{carried_of, told_of};
use crate::text::{HeldFront, from, split_line};
use apply_core::reply::Reply;
use audit_core::epoch_replay::{Known, Replay, ReplayNote};
use audit_core::told::ToldReply;
use decl_core::hold::Hold;
use decl_core::object::Object;
use guest_core::held::{EndedCall, Holds};
use guest_core::hold_ends::HoldEnds;
use live_core::front::{CarriedCall, Front};
use live_core::past::events_of;
use std::alloc::{AllocError, Global};
use value_core::datum::Datum;

/// Which ends of calls end what is held, in a journal of this format, of which 1 is the one of before: from 2 on those of
/// done calls alone, before that any.
pub fn ends_in(format: u64) -> HoldEnds
    ensures { result ≡ ends_in_format format }
{
    match format {
        0 => HoldEnds::ByAny,
        1 => HoldEnds::ByAny,
        _ => HoldEnds::ByDone,
    }
}

// The reply that a line told.
fn reply_of(told: &ToldReply) -> Reply
    ensures { result ≡ told_view told.now }
{
    match told {
        ToldReply::Nothing => Reply::Done(None),
        ToldReply::Integer(number) => Reply::Done(Some(Datum::Integer(*number))),
        ToldReply::Other(reply) => **reply,
    }
}

// A call ran, of which this number was told.
#[tactic(auto, using(crate::proofs::HoldPlaying::held_behind))]
fn end_call(
    alloc: Global,
    ends: HoldEnds,
    holds: &[Hold],
    all: &mut Holds,
    told: u64,
    known: &Known,
    reply: &ToldReply,
) -> Result<(), AllocError>
    ensures held { OnOk result ((past : List Happened) → AreHeldBy ends (holds_of holds.now) past all.old →
        AreHeldBy ends (holds_of holds.now) (ended_by (told_as told known.now) (told_view reply.now) ∷ past) all.new) }
    ensures small { told < 2 ^ 64 }
{
    let reply = reply_of(reply);
    all.end(
        alloc,
        ends,
        holds,
        EndedCall {
            number: told,
            session: known.call.session,
            operation: known.call.operation,
            arguments: &known.call.arguments,
        },
        &reply,
    )?;
    Ok(())
}

// A call ran. False: the number that its client was told has more than 64 bits.
fn end_known(
    alloc: Global,
    ends: HoldEnds,
    holds: &[Hold],
    all: &mut Holds,
    base: u64,
    carried: &[CarriedCall],
    known: &Known,
    reply: &ToldReply,
) -> Result<bool, AllocError>
    ensures held { IfOk result (λ fits. fits ≡ true → (past : List Happened) → AreHeldBy ends (holds_of holds.now) past all.old →
        AreHeldBy ends (holds_of holds.now) (ended_by (told_as (told_by base carried.now known.now.number) known.now)
        (told_view reply.now) ∷ past) all.new) }
    ensures small { IfOk result (λ fits. fits ≡ true → told_by base carried.now known.now.number < 2 ^ 64) }
{
    match told_of(base, carried, known.number) {
        None => Ok(false),
        Some(told) => {
            end_call(alloc, ends, holds, all, told, known, reply)?;
            Ok(true)
        }
    }
}

// What a line told is taken. False: a number has more than 64 bits.
fn take_note(
    alloc: Global,
    ends: HoldEnds,
    holds: &[Hold],
    all: &mut Holds,
    base: u64,
    carried: &[CarriedCall],
    note: &ReplayNote,
) -> Result<bool, AllocError>
    ensures held { IfOk result (λ fits. fits ≡ true → (heard after : Heard) → IsNote heard note.now after →
        HeldOn ends (holds_of holds.now) base carried.now heard.steps after.steps all.old all.new) }
    ensures small { IfOk result (λ fits. fits ≡ true → (heard after : Heard) → IsNote heard note.now after →
        HaveNumbers base carried.now heard.steps → HaveNumbers base carried.now after.steps) }
{
    match note {
        ReplayNote::Began => Ok(true),
        ReplayNote::Ran(known, reply) => {
            let fits = end_known(alloc, ends, holds, all, base, carried, known, reply)?;
            Ok(fits)
        }
        ReplayNote::Cancelled(_) => Ok(true),
        ReplayNote::Named(_, _) => Ok(true),
    }
}

// Plays a line. False: it has a fault, or a number has more than 64 bits.
fn play_line(
    alloc: Global,
    object: &Object,
    ends: HoldEnds,
    holds: &[Hold],
    replay: &mut Replay,
    all: &mut Holds,
    base: u64,
    carried: &[CarriedCall],
    line: &[u8],
) -> Result<bool, AllocError>
    ensures { IfOk result (λ fits. fits ≡ true → (e : Begun) (heard : Heard) →
        Stands (object_of object.now) e replay.old heard →
        (after : Heard) × Tells (object_of object.now) e heard line.now after
        × Stands (object_of object.now) e replay.new after
        × HeldOn ends (holds_of holds.now) base carried.now heard.steps after.steps all.old all.new
        × (HaveNumbers base carried.now heard.steps → HaveNumbers base carried.now after.steps)) }
{
    match replay.hear(object, line)? {
        Err(_) => Ok(false),
        Ok(note) => {
            let fits = take_note(alloc, ends, holds, all, base, carried, &note)?;
            Ok(fits)
        }
    }
}

// Plays all lines. False: one has a fault.
fn play_lines(
    alloc: Global,
    object: &Object,
    ends: HoldEnds,
    holds: &[Hold],
    replay: &mut Replay,
    all: &mut Holds,
    base: u64,
    carried: &[CarriedCall],
    behind: &[u8],
) -> Result<bool, AllocError>
    ensures { IfOk result (λ fits. fits ≡ true → (e : Begun) →
        Stands (object_of object.now) e replay.old nothing_heard →
        PlaysLines (rules_by ends (holds_of holds.now)) (object_of object.now) e base carried.now behind.now all.old all.new) }
{
    let mut rest = behind;
    'lines: while let Some((line, more)) = split_line(rest) {
        if !play_line(alloc, object, ends, holds, replay, all, base, carried, line)? {
            return Ok(false);
        }
        rest = more;
    }
    Ok(true)
}

// Plays the lines behind a front. False: they are not those of an epoch that it begins.
fn play_behind(
    alloc: Global,
    object: &Object,
    ends: HoldEnds,
    holds: &[Hold],
    opening: Front,
    all: &mut Holds,
    behind: &[u8],
) -> Result<bool, AllocError>
    ensures { IfOk result (λ fits. fits ≡ true → PlaysLines (rules_by ends (holds_of holds.now)) (object_of object.now)
        (begun_by (opening_of opening)) opening.base opening.carried.items behind.now all.old all.new) }
{
    let Front {
        parts,
        past,
        base,
        carried,
        ..
    } = opening;
    let past = events_of(alloc, &past)?;
    let calls = carried_of(alloc, &carried)?;
    match Replay::behind(alloc, object, past, parts, calls)? {
        None => Ok(false),
        Some(mut replay) => {
            let fits = play_lines(
                alloc,
                object,
                ends,
                holds,
                &mut replay,
                all,
                base,
                &carried,
                behind,
            )?;
            Ok(fits)
        }
    }
}

/// What is held behind a journal of this front: what was held when its epoch began, and what the calls have left that
/// ended since, in their order, where such ends of calls end what is held. `None`: the lines behind the front are not those
/// of an epoch that it begins, as `recover_core` tells. The error is that memory was refused.
pub fn play_held(
    alloc: Global,
    object: &Object,
    ends: HoldEnds,
    holds: &[Hold],
    read: HeldFront,
    text: &[u8],
) -> Result<Option<Holds>, AllocError>
    ensures { IfOk result (λ found. IfSome found (λ all. PlaysLines (rules_by ends (holds_of holds.now)) (object_of object.now)
        (begun_by (opening_of read.opening)) read.opening.base read.opening.carried.items (drop read.behind text.now)
        read.held all)) }
{
    let HeldFront {
        opening,
        held,
        behind,
        ..
    } = read;
    let mut all = held;
    if play_behind(
        alloc,
        object,
        ends,
        holds,
        opening,
        &mut all,
        from(text, behind),
    )? {
        return Ok(Some(all));
    }
    Ok(None)
}
