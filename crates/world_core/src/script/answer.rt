//! What the lines of a script do, and the lines that answer them.

ghost use Rattle.std.specs.Prelude.{◌≡◌, ◌++◌, ℕ, List, IfOk, OnOk, MatchOption, true, false, drop, map};
ghost use Rattle.std.specs.List.{flat_map};
ghost use Rattle.board_core.specs.Sound.{event_number};
ghost use Rattle.board_core.specs.Answers.{runs_in};
ghost use Rattle.word_core.specs.Answers.{refused_line, started_line, all_stepped_line};
ghost use Rattle.word_core.specs.Said.{a_do, all_steps, a_trace};
ghost use Rattle.word_core.specs.ScriptView.{said_view};
ghost use Rattle.world_core.specs.Names.{refusal_name};
ghost use Rattle.world_core.specs.Scene.{Scene};
ghost use Rattle.world_core.specs.declared.event.WorldAnswer.TheVariants.{Number};
ghost use Rattle.world_core.specs.Events.{event_of, finish};
ghost use Rattle.world_core.specs.Does.{Does, Happens, IsNoWant, IsTold, StepsOn, answer_lines, call_of, cancel_name};
ghost use Rattle.world_core.specs.Does.{event_lines, has_gone, next_number, repeat_line};

use crate::event::{Event, EventAnswer, EventRefusal, WorldAnswer};
use crate::script::steps::step_to_end;
use crate::world::World;
use board_core::answer::{CallState, EarlierCall};
use board_core::event::TraceEvent;
use decl_core::object::Object;
use desk_core::desk::Desk;
use guest_core::answer::{Cancelled, KeyedFault, SubmitFault};
use run_core::step::StepAnswer;
use std::alloc::{AllocError, Global};
use value_core::datum::Datum;
use word_core::answers::{
    push_all_stepped, push_called, push_cancelled, push_dropped, push_finished, push_kept,
    push_refused, push_repeated, push_resumed, push_shown, push_started, push_stepped,
};
use word_core::said::Said;

// The name of what became of a cancel.
fn cancel_name(answer: Cancelled) -> &'static str
    ensures { result.now ≡ cancel_name answer }
{
    match answer {
        Cancelled::Cancelled => "Cancelled",
        Cancelled::Running => "Running",
        Cancelled::Ended => "Ended",
        Cancelled::Unknown => "Unknown",
    }
}

// Whether a step did not fail.
fn has_gone(answer: StepAnswer) -> bool
    ensures { result ≡ has_gone answer }
{
    matches!(answer, StepAnswer::Went)
}

// Adds the line of a refusal. Want of memory is an error.
fn push_refusal(out: &mut Vec<u8>, refusal: EventRefusal) -> Result<(), AllocError>
    ensures told { OnOk result (out.new.items ≡ out.old.items ++ refused_line (refusal_name refusal)) }
    ensures memory { OnOk result (IsNoWant refusal) }
{
    match refusal {
        EventRefusal::Submit(SubmitFault::Memory)
        | EventRefusal::Keyed(KeyedFault::Submit(SubmitFault::Memory))
        | EventRefusal::Memory => Err(AllocError),
        _ => push_refused(out, refusal.name()),
    }
}

// Adds the line of a call that was made before under the same key.
fn push_repeat(out: &mut Vec<u8>, kept: EarlierCall) -> Result<(), AllocError>
    ensures { OnOk result (out.new.items ≡ out.old.items ++ repeat_line kept.number kept.state) }
{
    let EarlierCall { number, state } = kept;
    match state {
        CallState::Waiting => push_kept(out, "waiting", number),
        CallState::Running => push_kept(out, "running", number),
        CallState::Cancelled => push_kept(out, "cancelled", number),
        CallState::Ended(reply) => push_repeated(out, number, &reply),
    }
}

// Adds the answer to an event of this call or session.
fn push_answer(
    alloc: Global,
    out: &mut Vec<u8>,
    object: &Object,
    number: u32,
    answer: &WorldAnswer,
) -> Result<(), AllocError>
    ensures told { OnOk result (out.new.items ≡ out.old.items ++ answer_lines object.now number answer.now) }
    ensures memory { OnOk result (IsTold answer.now) }
{
    match answer {
        WorldAnswer::Number(call) => push_called(out, *call),
        WorldAnswer::Stepped(need, went) => push_stepped(out, number, *need, has_gone(*went)),
        WorldAnswer::Ended(reply) => push_finished(out, number, reply),
        WorldAnswer::Cancel(became) => push_cancelled(out, number, cancel_name(*became)),
        WorldAnswer::Dropped => push_dropped(out, number),
        WorldAnswer::Resumed => push_resumed(out, number),
        WorldAnswer::Kept(kept) => push_repeat(out, *kept),
        WorldAnswer::Shown(values) => push_shown(alloc, out, object, values),
        WorldAnswer::Refused(refusal) => push_refusal(out, *refusal),
    }
}

// The call that an event of the trace is of.
fn number_of(event: TraceEvent) -> u32
    ensures { result ≡ event_number event }
{
    match event {
        TraceEvent::Start(number) => number,
        TraceEvent::End(number, _) => number,
    }
}

// Adds a line for each call that started from this place of the trace on.
fn push_starts(out: &mut Vec<u8>, desk: &Desk, from: usize) -> Result<(), AllocError>
    ensures { OnOk result (out.new.items ≡ out.old.items
        ++ flat_map (λ e. started_line (event_number e)) (drop from desk.now.trace)) }
{
    let trace = desk.trace();
    for place in from..trace.len() {
        match trace.get(place) {
            Some(event) => push_started(out, number_of(event))?,
            None => unreachable!(),
        }
    }
    Ok(())
}

// Adds what an event of this call or session was answered, in the world that it left.
fn push_told(
    alloc: Global,
    world: &World,
    number: u32,
    told: &EventAnswer,
    out: &mut Vec<u8>,
) -> Result<(), AllocError>
    ensures told { OnOk result (out.new.items ≡ out.old.items ++ event_lines world.now number told.now) }
    ensures memory { OnOk result (IsTold told.now.answer) }
{
    let desk = world.desk();
    push_answer(alloc, out, desk.accepted().object(), number, &told.answer)?;
    push_starts(out, desk, desk.trace().len().saturating_sub(told.starts))?;
    Ok(())
}

// Lets an event of this call or session happen, and adds its answer.
fn tell_event(
    alloc: Global,
    world: &mut World,
    event: Event<'_>,
    number: u32,
    out: &mut Vec<u8>,
) -> Result<(), AllocError>
    ensures { OnOk result ((text : List ℕ) × (out.new.items ≡ out.old.items ++ text)
        × Happens (event_of event.entry) number world.old text world.new) }
{
    let told = world.event(event);
    push_told(alloc, world, number, &told, out)
}

// The number of a call that was answered so, if it runs now.
fn running(world: &World, told: &EventAnswer) -> Option<u32>
    ensures { MatchOption result
        ((number : ℕ) → told.now.answer ≡ Number number → runs_in world.now.board number ≡ false)
        (λ number. (told.now.answer ≡ Number number) × (runs_in world.now.board number ≡ true)) }
{
    let WorldAnswer::Number(number) = told.answer else {
        return None;
    };
    if world.desk().runs(number) {
        return Some(number);
    }
    None
}

// Lets a session call, and adds the answer. Its number, where the call runs then.
fn tell_call(
    alloc: Global,
    world: &mut World,
    session: u32,
    op: &str,
    arguments: &[Datum],
    out: &mut Vec<u8>,
) -> Result<Option<u32>, AllocError>
    ensures told { OnOk result ((text : List ℕ) × (out.new.items ≡ out.old.items ++ text)
        × Happens (call_of session op.now arguments.now) 0 world.old text world.new) }
    ensures runs { IfOk result (λ found. MatchOption found (runs_in world.new.board (next_number world.old) ≡ false)
        (λ number. (number ≡ next_number world.old) × (runs_in world.new.board number ≡ true))) }
{
    // Its board is sound: the number of a call that runs has been given.
    world.desk().history();
    let told = world.event(Event::Call(session, op, arguments));
    push_told(alloc, world, 0, &told, out)?;
    let found = running(world, &told);
    Ok(found)
}

// Lets a call that runs make its steps to the end and finish, and adds the answers.
fn tell_end(
    alloc: Global,
    world: &mut World,
    number: u32,
    out: &mut Vec<u8>,
) -> Result<(), AllocError>
    requires { runs_in world.old.board number ≡ true }
    ensures { OnOk result ((count : ℕ) × (far : Scene) × (text : List ℕ)
        × (out.new.items ≡ out.old.items ++ all_stepped_line number count ++ text)
        × StepsOn number world.old count far × Happens (finish number) number far text world.new) }
{
    let count = step_to_end(world, number);
    push_all_stepped(out, number, count)?;
    tell_event(alloc, world, Event::Finish(number), number, out)
}

// Lets a session call and, where the call starts at once, the call be done to its end, and adds the answers.
fn tell_done(
    alloc: Global,
    world: &mut World,
    session: u32,
    op: &str,
    arguments: &[Datum],
    out: &mut Vec<u8>,
) -> Result<(), AllocError>
    ensures { OnOk result ((text : List ℕ) × (out.new.items ≡ out.old.items ++ text)
        × Does (a_do session op.now arguments.now) world.old text world.new) }
{
    let Some(number) = tell_call(alloc, world, session, op, arguments, out)? else {
        return Ok(());
    };
    // Its history is sequential, and its board is sound.
    world.desk().history();
    tell_end(alloc, world, number, out)
}

// Lets a run make its steps to the end, and adds the answer.
fn tell_steps(world: &mut World, number: u32, out: &mut Vec<u8>) -> Result<(), AllocError>
    ensures { OnOk result ((text : List ℕ) × (out.new.items ≡ out.old.items ++ text)
        × Does (all_steps number) world.old text world.new) }
{
    if !world.desk().runs(number) {
        return push_refused(out, EventRefusal::NotRunning.name());
    }
    let count = step_to_end(world, number);
    push_all_stepped(out, number, count)
}

// Adds the text of the trace.
fn tell_trace(world: &World, out: &mut Vec<u8>) -> Result<(), AllocError>
    ensures { OnOk result ((text : List ℕ) × (out.new.items ≡ out.old.items ++ text)
        × Does a_trace world.now text world.now) }
{
    let text = world.desk().trace_text(world.opening())?;
    out.extend_from_slice(&text)?;
    Ok(())
}

/// Does what a line says, and adds its answer. The error is that memory was refused, for the event or for the answer.
pub fn answer_said(
    alloc: Global,
    world: &mut World,
    said: Said<'_>,
    out: &mut Vec<u8>,
) -> Result<(), AllocError>
    ensures { OnOk result ((text : List ℕ) × (out.new.items ≡ out.old.items ++ text)
        × Does (said_view said.entry) world.old text world.new) }
{
    match said {
        Said::Call(session, op, arguments) => {
            tell_event(alloc, world, Event::Call(session, op, &arguments), 0, out)
        }
        Said::CallKey(session, key, op, arguments) => {
            let event = Event::CallKey(session, key, op, &arguments);
            tell_event(alloc, world, event, 0, out)
        }
        Said::Do(session, op, arguments) => {
            tell_done(alloc, world, session, op, &arguments, out)
        }
        Said::Step(number, works) => {
            tell_event(alloc, world, Event::Step(number, works), number, out)
        }
        Said::Steps(number) => tell_steps(world, number, out),
        Said::Finish(number) => tell_event(alloc, world, Event::Finish(number), number, out),
        Said::Cancel(number) => tell_event(alloc, world, Event::Cancel(number), number, out),
        Said::Drop(session) => tell_event(alloc, world, Event::Drop(session), session, out),
        Said::Resume(session) => tell_event(alloc, world, Event::Resume(session), session, out),
        Said::Show => tell_event(alloc, world, Event::Show, 0, out),
        Said::Trace => tell_trace(world, out),
    }
}
