//! What a line does, and the lines that answer it.

ghost use Rattle.std.specs.Prelude.{◌≡◌, ◌≢◌, ◌++◌, ℕ, List, MatchOption, OnOk};
ghost use Rattle.decl_core.specs.HoldForm.{HoldForm};
ghost use Rattle.decl_core.specs.HoldMap.{holds_of};
ghost use Rattle.guest_core.specs.Held.{HeldCall};
ghost use Rattle.word_core.specs.ScriptView.{said_view};
ghost use Rattle.word_core.specs.Said.{a_drop, a_resume};
ghost use Rattle.world_core.specs.HoldDoes.{Acts, HeldDoes, ward};

use crate::back::{give_back, is_session};
use crate::noted::catch_up;
use crate::refused::{is_among, word_of};
use crate::script::answer::answer_said;
use crate::world::World;
use decl_core::hold::Hold;
use guest_core::held::Holds;
use std::alloc::{AllocError, Global};
use word_core::answers::{push_dropped, push_refused};
use word_core::said::Said;

// A session leaves.
fn leave(
    alloc: Global,
    world: &mut World,
    session: u32,
    gone: &mut Vec<u32>,
    out: &mut Vec<u8>,
) -> Result<(), AllocError>
    ensures { (holds : List HoldForm) → (held : List HeldCall) → OnOk result ((text : List ℕ)
        × (out.new.items ≡ out.old.items ++ text)
        × Acts holds (ward world.old held gone.old.items) (a_drop session) text world.new gone.new.items) }
{
    if is_among(gone, session) {
        return push_dropped(out, session);
    }
    answer_said(alloc, world, Said::Drop(session), out)?;
    if is_session(session) {
        let mut other = Vec::new(alloc);
        answer_said(alloc, world, Said::Resume(session), &mut other)?;
        gone.push(session)?;
    }
    Ok(())
}

// A session is back.
fn come_back(
    alloc: Global,
    world: &mut World,
    session: u32,
    gone: &mut Vec<u32>,
    out: &mut Vec<u8>,
) -> Result<(), AllocError>
    ensures { (holds : List HoldForm) → (held : List HeldCall) → OnOk result ((text : List ℕ)
        × (out.new.items ≡ out.old.items ++ text)
        × Acts holds (ward world.old held gone.old.items) (a_resume session) text world.new gone.new.items) }
{
    answer_said(alloc, world, Said::Resume(session), out)?;
    gone.retain(|other| *other != session);
    Ok(())
}

// The session that leaves by a line.
fn leaving(said: &Said<'_>) -> Option<u32>
    ensures { MatchOption result ((session : ℕ) → said_view said.now ≢ a_drop session)
        (λ session. said_view said.now ≡ a_drop session) }
{
    match said {
        Said::Drop(session) => Some(*session),
        Said::Call(_, _, _) => None,
        Said::CallKey(_, _, _, _) => None,
        Said::Do(_, _, _) => None,
        Said::Step(_, _) => None,
        Said::Steps(_) => None,
        Said::Finish(_) => None,
        Said::Cancel(_) => None,
        Said::Resume(_) => None,
        Said::Show => None,
        Said::Trace => None,
    }
}

// The session that is back by a line.
fn coming(said: &Said<'_>) -> Option<u32>
    ensures { MatchOption result ((session : ℕ) → said_view said.now ≢ a_resume session)
        (λ session. said_view said.now ≡ a_resume session) }
{
    match said {
        Said::Resume(session) => Some(*session),
        Said::Call(_, _, _) => None,
        Said::CallKey(_, _, _, _) => None,
        Said::Do(_, _, _) => None,
        Said::Step(_, _) => None,
        Said::Steps(_) => None,
        Said::Finish(_) => None,
        Said::Cancel(_) => None,
        Said::Drop(_) => None,
        Said::Show => None,
        Said::Trace => None,
    }
}

// Does what a line says, before anything is given back.
fn act(
    alloc: Global,
    world: &mut World,
    rules: &[Hold],
    holds: &Holds,
    gone: &mut Vec<u32>,
    said: Said<'_>,
    out: &mut Vec<u8>,
) -> Result<(), AllocError>
    ensures { OnOk result ((text : List ℕ) × (out.new.items ≡ out.old.items ++ text)
        × Acts (holds_of rules.now) (ward world.old holds.now gone.old.items) (said_view said.entry) text world.new
        gone.new.items) }
{
    if let Some(word) = word_of(world.desk(), rules, holds, gone, &said) {
        return push_refused(out, word);
    }
    if let Some(session) = leaving(&said) {
        return leave(alloc, world, session, gone, out);
    }
    if let Some(session) = coming(&said) {
        return come_back(alloc, world, session, gone, out);
    }
    answer_said(alloc, world, said, out)
}

/// Does what a line says, and what follows from it: what is held by the calls that it ended, and what is given back then.
/// It adds the answers. The error is that memory was refused, for an event or for an answer.
pub fn answer_held(
    alloc: Global,
    world: &mut World,
    rules: &[Hold],
    holds: &mut Holds,
    gone: &mut Vec<u32>,
    said: Said<'_>,
    out: &mut Vec<u8>,
) -> Result<(), AllocError>
    ensures { OnOk result ((text : List ℕ) × (out.new.items ≡ out.old.items ++ text)
        × HeldDoes (holds_of rules.now) (said_view said.entry) (ward world.old holds.old gone.old.items) text
        (ward world.new holds.new gone.new.items)) }
{
    let from = world.desk().trace().len();
    act(alloc, world, rules, holds, gone, said, out)?;
    catch_up(alloc, world, rules, from, holds)?;
    give_back(alloc, world, rules, holds, gone, out)
}
