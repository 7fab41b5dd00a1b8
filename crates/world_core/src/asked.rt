//! What the lines that ask are answered.

ghost use Rattle.std.specs.Prelude.{◌≡◌, ◌++◌, ℕ, List, OnOk};
ghost use Rattle.std.specs.List.{flat_map};
ghost use Rattle.decl_core.specs.ObjectMap.{object_of};
ghost use Rattle.decl_core.specs.HoldMap.{holds_of};
ghost use Rattle.world_core.specs.Asked.{view_of, who};
ghost use Rattle.check_core.specs.HeldTold.{holds_line};
ghost use Rattle.world_core.specs.HoldAsked.{IsHeldTold};

use crate::answer::{push_answer, wait_lines};
use crate::question::Question;
use check_core::held::push_held_call;
use decl_core::hold::Hold;
use decl_core::object::Object;
use desk_core::desk::Desk;
use guest_core::held::{HeldCall, Holds};
use std::alloc::{AllocError, Global};
use stuck_core::who::push_who;

// Adds a line for each of these.
fn push_all_held(
    out: &mut Vec<u8>,
    object: &Object,
    rules: &[Hold],
    held: &[HeldCall],
) -> Result<(), AllocError>
    ensures { OnOk result (out.new.items ≡ out.old.items
        ++ flat_map (holds_line (object_of object.now) (holds_of rules.now)) held.now) }
{
    'held: for place in 0..held.len() {
        push_held_call(out, object, rules, &held[place])?;
    }
    Ok(())
}

// Adds the answer to `who`: which calls wait, and what is held.
fn answer_who(
    alloc: Global,
    desk: &Desk,
    rules: &[Hold],
    holds: &Holds,
    out: &mut Vec<u8>,
) -> Result<(), AllocError>
    ensures { OnOk result ((text : List ℕ) × (out.new.items ≡ out.old.items ++ text)
        × IsHeldTold (holds_of rules.now) holds.now desk.now who text) }
{
    let waits = wait_lines(alloc, desk)?;
    let held = holds.all();
    let object = desk.accepted().object();
    push_who(out, waits.count + held.len() as u64)?;
    out.extend_from_slice(&waits.text)?;
    push_all_held(out, object, rules, held)?;
    Ok(())
}

/// Adds the answer to a question about the calls of a desk, of which these are held. The error is that memory was refused.
pub fn answer_asked(
    alloc: Global,
    desk: &Desk,
    rules: &[Hold],
    holds: &Holds,
    question: Question,
    out: &mut Vec<u8>,
) -> Result<(), AllocError>
    ensures { OnOk result ((text : List ℕ) × (out.new.items ≡ out.old.items ++ text)
        × IsHeldTold (holds_of rules.now) holds.now desk.now (view_of question) text) }
{
    match question {
        Question::Who => {
            answer_who(alloc, desk, rules, holds, out)?;
            Ok(())
        }
        Question::Why(_) => {
            push_answer(alloc, desk, question, out)?;
            Ok(())
        }
        Question::List => {
            push_answer(alloc, desk, question, out)?;
            Ok(())
        }
    }
}
