//! What is called for sessions that are gone.

ghost use Rattle.std.specs.Prelude.{◌≡◌, ◌++◌, ◌↔◌, ◌<◌, ℕ, List, IfOk, OnOk, IsTrue, Some, length, slice_get};
ghost use Rattle.decl_core.specs.ObjectForm.{OperationForm};
ghost use Rattle.decl_core.specs.ObjectMap.{object_of};
ghost use Rattle.decl_core.specs.HoldMap.{holds_of};
ghost use Rattle.world_core.specs.HoldDoes.{GivesBack, GiveBack, IsSession, Tries};

use crate::script::answer::answer_said;
use crate::world::World;
use decl_core::hold::Hold;
use decl_core::object::Object;
use guest_core::held::{Holds, undo_of};
use path_tree::name::Name;
use path_tree::node::OpId;
use std::alloc::{AllocError, Global};
use value_core::datum::Datum;
use word_core::said::Said;

// Sessions have these numbers.
const MOST_SESSIONS: u32 = 1_024;

/// Whether there is a session of this number.
pub fn is_session(session: u32) -> bool
    ensures { IsTrue result ↔ IsSession session }
{
    1 <= session && session <= MOST_SESSIONS
}

// Tries a call in the name of a session, and adds its lines where it is made.
fn try_call(
    alloc: Global,
    world: &mut World,
    session: u32,
    op: &str,
    arguments: &[Datum],
    out: &mut Vec<u8>,
) -> Result<(), AllocError>
    requires { IsSession session }
    ensures { OnOk result ((text : List ℕ) × (out.new.items ≡ out.old.items ++ text)
        × Tries session op.now arguments.now world.old text world.new) }
{
    let key = world.desk().next_key(session);
    let arguments = arguments.to_vec(alloc)?;
    let mut said = Vec::new(alloc);
    answer_said(alloc, world, Said::Call(session, op, arguments), &mut said)?;
    if world.desk().next_key(session) != key {
        out.extend_from_slice(&said)?;
    }
    Ok(())
}

// An operation's name as text.
fn text_of(name: &Name) -> &str
    ensures { result.now ≡ name.now }
{
    match str::from_utf8(name.as_bytes()) {
        Ok(text) => text,
        Err(_) => unreachable!(),
    }
}

// The name of the operation at this place.
fn name_at(alloc: Global, object: &Object, op: OpId) -> Result<Name, AllocError>
    requires { op < length object.now.operations.items }
    ensures { IfOk result (λ name. (form : OperationForm) →
        slice_get (object_of object.now).operations op ≡ Some form → name ≡ form.name) }
{
    object.operations[op as usize].name.copy(alloc)
}

// Gives back the newest that a session holds, if it holds something.
fn give_one(
    alloc: Global,
    world: &mut World,
    rules: &[Hold],
    holds: &Holds,
    session: u32,
    out: &mut Vec<u8>,
) -> Result<(), AllocError>
    ensures { OnOk result ((text : List ℕ) × (out.new.items ≡ out.old.items ++ text)
        × GivesBack (holds_of rules.now) holds.now session world.old text world.new) }
{
    if !is_session(session) {
        return Ok(());
    }
    let Some(held) = holds.newest(session) else {
        return Ok(());
    };
    let object = world.desk().accepted().object();
    let Some((op, arguments)) = undo_of(object, rules, held) else {
        return Ok(());
    };
    let name = name_at(alloc, object, op)?;
    try_call(alloc, world, session, text_of(&name), arguments, out)
}

/// Calls for each of these sessions what gives back the newest that it holds, and adds the lines of the calls that are
/// made. The error is that memory was refused.
pub fn give_back(
    alloc: Global,
    world: &mut World,
    rules: &[Hold],
    holds: &Holds,
    gone: &[u32],
    out: &mut Vec<u8>,
) -> Result<(), AllocError>
    ensures { OnOk result ((text : List ℕ) × (out.new.items ≡ out.old.items ++ text)
        × GiveBack (holds_of rules.now) holds.now world.old gone.now text world.new) }
{
    'sessions: for place in 0..gone.len() {
        give_one(alloc, world, rules, holds, gone[place], out)?;
    }
    Ok(())
}
