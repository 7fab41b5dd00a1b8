//! The changes of a body, as what takes them back.

ghost use Rattle.std.specs.Prelude.{◌≡◌, ℕ};
ghost use Rattle.known_core.specs.Log.{step_back, taken_back};

use decl_core::id::PartId;
use value_core::undo::Undo;
use value_core::value::Value;

// Takes one change of a part back.
fn undo_one(step: (PartId, Undo), parts: &mut Vec<Value>)
    ensures { parts.new.items ≡ step_back step parts.old.items }
{
    let (part, undo) = step;
    if (part.place() as usize) < parts.len() {
        parts[part.place() as usize].take_back(undo);
    }
}

// Takes all changes back, the last one first. It takes no memory.
#[tactic(auto, using(crate::proofs::Undoing::none_left))]
pub(crate) fn undo_all(log: Vec<(PartId, Undo)>, parts: &mut Vec<Value>)
    ensures { parts.new.items ≡ taken_back log.items parts.old.items }
{
    let mut log = log;
    for _ in 0..log.len() {
        match log.pop() {
            Some(step) => undo_one(step, parts),
            None => return,
        }
    }
}
