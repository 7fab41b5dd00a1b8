//! Starts and finishes of operations, and what they are told.

ghost use Rattle.std.specs.Prelude.{◌≡◌, ◌++◌, ◌<◌, ℕ, List, OnOk};
ghost use Rattle.path_tree.specs.Path.{Path};
ghost use Rattle.path_tree.specs.Trace.{Event};
ghost use Rattle.path_count.specs.Stands.{StandsFor};
ghost use Rattle.path_count.specs.Calls.{StartAnswer, FinishAnswer};

use crate::counters::Counters;
use path_tree::node::OpId;
use std::alloc::AllocError;
use value_core::reply::push_reply;

/// Starts an operation of this name, if it may start, and tells.
pub fn start_operation(
    counters: &mut Counters,
    op: OpId,
    name: &[u8],
    out: &mut Vec<u8>,
) -> Result<(), AllocError>
    ensures { OnOk result ((text : List ℕ) × (out.new.items ≡ out.old.items ++ text)
        × ((n : ℕ) (paths : List Path) (t : List Event) → StandsFor counters.old n paths t → op < n →
        (after : List Event) × StandsFor counters.new n paths after × StartAnswer paths t op name.now text after)) }
{
    if counters.start(op) {
        push_reply(out, b"started ", name)?;
        return Ok(());
    }
    if counters.spent() {
        push_reply(out, b"spent", b"")?;
        return Ok(());
    }
    push_reply(out, b"blocked ", name)?;
    Ok(())
}

/// Finishes an operation of this name, if it runs, and tells.
pub fn finish_operation(
    counters: &mut Counters,
    op: OpId,
    name: &[u8],
    out: &mut Vec<u8>,
) -> Result<(), AllocError>
    ensures { OnOk result ((text : List ℕ) × (out.new.items ≡ out.old.items ++ text)
        × ((n : ℕ) (paths : List Path) (t : List Event) → StandsFor counters.old n paths t → op < n →
        (after : List Event) × StandsFor counters.new n paths after × FinishAnswer t op name.now text after)) }
{
    if counters.finish(op) {
        push_reply(out, b"finished ", name)?;
        return Ok(());
    }
    push_reply(out, b"not running ", name)?;
    Ok(())
}
