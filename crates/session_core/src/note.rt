//! Notes of the last lines that were written: the number and the reply of each.

ghost use Rattle.std.specs.Prelude.{◌≡◌, ◌++◌, ◌∷◌, [], OnOk, OnErr};
ghost use Rattle.session_core.specs.Notes.{note_at};

use apply_core::reply::Reply;
use apply_core::short::Short;
use std::alloc::{AllocError, Global};
use value_core::limits::MOST_TEXT_BYTES;

/// The number and the reply of a last line.
#[derive(Drop)]
pub struct ReplyNote {
    /// The number of the call.
    pub number: u64,
    /// Its reply.
    pub reply: Short,
}

/// Notes the last line of a call that has a receipt. A reply that needs memory takes what is spare. The error is that
/// memory was refused, or none was spare; nothing is noted then.
pub fn add_note(
    alloc: Global,
    notes: &mut Vec<ReplyNote>,
    spare: &mut Vec<u8>,
    number: u64,
    reply: &Reply,
) -> Result<(), AllocError>
    ensures ok { OnOk result (notes.new.items ≡ notes.old.items ++ note_at number reply.now ∷ []) }
    ensures err { OnErr result (notes.new.items ≡ notes.old.items) }
{
    if spare.capacity() < MOST_TEXT_BYTES {
        return Err(AllocError);
    }
    let reply = Short::within(alloc, spare, reply);
    let Ok(()) = notes.push(ReplyNote { number, reply }) else {
        return Err(AllocError);
    };
    Ok(())
}
