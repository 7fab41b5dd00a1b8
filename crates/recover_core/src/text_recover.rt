//! A kept object, from the text of its journal.

ghost use Rattle.std.specs.Prelude.{◌≡◌, ◌≤◌, IfOk, MatchResult, length, take};
ghost use Rattle.decl_core.specs.ObjectMap.{object_of};
ghost use Rattle.live_core.specs.Front.{opening_of, HasRows};
ghost use Rattle.live_core.specs.Text.{front_text};
ghost use Rattle.keep_loop.specs.Journal.{recovered, whole as whole_of};
ghost use Rattle.recover_core.specs.Text.{IsRead, IsRecovered, Refuses};

use crate::lines::line_ends;
use crate::recover::{FrontSize, House, RecoverFault, Recovered, recover_behind};
use decl_core::object::Object;
use front_read::read::read_front;
use keep_loop::journal::recovered_len;
use live_core::front::Front;
use std::alloc::{AllocError, Global};

// The whole lines of a file, before its first byte 0.
pub(crate) fn whole(file: &[u8]) -> &[u8]
    ensures text { result.now ≡ recovered file.now }
    ensures ended { whole_of result.now ≡ result.now }
{
    &file[..recovered_len(file)]
}

// What the epoch of an object came to whose text begins with this front, of so many bytes.
pub(crate) fn recover_front(
    alloc: Global,
    object: &Object,
    house: House,
    front: Front,
    bytes: usize,
    text: &[u8],
) -> Result<Result<Recovered, RecoverFault>, AllocError>
    requires within { bytes ≤ length text.now }
    requires told { take bytes text.now ≡ front_text (object_of object.now) (opening_of front) }
    requires rows { HasRows (object_of object.now) (opening_of front) }
    requires ended { whole_of text.now ≡ text.now }
    ensures { IfOk result (λ found. MatchResult found
        (IsRead (object_of object.now) house text.now (opening_of front))
        (Refuses (object_of object.now) house text.now)) }
{
    let (before, behind) = text.split_at(bytes);
    let size = FrontSize {
        lines: line_ends(before),
        bytes,
    };
    recover_behind(alloc, object, house, front, size, behind)
}

/// What the epoch of an object came to whose journal has this text, or begins with it: up to its first byte 0, and there
/// up to its last whole line. A call that started in the last line, and whose end is not there, never was.
///
/// The errors are those of [`RecoverFault`], in their order; the outer error is that memory was refused.
pub fn recover(
    alloc: Global,
    object: &Object,
    house: House,
    text: &[u8],
) -> Result<Result<Recovered, RecoverFault>, AllocError>
    ensures { IfOk result (λ found. MatchResult found
        (IsRecovered (object_of object.now) house (recovered text.now))
        (Refuses (object_of object.now) house (recovered text.now))) }
{
    let text = whole(text);
    match read_front(alloc, object, text)? {
        Err(line) => Ok(Err(RecoverFault::Front(line))),
        Ok((front, bytes)) => recover_front(alloc, object, house, front, bytes, text),
    }
}
