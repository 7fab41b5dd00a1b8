//! Journals, with the lines of what is held and without them.

ghost use Rattle.std.specs.Prelude.{◌≡◌, ◌⊎◌, ◌++◌, ◌∷◌, ℕ, [], List, false, IfOk, IfErr, MatchOption, MatchResult, codes, drop, suc, take};
ghost use Rattle.decl_core.specs.ObjectMap.{object_of};
ghost use Rattle.value_core.specs.Runs.{NoLineFeed};
ghost use Rattle.recover_core.specs.Lines.{line_ends as line_ends_in};
ghost use Rattle.live_core.specs.Front.{Opening, opening_of};
ghost use Rattle.live_core.specs.Text.{front_text};
ghost use Rattle.front_read.specs.Fault.{IsFirstFault};
ghost use Rattle.front_read.specs.Rows.{Takes, TakesAll, row_words};
ghost use Rattle.front_read.specs.Text.{begins, goes_on};
ghost use Rattle.decl_core.specs.HoldMap.{holds_of};
ghost use Rattle.guest_core.specs.Held.{HeldCall as AHeldCall};
ghost use Rattle.front_read.specs.HeldLines.{held_text, held_words, IsHeldLine};
ghost use Rattle.recover_core.specs.HeldText.{HasHeld, IsBehind, IsHeldFault};

use crate::lines::line_ends;
use crate::read::take_held;
use decl_core::hold::Hold;
use decl_core::object::Object;
use front_read::read::read_front;
use guest_core::held::Holds;
use live_core::front::Front;
use std::alloc::{AllocError, Global};
use word_core::names::object_has_names;

/// The front of an epoch of an object with holds, and where in its journal the lines stand that tell what is held.
#[derive(Drop)]
pub struct HeldFront {
    /// The front without these lines.
    pub opening: Front,
    /// What is held, the oldest first.
    pub held: Holds,
    /// So many bytes stand in front of these lines: the other lines of the front.
    pub front: usize,
    /// So many bytes stand in front of what happened since.
    pub behind: usize,
}

/// The first line of a text, without its LF, and what stands behind that. `None`: no line ends in it.
pub(crate) fn split_line(text: &[u8]) -> Option<(&[u8], &[u8])>
    ensures { MatchOption result (NoLineFeed text.now) (λ parts. NoLineFeed parts.0.now
        × (text.now ≡ parts.0.now ++ 10 ∷ parts.1.now)) }
{
    let at = text.iter().position(|b| *b == b'\n')?;
    Some((&text[..at], &text[at + 1..]))
}

// Whether a text begins with these bytes.
fn begins_with(text: &[u8], front: &[u8]) -> bool
    ensures { result ≡ begins text.now front.now }
{
    match front {
        [] => true,
        [byte, front @ ..] => match text {
            [] => false,
            [other, text @ ..] => *other == *byte && begins_with(text, front),
        },
    }
}

// Takes the call of the first line of a text, and gives what stands behind that.
fn take_line<'a>(
    alloc: Global,
    object: &Object,
    holds: &[Hold],
    text: &'a [u8],
    all: &mut Holds,
) -> Result<Option<&'a [u8]>, AllocError>
    ensures { IfOk result (λ found. Takes (IsHeldLine (object_of object.now) (holds_of holds.now)) (row_words (codes "held")
        (held_words (object_of object.now) (holds_of holds.now))) text.now all.old found all.new) }
{
    object_has_names(object);
    match split_line(text) {
        None => Ok(None),
        Some((line, more)) => {
            let taken = take_held(alloc, object, holds, line, all)?;
            if taken {
                return Ok(Some(more));
            }
            Ok(None)
        }
    }
}

// Takes the lines of what is held, and gives what stands behind them; or what stands from the first on that is no such
// line.
fn take_lines<'a>(
    alloc: Global,
    object: &Object,
    holds: &[Hold],
    text: &'a [u8],
    all: &mut Holds,
) -> Result<Result<&'a [u8], &'a [u8]>, AllocError>
    requires { all.old ≡ [] }
    ensures { IfOk result (λ found. TakesAll (IsHeldLine (object_of object.now) (holds_of holds.now)) (codes "held")
        (held_words (object_of object.now) (holds_of holds.now)) text.now found all.new) }
{
    let mut rest = text;
    'lines: while begins_with(rest, b"held ") {
        match take_line(alloc, object, holds, rest, all)? {
            Some(behind) => {
                rest = behind;
            }
            None => return Ok(Err(rest)),
        }
    }
    Ok(Ok(rest))
}

// What stands before a place of a text, and from there on.
fn before(text: &[u8], place: usize) -> &[u8]
    ensures { result.now ≡ take place text.now }
{
    if place >= text.len() {
        return text;
    }
    let (front, _) = text.split_at(place);
    front
}

pub(crate) fn from(text: &[u8], place: usize) -> &[u8]
    ensures { result.now ≡ drop place text.now }
{
    if place >= text.len() {
        return &[];
    }
    let (_, rest) = text.split_at(place);
    rest
}

// The number of the line, from 1, with which a rest of a text begins.
fn line_before(text: &[u8], rest: &[u8]) -> u64
    ensures { (front : List ℕ) → text.now ≡ front ++ rest.now → result ≡ suc (line_ends_in front) }
{
    line_ends(before(text, text.len().saturating_sub(rest.len()))).saturating_add(1)
}

// The lines of what is held, behind so many bytes of a front.
fn held_behind(
    alloc: Global,
    object: &Object,
    holds: &[Hold],
    opening: Front,
    front: usize,
    text: &[u8],
) -> Result<Result<HeldFront, u64>, AllocError>
    ensures { IfOk result (IsBehind (object_of object.now) (holds_of holds.now) opening front text.now) }
{
    let mut held = Holds::new(alloc);
    match take_lines(alloc, object, holds, from(text, front), &mut held)? {
        Ok(rest) => {
            let behind = text.len().saturating_sub(rest.len());
            Ok(Ok(HeldFront {
                opening,
                held,
                front,
                behind,
            }))
        }
        Err(rest) => Ok(Err(line_before(text, rest))),
    }
}

/// The front of an epoch of an object with holds at the beginning of a journal, with what is held; or the number of the
/// first line, from 1, at which no front goes on.
///
/// Behind the lines that `front_read` reads stand those of what is held, each spelled as `lines` spells it; they end before
/// the first line that does not begin with `held` and a space. The error is that memory was refused.
pub fn read_held(
    alloc: Global,
    object: &Object,
    holds: &[Hold],
    text: &[u8],
) -> Result<Result<HeldFront, u64>, AllocError>
    // What is told stands there.
    ensures told { IfOk result (λ found. IfOk found (λ c. HasHeld (object_of object.now) (holds_of holds.now) text.now
        (opening_of c.opening) c.held (drop c.behind text.now)
        × (take c.front text.now ≡ front_text (object_of object.now) (opening_of c.opening)))) }
    // What stands there is told.
    ensures found { (f : Opening) (held : List AHeldCall) (behind : List ℕ) →
        HasHeld (object_of object.now) (holds_of holds.now) text.now f held behind →
        goes_on (held_text (object_of object.now) (holds_of holds.now) held ++ behind) ≡ false →
        IfOk result (λ found. MatchResult found (λ c. (opening_of c.opening ≡ f) × (c.held ≡ held)
        × (take c.front text.now ≡ front_text (object_of object.now) f) × (drop c.behind text.now ≡ behind)) (λ _. ⊥)) }
    // A fault is told of the first line at which no front goes on.
    ensures fault { IfOk result (λ found. IfErr found (λ line. IsFirstFault (object_of object.now) text.now line
        ⊎ IsHeldFault (object_of object.now) (holds_of holds.now) text.now line)) }
{
    object_has_names(object);
    match read_front(alloc, object, text)? {
        Err(line) => Ok(Err(line)),
        Ok((opening, front)) => {
            let found = held_behind(alloc, object, holds, opening, front, text)?;
            Ok(found)
        }
    }
}

/// A journal without the lines that tell what is held: that of an object without holds. The error is that memory was
/// refused.
pub fn cut_held(alloc: Global, text: &[u8], read: &HeldFront) -> Result<Vec<u8>, AllocError>
    ensures { IfOk result (λ v. v.items ≡ take read.now.front text.now ++ drop read.now.behind text.now) }
{
    let front = before(text, read.front);
    let behind = from(text, read.behind);
    let mut cut = Vec::with_capacity(alloc, front.len().saturating_add(behind.len()))?;
    cut.extend_from_slice(front)?;
    cut.extend_from_slice(behind)?;
    Ok(cut)
}
