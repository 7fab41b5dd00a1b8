//! The format that line 1 of a file tells.

ghost use Rattle.std.specs.Prelude.{◌≡◌, ◌<◌, ◌^◌, ◌++◌, ◌∷◌, [], List, ℕ, true, codes, decimal, IfOk, OnOk, MatchOption};
ghost use Rattle.keep_loop.specs.Taken.{begins_with, Names, Spells, SpellsNone, spelled};
ghost use Rattle.taken_core.specs.TakeFile.{Tests};

use keep_loop::check_lines::{begins_with, push_check_size, size_in};
use keep_loop::head::{FORMAT_WORD, head_of};
use std::alloc::{AllocError, Global};

// A word and a number, as they are spelled, and a space.
fn spell(expected: &mut Vec<u8>, word: &[u8], size: u64) -> Result<(), AllocError>
    ensures { OnOk result (expected.new.items ≡ (word.now ++ decimal size) ++ 32 ∷ []) }
{
    expected.clear();
    expected.extend_from_slice(word)?;
    push_check_size(expected, size)?;
    Ok(expected.push(b' ')?)
}

// Whether a text begins with a word and this number, as they are spelled, and a space.
fn is_spelled(
    expected: &mut Vec<u8>,
    word: &[u8],
    text: &[u8],
    size: u64,
) -> Result<bool, AllocError>
    ensures bits { size < 2 ^ 64 }
    ensures spelled { IfOk result (λ is. Tests is ((more : List ℕ) × (text.now ≡ spelled word.now size more))) }
{
    spell(expected, word, size)?;
    if begins_with(expected, text) {
        return Ok(true);
    }
    Ok(false)
}

/// The number that a text has behind a word, spelled as it is written, up to a space. `expected` is for the spelling. The error
/// is that memory was refused.
pub fn read_size(
    expected: &mut Vec<u8>,
    word: &[u8],
    text: &[u8],
) -> Result<Option<u64>, AllocError>
    ensures { IfOk result (λ found. MatchOption found
        ((size : ℕ) (more : List ℕ) → size < 2 ^ 64 → text.now ≡ spelled word.now size more → ⊥)
        (λ size. (size < 2 ^ 64) × (more : List ℕ) × (text.now ≡ spelled word.now size more))) }
{
    match size_in(word, text) {
        Some(size) => {
            if is_spelled(expected, word, text, size)? {
                return Ok(Some(size));
            }
            Ok(None)
        }
        None => Ok(None),
    }
}

// The format that is spelled in these bytes, which begin with its word. `None`: it is spelled wrongly.
fn read_format(alloc: Global, rest: &[u8]) -> Result<Option<u64>, AllocError>
    requires { begins_with (codes "format ") rest.now ≡ true }
    ensures { IfOk result (λ found. MatchOption found (SpellsNone rest.now) (Spells rest.now)) }
{
    let mut expected = Vec::new(alloc);
    match read_size(&mut expected, FORMAT_WORD, rest)? {
        Some(format) => {
            if format < 2 {
                return Ok(None);
            }
            Ok(Some(format))
        }
        None => Ok(None),
    }
}

// The format that these bytes tell, which stand behind the object: 1 where they tell none. `None`: it is spelled wrongly.
fn format_in(alloc: Global, rest: &[u8]) -> Result<Option<u64>, AllocError>
    ensures { IfOk result (λ found. MatchOption found (SpellsNone rest.now) (Spells rest.now)) }
{
    if begins_with(FORMAT_WORD, rest) {
        return read_format(alloc, rest);
    }
    Ok(Some(1))
}

/// The format that a text tells behind the name of its object: 1 where it tells none. `None`: it does not name one, or its
/// format is spelled wrongly. The error is that memory was refused.
pub fn format_of(alloc: Global, text: &[u8]) -> Result<Option<u64>, AllocError>
    ensures { IfOk result (λ found. MatchOption found ((rest : List ℕ) → Names text.now rest → SpellsNone rest)
        (λ format. (rest : List ℕ) × Names text.now rest × Spells rest format)) }
{
    match head_of(text) {
        Some((_, rest)) => format_in(alloc, rest),
        None => Ok(None),
    }
}
