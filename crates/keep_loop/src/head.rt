//! Line 1 of a journal: `object NAME`, in a file its format, and what else it says.

ghost use Rattle.std.specs.Prelude.{◌≡◌, ◌≢◌, ◌++◌, ◌∷◌, [], List, ℕ, true, drop, IfOk, MatchOption};
ghost use Rattle.keep_loop.specs.Journal.{whole, AreLines};
ghost use Rattle.keep_loop.specs.Taken.{cut, has_check, Names, IsWord, named, IsFront, ArePlain, format_words, with_form, without_form};

use crate::check_lines::{begins_with, behind_word, is_check, split_space};
use crate::cut::{cut_first, split_line};
use crate::journal::{recovered_are_lines, recovered_len};
use std::alloc::{AllocError, Global};

/// The form of the files that are written.
pub const FORMAT: u64 = 2;

const OBJECT_WORD: &[u8] = b"object ";

/// What stands before the format.
pub const FORMAT_WORD: &[u8] = b"format ";

const FORMAT_WORDS: &[u8] = b"format 2 ";

/// The name of the object of a text, and what stands behind it and its space. `None`: the text does not begin with
/// `object`, a word in the same line, and a space.
pub fn head_of(text: &[u8]) -> Option<(&[u8], &[u8])>
    ensures { MatchOption result ((rest : List ℕ) → Names text.now rest → ⊥) (λ parts. (names : Names text.now parts.1.now)
        × (names.word ≡ parts.0.now)) }
{
    match behind_word(OBJECT_WORD, text) {
        Some(tail) => word_of(tail),
        None => None,
    }
}

// The word at the beginning of a text, and what stands behind it and its space. `None`: there is none, or a line ends in it.
fn word_of(text: &[u8]) -> Option<(&[u8], &[u8])>
    ensures { MatchOption result ((word rest : List ℕ) → IsWord word → word ≢ [] → text.now ≡ word ++ 32 ∷ rest → ⊥)
        (λ parts. IsWord parts.0.now × (parts.0.now ≢ []) × (text.now ≡ parts.0.now ++ 32 ∷ parts.1.now)) }
{
    match split_space(text) {
        Some((word, rest)) => match split_line(word) {
            Some(_) => None,
            None => {
                if word.is_empty() {
                    return None;
                }
                Some((word, rest))
            }
        },
        None => None,
    }
}

// A text that begins with the name of an object, and goes on with these bytes.
fn named(alloc: Global, word: &[u8], rest: &[u8]) -> Result<Vec<u8>, AllocError>
    ensures { IfOk result (λ text. text.items ≡ named word.now rest.now) }
{
    let mut text = OBJECT_WORD.to_vec(alloc)?;
    text.extend_from_slice(word)?;
    text.push(b' ')?;
    text.extend_from_slice(rest)?;
    Ok(text)
}

// The words of the form, and what stands behind them.
fn behind_form(alloc: Global, rest: &[u8]) -> Result<Vec<u8>, AllocError>
    ensures { IfOk result (λ text. text.items ≡ format_words ++ rest.now) }
{
    let mut text = FORMAT_WORDS.to_vec(alloc)?;
    text.extend_from_slice(rest)?;
    Ok(text)
}

/// A front whose line 1 tells the form.
pub fn with_form(alloc: Global, front: &[u8]) -> Result<Vec<u8>, AllocError>
    requires { IsFront front.now }
    ensures { IfOk result (λ file. file.items ≡ with_form 2 front.now) }
{
    match head_of(front) {
        Some((word, rest)) => {
            let behind = behind_form(alloc, rest)?;
            named(alloc, word, &behind)
        }
        None => Ok(Vec::new(alloc)),
    }
}

// A text without its first nine bytes.
fn behind_nine(text: &[u8]) -> &[u8]
    ensures { result.now ≡ drop 9 text.now }
{
    if text.len() < 9 {
        return &[];
    }
    &text[9..]
}

// Two words with their spaces, and what stands behind them.
fn joined(alloc: Global, first: &[u8], second: &[u8], rest: &[u8]) -> Result<Vec<u8>, AllocError>
    ensures { IfOk result (λ text. text.items ≡ (((first.now ++ 32 ∷ []) ++ second.now) ++ 32 ∷ []) ++ rest.now) }
{
    let mut text = first.to_vec(alloc)?;
    text.push(b' ')?;
    text.extend_from_slice(second)?;
    text.push(b' ')?;
    text.extend_from_slice(rest)?;
    Ok(text)
}

/// A text whose line 1 tells the form, without the words that tell it.
pub fn without_form(alloc: Global, text: &[u8]) -> Result<Vec<u8>, AllocError>
    ensures { IfOk result (λ lines. lines.items ≡ without_form 2 text.now) }
{
    match split_space(text) {
        Some((first, rest)) => match split_space(rest) {
            Some((second, more)) => joined(alloc, first, second, behind_nine(more)),
            None => Ok(text.to_vec(alloc)?),
        },
        None => Ok(text.to_vec(alloc)?),
    }
}

// Whether these bytes are whole lines, none of which has a byte 0.
fn are_lines(bytes: &[u8]) -> bool
    ensures { result ≡ true → AreLines bytes.now }
{
    recovered_are_lines();
    recovered_len(bytes) == bytes.len()
}

// Whether one of the whole lines of a text is a check line.
#[tactic(auto, using(crate::proofs::Taking::check_first, crate::proofs::Taking::check_none))]
fn has_check(text: &[u8]) -> bool
    ensures { result ≡ has_check (cut (whole text.now)) }
{
    let mut rest = text;
    while let Some((line, more)) = cut_first(rest) {
        if is_check(line) {
            return true;
        }
        rest = more;
    }
    false
}

/// Whether lines can be added to a journal: they are whole, no byte is 0, and none begins with `front ` or `stored `.
pub fn are_plain(bytes: &[u8]) -> bool
    ensures { result ≡ true → ArePlain bytes.now }
{
    if are_lines(bytes) {
        if has_check(bytes) {
            return false;
        }
        return true;
    }
    false
}

/// Whether a journal can begin with these lines: they can be added, and the first one names the object, without a format.
pub fn is_front(front: &[u8]) -> bool
    ensures { result ≡ true → IsFront front.now }
{
    match head_of(front) {
        Some((_, rest)) => {
            if begins_with(FORMAT_WORD, rest) {
                return false;
            }
            are_plain(front)
        }
        None => false,
    }
}
