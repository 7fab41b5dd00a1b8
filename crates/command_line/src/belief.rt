//! What a start believes by its command line: the values of `--accept-cut`, `NAME:N`, and of `--known`, `NAME,NAME ..`.

ghost use Rattle.std.specs.Prelude.{◌≡◌, ◌++◌, ◌∷◌, IfOk, IfSome, MatchOption, None, map};
ghost use Rattle.command_line.specs.Forms.{IsNumber, number_of};
ghost use Rattle.command_line.specs.Belief.{AreNames, HasNoComma, SaysCut};
ghost use Rattle.command_line.specs.declared.belief.AcceptedCut.{AcceptedCut as ACut};

use crate::help;
use std::alloc::{AllocError, Global};

/// That of the journal of an object all is taken up to a line, whatever stands behind it.
#[derive(Clone, Copy, Debug)]
pub struct AcceptedCut<'a> {
    /// The name of the object.
    pub object: &'a str,
    /// The line, 1 to 4294967295.
    pub line: u32,
}

/// What a value of `--accept-cut` should be.
pub const CUT_MEANS: &str = help::CUT_IS;

// The line, if a word is a number that may say it.
fn line_in(word: &str) -> Option<u32>
    ensures some { IfSome result (λ n. IsNumber 1 4294967295 word.now × (n ≡ number_of word.now)) }
    ensures none { result ≡ None → IsNumber 1 4294967295 word.now → ⊥ }
{
    match word.parse::<u32>() {
        Ok(line) if line > 0 => Some(line),
        _ => None,
    }
}

/// What this word says, if it is a value of `--accept-cut`.
pub fn cut_in<'a>(word: &'a str) -> Option<AcceptedCut<'a>>
    ensures some { IfSome result (λ c. SaysCut word.now c) }
    ensures none { result ≡ None → (c : ACut) → SaysCut word.now c → ⊥ }
{
    let Some((object, number)) = word.split_once(':') else {
        return None;
    };
    match line_in(number) {
        Some(line) => Some(AcceptedCut { object, line }),
        None => None,
    }
}

// What stands before the first comma, and behind it. `None`: there is no comma.
fn split_comma(text: &[u8]) -> Option<(&[u8], &[u8])>
    ensures { MatchOption result (HasNoComma text.now) (λ parts. HasNoComma parts.0.now
        × (text.now ≡ parts.0.now ++ 44 ∷ parts.1.now)) }
{
    let at = text.iter().position(|b| *b == b',')?;
    Some((&text[..at], &text[at + 1..]))
}

/// The names in a value of `--known`, in order: what stands between its commas. The error is that memory was refused.
pub fn names_in<'a>(alloc: Global, word: &'a [u8]) -> Result<Vec<&'a [u8]>, AllocError>
    ensures { IfOk result (λ names. AreNames word.now (map (λ n. n.now) names.items)) }
{
    let mut names = Vec::new(alloc);
    let mut left = word;
    'names: while let Some((name, rest)) = split_comma(left) {
        names.push(name)?;
        left = rest;
    }
    names.push(left)?;
    Ok(names)
}
