//! What stands at the front of a line, read where it lies.

ghost use Rattle.std.specs.Prelude.{◌≡◌, ◌↔◌, [], IsTrue};
ghost use Rattle.value_core.specs.Spaces.{drop_spaces};
ghost use Rattle.word_core.specs.Data.{only_bare as only_bare_in};
ghost use Rattle.word_core.specs.Reads.{IsFront, Reads};

use value_core::words::{skip_spaces, split_at_space};

/// The first word of a line, where it stands bare, and what stands behind it.
pub fn next_bare(line: &[u8]) -> Option<(&[u8], &[u8])>
    ensures { IsFront line.now result }
{
    let line = skip_spaces(line);
    match line {
        [] => None,
        [first, ..] => {
            if *first == b'\'' {
                None
            } else {
                Some(split_at_space(line))
            }
        }
    }
}

/// Whether a line has no word.
pub fn is_blank(line: &[u8]) -> bool
    ensures { IsTrue result ↔ (drop_spaces line.now ≡ []) }
{
    skip_spaces(line).is_empty()
}

/// The one word of a line, where it stands bare.
pub fn only_bare(line: &[u8]) -> Option<&[u8]>
    ensures { Reads only_bare_in (λ b. b.now) line.now result }
{
    match next_bare(line) {
        Some((word, rest)) => {
            if !is_blank(rest) {
                return None;
            }
            Some(word)
        }
        None => None,
    }
}
