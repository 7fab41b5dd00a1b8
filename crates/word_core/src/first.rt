//! The first line of a script, which names its object.

ghost use Rattle.std.specs.Prelude.{ℕ, List, [], ◌∷◌, MatchOption};
ghost use Rattle.word_core.specs.Words.{Word as LineWord, bare, IsFirst, AreWords};
ghost use Rattle.word_core.specs.First.{IsObjectLine, IsFirstObject};

use crate::next::{Next, next_word};
use crate::word::Word;
use path_tree::name::is_identifier;
use value_core::next_line;
use value_core::words::{is_same_word, skip_spaces};

// The first word of a line, where it stands bare, and what stands behind it.
fn first_bare(line: &[u8]) -> Option<(&[u8], &[u8])>
    ensures { MatchOption result ((word : List ℕ) (more : List LineWord) → AreWords line.now (bare word ∷ more) → ⊥)
        (λ r. IsFirst line.now (bare r.0.now) r.1.now) }
{
    match next_word(line) {
        Next::Found(Word::Bare(word), rest) => Some((word, rest)),
        Next::Found(Word::Quoted(_), _) => None,
        Next::Nothing => None,
        Next::Bad => None,
    }
}

/// The one word of a line, where it has no other one, and that stands bare; else `None`.
pub fn one_bare(line: &[u8]) -> Option<&[u8]>
    ensures { MatchOption result ((word : List ℕ) → AreWords line.now (bare word ∷ []) → ⊥)
        (λ r. AreWords line.now (bare r.now ∷ [])) }
{
    let (word, rest) = first_bare(line)?;
    if skip_spaces(rest).is_empty() {
        return Some(word);
    }
    None
}

/// The name in a line `object NAME`, as it is written, or `None` where the line is none. The name is an identifier.
pub fn object_line(line: &[u8]) -> Option<&[u8]>
    ensures { MatchOption result ((name : List ℕ) → IsObjectLine line.now name → ⊥)
        (λ name. IsObjectLine line.now name.now) }
{
    let (verb, rest) = first_bare(line)?;
    if !is_same_word(verb, b"object") {
        return None;
    }
    let name = one_bare(rest)?;
    if !is_identifier(name) {
        return None;
    }
    Some(name)
}

/// The name in the first line of a text, where that is `object NAME`; else `None`.
pub fn first_object(bytes: &[u8]) -> Option<&[u8]>
    ensures { MatchOption result ((name : List ℕ) → IsFirstObject bytes.now name → ⊥)
        (λ name. IsFirstObject bytes.now name.now) }
{
    let (line, _) = next_line(bytes)?;
    object_line(line)
}
