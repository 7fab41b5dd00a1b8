//! The words of a line: what stands between spaces.

ghost use Rattle.std.specs.Prelude.{◌≡◌, ◌∷◌, [], MatchOption};
ghost use Rattle.path_count.specs.Words.{words};

use value_core::words::{skip_spaces, split_at_space};

/// The first word of a line, and what stands behind it.
pub fn next_word(line: &[u8]) -> Option<(&[u8], &[u8])>
    ensures { MatchOption result (words line.now ≡ []) (λ parts. words line.now ≡ parts.0.now ∷ words parts.1.now) }
{
    let line = skip_spaces(line);
    if line.is_empty() {
        return None;
    }
    Some(split_at_space(line))
}
