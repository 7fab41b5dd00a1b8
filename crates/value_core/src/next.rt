//! The lines of a text that is whole.

ghost use Rattle.std.specs.Prelude.{◌≡◌, ◌<◌, ◌∷◌, [], MatchOption, IfSome, length};
ghost use Rattle.std.specs.Str.Lines.{lines};

use crate::engine::{split_line, without_cr};

/// The first line of a text, and what stands behind it; `None` where nothing is left.
pub fn next_line(text: &[u8]) -> Option<(&[u8], &[u8])>
    ensures cut { MatchOption result (lines text.now ≡ []) (λ r. lines text.now ≡ r.0.now ∷ lines r.1.now) }
    ensures shorter { IfSome result (λ r. length r.1.now < length text.now) }
{
    if text.is_empty() {
        return None;
    }
    match split_line(text) {
        Some((line, rest)) => Some((without_cr(line), rest)),
        None => Some((text, &[])),
    }
}
