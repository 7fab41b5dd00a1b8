//! Words that are the same.

ghost use Rattle.std.specs.Prelude.{◌≡◌};
ghost use Rattle.std.specs.Str.{bytes_eq};

/// Whether two words are the same, byte by byte: for short ones, which most lines begin with.
pub(crate) fn is_same_word(first: &[u8], second: &[u8]) -> bool
    ensures { result ≡ bytes_eq first.now second.now }
{
    match (first, second) {
        ([], []) => true,
        ([a, first @ ..], [b, second @ ..]) => *a == *b && is_same_word(first, second),
        _ => false,
    }
}
