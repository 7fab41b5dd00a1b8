//! Spaces, and what stands between them.

ghost use Rattle.std.specs.Prelude.{◌≡◌, ◌++◌};
ghost use Rattle.std.specs.Str.{bytes_eq};
ghost use Rattle.value_core.specs.Spaces.{drop_spaces, NoSpace, EndsWord};

/// The line from its first byte that is no space.
pub fn skip_spaces(line: &[u8]) -> &[u8]
    ensures { result.now ≡ drop_spaces line.now }
{
    let mut rest = line;
    'spaces: while let [b' ', tail @ ..] = rest {
        rest = tail;
    }
    rest
}

/// What stands before the first space, and from it on.
pub fn split_at_space(bytes: &[u8]) -> (&[u8], &[u8])
    ensures clear { NoSpace result.0.now }
    ensures ends { EndsWord result.1.now }
    ensures cut { bytes.now ≡ result.0.now ++ result.1.now }
{
    match bytes.iter().position(|b| *b == b' ') {
        Some(at) => bytes.split_at(at),
        None => (bytes, &[]),
    }
}

/// Whether two words are the same, byte by byte.
pub fn is_same_word(first: &[u8], second: &[u8]) -> bool
    ensures { result ≡ bytes_eq first.now second.now }
{
    first == second
}
