//! The lines of a text.

ghost use Rattle.std.specs.Prelude.{◌≡◌, ◌≤◌, ◌∷◌, ◌++◌, ◌==◌, if◌then◌else◌, length, MatchOption};
ghost use Rattle.recover_core.specs.Lines.{IsLine, line_ends as ends_in};

// The first line of a text, without its end, and what stands behind its end. `None`: no line ends in it.
pub(crate) fn split_line(text: &[u8]) -> Option<(&[u8], &[u8])>
    ensures { MatchOption result (IsLine text.now) (λ parts. IsLine parts.0.now
        × (text.now ≡ parts.0.now ++ 10 ∷ parts.1.now)) }
{
    let at = text.iter().position(|b| *b == b'\n')?;
    Some((&text[..at], &text[at + 1..]))
}

/// How many lines end in a text.
pub fn line_ends(text: &[u8]) -> u64
    ensures ends { result ≡ ends_in text.now }
    ensures few { result ≤ length text.now }
{
    let mut rest = text;
    let mut count: u64 = 0;
    'bytes: while let Some((byte, more)) = rest.split_first() {
        count += ends_at(*byte);
        rest = more;
    }
    count
}

// How many lines end in a byte.
fn ends_at(byte: u8) -> u64
    ensures ends { result ≡ (if byte == 10 then 1 else 0) }
    ensures few { result ≤ 1 }
{
    if byte == b'\n' {
        return 1;
    }
    0
}
