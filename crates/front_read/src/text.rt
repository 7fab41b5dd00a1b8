//! Pieces of a text.

ghost use Rattle.std.specs.Prelude.{◌≡◌, ◌≤◌, length, [], ◌+◌, ◌++◌, ◌∷◌, ◌<◌, ◌^◌, ℕ, List, MatchOption, IsTrue, ◌↔◌};
ghost use Rattle.value_core.specs.Runs.{NoLineFeed};
ghost use Rattle.front_read.specs.Text.{begins, goes_on, goes_on_behind_parts, goes_on_with_calls, feeds_in};

/// What stands behind these bytes, where a text begins with them.
pub fn behind<'a>(text: &'a [u8], front: &[u8]) -> Option<&'a [u8]>
    ensures { MatchOption result ((rest : List ℕ) → text.now ≡ front.now ++ rest → ⊥)
        (λ rest. text.now ≡ front.now ++ rest.now) }
{
    if text.len() < front.len() {
        return None;
    }
    let (start, rest) = text.split_at(front.len());
    if is_same(start, front) {
        return Some(rest);
    }
    None
}

fn is_same(a: &[u8], b: &[u8]) -> bool
    ensures { IsTrue result ↔ (a.now ≡ b.now) }
{
    a == b
}

// Whether a text begins with these bytes.
pub(crate) fn begins_with(text: &[u8], front: &[u8]) -> bool
    ensures { result ≡ begins text.now front.now }
{
    match behind(text, front) {
        Some(_) => true,
        None => false,
    }
}

// Whether a text goes on with a line of a front.
pub(crate) fn goes_on(text: &[u8]) -> bool
    ensures { result ≡ goes_on text.now }
{
    begins_with(text, b"object ")
        || begins_with(text, b"source ")
        || begins_with(text, b"part ")
        || behind_parts(text)
}

// Whether a text goes on with a line that stands behind those of the parts.
fn behind_parts(text: &[u8]) -> bool
    ensures { result ≡ goes_on_behind_parts text.now }
{
    begins_with(text, b"past ") || begins_with(text, b"base ") || in_calls(text)
}

// Whether a text goes on with a line of a call or a client.
fn in_calls(text: &[u8]) -> bool
    ensures { result ≡ goes_on_with_calls text.now }
{
    begins_with(text, b"carried ") || begins_with(text, b"client ") || begins_with(text, b"kept ")
}

// What stands before the first line feed, and what stands after it.
fn split_line(bytes: &[u8]) -> Option<(&[u8], &[u8])>
    ensures { MatchOption result (NoLineFeed bytes.now) (λ parts. NoLineFeed parts.0.now
        × (bytes.now ≡ parts.0.now ++ 10 ∷ parts.1.now)) }
{
    let at = bytes.iter().position(|b| *b == b'\n')?;
    Some((&bytes[..at], &bytes[at + 1..]))
}

// What stands before the first line feed; all where there is none.
pub(crate) fn first_line(text: &[u8]) -> &[u8]
    ensures { (line rest : List ℕ) → NoLineFeed line → text.now ≡ line ++ 10 ∷ rest → result.now ≡ line }
{
    match split_line(text) {
        Some((line, _)) => line,
        None => text,
    }
}

// How many line feeds there are.
pub(crate) fn feeds_in(bytes: &[u8]) -> u64
    ensures count { result ≡ feeds_in bytes.now }
    ensures few { result ≤ length bytes.now }
{
    let mut count = 0;
    let mut rest = bytes;
    'bytes: while let [byte, tail @ ..] = rest {
        count = count_feed(count, *byte);
        rest = tail;
    }
    count
}

fn count_feed(count: u64, byte: u8) -> u64
    requires { count + 1 < 2 ^ 64 }
    ensures { result ≡ count + feeds_in (byte ∷ []) }
{
    if byte == b'\n' { count + 1 } else { count }
}
