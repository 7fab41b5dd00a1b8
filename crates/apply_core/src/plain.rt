//! Whether bytes are a text. Eight at a time are looked at.

ghost use Rattle.std.specs.Prelude.{◌≡◌, ◌∷◌, ◌↔◌, ◌&&◌, [], All, IsTrue};
ghost use Rattle.value_core.specs.Plain.{IsPlain, IsText};

use value_core::limits::MOST_TEXT_BYTES;

// Whether a text may have this byte.
fn is_plain(byte: u8) -> bool
    ensures { IsTrue result ↔ IsPlain byte }
{
    matches!(byte, 32..=126)
}

// Whether both hold. (Both are looked at, so that no test waits for the other one.)
fn both(x: bool, y: bool) -> bool
    ensures { result ≡ (x && y) }
{
    x & y
}

// Whether a text may have these two bytes; these four; these eight.
fn are_plain_two(a: u8, b: u8) -> bool
    ensures { IsTrue result ↔ All IsPlain (a ∷ b ∷ []) }
{
    both(is_plain(a), is_plain(b))
}

fn are_plain_four(a: u8, b: u8, c: u8, d: u8) -> bool
    ensures { IsTrue result ↔ All IsPlain (a ∷ b ∷ c ∷ d ∷ []) }
{
    both(are_plain_two(a, b), are_plain_two(c, d))
}

fn are_plain_eight(a: u8, b: u8, c: u8, d: u8, e: u8, f: u8, g: u8, h: u8) -> bool
    ensures { IsTrue result ↔ All IsPlain (a ∷ b ∷ c ∷ d ∷ e ∷ f ∷ g ∷ h ∷ []) }
{
    both(are_plain_four(a, b, c, d), are_plain_four(e, f, g, h))
}

// Whether a text may have each of these bytes, looked at one by one.
fn are_plain_by_one(bytes: &[u8]) -> bool
    ensures { IsTrue result ↔ All IsPlain bytes.now }
{
    bytes.iter().all(|b| is_plain(*b))
}

// The same, eight by eight.
fn are_plain(bytes: &[u8]) -> bool
    ensures { IsTrue result ↔ All IsPlain bytes.now }
{
    let mut rest = bytes;
    'eights: while let [a, b, c, d, e, f, g, h, behind @ ..] = rest {
        if !are_plain_eight(*a, *b, *c, *d, *e, *f, *g, *h) {
            return false;
        }
        rest = behind;
    }
    are_plain_by_one(rest)
}

/// Whether these bytes are a text.
pub fn is_text(bytes: &[u8]) -> bool
    ensures { IsTrue result ↔ IsText bytes.now }
{
    bytes.len() <= MOST_TEXT_BYTES && are_plain(bytes)
}
