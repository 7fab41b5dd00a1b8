//! Texts, in a fixed row.

ghost use Rattle.std.specs.Prelude.{◌≡◌, ◌+◌, ◌≤◌, [], ◌++◌, List, ℕ, length, drop, IfSome, IfNone, ◌↔◌, IsTrue};
ghost use Rattle.value_core.specs.Plain.{IsPlain, IsText};

use crate::limits::{MOST_TEXT_BYTES, TextLength};
use std::cmp::Ordering;
use std::fmt;
use std::marker::Model;

/// A text of at most 1,000 bytes from 32 to 126, in a row of its own: it is copied without memory.
/// Texts are ordered by their bytes, a prefix before the longer text.
#[derive(Clone, Copy, Drop)]
pub struct Text {
    row: [u8; MOST_TEXT_BYTES],
    len: TextLength,
}

impl Model for Text {
    ghost use Rattle.std.specs.Prelude.{List, ℕ};
    ghost use Rattle.std.specs.Coded.{coded_list, coded_ℕ};

    ghost Value = { List ℕ };

    ghost use Rattle.value_core.specs.Text.{text_of, IsKept, inside_of, text_again};

    ghost view = { text_of };

    ghost invariant = { IsKept };

    ghost inverse = { inside_of };

    ghost inverse_ok = { text_again };
}

impl Text {
    /// The text without a byte.
    pub fn empty() -> Text
        ensures empty { result ≡ [] }
        ensures text { IsText [] }
    {
        Text {
            row: [0; MOST_TEXT_BYTES],
            len: 0,
        }
    }

    /// The text of these bytes, or `None` where they are over 1,000 or one of them is outside 32 to 126.
    pub fn from_bytes(bytes: &[u8]) -> Option<Text>
        ensures some { IfSome result (λ t. (t ≡ bytes.now) × IsText bytes.now) }
        ensures none { IfNone result (IsText bytes.now → ⊥) }
    {
        if bytes.len() > MOST_TEXT_BYTES || !bytes.iter().all(|b| is_plain(*b)) {
            return None;
        }
        let mut row = [0; MOST_TEXT_BYTES];
        write_front(&mut row, bytes);
        Some(Text {
            row,
            len: bytes.len() as TextLength,
        })
    }

    /// The number of bytes, from 0 to 1,000.
    pub fn len(&self) -> TextLength
        ensures { result ≡ length self.now }
    {
        self.len
    }

    /// Whether the text has no byte.
    pub fn is_empty(&self) -> bool
        ensures { IsTrue result ↔ (self.now ≡ []) }
    {
        self.bytes().is_empty()
    }

    /// Whether both have the same bytes.
    pub fn is_same(&self, other: &Text) -> bool
        ensures { IsTrue result ↔ (self.now ≡ other.now) }
    {
        self.bytes() == other.bytes()
    }

    /// The bytes.
    pub fn bytes(&self) -> &[u8]
        ensures bytes { result.now ≡ self.now }
        ensures text { IsText self.now }
    {
        &self.row[..self.len as usize]
    }
}

// Whether a text may have this byte.
fn is_plain(byte: u8) -> bool
    ensures { IsTrue result ↔ IsPlain byte }
{
    matches!(byte, 32..=126)
}

// Writes bytes over the front of a row.
fn write_front(row: &mut [u8], bytes: &[u8])
    requires { length bytes.now ≤ length row.old }
    ensures { row.new ≡ bytes.now ++ drop (length bytes.now) row.old }
{
    row[..bytes.len()].copy_from_slice(bytes);
}

impl fmt::Debug for Text {
    fn fmt<W: fmt::Write>(&self, f: &mut fmt::Formatter<W>) -> fmt::Result {
        self.bytes().fmt(f)
    }
}

impl PartialEq for Text {
    ghost use Rattle.std.specs.Prelude.{◌==◌};
    ghost use Rattle.std.proofs.Common.{rules};
    ghost use Rattle.std.specs.Cmp.Rules.{comparing};
    ghost use Rattle.value_core.specs.TextOrder.{text_eq};

    ghost eq = { text_eq };

    ghost laws = { Prim.search (comparing, rules) };

    fn eq(&self, other: &Text) -> bool {
        self.bytes() == other.bytes()
    }
}

impl Eq for Text {
    ghost use Rattle.std.proofs.Common.{rules};
    ghost use Rattle.std.specs.Cmp.Rules.{comparing};

    ghost laws = { Prim.search (comparing, rules) };
}

impl PartialOrd for Text {
    ghost use Rattle.std.proofs.Common.{rules};
    ghost use Rattle.std.specs.Cmp.Rules.{comparing};
    ghost use Rattle.std.specs.Cmp.{partial_order_from_own_ties};
    ghost use Rattle.std.specs.Ordering.{as_partial_cmp};
    ghost use Rattle.value_core.specs.TextOrder.{text_cmp};

    ghost partial_cmp = { as_partial_cmp text_cmp };

    ghost laws = { partial_order_from_own_ties (Prim.search (comparing, rules)) (Prim.search (comparing, rules)) };

    fn partial_cmp(&self, other: &Text) -> Option<Ordering> {
        Some(self.cmp(other))
    }
}

impl Ord for Text {
    ghost use Rattle.std.proofs.Common.{rules};
    ghost use Rattle.std.specs.Cmp.Rules.{comparing};
    ghost use Rattle.value_core.specs.TextOrder.{text_cmp};

    ghost cmp = { text_cmp };

    ghost total = { Prim.search (comparing, rules) };

    ghost matches_partial_cmp = { Prim.search (comparing, rules) };

    ghost matches_eq = { Prim.search (comparing, rules) };

    fn cmp(&self, other: &Text) -> Ordering {
        self.bytes().cmp(other.bytes())
    }
}
