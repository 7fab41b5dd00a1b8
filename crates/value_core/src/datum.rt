//! What stands at a place of a value.

ghost use Rattle.std.specs.Prelude.{◌≡◌, ◌↔◌, IsTrue};
ghost use Rattle.value_core.specs.Datum.{elem_of, IsDatum};

use crate::kind::Elem;
use crate::text::Text;

/// An integer or a text. It is copied without memory.
#[derive(Clone, Copy, Debug, PartialEq, Eq)]
pub enum Datum {
    /// An integer from 0 to 4294967295.
    Integer(u32),
    /// A text of at most 1,000 bytes from 32 to 126.
    Text(Text),
}

impl Datum {
    /// Whether it is an integer or a text.
    pub fn elem(&self) -> Elem
        ensures elem { result ≡ elem_of self.now }
        ensures datum { IsDatum self.now }
    {
        match self {
            Datum::Integer(n) => {
                // Read for its type alone: it is an integer of 64 bits.
                let _number = *n;
                Elem::Integer
            }
            Datum::Text(text) => {
                // Called for its contract alone: its bytes are those of a text.
                let _bytes = text.bytes();
                Elem::Text
            }
        }
    }

    /// Whether both are the same integer or the same text.
    pub fn is_same(&self, other: &Datum) -> bool
        ensures { IsTrue result ↔ (self.now ≡ other.now) }
    {
        match (self, other) {
            (Datum::Integer(first), Datum::Integer(second)) => *first == *second,
            (Datum::Text(first), Datum::Text(second)) => first.is_same(second),
            _ => false,
        }
    }
}
