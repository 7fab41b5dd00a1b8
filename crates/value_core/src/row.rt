//! Texts in memory of their own length.

ghost use Rattle.std.specs.Prelude.{◌≡◌, ◌≤◌, ◌↔◌, IsTrue, IfOk, length, vec_capacity};
ghost use Rattle.value_core.specs.Plain.{IsText};
ghost use Rattle.value_core.specs.Limits.{most_text_bytes};
ghost use Rattle.value_core.specs.TextOrder.{text_cmp};

use crate::limits::TextLength;
use crate::text::Text;
use std::alloc::{AllocError, Global};
use std::cmp::Ordering;
use std::marker::Model;

/// A text in memory of its own length. A contract sees it as the text.
#[derive(Drop)]
pub struct Row {
    bytes: Vec<u8>,
}

impl Model for Row {
    ghost use Rattle.std.specs.Prelude.{List, ℕ};
    ghost use Rattle.std.specs.Coded.{coded_list, coded_ℕ};
    ghost use Rattle.value_core.specs.Plain.{IsText};

    ghost Value = { List ℕ };

    ghost view = { λ r. r.bytes.items };

    ghost invariant = { λ r. IsText r.bytes.items };
}

impl Row {
    /// A text. The error is that memory was refused.
    pub fn new(alloc: Global, text: &Text) -> Result<Row, AllocError>
        ensures { IfOk result (λ r. r ≡ text.now) }
    {
        let bytes = text.bytes().to_vec(alloc)?;
        Ok(Row { bytes })
    }

    /// A text, in memory that was taken ahead: what it does not need is given back. It takes no memory.
    pub fn within(room: Vec<u8>, text: &Text) -> Row
        requires { most_text_bytes ≤ vec_capacity room }
        ensures { result ≡ text.now }
    {
        let mut bytes = room;
        bytes.clear();
        for byte in text.bytes() {
            bytes.push_reserved(*byte);
        }
        bytes.shrink_to_fit();
        Row { bytes }
    }

    /// A copy of the text, in memory of its own. The error is that memory was refused.
    pub fn copy(&self) -> Result<Row, AllocError>
        ensures { IfOk result (λ copy. copy ≡ self.now) }
    {
        let bytes = self.bytes.as_slice().to_vec(*self.bytes.allocator())?;
        Ok(Row { bytes })
    }

    /// The text.
    pub fn text(&self) -> Text
        ensures { result ≡ self.now }
    {
        match Text::from_bytes(&self.bytes) {
            Some(text) => text,
            None => unreachable!(),
        }
    }

    /// The number of bytes.
    pub fn len(&self) -> TextLength
        ensures { result ≡ length self.now }
    {
        self.bytes.len() as TextLength
    }

    /// Whether it is this text.
    pub fn is(&self, text: &Text) -> bool
        ensures { IsTrue result ↔ (self.now ≡ text.now) }
    {
        self.bytes.as_slice() == text.bytes()
    }

    /// Whether both are the same text.
    pub fn is_same(&self, other: &Row) -> bool
        ensures { IsTrue result ↔ (self.now ≡ other.now) }
    {
        self.bytes.as_slice() == other.bytes.as_slice()
    }

    /// Whether it comes before a text, is that text, or comes after it.
    pub fn compare(&self, text: &Text) -> Ordering
        ensures { result ≡ text_cmp self.now text.now }
    {
        self.bytes.as_slice().cmp(text.bytes())
    }

    /// Its bytes.
    pub fn bytes(&self) -> &[u8]
        ensures bytes { result.now ≡ self.now }
        ensures text { IsText self.now }
    {
        &self.bytes
    }
}

impl Clone for Row {
    ghost use Rattle.std.specs.Prelude.{◌≡◌};

    ghost is_clone = { λ row copy. copy ≡ row };

    fn clone(&self) -> Result<Row, AllocError> {
        self.copy()
    }
}
