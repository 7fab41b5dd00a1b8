//! The words by which a body refuses.

ghost use Rattle.std.specs.Prelude.{◌≡◌, ◌↔◌, IsTrue, IfOk, MatchOption};
ghost use Rattle.decl_core.specs.RefusalWord.{IsRefusalWord, IsLower};

use std::alloc::{AllocError, Global};
use std::marker::Model;

/// The most letters of a word by which a body refuses.
pub const MOST_LETTERS: usize = 16;

/// A word by which a body refuses: 1 to 16 lower-case letters.
#[derive(Debug, Drop)]
pub struct RefusalWord {
    letters: Vec<u8>,
}

impl Model for RefusalWord {
    ghost use Rattle.std.specs.Prelude.{List, ℕ};
    ghost use Rattle.decl_core.specs.RefusalWord.{IsRefusalWord};

    ghost Value = { List ℕ };

    ghost view = { λ a. a.letters.items };

    ghost invariant = { λ a. IsRefusalWord a.letters.items };
}

impl RefusalWord {
    /// The word of these bytes, or `None` where they are not 1 to 16 lower-case letters.
    pub fn read(alloc: Global, bytes: &[u8]) -> Result<Option<RefusalWord>, AllocError>
        ensures { IfOk result (λ found. MatchOption found (IsRefusalWord bytes.now → ⊥)
            (λ word. IsRefusalWord bytes.now × (word ≡ bytes.now))) }
    {
        if !is_refusal_word(bytes) {
            return Ok(None);
        }
        let letters = bytes.to_vec(alloc)?;
        Ok(Some(RefusalWord { letters }))
    }

    /// Its letters.
    pub fn letters(&self) -> &[u8]
        ensures letters { result.now ≡ self.now }
        ensures word { IsRefusalWord self.now }
    {
        &self.letters
    }
}

/// Whether a byte is a lower-case letter.
fn is_lower(byte: u8) -> bool
    ensures { IsTrue result ↔ IsLower byte }
{
    matches!(byte, b'a'..=b'z')
}

/// Whether these bytes are 1 to 16 lower-case letters.
pub fn is_refusal_word(bytes: &[u8]) -> bool
    ensures { IsTrue result ↔ IsRefusalWord bytes.now }
{
    !bytes.is_empty() && bytes.len() <= MOST_LETTERS && bytes.iter().all(|b| is_lower(*b))
}
