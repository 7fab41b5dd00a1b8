//! The word by which a body stops, in little room.

ghost use Rattle.std.specs.Prelude.{◌≡◌, ◌≤◌, ◌++◌, length, drop};
ghost use Rattle.value_core.specs.Plain.{IsText};

use decl_core::word::MOST_LETTERS;
use std::marker::Model;
use value_core::text::Text;

/// A word of at most 16 bytes: it is copied without memory, and in less room than a text. A contract sees it as the text.
#[derive(Clone, Copy, Drop)]
pub struct StopWord {
    row: [u8; MOST_LETTERS],
    len: u8,
}

impl Model for StopWord {
    ghost use Rattle.std.specs.Prelude.{List, ℕ};
    ghost use Rattle.known_core.specs.StopWord.{word_kept, word_inside, word_again, IsKeptWord};

    ghost Value = { List ℕ };

    ghost view = { word_kept };

    ghost invariant = { IsKeptWord };

    ghost inverse = { word_inside };

    ghost inverse_ok = { word_again };
}

// Writes bytes over the front of a row.
fn write_front(row: &mut [u8], bytes: &[u8])
    requires { length bytes.now ≤ length row.old }
    ensures { row.new ≡ bytes.now ++ drop (length bytes.now) row.old }
{
    row[..bytes.len()].copy_from_slice(bytes);
}

impl StopWord {
    /// These bytes, of which there are at most 16, and which are a text.
    pub fn new(letters: &[u8]) -> StopWord
        requires text { IsText letters.now }
        requires few { length letters.now ≤ 16 }
        ensures { result ≡ letters.now }
    {
        let mut row = [0; MOST_LETTERS];
        write_front(&mut row, letters);
        StopWord {
            row,
            len: letters.len() as u8,
        }
    }

    /// The same as a text.
    pub fn text(&self) -> Text
        ensures { result ≡ self.now }
    {
        match Text::from_bytes(&self.row[..self.len as usize]) {
            Some(text) => text,
            None => unreachable!(),
        }
    }
}
