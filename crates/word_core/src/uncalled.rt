//! Public calls that no program makes: they are there for laws and tests, off the path of a call.

ghost use Rattle.std.specs.Prelude.{◌≡◌, ◌++◌, OnOk};
ghost use Rattle.word_core.specs.View.{word_of};
ghost use Rattle.word_core.specs.Words.{word_text};

use crate::print::push_text;
use crate::word::Word;
use std::alloc::AllocError;

/// Adds a word as it was read.
pub fn push_word(out: &mut Vec<u8>, word: &Word) -> Result<(), AllocError>
    ensures { OnOk result (out.new.items ≡ out.old.items ++ word_text (word_of word.now)) }
{
    match word {
        Word::Bare(bytes) => out.extend_from_slice(bytes),
        Word::Quoted(text) => push_text(out, text),
    }
}
