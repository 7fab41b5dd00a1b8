//! Lines as they are written, with one space between two words.

ghost use Rattle.std.specs.Prelude.{◌≡◌, ◌++◌, ◌∷◌, [], OnOk, map};
ghost use Rattle.word_core.specs.Words.{behind_word, words_text, line_of};
ghost use Rattle.word_core.specs.Data.{datum_word};
ghost use Rattle.word_core.specs.View.{written_word};

use crate::print::{push_datum, push_written};
use crate::word::Written;
use std::alloc::AllocError;
use value_core::datum::Datum;

/// Adds words.
pub fn push_words(out: &mut Vec<u8>, words: &[Written]) -> Result<(), AllocError>
    ensures { OnOk result (out.new.items ≡ out.old.items ++ words_text (map written_word words.now)) }
{
    match words {
        [] => Ok(()),
        [first, more @ ..] => {
            push_written(out, first)?;
            push_more(out, more)
        }
    }
}

/// Adds words behind others.
pub fn push_more(out: &mut Vec<u8>, words: &[Written]) -> Result<(), AllocError>
    ensures { OnOk result (out.new.items ≡ out.old.items ++ behind_word (map written_word words.now)) }
{
    for word in words {
        push_behind(out, word)?;
    }
    Ok(())
}

fn push_behind(out: &mut Vec<u8>, word: &Written) -> Result<(), AllocError>
    ensures { OnOk result (out.new.items ≡ out.old.items ++ behind_word (written_word word.now ∷ [])) }
{
    out.push(b' ')?;
    push_written(out, word)
}

/// Adds words, and the end of the line.
pub fn push_line(out: &mut Vec<u8>, words: &[Written]) -> Result<(), AllocError>
    ensures { OnOk result (out.new.items ≡ out.old.items ++ line_of (map written_word words.now)) }
{
    push_words(out, words)?;
    out.push(b'\n')?;
    Ok(())
}

/// Adds integers and texts.
pub fn push_data(out: &mut Vec<u8>, elements: &[Datum]) -> Result<(), AllocError>
    ensures { OnOk result (out.new.items ≡ out.old.items ++ words_text (map datum_word elements.now)) }
{
    match elements {
        [] => Ok(()),
        [first, more @ ..] => {
            push_datum(out, first)?;
            push_more_data(out, more)
        }
    }
}

/// Adds integers and texts behind other words.
pub fn push_more_data(out: &mut Vec<u8>, elements: &[Datum]) -> Result<(), AllocError>
    ensures { OnOk result (out.new.items ≡ out.old.items ++ behind_word (map datum_word elements.now)) }
{
    for datum in elements {
        push_behind(out, &Written::Datum(datum))?;
    }
    Ok(())
}

/// Adds words, integers and texts behind them, and the end of the line.
pub fn push_data_line(
    out: &mut Vec<u8>,
    words: &[Written],
    elements: &[Datum],
) -> Result<(), AllocError>
    ensures { OnOk result (out.new.items ≡ out.old.items
        ++ line_of (map written_word words.now ++ map datum_word elements.now)) }
{
    push_both(out, words, elements)?;
    out.push(b'\n')?;
    Ok(())
}

// Adds words, and integers and texts behind them.
fn push_both(out: &mut Vec<u8>, words: &[Written], elements: &[Datum]) -> Result<(), AllocError>
    ensures { OnOk result (out.new.items ≡ out.old.items
        ++ words_text (map written_word words.now ++ map datum_word elements.now)) }
{
    if words.is_empty() {
        return push_data(out, elements);
    }
    push_words(out, words)?;
    push_more_data(out, elements)?;
    Ok(())
}
