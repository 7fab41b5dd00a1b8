//! Words as they are written.

ghost use Rattle.std.specs.Prelude.{◌≡◌, ◌++◌, ◌∷◌, [], OnOk, decimal};
ghost use Rattle.word_core.specs.Words.{word_text, doubled, quoted};
ghost use Rattle.word_core.specs.Data.{datum_word, session_word};
ghost use Rattle.word_core.specs.View.{written_word};

use crate::word::Written;
use std::alloc::AllocError;
use value_core::datum::Datum;
use value_core::reply::push_number;
use value_core::text::Text;

// Adds a byte, an apostrophe twice.
fn push_byte(out: &mut Vec<u8>, byte: u8) -> Result<(), AllocError>
    ensures { OnOk result (out.new.items ≡ out.old.items ++ doubled (byte ∷ [])) }
{
    if byte == b'\'' {
        return out.extend_from_slice(b"''");
    }
    out.push(byte)?;
    Ok(())
}

// Adds bytes, each apostrophe doubled.
fn push_doubled(out: &mut Vec<u8>, bytes: &[u8]) -> Result<(), AllocError>
    ensures { OnOk result (out.new.items ≡ out.old.items ++ doubled bytes.now) }
{
    for byte in bytes {
        push_byte(out, *byte)?;
    }
    Ok(())
}

/// Adds a text between apostrophes.
pub fn push_text(out: &mut Vec<u8>, text: &Text) -> Result<(), AllocError>
    ensures { OnOk result (out.new.items ≡ out.old.items ++ word_text (quoted text.now)) }
{
    out.push(b'\'')?;
    push_doubled(out, text.bytes())?;
    out.push(b'\'')?;
    Ok(())
}

/// Adds an integer, without leading zeros.
pub fn push_integer(out: &mut Vec<u8>, number: u64) -> Result<(), AllocError>
    ensures { OnOk result (out.new.items ≡ out.old.items ++ decimal number) }
{
    push_number(out, b"", number)
}

/// Adds an integer or a text.
pub fn push_datum(out: &mut Vec<u8>, datum: &Datum) -> Result<(), AllocError>
    ensures { OnOk result (out.new.items ≡ out.old.items ++ word_text (datum_word datum.now)) }
{
    match datum {
        Datum::Integer(number) => push_integer(out, u64::from(*number)),
        Datum::Text(text) => push_text(out, text),
    }
}

// Adds the name of a session.
fn push_session(out: &mut Vec<u8>, number: u64) -> Result<(), AllocError>
    ensures { OnOk result (out.new.items ≡ out.old.items ++ word_text (session_word number)) }
{
    out.push(b's')?;
    push_integer(out, number)
}

/// Adds a word.
pub fn push_written(out: &mut Vec<u8>, word: &Written) -> Result<(), AllocError>
    ensures { OnOk result (out.new.items ≡ out.old.items ++ word_text (written_word word.now)) }
{
    match word {
        Written::Bare(bytes) => out.extend_from_slice(bytes),
        Written::Integer(number) => push_integer(out, *number),
        Written::Session(number) => push_session(out, *number),
        Written::Datum(datum) => push_datum(out, datum),
    }
}
