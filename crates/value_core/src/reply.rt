//! The lines that answer.

ghost use Rattle.std.specs.Prelude.{◌≡◌, ◌++◌, OnOk, Option, codes, decimal};
ghost use Rattle.value_core.specs.Reply.{reply, fault_text, place_text};

use itoa::Buffer;
use std::alloc::AllocError;

/// Adds a word and a name as a line.
pub fn push_reply(out: &mut Vec<u8>, word: &[u8], name: &[u8]) -> Result<(), AllocError>
    ensures { OnOk result (out.new.items ≡ out.old.items ++ reply word.now name.now) }
{
    out.extend_from_slice(word)?;
    out.extend_from_slice(name)?;
    out.push(b'\n')?;
    Ok(())
}

/// Adds a word and a number.
pub fn push_number(out: &mut Vec<u8>, word: &[u8], number: u64) -> Result<(), AllocError>
    ensures { OnOk result (out.new.items ≡ out.old.items ++ (word.now ++ decimal number)) }
{
    let mut buffer = Buffer::new();
    out.extend_from_slice(word)?;
    out.extend_from_slice(buffer.format(number).as_bytes())?;
    Ok(())
}

/// Adds a word and a number as a line.
pub fn push_count(out: &mut Vec<u8>, word: &[u8], number: u64) -> Result<(), AllocError>
    ensures { OnOk result (out.new.items ≡ out.old.items ++ reply word.now (decimal number)) }
{
    push_number(out, word, number)?;
    out.push(b'\n')?;
    Ok(())
}

/// Adds where a fault is told, and a line end.
pub fn push_place(out: &mut Vec<u8>, place: Option<usize>) -> Result<(), AllocError>
    ensures { OnOk result (out.new.items ≡ out.old.items ++ place_text place) }
{
    match place {
        Some(at) => push_count(out, b" at ", at as u64),
        None => {
            out.push(b'\n')?;
            Ok(())
        }
    }
}

/// Adds the number, the name and the place of a fault, and a line end.
pub fn push_fault(
    out: &mut Vec<u8>,
    number: u8,
    name: &str,
    place: Option<usize>,
) -> Result<(), AllocError>
    ensures { OnOk result (out.new.items ≡ out.old.items ++ fault_text number name.now place) }
{
    push_number(out, b"", u64::from(number))?;
    out.push(b' ')?;
    out.extend_from_slice(name.as_bytes())?;
    push_place(out, place)?;
    Ok(())
}
