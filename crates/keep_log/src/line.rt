//! What a line is made of.

ghost use Rattle.std.specs.Prelude.{◌≡◌, ◌<◌, ◌++◌, ◌∷◌, [], OnOk};
ghost use Rattle.keep_log.specs.Lines.{escaped, escapes, field_head, field_text, head, hex, json_event, json_moment, level_text, line_end, quoted, text_head};
ghost use Rattle.keep_log.specs.Lines.Field.{number as a_number, word as a_word};

use crate::moment::push_moment;
use jiff_core::civil::DateTime;
use std::alloc::AllocError;
use value_core::reply::push_number;

/// How a log is written.
#[derive(Clone, Copy, Debug, PartialEq, Eq)]
pub enum LineForm {
    /// `TIME LEVEL EVENT KEY=VALUE ..`, for people.
    Text,
    /// An object of JSON a line, for machines.
    Json,
}

/// How much a line matters.
#[derive(Clone, Copy, Debug, PartialEq, Eq)]
pub enum Level {
    /// It goes as it should.
    Info,
    /// Somebody should look at it; it goes on.
    Warn,
    /// It does not go on.
    Error,
}

// Adds a digit of a hexadecimal number below 16.
fn push_hex(out: &mut Vec<u8>, number: u8) -> Result<(), AllocError>
    requires { number < 16 }
    ensures { OnOk result (out.new.items ≡ out.old.items ++ (hex number ∷ [])) }
{
    if number < 10 {
        out.push(b'0' + number)?;
        return Ok(());
    }
    out.push(b'a' - 10 + number)?;
    Ok(())
}

// Adds a byte of a word.
fn push_byte(out: &mut Vec<u8>, byte: u8) -> Result<(), AllocError>
    ensures { OnOk result (out.new.items ≡ out.old.items ++ escaped byte) }
{
    if byte == b'"' {
        return out.extend_from_slice(b"\\\"");
    }
    if byte == b'\\' {
        return out.extend_from_slice(b"\\\\");
    }
    if byte < b' ' {
        out.extend_from_slice(b"\\u00")?;
        push_hex(out, byte / 16)?;
        return push_hex(out, byte % 16);
    }
    out.push(byte)?;
    Ok(())
}

// Adds the bytes of a word.
fn push_bytes(out: &mut Vec<u8>, bytes: &[u8]) -> Result<(), AllocError>
    ensures { OnOk result (out.new.items ≡ out.old.items ++ escapes bytes.now) }
{
    for byte in bytes {
        push_byte(out, *byte)?;
    }
    Ok(())
}

// Adds a word between quotes, as JSON has it.
fn push_quoted(out: &mut Vec<u8>, bytes: &[u8]) -> Result<(), AllocError>
    ensures { OnOk result (out.new.items ≡ out.old.items ++ quoted bytes.now) }
{
    out.push(b'"')?;
    push_bytes(out, bytes)?;
    out.push(b'"')?;
    Ok(())
}

// Adds how much a line matters.
fn push_level(out: &mut Vec<u8>, form: LineForm, level: Level) -> Result<(), AllocError>
    ensures { OnOk result (out.new.items ≡ out.old.items ++ level_text form level) }
{
    let text: &[u8] = match (form, level) {
        (LineForm::Text, Level::Info) => b"INFO",
        (LineForm::Text, Level::Warn) => b"WARN",
        (LineForm::Text, Level::Error) => b"ERROR",
        (LineForm::Json, Level::Info) => b"info",
        (LineForm::Json, Level::Warn) => b"warn",
        (LineForm::Json, Level::Error) => b"error",
    };
    out.extend_from_slice(text)
}

// Adds the beginning of a line for people.
fn push_text_head(
    out: &mut Vec<u8>,
    moment: DateTime,
    level: Level,
    event: &[u8],
) -> Result<(), AllocError>
    ensures { OnOk result (out.new.items ≡ out.old.items ++ text_head moment level event.now) }
{
    push_moment(out, moment)?;
    out.push(b' ')?;
    push_level(out, LineForm::Text, level)?;
    out.push(b' ')?;
    out.extend_from_slice(event)
}

// Adds the moment of a line for machines.
fn push_json_moment(out: &mut Vec<u8>, moment: DateTime) -> Result<(), AllocError>
    ensures { OnOk result (out.new.items ≡ out.old.items ++ json_moment moment) }
{
    out.extend_from_slice(b"{\"time\":\"")?;
    push_moment(out, moment)?;
    out.extend_from_slice(b"\",\"level\":\"")?;
    Ok(())
}

// Adds how much a line for machines matters, and its event.
fn push_json_event(out: &mut Vec<u8>, level: Level, event: &[u8]) -> Result<(), AllocError>
    ensures { OnOk result (out.new.items ≡ out.old.items ++ json_event level event.now) }
{
    push_level(out, LineForm::Json, level)?;
    out.extend_from_slice(b"\",\"event\":")?;
    push_quoted(out, event)
}

/// Adds the beginning of a line: the moment, how much it matters, and the event.
pub fn push_head(
    out: &mut Vec<u8>,
    form: LineForm,
    moment: DateTime,
    level: Level,
    event: &[u8],
) -> Result<(), AllocError>
    ensures { OnOk result (out.new.items ≡ out.old.items ++ head form moment level event.now) }
{
    match form {
        LineForm::Text => push_text_head(out, moment, level, event),
        LineForm::Json => {
            push_json_moment(out, moment)?;
            push_json_event(out, level, event)
        }
    }
}

// Adds the name of what is told, and what stands before its value.
fn push_name(out: &mut Vec<u8>, form: LineForm, name: &[u8]) -> Result<(), AllocError>
    ensures { OnOk result (out.new.items ≡ out.old.items ++ field_head form name.now) }
{
    match form {
        LineForm::Text => {
            out.push(b' ')?;
            out.extend_from_slice(name)?;
            out.push(b'=')?;
        }
        LineForm::Json => {
            out.push(b',')?;
            push_quoted(out, name)?;
            out.push(b':')?;
        }
    }
    Ok(())
}

/// Adds a number that is told, by this name.
pub fn push_count(
    out: &mut Vec<u8>,
    form: LineForm,
    name: &[u8],
    number: u64,
) -> Result<(), AllocError>
    ensures { OnOk result (out.new.items ≡ out.old.items ++ field_text form (a_number name.now number)) }
{
    push_name(out, form, name)?;
    push_number(out, b"", number)
}

/// Adds a word that is told, by this name.
pub fn push_word(
    out: &mut Vec<u8>,
    form: LineForm,
    name: &[u8],
    word: &[u8],
) -> Result<(), AllocError>
    ensures { OnOk result (out.new.items ≡ out.old.items ++ field_text form (a_word name.now word.now)) }
{
    push_name(out, form, name)?;
    push_quoted(out, word)
}

/// Adds the end of a line.
pub fn push_end(out: &mut Vec<u8>, form: LineForm) -> Result<(), AllocError>
    ensures { OnOk result (out.new.items ≡ out.old.items ++ line_end form) }
{
    match form {
        LineForm::Text => out.push(b'\n')?,
        LineForm::Json => out.extend_from_slice(b"}\n")?,
    }
    Ok(())
}
