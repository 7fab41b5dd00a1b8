//! Bytes of a value with a change in them: they are made in one piece of memory, and what stays is copied as it is.

ghost use Rattle.std.specs.Int.{w16, w32, to_be_bytes};
ghost use Rattle.std.specs.Prelude.{◌≡◌, ◌++◌, ◌∷◌, OnOk, IfOk};
ghost use Rattle.value_bytes.specs.Spelling.{code_of, spelled_text, spelled_datum, spelled_row, header};

use std::alloc::{AllocError, Global};
use value_core::datum::Datum;
use value_core::kind::{Elem, Kind};
use value_core::limits::TextLength;
use value_core::text::Text;

/// The first byte of a value.
pub const NUMBER: u8 = 2;

/// The bytes before the entries: the format, the kind, and the number of entries.
const HEADER_BYTES: usize = 4;

/// The byte of a kind.
pub fn code(kind: Kind) -> u8
    ensures { result ≡ code_of kind }
{
    match kind {
        Kind::Array(_, Elem::Integer) => 1,
        Kind::Array(_, Elem::Text) => 2,
        Kind::Queue(Elem::Integer) => 3,
        Kind::Queue(Elem::Text) => 4,
        Kind::Table(Elem::Integer) => 5,
        Kind::Table(Elem::Text) => 6,
    }
}

fn put_header(out: &mut Vec<u8>, kind: Kind, count: u16) -> Result<(), AllocError>
    ensures { OnOk result (out.new.items ≡ out.old.items ++ header kind count) }
{
    out.push(NUMBER)?;
    out.push(code(kind))?;
    out.extend_from_slice(&count.to_be_bytes())
}

fn put_text(out: &mut Vec<u8>, text: &Text) -> Result<(), AllocError>
    ensures { OnOk result (out.new.items ≡ out.old.items ++ spelled_text text.now) }
{
    let len: TextLength = text.len();
    out.extend_from_slice(&len.to_be_bytes())?;
    out.extend_from_slice(text.bytes())
}

fn put_integer(out: &mut Vec<u8>, number: u32) -> Result<(), AllocError>
    ensures { OnOk result (out.new.items ≡ out.old.items ++ to_be_bytes w32 number) }
{
    out.extend_from_slice(&number.to_be_bytes())
}

fn put_datum(out: &mut Vec<u8>, datum: &Datum) -> Result<(), AllocError>
    ensures { OnOk result (out.new.items ≡ out.old.items ++ spelled_datum datum.now) }
{
    match datum {
        Datum::Integer(number) => put_integer(out, *number),
        Datum::Text(text) => put_text(out, text),
    }
}

fn put_row(out: &mut Vec<u8>, key: &Text, datum: &Datum) -> Result<(), AllocError>
    ensures { OnOk result (out.new.items ≡ out.old.items ++ spelled_row (key.now, datum.now)) }
{
    put_text(out, key)?;
    put_datum(out, datum)
}

// How many bytes spell a text.
fn text_len(text: &Text) -> usize {
    2_usize.saturating_add(text.len() as usize)
}

// How many bytes spell an element.
fn datum_len(datum: &Datum) -> usize {
    match datum {
        Datum::Integer(_) => 4,
        Datum::Text(text) => text_len(text),
    }
}

// The header and the bytes before a place, with room for more.
fn begun(
    alloc: Global,
    kind: Kind,
    count: u16,
    front: &[u8],
    more: usize,
) -> Result<Vec<u8>, AllocError>
    ensures { IfOk result (λ out. out.items ≡ header kind count ++ front.now) }
{
    let mut out = Vec::with_capacity(
        alloc,
        HEADER_BYTES
            .saturating_add(front.len())
            .saturating_add(more),
    )?;
    put_header(&mut out, kind, count)?;
    out.extend_from_slice(front)?;
    Ok(out)
}

/// The bytes of a value of so many entries: those before a place, and those behind it.
pub fn joined(
    alloc: Global,
    kind: Kind,
    count: u16,
    front: &[u8],
    rest: &[u8],
) -> Result<Vec<u8>, AllocError>
    ensures { IfOk result (λ out. out.items ≡ (header kind count ++ front.now) ++ rest.now) }
{
    let mut out = begun(alloc, kind, count, front, rest.len())?;
    out.extend_from_slice(rest)?;
    Ok(out)
}

/// The bytes of a value of so many entries: those before a place, an element, and those behind it.
pub fn with_datum(
    alloc: Global,
    kind: Kind,
    count: u16,
    front: &[u8],
    datum: &Datum,
    rest: &[u8],
) -> Result<Vec<u8>, AllocError>
    ensures { IfOk result (λ out. out.items ≡ ((header kind count ++ front.now) ++ spelled_datum datum.now) ++ rest.now) }
{
    let mut out = begun(
        alloc,
        kind,
        count,
        front,
        datum_len(datum).saturating_add(rest.len()),
    )?;
    put_datum(&mut out, datum)?;
    out.extend_from_slice(rest)?;
    Ok(out)
}

/// The bytes of a table of so many rows: those before a place, a row, and those behind it.
pub fn with_row(
    alloc: Global,
    kind: Kind,
    count: u16,
    front: &[u8],
    key: &Text,
    datum: &Datum,
    rest: &[u8],
) -> Result<Vec<u8>, AllocError>
    ensures { IfOk result (λ out.
        out.items ≡ ((header kind count ++ front.now) ++ spelled_row (key.now, datum.now)) ++ rest.now) }
{
    let more = text_len(key)
        .saturating_add(datum_len(datum))
        .saturating_add(rest.len());
    let mut out = begun(alloc, kind, count, front, more)?;
    put_row(&mut out, key, datum)?;
    out.extend_from_slice(rest)?;
    Ok(out)
}

/// As `with_row`, in the place of another row.
pub fn over_row(
    alloc: Global,
    kind: Kind,
    count: u16,
    front: &[u8],
    key: &Text,
    datum: &Datum,
    rest: &[u8],
) -> Result<Vec<u8>, AllocError>
    ensures { IfOk result (λ out.
        out.items ≡ ((header kind count ++ front.now) ++ spelled_row (key.now, datum.now)) ++ rest.now) }
{
    with_row(alloc, kind, count, front, key, datum, rest)
}
