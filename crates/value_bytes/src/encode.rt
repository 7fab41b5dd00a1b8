//! The bytes of a value.

ghost use Rattle.std.specs.Prelude.{◌≡◌, ◌++◌, map, OnOk, IfOk};
ghost use Rattle.std.specs.List.{flat_map};
ghost use Rattle.std.specs.Int.{w32, to_be_bytes};
ghost use Rattle.value_core.specs.declared.datum.Datum.TheVariants as datum;
ghost use Rattle.value_core.specs.Contents.{kind_of};
ghost use Rattle.value_core.specs.Cells.{cells_data};
ghost use Rattle.value_bytes.specs.Spelling.{spelled_text, spelled_datum, header, Spells};

use crate::header::{format_byte, kind_byte};
use crate::queue::put_queue;
use crate::room::spelled_len;
use crate::rows::put_rows;
use std::alloc::{AllocError, Global};
use value_core::cells::Cells;
use value_core::format::Format;
use value_core::kind::Kind;
use value_core::limits::TextLength;
use value_core::row::Row;
use value_core::text::Text;
use value_core::value::{Body, Value};

/// The bytes that spell the value, in the second format.
pub fn encode(alloc: Global, value: &Value) -> Result<Vec<u8>, AllocError>
    ensures { IfOk result (λ bytes. Spells bytes.items (kind_of value.now) value.now) }
{
    let mut out = Vec::with_capacity(alloc, spelled_len(value))?;
    put_header(&mut out, value.kind(), value.count() as u16)?;
    match value.body() {
        Body::Array(cells) => put_cells(&mut out, cells)?,
        Body::Queue(queue) => put_queue(queue, &mut out)?,
        Body::Table(rows) => put_rows(rows, &mut out)?,
    }
    Ok(out)
}

fn put_header(out: &mut Vec<u8>, kind: Kind, count: u16) -> Result<(), AllocError>
    ensures { OnOk result (out.new.items ≡ out.old.items ++ header kind count) }
{
    out.push(format_byte(Format::Second))?;
    out.push(kind_byte(kind))?;
    out.extend_from_slice(&count.to_be_bytes())
}

// Adds the length of a text, and its bytes.
fn put_text(out: &mut Vec<u8>, text: &Text) -> Result<(), AllocError>
    ensures { OnOk result (out.new.items ≡ out.old.items ++ spelled_text text.now) }
{
    let len: TextLength = text.len();
    out.extend_from_slice(&len.to_be_bytes())?;
    out.extend_from_slice(text.bytes())
}

/// Adds the length of a text in memory of its own length, and its bytes.
pub(crate) fn put_row(out: &mut Vec<u8>, row: &Row) -> Result<(), AllocError>
    ensures { OnOk result (out.new.items ≡ out.old.items ++ spelled_text row.now) }
{
    let len: TextLength = row.len();
    out.extend_from_slice(&len.to_be_bytes())?;
    out.extend_from_slice(row.bytes())
}

/// Adds four bytes, the highest first.
pub(crate) fn put_integer(out: &mut Vec<u8>, number: u32) -> Result<(), AllocError>
    ensures { OnOk result (out.new.items ≡ out.old.items ++ to_be_bytes w32 number) }
{
    out.extend_from_slice(&number.to_be_bytes())
}

fn put_cells(out: &mut Vec<u8>, cells: &Cells) -> Result<(), AllocError>
    ensures { OnOk result (out.new.items ≡ out.old.items ++ flat_map spelled_datum (cells_data cells.now)) }
{
    match cells {
        Cells::Integers(all) => put_integers(out, all),
        Cells::Texts(all) => put_texts(out, all),
    }
}

fn put_integers(out: &mut Vec<u8>, all: &[u32]) -> Result<(), AllocError>
    ensures { OnOk result (out.new.items ≡ out.old.items ++ flat_map spelled_datum (map datum.Integer all.now)) }
{
    for place in 0..all.len() {
        put_integer(out, all[place])?;
    }
    Ok(())
}

fn put_texts(out: &mut Vec<u8>, all: &[Text]) -> Result<(), AllocError>
    ensures { OnOk result (out.new.items ≡ out.old.items ++ flat_map spelled_datum (map datum.Text all.now)) }
{
    for place in 0..all.len() {
        put_text(out, &all[place])?;
    }
    Ok(())
}
