//! Values as they are shown.

ghost use Rattle.std.specs.Prelude.{◌≡◌, ◌++◌, ◌∷◌, [], OnOk};
ghost use Rattle.value_core.specs.Contents.{elements_of, rows_of};
ghost use Rattle.word_core.specs.Show.{data_text, row_text, behind_row, rows_text, value_text};

use crate::line::push_data;
use crate::print::{push_datum, push_text};
use std::alloc::{AllocError, Global};
use value_core::datum::Datum;
use value_core::kind::Kind;
use value_core::text::Text;
use value_core::value::Value;

/// Adds a value: an array as `[1 2]`, a queue as `<1 2>`, its oldest element first, a table as `{'a': 1, 'b': 2}`, keys
/// rising.
pub fn push_value(alloc: Global, out: &mut Vec<u8>, value: &Value) -> Result<(), AllocError>
    ensures { OnOk result (out.new.items ≡ out.old.items ++ value_text value.now) }
{
    match value.kind() {
        Kind::Array(_, _) => push_elements(alloc, out, value, b'[', b']'),
        Kind::Queue(_) => push_elements(alloc, out, value, b'<', b'>'),
        Kind::Table(_) => push_table(alloc, out, value),
    }
}

// Adds the elements of a value between two marks.
fn push_elements(
    alloc: Global,
    out: &mut Vec<u8>,
    value: &Value,
    open_mark: u8,
    close_mark: u8,
) -> Result<(), AllocError>
    ensures { OnOk result (out.new.items ≡ out.old.items
        ++ (open_mark ∷ [] ++ data_text (elements_of value.now) ++ close_mark ∷ [])) }
{
    let elements = value.elements(alloc)?;
    out.push(open_mark)?;
    push_data(out, &elements)?;
    out.push(close_mark)?;
    Ok(())
}

// Adds the rows of a table.
fn push_table(alloc: Global, out: &mut Vec<u8>, value: &Value) -> Result<(), AllocError>
    ensures { OnOk result (out.new.items ≡ out.old.items ++ (123 ∷ [] ++ rows_text (rows_of value.now) ++ 125 ∷ [])) }
{
    let rows = value.rows(alloc)?;
    out.push(b'{')?;
    push_rows(out, &rows)?;
    out.push(b'}')?;
    Ok(())
}

// Adds rows with a comma and a space between two.
fn push_rows(out: &mut Vec<u8>, rows: &[(Text, Datum)]) -> Result<(), AllocError>
    ensures { OnOk result (out.new.items ≡ out.old.items ++ rows_text rows.now) }
{
    match rows {
        [] => Ok(()),
        [first, more @ ..] => {
            push_row(out, first)?;
            push_other_rows(out, more)
        }
    }
}

// Adds rows behind others.
fn push_other_rows(out: &mut Vec<u8>, rows: &[(Text, Datum)]) -> Result<(), AllocError>
    ensures { OnOk result (out.new.items ≡ out.old.items ++ behind_row rows.now) }
{
    for row in rows {
        push_row_behind(out, row)?;
    }
    Ok(())
}

fn push_row_behind(out: &mut Vec<u8>, row: &(Text, Datum)) -> Result<(), AllocError>
    ensures { OnOk result (out.new.items ≡ out.old.items ++ behind_row (row.now ∷ [])) }
{
    out.extend_from_slice(b", ")?;
    push_row(out, row)
}

fn push_row(out: &mut Vec<u8>, row: &(Text, Datum)) -> Result<(), AllocError>
    ensures { OnOk result (out.new.items ≡ out.old.items ++ row_text row.now) }
{
    push_text(out, &row.0)?;
    out.extend_from_slice(b": ")?;
    push_datum(out, &row.1)
}
