//! The bytes of the rows of a table, keys rising.

ghost use Rattle.std.specs.Prelude.{◌≡◌, ◌++◌, OnOk};
ghost use Rattle.std.specs.FinMap as map;
ghost use Rattle.std.specs.List.{flat_map};
ghost use Rattle.value_core.specs.declared.datum.Datum.TheVariants as datum;
ghost use Rattle.value_core.specs.Rows.{as_data, rows_map};
ghost use Rattle.value_bytes.specs.Spelling.{spelled_row};

use crate::encode::{put_integer, put_row};
use std::alloc::AllocError;
use value_core::row::Row;
use value_core::rows::Rows;

/// Adds the bytes of the rows, keys rising.
pub fn put_rows(rows: &Rows, out: &mut Vec<u8>) -> Result<(), AllocError>
    ensures { OnOk result (out.new.items
        ≡ out.old.items ++ flat_map spelled_row (map.entries (rows_map rows.now))) }
{
    match rows {
        Rows::Integers(all) => put_integers(all.rows(), out),
        Rows::Texts(all) => put_texts(all.rows(), out),
    }
}

fn put_integers(all: &[(Row, u32)], out: &mut Vec<u8>) -> Result<(), AllocError>
    ensures { OnOk result (out.new.items ≡ out.old.items ++ flat_map spelled_row (as_data datum.Integer all.now)) }
{
    for place in 0..all.len() {
        let row = &all[place];
        put_row(out, &row.0)?;
        put_integer(out, row.1)?;
    }
    Ok(())
}

fn put_texts(all: &[(Row, Row)], out: &mut Vec<u8>) -> Result<(), AllocError>
    ensures { OnOk result (out.new.items ≡ out.old.items ++ flat_map spelled_row (as_data datum.Text all.now)) }
{
    for place in 0..all.len() {
        let row = &all[place];
        put_row(out, &row.0)?;
        put_row(out, &row.1)?;
    }
    Ok(())
}
