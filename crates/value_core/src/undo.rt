//! What takes a change of a value back.

ghost use Rattle.std.specs.Prelude.{◌≡◌, IfOk};
ghost use Rattle.value_core.specs.Datum.{IsDatum};
ghost use Rattle.value_core.specs.Undo.{kept_datum, KeepsData};

use crate::datum::Datum;
use crate::row::Row;
use std::alloc::{AllocError, Global};
use std::collections::VecDeque;

/// An element, in memory of its own length.
#[derive(Drop)]
pub enum Kept {
    Integer(u32),
    Text(Row),
}

/// What takes a change of a value back. It needs no memory for that.
#[derive(Drop)]
pub enum Undo {
    /// Puts this at this place of an array.
    Element(u32, Kept),
    /// Drops the newest element of a queue.
    Newest,
    /// Puts this in front of a queue, with room for its elements.
    OldestInteger(u32, VecDeque<u32>),
    OldestText(Row, VecDeque<Row>),
    /// Puts this under a key that is there.
    Under(Row, Kept),
    /// Drops this key.
    Added(Row),
    /// Puts this row into a table, with room for its rows.
    RowOfInteger(Row, u32, Vec<(Row, u32)>),
    RowOfText(Row, Row, Vec<(Row, Row)>),
}

impl Kept {
    /// A datum, kept.
    pub(crate) fn new(alloc: Global, datum: &Datum) -> Result<Kept, AllocError>
        ensures { IfOk result (λ kept. kept_datum kept ≡ datum.now) }
    {
        match datum {
            Datum::Integer(number) => Ok(Kept::Integer(*number)),
            Datum::Text(text) => {
                let row = Row::new(alloc, text)?;
                Ok(Kept::Text(row))
            }
        }
    }

    /// The datum.
    pub(crate) fn datum(&self) -> Datum
        ensures { result ≡ kept_datum self.now }
    {
        match self {
            Kept::Integer(number) => Datum::Integer(*number),
            Kept::Text(row) => Datum::Text(row.text()),
        }
    }

    // That an integer has 32 bits, and a text is one. It does nothing, and is called for its contract alone.
    fn holds_datum(&self)
        ensures { IsDatum (kept_datum self.now) }
    {
        match self {
            Kept::Integer(number) => {
                // Read for its type alone.
                let _number = *number;
            }
            Kept::Text(row) => {
                // Called for its contract alone.
                let _bytes = row.bytes();
            }
        }
    }
}

impl Undo {
    // That what it keeps can be a key and an element. It does nothing, and is called for its contract alone.
    pub(crate) fn keeps_data(&self)
        ensures { KeepsData self.now }
    {
        match self {
            Undo::Element(_, kept) => kept.holds_datum(),
            Undo::OldestInteger(number, _) => {
                let _number = *number;
            }
            Undo::OldestText(row, _) => {
                let _bytes = row.bytes();
            }
            Undo::Under(key, kept) => {
                let _key = key.bytes();
                kept.holds_datum();
            }
            Undo::RowOfInteger(key, number, _) => {
                let _key = key.bytes();
                let _number = *number;
            }
            Undo::RowOfText(key, row, _) => {
                let _key = key.bytes();
                let _bytes = row.bytes();
            }
            Undo::Newest | Undo::Added(_) => {}
        }
    }
}
