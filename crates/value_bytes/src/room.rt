//! How many bytes spell a value, so that they are made in one growth.

use crate::header::HEADER_BYTES;
use std::mem::size_of;
use value_core::cells::Cells;
use value_core::limits::TextLength;
use value_core::queue::Queue;
use value_core::row::Row;
use value_core::rows::Rows;
use value_core::text::Text;
use value_core::value::{Body, Value};

/// How many bytes spell the value.
pub fn spelled_len(value: &Value) -> usize {
    let elements = match value.body() {
        Body::Array(cells) => cells_len(cells),
        Body::Queue(queue) => queue_len(queue),
        Body::Table(rows) => rows_len(rows),
    };
    elements.saturating_add(HEADER_BYTES)
}

// How many bytes spell the elements of an array.
fn cells_len(cells: &Cells) -> usize {
    match cells {
        Cells::Integers(all) => all.len().saturating_mul(4),
        Cells::Texts(all) => {
            let mut total = 0usize;
            for text in all {
                total = total.saturating_add(text_len(text));
            }
            total
        }
    }
}

// How many bytes spell the elements of a queue.
fn queue_len(queue: &Queue) -> usize {
    match queue {
        Queue::Integers(all) => all.len().saturating_mul(4),
        Queue::Texts(all) => {
            let mut total = 0usize;
            for row in all {
                total = total.saturating_add(row_len(row));
            }
            total
        }
    }
}

// How many bytes spell the rows of a table.
fn rows_len(rows: &Rows) -> usize {
    let mut total = 0usize;
    match rows {
        Rows::Integers(all) => {
            for row in all.rows() {
                total = total.saturating_add(row_len(&row.0)).saturating_add(4);
            }
        }
        Rows::Texts(all) => {
            for row in all.rows() {
                total = total
                    .saturating_add(row_len(&row.0))
                    .saturating_add(row_len(&row.1));
            }
        }
    }
    total
}

// How many bytes spell such a text: its length, and itself.
fn row_len(row: &Row) -> usize {
    size_of::<TextLength>() + row.len() as usize
}

// How many bytes spell a text: its length, and itself.
fn text_len(text: &Text) -> usize {
    size_of::<TextLength>() + text.len() as usize
}
