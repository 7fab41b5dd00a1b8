//! The bytes of the elements of a queue, the oldest first.

ghost use Rattle.std.specs.Prelude.{◌≡◌, ◌++◌, map, OnOk};
ghost use Rattle.std.specs.List.{flat_map};
ghost use Rattle.value_core.specs.declared.datum.Datum.TheVariants as datum;
ghost use Rattle.value_core.specs.Queue.{queue_data};
ghost use Rattle.value_bytes.specs.Spelling.{spelled_datum};

use crate::encode::{put_integer, put_row};
use std::alloc::AllocError;
use std::collections::VecDeque;
use value_core::queue::Queue;
use value_core::row::Row;

/// Adds the bytes of the elements, the oldest first.
pub fn put_queue(queue: &Queue, out: &mut Vec<u8>) -> Result<(), AllocError>
    ensures { OnOk result (out.new.items ≡ out.old.items ++ flat_map spelled_datum (queue_data queue.now)) }
{
    match queue {
        Queue::Integers(all) => put_integers(all, out),
        Queue::Texts(all) => put_texts(all, out),
    }
}

fn put_integers(all: &VecDeque<u32>, out: &mut Vec<u8>) -> Result<(), AllocError>
    ensures { OnOk result (out.new.items ≡ out.old.items ++ flat_map spelled_datum (map datum.Integer all.now.items)) }
{
    for place in 0..all.len() {
        put_integer(out, all[place])?;
    }
    Ok(())
}

fn put_texts(all: &VecDeque<Row>, out: &mut Vec<u8>) -> Result<(), AllocError>
    ensures { OnOk result (out.new.items ≡ out.old.items ++ flat_map spelled_datum (map datum.Text all.now.items)) }
{
    for place in 0..all.len() {
        put_row(out, &all[place])?;
    }
    Ok(())
}
