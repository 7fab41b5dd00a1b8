//! Arguments of a call, as a line has them.

ghost use Rattle.std.specs.Prelude.{IfOk};
ghost use Rattle.word_core.specs.Data.{data_of as data_in};
ghost use Rattle.word_core.specs.Reads.{Adds, Reads};

use crate::front::{is_blank, next_bare};
use crate::next::{Next, next_word};
use crate::number::{datum_of, integer_of};
use std::alloc::{AllocError, Global};
use value_core::datum::Datum;

/// The integers and texts that the words of a line are, or `None` where one is neither.
pub fn data_of(alloc: Global, line: &[u8]) -> Result<Option<Vec<Datum>>, AllocError>
    ensures { IfOk result (Reads data_in (λ v. v.items) line.now) }
{
    let mut all = Vec::new(alloc);
    let mut rest = line;
    'words: while !is_blank(rest) {
        match push_next(&mut all, rest)? {
            Some(behind) => {
                rest = behind;
            }
            None => return Ok(None),
        }
    }
    Ok(Some(all))
}

// Adds the datum at the front of a line, and gives what stands behind it.
fn push_next<'a>(all: &mut Vec<Datum>, line: &'a [u8]) -> Result<Option<&'a [u8]>, AllocError>
    ensures { IfOk result (λ found. Adds line.now all.old.items found all.new.items) }
{
    match next_bare(line) {
        Some((word, rest)) => match integer_of(word) {
            Some(number) => {
                all.push(Datum::Integer(number))?;
                Ok(Some(rest))
            }
            None => Ok(None),
        },
        None => push_quoted(all, line),
    }
}

// Adds the datum at the front of a line whose first word does not stand bare, and gives what stands behind it.
fn push_quoted<'a>(all: &mut Vec<Datum>, line: &'a [u8]) -> Result<Option<&'a [u8]>, AllocError>
    ensures { IfOk result (λ found. Adds line.now all.old.items found all.new.items) }
{
    match next_word(line) {
        Next::Found(word, rest) => match datum_of(&word) {
            Some(datum) => {
                all.push(datum)?;
                Ok(Some(rest))
            }
            None => Ok(None),
        },
        Next::Nothing => Ok(None),
        Next::Bad => Ok(None),
    }
}
