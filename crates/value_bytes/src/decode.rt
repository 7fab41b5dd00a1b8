//! Values from their bytes.

ghost use Rattle.std.specs.Prelude.{◌≡◌, ◌≢◌, ◌≤◌, List, map, IfOk, IsErrOf, IsTrue, Some, false, slice_get, ◌↔◌, ◌++◌};
ghost use Rattle.value_core.specs.declared.format.Format.{Format};
ghost use Rattle.value_bytes.specs.Format.{number_of};
ghost use Rattle.value_core.specs.declared.datum.Datum.{Datum};
ghost use Rattle.value_core.specs.declared.datum.Datum.TheVariants as datum;
ghost use Rattle.value_core.specs.declared.kind.Elem.TheVariants as elem;
ghost use Rattle.value_core.specs.Limits.{most_elements};
ghost use Rattle.value_core.specs.Body.{contents_of};
ghost use Rattle.value_core.specs.Contents.{Contents, IsContentsIn};
ghost use Rattle.value_bytes.specs.Spelling.{SpellsIn, Spells, SpellsInSome, SpellElements, SpellRows, IsAfter};
ghost use Rattle.value_bytes.specs.Spelling.{header_in, IsCountOf, BeginsAsIn, BeginsAs};
ghost use Rattle.value_core.specs.Rows.{rows_sort, rows_map};
ghost use Rattle.value_core.specs.TextOrder.{text_cmp};
ghost use Rattle.std.specs.FinMap.{FinMap};
ghost use Rattle.value_core.specs.Cells.{cells_sort, cells_data};
ghost use Rattle.value_core.specs.Queue.{queue_sort, queue_data};

use crate::header::{format_byte, kind_byte};
use crate::reader::{read_datum, read_header, read_integer, read_row, read_text};
use std::alloc::{AllocError, Global};
use std::cmp::Ordering;
use thiserror::Error;
use value_core::cells::Cells;
use value_core::format::Format;
use value_core::kind::{Elem, Kind};
use value_core::limits::MOST_ELEMENTS;
use value_core::queue::Queue;
use value_core::rows::Rows;
use value_core::text::Text;
use value_core::value::{Body, Value};

/// Why bytes gave no value.
#[derive(Clone, Copy, Debug, PartialEq, Eq, Error)]
pub enum DecodeFault {
    /// They spell no value of this kind.
    #[error("damaged")]
    Damaged,
    /// Memory was refused.
    #[error("out of memory")]
    Memory,
}

impl From<AllocError> for DecodeFault {
    ghost use Rattle.std.specs.Prelude.{◌≡◌};
    ghost use Rattle.value_bytes.specs.declared.decode.DecodeFault.TheVariants.{Memory};

    ghost from_gives = { λ _ e. e ≡ Memory };

    fn from(_: AllocError) -> DecodeFault {
        DecodeFault::Memory
    }
}

// The elements of an array, so many, that the bytes are.
fn decode_cells(
    alloc: Global,
    format: Format,
    sort: Elem,
    count: usize,
    bytes: &[u8],
) -> Result<Cells, DecodeFault>
    ensures sort { IfOk result (λ cells. cells_sort cells ≡ sort) }
    ensures found { IfOk result (λ cells. SpellElements format bytes.now sort count (cells_data cells)) }
    ensures damaged { IsErrOf result DecodeFault.Damaged → (xs : List Datum) →
        SpellElements format bytes.now sort count xs → ⊥ }
{
    match sort {
        Elem::Integer => Ok(Cells::Integers(decode_integers(alloc, format, count, bytes)?)),
        Elem::Text => Ok(Cells::Texts(decode_texts(alloc, format, count, bytes)?)),
    }
}

// The integers, so many, that the bytes are.
fn decode_integers(
    alloc: Global,
    format: Format,
    count: usize,
    bytes: &[u8],
) -> Result<Vec<u32>, DecodeFault>
    ensures found { IfOk result (λ all. SpellElements format bytes.now elem.Integer count
        (map datum.Integer all.items)) }
    ensures damaged { IsErrOf result DecodeFault.Damaged → (xs : List Datum) →
        SpellElements format bytes.now elem.Integer count xs → ⊥ }
{
    let mut all = Vec::with_capacity(alloc, count)?;
    let mut rest = bytes;
    for place in 0..count {
        let Some((number, behind)) = read_integer(rest) else {
            return Err(DecodeFault::Damaged);
        };
        match all.push(number) {
            Ok(()) => (),
            Err(refused) => return Err(AllocError::from(refused).into()),
        }
        rest = behind;
    }
    if !rest.is_empty() {
        return Err(DecodeFault::Damaged);
    }
    Ok(all)
}

// The texts, so many, that the bytes are.
fn decode_texts(
    alloc: Global,
    format: Format,
    count: usize,
    bytes: &[u8],
) -> Result<Vec<Text>, DecodeFault>
    ensures found { IfOk result (λ all. SpellElements format bytes.now elem.Text count (map datum.Text all.items)) }
    ensures damaged { IsErrOf result DecodeFault.Damaged → (xs : List Datum) →
        SpellElements format bytes.now elem.Text count xs → ⊥ }
{
    let mut all = Vec::with_capacity(alloc, count)?;
    let mut rest = bytes;
    for place in 0..count {
        let Some(front) = read_text(format, rest) else {
            return Err(DecodeFault::Damaged);
        };
        let (text, behind) = front;
        match all.push(text) {
            Ok(()) => (),
            Err(refused) => return Err(AllocError::from(refused).into()),
        }
        rest = behind;
    }
    if !rest.is_empty() {
        return Err(DecodeFault::Damaged);
    }
    Ok(all)
}

// The elements of a queue, so many, that the bytes are.
fn decode_queue(
    alloc: Global,
    format: Format,
    sort: Elem,
    count: usize,
    bytes: &[u8],
) -> Result<Queue, DecodeFault>
    ensures sort { IfOk result (λ queue. queue_sort queue ≡ sort) }
    ensures found { IfOk result (λ queue. SpellElements format bytes.now sort count (queue_data queue)) }
    ensures damaged { IsErrOf result DecodeFault.Damaged → (xs : List Datum) →
        SpellElements format bytes.now sort count xs → ⊥ }
{
    let mut queue = Queue::with_capacity(alloc, sort, count)?;
    let mut rest = bytes;
    for place in 0..count {
        let Some((datum, behind)) = read_datum(format, sort, rest) else {
            return Err(DecodeFault::Damaged);
        };
        queue.push(datum)?;
        rest = behind;
    }
    if !rest.is_empty() {
        return Err(DecodeFault::Damaged);
    }
    Ok(queue)
}

// The rows of a table, so many, that the bytes are.
fn decode_rows(
    alloc: Global,
    format: Format,
    sort: Elem,
    count: usize,
    bytes: &[u8],
) -> Result<Rows, DecodeFault>
    ensures sort { IfOk result (λ rows. rows_sort rows ≡ sort) }
    ensures found { IfOk result (λ rows. SpellRows format bytes.now sort count (rows_map rows)) }
    ensures damaged { IsErrOf result DecodeFault.Damaged → (m : FinMap text_cmp Datum) →
        SpellRows format bytes.now sort count m → ⊥ }
{
    let mut rows = Rows::new(alloc, sort);
    let mut rest = bytes;
    let mut last: Option<Text> = None;
    for place in 0..count {
        let Some(row) = read_row(format, sort, rest) else {
            return Err(DecodeFault::Damaged);
        };
        let (key, datum, behind) = row;
        if !rises(&last, &key) {
            return Err(DecodeFault::Damaged);
        }
        rows.insert(key, datum)?;
        last = Some(key);
        rest = behind;
    }
    if !rest.is_empty() {
        return Err(DecodeFault::Damaged);
    }
    Ok(rows)
}

// Whether a key comes after the last one.
fn rises(last: &Option<Text>, key: &Text) -> bool
    ensures { IsTrue result ↔ IsAfter last.now key.now }
{
    match last {
        Some(last) => matches!(last.cmp(key), Ordering::Less),
        None => true,
    }
}

// The value that is kept so, for which a format has room.
#[tactic(auto, using(crate::proofs::Widening::wide))]
fn in_format(format: Format, body: Body) -> Value
    requires { IsContentsIn format (contents_of body) }
    ensures { result ≡ contents_of body }
{
    // Named for its type alone: contracts see which format it is, and no code looks.
    let _format = format;
    Value::of(body)
}

// The value of this kind, with so many elements, that the bytes behind the header are.
fn decode_elements(
    alloc: Global,
    format: Format,
    kind: Kind,
    count: u16,
    bytes: &[u8],
) -> Result<Value, DecodeFault>
    requires { count ≤ most_elements }
    ensures found { IfOk result (λ value. SpellsIn format (header_in format kind count ++ bytes.now) kind value) }
    ensures damaged { IsErrOf result DecodeFault.Damaged → (value : Contents) →
        SpellsIn format (header_in format kind count ++ bytes.now) kind value → ⊥ }
    ensures header { (IsCountOf kind count → ⊥) → IsErrOf result DecodeFault.Damaged }
{
    let many = count as usize;
    match kind {
        Kind::Array(length, sort) => {
            if count != length {
                return Err(DecodeFault::Damaged);
            }
            let cells = decode_cells(alloc, format, sort, many, bytes)?;
            Ok(in_format(format, Body::Array(cells)))
        }
        Kind::Queue(sort) => {
            let queue = decode_queue(alloc, format, sort, many, bytes)?;
            Ok(in_format(format, Body::Queue(queue)))
        }
        Kind::Table(sort) => {
            let rows = decode_rows(alloc, format, sort, many, bytes)?;
            Ok(in_format(format, Body::Table(rows)))
        }
    }
}

// The value of this kind that the bytes spell in a format.
fn decode_in(alloc: Global, format: Format, kind: Kind, bytes: &[u8]) -> Result<Value, DecodeFault>
    ensures found { IfOk result (λ value. SpellsIn format bytes.now kind value) }
    ensures damaged { IsErrOf result DecodeFault.Damaged → (value : Contents) → SpellsIn format bytes.now kind value →
        ⊥ }
    ensures header { (BeginsAsIn format kind bytes.now → ⊥) → IsErrOf result DecodeFault.Damaged }
{
    let Some((code, count, rest)) = read_header(format, bytes) else {
        return Err(DecodeFault::Damaged);
    };
    if code != kind_byte(kind) || count > MOST_ELEMENTS {
        return Err(DecodeFault::Damaged);
    }
    decode_elements(alloc, format, kind, count, rest)
}

/// The value of this kind that the bytes spell in the second format, which `encode` writes. `Damaged` where
/// they spell none; where no header of this kind stands at their front, whatever memory there is. `Memory`
/// where it was refused before another damage was seen.
pub fn decode(alloc: Global, kind: Kind, bytes: &[u8]) -> Result<Value, DecodeFault>
    ensures found { IfOk result (λ value. Spells bytes.now kind value) }
    ensures damaged { IsErrOf result DecodeFault.Damaged → (value : Contents) → Spells bytes.now kind value → ⊥ }
    ensures header { (BeginsAs kind bytes.now → ⊥) → IsErrOf result DecodeFault.Damaged }
{
    decode_in(alloc, Format::Second, kind, bytes)
}

/// The value of this kind that the bytes spell in the first format. `Damaged` where they spell none; where no header of
/// this kind stands at their front, whatever memory there is. `Memory` where it was refused before another damage was
/// seen.
pub fn decode_v1(alloc: Global, kind: Kind, bytes: &[u8]) -> Result<Value, DecodeFault>
    ensures found { IfOk result (λ value. SpellsIn Format.First bytes.now kind value) }
    ensures damaged { IsErrOf result DecodeFault.Damaged → (value : Contents) →
        SpellsIn Format.First bytes.now kind value → ⊥ }
    ensures header { (BeginsAsIn Format.First kind bytes.now → ⊥) → IsErrOf result DecodeFault.Damaged }
{
    decode_in(alloc, Format::First, kind, bytes)
}

// Whether these bytes are to be read in the first format: their first byte is its number.
fn is_first(bytes: &[u8]) -> bool
    ensures first { IsTrue result → slice_get bytes.now 0 ≡ Some (number_of Format.First) }
    ensures other { result ≡ false → slice_get bytes.now 0 ≢ Some (number_of Format.First) }
{
    match bytes {
        [number, ..] => *number == format_byte(Format::First),
        _ => false,
    }
}

/// The value of this kind that kept bytes spell in either format: in the first one where their first byte is its
/// number, else in the second one. `Damaged` where they spell none in either; where no header of this kind in
/// either format stands at their front, whatever memory there is. `Memory` where it was refused before another damage
/// was seen.
pub fn decode_kept(alloc: Global, kind: Kind, bytes: &[u8]) -> Result<Value, DecodeFault>
    ensures found { IfOk result (λ value. SpellsInSome bytes.now kind value) }
    ensures damaged { IsErrOf result DecodeFault.Damaged → (value : Contents) → SpellsInSome bytes.now kind value → ⊥ }
    ensures header { ((f : Format) → BeginsAsIn f kind bytes.now → ⊥) → IsErrOf result DecodeFault.Damaged }
{
    if is_first(bytes) {
        decode_v1(alloc, kind, bytes)
    } else {
        decode(alloc, kind, bytes)
    }
}
