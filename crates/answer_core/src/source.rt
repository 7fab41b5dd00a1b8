//! The source of a command.

ghost use Rattle.std.specs.Prelude.{◌≡◌, IfOk, IfSome, take};

use std::alloc::Global;
use std::io::{self, Read};

/// One byte more than a source may have: what is read of a longer one tells that it is too long.
const MOST_BYTES: u64 = 65_537;

/// The first bytes that a reader gives, at most 65,537.
pub fn read_source<R: Read + Drop>(alloc: Global, reader: R) -> io::Result<Vec<u8>>
    ensures { IfOk result (λ source. IfSome (R.remaining reader) (λ text. source.items ≡ take 65537 text)) }
{
    let mut source = Vec::new(alloc);
    reader.take(MOST_BYTES).read_to_end(&mut source)?;
    Ok(source)
}

/// All bytes that a reader gives.
pub fn read_whole<R: Read + Drop>(alloc: Global, mut reader: R) -> io::Result<Vec<u8>>
    ensures { IfOk result (λ text. IfSome (R.remaining reader) (λ all. text.items ≡ all)) }
{
    let mut text = Vec::new(alloc);
    reader.read_to_end(&mut text)?;
    Ok(text)
}
