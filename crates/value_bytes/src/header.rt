//! The bytes before the elements of a value.

ghost use Rattle.std.specs.Prelude.{◌≡◌};
ghost use Rattle.value_bytes.specs.Format.{number_of};
ghost use Rattle.value_bytes.specs.Spelling.{code_of};

use value_core::format::Format;
use value_core::kind::{Elem, Kind};

/// The bytes before the elements of a value: the format, the kind, and the number of elements.
pub const HEADER_BYTES: usize = 4;

/// The first byte of a value.
pub fn format_byte(format: Format) -> u8
    ensures { result ≡ number_of format }
{
    match format {
        Format::First => 1,
        Format::Second => 2,
    }
}

/// The byte that stands for a kind in the bytes of a value.
pub fn kind_byte(kind: Kind) -> u8
    ensures { result ≡ code_of kind }
{
    match kind {
        Kind::Array(_, Elem::Integer) => 1,
        Kind::Array(_, Elem::Text) => 2,
        Kind::Queue(Elem::Integer) => 3,
        Kind::Queue(Elem::Text) => 4,
        Kind::Table(Elem::Integer) => 5,
        Kind::Table(Elem::Text) => 6,
    }
}
