//! The parts that an operation touches.

ghost use Rattle.std.specs.Prelude.{◌≡◌, ◌↔◌, ℕ};
ghost use Rattle.std.specs.Int.{bit_at};
ghost use Rattle.decl_core.specs.Bodies.{body_of};
ghost use Rattle.decl_core.specs.Touched.{Reads, Writes};

use crate::footprint::{reads, writes};
use crate::object::Operation;
pub use crate::touched::Footprint;

/// The parts that an operation reads and writes. It takes no memory.
pub fn footprint(operation: &Operation) -> Footprint
    ensures reads { (p : ℕ) → (bit_at result.reads p ≡ 1) ↔ Reads (body_of operation.now).statements p }
    ensures writes { (p : ℕ) → (bit_at result.writes p ≡ 1) ↔ Writes (body_of operation.now).statements p }
{
    Footprint {
        reads: reads(operation),
        writes: writes(operation),
    }
}
