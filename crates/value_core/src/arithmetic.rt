//! Sums and differences of integers.

ghost use Rattle.std.specs.Prelude.{◌≡◌};
ghost use Rattle.value_core.specs.Meaning.{sum_of, difference_of};

use crate::refusal::Refusal;

/// The sum. Refused `range` above 4294967295.
pub fn add(first: u32, second: u32) -> Result<u32, Refusal>
    ensures { result ≡ sum_of first second }
{
    first.checked_add(second).ok_or(Refusal::Range)
}

/// What is left of the first without the second. Refused `range` below 0.
pub fn sub(first: u32, second: u32) -> Result<u32, Refusal>
    ensures { result ≡ difference_of first second }
{
    first.checked_sub(second).ok_or(Refusal::Range)
}
