//! Which names the value files of a folder have, and the number with which a run begins.

ghost use Rattle.std.specs.Prelude.{◌≡◌, ◌↔◌, ◌+◌, ◌<◌, ◌≤◌, ◌^◌, ℕ, IsTrue, IfSome, IfNone, OnOk, OnErr, All, decimal};
ghost use Rattle.serve_core.specs.Numbers.{value_name, IsFirstAbove, IsNumberBetween, AddsNumber};

use itoa::Buffer;
use std::alloc::AllocError;

/// A value file that an earlier run left has a number below this one.
pub const END_OF_NUMBERS: u64 = 1 << 63;

// Whether these digits spell a number: no leading zero, and no sign.
fn is_spelling(digits: &str, number: u64) -> bool
    ensures { IsTrue result ↔ (digits.now ≡ decimal number) }
{
    Buffer::new().format(number) == digits
}

// The number that these digits spell.
fn number_of(digits: &str) -> Option<u64>
    ensures some { IfSome result (λ n. (n < 2 ^ 64) × (digits.now ≡ decimal n)) }
    ensures none { IfNone result ((n : ℕ) → n < 2 ^ 64 → digits.now ≡ decimal n → ⊥) }
{
    match digits.parse::<u64>() {
        Ok(number) => {
            if is_spelling(digits, number) {
                Some(number)
            } else {
                None
            }
        }
        Err(_) => None,
    }
}

/// The number of a file that a run may have made, by its name: N of `N.val`, in decimal without leading
/// zeros and below 2^64.
/// `None` for any other name.
pub fn file_number(name: &str) -> Option<u64>
    ensures some { IfSome result (λ n. (n < 2 ^ 64) × (name.now ≡ value_name n)) }
    ensures none { IfNone result ((n : ℕ) → n < 2 ^ 64 → name.now ≡ value_name n → ⊥) }
{
    match name.strip_suffix(".val") {
        Some(digits) => number_of(digits),
        None => None,
    }
}

/// The number of a value file by its name, where it is from `first` on and below `end`: N of `N.val`, in decimal
/// without leading zeros. `None` for any other name.
pub fn number_between(name: &str, first: u64, end: u64) -> Option<u64>
    ensures some { IfSome result (IsNumberBetween first end name.now) }
    ensures none { IfNone result ((n : ℕ) → IsNumberBetween first end name.now n → ⊥) }
{
    match file_number(name) {
        Some(number) => {
            if first <= number && number < end {
                Some(number)
            } else {
                None
            }
        }
        None => None,
    }
}

/// Adds the number of a file of this name to the numbers of a folder, where it is that of a value file from `first` on
/// and below `end`. The error is that memory was refused, and leaves the numbers.
pub fn add_number(
    numbers: &mut Vec<u64>,
    name: &str,
    first: u64,
    end: u64,
) -> Result<(), AllocError>
    ensures ok { OnOk result (AddsNumber first end name.now numbers.old.items numbers.new.items) }
    ensures err { OnErr result (numbers.new.items ≡ numbers.old.items) }
{
    if let Some(number) = number_between(name, first, end) {
        numbers.push(number)?;
    }
    Ok(())
}

// The first number above those that this one was the first above, and above one more.
fn above_both(first: u64, number: u64) -> u64
    ensures stays { number < first → result ≡ first }
    ensures rises { first ≤ number → number < 2 ^ 63 → result ≡ number + 1 }
{
    if number < first {
        first
    } else {
        number.saturating_add(1)
    }
}

/// The number with which a run begins: the first one above all of these, from 1 on.
pub fn number_above(numbers: &[u64]) -> u64
    ensures { All (λ n. n < 2 ^ 63) numbers.now → IsFirstAbove numbers.now result }
{
    let mut first = 1;
    for number in numbers {
        first = above_both(first, *number);
    }
    first
}
