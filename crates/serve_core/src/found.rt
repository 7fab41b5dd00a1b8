//! What an earlier run left in a folder.

ghost use Rattle.std.specs.Prelude.{◌≡◌, ◌<◌, ◌≤◌, ◌^◌, IfOk, All};
ghost use Rattle.std.specs.List.Sorted.{IsSorted, IsPermutation};
ghost use Rattle.std.specs.Ordering.{nat_cmp};
ghost use Rattle.serve_core.specs.Numbers.{IsFirstAbove};

use crate::folder::{END_OF_NUMBERS, number_above};
use crate::values::Values;
use std::alloc::Global;
use std::io;
use std::marker::Model;

/// The numbers of the value files that an earlier run left in a folder, each below 2^63, and the number with which the
/// next run begins: the first one above them, from 1 on.
#[derive(Drop)]
pub struct FoundFiles {
    numbers: Vec<u64>,
    first: u64,
}

impl Model for FoundFiles {
    ghost use Rattle.std.specs.Prelude.{◌<◌, ◌^◌, All};
    ghost use Rattle.std.specs.List.Sorted.{IsSorted};
    ghost use Rattle.std.specs.Ordering.{nat_cmp};
    ghost use Rattle.serve_core.specs.Finding.{Finding};
    ghost use Rattle.serve_core.specs.Numbers.{IsFirstAbove};

    ghost Value = { Finding };

    ghost view = { λ f. record { numbers = f.numbers.items; first = f.first } };

    ghost invariant = { λ f. IsFirstAbove f.numbers.items f.first × All (λ n. n < 2 ^ 63) f.numbers.items
        × IsSorted nat_cmp f.numbers.items };
}

impl FoundFiles {
    /// These numbers, each below 2^63, the least first.
    pub fn of(numbers: Vec<u64>) -> FoundFiles
        requires { All (λ n. n < 2 ^ 63) numbers.items }
        ensures numbers { IsPermutation numbers.items result.numbers }
        ensures first { IsFirstAbove result.numbers result.first }
    {
        let mut numbers = numbers;
        numbers.sort_unstable();
        let first = number_above(&numbers);
        FoundFiles { numbers, first }
    }

    /// The numbers, each below 2^63, the least first.
    pub fn numbers(&self) -> &[u64]
        ensures numbers { result.now ≡ self.now.numbers }
        ensures low { All (λ n. n < 2 ^ 63) result.now }
        ensures below { All (λ n. n < self.now.first) result.now }
        ensures rise { IsSorted nat_cmp result.now }
    {
        &self.numbers
    }

    /// The first number above them, from 1 to 2^63.
    pub fn first(&self) -> u64
        ensures first { result ≡ self.now.first }
        ensures above { IsFirstAbove self.now.numbers result }
        ensures most { result ≤ 2 ^ 63 }
    {
        self.first
    }
}

/// What an earlier run left in a folder. The error is that of reading it, or of kind `OutOfMemory`.
pub fn found_in<V: Values>(values: &V, alloc: Global) -> io::Result<FoundFiles> {
    let numbers = values.numbers(alloc, 0, END_OF_NUMBERS)?;
    Ok(FoundFiles::of(numbers))
}
