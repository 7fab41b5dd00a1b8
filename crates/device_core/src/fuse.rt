//! A hand that fails from some call on.

use crate::failing::{Choice, FailingHand};
use crate::hand::Hand;

/// Each call from number 0 on: no call is left then.
#[derive(Clone, Copy, Debug, PartialEq, Eq)]
pub struct Blown;

/// Passes a number of calls on to the hand inside it, and then fails each one.
pub type FuseHand<H> = FailingHand<H, Blown>;

impl Choice for Blown {
    ghost use Rattle.std.specs.Prelude.{◌≡◌};

    ghost chosen = { λ _ number. number ≡ 0 };

    fn is_chosen(&self, number: u64) -> bool {
        number == 0
    }
}

impl<H: Hand> FailingHand<H, Blown> {
    ghost use Rattle.std.specs.Prelude.{◌≡◌};
    ghost use Rattle.device_core.specs.Wrapped.{inner_of, left_of, blown_of};

    /// A hand that passes on so many calls.
    pub fn new(inner: H, calls: u64) -> Self
        ensures inner { inner_of result ≡ inner }
        ensures left { left_of result ≡ calls }
        ensures blown { blown_of result ≡ 0 }
    {
        FailingHand {
            inner,
            choice: Blown,
            left: calls,
            blown: 0,
        }
    }
}
