//! Numbers that are handed out, one after another.

ghost use Rattle.std.specs.Prelude.{◌≡◌, ◌≤◌};

use std::marker::Model;
use std::sync::atomic::{AtomicU64, Ordering};

/// Numbers from a first one on, which are handed out, each one once, also to several threads at a time. A contract sees
/// the first one.
///
/// The hands of one desk share it in an `Arc`, so that no two of their files have one number. The first one is at most
/// 2^63, and fewer than 2^63 numbers are drawn.
#[derive(Drop)]
pub struct Numbers {
    first: u64,
    drawn: AtomicU64,
}

impl Model for Numbers {
    ghost use Rattle.std.specs.Prelude.{ℕ};

    ghost Value = { ℕ };

    ghost view = { λ n. n.first };
}

impl Numbers {
    /// Numbers from this one on.
    pub fn new(first: u64) -> Self
        ensures { result ≡ first }
    {
        Numbers {
            first,
            drawn: AtomicU64::new(0),
        }
    }

    /// The number from which on they are handed out.
    pub fn first(&self) -> u64
        ensures { result ≡ self.now }
    {
        self.first
    }

    /// The next number. None is below the first one.
    pub fn draw(&self) -> u64
        ensures { self.now ≤ result }
    {
        let before = self.drawn.fetch_add(1, Ordering::SeqCst);
        self.first.saturating_add(before)
    }
}
