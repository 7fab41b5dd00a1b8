//! Hands that fail chosen calls of the hand inside them.

use crate::hand::{Hand, HandFault, Pen, Stamp};

/// Which calls are failed. Each call that counts has a number, one less than the call before it, down to 0.
pub trait Choice: Drop {
    ghost use Rattle.std.specs.Prelude.{ℕ};
    ghost use Rattle.std.specs.Bool.{OnTrue, OnFalse};

    /// The numbers whose calls are failed.
    ghost chosen: { Self → ℕ → Type 0 };

    /// Whether the call of this number is failed.
    fn is_chosen(&self, number: u64) -> bool
        ensures chosen { OnTrue result (chosen self.now number) }
        ensures other { OnFalse result (chosen self.now number → ⊥) };
}

/// Fails the calls that are chosen, and passes each other one on to the hand inside it.
///
/// The calls that count are `create`, `append`, `seal`, `read` and `retire`.
#[derive(Drop)]
pub struct FailingHand<H, C> {
    pub(crate) inner: H,
    pub(crate) choice: C,
    // The number of the next call that counts.
    pub(crate) left: u64,
    // How many calls failed here.
    pub(crate) blown: u64,
}

impl<H: Hand, C: Choice> FailingHand<H, C> {
    ghost use Rattle.std.specs.Prelude.{◌≡◌, ◌+◌, ℕ};
    ghost use Rattle.std.specs.Bool.{OnTrue, OnFalse};
    ghost use Rattle.device_core.specs.Wrapped.{inner_of, IsNextChosen, Spares, CountsDown, Blows, Passes};

    /// The hand inside it.
    pub fn into_inner(self) -> H
        ensures { result ≡ inner_of self }
    {
        let FailingHand {
            inner,
            choice: _,
            left: _,
            blown: _,
        } = self;
        inner
    }

    // Whether a call is passed on. One that isn't counts as failed.
    fn passes(&mut self) -> bool
        ensures inner { inner_of self.new ≡ inner_of self.old }
        ensures down { CountsDown self.old self.new }
        ensures passed { OnTrue result ((IsNextChosen C.chosen self.old → ⊥) × Passes self.old self.new) }
        ensures failed { OnFalse result (IsNextChosen C.chosen self.old × Blows self.old self.new) }
        ensures spares { (n : ℕ) → Spares C.chosen self.old.choice self.old.left (n + 1) →
            Spares C.chosen self.new.choice self.new.left n }
        ensures spared { Spares C.chosen self.old.choice self.old.left 1 → IsNextChosen C.chosen self.old → ⊥ }
    {
        let chosen = self.choice.is_chosen(self.left);
        self.left = self.left.saturating_sub(1);
        if chosen {
            self.blown = self.blown.saturating_add(1);
            return false;
        }
        true
    }
}

/// A call that it fails itself answers `HandFault::Device` and leaves the hand inside as it was.
impl<H: Hand, C: Choice> Hand for FailingHand<H, C> {
    ghost use Rattle.std.specs.Prelude.{◌⊎◌};
    ghost use Rattle.device_core.specs.Wrapped.{all_failed, IsNextChosen, Spares, FailingMakes};

    ghost agrees = { λ h a. H.agrees h.inner a };

    ghost pending = { λ h n b. H.pending h.inner n b };

    ghost serves = { λ h s. H.serves h.inner s };

    ghost works_for = { λ h n. Spares C.chosen h.choice h.left n × H.works_for h.inner n };

    ghost fails = { λ h. IsNextChosen C.chosen h ⊎ H.fails h.inner };

    ghost makes = { FailingMakes C.chosen H.makes };

    ghost failed = { all_failed H.failed };

    fn create(&mut self) -> Result<Pen, HandFault> {
        if !self.passes() {
            return Err(HandFault::Device);
        }
        self.inner.create()
    }

    fn append(&mut self, pen: &mut Pen, bytes: &[u8]) -> Result<(), HandFault> {
        if !self.passes() {
            return Err(HandFault::Device);
        }
        self.inner.append(pen, bytes)
    }

    fn seal(&mut self, pen: Pen) -> Result<Stamp, (Pen, HandFault)> {
        if !self.passes() {
            return Err((pen, HandFault::Device));
        }
        self.inner.seal(pen)
    }

    fn discard(&mut self, pen: Pen) {
        self.inner.discard(pen);
    }

    fn read(&mut self, stamp: &Stamp, at: usize, into: &mut [u8]) -> Result<(), HandFault> {
        if !self.passes() {
            return Err(HandFault::Device);
        }
        self.inner.read(stamp, at, into)
    }

    fn retire(&mut self, stamp: &Stamp) -> Result<(), HandFault> {
        if !self.passes() {
            return Err(HandFault::Device);
        }
        self.inner.retire(stamp)
    }

    fn failures(&self) -> u64 {
        self.inner.failures().saturating_add(self.blown)
    }
}
