//! What answers lines, and how a run over lines ends.

ghost use Rattle.std.specs.Prelude.{◌≡◌, ◌++◌, ℕ, List, Bool, IfOk};
ghost use Rattle.value_core.specs.declared.machine.LinesFault.TheVariants.{Memory};

use std::alloc::AllocError;

/// How a run ended.
#[derive(Clone, Copy, Debug, PartialEq, Eq)]
pub enum LinesEnd {
    /// The text ended, and each of its lines was answered.
    Whole,
    /// The answer to the line of this number, counted from 1, stopped the run.
    Stopped(u64),
}

/// Why a run has no end to tell.
#[derive(Clone, Copy, Debug, PartialEq, Eq)]
pub enum LinesFault {
    /// A read failed, or the text had not ended after `MOST_READS` reads.
    ReadFault,
    /// A write failed or took no byte, or a signal broke 16,777,216 writes in a row.
    WriteFault,
    /// There was no memory for a line or an answer.
    Memory,
}

impl From<AllocError> for LinesFault {
    ghost from_gives = { λ _ fault. fault ≡ Memory };

    fn from(_: AllocError) -> LinesFault {
        LinesFault::Memory
    }
}

/// What answers lines.
pub trait Machine {
    /// From the first state, the line of this number gives this text, goes on or stops, and leaves
    /// the second state.
    ghost gives: { Self → ℕ → List ℕ → List ℕ → Bool → Self → Type 0 };

    /// Adds the answer to a line to `out`, and says whether the run goes on.
    ///
    /// `number` counts lines from 1, and `line` lacks its line end. After a want of memory the state
    /// and `out` are open.
    fn answer(&mut self, number: u64, line: &[u8], out: &mut Vec<u8>) -> Result<bool, AllocError>
        ensures { IfOk result (λ goes. (text : List ℕ) × (out.new.items ≡ out.old.items ++ text)
            × gives self.old number line.now text goes self.new) };
}
