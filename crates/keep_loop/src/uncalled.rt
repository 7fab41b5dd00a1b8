//! Public calls that no program makes: they are there for laws and tests, off the path of a call.

ghost use Rattle.std.specs.Prelude.{◌≡◌, ◌⊎◌, ◌++◌, List, ℕ, OnOk, IsErrOf};
ghost use Rattle.keep_loop.specs.Device.{LeavesOnly};
ghost use Rattle.keep_loop.specs.Taken.{ArePlain, TellsBetween};
ghost use Rattle.keep_loop.specs.declared.uncalled.RoundFault.TheVariants.{NotStored, NotWritten};

use crate::device::{Device, DeviceError};
use crate::journal::Journal;
use std::io::Write;

/// Why a round ended early.
#[derive(Clone, Copy, Debug, PartialEq, Eq)]
pub enum RoundFault {
    /// The lines have no room, or it is not known whether they are stored. Nothing was written.
    NotStored,
    /// The lines are stored; of the answers nobody knows how many bytes were written.
    NotWritten,
}

impl<D: Device> Journal<D> {
    ghost use Rattle.keep_loop.specs.Order.{IsInOrder, Holds};

    /// Adds the lines of a round and stores them; then writes the answers. `Err`: `NotStored` where the lines have no
    /// room or the device failed, and nothing was written; else `NotWritten`, and the lines are stored and the journal is
    /// in order.
    pub fn round<W: Write>(
        &mut self,
        writer: &mut W,
        lines: &[u8],
        answers: &[u8],
    ) -> Result<(), RoundFault>
        requires in_order { IsInOrder D.seen D.may_leave self.old }
        requires lines { ArePlain lines.now }

        ensures in_order { OnOk result (IsInOrder D.seen D.may_leave self.new) }
        ensures stored { OnOk result ((stored text : List ℕ) → Holds D.seen self.old stored text
            → Holds D.seen self.new (text ++ lines.now) (text ++ lines.now)) }

        // After an answer that was not written whole the journal goes on.
        ensures not_written { IsErrOf result NotWritten → IsInOrder D.seen D.may_leave self.new
            × ((stored text : List ℕ) → Holds D.seen self.old stored text
            → Holds D.seen self.new (text ++ lines.now) (text ++ lines.now)) }
        ensures not_stored { IsErrOf result NotStored → W.contents writer.new ≡ W.contents writer.old }

        // No answer comes before its lines are on the disk.
        ensures stored_first { (stored text : List ℕ) → Holds D.seen self.old stored text
            → (W.contents writer.new ≡ W.contents writer.old)
            ⊎ Holds D.seen self.new (text ++ lines.now) (text ++ lines.now) }

        ensures any_moment { (stored text : List ℕ) → Holds D.seen self.old stored text
            → LeavesOnly D.moment D.left_since self.old.device self.new.device
            (λ c. TellsBetween stored (text ++ lines.now) c) }
    {
        let Ok(()) = self.append(lines) else {
            return Err(RoundFault::NotStored);
        };
        let Ok(()) = self.sync() else {
            return Err(RoundFault::NotStored);
        };
        let Ok(()) = writer.write_all(answers) else {
            return Err(RoundFault::NotWritten);
        };
        Ok(())
    }
}

/// What is done with a journal.
#[derive(Drop)]
pub enum JournalStep {
    /// Lines are added.
    Lines(Vec<u8>),
    /// All lines are stored.
    Sync,
}

impl<D: Device> Journal<D> {
    ghost use Rattle.keep_loop.specs.Order.{IsInOrder, Holds};
    ghost use Rattle.keep_loop.specs.Run.{AreSteps, HoldsAtLeast, added, added_by};

    // Makes one step.
    fn make(&mut self, step: &JournalStep) -> Result<(), DeviceError>
        requires in_order { IsInOrder D.seen D.may_leave self.old }
        requires lines { ArePlain (added_by step.now) }

        ensures in_order { OnOk result (IsInOrder D.seen D.may_leave self.new) }
        ensures holds { OnOk result ((stored text : List ℕ) → Holds D.seen self.old stored text
            → HoldsAtLeast D.seen self.new stored (text ++ added_by step.now)) }
        ensures any_moment { (stored text : List ℕ) → Holds D.seen self.old stored text
            → LeavesOnly D.moment D.left_since self.old.device self.new.device
            (λ c. TellsBetween stored (text ++ added_by step.now) c) }
    {
        match step {
            JournalStep::Lines(lines) => self.append(lines),
            JournalStep::Sync => self.sync(),
        }
    }

    /// Makes these steps, in order, up to the first that fails. A crash at any moment leaves all that was stored
    /// before, and of what was added since some lines, in order, none left out and none in part. `Err` is that of the
    /// step: `Full`, `Failed` or `Memory`.
    pub fn run(&mut self, steps: &[JournalStep]) -> Result<(), DeviceError>
        requires in_order { IsInOrder D.seen D.may_leave self.old }
        requires lines { AreSteps steps.now }

        ensures in_order { OnOk result (IsInOrder D.seen D.may_leave self.new) }
        ensures holds { OnOk result ((stored text : List ℕ) → Holds D.seen self.old stored text
            → HoldsAtLeast D.seen self.new stored (text ++ added steps.now)) }
        ensures any_moment { (stored text : List ℕ) → Holds D.seen self.old stored text
            → LeavesOnly D.moment D.left_since self.old.device self.new.device
            (λ c. TellsBetween stored (text ++ added steps.now) c) }
    {
        for step in steps {
            self.make(step)?;
        }
        Ok(())
    }
}
