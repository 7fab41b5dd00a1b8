//! What the steps of a run answer.

use device_core::hand::HandFault;

/// What a step answers.
#[derive(Clone, Copy, Debug, PartialEq, Eq)]
pub enum StepAnswer {
    /// The run went on, or it ended in this step as done, refused, or failed for a damaged part.
    Went,
    /// The run failed in this step.
    Failed(HandFault),
    /// The run had ended before. It made no call.
    AlreadyDone,
}
