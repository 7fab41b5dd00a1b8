//! Laws of lists of events, over the definitions alone.

ghost use Rattle.world_core.specs.Laws.{FailsOnlyWithItsDevice, RepliesAreTold, StepsTakeWork, WorkIsBounded};

/// A call fails for the device only where a step of its own was made to fail, and never since a part is damaged.
pub fn fails_only_with_its_device()
    ensures { FailsOnlyWithItsDevice }
{}

/// The calls that finished, with the replies that they were given, are the history, in order.
pub fn replies_are_told()
    ensures { RepliesAreTold }
{}

/// Each step of a run leaves it less to do, and no run has more to do than the most. So each run ends after at most 640
/// steps: of 16 parts it reads 8 pages at first, and 8 that its body comes to, and writes as many, each in three steps.
pub fn steps_take_work()
    ensures falls { StepsTakeWork }
    ensures most { WorkIsBounded }
{}
