//! Laws of plans, over the definitions alone.

ghost use Rattle.page_core.specs.Laws.{PlansTransfer, PlannedAreRenewed};

/// A plan over some bytes is a plan over others, where place by place both pages are what they are there, or they are
/// equal here and equal there.
pub fn plans_transfer()
    ensures { PlansTransfer }
{}

/// When all that is planned of some parts is sealed, their new lists are whole and have their bytes after.
pub fn planned_are_renewed()
    ensures { PlannedAreRenewed }
{}
