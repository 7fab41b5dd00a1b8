//! Laws of histories, over the definitions alone.

ghost use Rattle.apply_core.specs.HistoryLaws.{LeadsOn, LegalSplits, LeadsByOne, LegalByOne, RefusedChangesNone};

/// Two histories, one after the other, lead to what the second leads to from where the first leads.
pub fn leads_on()
    ensures { LeadsOn }
{}

/// Two histories, one after the other, are legal exactly where the first is, and the second is from where
/// the first leads.
pub fn legal_splits()
    ensures { LegalSplits }
{}

/// A history with one end more leads to what this end leaves of where the history leads.
pub fn leads_by_one()
    ensures { LeadsByOne }
{}

/// A history with one end more is legal exactly where the history is, and the end replies what the
/// sequential object gives where the history leads.
pub fn legal_by_one()
    ensures { LegalByOne }
{}

/// A refused call changes no part.
pub fn refused_changes_none()
    ensures { RefusedChangesNone }
{}
