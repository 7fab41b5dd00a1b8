//! Laws of audits, over the definitions alone.

ghost use Rattle.audit_core.specs.Laws.{TextIsLegal, OneVerdict};

/// The text of what happened is a legal trace, where what happened satisfies every path and its history is legal from
/// the opening contents.
pub fn text_is_legal()
    ensures { TextIsLegal }
{}

/// No two verdicts hold of the same bytes. `Memory`, which says nothing of them, is left aside.
pub fn one_verdict()
    ensures { OneVerdict }
{}
