//! Laws of receipts, over the definitions alone.

ghost use Rattle.office_core.specs.Receipts.{ReceiptsAreLegal, SlipsAreLegal};

/// Where each entry of a desk has a receipt, and each receipt stands in the history and is true, the history is
/// legal, and it leads to what the published pins spell.
pub fn receipts_are_legal()
    ensures { ReceiptsAreLegal }
{}

/// Where each entry of a desk has a slip, and each slip stands in the history and is true, the history is legal, and it
/// leads to what the published pins spell.
pub fn slips_are_legal()
    ensures { SlipsAreLegal }
{}
