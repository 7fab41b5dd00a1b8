//! Public calls that no program makes: they are there for laws and tests, off the path of a call.

ghost use Rattle.std.specs.Prelude.{◌≡◌, ◌↔◌, [], IsTrue, IfSome, IfNone};
ghost use Rattle.std.specs.Arc.{arc_value};
ghost use Rattle.board_core.specs.Outcomes.{IsEntryOf};
ghost use Rattle.page_core.specs.Outcomes.{outcome_call, outcome_pins};

use crate::receipt::NotedOutcome;
use decl_core::object::Operation;
use decl_core::same::same_declaration;
use page_core::entry::Entry;
use page_core::part_pins::PartPins;
use std::sync::Arc;
use value_core::datum::Datum;

// Whether the new pins of this entry are those of an outcome.
fn has_news(entry: &Entry, noted: &NotedOutcome) -> bool
    ensures { IsTrue result ↔ (entry.now.news ≡ outcome_pins noted.now.outcome) }
{
    match (entry.new_pins(), noted.new_pins()) {
        (Some(news), Some(others)) => news.is_same(others),
        (Some(news), None) => news.is_empty(),
        (None, Some(others)) => others.is_empty(),
        (None, None) => true,
    }
}

/// Whether this is the entry that a receipt tells of: it tells of the call all that the outcome tells. It takes no
/// memory.
pub fn is_entry_of(entry: &Entry, noted: &NotedOutcome) -> bool
    ensures { IsTrue result ↔ IsEntryOf noted.now.session noted.now.outcome entry.now }
{
    if entry.number() != noted.number() {
        return false;
    }
    if entry.session() != noted.session {
        return false;
    }
    if !same_declaration(entry.operation(), noted.operation()) {
        return false;
    }
    if !entry.args().are(noted.args()) {
        return false;
    }
    if !entry.kept_reply().is(noted.reply()) {
        return false;
    }
    if !has_news(entry, noted) {
        return false;
    }
    entry.pins().is_same(noted.pins())
}

impl NotedOutcome {
    /// The number of the call.
    pub fn number(&self) -> u32
        ensures { result ≡ (outcome_call self.now.outcome).number }
    {
        self.outcome.number()
    }

    /// The operation that was called.
    pub fn operation(&self) -> &Arc<Operation>
        ensures { arc_value result.now ≡ (outcome_call self.now.outcome).operation }
    {
        self.outcome.operation()
    }

    /// The arguments, in order.
    pub fn args(&self) -> &[Datum]
        ensures { result.now ≡ (outcome_call self.now.outcome).arguments }
    {
        self.outcome.args()
    }

    /// The pins that were published at the call's start, one for each part that its operation reads.
    pub fn pins(&self) -> &PartPins
        ensures { result.now ≡ (outcome_call self.now.outcome).pins }
    {
        self.outcome.pins()
    }

    /// The new pins that were published, for the parts that the call changed, in the order of the parts. Only a call
    /// that was done has some.
    pub fn new_pins(&self) -> Option<&PartPins>
        ensures some { IfSome result (λ pins. pins.now ≡ outcome_pins self.now.outcome) }
        ensures none { IfNone result (outcome_pins self.now.outcome ≡ []) }
    {
        self.outcome.new_pins()
    }
}
