//! Public calls that no program makes: they are there for laws and tests, off the path of a call.

ghost use Rattle.std.specs.Prelude.{◌≡◌, ◌≤◌, ◌+◌, ◌↔◌, IsTrue, MatchOption};
ghost use Rattle.decl_core.specs.ObjectMap.{object_of};
ghost use Rattle.decl_core.specs.Exclusive.{Conflicts};
ghost use Rattle.decl_core.specs.Rest.{IsRestOf, NodeSeparates};
ghost use Rattle.decl_core.specs.Certificate.{IsCertificate};
ghost use Rattle.decl_core.specs.Refusals.{refusal_number, refusal_name};

use crate::analyse::ObjectRefusal;
use crate::certificate::{Certificate, SeparatedPair};
use crate::conflict::conflict_of;
use crate::object::Object;
use crate::search::is_separated_by;

// The entries behind that of these two operations, which stands in front if they conflict.
fn checked_pair<'a>(
    object: &Object,
    first: usize,
    second: usize,
    entries: &'a [SeparatedPair],
) -> Option<&'a [SeparatedPair]>
    requires { first ≤ second }
    ensures { MatchOption result (IsRestOf (object_of object.now) first second entries.now → ⊥)
        (λ more. IsRestOf (object_of object.now) first second entries.now
        ↔ IsRestOf (object_of object.now) first (second + 1) more.now) }
{
    match conflict_of(object, first, second) {
        None => Some(entries),
        Some(_) => behind_entry(object, first, second, entries),
    }
}

// The entries behind that of these two operations, which conflict, if it stands in front.
fn behind_entry<'a>(
    object: &Object,
    first: usize,
    second: usize,
    entries: &'a [SeparatedPair],
) -> Option<&'a [SeparatedPair]>
    requires in_order { first ≤ second }
    requires conflict { Conflicts (object_of object.now) first second }
    ensures { MatchOption result (IsRestOf (object_of object.now) first second entries.now → ⊥)
        (λ more. IsRestOf (object_of object.now) first second entries.now
        ↔ IsRestOf (object_of object.now) first (second + 1) more.now) }
{
    let (entry, rest) = entries.split_first()?;
    if is_entry_of(object, first, second, entry) {
        Some(rest)
    } else {
        None
    }
}

// Whether an entry is of these two operations and its node separates them.
fn is_entry_of(object: &Object, first: usize, second: usize, entry: &SeparatedPair) -> bool
    ensures { IsTrue result ↔ ((entry.now.first ≡ first) × (entry.now.second ≡ second)
        × NodeSeparates (object_of object.now) entry.now) }
{
    entry.first == first
        && entry.second == second
        && is_separated_by(object, entry.path, entry.node, entry.first, entry.second)
}

// The entries behind those of an operation with itself and with those after it.
fn checked_row<'a>(
    object: &Object,
    first: usize,
    entries: &'a [SeparatedPair],
) -> Option<&'a [SeparatedPair]>
    ensures { MatchOption result (IsRestOf (object_of object.now) first first entries.now → ⊥)
        (λ more. IsRestOf (object_of object.now) first first entries.now
        ↔ IsRestOf (object_of object.now) (first + 1) (first + 1) more.now) }
{
    let mut rest = entries;
    for second in first..object.operations.len() {
        match checked_pair(object, first, second, rest) {
            None => return None,
            Some(more) => rest = more,
        }
    }
    Some(rest)
}

/// Whether a certificate is one of an object: its entries are the pairs of operations that conflict, an
/// operation with itself included, in order of declaration with the first not after the second, one
/// each, and the node of each separates its pair. It takes no memory.
pub fn check_certificate(object: &Object, certificate: &Certificate) -> bool
    ensures { IsTrue result ↔ IsCertificate (object_of object.now) certificate.now.entries.items }
{
    let mut rest = certificate.entries.as_slice();
    for first in 0..object.operations.len() {
        match checked_row(object, first, rest) {
            None => return false,
            Some(more) => rest = more,
        }
    }
    rest.is_empty()
}

impl ObjectRefusal {
    /// The number of the refusal: 1 or 2.
    pub fn number(&self) -> u8
        ensures { result ≡ refusal_number self.now }
    {
        match self {
            ObjectRefusal::Unseparated(_, _, _) => 1,
            ObjectRefusal::Memory => 2,
        }
    }

    /// The name of the refusal, as in `Unseparated`.
    pub fn name(&self) -> &'static str
        ensures { result.now ≡ refusal_name self.now }
    {
        match self {
            ObjectRefusal::Unseparated(_, _, _) => "Unseparated",
            ObjectRefusal::Memory => "Memory",
        }
    }
}
