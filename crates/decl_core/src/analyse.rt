//! The analyser: whether each two operations of an object that conflict are separated.

ghost use Rattle.std.specs.Prelude.{⊤, ◌≡◌, ◌≤◌, ◌+◌, IfOk, MatchResult};
ghost use Rattle.decl_core.specs.ObjectMap.{object_of};
ghost use Rattle.decl_core.specs.Exclusive.{IsExclusive};
ghost use Rattle.decl_core.specs.Certificate.{IsFirstCertificate};
ghost use Rattle.decl_core.specs.Rest.{IsCertified};
ghost use Rattle.decl_core.specs.Refusals.{IsWhy};
ghost use Rattle.decl_core.specs.declared.analyse.ObjectRefusal.TheVariants.{Memory};

use crate::certificate::{Certificate, SeparatedPair};
use crate::conflict::conflict_of;
use crate::object::Object;
use crate::search::separation_of;
use std::alloc::{AllocError, AllocFailed, Global};
use std::marker::Model;
use thiserror::Error;

/// An object whose paths separate each two operations that conflict, with its certificate. `analyse`
/// alone makes it.
#[derive(Drop)]
pub struct Accepted {
    object: Object,
    certificate: Certificate,
}

impl Model for Accepted {
    ghost use Rattle.decl_core.specs.declared.object.Object.{Object};
    ghost use Rattle.decl_core.specs.contracts.object.Object as e;
    ghost use Rattle.decl_core.specs.ObjectMap.{object_of};
    ghost use Rattle.decl_core.specs.Exclusive.{IsExclusive};
    ghost use Rattle.decl_core.specs.Certificate.{IsFirstCertificate};

    ghost Value = { Object };

    ghost coded = { e.the_row.coded };

    ghost view = { λ a. a.object };

    ghost invariant = { λ a. IsExclusive (object_of a.object)
        × IsFirstCertificate (object_of a.object) a.certificate.entries.items };
}

impl Accepted {
    /// The object.
    pub fn object(&self) -> &Object
        ensures same { result.now ≡ self.now }
        ensures exclusive { IsExclusive (object_of self.now) }
    {
        &self.object
    }

    /// For each two operations that conflict the first path, and in it the first node, that separates them.
    pub fn certificate(&self) -> &Certificate
        ensures { IsFirstCertificate (object_of self.now) result.now.entries.items }
    {
        &self.certificate
    }

    /// The object, handed out.
    pub fn into_object(self) -> Object
        ensures same { result ≡ self }
        ensures exclusive { IsExclusive (object_of self) }
    {
        self.object
    }
}

/// Why an object is not accepted.
#[derive(Clone, Copy, Debug, PartialEq, Eq, Error)]
pub enum ObjectRefusal {
    /// The first two operations that conflict, in order of declaration, which no node of a path separates,
    /// by their numbers, and the first part at which they do.
    #[error("Unseparated {0} {1} {2}")]
    Unseparated(usize, usize, usize),
    /// Memory was refused.
    #[error("Memory")]
    Memory,
}

impl From<AllocError> for ObjectRefusal {
    ghost from_gives = { λ _ e. e ≡ Memory };

    fn from(_e: AllocError) -> ObjectRefusal {
        ObjectRefusal::Memory
    }
}

impl<T: Drop> From<AllocFailed<T>> for ObjectRefusal {
    ghost from_gives = { λ _ e. e ≡ Memory };

    fn from(_e: AllocFailed<T>) -> ObjectRefusal {
        ObjectRefusal::Memory
    }
}

/// An object that is not accepted, and why.
#[derive(Drop)]
pub struct Refused {
    /// The object, as it was given.
    pub object: Object,
    /// Why it is refused.
    pub why: ObjectRefusal,
}

// Adds the entry of two operations, if they conflict.
fn certify_pair(
    object: &Object,
    first: usize,
    second: usize,
    entries: &mut Vec<SeparatedPair>,
) -> Result<(), ObjectRefusal>
    requires in_order { first ≤ second }
    requires so_far { IsCertified (object_of object.now) first second entries.old.items }
    ensures { MatchResult result (λ _. IsCertified (object_of object.now) first (second + 1) entries.new.items)
        (λ why. IsWhy (object_of object.now) why) }
{
    match conflict_of(object, first, second) {
        None => Ok(()),
        Some(part) => match separation_of(object, first, second) {
            None => Err(ObjectRefusal::Unseparated(first, second, part)),
            Some(at) => {
                entries.push(SeparatedPair {
                    first,
                    second,
                    path: at.path,
                    node: at.node,
                })?;
                Ok(())
            }
        },
    }
}

// Adds the entries of an operation with itself and with those after it.
fn certify_row(
    object: &Object,
    first: usize,
    entries: &mut Vec<SeparatedPair>,
) -> Result<(), ObjectRefusal>
    requires so_far { IsCertified (object_of object.now) first first entries.old.items }
    ensures { MatchResult result (λ _. IsCertified (object_of object.now) (first + 1) (first + 1) entries.new.items)
        (λ why. IsWhy (object_of object.now) why) }
{
    for second in first..object.operations.len() {
        certify_pair(object, first, second, entries)?;
    }
    Ok(())
}

// The certificate of an object.
fn certify(alloc: Global, object: &Object) -> Result<Certificate, ObjectRefusal>
    ensures { MatchResult result (λ c. IsExclusive (object_of object.now)
        × IsFirstCertificate (object_of object.now) c.entries.items) (λ why. IsWhy (object_of object.now) why) }
{
    let mut entries = Vec::new(alloc);
    for first in 0..object.operations.len() {
        certify_row(object, first, &mut entries)?;
    }
    Ok(Certificate { entries })
}

/// Accepts an object whose paths separate each two operations that conflict, an operation with itself
/// included, and hands out each other one with the reason: `Unseparated` with the first two operations
/// in order of declaration, the first not after the second, that conflict and that no node separates,
/// and the first part at which they do; `Memory` where the growth for the certificate was refused.
pub fn analyse(alloc: Global, object: Object) -> Result<Accepted, Refused>
    // The object is accepted, or handed back with why it is not.
    ensures same { MatchResult result (λ accepted. accepted ≡ object) (λ refused. refused.object ≡ object) }
    ensures accepted { IfOk result (λ _. IsExclusive (object_of object)) }
    ensures refused { MatchResult result (λ _. ⊤) (λ refused. IsWhy (object_of object) refused.why) }
    // An exclusive object is accepted, unless memory runs out.
    ensures only { IsExclusive (object_of object) → MatchResult result (λ _. ⊤) (λ refused. refused.why ≡ Memory) }
{
    match certify(alloc, &object) {
        Ok(certificate) => Ok(Accepted {
            object,
            certificate,
        }),
        Err(why) => Err(Refused { object, why }),
    }
}
