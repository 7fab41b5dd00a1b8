//! The offices that a session may open.

ghost use Rattle.std.specs.Prelude.{◌≡◌, ◌≤◌, ◌↔◌, IsTrue, IfSome, IfNone, Some, length, slice_get};
ghost use Rattle.session_core.specs.declared.order.Named.{Named as Item};
ghost use Rattle.session_core.specs.Entering.{IsAt, HasNone};

use office_core::office::Office;
use path_tree::name::Name;

/// An object, by its name, and its office.
#[derive(Drop)]
pub struct Named {
    /// The name of the object.
    pub name: Name,
    /// Its office.
    pub office: Office,
}

/// Offices that a session may open, each under a place and a name.
pub trait Offices {
    ghost use Rattle.std.specs.Prelude.{◌≡◌, ◌≤◌, List, IfSome, IfNone, Some, length, slice_get};
    ghost use Rattle.session_core.specs.declared.order.Named.{Named as Item};
    ghost use Rattle.session_core.specs.Entering.{IsAt, HasNone};

    /// The objects and their offices, in the order of their places.
    ghost named: { Self → List Item };

    /// The office at a place, from 0.
    fn office(&self, at: usize) -> Option<&Office>
        ensures some { IfSome result (λ o. (n : Item) × (slice_get (named self.now) at ≡ Some n) × (o.now ≡ n.office)) }
        ensures none { IfNone result (length (named self.now) ≤ at) };

    /// The place of the object of this name. Of several that have it, it is that of one.
    fn place_of(&self, name: &Name) -> Option<usize>
        ensures some { IfSome result (λ at. IsAt (named self.now) at name.now) }
        ensures none { IfNone result (HasNone (named self.now) name.now) };
}

// Whether an object has this name.
fn has_name(named: &Named, name: &Name) -> bool
    ensures { IsTrue result ↔ (named.now.name ≡ name.now) }
{
    named.name.as_bytes() == name.as_bytes()
}

// The place of the object of this name.
fn place_of(offices: &[Named], name: &Name) -> Option<usize>
    ensures some { IfSome result (λ at. IsAt offices.now at name.now) }
    ensures none { IfNone result (HasNone offices.now name.now) }
{
    for at in 0..offices.len() {
        if has_name(&offices[at], name) {
            return Some(at);
        }
    }
    None
}

impl Offices for Vec<Named> {
    ghost named = { λ offices. offices.items };

    fn office(&self, at: usize) -> Option<&Office> {
        match self.get(at) {
            Some(named) => Some(&named.office),
            None => None,
        }
    }

    fn place_of(&self, name: &Name) -> Option<usize> {
        place_of(self, name)
    }
}
