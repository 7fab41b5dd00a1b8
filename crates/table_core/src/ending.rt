//! The fronts by which the objects of a table go on that ends.

ghost use Rattle.std.specs.Prelude.{◌≡◌, true};
ghost use Rattle.live_core.specs.Fronts.{IsNextFront};
ghost use Rattle.client_core.specs.Moves.{FrontsHeld, IsFrontAt};
ghost use Rattle.table_core.specs.Moves.{Fronts};
ghost use Rattle.table_core.specs.Seen.{seen};

use crate::table::Table;
use live_core::hosted::Hosted;

// Writes the front of the next epoch of an object, where one can begin.
fn fronts_next(object: &Hosted, front: &mut Vec<u8>) -> bool
    ensures { result ≡ true → IsNextFront object.now front.new.items }
{
    match object.write_next(front) {
        Ok(is_written) => is_written,
        Err(_) => false,
    }
}

// The same, of the object at a place.
fn fronts_at(objects: &[Hosted], place: usize, front: &mut Vec<u8>) -> bool
    ensures { result ≡ true → IsFrontAt objects.now place front.new.items }
{
    match objects.get(place) {
        None => false,
        Some(object) => fronts_next(object, front),
    }
}

impl Table {
    // Adds what is held of the object at a place to its front. False: memory was refused.
    fn has_held(&self, at: usize, front: &mut Vec<u8>) -> bool
        requires { IsFrontAt self.now.objects.items at front.old.items }
        ensures { result ≡ true → FrontsHeld (seen self.now) at front.new.items }
    {
        match self.custody.push_lines(at, &self.objects, front) {
            Ok(()) => true,
            Err(_) => false,
        }
    }

    /// Writes the front by which the next epoch of the object at a place would begin, with what is held of it, in place of what
    /// is in `front`. False: none can begin, memory was refused, or there is no such object; what then stands in `front` is not
    /// said.
    pub fn write_front(&self, at: usize, front: &mut Vec<u8>) -> bool
        ensures { result ≡ true → Fronts self.now at front.new.items }
    {
        if !fronts_at(&self.objects, at, front) {
            return false;
        }
        self.has_held(at, front)
    }
}
