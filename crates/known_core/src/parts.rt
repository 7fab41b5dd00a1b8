//! The values of the parts of an object, however they are kept.

ghost use Rattle.std.specs.Prelude.{◌≡◌, ◌<◌, ℕ, List, map, length, Option, IfOk};
ghost use Rattle.value_core.specs.declared.datum.Datum.{Datum};
ghost use Rattle.value_core.specs.Contents.{Contents, kind_of, IsContents};
ghost use Rattle.value_core.specs.Datum.{elem_of, IsElement};
ghost use Rattle.value_core.specs.Kinds.{sort_of, IsArray, IsQueue, IsTable};
ghost use Rattle.value_core.specs.Meaning.{element_at, with_element, oldest_of, without_oldest, with_newest};
ghost use Rattle.value_core.specs.Meaning.{has_key, under_key, with_row, without_key, count_of};
ghost use Rattle.decl_core.specs.Meaning.{part_at};
ghost use Rattle.apply_core.specs.Fitting.{kind_at, IsAt, IsAtOf};
ghost use Rattle.known_core.specs.Partly.{with_contents};
ghost use Rattle.known_core.specs.Breaks.{changing, Leaves};

use crate::act::Stop;
use decl_core::id::PartId;
use value_core::datum::Datum;
use value_core::refusal::Refusal;
use value_core::text::Text;

/// The values of the parts of an object: a body reads them, and changes them in place. An operation that stops may
/// leave any values of the same kinds.
pub trait PartValues {
    /// The values, in order.
    ghost values: { Self → List Contents };

    /// The values that they are once each change is taken back.
    ghost origin: { Self → List Contents };

    /// Called for its contract alone: what lies there are contents that a value can have.
    fn holds_contents(&self, part: PartId)
        requires { part < length (values self.now) }
        ensures { IsContents (part_at (values self.now) part) };

    /// The element of an array at an index. Refused `index`.
    fn element(&self, part: PartId, index: u32) -> Result<Datum, Refusal>
        requires { IsAt (map kind_of (values self.now)) IsArray part }
        ensures value { result ≡ element_at (part_at (values self.now) part) index }
        ensures sort { IfOk result (IsElement (sort_of (kind_at (map kind_of (values self.now)) part))) };

    /// The oldest element of a queue. Refused `empty`.
    fn first(&self, part: PartId) -> Result<Datum, Refusal>
        requires { IsAt (map kind_of (values self.now)) IsQueue part }
        ensures value { result ≡ oldest_of (part_at (values self.now) part) }
        ensures sort { IfOk result (IsElement (sort_of (kind_at (map kind_of (values self.now)) part))) };

    /// What stands under a key of a table. Refused `missing`.
    fn lookup(&self, part: PartId, key: &Text) -> Result<Datum, Refusal>
        requires { IsAt (map kind_of (values self.now)) IsTable part }
        ensures value { result ≡ under_key (part_at (values self.now) part) key.now }
        ensures sort { IfOk result (IsElement (sort_of (kind_at (map kind_of (values self.now)) part))) };

    /// Whether a table has a key.
    fn has(&self, part: PartId, key: &Text) -> bool
        requires { IsAt (map kind_of (values self.now)) IsTable part }
        ensures { result ≡ has_key (part_at (values self.now) part) key.now };

    /// The length of an array or a queue, the number of keys of a table.
    fn count(&self, part: PartId) -> u32
        requires { part < length (map kind_of (values self.now)) }
        ensures { result ≡ count_of (part_at (values self.now) part) };

    /// Puts an element into an array.
    fn set(&mut self, part: PartId, index: u32, datum: Datum) -> Result<(), Stop>
        requires { IsAtOf (map kind_of (values self.old)) IsArray part (elem_of datum) }
        ensures left { (reply : Option Datum) →
            Leaves result (with_contents (changing (values self.old) reply) part
            (with_element (part_at (values self.old) part) index datum)) (changing (values self.new) reply) }
        ensures kinds { map kind_of (values self.new) ≡ map kind_of (values self.old) }
        ensures origin { origin self.new ≡ origin self.old };

    /// Adds an element to a queue.
    fn append(&mut self, part: PartId, datum: Datum) -> Result<(), Stop>
        requires { IsAtOf (map kind_of (values self.old)) IsQueue part (elem_of datum) }
        ensures left { (reply : Option Datum) →
            Leaves result (with_contents (changing (values self.old) reply) part
            (with_newest (part_at (values self.old) part) datum)) (changing (values self.new) reply) }
        ensures kinds { map kind_of (values self.new) ≡ map kind_of (values self.old) }
        ensures origin { origin self.new ≡ origin self.old };

    /// Removes the oldest element of a queue.
    fn take(&mut self, part: PartId) -> Result<(), Stop>
        requires { IsAt (map kind_of (values self.old)) IsQueue part }
        ensures left { (reply : Option Datum) →
            Leaves result (with_contents (changing (values self.old) reply) part
            (without_oldest (part_at (values self.old) part))) (changing (values self.new) reply) }
        ensures kinds { map kind_of (values self.new) ≡ map kind_of (values self.old) }
        ensures origin { origin self.new ≡ origin self.old };

    /// Puts an element under a key of a table.
    fn store(&mut self, part: PartId, key: Text, datum: Datum) -> Result<(), Stop>
        requires { IsAtOf (map kind_of (values self.old)) IsTable part (elem_of datum) }
        ensures left { (reply : Option Datum) →
            Leaves result (with_contents (changing (values self.old) reply) part
            (with_row (part_at (values self.old) part) key datum)) (changing (values self.new) reply) }
        ensures kinds { map kind_of (values self.new) ≡ map kind_of (values self.old) }
        ensures origin { origin self.new ≡ origin self.old };

    /// Removes a key of a table.
    fn erase(&mut self, part: PartId, key: Text) -> Result<(), Stop>
        requires { IsAt (map kind_of (values self.old)) IsTable part }
        ensures left { (reply : Option Datum) →
            Leaves result (with_contents (changing (values self.old) reply) part
            (without_key (part_at (values self.old) part) key)) (changing (values self.new) reply) }
        ensures kinds { map kind_of (values self.new) ≡ map kind_of (values self.old) }
        ensures origin { origin self.new ≡ origin self.old };
}
