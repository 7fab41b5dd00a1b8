//! The values of parts in the bytes that spell them, as a body reads and changes them.

ghost use Rattle.std.specs.Prelude.{◌≡◌, ◌<◌, [], length, map, Option};
ghost use Rattle.value_core.specs.declared.datum.Datum.{Datum};
ghost use Rattle.value_core.specs.Contents.{kind_of};
ghost use Rattle.value_core.specs.Datum.{elem_of};
ghost use Rattle.value_core.specs.Kinds.{IsArray, IsQueue, IsTable};
ghost use Rattle.value_core.specs.Meaning.{with_element, without_oldest, with_newest, with_row, without_key};
ghost use Rattle.decl_core.specs.Meaning.{part_at};
ghost use Rattle.apply_core.specs.Fitting.{kind_at, IsAt, IsAtOf};
ghost use Rattle.known_core.specs.Partly.{with_contents};
ghost use Rattle.known_core.specs.Breaks.{changing, Leaves};

use apply_core::spelled::Spelled;
use decl_core::id::PartId;
use known_core::act::Stop;
use known_core::parts::PartValues;
use value_core::datum::Datum;
use value_core::refusal::Refusal;
use value_core::text::Text;

/// Values in their bytes. Nothing takes a change back.
#[derive(Drop)]
pub struct SpelledValues {
    pub values: Vec<Spelled>,
}

// The value of a part.
fn value_of(parts: &[Spelled], part: PartId) -> &Spelled
    requires { part < length (map kind_of parts.now) }
    ensures value { result.now ≡ part_at parts.now part }
    ensures kind { kind_of result.now ≡ kind_at (map kind_of parts.now) part }
{
    &parts[part.place() as usize]
}

// Puts an element into an array.
#[tactic(auto, using(apply_core::proofs::KindsKept::kinds_kept))]
fn set(parts: &mut Vec<Spelled>, part: PartId, index: u32, datum: &Datum) -> Result<(), Stop>
    requires at { IsAtOf (map kind_of parts.old.items) IsArray part (elem_of datum.now) }
    ensures left { (reply : Option Datum) →
        Leaves result (with_contents (changing parts.old.items reply) part
        (with_element (part_at parts.old.items part) index datum.now)) (changing parts.new.items reply) }
    ensures kinds { map kind_of parts.new.items ≡ map kind_of parts.old.items }
{
    let value = &mut parts[part.place() as usize];
    value.set(index, datum)?;
    Ok(())
}

// Adds an element to a queue.
#[tactic(auto, using(apply_core::proofs::KindsKept::kinds_kept))]
fn append(parts: &mut Vec<Spelled>, part: PartId, datum: &Datum) -> Result<(), Stop>
    requires at { IsAtOf (map kind_of parts.old.items) IsQueue part (elem_of datum.now) }
    ensures left { (reply : Option Datum) →
        Leaves result (with_contents (changing parts.old.items reply) part
        (with_newest (part_at parts.old.items part) datum.now)) (changing parts.new.items reply) }
    ensures kinds { map kind_of parts.new.items ≡ map kind_of parts.old.items }
{
    let value = &mut parts[part.place() as usize];
    value.append(datum)?;
    Ok(())
}

// Removes the oldest element of a queue.
#[tactic(auto, using(apply_core::proofs::KindsKept::kinds_kept))]
fn take(parts: &mut Vec<Spelled>, part: PartId) -> Result<(), Stop>
    requires at { IsAt (map kind_of parts.old.items) IsQueue part }
    ensures left { (reply : Option Datum) →
        Leaves result (with_contents (changing parts.old.items reply) part
        (without_oldest (part_at parts.old.items part))) (changing parts.new.items reply) }
    ensures kinds { map kind_of parts.new.items ≡ map kind_of parts.old.items }
{
    let value = &mut parts[part.place() as usize];
    value.take()?;
    Ok(())
}

// Puts an element under a key of a table.
#[tactic(auto, using(apply_core::proofs::KindsKept::kinds_kept))]
fn store(parts: &mut Vec<Spelled>, part: PartId, key: &Text, datum: &Datum) -> Result<(), Stop>
    requires at { IsAtOf (map kind_of parts.old.items) IsTable part (elem_of datum.now) }
    ensures left { (reply : Option Datum) →
        Leaves result (with_contents (changing parts.old.items reply) part
        (with_row (part_at parts.old.items part) key.now datum.now)) (changing parts.new.items reply) }
    ensures kinds { map kind_of parts.new.items ≡ map kind_of parts.old.items }
{
    let value = &mut parts[part.place() as usize];
    value.store(key, datum)?;
    Ok(())
}

// Removes a key of a table.
#[tactic(auto, using(apply_core::proofs::KindsKept::kinds_kept))]
fn erase(parts: &mut Vec<Spelled>, part: PartId, key: &Text) -> Result<(), Stop>
    requires at { IsAt (map kind_of parts.old.items) IsTable part }
    ensures left { (reply : Option Datum) →
        Leaves result (with_contents (changing parts.old.items reply) part
        (without_key (part_at parts.old.items part) key.now)) (changing parts.new.items reply) }
    ensures kinds { map kind_of parts.new.items ≡ map kind_of parts.old.items }
{
    let value = &mut parts[part.place() as usize];
    value.erase(key)?;
    Ok(())
}

impl PartValues for SpelledValues {
    ghost use Rattle.std.specs.Prelude.{[]};

    ghost values = { λ s. s.values.items };

    ghost origin = { λ s. [] };

    fn holds_contents(&self, part: PartId) {
        let _kind = self.values[part.place() as usize].kind();
    }

    fn element(&self, part: PartId, index: u32) -> Result<Datum, Refusal> {
        let value = value_of(&self.values, part);
        value.element(index)
    }

    fn first(&self, part: PartId) -> Result<Datum, Refusal> {
        let value = value_of(&self.values, part);
        value.first()
    }

    fn lookup(&self, part: PartId, key: &Text) -> Result<Datum, Refusal> {
        let value = value_of(&self.values, part);
        value.lookup(key)
    }

    fn has(&self, part: PartId, key: &Text) -> bool {
        let value = value_of(&self.values, part);
        value.has(key)
    }

    fn count(&self, part: PartId) -> u32 {
        let value = value_of(&self.values, part);
        value.count()
    }

    fn set(&mut self, part: PartId, index: u32, datum: Datum) -> Result<(), Stop> {
        set(&mut self.values, part, index, &datum)
    }

    fn append(&mut self, part: PartId, datum: Datum) -> Result<(), Stop> {
        append(&mut self.values, part, &datum)
    }

    fn take(&mut self, part: PartId) -> Result<(), Stop> {
        take(&mut self.values, part)
    }

    fn store(&mut self, part: PartId, key: Text, datum: Datum) -> Result<(), Stop> {
        store(&mut self.values, part, &key, &datum)
    }

    fn erase(&mut self, part: PartId, key: Text) -> Result<(), Stop> {
        erase(&mut self.values, part, &key)
    }
}
