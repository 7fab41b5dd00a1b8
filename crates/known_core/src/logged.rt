//! Values that are kept element by element, with what takes the changes of a body back.

ghost use Rattle.std.specs.Prelude.{◌≡◌, ◌<◌, length, map, Option};
ghost use Rattle.value_core.specs.declared.datum.Datum.{Datum};
ghost use Rattle.value_core.specs.Contents.{kind_of};
ghost use Rattle.value_core.specs.Datum.{elem_of};
ghost use Rattle.value_core.specs.Kinds.{IsArray, IsQueue, IsTable};
ghost use Rattle.value_core.specs.Meaning.{with_element, without_oldest, with_newest, with_row, without_key};
ghost use Rattle.decl_core.specs.Meaning.{part_at};
ghost use Rattle.known_core.specs.Partly.{with_contents};
ghost use Rattle.apply_core.specs.Fitting.{kind_at, IsAt, IsAtOf};
ghost use Rattle.known_core.specs.Log.{taken_back};
ghost use Rattle.known_core.specs.Breaks.{changing, Leaves};

use crate::act::Stop;
use crate::parts::PartValues;
use decl_core::id::PartId;
use value_core::datum::Datum;
use value_core::refusal::Refusal;
use value_core::text::Text;
use value_core::undo::Undo;
use value_core::value::Value;

/// Values, and what takes their changes back, the newest last.
#[derive(Drop)]
pub struct LoggedValues {
    pub values: Vec<Value>,
    pub log: Vec<(PartId, Undo)>,
}

// The value of a part.
fn value_of(parts: &[Value], part: PartId) -> &Value
    requires { part < length (map kind_of parts.now) }
    ensures value { result.now ≡ part_at parts.now part }
    ensures kind { kind_of result.now ≡ kind_at (map kind_of parts.now) part }
{
    &parts[part.place() as usize]
}

// Puts an element into an array.
#[tactic(auto, using(apply_core::proofs::KindsKept::kinds_kept))]
fn set(
    parts: &mut Vec<Value>,
    part: PartId,
    index: u32,
    datum: Datum,
    log: &mut Vec<(PartId, Undo)>,
) -> Result<(), Stop>
    requires at { IsAtOf (map kind_of parts.old.items) IsArray part (elem_of datum) }
    ensures left { (reply : Option Datum) →
        Leaves result (with_contents (changing parts.old.items reply) part
        (with_element (part_at parts.old.items part) index datum)) (changing parts.new.items reply) }
    ensures kinds { map kind_of parts.new.items ≡ map kind_of parts.old.items }
    ensures back { taken_back log.new.items parts.new.items ≡ taken_back log.old.items parts.old.items }
{
    log.reserve(1)?;
    let value = &mut parts[part.place() as usize];
    let undo = value.set(index, datum)?;
    log.push_reserved((part, undo));
    Ok(())
}

// Adds an element to a queue.
#[tactic(auto, using(apply_core::proofs::KindsKept::kinds_kept))]
fn append(
    parts: &mut Vec<Value>,
    part: PartId,
    datum: Datum,
    log: &mut Vec<(PartId, Undo)>,
) -> Result<(), Stop>
    requires at { IsAtOf (map kind_of parts.old.items) IsQueue part (elem_of datum) }
    ensures left { (reply : Option Datum) →
        Leaves result (with_contents (changing parts.old.items reply) part
        (with_newest (part_at parts.old.items part) datum)) (changing parts.new.items reply) }
    ensures kinds { map kind_of parts.new.items ≡ map kind_of parts.old.items }
    ensures back { taken_back log.new.items parts.new.items ≡ taken_back log.old.items parts.old.items }
{
    log.reserve(1)?;
    let value = &mut parts[part.place() as usize];
    let undo = value.append(datum)?;
    log.push_reserved((part, undo));
    Ok(())
}

// Removes the oldest element of a queue.
#[tactic(auto, using(apply_core::proofs::KindsKept::kinds_kept))]
fn take(parts: &mut Vec<Value>, part: PartId, log: &mut Vec<(PartId, Undo)>) -> Result<(), Stop>
    requires at { IsAt (map kind_of parts.old.items) IsQueue part }
    ensures left { (reply : Option Datum) →
        Leaves result (with_contents (changing parts.old.items reply) part
        (without_oldest (part_at parts.old.items part))) (changing parts.new.items reply) }
    ensures kinds { map kind_of parts.new.items ≡ map kind_of parts.old.items }
    ensures back { taken_back log.new.items parts.new.items ≡ taken_back log.old.items parts.old.items }
{
    log.reserve(1)?;
    let value = &mut parts[part.place() as usize];
    let undo = value.take()?;
    log.push_reserved((part, undo));
    Ok(())
}

// Puts an element under a key of a table.
#[tactic(auto, using(apply_core::proofs::KindsKept::kinds_kept))]
fn store(
    parts: &mut Vec<Value>,
    part: PartId,
    key: Text,
    datum: Datum,
    log: &mut Vec<(PartId, Undo)>,
) -> Result<(), Stop>
    requires at { IsAtOf (map kind_of parts.old.items) IsTable part (elem_of datum) }
    ensures left { (reply : Option Datum) →
        Leaves result (with_contents (changing parts.old.items reply) part
        (with_row (part_at parts.old.items part) key datum)) (changing parts.new.items reply) }
    ensures kinds { map kind_of parts.new.items ≡ map kind_of parts.old.items }
    ensures back { taken_back log.new.items parts.new.items ≡ taken_back log.old.items parts.old.items }
{
    log.reserve(1)?;
    let value = &mut parts[part.place() as usize];
    let undo = value.store(key, datum)?;
    log.push_reserved((part, undo));
    Ok(())
}

// Removes a key of a table.
#[tactic(auto, using(apply_core::proofs::KindsKept::kinds_kept))]
fn erase(
    parts: &mut Vec<Value>,
    part: PartId,
    key: Text,
    log: &mut Vec<(PartId, Undo)>,
) -> Result<(), Stop>
    requires at { IsAt (map kind_of parts.old.items) IsTable part }
    ensures left { (reply : Option Datum) →
        Leaves result (with_contents (changing parts.old.items reply) part
        (without_key (part_at parts.old.items part) key)) (changing parts.new.items reply) }
    ensures kinds { map kind_of parts.new.items ≡ map kind_of parts.old.items }
    ensures back { taken_back log.new.items parts.new.items ≡ taken_back log.old.items parts.old.items }
{
    log.reserve(1)?;
    let value = &mut parts[part.place() as usize];
    let undo = value.erase(&key)?;
    log.push_reserved((part, undo));
    Ok(())
}

impl PartValues for LoggedValues {
    ghost use Rattle.known_core.specs.Log.{taken_back};

    ghost values = { λ s. s.values.items };

    ghost origin = { λ s. taken_back s.log.items s.values.items };

    fn holds_contents(&self, part: PartId) {
        let _kind = self.values[part.place() as usize].kind();
    }

    fn element(&self, part: PartId, index: u32) -> Result<Datum, Refusal> {
        let value = value_of(&self.values, part);
        value.element(index)
    }

    fn first(&self, part: PartId) -> Result<Datum, Refusal> {
        let value = value_of(&self.values, part);
        value.first()
    }

    fn lookup(&self, part: PartId, key: &Text) -> Result<Datum, Refusal> {
        let value = value_of(&self.values, part);
        value.lookup(key)
    }

    fn has(&self, part: PartId, key: &Text) -> bool {
        let value = value_of(&self.values, part);
        value.has(key)
    }

    fn count(&self, part: PartId) -> u32 {
        let value = value_of(&self.values, part);
        value.count()
    }

    fn set(&mut self, part: PartId, index: u32, datum: Datum) -> Result<(), Stop> {
        set(&mut self.values, part, index, datum, &mut self.log)
    }

    fn append(&mut self, part: PartId, datum: Datum) -> Result<(), Stop> {
        append(&mut self.values, part, datum, &mut self.log)
    }

    fn take(&mut self, part: PartId) -> Result<(), Stop> {
        take(&mut self.values, part, &mut self.log)
    }

    fn store(&mut self, part: PartId, key: Text, datum: Datum) -> Result<(), Stop> {
        store(&mut self.values, part, key, datum, &mut self.log)
    }

    fn erase(&mut self, part: PartId, key: Text) -> Result<(), Stop> {
        erase(&mut self.values, part, key, &mut self.log)
    }
}
