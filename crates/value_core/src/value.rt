//! Values, and the operations on them.

ghost use Rattle.std.specs.Prelude.{◌≡◌, IfOk};
ghost use Rattle.value_core.specs.Datum.{elem_of, IsElement};
ghost use Rattle.value_core.specs.Kinds.{sort_of, IsKind, IsArray, IsQueue, IsTable};
ghost use Rattle.value_core.specs.Body.{contents_of};
ghost use Rattle.value_core.specs.Contents.{kind_of, elements_of, rows_of, IsContents};
ghost use Rattle.value_core.specs.Meaning.{opening_of, element_at, with_element, oldest_of, without_oldest};
ghost use Rattle.value_core.specs.Meaning.{with_newest, has_key, under_key, with_row, without_key, count_of};
ghost use Rattle.value_core.specs.Undo.{back, Grown};

use crate::cells::Cells;
use crate::datum::Datum;
use crate::kind::Kind;
use crate::limits::MOST_ELEMENTS;
use crate::queue::Queue;
use crate::refusal::{GrowFault, Refusal};
use crate::rows::Rows;
use crate::text::Text;
use crate::undo::Undo;
use std::alloc::{AllocError, Global};
use std::marker::Model;

/// An array, a queue or a table, of at most 1,024 integers or texts.
#[derive(Drop)]
pub struct Value {
    body: Body,
}

/// How a value is kept. Each kind keeps integers and texts apart, so that an integer takes four bytes.
#[derive(Drop)]
pub enum Body {
    Array(Cells),
    Queue(Queue),
    Table(Rows),
}

impl Model for Value {
    ghost use Rattle.value_core.specs.Contents.{Contents, IsContents};
    ghost use Rattle.value_core.specs.Code.{contents_code};

    ghost Value = { Contents };

    ghost coded = { contents_code };

    ghost use Rattle.value_core.specs.Body.{contents_of};

    ghost view = { λ a. contents_of a.body };

    ghost invariant = { λ a. IsContents (contents_of a.body) };
}

impl Value {
    /// The value that is kept so.
    pub fn of(body: Body) -> Value
        requires { IsContents (contents_of body) }
        ensures { result ≡ contents_of body }
    {
        Value { body }
    }

    /// How the value is kept.
    pub fn body(&self) -> &Body
        ensures body { contents_of result.now ≡ self.now }
        ensures contents { IsContents self.now }
    {
        &self.body
    }

    /// The value that a part of this kind begins with: zeros or empty texts, an empty queue, an empty
    /// table.
    pub fn opening(alloc: Global, kind: Kind) -> Result<Value, AllocError>
        requires { IsKind kind }
        ensures { IfOk result (λ value. (value ≡ opening_of kind) × (kind_of value ≡ kind)) }
    {
        let body = match kind {
            Kind::Array(count, sort) => Body::Array(Cells::zeros(alloc, sort, count as usize)?),
            Kind::Queue(sort) => Body::Queue(Queue::new(alloc, sort)),
            Kind::Table(sort) => Body::Table(Rows::new(alloc, sort)),
        };
        Ok(Value { body })
    }

    /// A copy of the value, in memory of its own.
    pub fn copy(&self, alloc: Global) -> Result<Value, AllocError>
        ensures { IfOk result (λ copy. copy ≡ self.now) }
    {
        let body = match &self.body {
            Body::Array(cells) => Body::Array(cells.copy(alloc)?),
            Body::Queue(queue) => Body::Queue(queue.copy(alloc)?),
            Body::Table(rows) => Body::Table(rows.copy()?),
        };
        Ok(Value { body })
    }

    /// Its kind: an array's with its length.
    pub fn kind(&self) -> Kind
        ensures kind { result ≡ kind_of self.now }
        ensures contents { IsContents self.now }
    {
        match &self.body {
            Body::Array(cells) => Kind::Array(cells.len() as u16, cells.sort()),
            Body::Queue(queue) => Kind::Queue(queue.sort()),
            Body::Table(rows) => Kind::Table(rows.sort()),
        }
    }

    /// The length of an array or a queue, the number of keys of a table; from 0 to 1,024.
    pub fn count(&self) -> u32
        ensures { result ≡ count_of self.now }
    {
        match &self.body {
            Body::Array(cells) => cells.len() as u32,
            Body::Queue(queue) => queue.len() as u32,
            Body::Table(rows) => rows.len() as u32,
        }
    }

    /// The elements of an array or a queue, in order, the oldest first; of a table none.
    pub fn elements(&self, alloc: Global) -> Result<Vec<Datum>, AllocError>
        ensures { IfOk result (λ list. list.items ≡ elements_of self.now) }
    {
        match &self.body {
            Body::Array(cells) => cells.list(alloc),
            Body::Queue(queue) => queue.list(alloc),
            Body::Table(_) => Ok(Vec::new(alloc)),
        }
    }

    /// The keys of a table and what stands under them, keys rising; of an array or a queue none.
    pub fn rows(&self, alloc: Global) -> Result<Vec<(Text, Datum)>, AllocError>
        ensures { IfOk result (λ list. list.items ≡ rows_of self.now) }
    {
        match &self.body {
            Body::Table(rows) => rows.list(alloc),
            Body::Array(_) | Body::Queue(_) => Ok(Vec::new(alloc)),
        }
    }

    /// The element of an array at an index, counted from 0. Refused `index` where the index is not below
    /// the array's length.
    pub fn element(&self, index: u32) -> Result<Datum, Refusal>
        requires { IsArray (kind_of self.now) }
        ensures value { result ≡ element_at self.now index }
        ensures sort { IfOk result (IsElement (sort_of (kind_of self.now))) }
    {
        let Body::Array(cells) = &self.body else {
            unreachable!();
        };
        cells.get(index as usize).ok_or(Refusal::Index)
    }

    /// Puts an element in the place of the one at an index, and says what takes that back. Refused `index` as by
    /// `element`, then `Memory`; nothing changes in either case.
    pub fn set(&mut self, index: u32, datum: Datum) -> Result<Undo, GrowFault>
        requires kind { IsArray (kind_of self.old) }
        requires sort { elem_of datum ≡ sort_of (kind_of self.old) }
        ensures change { Grown result (with_element self.old index datum) self.old self.new }
        ensures kind { kind_of self.new ≡ kind_of self.old }
    {
        // Called for its contract alone: this is a datum.
        let _sort = datum.elem();
        let Body::Array(cells) = &mut self.body else {
            unreachable!();
        };
        if index as usize >= cells.len() {
            return Err(GrowFault::Refused(Refusal::Index));
        }
        let undo = cells.replace(index as usize, datum)?;
        Ok(undo)
    }

    /// The oldest element of a queue. Refused `empty` where there is none.
    pub fn first(&self) -> Result<Datum, Refusal>
        requires { IsQueue (kind_of self.now) }
        ensures value { result ≡ oldest_of self.now }
        ensures sort { IfOk result (IsElement (sort_of (kind_of self.now))) }
    {
        let Body::Queue(queue) = &self.body else {
            unreachable!();
        };
        queue.get(0).ok_or(Refusal::Empty)
    }

    /// Removes the oldest element of a queue, and says what takes that back. Refused `empty` where there is none,
    /// then `Memory`; nothing changes in either case.
    pub fn take(&mut self) -> Result<Undo, GrowFault>
        requires { IsQueue (kind_of self.old) }
        ensures change { Grown result (without_oldest self.old) self.old self.new }
        ensures kind { kind_of self.new ≡ kind_of self.old }
    {
        let Body::Queue(queue) = &mut self.body else {
            unreachable!();
        };
        if queue.len() == 0 {
            return Err(GrowFault::Refused(Refusal::Empty));
        }
        let undo = queue.take()?;
        Ok(undo)
    }

    /// Adds an element to a queue, as its newest, and says what takes that back. Refused `full` at 1,024 elements,
    /// then `Memory`; nothing changes in either case.
    pub fn append(&mut self, datum: Datum) -> Result<Undo, GrowFault>
        requires kind { IsQueue (kind_of self.old) }
        requires sort { elem_of datum ≡ sort_of (kind_of self.old) }
        ensures change { Grown result (with_newest self.old datum) self.old self.new }
        ensures kind { kind_of self.new ≡ kind_of self.old }
    {
        // Called for its contract alone: this is a datum.
        let _sort = datum.elem();
        let Body::Queue(queue) = &mut self.body else {
            unreachable!();
        };
        if queue.len() >= MOST_ELEMENTS as usize {
            return Err(GrowFault::Refused(Refusal::Full));
        }
        queue.push(datum)?;
        Ok(Undo::Newest)
    }

    /// Whether a table has a key.
    pub fn has(&self, key: &Text) -> bool
        requires { IsTable (kind_of self.now) }
        ensures { result ≡ has_key self.now key.now }
    {
        let Body::Table(rows) = &self.body else {
            unreachable!();
        };
        rows.has(key)
    }

    /// What stands under a key of a table. Refused `missing` where the table has no such key.
    pub fn lookup(&self, key: &Text) -> Result<Datum, Refusal>
        requires { IsTable (kind_of self.now) }
        ensures value { result ≡ under_key self.now key.now }
        ensures sort { IfOk result (IsElement (sort_of (kind_of self.now))) }
    {
        let Body::Table(rows) = &self.body else {
            unreachable!();
        };
        rows.get(key).ok_or(Refusal::Missing)
    }

    /// Puts an element under a key of a table, and says what takes that back. Refused `full` for a new key at 1,024
    /// keys, then `Memory`; nothing changes in either case.
    pub fn store(&mut self, key: Text, datum: Datum) -> Result<Undo, GrowFault>
        requires kind { IsTable (kind_of self.old) }
        requires sort { elem_of datum ≡ sort_of (kind_of self.old) }
        ensures change { Grown result (with_row self.old key datum) self.old self.new }
        ensures kind { kind_of self.new ≡ kind_of self.old }
    {
        // Called for their contracts alone: this is a datum, and a key is a text.
        let _sort = datum.elem();
        let _bytes = key.bytes();
        let Body::Table(rows) = &mut self.body else {
            unreachable!();
        };
        if rows.len() >= MOST_ELEMENTS as usize && !rows.has(&key) {
            return Err(GrowFault::Refused(Refusal::Full));
        }
        let undo = rows.store(key, datum)?;
        Ok(undo)
    }

    /// Removes a key of a table, and says what takes that back. Refused `missing` where the table has no such key,
    /// then `Memory`; nothing changes in either case.
    pub fn erase(&mut self, key: &Text) -> Result<Undo, GrowFault>
        requires { IsTable (kind_of self.old) }
        ensures change { Grown result (without_key self.old key.now) self.old self.new }
        ensures kind { kind_of self.new ≡ kind_of self.old }
    {
        let Body::Table(rows) = &mut self.body else {
            unreachable!();
        };
        if !rows.has(key) {
            return Err(GrowFault::Refused(Refusal::Missing));
        }
        let undo = rows.erase(key)?;
        Ok(undo)
    }

    /// Takes the newest change back. What takes back a change of another kind or sort of value changes nothing. It
    /// takes no memory.
    pub fn take_back(&mut self, undo: Undo)
        ensures { self.new ≡ back undo self.old }
    {
        // Called for its contract alone: what it keeps can be an element.
        undo.keeps_data();
        match &mut self.body {
            Body::Array(cells) => cells.take_back(undo),
            Body::Queue(queue) => queue.take_back(undo),
            Body::Table(rows) => rows.take_back(undo),
        }
    }
}
