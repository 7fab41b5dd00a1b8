//! A value that is held in the bytes that spell it.

ghost use Rattle.std.specs.Prelude.{◌≡◌, IfOk, IsErrOf};
ghost use Rattle.value_core.specs.declared.kind.Kind.TheVariants as kinds;
ghost use Rattle.value_core.specs.Datum.{elem_of, IsElement};
ghost use Rattle.value_core.specs.Kinds.{sort_of, IsArray, IsQueue, IsTable};
ghost use Rattle.value_core.specs.Contents.{Contents, kind_of, IsContents};
ghost use Rattle.value_core.specs.Meaning.{opening_of, element_at, with_element, oldest_of, without_oldest};
ghost use Rattle.value_core.specs.Meaning.{with_newest, has_key, under_key, with_row, without_key, count_of};
ghost use Rattle.value_bytes.specs.Spelling.{Spells};
ghost use Rattle.apply_core.specs.Remade.{Turned};

use crate::header::{count, spell};
use crate::splice::joined;
use crate::{array, queue, table};
use std::alloc::{AllocError, Global};
use std::marker::Model;
use value_bytes::decode::DecodeFault;
use value_core::datum::Datum;
use value_core::kind::{Elem, Kind};
use value_core::refusal::{GrowFault, Refusal};
use value_core::text::Text;

/// An array, a queue or a table in the bytes that spell it in the second format. A contract sees it as its contents.
#[derive(Drop)]
pub struct Spelled {
    kind: Kind,
    bytes: Vec<u8>,
}

impl Model for Spelled {
    ghost use Rattle.value_core.specs.Contents.{Contents};
    ghost use Rattle.value_core.specs.Code.{contents_code};

    ghost Value = { Contents };

    ghost coded = { contents_code };

    ghost use Rattle.value_bytes.specs.Spelling.{Spells};
    ghost use Rattle.apply_core.specs.There.{contents_there};

    ghost view = { λ s. contents_there s.kind s.bytes.items };

    ghost invariant = { λ s. Spells s.bytes.items s.kind (contents_there s.kind s.bytes.items) };
}

impl Spelled {
    /// The value of this kind that the bytes spell. `Damaged` where they spell none, whatever memory there is; else
    /// `Memory` where it was refused.
    pub fn read(alloc: Global, kind: Kind, bytes: &[u8]) -> Result<Spelled, DecodeFault>
        ensures found { IfOk result (λ s. Spells bytes.now kind s) }
        ensures damaged { IsErrOf result DecodeFault.Damaged → (v : Contents) → Spells bytes.now kind v → ⊥ }
        ensures memory { IsErrOf result DecodeFault.Memory → (v : Contents) × Spells bytes.now kind v }
    {
        if !spell(kind, bytes) {
            return Err(DecodeFault::Damaged);
        }
        let bytes = bytes.to_vec(alloc)?;
        Ok(Spelled { kind, bytes })
    }

    /// The queue without an element.
    pub fn none(alloc: Global, sort: Elem) -> Result<Spelled, AllocError>
        ensures { IfOk result (λ s. s ≡ opening_of (kinds.Queue sort)) }
    {
        let bytes = joined(alloc, Kind::Queue(sort), 0, &[], &[])?;
        Ok(Spelled {
            kind: Kind::Queue(sort),
            bytes,
        })
    }

    /// Its kind: an array's with its length.
    pub fn kind(&self) -> Kind
        ensures kind { result ≡ kind_of self.now }
        ensures contents { IsContents self.now }
    {
        self.kind
    }

    /// The bytes that spell it.
    pub fn bytes(&self) -> &[u8]
        ensures { Spells result.now (kind_of self.now) self.now }
    {
        &self.bytes
    }

    // What its entries are.
    fn sort(&self) -> Elem
        ensures { result ≡ sort_of (kind_of self.now) }
    {
        self.kind.sort()
    }

    /// The length of an array or a queue, the number of keys of a table; from 0 to 1,024.
    pub fn count(&self) -> u32
        ensures { result ≡ count_of self.now }
    {
        count(&self.bytes)
    }

    /// The element of an array at an index, counted from 0. Refused `index` where the index is not below
    /// the array's length.
    pub fn element(&self, index: u32) -> Result<Datum, Refusal>
        requires { IsArray (kind_of self.now) }
        ensures value { result ≡ element_at self.now index }
        ensures sort { IfOk result (IsElement (sort_of (kind_of self.now))) }
    {
        array::element(self.sort(), &self.bytes, index)
    }

    /// Puts an element in the place of the one at an index. Refused `index` as by `element`, then `Memory`; nothing
    /// changes in either case.
    pub fn set(&mut self, index: u32, datum: &Datum) -> Result<(), GrowFault>
        requires kind { IsArray (kind_of self.old) }
        requires sort { elem_of datum.now ≡ sort_of (kind_of self.old) }
        ensures change { Turned result (with_element self.old index datum.now) self.old self.new }
        ensures kind { kind_of self.new ≡ kind_of self.old }
    {
        match array::set(
            *self.bytes.allocator(),
            self.sort(),
            &self.bytes,
            index,
            datum,
        ) {
            Ok(bytes) => {
                self.bytes = bytes;
                Ok(())
            }
            Err(fault) => Err(fault),
        }
    }

    /// The oldest element of a queue. Refused `empty` where there is none.
    pub fn first(&self) -> Result<Datum, Refusal>
        requires { IsQueue (kind_of self.now) }
        ensures value { result ≡ oldest_of self.now }
        ensures sort { IfOk result (IsElement (sort_of (kind_of self.now))) }
    {
        queue::first(self.sort(), &self.bytes)
    }

    /// Removes the oldest element of a queue. Refused `empty` where there is none, then `Memory`; nothing changes in
    /// either case.
    pub fn take(&mut self) -> Result<(), GrowFault>
        requires { IsQueue (kind_of self.old) }
        ensures change { Turned result (without_oldest self.old) self.old self.new }
        ensures kind { kind_of self.new ≡ kind_of self.old }
    {
        match queue::take(*self.bytes.allocator(), self.sort(), &self.bytes) {
            Ok(bytes) => {
                self.bytes = bytes;
                Ok(())
            }
            Err(fault) => Err(fault),
        }
    }

    /// Adds an element to a queue, as its newest. Refused `full` at 1,024 elements, then `Memory`; nothing changes in
    /// either case.
    pub fn append(&mut self, datum: &Datum) -> Result<(), GrowFault>
        requires kind { IsQueue (kind_of self.old) }
        requires sort { elem_of datum.now ≡ sort_of (kind_of self.old) }
        ensures change { Turned result (with_newest self.old datum.now) self.old self.new }
        ensures kind { kind_of self.new ≡ kind_of self.old }
    {
        match queue::append(*self.bytes.allocator(), self.sort(), &self.bytes, datum) {
            Ok(bytes) => {
                self.bytes = bytes;
                Ok(())
            }
            Err(fault) => Err(fault),
        }
    }

    /// Whether a table has a key.
    pub fn has(&self, key: &Text) -> bool
        requires { IsTable (kind_of self.now) }
        ensures { result ≡ has_key self.now key.now }
    {
        table::has(self.sort(), &self.bytes, key)
    }

    /// What stands under a key of a table. Refused `missing` where the table has no such key.
    pub fn lookup(&self, key: &Text) -> Result<Datum, Refusal>
        requires { IsTable (kind_of self.now) }
        ensures value { result ≡ under_key self.now key.now }
        ensures sort { IfOk result (IsElement (sort_of (kind_of self.now))) }
    {
        table::lookup(self.sort(), &self.bytes, key)
    }

    /// Puts an element under a key of a table. Refused `full` for a new key at 1,024 keys, then `Memory`; nothing
    /// changes in either case.
    pub fn store(&mut self, key: &Text, datum: &Datum) -> Result<(), GrowFault>
        requires kind { IsTable (kind_of self.old) }
        requires sort { elem_of datum.now ≡ sort_of (kind_of self.old) }
        ensures change { Turned result (with_row self.old key.now datum.now) self.old self.new }
        ensures kind { kind_of self.new ≡ kind_of self.old }
    {
        match table::store(
            *self.bytes.allocator(),
            self.sort(),
            &self.bytes,
            key,
            datum,
        ) {
            Ok(bytes) => {
                self.bytes = bytes;
                Ok(())
            }
            Err(fault) => Err(fault),
        }
    }

    /// Removes a key of a table. Refused `missing` where the table has no such key, then `Memory`; nothing changes in
    /// either case.
    pub fn erase(&mut self, key: &Text) -> Result<(), GrowFault>
        requires { IsTable (kind_of self.old) }
        ensures change { Turned result (without_key self.old key.now) self.old self.new }
        ensures kind { kind_of self.new ≡ kind_of self.old }
    {
        match table::erase(*self.bytes.allocator(), self.sort(), &self.bytes, key) {
            Ok(bytes) => {
                self.bytes = bytes;
                Ok(())
            }
            Err(fault) => Err(fault),
        }
    }
}
