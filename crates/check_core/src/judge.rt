//! The objects of a source, where each of them is accepted.

ghost use Rattle.std.specs.Prelude.{◌≡◌, IfOk, OnOk};
ghost use Rattle.std.specs.Map.{values_of};
ghost use Rattle.decl_core.specs.ObjectMap.{object_of, objects_of};
ghost use Rattle.check_core.specs.Judging.{AreJudged};
ghost use Rattle.check_core.specs.SourceView.{IsAdded, IsJudgedObjects, IsJudgedSource};

use crate::open::{OpenedScript, fault_text, judged};
use decl_core::analyse::Accepted;
use decl_core::object::Object;
use decl_read::read::read_objects;
use indexmap::IndexMap;
use path_tree::name::Name;
use std::alloc::{AllocError, Global};

/// What a source is to a server.
#[derive(Drop)]
pub enum JudgedSource {
    /// Its objects, in order, each accepted.
    Ready(Vec<Accepted>),
    /// Not to be served, with the lines that say why: the one of the fault of the source, or one for each refused
    /// object, in order.
    Told(Vec<u8>),
}

// The objects that are accepted so far, and the lines of the others.
#[derive(Drop)]
struct SortedObjects {
    ready: Vec<Accepted>,
    told: Vec<u8>,
}

// Adds what one object is judged.
fn add(alloc: Global, object: Object, sorted: &mut SortedObjects) -> Result<(), AllocError>
    ensures { OnOk result (IsAdded (object_of object) sorted.old.ready.items sorted.old.told.items
        sorted.new.ready.items sorted.new.told.items) }
{
    match judged(alloc, object)? {
        OpenedScript::Ready(accepted) => {
            let Ok(()) = sorted.ready.push(accepted) else {
                return Err(AllocError);
            };
            Ok(())
        }
        OpenedScript::Told(line) => {
            sorted.told.extend_from_slice(&line)?;
            Ok(())
        }
    }
}

// Judges each object.
fn sort_all(alloc: Global, all: IndexMap<Name, Object>) -> Result<SortedObjects, AllocError>
    ensures { IfOk result (λ s. AreJudged (objects_of (values_of all.entries)) (objects_of s.ready.items)
        s.told.items) }
{
    let mut sorted = SortedObjects {
        ready: Vec::new(alloc),
        told: Vec::new(alloc),
    };
    for object in all.into_values() {
        add(alloc, object, &mut sorted)?;
    }
    Ok(sorted)
}

// What objects are to a server.
fn judge_all(alloc: Global, all: IndexMap<Name, Object>) -> Result<JudgedSource, AllocError>
    ensures { IfOk result (λ j. IsJudgedObjects (objects_of (values_of all.entries)) j) }
{
    let SortedObjects { ready, told } = sort_all(alloc, all)?;
    if told.is_empty() {
        return Ok(JudgedSource::Ready(ready));
    }
    Ok(JudgedSource::Told(told))
}

/// What a source is to a server: each of its objects has to be accepted.
///
/// The error is that memory was refused.
pub fn judge(alloc: Global, source: &[u8]) -> Result<JudgedSource, AllocError>
    ensures { IfOk result (IsJudgedSource source.now) }
{
    match read_objects(alloc, source) {
        Ok(all) => {
            let judged = judge_all(alloc, all)?;
            Ok(judged)
        }
        Err(fault) => {
            let text = fault_text(alloc, fault)?;
            Ok(JudgedSource::Told(text))
        }
    }
}
