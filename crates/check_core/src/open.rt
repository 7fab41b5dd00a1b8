//! What a script runs on.

ghost use Rattle.std.specs.Prelude.{◌≡◌, ◌≢◌, ◌↔◌, ◌++◌, ℕ, List, All, Contains, IfOk, IsTrue, MatchOption};
ghost use Rattle.std.specs.Result.{IsErr};
ghost use Rattle.std.specs.Map.{values_of};
ghost use Rattle.decl_core.specs.ObjectMap.{object_of, objects_of};
ghost use Rattle.decl_core.specs.Refusals.{IsWhy};
ghost use Rattle.check_core.specs.Report.{IsWantOfMemory, fault_line};
ghost use Rattle.check_core.specs.Named.{NamesObject};
ghost use Rattle.check_core.specs.Opening.{no_object_line};
ghost use Rattle.check_core.specs.View.{IsOpened, IsJudged, IsRefusedLine};
ghost use Rattle.word_core.specs.Answers.{bad_line};

use crate::head::named_object;
use crate::report::{push_source_fault, push_unseparated};
use decl_core::analyse::{Accepted, ObjectRefusal, Refused, analyse};
use decl_core::object::Object;
use decl_read::fault::DeclFault;
use decl_read::read::read_objects;
use indexmap::IndexMap;
use path_tree::lex::fault::LexFault;
use path_tree::name::Name;
use path_tree::path_fault::PathFault;
use std::alloc::{AllocError, Global};
use word_core::answers::push_bad_line;

/// What a script runs on.
#[derive(Drop)]
pub enum OpenedScript {
    /// The object that its first line names, accepted.
    Ready(Accepted),
    /// Nothing, and the line that says why: `bad line 1`; the fault of the source; `no object NAME`; or
    /// `object NAME refused 1 Unseparated A B PART`. The first that applies is told.
    Told(Vec<u8>),
}

// Whether an object has this name.
fn is_named(object: &Object, name: &Name) -> bool
    ensures { IsTrue result ↔ (object.now.name ≡ name.now) }
{
    object.name.as_bytes() == name.as_bytes()
}

// The object of this name.
fn object_named(all: IndexMap<Name, Object>, name: &Name) -> Option<Object>
    ensures { MatchOption result (All (λ o. o.name ≢ name.now) (objects_of (values_of all.entries)))
        (λ o. Contains (objects_of (values_of all.entries)) (object_of o) × (o.name ≡ name.now)) }
{
    for object in all.into_values() {
        if is_named(&object, name) {
            return Some(object);
        }
    }
    None
}

// The fault of a source, apart from a want of memory.
fn told_fault(fault: DeclFault) -> Result<DeclFault, AllocError>
    ensures told { IfOk result (λ told. (told ≡ fault) × (IsWantOfMemory fault → ⊥)) }
    ensures memory { IsErr result → IsWantOfMemory fault }
{
    match fault {
        DeclFault::Memory | DeclFault::Lex(LexFault::Memory) | DeclFault::Path(PathFault::Memory) =>
            Err(AllocError),
        _ => Ok(fault),
    }
}

/// The line of a source that is no file of objects. The error is that memory was refused, here or where
/// the source was read.
pub fn fault_text(alloc: Global, fault: DeclFault) -> Result<Vec<u8>, AllocError>
    ensures { IfOk result (λ text. (IsWantOfMemory fault → ⊥) × (text.items ≡ fault_line fault)) }
{
    let fault = told_fault(fault)?;
    let mut text = Vec::new(alloc);
    push_source_fault(&mut text, fault)?;
    Ok(text)
}

// The line of an object that is refused.
fn refused_text(alloc: Global, refused: &Refused) -> Result<Vec<u8>, AllocError>
    requires { IsWhy (object_of refused.now.object) refused.now.why }
    ensures { IfOk result (λ text. IsRefusedLine (object_of refused.now.object) text.items) }
{
    match refused.why {
        ObjectRefusal::Memory => Err(AllocError),
        ObjectRefusal::Unseparated(first, second, part) => {
            let mut text = Vec::new(alloc);
            push_unseparated(&mut text, &refused.object, first, second, part)?;
            Ok(text)
        }
    }
}

// The line of a source that lacks this object.
fn no_object_text(alloc: Global, name: &Name) -> Result<Vec<u8>, AllocError>
    ensures { IfOk result (λ text. text.items ≡ no_object_line name.now) }
{
    let mut text = Vec::new(alloc);
    text.extend_from_slice(b"no object ")?;
    text.extend_from_slice(name.as_bytes())?;
    text.push(b'\n')?;
    Ok(text)
}

// The line of a script that names no object.
fn bad_line_text(alloc: Global) -> Result<Vec<u8>, AllocError>
    ensures { IfOk result (λ text. text.items ≡ bad_line 1) }
{
    let mut text = Vec::new(alloc);
    push_bad_line(&mut text, 1)?;
    Ok(text)
}

/// An object accepted, or the line that it is refused by. The error is that memory was refused.
pub fn judged(alloc: Global, object: Object) -> Result<OpenedScript, AllocError>
    ensures { IfOk result (IsJudged (object_of object)) }
{
    match analyse(alloc, object) {
        Ok(accepted) => Ok(OpenedScript::Ready(accepted)),
        Err(refused) => {
            let text = refused_text(alloc, &refused)?;
            Ok(OpenedScript::Told(text))
        }
    }
}

// What a source has of this name.
fn opened_object(alloc: Global, source: &[u8], name: &Name) -> Result<OpenedScript, AllocError>
    ensures { (text : List ℕ) → NamesObject text name.now → IfOk result (IsOpened source.now text) }
{
    match read_objects(alloc, source) {
        Err(fault) => {
            let text = fault_text(alloc, fault)?;
            Ok(OpenedScript::Told(text))
        }
        Ok(all) => match object_named(all, name) {
            None => {
                let text = no_object_text(alloc, name)?;
                Ok(OpenedScript::Told(text))
            }
            Some(object) => {
                let opened = judged(alloc, object)?;
                Ok(opened)
            }
        },
    }
}

/// What the script of this head runs on: the object of the source that its first line names, or nothing, with the line
/// that says why. Of the other objects of the source it is not asked whether they are accepted.
///
/// The error is that memory was refused.
pub fn open_script(alloc: Global, source: &[u8], head: &[u8]) -> Result<OpenedScript, AllocError>
    ensures { IfOk result (IsOpened source.now head.now) }
{
    match named_object(alloc, head)? {
        None => {
            let text = bad_line_text(alloc)?;
            Ok(OpenedScript::Told(text))
        }
        Some(name) => {
            let opened = opened_object(alloc, source, &name)?;
            Ok(opened)
        }
    }
}
