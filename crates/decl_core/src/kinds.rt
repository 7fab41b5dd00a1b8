//! What an operation knows of the parts of its object.

ghost use Rattle.std.specs.Prelude.{◌≡◌, ◌≤◌, ◌++◌, ◌<◌, ◌+◌, ◌==◌, if◌then◌else◌, IfOk, Some, None, length, map};
ghost use Rattle.std.specs.Int.{bit_at};
ghost use Rattle.decl_core.specs.View.{all_of};
ghost use Rattle.decl_core.specs.Footprint.{named_in_all};
ghost use Rattle.decl_core.specs.ObjectForm.{kinds_from, operation_with};
ghost use Rattle.decl_core.specs.ObjectMap.{operation_of, params_of, parts_of};
ghost use Rattle.decl_core.specs.Typed.{IsWellTyped};

use crate::footprint::{is_in, named_by_block};
use crate::object::{Operation, Param, Part};
use crate::stmt::Stmt;
use path_tree::name::Name;
use std::alloc::{AllocError, Global};
use value_core::kind::{Elem, Kind};

/// What a part holds, where its bit is set.
fn kind_of(named: u16, place: usize, part: &Part) -> Option<Kind>
    requires { place < 16 }
    ensures { result ≡ (if bit_at named place == 1 then Some part.now.kind else None) }
{
    if is_in(place, named) {
        Some(part.kind)
    } else {
        None
    }
}

/// Of each part what it holds, where its bit is set, behind those before; the first has this number.
#[tactic(auto, using(crate::proofs::KnownKinds::kinds_pushed))]
fn kinds(
    so_far: Vec<Option<Kind>>,
    named: u16,
    place: usize,
    parts: &[Part],
) -> Result<Vec<Option<Kind>>, AllocError>
    requires { place + length parts.now ≤ 16 }
    ensures { IfOk result (λ v. v.items ≡ so_far.items ++ kinds_from named place (parts_of parts.now)) }
{
    match parts {
        [] => Ok(so_far),
        [part, rest @ ..] => {
            let mut all = so_far;
            all.push(kind_of(named, place, part))?;
            kinds(all, named, place + 1, rest)
        }
    }
}

impl Operation {
    /// The operation of an object with these parts whose text says this. It knows the kind of each part
    /// that its text names.
    pub fn new(
        alloc: Global,
        name: Name,
        params: Vec<Param>,
        reply: Option<Elem>,
        body: Vec<Stmt>,
        parts: &[Part],
    ) -> Result<Operation, AllocError>
        requires few { length parts.now ≤ 16 }
        requires typed { IsWellTyped (kinds_from (named_in_all (all_of body.items) 0) 0 (parts_of parts.now))
            (map (λ p. p.kind) params.items) reply (all_of body.items) }
        ensures { IfOk result (λ o. operation_of o
            ≡ operation_with (parts_of parts.now) name (params_of params.items) reply (all_of body.items)) }
    {
        let kinds = kinds(Vec::new(alloc), named_by_block(&body, 0), 0, parts)?;
        Ok(Operation {
            name,
            params,
            result: reply,
            body,
            kinds,
        })
    }
}
