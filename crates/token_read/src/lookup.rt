//! Names that are looked up.

ghost use Rattle.std.specs.Prelude.{◌≡◌, ◌≤◌, ◌<◌, length, IfSome};
ghost use Rattle.path_tree.specs.Known.{value_of, constants_of};
ghost use Rattle.token_read.specs.Names.{found_in};
ghost use Rattle.token_read.specs.Names.{is_among, is_known as is_known_in};
ghost use Rattle.token_read.specs.Scopes.{operation_names};
ghost use Rattle.token_read.specs.Scopes.{names_of, with_own};
ghost use Rattle.decl_core.specs.ObjectMap.{operations_of, params_of, parts_of};

use crate::scope::BodyScope;
use decl_core::id::{ParamId, PartId};
use decl_core::object::{Operation, Param, Part};
use path_tree::lookup::Constant;
use path_tree::name::Name;
use std::sync::Arc;
use value_core::kind::{Elem, Kind};

/// The value of the constant of this name.
pub fn constant_of(constants: &[Constant], text: &[u8]) -> Option<u32>
    ensures { result ≡ value_of (constants_of constants.now) text.now }
{
    match constants {
        [] => None,
        [constant, rest @ ..] => {
            if constant.name.as_bytes() == text {
                Some(constant.value)
            } else {
                constant_of(rest, text)
            }
        }
    }
}

/// The number of the parameter of this name, and what its argument is.
pub fn param_of(params: &[Param], text: &[u8]) -> Option<(ParamId, Elem)>
    requires { length params.now ≤ 8 }
    ensures value { result ≡ found_in (params_of params.now) text.now }
    ensures within { IfSome result (λ k. k.0 < length params.now) }
{
    match params {
        [] => None,
        [param, rest @ ..] => {
            if param.name.as_bytes() == text {
                Some((0, param.kind))
            } else {
                let (place, kind) = param_of(rest, text)?;
                Some((place + 1, kind))
            }
        }
    }
}

/// The place of the part of this name, and what it holds.
pub fn place_of(parts: &[Part], text: &[u8]) -> Option<(u8, Kind)>
    requires { length parts.now ≤ 16 }
    ensures value { result ≡ found_in (parts_of parts.now) text.now }
    ensures within { IfSome result (λ k. k.0 < length parts.now) }
{
    match parts {
        [] => None,
        [part, rest @ ..] => {
            if part.name.as_bytes() == text {
                Some((0, part.kind))
            } else {
                let (place, kind) = place_of(rest, text)?;
                Some((place + 1, kind))
            }
        }
    }
}

/// The number of the part of this name, and what it holds.
pub fn part_of(parts: &[Part], text: &[u8]) -> Option<(PartId, Kind)>
    requires { length parts.now ≤ 16 }
    ensures { result ≡ found_in (parts_of parts.now) text.now }
{
    match place_of(parts, text) {
        None => None,
        Some((place, kind)) => Some((PartId::new(place), kind)),
    }
}

/// Whether one of these operations has this name.
pub fn is_operation(operations: &[Arc<Operation>], text: &[u8]) -> bool
    ensures { result ≡ is_among (operation_names (operations_of operations.now)) text.now }
{
    match operations {
        [] => false,
        [operation, rest @ ..] => operation.name.as_bytes() == text || is_operation(rest, text),
    }
}

/// Whether this is the name of the operation itself.
fn is_own(own: Option<&Name>, operations: &[Arc<Operation>], text: &[u8]) -> bool
    ensures { result ≡ is_among (with_own own.entry (operation_names (operations_of operations.now))) text.now }
{
    match own {
        None => is_operation(operations, text),
        Some(name) => name.as_bytes() == text || is_operation(operations, text),
    }
}

/// Whether a constant, a parameter, a part or an operation has this name: it is then of the wrong kind
/// where it is none of those that are sought.
pub fn is_known(scope: &BodyScope, text: &[u8]) -> bool
    ensures { result ≡ is_known_in (names_of scope.now) text.now }
{
    constant_of(scope.constants, text).is_some()
        || param_of(scope.params, text).is_some()
        || place_of(scope.parts, text).is_some()
        || is_own(scope.own, scope.operations, text)
}
