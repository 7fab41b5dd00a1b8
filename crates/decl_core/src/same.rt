//! Whether two operations are one by their whole declaration.

ghost use Rattle.std.specs.Prelude.{◌≡◌, ◌↔◌, IsTrue};
ghost use Rattle.decl_core.specs.ObjectMap.{operation_of, param_of, params_of};

use crate::object::{Operation, Param};
use crate::same_body::same_block;
use path_tree::name::Name;
use value_core::kind::{Elem, Kind};

/// Whether two parameters have the same name and are the same.
fn same_param(a: &Param, b: &Param) -> bool
    ensures { IsTrue result ↔ (param_of a.now ≡ param_of b.now) }
{
    a.name == b.name && a.kind == b.kind
}

/// Whether two rows of parameters are the same.
fn same_params(a: &[Param], b: &[Param]) -> bool
    ensures { IsTrue result ↔ (params_of a.now ≡ params_of b.now) }
{
    match a {
        [] => b.is_empty(),
        [param, rest @ ..] => match b {
            [] => false,
            [other, others @ ..] => same_param(param, other) && same_params(rest, others),
        },
    }
}

/// Whether two names are the same.
fn same_name(a: &Name, b: &Name) -> bool
    ensures { IsTrue result ↔ (a.now ≡ b.now) }
{
    a == b
}

/// Whether two functions reply the same sort, or two procedures nothing.
fn same_reply(a: Option<Elem>, b: Option<Elem>) -> bool
    ensures { IsTrue result ↔ (a ≡ b) }
{
    a == b
}

/// Whether the same is known of a part.
fn same_kind(a: Option<Kind>, b: Option<Kind>) -> bool
    ensures { IsTrue result ↔ (a ≡ b) }
{
    a == b
}

/// Whether the same is known of each part.
fn same_kinds(a: &[Option<Kind>], b: &[Option<Kind>]) -> bool
    ensures { IsTrue result ↔ (a.now ≡ b.now) }
{
    match a {
        [] => b.is_empty(),
        [kind, rest @ ..] => match b {
            [] => false,
            [other, others @ ..] => same_kind(*kind, *other) && same_kinds(rest, others),
        },
    }
}

/// Whether two operations have the same name, parameters, reply, body and kinds of parts, whatever the
/// allocations that hold them.
pub fn same_declaration(a: &Operation, b: &Operation) -> bool
    ensures { IsTrue result ↔ (operation_of a.now ≡ operation_of b.now) }
{
    if !same_name(&a.name, &b.name) || !same_reply(a.result, b.result) {
        return false;
    }
    if !same_params(&a.params, &b.params) || !same_block(&a.body, &b.body) {
        return false;
    }
    same_kinds(&a.kinds, &b.kinds)
}
