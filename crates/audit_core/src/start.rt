//! The operation that a start names.

ghost use Rattle.std.specs.Prelude.{◌≡◌, ◌<◌, ◌≤◌, ℕ, IfSome, MatchOption, Some, map, length};
ghost use Rattle.std.specs.Str.{str_to_ascii_lowercase};
ghost use Rattle.path_tree.specs.Known.{place_of};
ghost use Rattle.value_core.specs.Datum.{elem_of};
ghost use Rattle.audit_core.specs.Operations.{operation_names};
ghost use Rattle.decl_core.specs.ObjectMap.{operations_of};
ghost use Rattle.audit_core.specs.Operations.{body_among};

use apply_core::fits::arguments_fit;
use decl_core::object::Operation;
use path_tree::node::OpId;
use std::sync::Arc;
use value_core::datum::Datum;

// The place of the first operation of this name, in any case.
fn operation_of(operations: &[Arc<Operation>], name: &[u8]) -> Option<OpId>
    requires { length operations.now ≤ 32 }
    ensures place { result ≡ place_of (operation_names (operations_of operations.now))
        (str_to_ascii_lowercase name.now) }
    ensures within { IfSome result (λ k. k < length operations.now) }
{
    match operations {
        [] => None,
        [first, rest @ ..] => {
            if first.name.is_spelled_by(name) {
                Some(0)
            } else {
                let place = operation_of(rest, name)?;
                Some(place + 1)
            }
        }
    }
}

/// The operation of this name, in any case, where it takes such arguments.
pub fn operation_for(
    operations: &[Arc<Operation>],
    name: &[u8],
    arguments: &[Datum],
) -> Option<OpId>
    requires { length operations.now ≤ 32 }
    ensures { MatchOption result
        ((place : ℕ) → place_of (operation_names (operations_of operations.now)) (str_to_ascii_lowercase name.now)
        ≡ Some place → map elem_of arguments.now ≡ (body_among (operations_of operations.now) place).params → ⊥)
        (λ place. (place_of (operation_names (operations_of operations.now)) (str_to_ascii_lowercase name.now)
        ≡ Some place) × (map elem_of arguments.now ≡ (body_among (operations_of operations.now) place).params)) }
{
    let place = operation_of(operations, name)?;
    if arguments_fit(&operations[place as usize], arguments) {
        return Some(place);
    }
    None
}
