//! Names that are names: these functions do nothing, and are called for what they say.

ghost use Rattle.std.specs.Prelude.{All};
ghost use Rattle.path_tree.specs.Identifier.{IsName};
ghost use Rattle.decl_core.specs.ObjectMap.{object_of, parts_of, operations_of};
ghost use Rattle.word_core.specs.TraceLaws.{HasNames};

use decl_core::object::{Object, Operation, Part};
use std::sync::Arc;

// Each of these parts has a name.
fn parts_have_names(parts: &[Part])
    ensures { All (λ p. IsName p.0) (parts_of parts.now) }
{
    match parts {
        [] => {}
        [part, parts @ ..] => {
            part.name.as_bytes();
            parts_have_names(parts);
        }
    }
}

// An operation has a name.
fn operation_has_name(operation: &Operation)
    ensures { IsName operation.now.name }
{
    operation.name.as_bytes();
}

// Each of these operations has a name.
fn operations_have_names(operations: &[Arc<Operation>])
    ensures { All (λ f. IsName f.name) (operations_of operations.now) }
{
    match operations {
        [] => {}
        [operation, operations @ ..] => {
            operation_has_name(operation);
            operations_have_names(operations);
        }
    }
}

/// An object, its parts and its operations have names.
pub fn object_has_names(object: &Object)
    ensures { HasNames (object_of object.now) }
{
    object.name.as_bytes();
    parts_have_names(&object.parts);
    operations_have_names(&object.operations);
}
