//! What the text of an operation is read with.

ghost use Rattle.std.specs.Prelude.{◌≤◌, length};

use decl_core::object::{Operation, Param, Part};
use path_tree::lookup::Constant;
use path_tree::name::Name;
use std::sync::Arc;
use value_core::kind::Elem;

/// What the text of an operation is read with.
#[derive(Clone, Copy)]
pub struct BodyScope<'a> {
    /// Constants and their values.
    pub constants: &'a [Constant],
    /// Parameters, by their numbers.
    pub params: &'a [Param],
    /// Parts, by their numbers.
    pub parts: &'a [Part],
    /// The operations before.
    pub operations: &'a [Arc<Operation>],
    /// The name of the operation itself.
    pub own: Option<&'a Name>,
    /// What it replies.
    pub result: Option<Elem>,
    /// A number above that of the tokens, and so above that of the terms of any sum.
    pub most: u32,
    ghost few_params: { length params.now ≤ 8 },
    ghost few_parts: { length parts.now ≤ 16 },
    ghost bounded: { most ≤ 131072 },
}
