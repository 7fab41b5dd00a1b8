//! What a path is read with.

ghost use Rattle.std.specs.Prelude.{◌≤◌, length};

use crate::lookup::Constant;
use crate::name::Name;

/// What a path is read with.
#[derive(Clone, Copy)]
pub(crate) struct Scope<'a> {
    /// The names of operations, by their numbers.
    pub operations: &'a [Name],
    /// Constants and their values.
    pub constants: &'a [Constant],
    /// A number above that of the tokens, and so above that of the members of any list.
    pub most: u32,
    ghost few: { length operations.now ≤ 65535 },
    ghost bounded: { most ≤ 131072 },
}
