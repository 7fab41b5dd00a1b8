//! A part of an object, with its place there.

use decl_core::object::Part;
use path_tree::name::Name;

/// A part of an object, with its place there.
#[derive(Clone, Copy)]
pub struct PartAt<'a> {
    /// The name of the object.
    pub object: &'a Name,
    /// The part.
    pub part: &'a Part,
    /// Its number among the parts, counted from 0.
    pub number: usize,
}
