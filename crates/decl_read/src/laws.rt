//! Laws of the objects of a file, over the definitions alone.

ghost use Rattle.decl_read.specs.ObjectLaws.{NamesAreOperations, PathsNameOperations};

/// The names that paths may use, found ahead of the operations, are the names of the operations, in order:
/// a file of objects is the same by both.
pub fn names_are_operations()
    ensures { NamesAreOperations }
{}

/// In a file of objects, each path of an object is one over the names of the object's operations, in order.
pub fn paths_name_operations()
    ensures { PathsNameOperations }
{}
