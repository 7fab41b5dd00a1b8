//! The members of a list or of a sequence, while it is read.

ghost use Rattle.std.specs.Prelude.{Some};
ghost use Rattle.path_tree.specs.Path.{path_of, paths_of};
ghost use Rattle.path_tree.specs.Parts.{parts_of, put as put_front, as_list, as_sequence};
ghost use Rattle.path_tree.specs.Reading.{Gives};

use crate::node::{Members, Node};
use crate::path_fault::PathFault;
use std::alloc::Global;

/// One member or more.
#[derive(Drop)]
pub(crate) enum Parts {
    One(Node),
    Several(Members),
}

/// A member before others.
pub(crate) fn put(alloc: Global, first: Node, others: Parts) -> Result<Members, PathFault>
    ensures { Gives paths_of result (Some (put_front (path_of first) (parts_of others))) }
{
    match others {
        Parts::One(last) => Ok(Members::Two(first, last)),
        Parts::Several(rest) => Ok(Members::More(first, Box::new(alloc, rest)?)),
    }
}

/// A list, or its one member.
pub(crate) fn list_node(alloc: Global, parts: Parts) -> Result<Node, PathFault>
    ensures { Gives path_of result (Some (as_list (parts_of parts))) }
{
    match parts {
        Parts::One(e) => Ok(e),
        Parts::Several(members) => Ok(Node::List(Box::new(alloc, members)?)),
    }
}

/// A sequence, or its one member.
pub(crate) fn sequence_node(alloc: Global, parts: Parts) -> Result<Node, PathFault>
    ensures { Gives path_of result (Some (as_sequence (parts_of parts))) }
{
    match parts {
        Parts::One(e) => Ok(e),
        Parts::Several(members) => Ok(Node::Sequence(Box::new(alloc, members)?)),
    }
}
