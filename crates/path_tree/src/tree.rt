//! A path expression that keeps the rules of the language.

ghost use Rattle.std.specs.Prelude.{◌≡◌};
ghost use Rattle.path_tree.specs.Path.{path_of};
ghost use Rattle.path_tree.specs.Limits.{IsPathTree};

use crate::node::Node;
use std::marker::Model;

/// A path expression in which each name stands once, of at most 256 nodes, that `parse_path` read.
///
/// A contract sees its nodes as a `Path`, which says nothing of where they lie in memory.
#[derive(Drop)]
pub struct PathTree {
    root: Node,
}

impl Model for PathTree {
    ghost use Rattle.path_tree.specs.Path.{Path, path_of};
    ghost use Rattle.path_tree.specs.Code.{path_code};
    ghost use Rattle.path_tree.specs.Limits.{IsPathTree};

    ghost Value = { Path };

    ghost coded = { path_code };

    ghost view = { λ a. path_of a.root };

    ghost invariant = { λ a. IsPathTree (path_of a.root) };
}

impl PathTree {
    /// The outermost node.
    pub fn root(&self) -> &Node
        ensures same { path_of result.now ≡ self.now }
        ensures rules { IsPathTree self.now }
    {
        &self.root
    }
}

/// The path of these nodes.
pub(crate) fn path_tree(root: Node) -> PathTree
    requires { IsPathTree (path_of root) }
    ensures { result ≡ path_of root }
{
    PathTree { root }
}
