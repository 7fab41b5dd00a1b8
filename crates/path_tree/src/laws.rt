//! Laws of paths, their texts and traces, over the definitions alone.

ghost use Rattle.path_tree.specs.Laws.{ActivationsNest, FinishKeepsSatisfaction};
ghost use Rattle.path_tree.specs.TextLaws.{OneTree, PathsAreRead, CanonicalText, PrintedText};

/// In a trace that satisfies a path, no node has ended more often than it started, and the open
/// activations of a form follow from those of its parts.
pub fn activations_nest()
    ensures { ActivationsNest }
{}

/// A finish of a running call keeps what a path asks.
pub fn finish_keeps_satisfaction()
    ensures { FinishKeepsSatisfaction }
{}

/// At one place of some tokens no two paths stand.
pub fn one_tree()
    ensures { OneTree }
{}

/// What is read from left to right is a path of the grammar, and each path of the grammar is read.
pub fn paths_are_read()
    ensures { PathsAreRead }
{}

/// Where the names of operations are distinct, the canonical text of a path derives this path and no
/// other.
pub fn canonical_text()
    ensures { CanonicalText }
{}

/// Where the names of operations are distinct and no reserved words, the bytes of the canonical text
/// of a path have tokens that derive this path and no other.
pub fn printed_text()
    ensures { PrintedText }
{}
