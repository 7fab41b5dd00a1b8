//! Laws of sources, over the definitions alone.

ghost use Rattle.decl_read.specs.OldSources.{OldSourcesStay};

/// A source of the grammar without holds has the objects that it has by that grammar, and they hold nothing: the words
/// of holds are words in their places alone, and names anywhere else.
pub fn old_sources_stay()
    ensures { OldSourcesStay }
{}
