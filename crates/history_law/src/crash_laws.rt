//! Laws of traces that were cut short, over the definitions alone.

ghost use Rattle.history_law.specs.CrashLaws.{FrontIsSound, CompletedIsSound, CrashLeavesLegal, WordsAreLines};

use path_tree::laws::finish_keeps_satisfaction;

/// Of a sound trace the first lines behind its parts are a sound trace, however many.
pub fn front_is_sound()
    ensures { FrontIsSound }
{}

/// A sound trace stays sound when a call is ended with the reply of the sequential object.
pub fn completed_is_sound()
    ensures { CompletedIsSound }
{
    // Called for its contract alone.
    finish_keeps_satisfaction();
}

/// What a crash leaves of a legal trace that a journal holds is a legal trace, with at least as many ends as were
/// stored and at most as many as were made.
pub fn crash_leaves_legal()
    ensures { CrashLeavesLegal }
{}

/// A line of words, none of which has a byte 0 in it, may be added to a journal.
pub fn words_are_lines()
    ensures { WordsAreLines }
{}
