//! Laws of the lines of scripts, over the definitions alone.

ghost use Rattle.word_core.specs.ScriptLaws.{SaidExact};

/// Words say what they tell, and nothing else.
pub fn said_exact()
    ensures { SaidExact }
{}
