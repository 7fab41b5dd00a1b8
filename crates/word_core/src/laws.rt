//! Laws of words, over the definitions alone.

ghost use Rattle.word_core.specs.Laws.{WordsUnique, SaidOnce, WrittenWords, WrittenClear, WrittenInteger};
ghost use Rattle.word_core.specs.Laws.{WrittenSession, WrittenData, EndingExact, WrittenEnding, WrittenFinish};
ghost use Rattle.word_core.specs.Laws.{ShownApart};

/// A line has its words in one way.
pub fn words_unique()
    ensures { WordsUnique }
{}

/// A line says one thing, whatever is asked of its words.
pub fn said_once<A>()
    ensures { SaidOnce A }
{}

/// What is written as words has these words.
pub fn written_words()
    ensures { WrittenWords }
{}

/// What is written as words stands on one line, where no bare word has a line end in it.
pub fn written_clear()
    ensures { WrittenClear }
{}

/// An integer that is written is read back.
pub fn written_integer()
    ensures { WrittenInteger }
{}

/// A session that is written is read back.
pub fn written_session()
    ensures { WrittenSession }
{}

/// Integers and texts that are written are read back.
pub fn written_data()
    ensures { WrittenData }
{}

/// Words are read as how a call ended exactly where they say so.
pub fn ending_exact()
    ensures { EndingExact }
{}

/// How a call ended is written in words, and read back from them.
pub fn written_ending()
    ensures { WrittenEnding }
{}

/// A line that tells how a call ended has these words.
pub fn written_finish()
    ensures { WrittenFinish }
{}

/// What is shown of a value tells it, among the values of its kind.
pub fn shown_apart()
    ensures { ShownApart }
{}
