//! Laws of traces, over the definitions alone.

ghost use Rattle.word_core.specs.TraceLaws.{TraceIsRead, PartIsRead, RepliesApart, BeginsWithFront, GrowsByLine};
ghost use Rattle.word_core.specs.TraceLaws.{BodyIsSame};

/// The lines of the text of a trace have the words that were written.
pub fn trace_is_read()
    ensures { TraceIsRead }
{}

/// The bytes of a part are read from its line.
pub fn part_is_read()
    ensures { PartIsRead }
{}

/// No two replies are told alike.
pub fn replies_apart()
    ensures { RepliesApart }
{}

/// Before any event the text of a trace is its front.
pub fn begins_with_front()
    ensures { BeginsWithFront }
{}

/// With one event more the text of a trace has one line more.
pub fn grows_by_line()
    ensures { GrowsByLine }
{}

/// The body of an operation is the same, with or without where it lies in memory.
pub fn body_is_same()
    ensures { BodyIsSame }
{}
