//! Laws of bodies over what is known of their parts.

ghost use Rattle.known_core.specs.Filled.{WholeIsSpelled, FilledIsSpelled, PagesAfter, ContentsAfter};
ghost use Rattle.known_core.specs.Laws.{OneAnswer, OneCourse, OneMeaning};
ghost use Rattle.known_core.specs.Wanted.{MasksGrow};

/// An evaluation over what is known that ends gives what the body gives on whatever completes it.
pub fn one_answer()
    ensures { OneAnswer }
{}

/// What an evaluation comes to does not hang on what is not known.
pub fn one_course()
    ensures { OneCourse }
{}

/// On the contents that it sees, an evaluation that ends is the body.
pub fn one_meaning()
    ensures { OneMeaning }
{}

/// Whatever the pages are that are not known, whole bytes spell an array of integers where the filled ones do.
pub fn whole_is_spelled()
    ensures { WholeIsSpelled }
{}

/// No damage is seen of filled bytes where there is none.
pub fn filled_is_spelled()
    ensures { FilledIsSpelled }
{}

/// After a body a page is what the body left of it, where it is known, else as it was.
pub fn pages_after()
    ensures { PagesAfter }
{}

/// What a body leaves is contents.
pub fn contents_after()
    ensures { ContentsAfter }
{}

/// Masks for an operation are masks for it when a page more is known.
pub fn masks_grow()
    ensures { MasksGrow }
{}
