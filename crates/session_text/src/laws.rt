//! Laws of what lines of sessions ask for, over the definitions alone.

ghost use Rattle.session_text.specs.Laws.{RequestExact};

/// Words ask for a thing exactly where they are the words of it.
pub fn request_exact()
    ensures { RequestExact }
{}
