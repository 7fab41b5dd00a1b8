//! What happened, in few bytes: an end is told by the place of its entry.

ghost use Rattle.std.specs.Prelude.{◌≡◌, ◌<◌, ◌++◌, ◌∷◌, [], length, vec_capacity};
ghost use Rattle.board_core.specs.declared.event.TraceEvent.TheVariants.{End as Ended};
ghost use Rattle.desk_core.specs.declared.marks.Mark.TheVariants.{Start, End};
ghost use Rattle.desk_core.specs.Kept.{IsMarkIn, event_of as told_by};

use board_core::event::TraceEvent;
use page_core::entry::Entry;

/// What happened to a call.
#[derive(Clone, Copy, Debug, PartialEq, Eq)]
pub(crate) enum Mark {
    /// The call of this number started.
    Start(u32),
    /// The call ended whose entry stands at this place of the history, from 0.
    End(usize),
}

// One more item, for which there is room.
pub(crate) fn note<T: Drop>(items: &mut Vec<T>, item: T)
    requires { length items.old.items < vec_capacity items.old }
    ensures items { items.new.items ≡ items.old.items ++ item ∷ [] }
    ensures room { vec_capacity items.new ≡ vec_capacity items.old }
{
    items.push_reserved(item);
}

// The call of this number started.
pub(crate) fn note_start(marks: &mut Vec<Mark>, number: u32)
    requires { length marks.old.items < vec_capacity marks.old }
    ensures items { marks.new.items ≡ marks.old.items ++ Start number ∷ [] }
    ensures room { vec_capacity marks.new ≡ vec_capacity marks.old }
{
    note(marks, Mark::Start(number));
}

// The call ended whose entry stands at this place.
pub(crate) fn note_end(marks: &mut Vec<Mark>, place: usize)
    requires { length marks.old.items < vec_capacity marks.old }
    ensures items { marks.new.items ≡ marks.old.items ++ End place ∷ [] }
    ensures room { vec_capacity marks.new ≡ vec_capacity marks.old }
{
    note(marks, Mark::End(place));
}

// The event of an entry that ended.
fn end_event(entry: &Entry) -> TraceEvent
    ensures { result ≡ Ended entry.now.number entry.now.reply }
{
    TraceEvent::End(entry.number(), entry.reply())
}

// What a mark tells.
pub(crate) fn event_of(history: &[Entry], mark: Mark) -> TraceEvent
    requires { IsMarkIn (length history.now) mark }
    ensures { result ≡ told_by history.now mark }
{
    match mark {
        Mark::Start(number) => TraceEvent::Start(number),
        Mark::End(place) => end_event(&history[place]),
    }
}
