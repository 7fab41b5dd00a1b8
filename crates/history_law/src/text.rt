//! The text of the trace of a desk that a program holds.

ghost use Rattle.std.specs.Prelude.{◌≡◌, All, map, length};
ghost use Rattle.value_core.specs.Contents.{IsContents, kind_of};
ghost use Rattle.decl_core.specs.ObjectMap.{object_of};
ghost use Rattle.apply_core.specs.History.{IsLegal};
ghost use Rattle.word_core.specs.Text.{trace_text};
ghost use Rattle.board_core.specs.Chain.{history_of};
ghost use Rattle.board_core.specs.Sound.{kinds_of};
ghost use Rattle.desk_core.specs.Told.{lines_told};
ghost use Rattle.audit_core.specs.Verdicts.{IsLegalTrace};

use desk_core::desk::Desk;
use desk_core::held::desk_can_be_told;
use value_core::value::Value;

// Opening values are contents.
fn values_are_contents(values: &[Value])
    ensures { All IsContents values.now }
{
    match values {
        [] => {}
        [value, values @ ..] => {
            value.kind();
            values_are_contents(values);
        }
    }
}

/// The text of the trace of a desk is a legal trace with as many ends as there are entries, where the history of its
/// entries is legal from the opening values, and these are of the kinds of the parts.
pub fn text_is_legal(desk: &Desk, opening: &[Value])
    ensures { map kind_of opening.now ≡ kinds_of desk.now.object → IsLegal (history_of desk.now.history) opening.now →
        IsLegalTrace (object_of desk.now.object) (trace_text (object_of desk.now.object) opening.now
        (lines_told desk.now)) (length desk.now.history) }
{
    // Called for their contracts alone: the board is sound, lines can tell of it, and the values are contents.
    desk.history();
    desk_can_be_told(desk);
    values_are_contents(opening);
}
