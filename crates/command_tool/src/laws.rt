//! Laws of what `run` and `audit` answer, over the definitions alone.

ghost use Rattle.command_tool.specs.Laws.{NoLineIsBad, NoLineOfTrace};

/// A text without a line is no script and no trace: `run` answers it `bad line 1`, and `audit` says `line 1 bad`. Both
/// end with exit status 1, whatever the source is.
pub fn no_line_is_bad()
    ensures script { NoLineIsBad }
    ensures trace { NoLineOfTrace }
{}
