//! Where the lines of a session have come to.

ghost use Rattle.std.specs.Prelude.{◌≡◌, ◌↔◌, IsTrue, ℕ, List, Option};
ghost use Rattle.apply_core.specs.declared.reply.Reply.{Reply};
ghost use Rattle.session_text.specs.Answers.{opened, ended, repeated, said_of, told};
ghost use Rattle.session_core.specs.Dialogue.{Leads, IsShut};

use session_text::line::{AnyLine, LineRefusal, ReplyLine};

/// Where the lines of a session have come to.
#[derive(Clone, Copy, Debug, PartialEq, Eq)]
pub enum SessionStage {
    /// No call is open.
    Free,
    /// The call of this number was accepted, and its last line is not said yet.
    Open(u64),
    /// `bye` was said. No line stands behind it.
    Over,
}

/// Whether two stages are the same.
pub(crate) fn is_same(one: SessionStage, other: SessionStage) -> bool
    ensures { IsTrue result ↔ (one ≡ other) }
{
    one == other
}

/// Whether no call is open.
pub(crate) fn is_shut(stage: SessionStage) -> bool
    ensures { IsTrue result ↔ IsShut stage }
{
    match stage {
        SessionStage::Free => true,
        SessionStage::Open(_) => false,
        SessionStage::Over => true,
    }
}

// Where `opened NAME`, or what became of a call that was made before, leads: it stands only where no call is open.
fn behind_free(stage: SessionStage) -> Option<SessionStage>
    ensures opened { (name : List ℕ) (next : Option ℕ) → Leads stage (opened name next) result }
    ensures repeated { (n : ℕ) (r : Reply) → Leads stage (repeated n r) result }
{
    match stage {
        SessionStage::Free => Some(SessionStage::Free),
        SessionStage::Open(_) => None,
        SessionStage::Over => None,
    }
}

// Where the last line of the call of this number leads: it stands only where that call is open.
fn behind_last(stage: SessionStage, number: u64) -> Option<SessionStage>
    ensures ended { (r : Reply) → Leads stage (ended number r) result }
    ensures withdrawn { Leads stage (told (ReplyLine.Withdrawn number)) result }
{
    match stage {
        SessionStage::Free => None,
        SessionStage::Open(open) => if open == number {
            Some(SessionStage::Free)
        } else {
            None
        },
        SessionStage::Over => None,
    }
}

// Where a line leads where no call is open.
fn from_free(line: ReplyLine) -> Option<SessionStage>
    ensures { Leads SessionStage.Free (told line) result }
{
    match line {
        ReplyLine::Refused(_) => Some(SessionStage::Free),
        ReplyLine::Unsubmitted(_) => Some(SessionStage::Free),
        ReplyLine::Unkeyed(_) => Some(SessionStage::Free),
        ReplyLine::Accepted(number) => Some(SessionStage::Open(number)),
        ReplyLine::Kept(_, _) => Some(SessionStage::Free),
        ReplyLine::Withdrawn(_) => None,
        ReplyLine::Cancel(_, _) => Some(SessionStage::Free),
        ReplyLine::Bye => Some(SessionStage::Over),
    }
}

// Where a line that says that one was refused leads while this call is open.
fn from_open_refused(number: u64, refusal: LineRefusal) -> Option<SessionStage>
    ensures { Leads (SessionStage.Open number) (told (ReplyLine.Refused refusal)) result }
{
    match refusal {
        LineRefusal::LineTooLong => Some(SessionStage::Open(number)),
        LineRefusal::BadLine => None,
        LineRefusal::NotOpen => None,
        LineRefusal::Opened => None,
        LineRefusal::NoObject => None,
        LineRefusal::InUse => None,
        LineRefusal::Full => None,
        LineRefusal::Gone => None,
    }
}

// Where a line leads while this call is open.
fn from_open(number: u64, line: ReplyLine) -> Option<SessionStage>
    ensures { Leads (SessionStage.Open number) (told line) result }
{
    match line {
        ReplyLine::Refused(refusal) => from_open_refused(number, refusal),
        ReplyLine::Unsubmitted(_) => None,
        ReplyLine::Unkeyed(_) => None,
        ReplyLine::Accepted(_) => None,
        ReplyLine::Kept(_, _) => None,
        ReplyLine::Withdrawn(another) => behind_last(SessionStage::Open(number), another),
        ReplyLine::Cancel(_, _) => Some(SessionStage::Open(number)),
        ReplyLine::Bye => None,
    }
}

// Where a line leads that lends nothing, if it may stand here.
fn behind_told(stage: SessionStage, line: ReplyLine) -> Option<SessionStage>
    ensures { Leads stage (told line) result }
{
    match stage {
        SessionStage::Free => from_free(line),
        SessionStage::Open(open) => from_open(open, line),
        SessionStage::Over => None,
    }
}

/// Where a line leads, if it may stand here.
pub(crate) fn behind(stage: SessionStage, line: AnyLine<'_>) -> Option<SessionStage>
    ensures { Leads stage (said_of line.entry) result }
{
    match line {
        AnyLine::Opened(_, _) => behind_free(stage),
        AnyLine::Ended(number, _) => behind_last(stage, number),
        AnyLine::Repeated(_, _) => behind_free(stage),
        AnyLine::Told(line) => behind_told(stage, line),
    }
}
