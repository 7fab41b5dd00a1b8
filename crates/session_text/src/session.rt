//! What is done for the lines of a session.

ghost use Rattle.std.specs.Prelude.{◌≡◌, IfOk, false};
ghost use Rattle.session_text.specs.Table.{Does, DoesLast, Takes, TakesLast};
ghost use Rattle.session_text.specs.View.{request_view};

use crate::line::LineRefusal;
use crate::request::{SessionRequest, read_line};
use path_tree::name::Name;
use std::alloc::{AllocError, Global};
use value_core::datum::Datum;

/// What is done for a line.
#[derive(Drop)]
pub enum Action {
    /// An object of this name is to be opened, for a client that has a name or none.
    Open(Name, Option<Name>),
    /// A call of this operation is to be submitted, under a key or none, with these arguments.
    Call(Option<u32>, Name, Vec<Datum>),
    /// The call of this number is to be cancelled.
    Cancel(u32),
    /// The session ends, behind its calls.
    Quit,
    /// The line is refused.
    Answer(LineRefusal),
}

/// What a session knows of itself: whether an object is opened.
#[derive(Debug, Drop)]
pub struct Session {
    pub(crate) is_open: bool,
}

impl Session {
    /// A session in which nothing is opened.
    pub fn new() -> Session
        ensures { result.is_open ≡ false }
    {
        Session { is_open: false }
    }

    /// What is done for a line, by the table of sessions. A line that asks for nothing is answered `BadLine`; `open`
    /// where an object is opened `Opened`, `call` and `cancel` where none is `NotOpen`.
    ///
    /// The error is that memory was refused.
    pub fn feed(&self, alloc: Global, line: &[u8]) -> Result<Action, AllocError>
        ensures { IfOk result (Takes self.now.is_open line.now) }
    {
        match read_line(alloc, line)? {
            Some(request) => Ok(done_for(self.is_open, request)),
            None => Ok(Action::Answer(LineRefusal::BadLine)),
        }
    }

    /// What is done for the last line of a session, where no line end stands behind it: it may be the front of a longer
    /// line. A call is answered `Gone` and a cancel `BadLine`; all else is done as by [`Session::feed`].
    ///
    /// The error is that memory was refused.
    pub fn feed_last(&self, alloc: Global, line: &[u8]) -> Result<Action, AllocError>
        ensures { IfOk result (TakesLast self.now.is_open line.now) }
    {
        match read_line(alloc, line)? {
            Some(request) => Ok(done_last(self.is_open, request)),
            None => Ok(Action::Answer(LineRefusal::BadLine)),
        }
    }

    /// Tells how the opening of an object went.
    pub fn opened(&mut self, went: bool)
        ensures { self.new.is_open ≡ went }
    {
        self.is_open = went;
    }
}

// What is done for a request.
fn done_for(is_open: bool, request: SessionRequest) -> Action
    ensures { Does is_open (request_view request) result }
{
    match request {
        SessionRequest::Open(name, client) => if is_open {
            Action::Answer(LineRefusal::Opened)
        } else {
            Action::Open(name, client)
        },
        SessionRequest::Call(key, name, arguments) => if is_open {
            Action::Call(key, name, arguments)
        } else {
            Action::Answer(LineRefusal::NotOpen)
        },
        SessionRequest::Cancel(number) => if is_open {
            Action::Cancel(number)
        } else {
            Action::Answer(LineRefusal::NotOpen)
        },
        SessionRequest::Quit => Action::Quit,
    }
}

// What is done for the last request, where no line end stands behind it.
fn done_last(is_open: bool, request: SessionRequest) -> Action
    ensures { DoesLast is_open (request_view request) result }
{
    match request {
        SessionRequest::Open(name, client) => if is_open {
            Action::Answer(LineRefusal::Opened)
        } else {
            Action::Open(name, client)
        },
        SessionRequest::Call(_, _, _) => if is_open {
            Action::Answer(LineRefusal::Gone)
        } else {
            Action::Answer(LineRefusal::NotOpen)
        },
        SessionRequest::Cancel(_) => if is_open {
            Action::Answer(LineRefusal::BadLine)
        } else {
            Action::Answer(LineRefusal::NotOpen)
        },
        SessionRequest::Quit => Action::Quit,
    }
}
