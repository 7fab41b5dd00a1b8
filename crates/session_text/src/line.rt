//! The lines that a session writes.

ghost use Rattle.std.specs.Prelude.{◌≡◌, ◌++◌, Some, None, OnOk};
ghost use Rattle.word_core.specs.Answers as answers;
ghost use Rattle.session_text.specs.Lines as lines;
ghost use Rattle.session_text.specs.Answers.{said_of, said_text};

use apply_core::reply::Reply;
use guest_core::answer::{Cancelled, KeyedFault, SubmitFault};
use path_tree::name::Name;
use std::alloc::AllocError;
use word_core::answers::push_refused;
use word_core::ending::push_finish;
use word_core::line::push_line as push_words_line;
use word_core::reply::reply_ending;
use word_core::word::Written;

/// Why a line is refused that submits nothing.
#[derive(Clone, Copy, Debug, PartialEq, Eq)]
pub enum LineRefusal {
    /// It asks for nothing that a session may ask for.
    BadLine,
    /// It has more than 4,096 bytes.
    LineTooLong,
    /// No object is opened.
    NotOpen,
    /// An object is opened already.
    Opened,
    /// No object has this name.
    NoObject,
    /// The seat of this client is given out to another session.
    InUse,
    /// All seats of the object are given out.
    Full,
    /// The end of the input may have cut it off, and what it asks for could be asked for by another line too.
    Gone,
}

/// What became of a call that has no reply.
#[derive(Clone, Copy, Debug, PartialEq, Eq)]
pub enum Unended {
    /// It waits.
    Waiting,
    /// It runs.
    Running,
    /// It was cancelled before it started.
    Cancelled,
}

/// A line that a session writes, and that lends nothing. Numbers are those of calls, from 1.
#[derive(Clone, Copy, Debug, PartialEq, Eq)]
pub enum ReplyLine {
    /// `no REFUSAL`: a line was refused.
    Refused(LineRefusal),
    /// `no FAULT`: a call was not taken.
    Unsubmitted(SubmitFault),
    /// `no FAULT`: a call under a key was not taken, and is none that was made before.
    Unkeyed(KeyedFault),
    /// `accepted N`: a call was taken, under this number.
    Accepted(u64),
    /// `repeat STATE N`: the call was made before, under this number, and has no reply.
    Kept(u64, Unended),
    /// `cancelled N`: a call was cancelled before it started.
    Withdrawn(u64),
    /// `cancel N ANSWER`: what became of a cancel.
    Cancel(u64, Cancelled),
    /// `bye`: the session ends.
    Bye,
}

/// A line that a session writes.
#[derive(Clone, Copy)]
pub enum AnyLine<'a> {
    /// `opened NAME`, or `opened NAME next K` where the key of the next call is told.
    Opened(&'a Name, Option<u64>),
    /// The last line of a call that has a receipt: `done N`, `done N VALUE`, `refused N WORD` or `failed N WORD`.
    Ended(u64, &'a Reply),
    /// The same behind `repeat`: the last line of a call that was made before.
    Repeated(u64, &'a Reply),
    /// Any other line.
    Told(ReplyLine),
}

fn refusal_name(refusal: LineRefusal) -> &'static str
    ensures { result.now ≡ lines.refusal_name refusal }
{
    match refusal {
        LineRefusal::BadLine => "BadLine",
        LineRefusal::LineTooLong => "LineTooLong",
        LineRefusal::NotOpen => "NotOpen",
        LineRefusal::Opened => "Opened",
        LineRefusal::NoObject => "NoObject",
        LineRefusal::InUse => "InUse",
        LineRefusal::Full => "Full",
        LineRefusal::Gone => "Gone",
    }
}

fn fault_name(fault: SubmitFault) -> &'static str
    ensures { result.now ≡ lines.fault_name fault }
{
    match fault {
        SubmitFault::Gone => "Gone",
        SubmitFault::UnknownOp => "UnknownOp",
        SubmitFault::BadArgs => "BadArgs",
        SubmitFault::SessionBusy => "SessionBusy",
        SubmitFault::Full => "Full",
        SubmitFault::HistoryFull => "HistoryFull",
        SubmitFault::Memory => "Memory",
    }
}

fn keyed_name(fault: KeyedFault) -> &'static str
    ensures { result.now ≡ lines.keyed_name fault }
{
    match fault {
        KeyedFault::Gone => "Gone",
        KeyedFault::BadKey => "BadKey",
        KeyedFault::KeyReused => "KeyReused",
        KeyedFault::Submit(fault) => fault_name(fault),
    }
}

fn unended_name(state: Unended) -> &'static [u8]
    ensures { result.now ≡ lines.unended_name state }
{
    match state {
        Unended::Waiting => b"waiting",
        Unended::Running => b"running",
        Unended::Cancelled => b"cancelled",
    }
}

fn cancel_name(answer: Cancelled) -> &'static [u8]
    ensures { result.now ≡ lines.cancel_name answer }
{
    match answer {
        Cancelled::Cancelled => b"Cancelled",
        Cancelled::Running => b"Running",
        Cancelled::Ended => b"Ended",
        Cancelled::Unknown => b"Unknown",
    }
}

fn push_accepted(out: &mut Vec<u8>, number: u64) -> Result<(), AllocError>
    ensures { OnOk result (out.new.items ≡ out.old.items ++ lines.accepted_text number) }
{
    push_words_line(out, &[Written::Bare(b"accepted"), Written::Integer(number)])
}

fn push_withdrawn(out: &mut Vec<u8>, number: u64) -> Result<(), AllocError>
    ensures { OnOk result (out.new.items ≡ out.old.items ++ lines.withdrawn_text number) }
{
    push_words_line(
        out,
        &[Written::Bare(b"cancelled"), Written::Integer(number)],
    )
}

fn push_kept(out: &mut Vec<u8>, number: u64, state: Unended) -> Result<(), AllocError>
    ensures { OnOk result (out.new.items ≡ out.old.items ++ answers.kept_line (lines.unended_name state) number) }
{
    push_words_line(
        out,
        &[
            Written::Bare(b"repeat"),
            Written::Bare(unended_name(state)),
            Written::Integer(number),
        ],
    )
}

fn push_cancel(out: &mut Vec<u8>, number: u64, answer: Cancelled) -> Result<(), AllocError>
    ensures { OnOk result (out.new.items ≡ out.old.items ++ answers.cancelled_line number (lines.cancel_name answer)) }
{
    push_words_line(
        out,
        &[
            Written::Bare(b"cancel"),
            Written::Integer(number),
            Written::Bare(cancel_name(answer)),
        ],
    )
}

fn push_bye(out: &mut Vec<u8>) -> Result<(), AllocError>
    ensures { OnOk result (out.new.items ≡ out.old.items ++ lines.bye_text) }
{
    push_words_line(out, &[Written::Bare(b"bye")])
}

fn push_told(out: &mut Vec<u8>, line: ReplyLine) -> Result<(), AllocError>
    ensures { OnOk result (out.new.items ≡ out.old.items ++ lines.line_text line) }
{
    match line {
        ReplyLine::Refused(refusal) => push_refused(out, refusal_name(refusal)),
        ReplyLine::Unsubmitted(fault) => push_refused(out, fault_name(fault)),
        ReplyLine::Unkeyed(fault) => push_refused(out, keyed_name(fault)),
        ReplyLine::Accepted(number) => push_accepted(out, number),
        ReplyLine::Kept(number, state) => push_kept(out, number, state),
        ReplyLine::Withdrawn(number) => push_withdrawn(out, number),
        ReplyLine::Cancel(number, answer) => push_cancel(out, number, answer),
        ReplyLine::Bye => push_bye(out),
    }
}

fn push_opened_plain(out: &mut Vec<u8>, name: &Name) -> Result<(), AllocError>
    ensures { OnOk result (out.new.items ≡ out.old.items ++ lines.opened_text name.now None) }
{
    push_words_line(
        out,
        &[Written::Bare(b"opened"), Written::Bare(name.as_bytes())],
    )
}

fn push_opened_next(out: &mut Vec<u8>, name: &Name, key: u64) -> Result<(), AllocError>
    ensures { OnOk result (out.new.items ≡ out.old.items ++ lines.opened_text name.now (Some key)) }
{
    push_words_line(
        out,
        &[
            Written::Bare(b"opened"),
            Written::Bare(name.as_bytes()),
            Written::Bare(b"next"),
            Written::Integer(key),
        ],
    )
}

fn push_opened(out: &mut Vec<u8>, name: &Name, next: Option<u64>) -> Result<(), AllocError>
    ensures { OnOk result (out.new.items ≡ out.old.items ++ lines.opened_text name.now next) }
{
    match next {
        Some(key) => push_opened_next(out, name, key),
        None => push_opened_plain(out, name),
    }
}

fn push_ending(out: &mut Vec<u8>, number: u64, reply: &Reply) -> Result<(), AllocError>
    ensures { OnOk result (out.new.items ≡ out.old.items ++ lines.ended_text number reply.now) }
{
    push_finish(out, number, &reply_ending(reply))
}

// A value is written from where it lies: as an ending it would be copied, and it has room for a kilobyte.
fn push_ended(out: &mut Vec<u8>, number: u64, reply: &Reply) -> Result<(), AllocError>
    ensures { OnOk result (out.new.items ≡ out.old.items ++ lines.ended_text number reply.now) }
{
    match reply {
        Reply::Done(None) => push_words_line(
            out,
            &[Written::Bare(b"done"), Written::Integer(number)],
        ),
        Reply::Done(Some(datum)) => push_words_line(
            out,
            &[
                Written::Bare(b"done"),
                Written::Integer(number),
                Written::Datum(datum),
            ],
        ),
        _ => push_ending(out, number, reply),
    }
}

fn push_repeated(out: &mut Vec<u8>, number: u64, reply: &Reply) -> Result<(), AllocError>
    ensures { OnOk result (out.new.items ≡ out.old.items ++ lines.repeated_text number reply.now) }
{
    out.extend_from_slice(b"repeat ")?;
    push_ended(out, number, reply)
}

/// Adds a line to `out`. The error is that memory was refused; how much of the line then stands in `out` is not said.
pub fn push_line(out: &mut Vec<u8>, line: AnyLine<'_>) -> Result<(), AllocError>
    ensures { OnOk result (out.new.items ≡ out.old.items ++ said_text (said_of line.entry)) }
{
    match line {
        AnyLine::Opened(name, next) => push_opened(out, name, next),
        AnyLine::Ended(number, reply) => push_ended(out, number, reply),
        AnyLine::Repeated(number, reply) => push_repeated(out, number, reply),
        AnyLine::Told(line) => push_told(out, line),
    }
}
