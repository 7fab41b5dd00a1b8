//! What a line behind a front says.

ghost use Rattle.std.specs.Prelude.{IfOk};
ghost use Rattle.word_core.specs.Reads.{Reads};
ghost use Rattle.audit_core.specs.EpochSaid.{asked_of, start_of, cancel_of, end_of, name_of as name_in, name_by as name_by_words};
ghost use Rattle.audit_core.specs.EpochSaid.{said_by as said_in};
ghost use Rattle.audit_core.specs.EpochView.{asked_view, said_view, IsSaid};

use crate::said as lines;
use crate::told::ToldReply;
use std::alloc::{AllocError, Global};
use value_core::datum::Datum;
use value_core::words::is_same_word;
use word_core::front::{next_bare, only_bare};
use word_core::number::session_of;

/// A call that a line tells of.
#[derive(Drop)]
pub struct AskedCall<'a> {
    /// Its number in this epoch.
    pub number: u32,
    /// Its session.
    pub session: u32,
    /// The name of its operation.
    pub name: &'a [u8],
    /// Its arguments, in order.
    pub arguments: Vec<Datum>,
}

/// What a line behind a front says.
#[derive(Drop)]
pub enum EpochLine<'a> {
    /// `start N sK OP ARG ..`.
    Start(AskedCall<'a>),
    /// `end N`, and the reply.
    End(u32, ToldReply),
    /// `cancel N sK OP ARG ..`.
    Cancel(AskedCall<'a>),
    /// `name sK CLIENT`.
    Name(u32, &'a [u8]),
}

/// What a line says, or `None` where it is outside the format. The error is that memory was refused.
pub fn read_line(alloc: Global, line: &[u8]) -> Result<Option<EpochLine<'_>>, AllocError>
    ensures { IfOk result (IsSaid line.now) }
{
    match next_bare(line) {
        Some((verb, rest)) => said_by(alloc, verb, rest),
        None => Ok(None),
    }
}

// What a line says of this word and of those behind it.
fn said_by<'a>(
    alloc: Global,
    verb: &[u8],
    line: &'a [u8],
) -> Result<Option<EpochLine<'a>>, AllocError>
    ensures { IfOk result (Reads (said_in verb.now) said_view line.now) }
{
    if is_same_word(verb, b"start") {
        return start_said(alloc, line);
    }
    if is_same_word(verb, b"end") {
        return end_said(alloc, line);
    }
    if is_same_word(verb, b"cancel") {
        return cancel_said(alloc, line);
    }
    if is_same_word(verb, b"name") {
        return Ok(name_said(line));
    }
    Ok(None)
}

// The call that stands behind `start` or `cancel`.
fn call_said(alloc: Global, line: &[u8]) -> Result<Option<AskedCall<'_>>, AllocError>
    ensures { IfOk result (Reads asked_of asked_view line.now) }
{
    match lines::start_said(alloc, line)? {
        Some(lines::ToldLine::Start(number, session, name, arguments)) => Ok(Some(AskedCall {
            number,
            session,
            name,
            arguments,
        })),
        _ => Ok(None),
    }
}

fn start_said(alloc: Global, line: &[u8]) -> Result<Option<EpochLine<'_>>, AllocError>
    ensures { IfOk result (Reads start_of said_view line.now) }
{
    match call_said(alloc, line)? {
        Some(asked) => Ok(Some(EpochLine::Start(asked))),
        None => Ok(None),
    }
}

fn cancel_said(alloc: Global, line: &[u8]) -> Result<Option<EpochLine<'_>>, AllocError>
    ensures { IfOk result (Reads cancel_of said_view line.now) }
{
    match call_said(alloc, line)? {
        Some(asked) => Ok(Some(EpochLine::Cancel(asked))),
        None => Ok(None),
    }
}

fn end_said(alloc: Global, line: &[u8]) -> Result<Option<EpochLine<'_>>, AllocError>
    ensures { IfOk result (Reads end_of said_view line.now) }
{
    match lines::end_said(alloc, line)? {
        Some(lines::ToldLine::End(number, reply)) => Ok(Some(EpochLine::End(number, reply))),
        _ => Ok(None),
    }
}

fn name_said(line: &[u8]) -> Option<EpochLine<'_>>
    ensures { Reads name_in said_view line.now result }
{
    match next_bare(line) {
        Some((session, rest)) => name_by(session, rest),
        None => None,
    }
}

// The name of the session that this word names, with the words behind it.
fn name_by<'a>(session: &[u8], line: &'a [u8]) -> Option<EpochLine<'a>>
    ensures { Reads (name_by_words session.now) said_view line.now result }
{
    match session_of(session) {
        Some(session) => match only_bare(line) {
            Some(client) => Some(EpochLine::Name(session, client)),
            None => None,
        },
        None => None,
    }
}
