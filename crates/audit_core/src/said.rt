//! What a line of a trace says.

ghost use Rattle.std.specs.Prelude.{IfOk};
ghost use Rattle.audit_core.specs.Said.{object_said as object_in, part_said as part_in, part_behind};
ghost use Rattle.audit_core.specs.Said.{start_said as start_in, start_behind, start_by as start_by_word};
ghost use Rattle.audit_core.specs.Said.{start_of as start_of_words, end_said as end_in, end_behind, said_by as said_in};
ghost use Rattle.word_core.specs.Reads.{Reads};
ghost use Rattle.audit_core.specs.View.{said_view, IsSaid};

use crate::same::is_same_word;
use crate::told::{ToldReply, read_reply};
use std::alloc::{AllocError, Global};
use value_core::datum::Datum;
use word_core::arguments::data_of;
use word_core::front::{next_bare, only_bare};
use word_core::number::{integer_of, session_of};

/// What a line of a trace says.
#[derive(Drop)]
pub enum ToldLine<'a> {
    /// `object NAME`.
    Object(&'a [u8]),
    /// `part NAME HEX`.
    Part(&'a [u8], &'a [u8]),
    /// `start N sK OP ARG ..`.
    Start(u32, u32, &'a [u8], Vec<Datum>),
    /// `end N`, and the reply.
    End(u32, ToldReply),
}

/// What a line says, or `None` where it is outside the format.
pub fn read_line(alloc: Global, line: &[u8]) -> Result<Option<ToldLine<'_>>, AllocError>
    ensures { IfOk result (IsSaid line.now) }
{
    match next_bare(line) {
        Some((verb, rest)) => said_by(alloc, verb, rest),
        None => Ok(None),
    }
}

// What a line says of this word and of those behind it.
fn said_by<'a>(
    alloc: Global,
    verb: &[u8],
    line: &'a [u8],
) -> Result<Option<ToldLine<'a>>, AllocError>
    ensures { IfOk result (Reads (said_in verb.now) said_view line.now) }
{
    if is_same_word(verb, b"object") {
        return Ok(object_said(line));
    }
    if is_same_word(verb, b"part") {
        return Ok(part_said(line));
    }
    if is_same_word(verb, b"start") {
        return start_said(alloc, line);
    }
    if is_same_word(verb, b"end") {
        return end_said(alloc, line);
    }
    Ok(None)
}

fn object_said(line: &[u8]) -> Option<ToldLine<'_>>
    ensures { Reads object_in said_view line.now result }
{
    match only_bare(line) {
        Some(name) => Some(ToldLine::Object(name)),
        None => None,
    }
}

fn part_said(line: &[u8]) -> Option<ToldLine<'_>>
    ensures { Reads part_in said_view line.now result }
{
    match next_bare(line) {
        Some((name, rest)) => part_of(name, rest),
        None => None,
    }
}

// A part of this name, with the word behind the name.
fn part_of<'a>(name: &'a [u8], line: &'a [u8]) -> Option<ToldLine<'a>>
    ensures { Reads (part_behind name.now) said_view line.now result }
{
    match only_bare(line) {
        Some(hex) => Some(ToldLine::Part(name, hex)),
        None => None,
    }
}

/// What the words behind `start` say.
pub fn start_said(alloc: Global, line: &[u8]) -> Result<Option<ToldLine<'_>>, AllocError>
    ensures { IfOk result (Reads start_in said_view line.now) }
{
    match next_bare(line) {
        Some((number, rest)) => start_numbered(alloc, number, rest),
        None => Ok(None),
    }
}

// A start whose number is this word, with the words behind it.
fn start_numbered<'a>(
    alloc: Global,
    number: &[u8],
    line: &'a [u8],
) -> Result<Option<ToldLine<'a>>, AllocError>
    ensures { IfOk result (Reads (start_behind number.now) said_view line.now) }
{
    match integer_of(number) {
        Some(number) => match next_bare(line) {
            Some((session, rest)) => start_by(alloc, number, session, rest),
            None => Ok(None),
        },
        None => Ok(None),
    }
}

// A start of this number by the session that this word names, with the words behind it.
fn start_by<'a>(
    alloc: Global,
    number: u32,
    session: &[u8],
    line: &'a [u8],
) -> Result<Option<ToldLine<'a>>, AllocError>
    ensures { IfOk result (Reads (start_by_word number session.now) said_view line.now) }
{
    match session_of(session) {
        Some(session) => match next_bare(line) {
            Some((name, rest)) => start_of(alloc, number, session, name, rest),
            None => Ok(None),
        },
        None => Ok(None),
    }
}

// A start of the operation of this name, with the words behind the name.
fn start_of<'a>(
    alloc: Global,
    number: u32,
    session: u32,
    name: &'a [u8],
    line: &'a [u8],
) -> Result<Option<ToldLine<'a>>, AllocError>
    ensures { IfOk result (Reads (start_of_words number session name.now) said_view line.now) }
{
    match data_of(alloc, line)? {
        Some(arguments) => Ok(Some(ToldLine::Start(number, session, name, arguments))),
        None => Ok(None),
    }
}

/// What the words behind `end` say.
pub fn end_said(alloc: Global, line: &[u8]) -> Result<Option<ToldLine<'_>>, AllocError>
    ensures { IfOk result (Reads end_in said_view line.now) }
{
    match next_bare(line) {
        Some((number, rest)) => end_numbered(alloc, number, rest),
        None => Ok(None),
    }
}

// An end whose number is this word, with the words behind it.
fn end_numbered<'a>(
    alloc: Global,
    number: &[u8],
    line: &[u8],
) -> Result<Option<ToldLine<'a>>, AllocError>
    ensures { IfOk result (Reads (end_behind number.now) said_view line.now) }
{
    match integer_of(number) {
        Some(number) => match read_reply(alloc, line)? {
            Some(reply) => Ok(Some(ToldLine::End(number, reply))),
            None => Ok(None),
        },
        None => Ok(None),
    }
}
