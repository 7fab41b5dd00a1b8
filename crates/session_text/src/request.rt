//! What a line of a session asks for.

ghost use Rattle.std.specs.Prelude.{◌≡◌, IfOk};
ghost use Rattle.word_core.specs.Data.{at_end};
ghost use Rattle.word_core.specs.Reads.{Reads};
ghost use Rattle.session_text.specs.Reserved.{is_reserved as is_reserved_in};
ghost use Rattle.session_text.specs.Requests.{name_of as name_in, free_name_of as free_name_in};
ghost use Rattle.session_text.specs.Requests.{open_request as open_in, open_named as open_named_in};
ghost use Rattle.session_text.specs.Requests.{open_behind as open_behind_in, as_behind, client_behind};
ghost use Rattle.session_text.specs.Requests.{call_request as call_in, call_by as call_by_in, keyed_behind};
ghost use Rattle.session_text.specs.Requests.{digits_behind, cancel_request as cancel_in, call_behind, quits};
ghost use Rattle.session_text.specs.Requests.{request_by as request_in};
ghost use Rattle.session_text.specs.View.{request_view, IsReadOf};

use path_tree::lex::word::reserved;
use path_tree::name::Name;
use std::alloc::{AllocError, Global};
use value_core::datum::Datum;
use value_core::words::is_same_word;
use word_core::arguments::data_of;
use word_core::front::{is_blank, next_bare, only_bare};
use word_core::number::integer_of;

/// What a line of a session asks for.
#[derive(Drop)]
pub enum SessionRequest {
    /// `open NAME` or `open NAME as CLIENT`: the name of the object, and that of the client where it gives one.
    Open(Name, Option<Name>),
    /// `call OP ARG ..` or `call #J OP ARG ..`: the key where one is given, the name of the
    /// operation, and the arguments.
    Call(Option<u32>, Name, Vec<Datum>),
    /// `cancel N`.
    Cancel(u32),
    /// `quit`.
    Quit,
}

/// What a line asks for, or `None` where it asks for nothing that a session may ask for.
///
/// The error is that memory was refused.
pub fn read_line(alloc: Global, line: &[u8]) -> Result<Option<SessionRequest>, AllocError>
    ensures { IfOk result (IsReadOf line.now) }
{
    match next_bare(line) {
        Some((verb, rest)) => request_by(alloc, verb, rest),
        None => Ok(None),
    }
}

// What a line asks for by this word and those behind it.
fn request_by(alloc: Global, verb: &[u8], line: &[u8]) -> Result<Option<SessionRequest>, AllocError>
    ensures { IfOk result (Reads (request_in verb.now) request_view line.now) }
{
    if is_same_word(verb, b"open") {
        return open_request(alloc, line);
    }
    if is_same_word(verb, b"call") {
        return call_request(alloc, line);
    }
    if is_same_word(verb, b"cancel") {
        return Ok(cancel_request(line));
    }
    if is_same_word(verb, b"quit") {
        return Ok(quit_request(line));
    }
    Ok(None)
}

// The name that these bytes spell, where they are an identifier.
fn name_of(alloc: Global, bytes: &[u8]) -> Result<Option<Name>, AllocError>
    ensures { IfOk result (λ found. found ≡ name_in bytes.now) }
{
    let name = Name::read(alloc, bytes)?;
    Ok(name)
}

// Whether these bytes are a reserved word.
fn is_reserved(bytes: &[u8]) -> bool
    ensures { result ≡ is_reserved_in bytes.now }
{
    if bytes.is_empty() {
        return false;
    }
    match reserved(bytes) {
        Some(_) => true,
        None => false,
    }
}

// The name that these bytes spell, where they are an identifier that is no reserved word.
fn free_name_of(alloc: Global, bytes: &[u8]) -> Result<Option<Name>, AllocError>
    ensures { IfOk result (λ found. found ≡ free_name_in bytes.now) }
{
    if is_reserved(bytes) {
        return Ok(None);
    }
    name_of(alloc, bytes)
}

fn open_request(alloc: Global, line: &[u8]) -> Result<Option<SessionRequest>, AllocError>
    ensures { IfOk result (Reads open_in request_view line.now) }
{
    match next_bare(line) {
        Some((word, rest)) => open_named(alloc, word, rest),
        None => Ok(None),
    }
}

// The object that this word names is opened, by the words behind it.
fn open_named(alloc: Global, word: &[u8], line: &[u8]) -> Result<Option<SessionRequest>, AllocError>
    ensures { IfOk result (Reads (open_named_in word.now) request_view line.now) }
{
    match name_of(alloc, word)? {
        Some(name) => open_behind(alloc, name, line),
        None => Ok(None),
    }
}

// The object of this name is opened, by the words behind it.
fn open_behind(alloc: Global, name: Name, line: &[u8]) -> Result<Option<SessionRequest>, AllocError>
    ensures { IfOk result (Reads (open_behind_in name) request_view line.now) }
{
    if is_blank(line) {
        return Ok(Some(SessionRequest::Open(name, None)));
    }
    match next_bare(line) {
        Some((word, rest)) => open_as(alloc, name, word, rest),
        None => Ok(None),
    }
}

// The object of this name is opened by this word, which has to be `as`, and the words behind it.
fn open_as(
    alloc: Global,
    name: Name,
    word: &[u8],
    line: &[u8],
) -> Result<Option<SessionRequest>, AllocError>
    ensures { IfOk result (Reads (as_behind name word.now) request_view line.now) }
{
    if !is_same_word(word, b"as") {
        return Ok(None);
    }
    open_for(alloc, name, line)
}

// The object of this name is opened for the client that the one word of the line names.
fn open_for(alloc: Global, name: Name, line: &[u8]) -> Result<Option<SessionRequest>, AllocError>
    ensures { IfOk result (Reads (client_behind name) request_view line.now) }
{
    match only_bare(line) {
        Some(word) => match free_name_of(alloc, word)? {
            Some(client) => Ok(Some(SessionRequest::Open(name, Some(client)))),
            None => Ok(None),
        },
        None => Ok(None),
    }
}

fn call_request(alloc: Global, line: &[u8]) -> Result<Option<SessionRequest>, AllocError>
    ensures { IfOk result (Reads call_in request_view line.now) }
{
    match next_bare(line) {
        Some((word, rest)) => call_by(alloc, word, rest),
        None => Ok(None),
    }
}

// A call of the operation that this word names, or under the key that it tells, with the words behind it.
fn call_by(alloc: Global, word: &[u8], line: &[u8]) -> Result<Option<SessionRequest>, AllocError>
    ensures { IfOk result (Reads (call_by_in word.now) request_view line.now) }
{
    match word {
        [] => Ok(None),
        [b'#', digits @ ..] => call_under(alloc, digits, line),
        _ => call_named(alloc, None, word, line),
    }
}

// A call under the key that these digits tell.
fn call_under(
    alloc: Global,
    digits: &[u8],
    line: &[u8],
) -> Result<Option<SessionRequest>, AllocError>
    ensures { IfOk result (Reads (digits_behind digits.now) request_view line.now) }
{
    match integer_of(digits) {
        Some(key) => call_keyed(alloc, key, line),
        None => Ok(None),
    }
}

fn call_keyed(alloc: Global, key: u32, line: &[u8]) -> Result<Option<SessionRequest>, AllocError>
    ensures { IfOk result (Reads (keyed_behind key) request_view line.now) }
{
    match next_bare(line) {
        Some((word, rest)) => call_named(alloc, Some(key), word, rest),
        None => Ok(None),
    }
}

// A call of the operation that this word names, with the words behind it.
fn call_named(
    alloc: Global,
    key: Option<u32>,
    word: &[u8],
    line: &[u8],
) -> Result<Option<SessionRequest>, AllocError>
    ensures { IfOk result (Reads (call_behind key word.now) request_view line.now) }
{
    match name_of(alloc, word)? {
        Some(name) => match data_of(alloc, line)? {
            Some(arguments) => Ok(Some(SessionRequest::Call(key, name, arguments))),
            None => Ok(None),
        },
        None => Ok(None),
    }
}

fn cancel_request(line: &[u8]) -> Option<SessionRequest>
    ensures { Reads cancel_in request_view line.now result }
{
    let word = only_bare(line)?;
    let number = integer_of(word)?;
    Some(SessionRequest::Cancel(number))
}

fn quit_request(line: &[u8]) -> Option<SessionRequest>
    ensures { Reads (λ words. at_end words quits) request_view line.now result }
{
    if is_blank(line) {
        return Some(SessionRequest::Quit);
    }
    None
}
