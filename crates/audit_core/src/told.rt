//! Replies as lines of a trace tell them.

ghost use Rattle.std.specs.Prelude.{◌≡◌, ◌∷◌, ◌&&◌, ◌↔◌, IsTrue, false, Some, None, nat_le, length, IfOk, option_map};
ghost use Rattle.std.specs.Prelude.{codes};
ghost use Rattle.std.specs.List.{list_all};
ghost use Rattle.value_core.specs.declared.datum.Datum.TheVariants.{Integer};
ghost use Rattle.word_core.specs.Words.{bare};
ghost use Rattle.word_core.specs.View.{word_of};
ghost use Rattle.apply_core.specs.declared.reply.Reply.TheVariants.{Done};
ghost use Rattle.audit_core.specs.Replies.{IsAnswer, IsFailure};
ghost use Rattle.audit_core.specs.Said.{refused_by as refused_in, failed_by as failed_in, reply_of as reply_of_words};
ghost use Rattle.audit_core.specs.Said.{reply_behind, is_lower as is_lower_letter, is_refusal_text as is_refusal_word};
ghost use Rattle.word_core.specs.Reads.{Reads};
ghost use Rattle.audit_core.specs.Reads.{done_reply as done_in, text_reply as text_in};
ghost use Rattle.audit_core.specs.View.{told_view};

use crate::same::is_same_word;
use apply_core::reply::{Failure, Reply};
use std::alloc::{AllocError, Global};
use value_core::datum::Datum;
use value_core::text::Text;
use word_core::front::{is_blank, next_bare, only_bare};
use word_core::next::{Next, next_word};
use word_core::number::integer_of;
use word_core::word::Word;

/// The reply that a line tells. A long one lies apart, so that what a line says is small and cheap to hand on.
#[derive(Drop)]
pub enum ToldReply {
    /// `done`.
    Nothing,
    /// `done N`.
    Integer(u32),
    /// Any other one.
    Other(Box<Reply>),
}

impl ToldReply {
    /// Whether it is that of a call that failed.
    pub fn is_failure(&self) -> bool
        ensures failure { IsTrue result → IsFailure (told_view self.now) }
        ensures answer { result ≡ false → IsAnswer (told_view self.now) }
    {
        match self {
            ToldReply::Nothing => false,
            ToldReply::Integer(_) => false,
            ToldReply::Other(reply) => is_failed(reply),
        }
    }

    /// Whether it is this reply.
    pub fn is_same(&self, given: &Reply) -> bool
        ensures { IsTrue result ↔ (told_view self.now ≡ given.now) }
    {
        match self {
            ToldReply::Nothing => is_nothing(given),
            ToldReply::Integer(number) => is_integer(given, *number),
            ToldReply::Other(reply) => reply.is_same(given),
        }
    }
}

fn is_failed(reply: &Reply) -> bool
    ensures failure { IsTrue result → IsFailure reply.now }
    ensures answer { result ≡ false → IsAnswer reply.now }
{
    match reply {
        Reply::Done(_) => false,
        Reply::Refused(_) => false,
        Reply::Failed(_) => true,
    }
}

// Whether a reply is that of a procedure that was done.
fn is_nothing(reply: &Reply) -> bool
    ensures { IsTrue result ↔ (Done None ≡ reply.now) }
{
    match reply {
        Reply::Done(None) => true,
        _ => false,
    }
}

// Whether a reply is that of a function that was done and replies this integer.
fn is_integer(reply: &Reply, number: u32) -> bool
    ensures { IsTrue result ↔ (Done (Some (Integer number)) ≡ reply.now) }
{
    match reply {
        Reply::Done(Some(Datum::Integer(given))) => *given == number,
        _ => false,
    }
}

/// The reply that the words of a line tell.
pub fn read_reply(alloc: Global, line: &[u8]) -> Result<Option<ToldReply>, AllocError>
    ensures { IfOk result (Reads reply_of_words told_view line.now) }
{
    match next_bare(line) {
        Some((verb, rest)) => reply_by(alloc, verb, rest),
        None => Ok(None),
    }
}

// The reply that a word and those of the line behind it tell.
fn reply_by(alloc: Global, verb: &[u8], line: &[u8]) -> Result<Option<ToldReply>, AllocError>
    ensures { IfOk result (Reads (reply_behind verb.now) told_view line.now) }
{
    if is_same_word(verb, b"done") {
        return done_reply(alloc, line);
    }
    if is_same_word(verb, b"refused") {
        return refused_reply(alloc, line);
    }
    if is_same_word(verb, b"failed") {
        return failed_reply(alloc, line);
    }
    Ok(None)
}

// A reply in memory of its own.
fn kept_apart(alloc: Global, found: Option<Reply>) -> Result<Option<ToldReply>, AllocError>
    ensures { IfOk result (λ kept. option_map told_view kept ≡ found) }
{
    match found {
        Some(reply) => {
            let reply = Box::new(alloc, reply)?;
            Ok(Some(ToldReply::Other(reply)))
        }
        None => Ok(None),
    }
}

// The reply of a call that was done, with what stands behind `done`.
fn done_reply(alloc: Global, line: &[u8]) -> Result<Option<ToldReply>, AllocError>
    ensures { IfOk result (Reads done_in told_view line.now) }
{
    if is_blank(line) {
        return Ok(Some(ToldReply::Nothing));
    }
    match next_bare(line) {
        Some((word, rest)) => Ok(integer_reply(word, rest)),
        None => text_reply(alloc, line),
    }
}

// The integer that a bare word is, where no word stands behind it.
fn integer_reply(word: &[u8], line: &[u8]) -> Option<ToldReply>
    ensures { Reads (λ words. done_in (bare word.now ∷ words)) told_view line.now result }
{
    if !is_blank(line) {
        return None;
    }
    match integer_of(word) {
        Some(number) => Some(ToldReply::Integer(number)),
        None => None,
    }
}

// The text that the one word of a line is.
fn text_reply(alloc: Global, line: &[u8]) -> Result<Option<ToldReply>, AllocError>
    ensures { IfOk result (Reads text_in told_view line.now) }
{
    match next_word(line) {
        Next::Found(word, rest) => last_text(alloc, &word, rest),
        Next::Nothing => Ok(None),
        Next::Bad => Ok(None),
    }
}

// The text that a word is, where no word stands behind it.
fn last_text(alloc: Global, word: &Word, line: &[u8]) -> Result<Option<ToldReply>, AllocError>
    ensures { IfOk result (Reads (λ words. text_in (word_of word.now ∷ words)) told_view line.now) }
{
    if !is_blank(line) {
        return Ok(None);
    }
    match word {
        Word::Quoted(text) => kept_apart(alloc, Some(Reply::Done(Some(Datum::Text(*text))))),
        Word::Bare(_) => Ok(None),
    }
}

// The reply of a call that was refused, with what stands behind `refused`.
fn refused_reply(alloc: Global, line: &[u8]) -> Result<Option<ToldReply>, AllocError>
    ensures { IfOk result (Reads (reply_behind (codes "refused")) told_view line.now) }
{
    match only_bare(line) {
        Some(word) => kept_apart(alloc, refused_by(word)),
        None => Ok(None),
    }
}

// The reply of a call that failed, with what stands behind `failed`.
fn failed_reply(alloc: Global, line: &[u8]) -> Result<Option<ToldReply>, AllocError>
    ensures { IfOk result (Reads (reply_behind (codes "failed")) told_view line.now) }
{
    match only_bare(line) {
        Some(word) => kept_apart(alloc, failed_by(word)),
        None => Ok(None),
    }
}

fn refused_by(word: &[u8]) -> Option<Reply>
    ensures { result ≡ refused_in word.now }
{
    if !is_refusal_text(word) {
        return None;
    }
    let text = Text::from_bytes(word)?;
    Some(Reply::Refused(text))
}

// Whether these bytes are 1 to 16 lower-case letters.
fn is_refusal_text(word: &[u8]) -> bool
    ensures { result ≡ is_refusal_word word.now }
{
    !word.is_empty() && has_few_lower(word)
}

// Whether these bytes are at most 16 lower-case letters.
fn has_few_lower(word: &[u8]) -> bool
    ensures { result ≡ (nat_le (length word.now) 16 && list_all is_lower_letter word.now) }
{
    word.len() <= 16 && are_lower(word)
}

fn are_lower(word: &[u8]) -> bool
    ensures { result ≡ list_all is_lower_letter word.now }
{
    word.iter().all(|b| is_lower(*b))
}

fn is_lower(byte: u8) -> bool
    ensures { result ≡ is_lower_letter byte }
{
    byte >= b'a' && byte <= b'z'
}

fn failed_by(word: &[u8]) -> Option<Reply>
    ensures { result ≡ failed_in word.now }
{
    if is_same_word(word, b"device") {
        return Some(Reply::Failed(Failure::Device));
    }
    if is_same_word(word, b"memory") {
        return Some(Reply::Failed(Failure::Memory));
    }
    if is_same_word(word, b"damaged") {
        return Some(Reply::Failed(Failure::Damaged));
    }
    None
}
