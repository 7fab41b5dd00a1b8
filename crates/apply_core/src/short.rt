//! Replies in memory of their own length.

ghost use Rattle.std.specs.Prelude.{◌≡◌, ◌≤◌, ◌↔◌, IsTrue, Some, None, vec_capacity};
ghost use Rattle.value_core.specs.declared.datum.Datum.TheVariants as datum;
ghost use Rattle.apply_core.specs.declared.reply.Reply.TheVariants.{Done, Refused, Failed};
ghost use Rattle.value_core.specs.Limits.{most_text_bytes};
ghost use Rattle.apply_core.specs.Short.{reply_of, IsDone};

use crate::reply::{Failure, Reply};
use std::alloc::Global;
use std::marker::Model;
use std::mem;
use value_core::datum::Datum;
use value_core::row::Row;
use value_core::text::Text;

/// A reply of which a text has memory of its own. A contract sees it as the reply.
#[derive(Drop)]
pub struct Short {
    form: Form,
}

// How a reply is kept.
#[derive(Drop)]
enum Form {
    // `done`.
    Nothing,
    // `done N`.
    Integer(u32),
    // `done 'TEXT'`.
    Text(Row),
    // `refused WORD`.
    Refused(Row),
    // `failed` with its cause.
    Failed(Failure),
}

impl Model for Short {
    ghost use Rattle.apply_core.specs.declared.reply.Reply.{Reply};
    ghost use Rattle.apply_core.specs.contracts.reply.Reply as r;
    ghost use Rattle.std.specs.Coded.{codes};

    ghost Value = { Reply };

    ghost coded = { Prim.hlevel (codes, r.the_row.coded) };

    ghost use Rattle.apply_core.specs.Short.{reply_of};

    ghost view = { λ s. reply_of s.form };
}

// A text, in memory that was taken for one.
fn row_in(alloc: Global, room: &mut Vec<u8>, text: &Text) -> Row
    requires { most_text_bytes ≤ vec_capacity room.old }
    ensures { result ≡ text.now }
{
    Row::within(mem::replace(room, Vec::new(alloc)), text)
}

// How a reply is kept, in memory that was taken for a text.
fn form_of(alloc: Global, room: &mut Vec<u8>, reply: &Reply) -> Form
    requires { most_text_bytes ≤ vec_capacity room.old }
    ensures { reply_of result ≡ reply.now }
{
    match reply {
        Reply::Done(None) => Form::Nothing,
        Reply::Done(Some(Datum::Integer(number))) => Form::Integer(*number),
        Reply::Done(Some(Datum::Text(text))) => Form::Text(row_in(alloc, room, text)),
        Reply::Refused(word) => Form::Refused(row_in(alloc, room, word)),
        Reply::Failed(failure) => Form::Failed(*failure),
    }
}

// Whether a reply is that of a procedure that was done.
fn is_nothing(reply: &Reply) -> bool
    ensures { IsTrue result ↔ (Done None ≡ reply.now) }
{
    match reply {
        Reply::Done(None) => true,
        _ => false,
    }
}

fn is_integer(number: u32, reply: &Reply) -> bool
    ensures { IsTrue result ↔ (Done (Some (datum.Integer number)) ≡ reply.now) }
{
    match reply {
        Reply::Done(Some(Datum::Integer(other))) => number == *other,
        _ => false,
    }
}

fn is_text(row: &Row, reply: &Reply) -> bool
    ensures { IsTrue result ↔ (Done (Some (datum.Text row.now)) ≡ reply.now) }
{
    match reply {
        Reply::Done(Some(Datum::Text(text))) => row.is(text),
        _ => false,
    }
}

fn is_refused(row: &Row, reply: &Reply) -> bool
    ensures { IsTrue result ↔ (Refused row.now ≡ reply.now) }
{
    match reply {
        Reply::Refused(word) => row.is(word),
        _ => false,
    }
}

fn is_failed(failure: Failure, reply: &Reply) -> bool
    ensures { IsTrue result ↔ (Failed failure ≡ reply.now) }
{
    match reply {
        Reply::Failed(other) => failure == *other,
        _ => false,
    }
}

// Whether a reply is kept so. No reply is made for it.
fn is_kept(form: &Form, reply: &Reply) -> bool
    ensures { IsTrue result ↔ (reply_of form.now ≡ reply.now) }
{
    match form {
        Form::Nothing => is_nothing(reply),
        Form::Integer(number) => is_integer(*number, reply),
        Form::Text(row) => is_text(row, reply),
        Form::Refused(row) => is_refused(row, reply),
        Form::Failed(failure) => is_failed(*failure, reply),
    }
}

// Whether both keep the same reply.
fn same_kept(a: &Form, b: &Form) -> bool
    ensures { IsTrue result ↔ (reply_of a.now ≡ reply_of b.now) }
{
    match (a, b) {
        (Form::Nothing, Form::Nothing) => true,
        (Form::Integer(first), Form::Integer(second)) => *first == *second,
        (Form::Text(first), Form::Text(second)) => first.is_same(second),
        (Form::Refused(first), Form::Refused(second)) => first.is_same(second),
        (Form::Failed(first), Form::Failed(second)) => *first == *second,
        _ => false,
    }
}

impl Short {
    /// A reply. Where it has a text, it takes the memory that was taken ahead for the longest one, and gives back what
    /// it does not need; else that stays. It takes no other memory.
    pub fn within(alloc: Global, room: &mut Vec<u8>, reply: &Reply) -> Short
        requires { most_text_bytes ≤ vec_capacity room.old }
        ensures { result ≡ reply.now }
    {
        Short {
            form: form_of(alloc, room, reply),
        }
    }

    /// Whether it is this reply.
    pub fn is(&self, reply: &Reply) -> bool
        ensures { IsTrue result ↔ (self.now ≡ reply.now) }
    {
        is_kept(&self.form, reply)
    }

    /// Whether both are the same reply.
    pub fn is_same(&self, other: &Short) -> bool
        ensures { IsTrue result ↔ (self.now ≡ other.now) }
    {
        same_kept(&self.form, &other.form)
    }

    /// Whether the call was done.
    pub fn is_done(&self) -> bool
        ensures { IsTrue result ↔ IsDone self.now }
    {
        match &self.form {
            Form::Nothing => true,
            Form::Integer(_) => true,
            Form::Text(_) => true,
            Form::Refused(_) => false,
            Form::Failed(_) => false,
        }
    }

    /// The reply.
    pub fn reply(&self) -> Reply
        ensures { result ≡ self.now }
    {
        match &self.form {
            Form::Nothing => Reply::Done(None),
            Form::Integer(number) => Reply::Done(Some(Datum::Integer(*number))),
            Form::Text(row) => Reply::Done(Some(Datum::Text(row.text()))),
            Form::Refused(row) => Reply::Refused(row.text()),
            Form::Failed(failure) => Reply::Failed(*failure),
        }
    }
}
