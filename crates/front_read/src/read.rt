//! A front, from its text.

ghost use Rattle.std.specs.Prelude.{◌≡◌, ◌++◌, ◌≤◌, ℕ, suc, List, [], IfOk, IfErr, MatchResult, codes, length, take, true, false};
ghost use Rattle.decl_core.specs.ObjectMap.{object_of, parts_of};
ghost use Rattle.word_core.specs.TraceLaws.{HasNames};
ghost use Rattle.live_core.specs.Front.{IsRun, IsCarried, IsClient, IsKept, HasRows, Opening, opening_of};
ghost use Rattle.live_core.specs.Text.{run_words, carried_words, client_words, kept_words, front_text};
ghost use Rattle.front_read.specs.Text.{goes_on as goes_on_in, feeds_in as feeds};
ghost use Rattle.front_read.specs.Rows.{TakesAll};
ghost use Rattle.front_read.specs.Fault.{IsFirstFault, TakesParts};
ghost use Rattle.front_read.specs.Read.{TakesClients, TakesCalls, TakesBase, TakesPast, FrontWith, FrontOf, FrontIn, FrontAt};

use crate::carried::take_carried;
use crate::client::take_client;
use crate::head::{take_base, take_object, take_part, take_source};
use crate::kept::take_kept;
use crate::run::take_run;
use crate::text::{begins_with, feeds_in, goes_on};
use decl_core::object::{Object, Part};
use live_core::front::{CarriedCall, Front, KeptCall, NamedClient};
use live_core::past::PastRun;
use std::alloc::{AllocError, Global};
use value_core::value::Value;
use word_core::names::object_has_names;

// Takes the rows of all parts, and gives what stands behind them; or what stands from the first on that is no row of
// the part that is due.
fn take_parts<'a>(
    alloc: Global,
    parts: &[Part],
    out: &mut Vec<Value>,
    text: &'a [u8],
) -> Result<Result<&'a [u8], &'a [u8]>, AllocError>
    ensures { IfOk result (λ found. TakesParts (parts_of parts.now) text.now out.old.items found out.new.items) }
{
    match parts.split_first() {
        None => Ok(Ok(text)),
        Some((part, parts)) => {
            part.name.as_bytes();
            match take_part(alloc, part, out, text)? {
                Some(rest) => {
                    let found = take_parts(alloc, parts, out, rest)?;
                    Ok(found)
                }
                None => Ok(Err(text)),
            }
        }
    }
}

// Takes the rows of a past, and gives what stands behind them; or what stands from the first on that is no such row.
fn take_past<'a>(
    alloc: Global,
    object: &Object,
    out: &mut Vec<PastRun>,
    text: &'a [u8],
) -> Result<Result<&'a [u8], &'a [u8]>, AllocError>
    requires { out.old.items ≡ [] }
    ensures { IfOk result (λ found. TakesAll (IsRun (object_of object.now)) (codes "past") (run_words (object_of object.now)) text.now found out.new.items) }
{
    let mut rest = text;
    'rows: while begins_with(rest, b"past ") {
        match take_run(alloc, object, out, rest)? {
            Some(behind) => {
                rest = behind;
            }
            None => return Ok(Err(rest)),
        }
    }
    Ok(Ok(rest))
}

// Takes the rows of waiting calls likewise.
fn take_all_carried<'a>(
    alloc: Global,
    object: &Object,
    out: &mut Vec<CarriedCall>,
    text: &'a [u8],
) -> Result<Result<&'a [u8], &'a [u8]>, AllocError>
    requires { out.old.items ≡ [] }
    ensures { IfOk result (λ found. TakesAll (IsCarried (object_of object.now)) (codes "carried") (carried_words (object_of object.now)) text.now found out.new.items) }
{
    let mut rest = text;
    'rows: while begins_with(rest, b"carried ") {
        match take_carried(alloc, object, out, rest)? {
            Some(behind) => {
                rest = behind;
            }
            None => return Ok(Err(rest)),
        }
    }
    Ok(Ok(rest))
}

// Takes the rows of clients likewise.
fn take_all_clients<'a>(
    alloc: Global,
    out: &mut Vec<NamedClient>,
    text: &'a [u8],
) -> Result<Result<&'a [u8], &'a [u8]>, AllocError>
    requires { out.old.items ≡ [] }
    ensures { IfOk result (λ found. TakesAll IsClient (codes "client") client_words text.now found out.new.items) }
{
    let mut rest = text;
    'rows: while begins_with(rest, b"client ") {
        match take_client(alloc, out, rest)? {
            Some(behind) => {
                rest = behind;
            }
            None => return Ok(Err(rest)),
        }
    }
    Ok(Ok(rest))
}

// Takes the rows of remembered calls likewise.
fn take_all_kept<'a>(
    alloc: Global,
    object: &Object,
    out: &mut Vec<KeptCall>,
    text: &'a [u8],
) -> Result<Result<&'a [u8], &'a [u8]>, AllocError>
    requires { out.old.items ≡ [] }
    ensures { IfOk result (λ found. TakesAll (IsKept (object_of object.now)) (codes "kept") (kept_words (object_of object.now)) text.now found out.new.items) }
{
    let mut rest = text;
    'rows: while begins_with(rest, b"kept ") {
        match take_kept(alloc, object, out, rest)? {
            Some(behind) => {
                rest = behind;
            }
            None => return Ok(Err(rest)),
        }
    }
    Ok(Ok(rest))
}

// What stands behind a front, where that is no row of a front.
fn end_at(text: &[u8]) -> Result<&[u8], &[u8]>
    ensures { MatchResult result (λ rest. (rest.now ≡ text.now) × (goes_on_in text.now ≡ false))
        (λ rest. (rest.now ≡ text.now) × (goes_on_in text.now ≡ true)) }
{
    if goes_on(text) {
        return Err(text);
    }
    Ok(text)
}

// Takes the rows from those of the clients on; behind them no row of a front stands.
fn take_clients<'a>(
    alloc: Global,
    object: &Object,
    clients: &mut Vec<NamedClient>,
    kept: &mut Vec<KeptCall>,
    text: &'a [u8],
) -> Result<Result<&'a [u8], &'a [u8]>, AllocError>
    requires named { HasNames (object_of object.now) }
    requires clients { clients.old.items ≡ [] }
    requires kept { kept.old.items ≡ [] }
    ensures { IfOk result (λ found. TakesClients (object_of object.now) text.now found clients.new.items
        kept.new.items) }
{
    match take_all_clients(alloc, clients, text)? {
        Ok(rest) => match take_all_kept(alloc, object, kept, rest)? {
            Ok(rest) => Ok(end_at(rest)),
            Err(rest) => Ok(Err(rest)),
        },
        Err(rest) => Ok(Err(rest)),
    }
}

// Takes the rows from those of the waiting calls on.
fn take_calls<'a>(
    alloc: Global,
    object: &Object,
    carried: &mut Vec<CarriedCall>,
    clients: &mut Vec<NamedClient>,
    kept: &mut Vec<KeptCall>,
    text: &'a [u8],
) -> Result<Result<&'a [u8], &'a [u8]>, AllocError>
    requires named { HasNames (object_of object.now) }
    requires carried { carried.old.items ≡ [] }
    requires clients { clients.old.items ≡ [] }
    requires kept { kept.old.items ≡ [] }
    ensures { IfOk result (λ found. TakesCalls (object_of object.now) text.now found carried.new.items
        clients.new.items kept.new.items) }
{
    match take_all_carried(alloc, object, carried, text)? {
        Ok(rest) => {
            let found = take_clients(alloc, object, clients, kept, rest)?;
            Ok(found)
        }
        Err(rest) => Ok(Err(rest)),
    }
}

// Takes the rows from that of the base on.
fn take_from_base<'a>(
    alloc: Global,
    object: &Object,
    carried: &mut Vec<CarriedCall>,
    clients: &mut Vec<NamedClient>,
    kept: &mut Vec<KeptCall>,
    text: &'a [u8],
) -> Result<Result<(u64, &'a [u8]), &'a [u8]>, AllocError>
    requires named { HasNames (object_of object.now) }
    requires carried { carried.old.items ≡ [] }
    requires clients { clients.old.items ≡ [] }
    requires kept { kept.old.items ≡ [] }
    ensures { IfOk result (λ found. TakesBase (object_of object.now) text.now found carried.new.items
        clients.new.items kept.new.items) }
{
    match take_base(alloc, text)? {
        Some((base, rest)) => match take_calls(alloc, object, carried, clients, kept, rest)? {
            Ok(rest) => Ok(Ok((base, rest))),
            Err(rest) => Ok(Err(rest)),
        },
        None => Ok(Err(text)),
    }
}

// Takes the rows from those of the past on.
fn take_from_past<'a>(
    alloc: Global,
    object: &Object,
    past: &mut Vec<PastRun>,
    carried: &mut Vec<CarriedCall>,
    clients: &mut Vec<NamedClient>,
    kept: &mut Vec<KeptCall>,
    text: &'a [u8],
) -> Result<Result<(u64, &'a [u8]), &'a [u8]>, AllocError>
    requires named { HasNames (object_of object.now) }
    requires past { past.old.items ≡ [] }
    requires carried { carried.old.items ≡ [] }
    requires clients { clients.old.items ≡ [] }
    requires kept { kept.old.items ≡ [] }
    ensures { IfOk result (λ found. TakesPast (object_of object.now) text.now found past.new.items carried.new.items
        clients.new.items kept.new.items) }
{
    match take_past(alloc, object, past, text)? {
        Ok(rest) => {
            let found = take_from_base(alloc, object, carried, clients, kept, rest)?;
            Ok(found)
        }
        Err(rest) => Ok(Err(rest)),
    }
}

// Makes the front of these numbers and parts, with what the rows from those of the past on tell.
fn front_with<'a>(
    alloc: Global,
    object: &Object,
    epoch: u64,
    source: u64,
    parts: Vec<Value>,
    text: &'a [u8],
) -> Result<Result<(Front, &'a [u8]), &'a [u8]>, AllocError>
    requires { HasNames (object_of object.now) }
    ensures { IfOk result (λ found. FrontWith (object_of object.now) epoch source parts.items text.now found) }
{
    let mut past = Vec::new(alloc);
    let mut carried = Vec::new(alloc);
    let mut clients = Vec::new(alloc);
    let mut kept = Vec::new(alloc);
    match take_from_past(
        alloc,
        object,
        &mut past,
        &mut carried,
        &mut clients,
        &mut kept,
        text,
    )? {
        Ok((base, rest)) => {
            let front = Front {
                epoch,
                source,
                parts,
                past,
                base,
                carried,
                clients,
                kept,
            };
            Ok(Ok((front, rest)))
        }
        Err(rest) => Ok(Err(rest)),
    }
}

// Makes the front of these numbers, with what the rows from those of the parts on tell.
fn front_of<'a>(
    alloc: Global,
    object: &Object,
    epoch: u64,
    source: u64,
    text: &'a [u8],
) -> Result<Result<(Front, &'a [u8]), &'a [u8]>, AllocError>
    requires { HasNames (object_of object.now) }
    ensures { IfOk result (λ found. FrontOf (object_of object.now) epoch source text.now found) }
{
    let mut parts = Vec::new(alloc);
    match take_parts(alloc, &object.parts, &mut parts, text)? {
        Ok(rest) => front_with(alloc, object, epoch, source, parts, rest),
        Err(rest) => Ok(Err(rest)),
    }
}

// Makes the front of this epoch, with what the rows from that of the source on tell.
fn front_in<'a>(
    alloc: Global,
    object: &Object,
    epoch: u64,
    text: &'a [u8],
) -> Result<Result<(Front, &'a [u8]), &'a [u8]>, AllocError>
    requires { HasNames (object_of object.now) }
    ensures { IfOk result (λ found. FrontIn (object_of object.now) epoch text.now found) }
{
    match take_source(alloc, text)? {
        Some((source, rest)) => front_of(alloc, object, epoch, source, rest),
        None => Ok(Err(text)),
    }
}

// The front whose rows stand here, and what stands behind them; or what stands from the row on at which no front goes
// on.
fn front_at<'a>(
    alloc: Global,
    object: &Object,
    text: &'a [u8],
) -> Result<Result<(Front, &'a [u8]), &'a [u8]>, AllocError>
    requires { HasNames (object_of object.now) }
    ensures { IfOk result (λ found. FrontAt (object_of object.now) text.now found) }
{
    match take_object(alloc, object, text)? {
        Some((epoch, rest)) => front_in(alloc, object, epoch, rest),
        None => Ok(Err(text)),
    }
}

/// The front of an epoch of this object at the beginning of a text, and how many bytes it has; or the number of the
/// first line, from 1, at which no front goes on.
///
/// Each line is spelled as `live_core::write` spells it, and no other spelling is read. The front ends before the first
/// line that does not begin with `object`, `source`, `part`, `past`, `base`, `carried`, `client` or `kept` and a space:
/// what stands from there on is not looked at. Whether sessions, names or keys stand twice, whether a past can have
/// happened, and whether the source is that of the object is not looked at either.
///
/// The error is that memory was refused.
pub fn read_front(
    alloc: Global,
    object: &Object,
    text: &[u8],
) -> Result<Result<(Front, usize), u64>, AllocError>
    // What is told stands there.
    ensures told { IfOk result (λ found. IfOk found (λ r. (r.1 ≤ length text.now)
        × (take r.1 text.now ≡ front_text (object_of object.now) (opening_of r.0))
        × HasRows (object_of object.now) (opening_of r.0))) }
    // What stands there is told.
    ensures found { (f : Opening) (rest : List ℕ) → HasRows (object_of object.now) f → goes_on_in rest ≡ false →
        text.now ≡ front_text (object_of object.now) f ++ rest →
        IfOk result (λ found. MatchResult found
        (λ r. (opening_of r.0 ≡ f) × (r.1 ≡ length (front_text (object_of object.now) f))) (λ _. ⊥)) }
    // A fault is told of the first line at which no front goes on.
    ensures fault { IfOk result (λ found. IfErr found (λ line. IsFirstFault (object_of object.now) text.now line)) }
{
    object_has_names(object);
    match front_at(alloc, object, text)? {
        Ok((front, rest)) => {
            let length = text.len() - rest.len();
            Ok(Ok((front, length)))
        }
        Err(rest) => Ok(Err(line_before(text, rest))),
    }
}

// The number of the line, from 1, with which a rest of a text begins.
fn line_before(text: &[u8], rest: &[u8]) -> u64
    requires { length rest.now ≤ length text.now }
    ensures { (before : List ℕ) → text.now ≡ before ++ rest.now → result ≡ suc (feeds before) }
{
    let (before, _) = text.split_at(text.len() - rest.len());
    feeds_in(before) + 1
}
