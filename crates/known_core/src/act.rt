//! Statements, done on the values of parts.

ghost use Rattle.std.specs.Prelude.{◌≡◌, ◌<◌, length, map, Option, Err};
ghost use Rattle.std.specs.Result.{IsErrOf};
ghost use Rattle.value_core.specs.declared.datum.Datum.{Datum};
ghost use Rattle.value_core.specs.Contents.{kind_of};
ghost use Rattle.value_core.specs.Datum.{elem_of};
ghost use Rattle.value_core.specs.Kinds.{IsArray, IsQueue, IsTable};
ghost use Rattle.value_core.specs.Meaning.{with_element, without_oldest, with_newest, with_row, without_key};
ghost use Rattle.value_core.specs.Words.{word_of};
ghost use Rattle.decl_core.specs.Form.{set_element as set_element_form, set_result as set_result_form};
ghost use Rattle.decl_core.specs.Form.{append as append_form, store as store_form, erase as erase_form};
ghost use Rattle.decl_core.specs.Form.{an_integer, a_text};
ghost use Rattle.decl_core.specs.View.{integers_of, texts_of, form_of, statement_of, all_of};
ghost use Rattle.decl_core.specs.Meaning.{part_at};
ghost use Rattle.known_core.specs.Partly.{◌>>>◌, if_known, with_contents, after_known, all_known};
ghost use Rattle.known_core.specs.Masks.{known_by};
ghost use Rattle.apply_core.specs.Fitting.{IsAt, IsAtOf, StatementFits, StatementsFit};
ghost use Rattle.known_core.specs.Breaks.{stop_of, stop_for, changing, Leaves};
ghost use Rattle.known_core.specs.declared.act.Stop.TheVariants.{Refused, Memory};

use crate::eval::{Break, holds, integer, text};
use crate::pages::Pages;
use crate::parts::PartValues;
use crate::stop_word::StopWord;
use decl_core::expr::{Expr, IntegerExpr, TextExpr};
use decl_core::id::PartId;
use decl_core::stmt::Stmt;
use decl_core::word::RefusalWord;
use std::alloc::AllocError;
use value_core::datum::Datum;
use value_core::refusal::{GrowFault, Refusal};

/// Why a body stopped.
#[derive(Clone, Copy)]
pub enum Stop {
    /// It was refused by this word.
    Refused(StopWord),
    /// It comes to this element of this part, which is not known. Elements count from 0.
    Needs(PartId, u32),
    /// Memory was refused.
    Memory,
}

impl From<Break> for Stop {
    ghost from_gives = { λ b stop. stop ≡ stop_for b };

    fn from(b: Break) -> Stop {
        match b {
            Break::Refused(refusal) => Stop::from(refusal),
            Break::Needs(part, index) => Stop::Needs(part, index),
        }
    }
}

impl From<Refusal> for Stop {
    ghost from_gives = { λ refusal stop. stop ≡ Refused (word_of refusal) };

    fn from(refusal: Refusal) -> Stop {
        Stop::Refused(StopWord::new(refusal.word().as_bytes()))
    }
}

impl From<AllocError> for Stop {
    ghost from_gives = { λ _ stop. stop ≡ Memory };

    fn from(_: AllocError) -> Stop {
        Stop::Memory
    }
}

impl From<GrowFault> for Stop {
    ghost from_gives = { λ fault stop. stop ≡ stop_of fault };

    fn from(fault: GrowFault) -> Stop {
        match fault {
            GrowFault::Refused(refusal) => Stop::from(refusal),
            GrowFault::Memory => Stop::Memory,
        }
    }
}

// Puts an element into an array, where it is known.
fn set<P: PartValues>(
    parts: &mut P,
    part: PartId,
    index: u32,
    datum: Datum,
    known: &Pages,
) -> Result<(), Stop>
    requires at { IsAtOf (map kind_of (P.values parts.old)) IsArray part (elem_of datum) }
    ensures left { (reply : Option Datum) →
        Leaves result (with_contents (changing (P.values parts.old) reply) part
        (with_element (part_at (P.values parts.old) part) index datum) >>> λ x. if_known (known_by known.now) part index x)
        (changing (P.values parts.new) reply) }
    ensures kinds { map kind_of (P.values parts.new) ≡ map kind_of (P.values parts.old) }
    ensures origin { P.origin parts.new ≡ P.origin parts.old }
{
    parts.set(part, index, datum)?;
    if known.has(part, index) {
        Ok(())
    } else {
        Err(Stop::Needs(part, index))
    }
}

// `v[i] := e`, where e is an integer.
fn set_integer<P: PartValues>(
    part: PartId,
    index: &IntegerExpr,
    e: &IntegerExpr,
    args: &[Datum],
    parts: &mut P,
    known: &Pages,
) -> Result<(), Stop>
    requires fits { StatementFits (map kind_of (P.values parts.old)) (set_element_form part (integers_of index.now)
        (an_integer (integers_of e.now))) }
    ensures left { (reply : Option Datum) →
        Leaves result (after_known (known_by known.now) args.now (set_element_form part (integers_of index.now)
        (an_integer (integers_of e.now))) (changing (P.values parts.old) reply)) (changing (P.values parts.new) reply) }
    ensures kinds { map kind_of (P.values parts.new) ≡ map kind_of (P.values parts.old) }
    ensures origin { P.origin parts.new ≡ P.origin parts.old }
{
    let index = integer(index, args, parts, known)?;
    let n = integer(e, args, parts, known)?;
    set(parts, part, index, Datum::Integer(n), known)
}

// `v[i] := e`, where e is a text.
fn set_text<P: PartValues>(
    part: PartId,
    index: &IntegerExpr,
    e: &TextExpr,
    args: &[Datum],
    parts: &mut P,
    known: &Pages,
) -> Result<(), Stop>
    requires fits { StatementFits (map kind_of (P.values parts.old)) (set_element_form part (integers_of index.now)
        (a_text (texts_of e.now))) }
    ensures left { (reply : Option Datum) →
        Leaves result (after_known (known_by known.now) args.now (set_element_form part (integers_of index.now)
        (a_text (texts_of e.now))) (changing (P.values parts.old) reply)) (changing (P.values parts.new) reply) }
    ensures kinds { map kind_of (P.values parts.new) ≡ map kind_of (P.values parts.old) }
    ensures origin { P.origin parts.new ≡ P.origin parts.old }
{
    let place = integer(index, args, parts, known)?;
    let text = text(e, args, parts, known)?;
    set(parts, part, place, Datum::Text(text), known)
}

// `v[i] := e`. Each sort has a function of its own, since a function clears all its data before it begins.
fn do_set_element<P: PartValues>(
    part: PartId,
    index: &IntegerExpr,
    e: &Expr,
    args: &[Datum],
    parts: &mut P,
    known: &Pages,
) -> Result<(), Stop>
    requires fits { StatementFits (map kind_of (P.values parts.old)) (set_element_form part (integers_of index.now)
        (form_of e.now)) }
    ensures left { (reply : Option Datum) →
        Leaves result (after_known (known_by known.now) args.now (set_element_form part (integers_of index.now)
        (form_of e.now)) (changing (P.values parts.old) reply)) (changing (P.values parts.new) reply) }
    ensures kinds { map kind_of (P.values parts.new) ≡ map kind_of (P.values parts.old) }
    ensures origin { P.origin parts.new ≡ P.origin parts.old }
{
    match e {
        Expr::Integer(e) => set_integer(part, index, e, args, parts, known),
        Expr::Text(e) => set_text(part, index, e, args, parts, known),
    }
}

// `append(q, e)`, where e is an integer.
fn append_integer<P: PartValues>(
    part: PartId,
    e: &IntegerExpr,
    args: &[Datum],
    parts: &mut P,
    known: &Pages,
) -> Result<(), Stop>
    requires fits { StatementFits (map kind_of (P.values parts.old)) (append_form part (an_integer (integers_of e.now))) }
    ensures left { (reply : Option Datum) →
        Leaves result (after_known (known_by known.now) args.now (append_form part (an_integer (integers_of e.now)))
        (changing (P.values parts.old) reply)) (changing (P.values parts.new) reply) }
    ensures kinds { map kind_of (P.values parts.new) ≡ map kind_of (P.values parts.old) }
    ensures origin { P.origin parts.new ≡ P.origin parts.old }
{
    let n = integer(e, args, parts, known)?;
    parts.append(part, Datum::Integer(n))
}

// `append(q, e)`, where e is a text.
fn append_text<P: PartValues>(
    part: PartId,
    e: &TextExpr,
    args: &[Datum],
    parts: &mut P,
    known: &Pages,
) -> Result<(), Stop>
    requires fits { StatementFits (map kind_of (P.values parts.old)) (append_form part (a_text (texts_of e.now))) }
    ensures left { (reply : Option Datum) →
        Leaves result (after_known (known_by known.now) args.now (append_form part (a_text (texts_of e.now)))
        (changing (P.values parts.old) reply)) (changing (P.values parts.new) reply) }
    ensures kinds { map kind_of (P.values parts.new) ≡ map kind_of (P.values parts.old) }
    ensures origin { P.origin parts.new ≡ P.origin parts.old }
{
    let text = text(e, args, parts, known)?;
    parts.append(part, Datum::Text(text))
}

// `append(q, e)`
fn do_append<P: PartValues>(
    part: PartId,
    e: &Expr,
    args: &[Datum],
    parts: &mut P,
    known: &Pages,
) -> Result<(), Stop>
    requires fits { StatementFits (map kind_of (P.values parts.old)) (append_form part (form_of e.now)) }
    ensures left { (reply : Option Datum) →
        Leaves result (after_known (known_by known.now) args.now (append_form part (form_of e.now))
        (changing (P.values parts.old) reply)) (changing (P.values parts.new) reply) }
    ensures kinds { map kind_of (P.values parts.new) ≡ map kind_of (P.values parts.old) }
    ensures origin { P.origin parts.new ≡ P.origin parts.old }
{
    match e {
        Expr::Integer(e) => append_integer(part, e, args, parts, known),
        Expr::Text(e) => append_text(part, e, args, parts, known),
    }
}

// `store(t, k, e)`, where e is an integer.
fn store_integer<P: PartValues>(
    part: PartId,
    key: &TextExpr,
    e: &IntegerExpr,
    args: &[Datum],
    parts: &mut P,
    known: &Pages,
) -> Result<(), Stop>
    requires fits { StatementFits (map kind_of (P.values parts.old)) (store_form part (texts_of key.now)
        (an_integer (integers_of e.now))) }
    ensures left { (reply : Option Datum) →
        Leaves result (after_known (known_by known.now) args.now (store_form part (texts_of key.now)
        (an_integer (integers_of e.now))) (changing (P.values parts.old) reply)) (changing (P.values parts.new) reply) }
    ensures kinds { map kind_of (P.values parts.new) ≡ map kind_of (P.values parts.old) }
    ensures origin { P.origin parts.new ≡ P.origin parts.old }
{
    let key = text(key, args, parts, known)?;
    let n = integer(e, args, parts, known)?;
    parts.store(part, key, Datum::Integer(n))
}

// `store(t, k, e)`, where e is a text.
fn store_text<P: PartValues>(
    part: PartId,
    key: &TextExpr,
    e: &TextExpr,
    args: &[Datum],
    parts: &mut P,
    known: &Pages,
) -> Result<(), Stop>
    requires fits { StatementFits (map kind_of (P.values parts.old)) (store_form part (texts_of key.now)
        (a_text (texts_of e.now))) }
    ensures left { (reply : Option Datum) →
        Leaves result (after_known (known_by known.now) args.now (store_form part (texts_of key.now)
        (a_text (texts_of e.now))) (changing (P.values parts.old) reply)) (changing (P.values parts.new) reply) }
    ensures kinds { map kind_of (P.values parts.new) ≡ map kind_of (P.values parts.old) }
    ensures origin { P.origin parts.new ≡ P.origin parts.old }
{
    let key = text(key, args, parts, known)?;
    let text = text(e, args, parts, known)?;
    parts.store(part, key, Datum::Text(text))
}

// `store(t, k, e)`
fn do_store<P: PartValues>(
    part: PartId,
    key: &TextExpr,
    e: &Expr,
    args: &[Datum],
    parts: &mut P,
    known: &Pages,
) -> Result<(), Stop>
    requires fits { StatementFits (map kind_of (P.values parts.old)) (store_form part (texts_of key.now) (form_of e.now)) }
    ensures left { (reply : Option Datum) →
        Leaves result (after_known (known_by known.now) args.now (store_form part (texts_of key.now) (form_of e.now))
        (changing (P.values parts.old) reply)) (changing (P.values parts.new) reply) }
    ensures kinds { map kind_of (P.values parts.new) ≡ map kind_of (P.values parts.old) }
    ensures origin { P.origin parts.new ≡ P.origin parts.old }
{
    match e {
        Expr::Integer(e) => store_integer(part, key, e, args, parts, known),
        Expr::Text(e) => store_text(part, key, e, args, parts, known),
    }
}

// `erase(t, k)`
fn do_erase<P: PartValues>(
    part: PartId,
    key: &TextExpr,
    args: &[Datum],
    parts: &mut P,
    known: &Pages,
) -> Result<(), Stop>
    requires fits { StatementFits (map kind_of (P.values parts.old)) (erase_form part (texts_of key.now)) }
    ensures left { (reply : Option Datum) →
        Leaves result (after_known (known_by known.now) args.now (erase_form part (texts_of key.now))
        (changing (P.values parts.old) reply)) (changing (P.values parts.new) reply) }
    ensures kinds { map kind_of (P.values parts.new) ≡ map kind_of (P.values parts.old) }
    ensures origin { P.origin parts.new ≡ P.origin parts.old }
{
    let key = text(key, args, parts, known)?;
    parts.erase(part, key)
}

// `f := e`, where f is the function itself, and e is an integer.
fn reply_integer<P: PartValues>(
    e: &IntegerExpr,
    args: &[Datum],
    parts: &P,
    known: &Pages,
    reply: &mut Option<Datum>,
) -> Result<(), Stop>
    requires fits { StatementFits (map kind_of (P.values parts.now)) (set_result_form (an_integer (integers_of e.now))) }
    ensures left { Leaves result
        (after_known (known_by known.now) args.now (set_result_form (an_integer (integers_of e.now)))
        (changing (P.values parts.now) reply.old)) (changing (P.values parts.now) reply.new) }
    ensures memory { IsErrOf result Stop.Memory → ⊥ }
{
    let n = integer(e, args, parts, known)?;
    *reply = Some(Datum::Integer(n));
    Ok(())
}

// `f := e`, where f is the function itself, and e is a text.
fn reply_text<P: PartValues>(
    e: &TextExpr,
    args: &[Datum],
    parts: &P,
    known: &Pages,
    reply: &mut Option<Datum>,
) -> Result<(), Stop>
    requires fits { StatementFits (map kind_of (P.values parts.now)) (set_result_form (a_text (texts_of e.now))) }
    ensures left { Leaves result
        (after_known (known_by known.now) args.now (set_result_form (a_text (texts_of e.now)))
        (changing (P.values parts.now) reply.old)) (changing (P.values parts.now) reply.new) }
    ensures memory { IsErrOf result Stop.Memory → ⊥ }
{
    let text = text(e, args, parts, known)?;
    *reply = Some(Datum::Text(text));
    Ok(())
}

// `f := e`, where f is the function itself
fn do_set_result<P: PartValues>(
    e: &Expr,
    args: &[Datum],
    parts: &P,
    known: &Pages,
    reply: &mut Option<Datum>,
) -> Result<(), Stop>
    requires fits { StatementFits (map kind_of (P.values parts.now)) (set_result_form (form_of e.now)) }
    ensures left { Leaves result
        (after_known (known_by known.now) args.now (set_result_form (form_of e.now)) (changing (P.values parts.now) reply.old))
        (changing (P.values parts.now) reply.new) }
    ensures memory { IsErrOf result Stop.Memory → ⊥ }
{
    match e {
        Expr::Integer(e) => reply_integer(e, args, parts, known, reply),
        Expr::Text(e) => reply_text(e, args, parts, known, reply),
    }
}

// `refuse('w')`
fn do_refuse(word: &RefusalWord) -> Result<(), Stop>
    ensures { result ≡ Err (Refused word.now) }
{
    Err(Stop::Refused(StopWord::new(word.letters())))
}

// Does a statement; `reply` is what the function is to reply. A statement that stops may leave
// parts changed.
#[cycle(acting)]
fn act<P: PartValues>(
    s: &Stmt,
    args: &[Datum],
    parts: &mut P,
    known: &Pages,
    reply: &mut Option<Datum>,
) -> Result<(), Stop>
    requires fits { StatementFits (map kind_of (P.values parts.old)) (statement_of s.now) }
    ensures left { Leaves result (after_known (known_by known.now) args.now (statement_of s.now)
        (changing (P.values parts.old) reply.old)) (changing (P.values parts.new) reply.new) }
    ensures kinds { map kind_of (P.values parts.new) ≡ map kind_of (P.values parts.old) }
    ensures origin { P.origin parts.new ≡ P.origin parts.old }
    ensures memory { IsErrOf result Stop.Memory → 0 < length (map kind_of (P.values parts.old)) }
{
    match s {
        Stmt::Block(all) => act_all(all, args, parts, known, reply),
        Stmt::SetElement(part, index, e) => do_set_element(*part, index, e, args, parts, known),
        Stmt::SetResult(e) => do_set_result(e, args, parts, known, reply),
        Stmt::Append(part, e) => do_append(*part, e, args, parts, known),
        Stmt::Take(part) => parts.take(*part),
        Stmt::Store(part, key, e) => do_store(*part, key, e, args, parts, known),
        Stmt::Erase(part, key) => do_erase(*part, key, args, parts, known),
        Stmt::If(c, s, t) => if holds(c, args, parts, known)? {
            act(s, args, parts, known, reply)
        } else {
            act(t, args, parts, known, reply)
        },
        Stmt::Refuse(word) => do_refuse(word),
    }
}

// Does statements in order, until one stops.
#[cycle(acting)]
pub(crate) fn act_all<P: PartValues>(
    all: &[Stmt],
    args: &[Datum],
    parts: &mut P,
    known: &Pages,
    reply: &mut Option<Datum>,
) -> Result<(), Stop>
    requires fits { StatementsFit (map kind_of (P.values parts.old)) (all_of all.now) }
    ensures left { Leaves result (all_known (known_by known.now) args.now (all_of all.now)
        (changing (P.values parts.old) reply.old)) (changing (P.values parts.new) reply.new) }
    ensures kinds { map kind_of (P.values parts.new) ≡ map kind_of (P.values parts.old) }
    ensures origin { P.origin parts.new ≡ P.origin parts.old }
    ensures memory { IsErrOf result Stop.Memory → 0 < length (map kind_of (P.values parts.old)) }
{
    for s in all {
        match act(s, args, parts, known, reply) {
            Ok(()) => {}
            Err(stop) => return Err(stop),
        }
    }
    Ok(())
}
