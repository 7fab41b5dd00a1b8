//! Which parts an operation names, and which it changes.
//!
//! Parts are bits: bit p stands for part p. Each private function takes the parts so far and gives them with
//! those that it finds.

ghost use Rattle.std.specs.Prelude.{◌≡◌, ◌↔◌, ◌<◌, ◌==◌, ℕ};
ghost use Rattle.std.specs.Int.{bit_at};
ghost use Rattle.decl_core.specs.View.{from_of, integers_of, texts_of, form_of, condition_of, statement_of, all_of};
ghost use Rattle.decl_core.specs.Bodies.{body_of};
ghost use Rattle.decl_core.specs.Footprint.{with_part, named_from, named_in_integers, named_in_texts, named_in};
ghost use Rattle.decl_core.specs.Footprint.{named_in_condition, named_in_statement, named_in_all};
ghost use Rattle.decl_core.specs.Footprint.{changed_by_statement as by_statement, changed_by_all, reads_of, writes_of};
ghost use Rattle.decl_core.specs.Terms.{named_in_signed, named_in_terms};
ghost use Rattle.decl_core.specs.Touched.{Reads, Writes};

use crate::expr::{Expr, IntegerExpr, Signed, Source, TextExpr};
use crate::id::PartId;
use crate::object::Operation;
use crate::stmt::{Cond, Stmt};

/// The parts that an operation reads: those that its text names, as bits.
pub fn reads(operation: &Operation) -> u16
    ensures fold { result ≡ reads_of (body_of operation.now) }
    ensures named { (p : ℕ) → (bit_at result p ≡ 1) ↔ Reads (body_of operation.now).statements p }
{
    named_by_block(&operation.body, 0)
}

/// The parts that an operation writes: those that a statement of it changes, as bits.
pub fn writes(operation: &Operation) -> u16
    ensures fold { result ≡ writes_of (body_of operation.now) }
    ensures changed { (p : ℕ) → (bit_at result p ≡ 1) ↔ Writes (body_of operation.now).statements p }
{
    changed_by_block(&operation.body, 0)
}

/// Whether a part is among these.
pub fn is_in(part: usize, parts: u16) -> bool
    requires { part < 16 }
    ensures { result ≡ (bit_at parts part == 1) }
{
    (parts >> part) & 1 == 1
}

// A part, besides those so far.
fn with(so_far: u16, part: PartId) -> u16
    ensures { result ≡ with_part part so_far }
{
    so_far | (1 << part.place())
}

#[cycle(naming)]
fn named_by_source(source: &Source, so_far: u16) -> u16
    ensures { result ≡ named_from (from_of source.now) so_far }
{
    match source {
        Source::Parameter(_) => so_far,
        Source::Element(part, index) => named_by_integer(index, with(so_far, *part)),
        Source::First(part) => with(so_far, *part),
        Source::Lookup(part, key) => named_by_text(key, with(so_far, *part)),
    }
}

#[cycle(naming)]
fn named_by_integer(e: &IntegerExpr, so_far: u16) -> u16
    ensures { result ≡ named_in_integers (integers_of e.now) so_far }
{
    match e {
        IntegerExpr::Number(_) => so_far,
        IntegerExpr::From(source) => named_by_source(source, so_far),
        IntegerExpr::Count(part) => with(so_far, *part),
        IntegerExpr::Sum(first, terms) => named_by_terms(terms, named_by_integer(first, so_far)),
    }
}

#[cycle(naming)]
fn named_by_terms(terms: &[Signed], so_far: u16) -> u16
    ensures { result ≡ named_in_terms terms.now so_far }
{
    let mut named = so_far;
    for term in terms {
        named = named_by_term(term, named);
    }
    named
}

#[cycle(naming)]
fn named_by_term(term: &Signed, so_far: u16) -> u16
    ensures { result ≡ named_in_signed term.now so_far }
{
    match term {
        Signed::Plus(e) => named_by_integer(e, so_far),
        Signed::Minus(e) => named_by_integer(e, so_far),
    }
}

#[cycle(naming)]
fn named_by_text(e: &TextExpr, so_far: u16) -> u16
    ensures { result ≡ named_in_texts (texts_of e.now) so_far }
{
    match e {
        TextExpr::Literal(_) => so_far,
        TextExpr::From(source) => named_by_source(source, so_far),
    }
}

fn named_by_expr(e: &Expr, so_far: u16) -> u16
    ensures { result ≡ named_in (form_of e.now) so_far }
{
    match e {
        Expr::Integer(e) => named_by_integer(e, so_far),
        Expr::Text(e) => named_by_text(e, so_far),
    }
}

fn named_by_condition(c: &Cond, so_far: u16) -> u16
    ensures { result ≡ named_in_condition (condition_of c.now) so_far }
{
    match c {
        Cond::Integers(_, a, b) => named_by_integer(b, named_by_integer(a, so_far)),
        Cond::SameTexts(a, b) => named_by_text(b, named_by_text(a, so_far)),
        Cond::OtherTexts(a, b) => named_by_text(b, named_by_text(a, so_far)),
        Cond::Has(part, key) => named_by_text(key, with(so_far, *part)),
        Cond::Not(c) => named_by_condition(c, so_far),
    }
}

#[cycle(reading)]
fn named_by_statement(s: &Stmt, so_far: u16) -> u16
    ensures { result ≡ named_in_statement (statement_of s.now) so_far }
{
    match s {
        Stmt::Block(all) => named_by_block(all, so_far),
        Stmt::SetElement(part, index, e) => {
            let named = named_by_integer(index, with(so_far, *part));
            named_by_expr(e, named)
        }
        Stmt::SetResult(e) => named_by_expr(e, so_far),
        Stmt::Append(part, e) => named_by_expr(e, with(so_far, *part)),
        Stmt::Take(part) => with(so_far, *part),
        Stmt::Store(part, key, e) => {
            let named = named_by_text(key, with(so_far, *part));
            named_by_expr(e, named)
        }
        Stmt::Erase(part, key) => named_by_text(key, with(so_far, *part)),
        Stmt::If(c, s, t) => {
            let named = named_by_statement(s, named_by_condition(c, so_far));
            named_by_statement(t, named)
        }
        Stmt::Refuse(_) => so_far,
    }
}

#[cycle(reading)]
pub(crate) fn named_by_block(all: &[Stmt], so_far: u16) -> u16
    ensures { result ≡ named_in_all (all_of all.now) so_far }
{
    let mut named = so_far;
    for s in all {
        named = named_by_statement(s, named);
    }
    named
}

#[cycle(writing)]
fn changed_by_statement(s: &Stmt, so_far: u16) -> u16
    ensures { result ≡ by_statement (statement_of s.now) so_far }
{
    match s {
        Stmt::Block(all) => changed_by_block(all, so_far),
        Stmt::If(_, s, t) => changed_by_statement(t, changed_by_statement(s, so_far)),
        Stmt::SetElement(part, _, _) => with(so_far, *part),
        Stmt::Append(part, _) => with(so_far, *part),
        Stmt::Take(part) => with(so_far, *part),
        Stmt::Store(part, _, _) => with(so_far, *part),
        Stmt::Erase(part, _) => with(so_far, *part),
        Stmt::SetResult(_) => so_far,
        Stmt::Refuse(_) => so_far,
    }
}

#[cycle(writing)]
fn changed_by_block(all: &[Stmt], so_far: u16) -> u16
    ensures { result ≡ changed_by_all (all_of all.now) so_far }
{
    let mut changed = so_far;
    for s in all {
        changed = changed_by_statement(s, changed);
    }
    changed
}
