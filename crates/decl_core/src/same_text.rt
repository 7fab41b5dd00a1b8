//! Whether two expressions are of one form.
//!
//! A sum that stands first in a sum has the form of one longer sum, so sums are compared from their last terms.

ghost use Rattle.std.specs.Prelude.{◌≡◌, ◌↔◌, IsTrue};
ghost use Rattle.decl_core.specs.View.{from_of, integers_of, texts_of};
ghost use Rattle.decl_core.specs.SumRows.{single_form};

use crate::expr::{IntegerExpr, Source, TextExpr};
use crate::sum_rows::{Outer, Single, seen_from_end};

/// Whether two places are the same to take from.
#[cycle(comparing)]
fn same_source(a: &Source, b: &Source) -> bool
    ensures { IsTrue result ↔ (from_of a.now ≡ from_of b.now) }
{
    match a {
        Source::Parameter(m) => match b {
            Source::Parameter(n) => m == n,
            _ => false,
        },
        Source::Element(p, i) => match b {
            Source::Element(q, j) => p.place() == q.place() && same_integer(i, j),
            _ => false,
        },
        Source::First(p) => match b {
            Source::First(q) => p.place() == q.place(),
            _ => false,
        },
        Source::Lookup(p, k) => match b {
            Source::Lookup(q, l) => p.place() == q.place() && same_text(k, l),
            _ => false,
        },
    }
}

/// Whether two integers that are no sums are of one form.
#[cycle(comparing)]
fn same_single(a: Single, b: Single) -> bool
    ensures { IsTrue result ↔ (single_form a.entry ≡ single_form b.entry) }
{
    match a {
        Single::Number(m) => match b {
            Single::Number(n) => m == n,
            _ => false,
        },
        Single::From(s) => match b {
            Single::From(t) => same_source(s, t),
            _ => false,
        },
        Single::Count(p) => match b {
            Single::Count(q) => p.place() == q.place(),
            _ => false,
        },
    }
}

/// Whether two integers are of one form.
#[cycle(comparing)]
pub(crate) fn same_integer(a: &IntegerExpr, b: &IntegerExpr) -> bool
    ensures { IsTrue result ↔ (integers_of a.now ≡ integers_of b.now) }
{
    let mut x = seen_from_end(a, &[]);
    let mut y = seen_from_end(b, &[]);
    'terms: while let Outer::Sum(before_x, is_added, term) = x {
        match y {
            Outer::Single(_) => return false,
            Outer::Sum(before_y, is_other_added, other) => {
                if is_added != is_other_added || !same_integer(term, other) {
                    return false;
                }
                x = seen_from_end(before_x.first, before_x.terms);
                y = seen_from_end(before_y.first, before_y.terms);
            }
        }
    }
    match x {
        Outer::Sum(_, _, _) => false,
        Outer::Single(s) => match y {
            Outer::Sum(_, _, _) => false,
            Outer::Single(t) => same_single(s, t),
        },
    }
}

/// Whether two texts are of one form.
#[cycle(comparing)]
pub(crate) fn same_text(a: &TextExpr, b: &TextExpr) -> bool
    ensures { IsTrue result ↔ (texts_of a.now ≡ texts_of b.now) }
{
    match a {
        TextExpr::Literal(s) => match b {
            TextExpr::Literal(t) => s.bytes() == t.bytes(),
            TextExpr::From(_) => false,
        },
        TextExpr::From(s) => match b {
            TextExpr::From(t) => same_source(s, t),
            TextExpr::Literal(_) => false,
        },
    }
}
