//! Whether two statements are of one form.

ghost use Rattle.std.specs.Prelude.{◌≡◌, ◌↔◌, IsTrue};
ghost use Rattle.decl_core.specs.View.{all_of, condition_of, form_of, statement_of};

use crate::expr::Expr;
use crate::same_text::{same_integer, same_text};
use crate::stmt::{Cond, Stmt};

/// Whether two expressions are of one form.
fn same_expr(a: &Expr, b: &Expr) -> bool
    ensures { IsTrue result ↔ (form_of a.now ≡ form_of b.now) }
{
    match a {
        Expr::Integer(e) => match b {
            Expr::Integer(f) => same_integer(e, f),
            Expr::Text(_) => false,
        },
        Expr::Text(e) => match b {
            Expr::Integer(_) => false,
            Expr::Text(f) => same_text(e, f),
        },
    }
}

/// Whether two conditions are of one form.
fn same_condition(a: &Cond, b: &Cond) -> bool
    ensures { IsTrue result ↔ (condition_of a.now ≡ condition_of b.now) }
{
    match a {
        Cond::Integers(r, x, y) => match b {
            Cond::Integers(s, z, w) => *r == *s && same_integer(x, z) && same_integer(y, w),
            _ => false,
        },
        Cond::SameTexts(x, y) => match b {
            Cond::SameTexts(z, w) => same_text(x, z) && same_text(y, w),
            _ => false,
        },
        Cond::OtherTexts(x, y) => match b {
            Cond::OtherTexts(z, w) => same_text(x, z) && same_text(y, w),
            _ => false,
        },
        Cond::Has(p, x) => match b {
            Cond::Has(q, y) => p.place() == q.place() && same_text(x, y),
            _ => false,
        },
        Cond::Not(c) => match b {
            Cond::Not(d) => same_condition(c, d),
            _ => false,
        },
    }
}

/// Whether two statements are of one form.
#[cycle(same)]
fn same_statement(a: &Stmt, b: &Stmt) -> bool
    ensures { IsTrue result ↔ (statement_of a.now ≡ statement_of b.now) }
{
    match a {
        Stmt::Block(all) => match b {
            Stmt::Block(others) => same_block(all, others),
            _ => false,
        },
        Stmt::SetElement(p, i, e) => match b {
            Stmt::SetElement(q, j, f) => p.place() == q.place()
                && same_integer(i, j)
                && same_expr(e, f),
            _ => false,
        },
        Stmt::SetResult(e) => match b {
            Stmt::SetResult(f) => same_expr(e, f),
            _ => false,
        },
        Stmt::Append(p, e) => match b {
            Stmt::Append(q, f) => p.place() == q.place() && same_expr(e, f),
            _ => false,
        },
        Stmt::Take(p) => match b {
            Stmt::Take(q) => p.place() == q.place(),
            _ => false,
        },
        Stmt::Store(p, k, e) => match b {
            Stmt::Store(q, l, f) => p.place() == q.place() && same_text(k, l) && same_expr(e, f),
            _ => false,
        },
        Stmt::Erase(p, k) => match b {
            Stmt::Erase(q, l) => p.place() == q.place() && same_text(k, l),
            _ => false,
        },
        Stmt::If(c, s, t) => match b {
            Stmt::If(d, u, v) => same_condition(c, d)
                && same_statement(s, u)
                && same_statement(t, v),
            _ => false,
        },
        Stmt::Refuse(w) => match b {
            Stmt::Refuse(v) => w.letters() == v.letters(),
            _ => false,
        },
    }
}

/// Whether two rows of statements are of one form.
#[cycle(same)]
pub(crate) fn same_block(a: &[Stmt], b: &[Stmt]) -> bool
    ensures { IsTrue result ↔ (all_of a.now ≡ all_of b.now) }
{
    let mut x = a;
    let mut y = b;
    'statements: while let [s, rest @ ..] = x {
        match y {
            [] => return false,
            [t, others @ ..] => {
                if !same_statement(s, t) {
                    return false;
                }
                x = rest;
                y = others;
            }
        }
    }
    y.is_empty()
}
