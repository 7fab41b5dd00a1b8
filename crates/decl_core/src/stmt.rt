//! Statements and conditions.

use crate::expr::{Expr, IntegerExpr, TextExpr};
use crate::id::PartId;
use crate::word::RefusalWord;

/// How two integers compare.
#[derive(Clone, Copy, Debug, PartialEq, Eq)]
pub enum Relation {
    /// `=`
    Equal,
    /// `<>`
    Differ,
    /// `<`
    Less,
    /// `<=`
    LessEqual,
    /// `>`
    Greater,
    /// `>=`
    GreaterEqual,
}

/// A condition.
#[derive(Drop)]
pub enum Cond {
    /// `x = y`, `x < y` and so on, of integers.
    Integers(Relation, IntegerExpr, IntegerExpr),
    /// `x = y` of texts.
    SameTexts(TextExpr, TextExpr),
    /// `x <> y` of texts.
    OtherTexts(TextExpr, TextExpr),
    /// `has(t, k)`: whether a table has a key.
    Has(PartId, TextExpr),
    /// `not c`
    Not(Box<Cond>),
}

/// A statement.
#[derive(Drop)]
pub enum Stmt {
    /// `begin .. end`: statements in order; the empty statement is a block of none. They are a row, since
    /// a source has room for some 60,000 of them.
    Block(Vec<Stmt>),
    /// `v[i] := e`
    SetElement(PartId, IntegerExpr, Expr),
    /// `f := e`: what the function replies.
    SetResult(Expr),
    /// `append(q, e)`
    Append(PartId, Expr),
    /// `take(q)`
    Take(PartId),
    /// `store(t, k, e)`
    Store(PartId, TextExpr, Expr),
    /// `erase(t, k)`
    Erase(PartId, TextExpr),
    /// `if c then s else t`; without `else` the second is the empty statement.
    If(Cond, Box<Stmt>, Box<Stmt>),
    /// `refuse('w')`
    Refuse(RefusalWord),
}
