//! Expressions, each of its kind: integers and texts.
//!
//! Names are resolved: a constant is its value, a parameter and a part are their numbers.

use crate::id::{ParamId, PartId};
use value_core::text::Text;

/// An expression.
#[derive(Drop)]
pub enum Expr {
    /// An integer.
    Integer(IntegerExpr),
    /// A text.
    Text(TextExpr),
}

/// Where an integer or a text is taken from.
#[derive(Drop)]
#[cycle(expression)]
pub enum Source {
    /// The argument for this parameter.
    Parameter(ParamId),
    /// `v[i]`: the element of an array, counted from 0.
    Element(PartId, IntegerExpr),
    /// `first(q)`: the oldest element of a queue.
    First(PartId),
    /// `lookup(t, k)`: the element of a table under a key.
    Lookup(PartId, TextExpr),
}

/// An expression that is an integer.
#[derive(Drop)]
#[cycle(expression)]
pub enum IntegerExpr {
    /// A number, or a constant's value.
    Number(u32),
    /// An integer that is taken from somewhere.
    From(Box<Source>),
    /// `count(p)`: the length of an array or of a queue, the number of keys of a table.
    Count(PartId),
    /// A first term, and the terms added to it and subtracted from it, from left to right. They are a
    /// row, since a source has room for some 32,000 of them.
    Sum(Box<IntegerExpr>, Vec<Signed>),
}

/// A term behind its sign.
#[derive(Drop)]
#[cycle(expression)]
pub enum Signed {
    /// `+ e`
    Plus(IntegerExpr),
    /// `- e`
    Minus(IntegerExpr),
}

/// An expression that is a text.
#[derive(Drop)]
#[cycle(expression)]
pub enum TextExpr {
    /// The content of a string.
    Literal(Box<Text>),
    /// A text that is taken from somewhere.
    From(Box<Source>),
}
