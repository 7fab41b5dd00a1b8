//! Expressions where a kind is due.

ghost use Rattle.std.specs.Prelude.{◌≡◌, Some};
ghost use Rattle.decl_core.specs.View.{from_of, integers_of, texts_of, form_of, with_term};
ghost use Rattle.token_read.specs.Reader.{Gives};
ghost use Rattle.body_read.specs.Reading.{integer_form, text_form, of_sort, literal_of, level_of, combined};
ghost use Rattle.decl_core.specs.Sorts.{array_sort, queue_sort, table_sort};
ghost use Rattle.decl_core.specs.Form.{Integers};

use decl_core::expr::{Expr, IntegerExpr, Signed, Source, TextExpr};
use std::alloc::Global;
use token_read::text_fault::TextFault;
use value_core::kind::{Elem, Kind};
use value_core::text::Text;

/// An expression that has to be an integer.
pub(crate) fn integer(e: Expr, at: usize) -> Result<IntegerExpr, TextFault>
    ensures { Gives integers_of result (integer_form (form_of e)) }
{
    match e {
        Expr::Integer(e) => Ok(e),
        Expr::Text(_) => Err(TextFault::WrongType(at)),
    }
}

/// An expression that has to be a text.
pub(crate) fn text(e: Expr, at: usize) -> Result<TextExpr, TextFault>
    ensures { Gives texts_of result (text_form (form_of e)) }
{
    match e {
        Expr::Integer(_) => Err(TextFault::WrongType(at)),
        Expr::Text(e) => Ok(e),
    }
}

/// What is taken from somewhere, as an expression of its kind.
pub(crate) fn taken(alloc: Global, sort: Elem, source: Source) -> Result<Expr, TextFault>
    ensures { Gives form_of result (Some (of_sort sort (from_of source))) }
{
    let source = Box::new(alloc, source)?;
    match sort {
        Elem::Integer => Ok(Expr::Integer(IntegerExpr::From(source))),
        Elem::Text => Ok(Expr::Text(TextExpr::From(source))),
    }
}

/// What the elements are of a part that has to be an array.
pub(crate) fn array(kind: Kind, at: usize) -> Result<Elem, TextFault>
    ensures { Gives (λ e. e) result (array_sort kind) }
{
    match kind {
        Kind::Array(_, sort) => Ok(sort),
        Kind::Queue(_) => Err(TextFault::WrongType(at)),
        Kind::Table(_) => Err(TextFault::WrongType(at)),
    }
}

/// What the elements are of a part that has to be a queue.
pub(crate) fn queue(kind: Kind, at: usize) -> Result<Elem, TextFault>
    ensures { Gives (λ e. e) result (queue_sort kind) }
{
    match kind {
        Kind::Array(_, _) => Err(TextFault::WrongType(at)),
        Kind::Queue(sort) => Ok(sort),
        Kind::Table(_) => Err(TextFault::WrongType(at)),
    }
}

/// What the elements are of a part that has to be a table.
pub(crate) fn table(kind: Kind, at: usize) -> Result<Elem, TextFault>
    ensures { Gives (λ e. e) result (table_sort kind) }
{
    match kind {
        Kind::Array(_, _) => Err(TextFault::WrongType(at)),
        Kind::Queue(_) => Err(TextFault::WrongType(at)),
        Kind::Table(sort) => Ok(sort),
    }
}

/// The content of a string as an expression.
#[tactic(auto, using(crate::proofs::Literals::literal_some, crate::proofs::Literals::literal_none))]
pub(crate) fn literal(alloc: Global, bytes: &[u8], at: usize) -> Result<Expr, TextFault>
    ensures { Gives form_of result (literal_of bytes.now) }
{
    match Text::from_bytes(bytes) {
        None => Err(TextFault::Syntax(at)),
        Some(text) => Ok(Expr::Text(TextExpr::Literal(Box::new(alloc, text)?))),
    }
}

/// The levels left behind a token that opens one.
#[tactic(auto, using(crate::proofs::Literals::level_some, crate::proofs::Literals::level_none))]
pub(crate) fn level(depth: u8, at: usize) -> Result<u8, TextFault>
    ensures { Gives (λ d. d) result (level_of depth) }
{
    if depth == 0 {
        Err(TextFault::TooMany(at))
    } else {
        Ok(depth - 1)
    }
}

/// A term behind its sign.
pub(crate) fn signed(is_plus: bool, e: IntegerExpr) -> Signed
    ensures { (f : Integers) → with_term f result ≡ combined is_plus f (integers_of e) }
{
    if is_plus {
        Signed::Plus(e)
    } else {
        Signed::Minus(e)
    }
}
