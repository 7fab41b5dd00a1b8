//! Sums, seen from their last terms.

ghost use Rattle.std.specs.Prelude.{◌≡◌};
ghost use Rattle.decl_core.specs.View.{integers_of, total_of_list};
ghost use Rattle.decl_core.specs.SumRows.{outer_form};

use crate::expr::{IntegerExpr, Signed, Source};
use crate::id::PartId;

/// A first term, and the terms added to it and subtracted from it, from left to right.
#[derive(Clone, Copy)]
pub(crate) struct SumRow<'a> {
    /// The first term.
    pub first: &'a IntegerExpr,
    /// The others.
    pub terms: &'a [Signed],
}

/// An integer that is no sum.
#[derive(Clone, Copy)]
pub(crate) enum Single<'a> {
    /// A number.
    Number(u32),
    /// An integer that is taken from somewhere.
    From(&'a Source),
    /// The count of a part.
    Count(PartId),
}

/// What an integer is.
#[derive(Clone, Copy)]
pub(crate) enum Outer<'a> {
    /// No sum.
    Single(Single<'a>),
    /// What stands before the last term of a sum, whether this is added, and this term.
    Sum(SumRow<'a>, bool, &'a IntegerExpr),
}

/// What a first term with others behind it is.
pub(crate) fn seen_from_end<'a>(first: &'a IntegerExpr, terms: &'a [Signed]) -> Outer<'a>
    ensures { outer_form result ≡ total_of_list (integers_of first.now) terms.now }
{
    match terms.split_last() {
        Some((last, before)) => {
            let row = SumRow {
                first,
                terms: before,
            };
            match last {
                Signed::Plus(e) => Outer::Sum(row, true, e),
                Signed::Minus(e) => Outer::Sum(row, false, e),
            }
        }
        None => match first {
            IntegerExpr::Number(n) => Outer::Single(Single::Number(*n)),
            IntegerExpr::From(source) => Outer::Single(Single::From(source)),
            IntegerExpr::Count(part) => Outer::Single(Single::Count(*part)),
            IntegerExpr::Sum(first, terms) => seen_from_end(first, terms),
        },
    }
}
