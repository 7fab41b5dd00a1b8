//! Expressions and conditions, evaluated on what is known of the values of parts.

ghost use Rattle.std.specs.Prelude.{◌≡◌, ◌<◌, length, map, Ok};
ghost use Rattle.value_core.specs.Contents.{kind_of};
ghost use Rattle.value_core.specs.Meaning.{oldest_of};
ghost use Rattle.decl_core.specs.Form.{element, oldest, under, integer_from as taken_integer};
ghost use Rattle.decl_core.specs.Form.{same_texts, other_texts, has};
ghost use Rattle.decl_core.specs.View.{from_of, integers_of, texts_of, condition_of};
ghost use Rattle.decl_core.specs.Meaning.{part_at, argument_at, integer_in as in_integer, text_in as in_text};
ghost use Rattle.decl_core.specs.Meaning.{compares as related};
ghost use Rattle.known_core.specs.Partly.{◌>>>◌, worded, if_known as where_known};
ghost use Rattle.known_core.specs.Partly.{datum_known, integer_known, text_known, holds_known};
ghost use Rattle.known_core.specs.Masks.{known_by};
ghost use Rattle.known_core.specs.Breaks.{given};
ghost use Rattle.known_core.specs.declared.eval.Break.TheVariants.{Refused};
ghost use Rattle.apply_core.specs.Fitting.{kind_at, FromFits, IntegersFit, TextsFit, SignedFits, TermsFit};
ghost use Rattle.apply_core.specs.Fitting.{ConditionFits};
ghost use Rattle.known_core.specs.Sums.{seeing, with_signed, with_terms};

use crate::pages::Pages;
use crate::parts::PartValues;
use decl_core::expr::{IntegerExpr, Signed, Source, TextExpr};
use decl_core::id::{ParamId, PartId};
use decl_core::stmt::{Cond, Relation};
use value_core::arithmetic::{add, sub};
use value_core::datum::Datum;
use value_core::refusal::Refusal;
use value_core::text::Text;

/// Why an expression has no value.
#[derive(Clone, Copy)]
pub enum Break {
    /// An operation on a value refused it.
    Refused(Refusal),
    /// It comes to this element of this part, which is not known.
    Needs(PartId, u32),
}

impl From<Refusal> for Break {
    ghost from_gives = { λ refusal b. b ≡ Refused refusal };

    fn from(refusal: Refusal) -> Break {
        Break::Refused(refusal)
    }
}

// This datum, where the element is known.
fn if_known(part: PartId, index: u32, datum: Datum, known: &Pages) -> Result<Datum, Break>
    ensures { where_known (known_by known.now) part index datum ≡ given result }
{
    if known.has(part, index) {
        Ok(datum)
    } else {
        Err(Break::Needs(part, index))
    }
}

// The argument for a parameter.
fn argument(args: &[Datum], param: ParamId) -> Datum
    ensures { result ≡ argument_at args.now param }
{
    match args.get(param as usize) {
        Some(datum) => *datum,
        None => Datum::Integer(0),
    }
}

// What stands where an integer is due. A datum has room for a kilobyte, so it is lent.
fn integer_in(datum: &Datum) -> u32
    ensures { result ≡ in_integer datum.now }
{
    match datum {
        Datum::Integer(n) => *n,
        Datum::Text(_) => 0,
    }
}

// The argument for a parameter that is an integer.
fn integer_argument(args: &[Datum], param: ParamId) -> u32
    ensures { result ≡ in_integer (argument_at args.now param) }
{
    match args.get(param as usize) {
        Some(datum) => integer_in(datum),
        None => 0,
    }
}

// What stands where a text is due.
fn text_in(datum: Datum) -> Text
    ensures { result ≡ in_text datum }
{
    match datum {
        Datum::Integer(_) => Text::empty(),
        Datum::Text(text) => text,
    }
}

// The element of a part at an index.
#[cycle(evaluating)]
fn element_in<P: PartValues>(
    part: PartId,
    index: &IntegerExpr,
    args: &[Datum],
    parts: &P,
    known: &Pages,
) -> Result<Datum, Break>
    requires fits { FromFits (map kind_of (P.values parts.now)) (element part (integers_of index.now)) }
    ensures { datum_known (known_by known.now) (seeing args.now (P.values parts.now)) (element part (integers_of index.now))
        ≡ given result }
{
    let index = integer(index, args, parts, known)?;
    let datum = parts.element(part, index)?;
    if_known(part, index, datum, known)
}

// The oldest element of a part.
fn oldest_in<P: PartValues>(part: PartId, parts: &P) -> Result<Datum, Break>
    requires fits { FromFits (map kind_of (P.values parts.now)) (oldest part) }
    ensures { worded (oldest_of (part_at (P.values parts.now) part)) ≡ given result }
{
    let datum = parts.first(part)?;
    Ok(datum)
}

// What stands under a key of a part.
#[cycle(evaluating)]
fn under_in<P: PartValues>(
    part: PartId,
    key: &TextExpr,
    args: &[Datum],
    parts: &P,
    known: &Pages,
) -> Result<Datum, Break>
    requires fits { FromFits (map kind_of (P.values parts.now)) (under part (texts_of key.now)) }
    ensures { datum_known (known_by known.now) (seeing args.now (P.values parts.now)) (under part (texts_of key.now))
        ≡ given result }
{
    let key = text(key, args, parts, known)?;
    let datum = parts.lookup(part, &key)?;
    Ok(datum)
}

// What is taken from there. Each form has a function of its own, since a function clears all its data before it begins.
#[cycle(evaluating)]
fn from<P: PartValues>(
    source: &Source,
    args: &[Datum],
    parts: &P,
    known: &Pages,
) -> Result<Datum, Break>
    requires fits { FromFits (map kind_of (P.values parts.now)) (from_of source.now) }
    ensures { datum_known (known_by known.now) (seeing args.now (P.values parts.now)) (from_of source.now) ≡ given result }
{
    match source {
        Source::Parameter(param) => Ok(argument(args, *param)),
        Source::Element(part, index) => element_in(*part, index, args, parts, known),
        Source::First(part) => oldest_in(*part, parts),
        Source::Lookup(part, key) => under_in(*part, key, args, parts, known),
    }
}

// The element of an array of integers at an index.
#[cycle(evaluating)]
fn integer_element<P: PartValues>(
    part: PartId,
    index: &IntegerExpr,
    args: &[Datum],
    parts: &P,
    known: &Pages,
) -> Result<u32, Break>
    requires fits { FromFits (map kind_of (P.values parts.now)) (element part (integers_of index.now)) }
    ensures { integer_known (known_by known.now) (seeing args.now (P.values parts.now))
        (taken_integer (element part (integers_of index.now))) ≡ given result }
{
    let index = integer(index, args, parts, known)?;
    let element = parts.element(part, index)?;
    if !known.has(part, index) {
        return Err(Break::Needs(part, index));
    }
    Ok(integer_in(&element))
}

// The oldest element of a queue of integers.
fn integer_oldest<P: PartValues>(part: PartId, parts: &P) -> Result<u32, Break>
    requires fits { FromFits (map kind_of (P.values parts.now)) (oldest part) }
    ensures { (worded (oldest_of (part_at (P.values parts.now) part)) >>> λ d. Ok (in_integer d)) ≡ given result }
{
    let datum = parts.first(part)?;
    Ok(integer_in(&datum))
}

// The integer under a key of a table.
#[cycle(evaluating)]
fn integer_under<P: PartValues>(
    part: PartId,
    key: &TextExpr,
    args: &[Datum],
    parts: &P,
    known: &Pages,
) -> Result<u32, Break>
    requires fits { FromFits (map kind_of (P.values parts.now)) (under part (texts_of key.now)) }
    ensures { integer_known (known_by known.now) (seeing args.now (P.values parts.now))
        (taken_integer (under part (texts_of key.now))) ≡ given result }
{
    let key = text(key, args, parts, known)?;
    let datum = parts.lookup(part, &key)?;
    Ok(integer_in(&datum))
}

// The integer that is taken from there, each form in a function of its own.
#[cycle(evaluating)]
fn integer_from<P: PartValues>(
    source: &Source,
    args: &[Datum],
    parts: &P,
    known: &Pages,
) -> Result<u32, Break>
    requires fits { IntegersFit (map kind_of (P.values parts.now)) (taken_integer (from_of source.now)) }
    ensures { integer_known (known_by known.now) (seeing args.now (P.values parts.now)) (taken_integer (from_of source.now))
        ≡ given result }
{
    match source {
        Source::Parameter(param) => Ok(integer_argument(args, *param)),
        Source::Element(part, index) => integer_element(*part, index, args, parts, known),
        Source::First(part) => integer_oldest(*part, parts),
        Source::Lookup(part, key) => integer_under(*part, key, args, parts, known),
    }
}

// The value of an expression that is an integer.
#[cycle(evaluating)]
pub(crate) fn integer<P: PartValues>(
    e: &IntegerExpr,
    args: &[Datum],
    parts: &P,
    known: &Pages,
) -> Result<u32, Break>
    requires fits { IntegersFit (map kind_of (P.values parts.now)) (integers_of e.now) }
    ensures { integer_known (known_by known.now) (seeing args.now (P.values parts.now)) (integers_of e.now) ≡ given result }
{
    match e {
        IntegerExpr::Number(n) => Ok(*n),
        IntegerExpr::From(source) => integer_from(source, args, parts, known),
        IntegerExpr::Count(part) => Ok(parts.count(*part)),
        IntegerExpr::Sum(first, terms) => match integer(first, args, parts, known) {
            Ok(first) => sum(first, terms, args, parts, known),
            Err(stop) => Err(stop),
        },
    }
}

// A value with terms added and subtracted, from left to right.
#[cycle(evaluating)]
fn sum<P: PartValues>(
    first: u32,
    terms: &[Signed],
    args: &[Datum],
    parts: &P,
    known: &Pages,
) -> Result<u32, Break>
    requires fits { TermsFit (map kind_of (P.values parts.now)) terms.now }
    ensures { with_terms (known_by known.now) (seeing args.now (P.values parts.now)) first terms.now ≡ given result }
{
    let mut total = first;
    for term in terms {
        total = with(total, term, args, parts, known)?;
    }
    Ok(total)
}

// A value with a term added or subtracted.
#[cycle(evaluating)]
fn with<P: PartValues>(
    so_far: u32,
    term: &Signed,
    args: &[Datum],
    parts: &P,
    known: &Pages,
) -> Result<u32, Break>
    requires fits { SignedFits (map kind_of (P.values parts.now)) term.now }
    ensures { with_signed (known_by known.now) (seeing args.now (P.values parts.now)) so_far term.now ≡ given result }
{
    match term {
        Signed::Plus(e) => {
            let n = integer(e, args, parts, known)?;
            let total = add(so_far, n)?;
            Ok(total)
        }
        Signed::Minus(e) => {
            let n = integer(e, args, parts, known)?;
            let total = sub(so_far, n)?;
            Ok(total)
        }
    }
}

// The value of an expression that is a text.
#[cycle(evaluating)]
pub(crate) fn text<P: PartValues>(
    e: &TextExpr,
    args: &[Datum],
    parts: &P,
    known: &Pages,
) -> Result<Text, Break>
    requires fits { TextsFit (map kind_of (P.values parts.now)) (texts_of e.now) }
    ensures { text_known (known_by known.now) (seeing args.now (P.values parts.now)) (texts_of e.now) ≡ given result }
{
    match e {
        TextExpr::Literal(content) => Ok(**content),
        TextExpr::From(source) => {
            let datum = from(source, args, parts, known)?;
            Ok(text_in(datum))
        }
    }
}

// Whether a relation holds of two integers.
fn compares(relation: Relation, first: u32, second: u32) -> bool
    ensures { result ≡ related relation first second }
{
    match relation {
        Relation::Equal => first == second,
        Relation::Differ => first != second,
        Relation::Less => first < second,
        Relation::LessEqual => first <= second,
        Relation::Greater => first > second,
        Relation::GreaterEqual => first >= second,
    }
}

// Whether two texts are the same.
fn are_same<P: PartValues>(
    a: &TextExpr,
    b: &TextExpr,
    args: &[Datum],
    parts: &P,
    known: &Pages,
) -> Result<bool, Break>
    requires fits { ConditionFits (map kind_of (P.values parts.now)) (same_texts (texts_of a.now) (texts_of b.now)) }
    ensures { holds_known (known_by known.now) (seeing args.now (P.values parts.now))
        (same_texts (texts_of a.now) (texts_of b.now))
        ≡ given result }
{
    let first = text(a, args, parts, known)?;
    let second = text(b, args, parts, known)?;
    Ok(first == second)
}

// Whether two texts are not the same.
fn are_other<P: PartValues>(
    a: &TextExpr,
    b: &TextExpr,
    args: &[Datum],
    parts: &P,
    known: &Pages,
) -> Result<bool, Break>
    requires fits { ConditionFits (map kind_of (P.values parts.now)) (other_texts (texts_of a.now) (texts_of b.now)) }
    ensures { holds_known (known_by known.now) (seeing args.now (P.values parts.now))
        (other_texts (texts_of a.now) (texts_of b.now))
        ≡ given result }
{
    let first = text(a, args, parts, known)?;
    let second = text(b, args, parts, known)?;
    Ok(first != second)
}

// Whether a part has a key.
fn has_key<P: PartValues>(
    part: PartId,
    key: &TextExpr,
    args: &[Datum],
    parts: &P,
    known: &Pages,
) -> Result<bool, Break>
    requires fits { ConditionFits (map kind_of (P.values parts.now)) (has part (texts_of key.now)) }
    ensures { holds_known (known_by known.now) (seeing args.now (P.values parts.now)) (has part (texts_of key.now))
        ≡ given result }
{
    let key = text(key, args, parts, known)?;
    Ok(parts.has(part, &key))
}

// Whether a condition holds.
pub(crate) fn holds<P: PartValues>(
    c: &Cond,
    args: &[Datum],
    parts: &P,
    known: &Pages,
) -> Result<bool, Break>
    requires fits { ConditionFits (map kind_of (P.values parts.now)) (condition_of c.now) }
    ensures { holds_known (known_by known.now) (seeing args.now (P.values parts.now)) (condition_of c.now) ≡ given result }
{
    match c {
        Cond::Integers(relation, a, b) => {
            let first = integer(a, args, parts, known)?;
            let second = integer(b, args, parts, known)?;
            Ok(compares(*relation, first, second))
        }
        Cond::SameTexts(a, b) => are_same(a, b, args, parts, known),
        Cond::OtherTexts(a, b) => are_other(a, b, args, parts, known),
        Cond::Has(part, key) => has_key(*part, key, args, parts, known),
        Cond::Not(c) => {
            let inner = holds(c, args, parts, known)?;
            Ok(!inner)
        }
    }
}
