//! By which words of the language a body can be refused.
//!
//! A body is walked once, in its order, with what its conditions and its statements have shown so far: a queue that was
//! asked whether it has an element is not told as `empty`, a key that was asked for not as `missing`.

use crate::shown_parts::{
    KnownParts, MOST_PARTS, bit_of, in_both, keys_of, part_bit, where_it, with_key, with_keys,
    with_other_first,
};
use decl_core::expr::{Expr, IntegerExpr, Signed, Source, TextExpr};
use decl_core::id::PartId;
use decl_core::object::Operation;
use decl_core::stmt::{Cond, Stmt};
use value_core::kind::Kind;

/// The words of the language, as bits, in the order in which they are told.
pub(crate) const INDEX: u8 = 1;

pub(crate) const EMPTY: u8 = 2;

pub(crate) const FULL: u8 = 4;

pub(crate) const MISSING: u8 = 8;

pub(crate) const RANGE: u8 = 16;

// How far a body was walked.
#[derive(Clone, Copy)]
struct BodyWalk {
    known: KnownParts,
    // the words so far
    words: u8,
    // whether no statement behind is reached
    is_over: bool,
}

// ---- one step ----

// With a word more, unless it cannot be.
fn saying(walk: BodyWalk, word: u8, cannot: bool) -> BodyWalk {
    if cannot {
        walk
    } else {
        BodyWalk {
            words: walk.words | word,
            ..walk
        }
    }
}

// Whether an index is a number that an array of this kind has.
fn is_within(kind: Option<Kind>, index: &IntegerExpr) -> bool {
    match (kind, index) {
        (Some(Kind::Array(size, _)), IntegerExpr::Number(number)) => *number < u32::from(size),
        _ => false,
    }
}

// What a part holds.
fn kind_of(kinds: &[Option<Kind>], part: PartId) -> Option<Kind> {
    match kinds.get(usize::from(part.place())) {
        Some(kind) => *kind,
        None => None,
    }
}

// Behind a look at an element of an array.
fn indexed(kinds: &[Option<Kind>], part: PartId, index: &IntegerExpr, walk: BodyWalk) -> BodyWalk {
    saying(walk, INDEX, is_within(kind_of(kinds, part), index))
}

// Behind a look at the first element of a queue.
fn looked_first(queue: PartId, walk: BodyWalk) -> BodyWalk {
    let has = walk.known.filled & part_bit(queue) != 0;
    let known = KnownParts {
        filled: walk.known.filled | part_bit(queue),
        ..walk.known
    };
    saying(BodyWalk { known, ..walk }, EMPTY, has)
}

// Behind a look for a key of a table.
fn looked_up(table: PartId, key: u32, walk: BodyWalk) -> BodyWalk {
    let has = keys_of(walk.known, table) & key != 0;
    let looked = if key == 0 { part_bit(table) } else { 0 };
    let known = KnownParts {
        looked: walk.known.looked | looked,
        ..with_key(walk.known, table, key)
    };
    saying(BodyWalk { known, ..walk }, MISSING, has)
}

// Behind a sum.
fn summed(walk: BodyWalk) -> BodyWalk {
    saying(walk, RANGE, walk.known.compared)
}

// Behind `append`.
fn appended(queue: PartId, walk: BodyWalk) -> BodyWalk {
    let bit = part_bit(queue);
    let has_room = walk.known.roomy & bit != 0;
    let known = KnownParts {
        filled: walk.known.filled | bit,
        roomy: walk.known.roomy & !bit,
        ..with_other_first(walk.known, queue)
    };
    saying(BodyWalk { known, ..walk }, FULL, has_room)
}

// Behind `take`.
fn taken(queue: PartId, walk: BodyWalk) -> BodyWalk {
    let bit = part_bit(queue);
    let has = walk.known.filled & bit != 0;
    let known = KnownParts {
        filled: walk.known.filled & !bit,
        roomy: walk.known.roomy | bit,
        ..with_other_first(walk.known, queue)
    };
    saying(BodyWalk { known, ..walk }, EMPTY, has)
}

// Behind `store`. A key without a bit is taken for one that is looked up in the same statement, as in `store(t, k,
// lookup(t, k) + 1)`.
fn stored(table: PartId, key: u32, walk: BodyWalk) -> BodyWalk {
    let bit = part_bit(table);
    let has = keys_of(walk.known, table) & key != 0 || key == 0 && walk.known.looked & bit != 0;
    let has_room = walk.known.roomy & bit != 0;
    let known = KnownParts {
        roomy: walk.known.roomy & !bit,
        ..with_key(walk.known, table, key)
    };
    saying(BodyWalk { known, ..walk }, FULL, has || has_room)
}

// Behind `erase`.
fn erased(table: PartId, key: u32, walk: BodyWalk) -> BodyWalk {
    let has = keys_of(walk.known, table) & key != 0;
    let known = KnownParts {
        roomy: walk.known.roomy | part_bit(table),
        ..with_keys(walk.known, table, 0)
    };
    saying(BodyWalk { known, ..walk }, MISSING, has)
}

// ---- expressions ----

#[cycle(refusing)]
fn of_source(kinds: &[Option<Kind>], source: &Source, walk: BodyWalk) -> BodyWalk {
    match source {
        Source::Parameter(_) => walk,
        Source::Element(part, index) => {
            indexed(kinds, *part, index, of_integer(kinds, index, walk))
        }
        Source::First(part) => looked_first(*part, walk),
        Source::Lookup(part, key) => looked_up(*part, bit_of(key), of_text(kinds, key, walk)),
    }
}

#[cycle(refusing)]
fn of_integer(kinds: &[Option<Kind>], e: &IntegerExpr, walk: BodyWalk) -> BodyWalk {
    match e {
        IntegerExpr::Number(_) => walk,
        IntegerExpr::From(source) => of_source(kinds, source, walk),
        IntegerExpr::Count(_) => walk,
        IntegerExpr::Sum(first, terms) => of_terms(kinds, terms, of_integer(kinds, first, walk)),
    }
}

#[cycle(refusing)]
fn of_terms(kinds: &[Option<Kind>], terms: &[Signed], walk: BodyWalk) -> BodyWalk {
    let mut behind = walk;
    for term in terms {
        behind = of_term(kinds, term, behind);
    }
    behind
}

// Where a number is added, or how many elements there are, a sum passes 4294967295 after as many calls alone: that is not told.
#[cycle(refusing)]
fn of_term(kinds: &[Option<Kind>], term: &Signed, walk: BodyWalk) -> BodyWalk {
    match term {
        Signed::Plus(e) => match e {
            IntegerExpr::Number(_) | IntegerExpr::Count(_) => walk,
            _ => summed(of_integer(kinds, e, walk)),
        },
        Signed::Minus(e) => summed(of_integer(kinds, e, walk)),
    }
}

#[cycle(refusing)]
fn of_text(kinds: &[Option<Kind>], e: &TextExpr, walk: BodyWalk) -> BodyWalk {
    match e {
        TextExpr::Literal(_) => walk,
        TextExpr::From(source) => of_source(kinds, source, walk),
    }
}

fn of_expr(kinds: &[Option<Kind>], e: &Expr, walk: BodyWalk) -> BodyWalk {
    match e {
        Expr::Integer(e) => of_integer(kinds, e, walk),
        Expr::Text(e) => of_text(kinds, e, walk),
    }
}

// ---- conditions ----

fn of_condition(kinds: &[Option<Kind>], c: &Cond, walk: BodyWalk) -> BodyWalk {
    match c {
        Cond::Integers(_, a, b) => of_integer(kinds, b, of_integer(kinds, a, walk)),
        Cond::SameTexts(a, b) => of_text(kinds, b, of_text(kinds, a, walk)),
        Cond::OtherTexts(a, b) => of_text(kinds, b, of_text(kinds, a, walk)),
        Cond::Has(_, key) => of_text(kinds, key, walk),
        Cond::Not(c) => of_condition(kinds, c, walk),
    }
}

// ---- statements ----

// Behind a statement that was walked in two ways.
fn joined(a: BodyWalk, b: BodyWalk) -> BodyWalk {
    let words = a.words | b.words;
    if a.is_over {
        return BodyWalk { words, ..b };
    }
    if b.is_over {
        return BodyWalk { words, ..a };
    }
    BodyWalk {
        known: in_both(a.known, b.known),
        words,
        is_over: false,
    }
}

// Where a condition holds, or does not.
fn on(holds: bool, c: &Cond, walk: BodyWalk) -> BodyWalk {
    BodyWalk {
        known: where_it(holds, c, walk.known),
        ..walk
    }
}

// Where nothing was looked up in this statement.
fn afresh(walk: BodyWalk) -> BodyWalk {
    let known = KnownParts {
        looked: 0,
        ..walk.known
    };
    BodyWalk { known, ..walk }
}

#[cycle(refusing_statements)]
fn of_statement(kinds: &[Option<Kind>], s: &Stmt, walk: BodyWalk) -> BodyWalk {
    match s {
        Stmt::Block(all) => of_block(kinds, all, walk),
        Stmt::SetElement(part, index, e) => {
            let behind = of_expr(kinds, e, of_integer(kinds, index, walk));
            indexed(kinds, *part, index, behind)
        }
        Stmt::SetResult(e) => of_expr(kinds, e, walk),
        Stmt::Append(part, e) => appended(*part, of_expr(kinds, e, walk)),
        Stmt::Take(part) => taken(*part, walk),
        Stmt::Store(part, key, e) => {
            let behind = of_expr(kinds, e, of_text(kinds, key, afresh(walk)));
            stored(*part, bit_of(key), behind)
        }
        Stmt::Erase(part, key) => erased(*part, bit_of(key), of_text(kinds, key, walk)),
        Stmt::If(c, s, t) => {
            let behind = of_condition(kinds, c, walk);
            let then = of_statement(kinds, s, on(true, c, behind));
            joined(then, of_statement(kinds, t, on(false, c, behind)))
        }
        Stmt::Refuse(_) => BodyWalk {
            is_over: true,
            ..walk
        },
    }
}

#[cycle(refusing_statements)]
fn of_block(kinds: &[Option<Kind>], all: &[Stmt], walk: BodyWalk) -> BodyWalk {
    let mut behind = walk;
    for s in all {
        if !behind.is_over {
            behind = of_statement(kinds, s, behind);
        }
    }
    behind
}

/// The words of the language by which a body can be refused, as bits. What its own conditions rule out is left out: `empty`
/// where it has asked `count(q) > 0`, or has looked at `first(q)` before, `missing` where it has asked `has(t, k)`, for a
/// key that is a parameter or `first(q)`, `full` where it has asked that too, or that fewer are counted, `index` where
/// the index is a number that the array has, and `range` where two integers were compared on the way, or a number or a
/// count alone is added.
pub(crate) fn words_of(operation: &Operation) -> u8 {
    let walk = BodyWalk {
        known: KnownParts {
            filled: 0,
            roomy: 0,
            looked: 0,
            keys: [0; MOST_PARTS],
            compared: false,
        },
        words: 0,
        is_over: false,
    };
    of_block(&operation.kinds, &operation.body, walk).words
}
