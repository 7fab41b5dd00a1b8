//! What the conditions and the statements of a body have shown so far, as far as words of refusal hang on it.

use decl_core::expr::{IntegerExpr, Signed, Source, TextExpr};
use decl_core::id::PartId;
use decl_core::stmt::{Cond, Relation};

/// The most parts of an object.
pub(crate) const MOST_PARTS: usize = 16;

// The most elements of a part.
const MOST_ELEMENTS: u32 = 1_024;

// The most parameters of an operation: the bit of the first element of a queue stands behind theirs.
const MOST_PARAMS: u32 = 8;

/// What is known where a walk has come to.
#[derive(Clone, Copy)]
pub(crate) struct KnownParts {
    /// The queues that have an element, as bits
    pub filled: u16,
    /// The queues and tables that have room for one more
    pub roomy: u16,
    /// The tables in which a key that has no bit was looked up in this statement
    pub looked: u16,
    /// Of each table the keys that it has
    pub keys: [u32; MOST_PARTS],
    /// Whether two integers were compared on the way
    pub compared: bool,
}

// ---- bits ----

/// The bit of a part.
pub(crate) fn part_bit(part: PartId) -> u16 {
    1u16.checked_shl(u32::from(part.place())).unwrap_or(0)
}

// The bit of this number.
fn key_bit(number: u32) -> u32 {
    1u32.checked_shl(number).unwrap_or(0)
}

// The bit of the first element of a queue, as a key.
fn first_bit(part: PartId) -> u32 {
    key_bit(MOST_PARAMS.saturating_add(u32::from(part.place())))
}

// The bit of what is taken from there, as a key: of a parameter, and of the first element of a queue; others have none.
fn taken_bit(source: &Source) -> u32 {
    match source {
        Source::Parameter(number) => key_bit(u32::from(*number)),
        Source::First(part) => first_bit(*part),
        Source::Element(_, _) | Source::Lookup(_, _) => 0,
    }
}

/// The bit of a key, if it has one.
pub(crate) fn bit_of(key: &TextExpr) -> u32 {
    match key {
        TextExpr::From(source) => taken_bit(source),
        TextExpr::Literal(_) => 0,
    }
}

// ---- what is known ----

/// The keys that a table has.
pub(crate) fn keys_of(known: KnownParts, table: PartId) -> u32 {
    match known.keys.get(usize::from(table.place())) {
        Some(keys) => *keys,
        None => 0,
    }
}

/// With these keys of a table.
pub(crate) fn with_keys(known: KnownParts, table: PartId, of_table: u32) -> KnownParts {
    let mut keys = known.keys;
    let at = usize::from(table.place());
    if at < MOST_PARTS {
        keys[at] = of_table;
    }
    KnownParts { keys, ..known }
}

/// Where a table has a key.
pub(crate) fn with_key(known: KnownParts, table: PartId, key: u32) -> KnownParts {
    with_keys(known, table, keys_of(known, table) | key)
}

/// Where the first element of a queue is another one.
pub(crate) fn with_other_first(known: KnownParts, queue: PartId) -> KnownParts {
    let mut keys = known.keys;
    for at in 0..MOST_PARTS {
        keys[at] = keys[at] & !first_bit(queue);
    }
    KnownParts { keys, ..known }
}

/// What is known in both.
pub(crate) fn in_both(a: KnownParts, b: KnownParts) -> KnownParts {
    let mut keys = a.keys;
    for at in 0..MOST_PARTS {
        keys[at] = keys[at] & b.keys[at];
    }
    KnownParts {
        filled: a.filled & b.filled,
        roomy: a.roomy & b.roomy,
        looked: a.looked & b.looked,
        keys,
        compared: a.compared && b.compared,
    }
}

// The relation that holds where another one does not.
fn turned(relation: Relation) -> Relation {
    match relation {
        Relation::Equal => Relation::Differ,
        Relation::Differ => Relation::Equal,
        Relation::Less => Relation::GreaterEqual,
        Relation::LessEqual => Relation::Greater,
        Relation::Greater => Relation::LessEqual,
        Relation::GreaterEqual => Relation::Less,
    }
}

// Whether a number in this relation to another one is at least 1.
fn is_some(relation: Relation, number: u32) -> bool {
    match relation {
        Relation::Greater => true,
        Relation::GreaterEqual | Relation::Equal => number > 0,
        Relation::Differ => number == 0,
        Relation::Less | Relation::LessEqual => false,
    }
}

// Whether a number in this relation to another one is less than a part has elements at most.
fn is_few(relation: Relation, number: u32) -> bool {
    match relation {
        Relation::Less => number <= MOST_ELEMENTS,
        Relation::LessEqual | Relation::Equal => number < MOST_ELEMENTS,
        Relation::Differ | Relation::Greater | Relation::GreaterEqual => false,
    }
}

// The part whose elements are counted, as a bit.
fn counted(e: &IntegerExpr) -> u16 {
    match e {
        IntegerExpr::Count(part) => part_bit(*part),
        _ => 0,
    }
}

// The parts whose elements are counted in a sum, as bits; none where something is subtracted.
fn counted_in(e: &IntegerExpr) -> u16 {
    match e {
        IntegerExpr::Sum(first, terms) => counted_in_terms(terms, counted(first)),
        _ => counted(e),
    }
}

fn counted_in_terms(terms: &[Signed], first: u16) -> u16 {
    let mut all = first;
    for term in terms {
        match term {
            Signed::Plus(e) => all = all | counted(e),
            Signed::Minus(_) => return 0,
        }
    }
    all
}

// What is known where a value is in this relation to a number.
fn where_counted(
    relation: Relation,
    e: &IntegerExpr,
    number: u32,
    known: KnownParts,
) -> KnownParts {
    let filled = if is_some(relation, number) {
        counted(e)
    } else {
        0
    };
    let roomy = if is_few(relation, number) {
        counted_in(e)
    } else {
        0
    };
    KnownParts {
        filled: known.filled | filled,
        roomy: known.roomy | roomy,
        ..known
    }
}

// What is known where two integers are in this relation.
fn where_compared(
    relation: Relation,
    a: &IntegerExpr,
    b: &IntegerExpr,
    known: KnownParts,
) -> KnownParts {
    let known = KnownParts {
        compared: true,
        ..known
    };
    match b {
        IntegerExpr::Number(number) => where_counted(relation, a, *number, known),
        _ => known,
    }
}

/// What is known where a condition holds, or does not.
pub(crate) fn where_it(holds: bool, c: &Cond, known: KnownParts) -> KnownParts {
    match c {
        Cond::Integers(relation, a, b) => {
            let relation = if holds { *relation } else { turned(*relation) };
            where_compared(relation, a, b, known)
        }
        Cond::SameTexts(_, _) | Cond::OtherTexts(_, _) => known,
        Cond::Has(table, key) => if holds {
            with_key(known, *table, bit_of(key))
        } else {
            known
        },
        Cond::Not(c) => where_it(!holds, c, known),
    }
}
