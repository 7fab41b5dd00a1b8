//! The number that the declaration of an object gives.
//!
//! The declaration is told as bytes: its name, its parts, its operations with their bodies, and its paths. The number
//! is made of these, byte by byte (FNV-1a of 64 bits).

use decl_core::expr::{Expr, IntegerExpr, Signed, Source, TextExpr};
use decl_core::object::{Object, Operation, Param, Part};
use decl_core::stmt::{Cond, Relation, Stmt};
use path_tree::node::{Members, Node};
use path_tree::tree::PathTree;
use std::sync::Arc;
use value_core::kind::{Elem, Kind};

// The number of no byte.
const NOTHING: u64 = 0xcbf2_9ce4_8422_2325;

fn with_byte(so_far: u64, byte: u8) -> u64 {
    (so_far ^ u64::from(byte)).wrapping_mul(0x0000_0100_0000_01b3)
}

fn with_bytes(so_far: u64, bytes: &[u8]) -> u64 {
    let mut told = so_far;
    for byte in bytes {
        told = with_byte(told, *byte);
    }
    told
}

fn with_number(so_far: u64, number: u64) -> u64 {
    let bytes = number.to_be_bytes();
    with_bytes(so_far, bytes.as_slice())
}

// A text behind its length.
fn with_text(so_far: u64, text: &[u8]) -> u64 {
    with_bytes(with_number(so_far, text.len() as u64), text)
}

fn with_sort(so_far: u64, sort: Elem) -> u64 {
    match sort {
        Elem::Integer => with_byte(so_far, 1),
        Elem::Text => with_byte(so_far, 2),
    }
}

fn with_kind(so_far: u64, kind: Kind) -> u64 {
    match kind {
        Kind::Array(count, sort) => {
            with_sort(with_number(with_byte(so_far, 1), u64::from(count)), sort)
        }
        Kind::Queue(sort) => with_sort(with_byte(so_far, 2), sort),
        Kind::Table(sort) => with_sort(with_byte(so_far, 3), sort),
    }
}

fn with_parts(so_far: u64, parts: &[Part]) -> u64 {
    let mut told = with_number(so_far, parts.len() as u64);
    for part in parts {
        told = with_kind(with_text(told, part.name.as_bytes()), part.kind);
    }
    told
}

fn with_params(so_far: u64, params: &[Param]) -> u64 {
    let mut told = with_number(so_far, params.len() as u64);
    for param in params {
        told = with_sort(with_text(told, param.name.as_bytes()), param.kind);
    }
    told
}

#[cycle(telling)]
fn with_source(so_far: u64, source: &Source) -> u64 {
    match source {
        Source::Parameter(param) => with_byte(with_byte(so_far, 1), *param),
        Source::Element(part, index) => {
            with_integer(with_byte(with_byte(so_far, 2), part.place()), index)
        }
        Source::First(part) => with_byte(with_byte(so_far, 3), part.place()),
        Source::Lookup(part, key) => {
            with_text_of(with_byte(with_byte(so_far, 4), part.place()), key)
        }
    }
}

#[cycle(telling)]
fn with_integer(so_far: u64, integer: &IntegerExpr) -> u64 {
    match integer {
        IntegerExpr::Number(number) => with_number(with_byte(so_far, 1), u64::from(*number)),
        IntegerExpr::From(source) => with_source(with_byte(so_far, 2), source),
        IntegerExpr::Count(part) => with_byte(with_byte(so_far, 3), part.place()),
        IntegerExpr::Sum(first, terms) => {
            with_terms(with_integer(with_byte(so_far, 4), first), terms)
        }
    }
}

#[cycle(telling)]
fn with_terms(so_far: u64, terms: &[Signed]) -> u64 {
    let mut told = with_number(so_far, terms.len() as u64);
    for term in terms {
        told = with_term(told, term);
    }
    told
}

#[cycle(telling)]
fn with_term(so_far: u64, term: &Signed) -> u64 {
    match term {
        Signed::Plus(integer) => with_integer(with_byte(so_far, 1), integer),
        Signed::Minus(integer) => with_integer(with_byte(so_far, 2), integer),
    }
}

#[cycle(telling)]
fn with_text_of(so_far: u64, text: &TextExpr) -> u64 {
    match text {
        TextExpr::Literal(literal) => with_text(with_byte(so_far, 1), literal.bytes()),
        TextExpr::From(source) => with_source(with_byte(so_far, 2), source),
    }
}

fn with_expr(so_far: u64, expr: &Expr) -> u64 {
    match expr {
        Expr::Integer(integer) => with_integer(with_byte(so_far, 1), integer),
        Expr::Text(text) => with_text_of(with_byte(so_far, 2), text),
    }
}

fn relation_byte(relation: Relation) -> u8 {
    match relation {
        Relation::Equal => 1,
        Relation::Differ => 2,
        Relation::Less => 3,
        Relation::LessEqual => 4,
        Relation::Greater => 5,
        Relation::GreaterEqual => 6,
    }
}

fn with_condition(so_far: u64, condition: &Cond) -> u64 {
    match condition {
        Cond::Integers(relation, a, b) => {
            let told = with_byte(with_byte(so_far, 1), relation_byte(*relation));
            with_integer(with_integer(told, a), b)
        }
        Cond::SameTexts(a, b) => with_text_of(with_text_of(with_byte(so_far, 2), a), b),
        Cond::OtherTexts(a, b) => with_text_of(with_text_of(with_byte(so_far, 3), a), b),
        Cond::Has(part, key) => with_text_of(with_byte(with_byte(so_far, 4), part.place()), key),
        Cond::Not(condition) => with_condition(with_byte(so_far, 5), condition),
    }
}

#[cycle(saying)]
fn with_statement(so_far: u64, statement: &Stmt) -> u64 {
    match statement {
        Stmt::Block(all) => with_block(with_byte(so_far, 1), all),
        Stmt::SetElement(part, index, expr) => {
            let told = with_byte(with_byte(so_far, 2), part.place());
            with_expr(with_integer(told, index), expr)
        }
        Stmt::SetResult(expr) => with_expr(with_byte(so_far, 3), expr),
        Stmt::Append(part, expr) => with_expr(with_byte(with_byte(so_far, 4), part.place()), expr),
        Stmt::Take(part) => with_byte(with_byte(so_far, 5), part.place()),
        Stmt::Store(part, key, expr) => {
            let told = with_byte(with_byte(so_far, 6), part.place());
            with_expr(with_text_of(told, key), expr)
        }
        Stmt::Erase(part, key) => with_text_of(with_byte(with_byte(so_far, 7), part.place()), key),
        Stmt::If(condition, first, second) => {
            let told = with_condition(with_byte(so_far, 8), condition);
            with_statement(with_statement(told, first), second)
        }
        Stmt::Refuse(word) => with_text(with_byte(so_far, 9), word.letters()),
    }
}

#[cycle(saying)]
fn with_block(so_far: u64, all: &[Stmt]) -> u64 {
    let mut told = with_number(so_far, all.len() as u64);
    for statement in all {
        told = with_statement(told, statement);
    }
    told
}

fn with_reply(so_far: u64, reply: Option<Elem>) -> u64 {
    match reply {
        Some(sort) => with_sort(with_byte(so_far, 1), sort),
        None => with_byte(so_far, 2),
    }
}

fn with_operation(so_far: u64, operation: &Operation) -> u64 {
    let told = with_text(so_far, operation.name.as_bytes());
    let told = with_reply(with_params(told, &operation.params), operation.result);
    with_block(told, &operation.body)
}

#[cycle(walking)]
fn with_node(so_far: u64, node: &Node) -> u64 {
    match node {
        Node::Name(op) => with_number(with_byte(so_far, 1), u64::from(*op)),
        Node::List(members) => with_members(with_byte(so_far, 2), members),
        Node::Sequence(members) => with_members(with_byte(so_far, 3), members),
        Node::Bound(limit, inner) => {
            with_node(with_number(with_byte(so_far, 4), u64::from(*limit)), inner)
        }
        Node::Burst(inner) => with_node(with_byte(so_far, 5), inner),
    }
}

#[cycle(walking)]
fn with_members(so_far: u64, members: &Members) -> u64 {
    match members {
        Members::Two(first, second) => { with_node(with_node(with_byte(so_far, 1), first), second) }
        Members::More(first, rest) => with_members(with_node(with_byte(so_far, 2), first), rest),
    }
}

fn with_paths(so_far: u64, paths: &[PathTree]) -> u64 {
    let mut told = with_number(so_far, paths.len() as u64);
    for path in paths {
        told = with_node(told, path.root());
    }
    told
}

fn with_operations(so_far: u64, operations: &[Arc<Operation>]) -> u64 {
    let mut told = with_number(so_far, operations.len() as u64);
    for operation in operations {
        told = with_operation(told, operation);
    }
    told
}

/// A number of 64 bits that the declaration of an object gives: its name, its parts, its operations with their bodies,
/// and its paths. Where only layout, comments, the case of letters in names, or constants by other names change, it
/// stays. Declarations that differ have different numbers but by chance; nobody is kept from making two that have the
/// same.
pub fn source_of(object: &Object) -> u64 {
    let told = with_parts(with_text(NOTHING, object.name.as_bytes()), &object.parts);
    with_paths(with_operations(told, &object.operations), &object.paths)
}
