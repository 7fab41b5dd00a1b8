//! What is found, as data, and the one function that writes it.

use crate::case::{Case, all_ops, name_of};
use crate::finding::push_shown;
use crate::line_words::LineWords;
use crate::op_set::OpSet;
use crate::page::{Page, push_help, push_note};
use crate::said::{Message, MessageWords, push_sentence, say};
use crate::span::{Span, span_of, text_at};
use crate::tokens::tokens_from;
use decl_core::object::{Object, Operation, Param};
use itoa::Buffer;
use path_tree::node::OpId;
use path_tree::token::Token;
use std::alloc::{AllocError, Global};
use value_core::kind::Elem;
use value_core::value::Value;
use word_core::show::push_value;

// The most bytes of a value that are shown.
const MOST_SHOWN: usize = 200;

/// What is made, or that memory was refused.
pub type Allocated<T> = Result<T, AllocError>;

/// How names of operations stand beside one another: what stands between two, and between the last two.
#[derive(Clone, Copy)]
pub enum Joint {
    And,
    Or,
    Comma,
    Space,
}

/// What stands in the sentences of a diagnostic for one of their signs.
#[derive(Clone, Copy)]
pub enum Piece<'a> {
    /// Bytes as they are, or as a sentence shows a word of a text.
    Bytes(&'a [u8]),
    Word(&'a [u8]),
    Number(u64),
    /// The name of an operation of the object that it is about, or of some of them.
    Name(OpId),
    Names(OpSet, Joint),
    /// The names of the operations of an object.
    Operations(&'a Object),
    /// The parameters of an operation, as they are declared, in parentheses.
    Params(&'a Operation),
    /// A value as it is shown, or its front.
    Value(&'a Value),
}

pub const NO_PIECE: Piece<'static> = Piece::Bytes(b"");

/// What is found: a place, a sentence, and what helps. In both sentences `%`, `$` and `@` stand for pieces.
#[derive(Clone, Copy)]
pub struct Diagnostic<'a> {
    /// Where it stands. Without a place its sentence is one that helps, too.
    pub place: Option<Span>,
    /// What helps is empty where nothing is said of that.
    pub said: Message,
    pub first: Piece<'a>,
    pub second: Piece<'a>,
    pub third: Piece<'a>,
    /// The object that it is about: for `#` stands its name. Where it is about none `#` stands for itself.
    pub about: Option<&'a Object>,
}

/// A diagnostic, if something is wrong, and one that stands behind it.
pub type Both<'a> = (Option<Diagnostic<'a>>, Option<Diagnostic<'a>>);

impl<'a> Diagnostic<'a> {
    /// What is found at a place, where `%` stands for these bytes.
    pub fn at(place: Option<Span>, said: Message, first: &'a [u8]) -> Diagnostic<'a> {
        Diagnostic {
            place,
            said,
            first: Piece::Bytes(first),
            second: NO_PIECE,
            third: NO_PIECE,
            about: None,
        }
    }

    /// What is found where this stands in a line, which `%` stands for.
    pub fn there(words: &LineWords<'a>, span: Span, said: Message) -> Diagnostic<'a> {
        Diagnostic {
            first: Piece::Word(text_at(words.text, span)),
            ..Diagnostic::at(Some(span), said, b"")
        }
    }

    /// The same, where `$` and `@` stand for these pieces.
    pub fn with(self, second: Piece<'a>, third: Piece<'a>) -> Diagnostic<'a> {
        Diagnostic {
            second,
            third,
            ..self
        }
    }
}

/// A sentence without a place, with one thing in it.
pub(crate) fn with_one<'a>(sentence: &'static str, first: Piece<'a>) -> Diagnostic<'a> {
    Diagnostic {
        first,
        ..Diagnostic::at(None, say(sentence, ""), b"")
    }
}

/// What is said of the token of this number, if there is one.
pub(crate) fn at_token<'a>(
    tokens: &[Token],
    at: usize,
    said: Diagnostic<'a>,
) -> Option<Diagnostic<'a>> {
    match tokens_from(tokens, at) {
        [token, ..] => Some(Diagnostic {
            place: Some(span_of(token)),
            ..said
        }),
        [] => None,
    }
}

impl Joint {
    // What stands before a name, which is the first one, or the last one.
    fn sign(self, is_first: bool, is_last: bool) -> &'static [u8] {
        match self {
            _ if is_first => b"",
            Joint::And if is_last => b"` and `",
            Joint::Or if is_last => b"` or `",
            Joint::And | Joint::Or => b"`, `",
            Joint::Comma => b", ",
            Joint::Space => b" ",
        }
    }
}

// The name of an operation of an object, if there is one.
fn name_in(about: Option<&Object>, op: OpId) -> &[u8] {
    match about {
        Some(object) => name_of(object, op),
        None => b"",
    }
}

// Adds the names of operations.
fn push_names(
    out: &mut Vec<u8>,
    about: Option<&Object>,
    ops: &[OpId],
    joint: Joint,
) -> Allocated<()> {
    for (at, op) in ops.iter().enumerate() {
        let is_last = at.saturating_add(1) == ops.len();
        out.extend_from_slice(joint.sign(at == 0, is_last))?;
        out.extend_from_slice(name_in(about, *op))?;
    }
    Ok(())
}

// Adds a parameter as it is declared, behind this sign.
fn push_param(out: &mut Vec<u8>, sign: &[u8], param: &Param) -> Allocated<()> {
    out.extend_from_slice(sign)?;
    out.extend_from_slice(param.name.as_bytes())?;
    match param.kind {
        Elem::Integer => out.extend_from_slice(b" : integer"),
        Elem::Text => out.extend_from_slice(b" : text"),
    }
}

// Adds the parameters of an operation, as they are declared, in parentheses, if it has some.
fn push_params(out: &mut Vec<u8>, operation: &Operation) -> Allocated<()> {
    let mut sign: &[u8] = b"(";
    for param in operation.params.iter() {
        push_param(out, sign, param)?;
        sign = b"; ";
    }
    if operation.params.is_empty() {
        return Ok(());
    }
    out.extend_from_slice(b")")
}

// Adds a value as it is shown, or its front, to an empty text.
fn push_front(out: &mut Vec<u8>, value: &Value) -> Allocated<()> {
    push_value(*out.allocator(), out, value)?;
    if out.len() > MOST_SHOWN {
        out.truncate(MOST_SHOWN);
        out.extend_from_slice(b" ..")?;
    }
    Ok(())
}

// Adds a piece to an empty text.
fn push_piece(out: &mut Vec<u8>, about: Option<&Object>, piece: Piece<'_>) -> Allocated<()> {
    let mut buffer = Buffer::new();
    match piece {
        Piece::Bytes(bytes) => out.extend_from_slice(bytes),
        Piece::Word(bytes) => push_shown(out, bytes),
        Piece::Number(number) => out.extend_from_slice(buffer.format(number).as_bytes()),
        Piece::Name(op) => out.extend_from_slice(name_in(about, op)),
        Piece::Names(ops, joint) => push_names(out, about, ops.all(), joint),
        Piece::Operations(object) => {
            push_names(out, Some(object), all_ops(object).all(), Joint::Comma)
        }
        Piece::Params(operation) => push_params(out, operation),
        Piece::Value(value) => push_front(out, value),
    }
}

// The text of a piece.
fn piece_text(alloc: Global, about: Option<&Object>, piece: Piece<'_>) -> Allocated<Vec<u8>> {
    let mut text = Vec::new(alloc);
    push_piece(&mut text, about, piece)?;
    Ok(text)
}

// The texts of its pieces.
#[derive(Drop)]
struct PieceTexts {
    first: Vec<u8>,
    second: Vec<u8>,
    third: Vec<u8>,
}

fn texts_of(alloc: Global, found: Diagnostic<'_>) -> Allocated<PieceTexts> {
    let first = piece_text(alloc, found.about, found.first)?;
    let second = piece_text(alloc, found.about, found.second)?;
    let third = piece_text(alloc, found.about, found.third)?;
    Ok(PieceTexts {
        first,
        second,
        third,
    })
}

// What stands for the signs of its sentences.
fn words_of<'a>(texts: &'a PieceTexts, about: Option<&'a Object>) -> MessageWords<'a> {
    MessageWords {
        first: &texts.first,
        second: &texts.second,
        third: &texts.third,
        fourth: match about {
            Some(object) => object.name.as_bytes(),
            None => b"#",
        },
    }
}

// Adds a diagnostic with these words.
fn push_with(
    out: &mut Vec<u8>,
    page: Page<'_>,
    found: Diagnostic<'_>,
    words: MessageWords<'_>,
) -> Allocated<()> {
    match found.place {
        Some(span) => push_note(out, page, span, found.said.sentence, words)?,
        None => push_help(out, found.said.sentence, words)?,
    }
    if found.said.help.is_empty() {
        return Ok(());
    }
    push_help(out, found.said.help, words)
}

/// Adds a diagnostic.
pub fn push(out: &mut Vec<u8>, page: Page<'_>, found: Diagnostic<'_>) -> Allocated<()> {
    let texts = texts_of(*out.allocator(), found)?;
    push_with(out, page, found, words_of(&texts, found.about))
}

/// Adds two of them, as far as there are some.
pub fn push_both(out: &mut Vec<u8>, page: Page<'_>, found: Both<'_>) -> Allocated<()> {
    if let Some(first) = found.0 {
        push(out, page, first)?;
    }
    match found.1 {
        Some(second) => push(out, page, second),
        None => Ok(()),
    }
}

/// Adds what is found of an object, if something is.
pub(crate) fn push_found(
    out: &mut Vec<u8>,
    case: Case<'_>,
    found: Option<Diagnostic<'_>>,
) -> Allocated<()> {
    match found {
        Some(found) => push(
            out,
            case.page,
            Diagnostic {
                about: Some(case.object),
                ..found
            },
        ),
        None => Ok(()),
    }
}

/// Adds a sentence on an object alone, with what stands in it.
pub(crate) fn push_phrase(
    out: &mut Vec<u8>,
    object: &Object,
    found: Diagnostic<'_>,
) -> Allocated<()> {
    let about = Some(object);
    let texts = texts_of(*out.allocator(), Diagnostic { about, ..found })?;
    push_sentence(out, found.said.sentence, words_of(&texts, about))
}

/// The text of a sentence on an object, with what stands in it.
pub(crate) fn text_of(case: Case<'_>, found: Diagnostic<'_>) -> Allocated<Vec<u8>> {
    let mut text = Vec::new(case.alloc);
    push_phrase(&mut text, case.object, found)?;
    Ok(text)
}
