//! The lines with which `pathserve paths` shows what is lost.

use crate::case::{Case, all_ops, limit_at, paths_of};
use crate::diagnostic::{
    Allocated, Diagnostic, Joint, NO_PIECE, Piece, push_found, push_phrase, with_one,
};
use crate::span::{span_of, text_at};
use crate::stuck_explain::Loss;
use crate::tokens::{ends, first_tokens, is_any_name, tokens_from};
use decl_core::object::Object;
use path_tree::node::OpId;
use path_tree::token::{Symbol, Token, TokenKind};

// The most calls that are shown.
const MOST_SHOWN: usize = 16;

const FEW: &str =
    "to see it, give `pathserve paths` these lines; each start at their end is blocked";

const MANY: &str =
    "`pathserve paths` shows it: give it the paths, a start and a finish of each call, and a start of what is lost";

// How a token of the paths is set; `is_behind` of what closes a path behind its `end`.
fn setting_of(token: &Token, is_behind: bool) -> &'static str {
    match &token.kind {
        TokenKind::Symbol(_) if is_behind => "",
        TokenKind::Symbol(Symbol::Path) => "      | % ",
        TokenKind::Symbol(Symbol::End) => " %\n",
        TokenKind::Symbol(Symbol::Comma | Symbol::Semicolon) => "% ",
        _ => "%",
    }
}

// The text of the token of this number of the paths: of a constant before a colon its value.
fn text_at_token<'a>(case: Case<'a>, paths: &[Token], number: usize) -> Diagnostic<'a> {
    let here = tokens_from(paths, number);
    let [token, ..] = here else {
        return with_one("", NO_PIECE);
    };
    let words = match limit_at(case.tokens, here) {
        Some((_, value)) if is_any_name(token) => Piece::Number(value as u64),
        _ => Piece::Bytes(text_at(case.page.source, span_of(token))),
    };
    let is_behind = ends(first_tokens(paths, number), Symbol::End);
    with_one(setting_of(token, is_behind), words)
}

// Adds the lines of the paths.
fn push_paths(out: &mut Vec<u8>, case: Case<'_>) -> Allocated<()> {
    let paths = paths_of(case.tokens);
    for number in 0..paths.len() {
        push_phrase(out, case.object, text_at_token(case, paths, number))?;
    }
    Ok(())
}

// Adds a sentence for each of some operations.
fn push_each(
    out: &mut Vec<u8>,
    object: &Object,
    ops: &[OpId],
    sentence: &'static str,
) -> Allocated<()> {
    for op in ops {
        push_phrase(out, object, with_one(sentence, Piece::Name(*op)))?;
    }
    Ok(())
}

// Adds the lines.
fn push_lines(out: &mut Vec<u8>, loss: Loss<'_>) -> Allocated<()> {
    let object = loss.case.object;
    let names = Piece::Names(all_ops(object), Joint::Space);
    push_phrase(out, object, with_one("      | ops %\n", names))?;
    push_paths(out, loss.case)?;
    push_each(
        out,
        object,
        loss.calls,
        "      | start %\n      | finish %\n",
    )?;
    push_each(out, object, loss.lost.all(), "      | start %\n")
}

/// Adds the lines, where the calls are few.
pub(crate) fn push_shown(out: &mut Vec<u8>, loss: Loss<'_>) -> Allocated<()> {
    let is_few = loss.calls.len() <= MOST_SHOWN;
    let sentence = if is_few { FEW } else { MANY };
    push_found(out, loss.case, Some(with_one(sentence, NO_PIECE)))?;
    if is_few {
        push_lines(out, loss)
    } else {
        Ok(())
    }
}
