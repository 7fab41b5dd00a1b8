//! What stands before a `;` of a path, and behind one.

use crate::around::{closing, is_one};
use crate::case::{Case, count_of, limit_at, name_of, path_tokens};
use crate::diagnostic::{Allocated, Diagnostic, Piece, at_token, push_found};
use crate::op_set::{OpSet, no_ops};
use crate::refused::{EMPTY, FULL, INDEX, MISSING, RANGE, words_of};
use crate::said::say;
use crate::span::{behind, front, span_of, text_at};
use crate::tokens::{find_name, first_tokens, is_symbol, section, tokens_from};
use path_tree::node::OpId;
use path_tree::token::{Symbol, Token, TokenKind};

// A part has at most so many elements: where a bound lets fewer calls be ahead, it is not full.
const MOST_ELEMENTS: usize = 1_024;

// What opens a level of a path, and what closes one.
const OPENS: [Symbol; 2] = [Symbol::OpenParen, Symbol::OpenBracket];

const CLOSES: [Symbol; 2] = [Symbol::CloseParen, Symbol::CloseBracket];

// Where a walk over a path from one of its tokens is, at the levels around it.
#[derive(Clone, Copy)]
struct PathLevel {
    // how many levels are open that do not hold the token
    depth: usize,
    // whether a comma has ended the sequence that holds it at this level
    is_over: bool,
}

// The level behind a token, where these symbols open one on the way and those close it.
fn level_behind(token: &Token, level: PathLevel, opens: &[Symbol], closes: &[Symbol]) -> PathLevel {
    if is_one(token, opens) {
        PathLevel {
            depth: level.depth.saturating_add(1),
            ..level
        }
    } else if is_one(token, closes) {
        PathLevel {
            depth: level.depth.saturating_sub(1),
            is_over: level.is_over && level.depth > 0,
        }
    } else {
        PathLevel {
            is_over: level.is_over || level.depth == 0 && is_symbol(token, Symbol::Comma),
            ..level
        }
    }
}

// Whether a token is a `;` of a sequence that holds the token from which a walk began.
fn is_sequence(token: &Token, level: PathLevel) -> bool {
    level.depth == 0 && !level.is_over && is_symbol(token, Symbol::Semicolon)
}

const BEGUN: PathLevel = PathLevel {
    depth: 0,
    is_over: false,
};

/// The number of the `;` of a path before which its token of this number stands, if there is one.
pub(crate) fn semicolon_behind(path: &[Token], at: usize) -> Option<usize> {
    let mut level = BEGUN;
    for (count, token) in path.iter().enumerate() {
        if count > at {
            if is_sequence(token, level) {
                return Some(count);
            }
            level = level_behind(token, level, &OPENS, &CLOSES);
        }
    }
    None
}

// Whether the token behind these of a path stands behind a `;`.
fn is_behind_semicolon(before: &[Token]) -> bool {
    let mut level = BEGUN;
    for token in before.iter().rev() {
        if is_sequence(token, level) {
            return true;
        }
        level = level_behind(token, level, &CLOSES, &OPENS);
    }
    false
}

// Whether the bound that begins here is at most as large as a part has elements.
fn is_small(object: &[Token], here: &[Token]) -> bool {
    match limit_at(object, here) {
        Some((_, limit)) => limit <= MOST_ELEMENTS,
        None => false,
    }
}

// Whether such a bound stands around the tokens of these numbers.
fn is_bounded(object: &[Token], path: &[Token], first: usize, last: usize) -> bool {
    for number in 0..first {
        let inside = tokens_from(first_tokens(path, last), number.saturating_add(2));
        if closing(inside).is_none() && is_small(object, tokens_from(path, number)) {
            return true;
        }
    }
    false
}

// The words that a path rules out for an operation: `empty` where it makes it wait for another one, and `full` where it lets
// few of its calls be ahead.
fn ruled_out(object: &[Token], path: &[Token], name: &[u8]) -> u8 {
    let at = match find_name(path, name) {
        Some(at) => at,
        None => return 0,
    };
    let empty = if is_behind_semicolon(first_tokens(path, at)) {
        EMPTY
    } else {
        0
    };
    match semicolon_behind(path, at) {
        Some(sign) if is_bounded(object, path, at, sign) => empty | FULL,
        _ => empty,
    }
}

// The words of the language by which an operation can be refused, but for those that a path rules out.
fn language_words(case: Case<'_>, op: OpId) -> u8 {
    let mut words = match case.object.operations.get(usize::from(op)) {
        Some(operation) => words_of(operation),
        None => 0,
    };
    for number in 0..case.object.paths.len() {
        let path = path_tokens(case.tokens, number);
        words = words & !ruled_out(case.tokens, path, name_of(case.object, op));
    }
    words
}

// ---- words ----

// The words of the language, by their bits.
const LANGUAGE: [(u8, &[u8]); 5] = [
    (INDEX, b"index"),
    (EMPTY, b"empty"),
    (FULL, b"full"),
    (MISSING, b"missing"),
    (RANGE, b"range"),
];

// The word of a `refuse` that begins here, without its apostrophes.
fn own_word<'a>(source: &'a [u8], here: &[Token]) -> Option<&'a [u8]> {
    match here {
        [verb, _, word, ..] => match (is_symbol(verb, Symbol::Refuse), &word.kind) {
            (true, TokenKind::Text(_)) => {
                let text = behind(text_at(source, span_of(word)), 1);
                Some(front(text, text.len().saturating_sub(1)))
            }
            _ => None,
        },
        _ => None,
    }
}

// Adds a word that is none of those before.
fn push_word<'a>(words: &mut Vec<&'a [u8]>, word: &'a [u8]) -> Allocated<()> {
    for other in words.iter() {
        if *other == word {
            return Ok(());
        }
    }
    words.push(word)?;
    Ok(())
}

// The words by which an operation can be refused: its own, and those of the language.
fn words_in<'a>(case: Case<'a>, op: OpId) -> Allocated<Vec<&'a [u8]>> {
    let mut words = Vec::new(case.alloc);
    let entry = section(case.tokens, Symbol::Entry, usize::from(op));
    for count in 0..entry.len() {
        if let Some(word) = own_word(case.page.source, tokens_from(entry, count)) {
            push_word(&mut words, word)?;
        }
    }
    let language = language_words(case, op);
    for (bit, word) in LANGUAGE {
        if language & bit != 0 {
            push_word(&mut words, word)?;
        }
    }
    Ok(words)
}

// What stands before a word, which is the first one, or the last one.
fn sign_before(is_first: bool, is_last: bool) -> &'static [u8] {
    if is_first {
        b""
    } else if is_last {
        b"` or `"
    } else {
        b"`, `"
    }
}

/// The words by which an operation can be refused, as they stand in a sentence between two signs; none where it cannot be.
pub(crate) fn refusals(case: Case<'_>, op: OpId) -> Allocated<Vec<u8>> {
    let words = words_in(case, op)?;
    let mut text = Vec::new(case.alloc);
    for (at, word) in words.iter().enumerate() {
        let is_last = at.saturating_add(1) == words.len();
        text.extend_from_slice(sign_before(at == 0, is_last))?;
        text.extend_from_slice(word)?;
    }
    Ok(text)
}

// ---- the trap ----

// Adds what is said of an operation before a `;`, at its name in the path, if it can be refused.
fn push_trap(
    out: &mut Vec<u8>,
    case: Case<'_>,
    path: &[Token],
    at: usize,
    op: OpId,
) -> Allocated<()> {
    let words = refusals(case, op)?;
    if words.is_empty() {
        return Ok(());
    }
    let said = say(
        "`%` can be refused as `$` before a `;`: a refused call counts",
        "what stands behind the `;` may start for it all the same: docs/LANGUAGE.md (\"The trap of a `;`\") has what helps",
    );
    let found = Diagnostic::at(None, said, b"").with(Piece::Bytes(&words), Piece::Bytes(b""));
    let found = Diagnostic {
        first: Piece::Name(op),
        ..found
    };
    push_found(out, case, at_token(path, at, found))
}

// Adds what is said of the operations that a path has before a `;`, but for those that were told; gives these with them.
fn push_traps_of(
    out: &mut Vec<u8>,
    case: Case<'_>,
    path: &[Token],
    told: OpSet,
) -> Allocated<OpSet> {
    let mut all = told;
    for op in 0..count_of(case.object) {
        if let Some(at) = find_name(path, name_of(case.object, op)) {
            if !all.has(op) && semicolon_behind(path, at).is_some() {
                push_trap(out, case, path, at, op)?;
                all = all.with(op);
            }
        }
    }
    Ok(all)
}

/// Adds what is said of each operation of an object that stands before a `;` and can be refused, in the first path where it
/// does.
pub(crate) fn push_traps(out: &mut Vec<u8>, case: Case<'_>) -> Allocated<()> {
    let mut told = no_ops();
    for number in 0..case.object.paths.len() {
        told = push_traps_of(out, case, path_tokens(case.tokens, number), told)?;
    }
    Ok(())
}
