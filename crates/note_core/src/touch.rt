//! Where an operation touches a part.

use crate::around::{closing, is_one};
use crate::span::Span;
use crate::tokens::{begins, is_name, tokens_from};
use path_tree::token::{Symbol, Token};

/// Where an operation touches a part: the statement that changes it, or the place that reads it.
#[derive(Clone, Copy)]
pub(crate) struct Touch {
    pub span: Span,
    /// Whether it is changed there.
    pub writes: bool,
}

// The words that change the part behind them.
const CHANGES: [Symbol; 4] = [Symbol::Append, Symbol::Take, Symbol::Store, Symbol::Erase];

// The words that read it.
const LOOKS: [Symbol; 4] = [Symbol::First, Symbol::Lookup, Symbol::Count, Symbol::Has];

// What a statement ends before.
const ENDS: [Symbol; 3] = [Symbol::Semicolon, Symbol::End, Symbol::Else];

// Whether behind the index that begins here stands `:=`.
fn is_assigned(here: &[Token]) -> bool {
    match closing(here) {
        Some(count) => begins(here, Symbol::OpenBracket)
            && begins(tokens_from(here, count.saturating_add(1)), Symbol::Assign),
        None => false,
    }
}

// The byte up to which the statement goes that these tokens are in.
fn statement_end(start: usize, tokens: &[Token]) -> usize {
    let mut end = start;
    for token in tokens {
        if is_one(token, &ENDS) {
            return end;
        }
        end = token.end;
    }
    end
}

// How a name, two tokens behind `verb`, touches the part; the tokens behind it are these.
fn touch_at(verb: &Token, name: &Token, behind: &[Token]) -> Touch {
    let changes = is_one(verb, &CHANGES);
    let writes = changes || is_assigned(behind);
    let start = if changes || is_one(verb, &LOOKS) {
        verb.start
    } else {
        name.start
    };
    let end = if writes {
        statement_end(name.end, behind)
    } else {
        name.end
    };
    Touch {
        span: Span { start, end },
        writes,
    }
}

// A place that changes the part is told before one that reads it, and else the first.
fn first_of(so_far: Option<Touch>, here: Touch) -> Option<Touch> {
    match so_far {
        None => Some(here),
        Some(touch) => if here.writes && !touch.writes {
            Some(here)
        } else {
            Some(touch)
        },
    }
}

/// The first statement of an operation that changes a part, or else the first place where it reads it.
pub(crate) fn touch_of(operation: &[Token], part: &[u8]) -> Option<Touch> {
    let mut found = None;
    for count in 0..operation.len() {
        match tokens_from(operation, count) {
            [verb, _, name, behind @ ..] => if is_name(name, part) {
                found = first_of(found, touch_at(verb, name, behind));
            },
            _ => return found,
        }
    }
    found
}
