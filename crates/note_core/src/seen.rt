//! What is looked at where a fault is told: the tokens before it and behind, and what they are a part of.

use crate::name::{Sort, What, declared, sort_of};
use crate::span::front;
use crate::tokens::{
    begins, count_of, count_to, ends_number, ends_value, first_tokens, from_last, from_symbol,
    is_at_end, is_at_name, is_at_word, is_symbol, name_of, tokens_from,
};
use path_tree::name::is_word_byte;
use path_tree::token::{Symbol, Token, TokenKind};

// What ends the constants of an object.
const ENDS_OF_CONSTANTS: [Symbol; 4] = [Symbol::Path, Symbol::Var, Symbol::Entry, Symbol::End];

// The most `not` that are looked through.
const MOST_NOTS: usize = 32;

/// Where a token stands.
#[derive(Clone, Copy)]
pub(crate) enum Where {
    /// The place of the fault, and behind its token.
    Here,
    Next,
    /// Behind the value that begins there.
    Behind,
    /// Before it: the last token, the one before that, and the one before that.
    Last,
    Last2,
    Last3,
    /// Behind the `if` whose condition is open, and each `not` that follows it.
    Plain,
    /// The last `entry` before it in its object, and behind it; the last `var`.
    Entry,
    Kind,
    Var,
    /// Behind the last semicolon, and behind the first token there.
    Rule,
    InRule,
}

/// What may be so of a place.
#[derive(Clone, Copy, PartialEq, Eq)]
pub(crate) enum Fact {
    /// It is among constants, in a path, in a condition.
    Constants,
    Path,
    Condition,
    /// In that condition more opens than closes.
    Open,
    /// It is in no operation, in the parentheses of the head of one, behind the name and these, in its body.
    Outside,
    Params,
    Head,
    Body,
    /// The name is declared above, as a part, as an array, as an operation.
    Part,
    Array,
    Operation,
    /// It is the name of the function itself.
    Own,
    /// The same two of the last name before.
    LastOperation,
    LastOwn,
    /// The name is that of an operation which follows.
    Follows,
    /// An expression begins whose values are integers, or texts.
    Integer,
    Text,
    /// The byte is of a name, is a character of ASCII, is a sign other than `}`.
    InName,
    Printed,
    Sign,
    /// The byte behind it is a digit, a letter.
    Digit,
    Letter,
}

/// What is looked at.
#[derive(Clone, Copy)]
pub(crate) struct Near<'t> {
    /// The tokens before the fault.
    pub before: &'t [Token],
    /// Those from it on.
    pub here: &'t [Token],
    /// The source from it on, of a fault of the tokens.
    pub bytes: &'t [u8],
}

// The last of some tokens, so many; none where there are fewer.
fn last_ones(tokens: &[Token], count: usize) -> &[Token] {
    if count <= tokens.len() {
        tokens_from(tokens, tokens.len() - count)
    } else {
        &[]
    }
}

// The text of a word, a sign or a name.
fn text_of(token: &Token) -> &[u8] {
    match &token.kind {
        TokenKind::Symbol(symbol) => symbol.text(),
        TokenKind::Name(name) => name.as_bytes(),
        _ => b"",
    }
}

// Whether the first of some tokens is this one, or of this kind.
fn is_one(here: &[Token], word: &[u8]) -> bool {
    let first = first_tokens(here, 1);
    match word {
        b"NONE" => is_at_end(here),
        b"NAME" => is_at_name(here),
        b"NUMBER" => ends_number(first),
        b"VALUE" => ends_value(first),
        b"WORD" => is_at_word(here),
        _ => match first {
            [token, ..] => text_of(token) == word,
            [] => false,
        },
    }
}

// The tokens from the `if` on whose condition these tokens end in, or none: no `then` and no `;` stands after it.
fn open_condition(before: &[Token]) -> &[Token] {
    let here = from_last(before, Symbol::If);
    if begins(here, Symbol::If)
        && count_to(here, Symbol::Then) == here.len()
        && count_to(here, Symbol::Semicolon) == here.len()
    {
        here
    } else {
        &[]
    }
}

// What stands after `if`, and after each `not` that follows it.
fn plain_condition(condition: &[Token]) -> &[Token] {
    let mut here = tokens_from(condition, 1);
    for _ in 0..MOST_NOTS {
        if begins(here, Symbol::Not) {
            here = tokens_from(here, 1);
        }
    }
    here
}

// Whether more of one symbol than of another stands in these tokens.
fn is_more(tokens: &[Token], one: Symbol, other: Symbol) -> bool {
    count_of(tokens, one) > count_of(tokens, other)
}

// What stands behind the value that begins here.
fn behind_value(here: &[Token]) -> &[Token] {
    if begins(here, Symbol::First) || begins(here, Symbol::Lookup) {
        tokens_from(from_symbol(here, Symbol::CloseParen, 0), 1)
    } else if begins(tokens_from(here, 1), Symbol::OpenBracket) {
        tokens_from(from_symbol(here, Symbol::CloseBracket, 0), 1)
    } else {
        tokens_from(here, 1)
    }
}

// Whether a symbol stands before, and none of those that would end what it opens stands behind the last one.
fn is_among(before: &[Token], opening: Symbol, closing: &[Symbol]) -> bool {
    let here = from_last(before, opening);
    for symbol in closing {
        if count_of(here, *symbol) > 0 {
            return false;
        }
    }
    begins(here, opening)
}

// Where the last of some tokens stands, as to operations.
fn within(before: &[Token]) -> Fact {
    let head = from_last(before, Symbol::Entry);
    let begun = count_of(head, Symbol::Begin);
    if !begins(head, Symbol::Entry)
        || head.len() < 3
        || begun > 0 && begun <= count_of(head, Symbol::End)
    {
        Fact::Outside
    } else if begun > 0 {
        Fact::Body
    } else if is_more(head, Symbol::OpenParen, Symbol::CloseParen) {
        Fact::Params
    } else {
        Fact::Head
    }
}

// Whether a token is a word that the name of an operation follows.
fn begins_operation(token: &Token) -> bool {
    is_symbol(token, Symbol::Procedure) || is_symbol(token, Symbol::Function)
}

/// Where these tokens declare an operation of this name without `entry`: from the word before its name on.
pub(crate) fn bare_declaration<'t>(tokens: &'t [Token], name: &[u8]) -> &'t [Token] {
    let mut has_entry = false;
    for (count, token) in tokens.iter().enumerate() {
        if begins_operation(token)
            && !has_entry
            && name_of(tokens_from(tokens, count + 1)) == name
        {
            return tokens_from(tokens, count);
        }
        has_entry = is_symbol(token, Symbol::Entry);
    }
    &[]
}

// Whether one of these tokens, up to the next object, declares an operation of this name.
fn declares_operation(tokens: &[Token], name: &[u8]) -> bool {
    for (count, token) in tokens.iter().enumerate() {
        if is_symbol(token, Symbol::Object) {
            return false;
        }
        if begins_operation(token) && name_of(tokens_from(tokens, count + 1)) == name {
            return true;
        }
    }
    false
}

// Whether a name is that of the function in which the last of some tokens stands.
fn is_own_function(before: &[Token], name: &[u8]) -> bool {
    let head = from_last(before, Symbol::Entry);
    begins(tokens_from(head, 1), Symbol::Function) && name_of(tokens_from(head, 2)) == name
}

// Whether a name is declared before as this.
fn is_declared(before: &[Token], name: &[u8], as_what: What) -> bool {
    match declared(before, name) {
        Some((_, what)) => what == as_what,
        None => false,
    }
}

// Whether a name is declared before as an array.
fn is_array(before: &[Token], name: &[u8]) -> bool {
    match declared(before, name) {
        Some((found, What::Part)) => begins(
            tokens_from(from_symbol(found, Symbol::Colon, 0), 1),
            Symbol::Array,
        ),
        _ => false,
    }
}

// What the values of a name are.
fn sort_of_name(before: &[Token], name: &[u8]) -> Option<Sort> {
    let (found, what) = declared(before, name)?;
    sort_of(found, what)
}

// What the values are of the expression that begins here, as far as its first token tells.
fn sort_here(before: &[Token], here: &[Token]) -> Option<Sort> {
    let [token, rest @ ..] = here else {
        return None;
    };
    match &token.kind {
        TokenKind::Number(_) => Some(Sort::Integer),
        TokenKind::Text(_) => Some(Sort::Text),
        TokenKind::Name(name) => sort_of_name(before, name.as_bytes()),
        TokenKind::Symbol(s) => match s {
            Symbol::Count => Some(Sort::Integer),
            Symbol::First | Symbol::Lookup => sort_of_name(before, name_of(tokens_from(rest, 1))),
            _ => None,
        },
        TokenKind::EndMark => None,
    }
}

impl<'t> Near<'t> {
    // The tokens from a place on.
    fn at(self, place: Where) -> &'t [Token] {
        let object = from_last(self.before, Symbol::Object);
        let rule = tokens_from(from_last(self.before, Symbol::Semicolon), 1);
        match place {
            Where::Here => self.here,
            Where::Next => tokens_from(self.here, 1),
            Where::Behind => behind_value(self.here),
            Where::Last => last_ones(self.before, 1),
            Where::Last2 => last_ones(self.before, 2),
            Where::Last3 => last_ones(self.before, 3),
            Where::Plain => plain_condition(open_condition(self.before)),
            Where::Entry => from_last(object, Symbol::Entry),
            Where::Kind => tokens_from(from_last(self.before, Symbol::Entry), 1),
            Where::Var => from_last(object, Symbol::Var),
            Where::Rule => rule,
            Where::InRule => tokens_from(rule, 1),
        }
    }

    /// Whether one of these words and kinds stands at a place.
    pub(crate) fn is_any(self, place: Where, words: &str) -> bool {
        let here = self.at(place);
        for word in words.split_whitespace() {
            if is_one(here, word.as_bytes()) {
                return true;
            }
        }
        false
    }

    /// Whether the source goes on with one of these.
    pub(crate) fn goes_on(self, words: &str) -> bool {
        for word in words.split_whitespace() {
            if front(self.bytes, word.len()) == word.as_bytes() {
                return true;
            }
        }
        false
    }

    // Whether something is so of the first two bytes.
    fn has_byte(self, fact: Fact) -> bool {
        let [byte, behind @ ..] = self.bytes else {
            return false;
        };
        match fact {
            Fact::InName => is_word_byte(*byte),
            Fact::Printed => matches!(*byte, 32..=126),
            Fact::Sign => matches!(*byte, 33..=124 | 126) && !is_word_byte(*byte),
            Fact::Digit => matches!(behind, [b'0'..=b'9', ..]),
            Fact::Letter => matches!(behind, [b'A'..=b'Z', ..] | [b'a'..=b'z', ..]),
            _ => false,
        }
    }

    // Whether the name that is told, or the last one before, is declared so.
    fn has_name(self, fact: Fact) -> bool {
        let name = name_of(self.here);
        let last = name_of(last_ones(self.before, 1));
        match fact {
            Fact::Part => is_declared(self.before, name, What::Part),
            Fact::Array => is_array(self.before, name),
            Fact::Operation => is_declared(self.before, name, What::Operation),
            Fact::Own => is_own_function(self.before, name),
            Fact::LastOperation => is_declared(self.before, last, What::Operation),
            Fact::LastOwn => is_own_function(self.before, last),
            Fact::Follows => declares_operation(self.here, name),
            _ => false,
        }
    }

    /// Whether something is so here.
    pub(crate) fn has(self, fact: Fact) -> bool {
        let plain = self.at(Where::Plain);
        match fact {
            Fact::Constants => is_among(self.before, Symbol::Const, &ENDS_OF_CONSTANTS),
            Fact::Path => is_among(self.before, Symbol::Path, &[Symbol::End]),
            Fact::Condition => !open_condition(self.before).is_empty(),
            Fact::Open => is_more(plain, Symbol::OpenParen, Symbol::CloseParen)
                || is_more(plain, Symbol::OpenBracket, Symbol::CloseBracket),
            Fact::Outside | Fact::Params | Fact::Head | Fact::Body => within(self.before) == fact,
            Fact::Integer => sort_here(self.before, self.here) == Some(Sort::Integer),
            Fact::Text => sort_here(self.before, self.here) == Some(Sort::Text),
            _ => self.has_byte(fact) || self.has_name(fact),
        }
    }
}
