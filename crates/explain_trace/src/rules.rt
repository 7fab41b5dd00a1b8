//! What the words of lines have to be, and what is said where one is something else.

use note_core::diagnostic::{Diagnostic, NO_PIECE, Piece};
use note_core::finding::first_other;
use note_core::line_words::LineWords;
use note_core::said::{Message, say};
use note_core::span::Span;
use path_tree::name::is_identifier;
use value_core::words::is_same_word;
use word_core::number::{integer_of, session_of};

/// The most that a call of a trace may be numbered, and a session.
pub(crate) const MOST_CALLS: u32 = 65_536;

const MOST_SESSIONS: u32 = 1_024;

/// What a word has to be.
#[derive(Clone, Copy)]
pub(crate) enum Want {
    /// A session, by `s` and a number; one that a trace can have.
    Session,
    KnownSession,
    /// The number of a call; one that a trace can have.
    Number,
    KnownNumber,
    /// The key of a call, by `#` and a number; no key.
    Key,
    NoKey,
    /// The name of an operation; a word that can stand for one.
    Name,
    Bare,
    /// One of these words, with a space between two; the word by which a call was refused.
    OneOf(&'static str),
    Refusal,
    /// This word and all behind it are integers and texts.
    Data,
    /// The line ends before it.
    Nothing,
}

/// A rule for a word: what it has to be; what is said where there is none, and helps, unless another rule tells that; what is
/// said of another word, and helps.
#[derive(Clone, Copy)]
pub(crate) struct WordRule(
    pub Want,
    pub &'static str,
    pub &'static str,
    pub &'static str,
    pub &'static str,
);

/// Rules for the words of a line, by their numbers; the first one that is broken is told.
pub(crate) type WordRules = &'static [(usize, WordRule)];

/// First words of lines, with a space between two, and what is said of each, and helps.
pub(crate) type FirstWords = &'static [(&'static str, &'static str, &'static str)];

/// What helps where the form of a line does, which `$` stands for.
pub(crate) const FORM: &str = "the line is $";

pub(crate) const SESSION: WordRule = WordRule(
    Want::Session,
    "a session is missing here",
    "it is `s` and a number: `s1`, `s2` and so on",
    "`%` is not a session",
    "a session is `s` and a number: `s1`, `s2` and so on",
);

pub(crate) const NUMBER: WordRule = WordRule(
    Want::Number,
    "the number of a call is missing here",
    "calls are counted from 1, as they are made",
    "`%` is not the number of a call",
    "calls are counted from 1, as they are made",
);

pub(crate) const DATA: WordRule = WordRule(
    Want::Data,
    "",
    "",
    "`%` is neither an integer nor a text",
    "an integer is 0 to 4294967295, in digits; a text stands in apostrophes, as in 'tea'",
);

pub(crate) const NOTHING: WordRule = WordRule(
    Want::Nothing,
    "",
    "",
    "`%` is too much in this line",
    FORM,
);

const NO_WORD: &str = "this is not a text";

const NO_WORD_HELP: &str =
    "a text stands in apostrophes, as in 'tea', has at most 1000 bytes of 32 to 126, and a space comes after it; \
        in it an apostrophe is written twice";

// Whether a word is one of these, which have a space between two.
fn is_one_of(word: &[u8], words: &str) -> bool {
    for one in words.split_whitespace() {
        if is_same_word(one.as_bytes(), word) {
            return true;
        }
    }
    false
}

// Whether a word can be one by which a call was refused.
fn is_refusal(word: &[u8]) -> bool {
    !word.is_empty() && word.len() <= 16 && word.iter().all(|byte| byte.is_ascii_lowercase())
}

// Whether a word, or none where it stands in apostrophes, is as it has to be.
fn is_right(word: &[u8], want: Want) -> bool {
    match want {
        Want::Session => session_of(word).is_some(),
        Want::KnownSession => matches!(session_of(word), Some(1..=MOST_SESSIONS)),
        Want::Number => integer_of(word).is_some(),
        Want::KnownNumber => matches!(integer_of(word), Some(1..=MOST_CALLS)),
        Want::Key => integer_of(word.strip_prefix(b"#").unwrap_or(b"")).is_some(),
        Want::NoKey => !word.starts_with(b"#"),
        Want::Name => is_identifier(word),
        Want::Bare => !word.is_empty(),
        Want::OneOf(words) => is_one_of(word, words),
        Want::Refusal => is_refusal(word),
        Want::Data | Want::Nothing => false,
    }
}

// Where a line has another word than it has to have as the one of this number.
fn other_at(words: &LineWords<'_>, number: usize, want: Want) -> Option<Span> {
    match want {
        Want::Data => first_other(words, number),
        Want::Nothing => match words.at(number) {
            Some(_) => Some(words.span_from(number)),
            None => words.bad,
        },
        _ if is_right(words.bare(number), want) => None,
        _ => words.at(number),
    }
}

// Where a line breaks a rule for its word of this number, and what is said there.
fn broken(words: &LineWords<'_>, number: usize, rule: WordRule) -> Option<(Span, Message)> {
    let WordRule(want, missing, missing_help, other, other_help) = rule;
    if let Some(span) = other_at(words, number, want) {
        return Some((span, say(other, other_help)));
    }
    if words.at(number).is_some() && !matches!(want, Want::Data) {
        return None;
    }
    match words.bad {
        Some(span) => Some((span, say(NO_WORD, NO_WORD_HELP))),
        None if missing.is_empty() => None,
        None => Some((words.span(number), say(missing, missing_help))),
    }
}

/// What is wrong with the words of a line that has this form.
pub(crate) fn wrong_in<'a>(
    words: &LineWords<'a>,
    form: &'static str,
    rules: WordRules,
) -> Option<Diagnostic<'a>> {
    for (number, rule) in rules {
        if let Some((span, said)) = broken(words, *number, *rule) {
            let form = Piece::Bytes(form.as_bytes());
            return Some(Diagnostic::there(words, span, said).with(form, NO_PIECE));
        }
    }
    None
}

/// What is said of a first word that is one of these.
pub(crate) fn told_of(rows: FirstWords, word: &[u8]) -> Option<Message> {
    for (words, sentence, help) in rows {
        if is_one_of(word, words) {
            return Some(say(sentence, help));
        }
    }
    None
}
