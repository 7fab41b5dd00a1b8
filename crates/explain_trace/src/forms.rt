//! Lines of scripts: what is wrong with one that says nothing.

use crate::called::operation_named;
use crate::rules::{
    DATA, FORM, FirstWords, NOTHING, NUMBER, SESSION, Want, WordRule, WordRules, told_of, wrong_in,
};
use decl_core::object::Object;
use note_core::alike::are_alike;
use note_core::diagnostic::{Both, Diagnostic, NO_PIECE, Piece};
use note_core::line_words::LineWords;
use note_core::said::{Message, say};
use value_core::words::is_same_word;
use word_core::number::session_of;

/// A kind of line: its first word, its form, as it is told, and what its words have to be.
#[derive(Clone, Copy)]
pub(crate) struct Verb {
    word: &'static str,
    form: &'static str,
    pub rules: WordRules,
}

const NAME: WordRule = WordRule(
    Want::Name,
    "the name of an operation is missing here",
    "after the session come an operation and its arguments, as in `s1 put 7`",
    "`%` cannot be the name of an operation",
    "a name is a letter, and then letters, digits and `_`, at most 64 bytes",
);

const KEY: WordRule = WordRule(
    Want::Key,
    "",
    "",
    "`%` is not the key of a call",
    "a key is `#` and a number: `#1` for the first call of the session, `#2` for its second one and so on",
);

const NO_KEY: WordRule = WordRule(
    Want::NoKey,
    "",
    "",
    "`do` takes no key, and `%` is one",
    "a call under a key is `call sK #J OP ARG ..`; `steps N` and `finish N` bring it to its end",
);

const OUTCOME: WordRule = WordRule(
    Want::OneOf("ok fail"),
    "`ok` or `fail` is missing here",
    STEPS,
    "`%` is neither `ok` nor `fail`",
    STEPS,
);

const STEPS: &str =
    "`step N ok` makes one step of call N, in `step N fail` its device fails; `steps N` makes all that are left";

const CALLS: WordRules = &[(1, SESSION), (2, NAME), (3, DATA)];

const KEYED: WordRules = &[(1, SESSION), (2, KEY), (3, NAME), (4, DATA)];

const DOES: WordRules = &[(1, SESSION), (2, NO_KEY), (2, NAME), (3, DATA)];

const STEP: WordRules = &[(1, NUMBER), (2, OUTCOME), (3, NOTHING)];

const OF_CALL: WordRules = &[(1, NUMBER), (2, NOTHING)];

const OF_SESSION: WordRules = &[(1, SESSION), (2, NOTHING)];

const ALONE: WordRules = &[(1, NOTHING)];

const CALL_FORM: &str = "`call sK OP ARG ..`, as in `call s1 put 7`";

const VERBS: &[(&str, &str, WordRules)] = &[
    ("call", CALL_FORM, CALLS),
    ("do", "`do sK OP ARG ..`, as in `do s1 put 7`", DOES),
    (
        "step",
        "`step N ok` or `step N fail`, as in `step 1 ok`",
        STEP,
    ),
    ("steps", "`steps N`, as in `steps 1`", OF_CALL),
    ("finish", "`finish N`, as in `finish 1`", OF_CALL),
    ("cancel", "`cancel N`, as in `cancel 1`", OF_CALL),
    ("drop", "`drop sK`, as in `drop s1`", OF_SESSION),
    ("resume", "`resume sK`, as in `resume s1`", OF_SESSION),
    ("show", "`show`, and nothing else", ALONE),
    ("trace", "`trace`, and nothing else", ALONE),
    ("why", "`why N`, as in `why 2`", OF_CALL),
    ("who", "`who`, and nothing else", ALONE),
    ("list", "`list`, and nothing else", ALONE),
];

const OF_OTHER_TEXTS: FirstWords = &[
    (
        "object",
        "line 1 alone names an object",
        "a script runs on one object: write a second script for another one",
    ),
    (
        "start end part",
        "`%` begins a line of a trace, not of a script",
        "`pathserve audit` reads traces; in a script a call is made by `call s1 put 7`, `steps 1` and `finish 1`",
    ),
    (
        "open quit",
        "`%` is a line for `pathserve serve`, not of a script",
        "in a script line 1 names the object, `call s1 put 7` has session 1 call, and `drop s1` has it leave",
    ),
    (
        "started done refused failed repeat no bad",
        "`%` begins an answer, not a line of a script",
        "a script has what is called; `pathserve run` writes the answers",
    ),
];

// The table alone, so that it is looked at once.
fn verbs() -> &'static [(&'static str, &'static str, WordRules)] {
    VERBS
}

/// The kind of a line, by its words.
pub(crate) fn verb_of(words: &LineWords<'_>) -> Option<Verb> {
    for (word, form, rules) in verbs() {
        if is_same_word(word.as_bytes(), words.bare(0)) {
            let is_keyed = *word == "call" && words.bare(2).starts_with(b"#");
            return Some(Verb {
                word,
                form,
                rules: if is_keyed { KEYED } else { *rules },
            });
        }
    }
    None
}

// The kind of line whose first word this one is in another case, or differs from in one letter.
fn verb_like(first: &[u8]) -> Option<Verb> {
    for (word, form, rules) in verbs() {
        let bytes = word.as_bytes();
        if bytes.eq_ignore_ascii_case(first) || are_alike(bytes, first) {
            return Some(Verb { word, form, rules });
        }
    }
    None
}

// The form of a line of this kind, behind this sentence.
fn form_of<'a>(verb: Verb, said: Message) -> Diagnostic<'a> {
    let form = Piece::Bytes(verb.form.as_bytes());
    Diagnostic::at(None, said, verb.word.as_bytes()).with(form, NO_PIECE)
}

// What is said of a line that begins with no word that lines of scripts or of other texts begin with.
fn of_first_word(word: &[u8], object: &Object) -> Message {
    if operation_named(object, word).is_some() || session_of(word).is_some() {
        return say(
            "before `%` the word `call` is missing",
            "a line that calls is `call sK OP ARG ..`, as in `call s1 put 7`",
        );
    }
    say(
        "no line of a script begins with `%`",
        "the lines are `call sK OP ARG ..`, `call sK #J OP ARG ..`, `do sK OP ARG ..`, `step N ok`, `step N fail`, \
            `steps N`, `finish N`, `cancel N`, `drop sK`, `resume sK`, `show`, `trace`, `why N`, `who` and `list`",
    )
}

/// What is wrong with a line that says nothing that a script may say, and the form that it comes closest to.
pub(crate) fn wrong_in_line<'a>(words: &LineWords<'a>, object: &Object) -> Both<'a> {
    let word = words.bare(0);
    if let Some(said) = told_of(OF_OTHER_TEXTS, word) {
        return (Some(Diagnostic::there(words, words.span(0), said)), None);
    }
    let first = Diagnostic::there(words, words.span(0), of_first_word(word, object));
    let Some(verb) = verb_of(words) else {
        return match verb_like(word) {
            Some(verb) => (Some(first), Some(form_of(verb, say("is `%` meant?", FORM)))),
            None => (Some(first), None),
        };
    };
    match wrong_in(words, verb.form, verb.rules) {
        // A step has two forms, which what is said of it has.
        Some(found) if found.said.help == FORM || verb.word == "step" => (Some(found), None),
        Some(found) => (Some(found), Some(form_of(verb, say(FORM, "")))),
        None => (Some(first), None),
    }
}
