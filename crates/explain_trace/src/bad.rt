//! Lines that are none of a trace, or have no place where they stand.

use crate::called::{misfit_of, operation_named, unknown};
use crate::reply::{call_of, of_call, of_number};
use crate::rules::{
    DATA, FORM, FirstWords, NOTHING, NUMBER, SESSION, Want, WordRule, WordRules, told_of, wrong_in,
};
use crate::story::{FaultyLine, value_of};
use decl_core::object::{Operation, Part};
use note_core::diagnostic::{Both, Diagnostic, NO_PIECE, Piece};
use note_core::line_words::LineWords;
use note_core::said::{Message, say};
use note_core::span::Span;
use std::alloc::{AllocError, Global};
use value_core::kind::{Elem, Kind};
use value_core::words::is_same_word;

const KNOWN_NUMBER: WordRule = WordRule(
    Want::KnownNumber,
    "",
    "",
    "`%` cannot be the number of a call",
    "calls are numbered from 1 to 65536",
);

const KNOWN_SESSION: WordRule = WordRule(
    Want::KnownSession,
    "",
    "",
    "there is no session `%`",
    "sessions are s1 to s1024",
);

const BARE: WordRule = WordRule(
    Want::Bare,
    "the name of an operation is missing here",
    "after the session come an operation and its arguments, as in `s1 put 7`",
    "`%` cannot be the name of an operation",
    "a name is a letter, and then letters, digits and `_`, at most 64 bytes",
);

const ENDING: WordRule = WordRule(
    Want::OneOf("done refused failed"),
    "how the call ended is missing here",
    FORM,
    "a call does not end by `%`",
    FORM,
);

const REFUSAL: WordRule = WordRule(
    Want::Refusal,
    "the word of the refusal is missing here",
    FORM,
    "`%` is not a word to refuse by",
    "it has 1 to 16 lower-case letters",
);

const CAUSE: WordRule = WordRule(
    Want::OneOf("device memory damaged"),
    "the cause of the failure is missing here",
    "it is `device`, `memory` or `damaged`",
    "`%` is not a cause of a failure",
    "it is `device`, `memory` or `damaged`",
);

const START: WordRules = &[
    (1, NUMBER),
    (1, KNOWN_NUMBER),
    (2, SESSION),
    (2, KNOWN_SESSION),
    (3, BARE),
    (4, DATA),
];

const DONE: WordRules = &[
    (1, NUMBER),
    (1, KNOWN_NUMBER),
    (2, ENDING),
    (3, DATA),
    (4, NOTHING),
];

const REFUSED: WordRules = &[(1, NUMBER), (1, KNOWN_NUMBER), (3, REFUSAL), (4, NOTHING)];

const FAILED: WordRules = &[(1, NUMBER), (1, KNOWN_NUMBER), (3, CAUSE), (4, NOTHING)];

const PART: WordRules = &[(3, NOTHING)];

const END_FORM: &str =
    "`end N done`, `end N done VALUE`, `end N refused WORD` or `end N failed CAUSE`";

const PART_FORM: &str = "`part NAME HEX`, as `pathserve run` writes it for the line `trace`";

const LINES: &str = "after the parts come the lines `start N sK OP ARG ..` and `end N ..` alone";

const OF_OTHER_LINES: FirstWords = &[
    (
        "object",
        "line 1 alone names an object",
        "a trace is of one object, and begins once: each trace is a file of its own",
    ),
    (
        "part",
        "all parts have had their line",
        "after the parts come the lines `start` and `end` alone",
    ),
];

// The word of a kind.
fn kind_word(kind: Kind) -> &'static [u8] {
    match kind {
        Kind::Array(_, Elem::Integer) => b"array of integer",
        Kind::Array(_, Elem::Text) => b"array of text",
        Kind::Queue(Elem::Integer) => b"queue of integer",
        Kind::Queue(Elem::Text) => b"queue of text",
        Kind::Table(Elem::Integer) => b"table of integer",
        Kind::Table(Elem::Text) => b"table of text",
    }
}

// Where a line is none of this part by the words in front of its bytes, and what is said there.
fn wrong_front(part: &Part, words: &LineWords<'_>) -> Option<(Span, Message)> {
    if words.line.start == words.text.len() {
        let said = say("the trace ends before the line of part `%`", FORM);
        return Some((words.line, said));
    }
    if !is_same_word(words.bare(0), b"part") {
        let said = say(
            "here the line of part `%` has to stand",
            "after line 1 each part has a line `part NAME HEX`, in the order of their declaration",
        );
        return Some((words.line, said));
    }
    if !is_same_word(words.bare(1), part.name.as_bytes()) {
        let said = say(
            "here part `%` is due",
            "each part has one line, in the order of their declaration, by its name in lower case",
        );
        return Some((words.span(1), said));
    }
    if words.at(2).is_none() {
        let said = say("the bytes of part `%` are missing", FORM);
        return Some((words.span(2), said));
    }
    None
}

// What is said of a word that has to be the bytes of a part as `pathserve run` writes them, and is not.
fn of_bytes(alloc: Global, part: &Part, word: &[u8]) -> Result<Message, AllocError> {
    match value_of(alloc, part, word)? {
        Ok(_) => Ok(say("the digits a to f have to be lower-case letters", "")),
        Err(said) => Ok(said),
    }
}

// What is found where the line of a part is wrong: `%` stands for the part, `@` for what it holds.
fn of_part<'a>(part: &'a Part, span: Span, said: Message) -> Diagnostic<'a> {
    let form = Piece::Bytes(PART_FORM.as_bytes());
    let kind = Piece::Bytes(kind_word(part.kind));
    Diagnostic::at(Some(span), said, part.name.as_bytes()).with(form, kind)
}

// What is wrong with a line where the one of this part is due.
fn wrong_part<'a>(
    alloc: Global,
    part: &'a Part,
    words: &LineWords<'a>,
) -> Result<Diagnostic<'a>, AllocError> {
    if let Some((span, said)) = wrong_front(part, words) {
        return Ok(of_part(part, span, said));
    }
    if let Some(found) = wrong_in(words, PART_FORM, PART) {
        return Ok(found);
    }
    let said = of_bytes(alloc, part, words.bare(2))?;
    Ok(of_part(part, words.span(2), said))
}

// What is wrong with the arguments of a start, which are integers and texts.
fn other_arguments<'a>(operation: &'a Operation, words: &LineWords<'a>) -> Option<Diagnostic<'a>> {
    if misfit_of(operation, words, 4).is_none() {
        return None;
    }
    let help = if operation.params.is_empty() {
        "`%` has no parameters"
    } else {
        "`%` is declared with $"
    };
    let said = say("`%` takes other arguments", help);
    let found = Diagnostic::at(Some(words.span_from(3)), said, operation.name.as_bytes());
    Some(found.with(Piece::Params(operation), NO_PIECE))
}

// What is wrong with a line `start`.
fn wrong_start<'a>(faulty: FaultyLine<'a>) -> Both<'a> {
    let words = faulty.words;
    if let Some(found) = wrong_in(words, "", START) {
        return (Some(found), None);
    }
    if let Some(call) = call_of(faulty) {
        let found = of_number(words, "there is a call % already", "");
        let sentence = "this `%` started here, in line $";
        return (
            Some(found),
            Some(of_call(faulty, call, call.started, sentence)),
        );
    }
    match operation_named(faulty.object, words.bare(3)) {
        Some((_, operation)) => (other_arguments(operation, words), None),
        None => unknown(faulty.object, words, 3, ""),
    }
}

// What the words of a line `end` have to be, by how it says that the call ended; of any other line nothing is asked.
fn rules_of(words: &LineWords<'_>) -> WordRules {
    if !is_same_word(words.bare(0), b"end") {
        return &[];
    }
    if is_same_word(words.bare(2), b"refused") {
        return REFUSED;
    }
    if is_same_word(words.bare(2), b"failed") {
        return FAILED;
    }
    DONE
}

// What is said of a line behind those of the parts that begins with another word.
fn of_first_word(words: &LineWords<'_>) -> Message {
    match told_of(OF_OTHER_LINES, words.bare(0)) {
        Some(said) => said,
        None if words.line.start == words.line.end => say("a trace has no empty lines", LINES),
        None => say("no line of a trace begins with `%`", LINES),
    }
}

/// Why a line has no place in a trace, behind lines that told this.
pub(crate) fn bad_line<'a>(alloc: Global, faulty: FaultyLine<'a>) -> Result<Both<'a>, AllocError> {
    let words = faulty.words;
    if faulty.number == 1 {
        let said = say("line 1 is `object NAME` alone", "as in `object cell`");
        return Ok((Some(Diagnostic::there(words, words.line, said)), None));
    }
    if let Some(part) = faulty.object.parts.get(faulty.story.values.len()) {
        let found = wrong_part(alloc, part, words)?;
        return Ok((Some(found), None));
    }
    if is_same_word(words.bare(0), b"start") {
        return Ok(wrong_start(faulty));
    }
    match wrong_in(words, END_FORM, rules_of(words)) {
        Some(found) => Ok((Some(found), None)),
        None => Ok((
            Some(Diagnostic::there(words, words.span(0), of_first_word(words))),
            None,
        )),
    }
}
