//! What is said of a token that objects have not in its place.

use crate::rows::Item::{Help, Note, Or, When};
use crate::rows::Test::{In, Is, Not, Out};
use crate::rows::{Entries, said_by};
use crate::said::Message;
use crate::seen::Fact::{
    Body, Condition, Constants, Head, LastOperation, LastOwn, Open, Outside, Params,
};
use crate::seen::Near;
use crate::seen::Where::{Here, Kind, Last, Last2, Last3, Next, Plain};

/// What helps where a sum stands in the place of a constant.
pub(crate) const SUM: &str = "sums stand in bodies alone: write the number itself, in digits";

const IS_CONDITION: &str = "`has(t, k)` is a condition, not a value";

const CONDITION_HELP: &str =
    "it stands after `if` or `not`, as in `if has(t, k) then f := 1 else f := 0`";

/// The sentence on a `procedure` or a `function` that stands without `entry`.
pub(crate) const NO_ENTRY: &str = "before `%` the word `entry` is missing";

/// How an operation is declared.
pub(crate) const ENTRY_HELP: &str =
    "an operation is declared as in `entry procedure hit; begin .. end;`";

// What a statement, a section or an object can begin with, or end by.
const OPENING: &str = "const path var entry begin if append take store erase refuse end object";

// What is said of a token in a size, in a constant or in a condition.
const VALUES: Entries = &[
    When(&[Is(Here, "NONE")]),
    Note("the source ends, and an object is not closed"),
    Help("each `begin` and each path is closed by `end`, and the object by `end;`"),
    When(&[Is(Last, "NONE")]),
    Note("a source begins with the word `object`, not with `%`"),
    Help("write `object NAME;` .. `end;` around what is to be one"),
    When(&[Is(Last, "refuse")]),
    Or(&[Is(Last2, "refuse")]),
    Note("`%` is not a word to refuse by"),
    Help("a word stands in apostrophes, and has 1 to 16 lower-case letters, as in refuse('taken')"),
    When(&[Is(Last2, "array"), Is(Last, "[")]),
    Note("`%` is not a size of an array"),
    Help("a size is 1 to 1024, as a number or by the name of a constant"),
    When(&[Is(Last3, "array"), Is(Last2, "["), Is(Here, "+ -")]),
    Note("the size of an array is one number, or one constant"),
    Help("sums stand in bodies alone: write the number itself, or declare a constant of its value"),
    When(&[Is(Last, "="), Is(Here, "=")]),
    Note("there is no `==`"),
    Help("one `=` compares two values, and gives a constant its value"),
    When(&[Is(Last, "= < >"), Is(Here, "= <> < <= > >=")]),
    Note("`$%` is not a comparison"),
    Help("two values are compared by `=`, `<>`, `<`, `<=`, `>` or `>=`"),
    When(&[
        In(Constants),
        Is(Last2, "="),
        Is(Last, "NUMBER"),
        Is(Here, "+ -"),
    ]),
    Or(&[In(Constants), Is(Last, "="), Is(Here, "(")]),
    Or(&[
        In(Constants),
        Is(Last, "="),
        Not(Here, "+ -"),
        Is(Next, "+ -"),
    ]),
    Note("a constant is one number"),
    Help(SUM),
    When(&[In(Constants), Is(Last, "="), Not(Here, "+ -")]),
    Note("`%` is not a number"),
    Help("a constant is given by a number in digits, 0 to 4294967295"),
    When(&[Is(Here, "and")]),
    Note("there is no `%` between conditions"),
    Help("put one `if` into another: `if x = 1 then if y = 2 then ..`"),
    When(&[Is(Here, "or")]),
    Help("write a second `if`: `if x = 1 then .. else if y = 2 then ..`"),
    When(&[Is(Plain, "("), In(Open), Is(Here, "= <> < <= > >= not has")]),
    Note("a condition cannot stand in parentheses"),
    Help(
        "leave them out: `if x = y then`, `if not x = y then`; only a value may have some, as in `(x + 1) = y`",
    ),
    When(&[In(Open), Is(Here, "= <> < <= > >=")]),
    Note("before `%` a `(` or a `[` is not closed"),
    Help("write the `)` or the `]` first"),
    When(&[Is(Plain, "has"), Is(Here, "= <> < <= > >=")]),
    Note("`has(t, k)` is a condition already"),
    Help("it is not compared: write `if has(t, k) then`, or `if not has(t, k) then`"),
    When(&[Not(Plain, "NONE"), Is(Here, "= <> < <= > >=")]),
    Note("this condition has a comparison already"),
    Help("there is no `and`: put one `if` into another, as in `if x < y then if y < z then`"),
    When(&[In(Condition), Is(Here, "not")]),
    Note("`not` cannot stand here"),
    Help("it stands before a whole condition: `not x = y`, which is `x <> y`"),
    When(&[In(Condition), Is(Here, "has")]),
    Note(IS_CONDITION),
    Help(CONDITION_HELP),
    When(&[
        In(Condition),
        Is(Here, "then"),
        Is(Last, "VALUE"),
        Out(Open),
    ]),
    Note("before `then` nothing is compared"),
    Help(
        "a condition is `x = y`, `x <> y`, `x < y`, `x <= y`, `x > y`, `x >= y`, `has(t, k)` or `not` before one of these",
    ),
];

// What is said of a token in an operation.
const OPERATIONS: Entries = &[
    When(&[Is(Last, "entry")]),
    Note("after `entry` comes `procedure` or `function`, not `%`"),
    Help(ENTRY_HELP),
    When(&[In(Params), Is(Here, "var")]),
    Note("a parameter has no `var`"),
    Help("a body cannot change what its caller gives; it is declared as in `(x : integer)`"),
    When(&[In(Params), Is(Last, "("), Is(Here, ")")]),
    Note("`()` cannot stand here"),
    Help("an operation without parameters is declared without parentheses"),
    When(&[In(Params), Is(Here, ","), Is(Last, "integer text")]),
    Note("after the kind of a parameter comes `;` or `)`, not `,`"),
    Help("parameters are declared as in `(a, b : integer; s : text)`"),
    When(&[In(Head), Is(Kind, "function"), Is(Here, ";")]),
    Note("a function says of what kind its reply is"),
    Help("it is declared as in `entry function total : integer;`"),
    When(&[In(Head), Not(Kind, "function"), Is(Here, ":")]),
    Note("a procedure has no reply"),
    Help("what replies is declared as in `entry function total : integer;`"),
    When(&[
        In(Body),
        Is(Last2, "begin ; then else"),
        In(LastOwn),
        In(LastOperation),
    ]),
    Note("after `$` a `:=` is missing"),
    Help("in the body of a function f the reply is set by `f := e`"),
    When(&[In(Body), Is(Last2, "begin ; then else"), In(LastOperation)]),
    Note("an operation cannot call `$`"),
    Help("operations do not call each other: write here what that one does"),
    When(&[In(Head), Is(Last, ";"), Is(Here, "NAME")]),
    Or(&[In(Head), Is(Here, "var")]),
    Or(&[In(Body), Is(Here, "var")]),
    Note("an operation has no variables of its own"),
    Help(
        "what stays is a part of the object, declared before the operations; what a caller gives is a parameter",
    ),
    When(&[In(Body), Is(Here, "entry procedure function")]),
    Note("`%` cannot stand in a body"),
    Help("operations do not stand in one another; the body before is closed by `end;`"),
];

// What is said of other words and signs.
const WORDS: Entries = &[
    When(&[Is(Here, "else")]),
    Note("this `else` belongs to no `if`"),
    Help("no `;` stands before `else`, since it would end the `if`"),
    When(&[Is(Here, ":=")]),
    Note("`:=` cannot stand here"),
    Help(
        "`:=` puts a value into the element of an array or into a function's own name; `=` compares, and gives a constant its value",
    ),
    When(&[Is(Here, "=")]),
    Note("`=` cannot stand here"),
    Help("`=` compares, and gives a constant its value; `:=` puts a value in its place"),
    When(&[Is(Here, "+ -"), Not(Last, "VALUE")]),
    Note("a number has no sign"),
    Help(
        "integers are 0 to 4294967295; a difference is `x - y`, and is refused by `range` below 0",
    ),
    When(&[Is(Here, "has")]),
    Note(IS_CONDITION),
    Help(CONDITION_HELP),
    When(&[Is(Last, ":="), Is(Here, "take")]),
    Note("`take` gives no value: it removes the first element"),
    Help("read that one first, as in `f := first(q); take(q)`"),
    When(&[Is(Last, ":="), Is(Here, "append store erase")]),
    Note("`%` gives no value: it changes a part"),
    Help("it is a statement of its own, behind a `;`"),
    When(&[
        Is(Last, "object procedure function var const"),
        Is(Here, "WORD"),
    ]),
    Note("`%` is a reserved word, and cannot be a name"),
    Help("choose another one; docs/LANGUAGE.md lists the reserved words"),
    When(&[Is(Last, "object procedure function var const")]),
    Note("after `$` comes a name, not `%`"),
    Help("a name is a letter, and then letters, digits and `_`"),
    When(&[Is(Last, "end")]),
    Note("after `end` a `;` is missing"),
    Help(
        "an object, a path and a body are closed by `end;`, and a `;` stands between two statements",
    ),
    When(&[In(Outside), Is(Here, "procedure function")]),
    Note(NO_ENTRY),
    Help(ENTRY_HELP),
    When(&[Is(Here, "const path var entry"), Is(Last, ";")]),
    Note("`%` cannot stand here"),
    Help(
        "an object has constants, then paths, then parts, then operations, and each body is closed by `end;`",
    ),
    When(&[Is(Last, "VALUE"), Is(Here, OPENING)]),
    Note("between `$` and `%` something is missing"),
    Help(
        "a `;` closes a declaration and stands between two statements, and after the condition of an `if` comes `then`",
    ),
];

// What is said of a token where a kind may be due, or where nothing better is known.
const KINDS: Entries = &[
    When(&[Is(Here, "integer text"), Is(Last, "queue table ]")]),
    Note("between `$` and `%` the word `of` is missing"),
    Help("kinds are `array [5] of integer`, `queue of text`, `table of integer` and so on"),
    When(&[Is(Here, "integer text"), Is(Last, ":")]),
    Note("`%` alone is not a kind of a part"),
    Help(
        "a part is an array, a queue or a table; one value is an array of one element, as in `v : array [1] of integer;`",
    ),
    When(&[Is(Here, "array queue table"), Is(Last, ":")]),
    Note("a parameter and a reply are `integer` or `text`, not `%`"),
    Help("arrays, queues and tables are parts of the object, declared after `var`"),
    When(&[
        Is(Here, "array queue table integer text"),
        Is(Last, "VALUE"),
    ]),
    Note("between `$` and `%` a `:` is missing"),
    Help("a part is declared as in `q : queue of text;`, a parameter as in `(x : integer)`"),
    When(&[Is(Last, ": of"), Is(Here, "boolean bool")]),
    Note("there is no kind `%`"),
    Help(
        "values are integers and texts: let 1 stand for yes and 0 for no, and ask `if x = 1 then`",
    ),
    When(&[Is(Last, ": of"), Is(Here, "string char str")]),
    Help("texts are of the kind `text`"),
    When(&[Is(Last, ": of"), Is(Here, "int real number")]),
    Help("numbers are of the kind `integer`, 0 to 4294967295"),
    When(&[Is(Last, ": of"), Is(Here, "NAME")]),
    Help(
        "a parameter and a reply are `integer` or `text`, a part is an array, a queue or a table of these",
    ),
    When(&[Is(Here, ";"), Is(Last, "VALUE")]),
    Note("between `$` and `;` something is missing"),
    Help("a `(` or `[` may be open, or a condition without `then`"),
    When(&[Is(Last, "NAME")]),
    Note("`%` cannot stand here, after `$`"),
    Help(
        "a statement that begins with a name puts a value in its place: `a[i] := e`, and in the function f `f := e`",
    ),
    When(&[]),
    Help("docs/LANGUAGE.md has the grammar of objects"),
];

fn values() -> Entries {
    VALUES
}

fn operations() -> Entries {
    OPERATIONS
}

fn words() -> Entries {
    WORDS
}

fn kinds() -> Entries {
    KINDS
}

/// What is said of a token that is out of place in an object. One table of all rows would be past the prover's limit.
pub(crate) fn misplaced(seen: Near<'_>) -> Option<Message> {
    if let Some(said) = said_by(values(), seen) {
        return Some(said);
    }
    if let Some(said) = said_by(operations(), seen) {
        return Some(said);
    }
    match said_by(words(), seen) {
        Some(said) => Some(said),
        None => said_by(kinds(), seen),
    }
}
