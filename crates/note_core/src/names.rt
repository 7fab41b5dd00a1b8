//! What is said of a name or an expression of the wrong kind, of a name that is not known or declared twice, and of what is
//! past a limit.

use crate::rows::Entries;
use crate::rows::Item::{Help, Note, Or, When};
use crate::rows::Test::{In, Is, Not, Out};
use crate::seen::Fact::{Array, Follows, Integer, Operation, Own, Part, Text};
use crate::seen::Where::{Behind, Entry, Here, Last, Last2, Next, Var};

const SIZE_HELP: &str = "a size is 1 to 1024, as a number or by the name of a constant";

const NO_CALL: &str = "an operation cannot call `%`";

const NO_CALL_HELP: &str = "operations do not call each other: write here what that one does";

// What is said of a name, or of the first token of an expression, that is of the wrong kind.
const WRONG_KIND: Entries = &[
    When(&[
        Is(Here, "NAME"),
        Is(Last, "("),
        Is(Last2, "append take first"),
    ]),
    Note("`%` is not a queue"),
    Help(
        "`append`, `take` and `first` are of queues; an array has `a[i]`, a table `lookup(t, k)` and `store(t, k, e)`",
    ),
    When(&[
        Is(Here, "NAME"),
        Is(Last, "("),
        Is(Last2, "store erase lookup has"),
    ]),
    Note("`%` is not a table"),
    Help(
        "`store`, `erase`, `lookup` and `has` are of tables; an array has `a[i]`, a queue `first(q)` and `append(q, e)`",
    ),
    When(&[Is(Here, "NAME"), Is(Last, "("), Is(Last2, "count")]),
    Note("`%` is not a part of the object"),
    Help(
        "`count` is of parts: the length of an array or of a queue, the number of keys of a table",
    ),
    When(&[Is(Here, "NAME"), Is(Last2, "array")]),
    Note("`%` is not a constant"),
    Help(SIZE_HELP),
    When(&[Is(Here, "NAME"), Is(Next, "["), Out(Array)]),
    Note("`%` is not an array"),
    Help("an element `a[i]` is taken of an array; a queue has `first(q)`, a table `lookup(t, k)`"),
    When(&[Is(Here, "NAME"), Is(Next, ":=")]),
    Note("nothing can be put into `%`"),
    Help(
        "a function gives its reply by its own name, and an element of an array is set by `a[i] := e`",
    ),
    When(&[In(Part), Not(Next, "[")]),
    Note("`%` is a part, not a value"),
    Help("of a part there is `a[i]`, `first(q)`, `lookup(t, k)` and `count(p)`"),
    When(&[In(Operation), In(Own), Not(Next, "[")]),
    Note("the reply of `%` cannot be read"),
    Help("it is set by `% := e`, and `e` is made of constants, parameters, parts and numbers"),
    When(&[In(Operation), Not(Next, "[")]),
    Note(NO_CALL),
    Help(NO_CALL_HELP),
    When(&[In(Integer)]),
    Note("an integer stands here where a text is due"),
    Help(
        "keys are texts; an element has the kind of its part, a reply that of its function; `=` and `<>` compare two of one kind",
    ),
    When(&[In(Text), Is(Last, "+")]),
    Or(&[In(Text), Is(Behind, "+")]),
    Note("a text stands here, and `+` adds integers alone"),
    Help("nothing joins two texts: keep each of them in a part, and let the caller join them"),
    When(&[In(Text)]),
    Note("a text stands here where an integer is due"),
    Help(
        "`+`, `-`, `<`, `<=`, `>`, `>=` and an index take integers; an element has the kind of its part, a reply that of its function",
    ),
    When(&[]),
    Note("this expression is of the wrong kind"),
    Help("it is an integer where a text is due, or a text where an integer is due"),
];

// What is said of a name that is not known.
const UNKNOWN: Entries = &[
    When(&[Is(Last, "["), Is(Last2, "array")]),
    Note("there is no constant `%` above this place"),
    Help(SIZE_HELP),
    When(&[Is(Here, "for while repeat")]),
    Note("there is no `%`: a body has no loops"),
    Help("its statements are done once, one after the other; docs/LANGUAGE.md lists them"),
    When(&[Is(Here, "return")]),
    Note("there is no `return`"),
    Help("in the body of a function f the reply is set by `f := e`"),
    When(&[Is(Here, "true false")]),
    Note("there is no `%`"),
    Help(
        "values are integers and texts: let 1 stand for yes and 0 for no, and ask `if x = 1 then`",
    ),
    When(&[In(Follows)]),
    Note(NO_CALL),
    Help(NO_CALL_HELP),
    When(&[Is(Next, "(")]),
    Note("`%` is not declared above"),
    Help(
        "operations do not call each other; in a body there are `append`, `take`, `store`, `erase`, `refuse`, `first`, `lookup`, `count` and `has`",
    ),
    When(&[Is(Next, ":=")]),
    Help(
        "there are no single variables: what stays is a part, as in `v : array [1] of integer;`, set by `v[0] := e`",
    ),
    When(&[]),
    Help(
        "a body knows the constants and the parts of its object, its own parameters, and in a function its own name",
    ),
];

// What is said of the first token past a limit.
const PAST_LIMIT: Entries = &[
    When(&[Is(Last, "object")]),
    Note("`%` is the 17th object of this source"),
    Help("a source has at most 16 objects; put some into a file of their own"),
    When(&[Is(Here, "path")]),
    Note("this is the 17th path of the object"),
    Help(
        "an object has at most 16 paths; two over different operations can be one, as in `path 1:(a), 2:(b) end;`",
    ),
    When(&[Is(Last, "procedure function")]),
    Note("`%` is the 33rd operation of the object"),
    Help("an object has at most 32 operations; cut it into two objects, which share nothing"),
    When(&[Is(Here, "begin if")]),
    Note("this opens a 33rd level of statements"),
    Help(
        "each `begin` and each `if` is one level deeper, an `if` after `else` too; 32 are the most",
    ),
    When(&[Not(Here, "NAME")]),
    Note("this opens a 33rd level of expressions"),
    Help("each `[`, `(` and `not` is one level deeper; 32 are the most"),
    When(&[Is(Entry, "entry")]),
    Note("`%` is the 9th parameter of this operation"),
    Help("an operation has at most 8 parameters"),
    When(&[Is(Var, "var")]),
    Note("`%` is the 17th part of the object"),
    Help(
        "an object has at most 16 parts; several values can be the elements of one array, or stand under keys of one table",
    ),
    When(&[]),
    Note("`%` is the 17th constant of the object"),
    Help("an object has at most 16 constants; a number can stand in its place as well"),
];

// What is said of a name that is declared twice.
const TWICE: Entries = &[
    When(&[Is(Last, "object")]),
    Note("this source has an object `%` already"),
    Help("objects of one source have different names; case is ignored"),
    When(&[]),
    Note("`%` is declared already"),
    Help(
        "constants, parts and operations of an object have different names, and a parameter has another name than these; case is ignored",
    ),
];

/// What is said of a name, or of the first token of an expression, that is of the wrong kind.
pub(crate) fn wrong_kind() -> Entries {
    WRONG_KIND
}

/// What is said of a name that is not known.
pub(crate) fn unknown() -> Entries {
    UNKNOWN
}

/// What is said of the first token past a limit.
pub(crate) fn past_limit() -> Entries {
    PAST_LIMIT
}

/// What is said of a name that is declared twice.
pub(crate) fn twice() -> Entries {
    TWICE
}
