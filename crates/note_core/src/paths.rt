//! What is said of a fault in a path.

use crate::rows::Entries;
use crate::rows::Item::{Help, Note, When};
use crate::rows::Test::{Is, Not};
use crate::seen::Where::{Here, Last, Next};
use path_tree::path_fault::PathFault;

/// What a path is made of.
pub(crate) const MADE_OF: &str =
    "a path is made of names, `a, b`, `a; b`, bounds `3:( .. )`, bursts `[ .. ]` and parentheses, and is closed by `end`";

/// What a comma and a semicolon say in a path.
pub(crate) const EITHER: &str =
    "`a, b` lets either run; in `a; b` each start of b uses up one finish of a";

// What is said of a token that a path has not in its place.
const EXPECTED: Entries = &[
    When(&[Is(Here, "NONE")]),
    Note("the source ends inside of this path"),
    Help("a path is closed by `end`"),
    When(&[Is(Last, "NUMBER")]),
    Note("after the number `$` comes `%`, not `:(`"),
    Help("a number in a path is a bound, as in `3:(get, put)`"),
    When(&[Is(Last, ":")]),
    Note("after the `:` of a bound comes `(`, not `%`"),
    Help("a bound is written as in `3:(get, put)`"),
    When(&[Is(Here, "or and")]),
    Note("there is no `%` in a path"),
    Help("`a, b` lets either run, also both at once; `1:(a, b)` lets one run at a time"),
    When(&[Is(Last, "VALUE"), Is(Here, "NAME NUMBER ( [")]),
    Note("between `$` and `%` a `,` or a `;` is missing"),
    Help(EITHER),
    When(&[Is(Last, "VALUE"), Is(Here, "end")]),
    Note("the path ends, and a `(` or a `[` of it is not closed"),
    Help("write the `)` or the `]` before this `end`"),
    When(&[Is(Here, "const path var entry")]),
    Note("before `%` the path is not closed: its `end` is missing"),
    Help("a path is closed by `end;`, as in `path 1:(get, put) end;`"),
    When(&[Is(Here, "WORD"), Not(Here, "end")]),
    Note("`%` is a reserved word, and cannot stand here in a path"),
    Help("no operation can have its name; docs/LANGUAGE.md lists the reserved words"),
    When(&[]),
    Note("`%` cannot stand here in a path, after `$`"),
    Help(MADE_OF),
];

/// What is said of a fault of a path.
pub(crate) fn of_path(fault: PathFault) -> Entries {
    match fault {
        PathFault::Expected(_) => EXPECTED,
        PathFault::UnknownName(_) => &[
            When(&[Is(Next, ":")]),
            Note("there is no constant `%`, and before `:` comes a number or a constant"),
            Help("declare it at the head of the object, as in `const % = 3;`"),
            When(&[]),
            Note("there is no operation `%` in this object"),
            Help(
                "a path names what follows `entry procedure` or `entry function` in the same object",
            ),
        ],
        PathFault::RepeatedName(_) => &[
            Note("`%` stands twice in this path"),
            Help("a path names an operation once; a second path of the object may name it as well"),
        ],
        PathFault::BadBound(_) => &[
            Note("a bound is 1 to 65535, and `%` is not"),
            Help("`1:( .. )` lets one activation at a time be open, `3:( .. )` three"),
        ],
        PathFault::TooDeep(_) => &[
            Note("this opens a 33rd level of bounds, bursts and parentheses"),
            Help("32 levels are the most; leave out parentheses that only group"),
        ],
        PathFault::TooMany | PathFault::Memory => &[
            Note("a path of this source has more than 256 nodes"),
            Help(
                "names, bounds, bursts, and lists and sequences of two members or more are nodes; cut the path into several, which hold together",
            ),
        ],
    }
}
