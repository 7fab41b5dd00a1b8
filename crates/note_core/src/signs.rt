//! What is said of a byte that no token has.

use crate::misplaced::SUM;
use crate::paths::{EITHER, MADE_OF};
use crate::rows::Entries;
use crate::rows::Item::{Help, Note, When};
use crate::rows::Test::{At, In, Is, Not};
use crate::seen::Fact::{Constants, Digit, InName, Letter, Path, Printed, Sign};
use crate::seen::Where::{Last, Last2, Last3};
use path_tree::lex::fault::LexFault;

const NO_SIGN: &str = "`%` is not a sign of the language";

// What is said of a byte that no token has.
const BAD_BYTE: Entries = &[
    When(&[At("//")]),
    Note("`//` does not begin a comment"),
    Help("a comment stands between `{` and `}`, or between `(*` and `*)`"),
    When(&[At("/*")]),
    Note("`/*` does not begin a comment"),
    Help("a comment stands between `{` and `}`, or between `(*` and `*)`"),
    When(&[At("#")]),
    Note("`%` does not begin a comment"),
    Help("a comment stands between `{` and `}`, or between `(*` and `*)`"),
    When(&[In(Path), At("| &")]),
    Note("`%` cannot stand in a path"),
    Help(EITHER),
    When(&[In(Path), At("*")]),
    Help(
        "a path repeats without a sign: each of its names may run again and again, as far as its bounds and its `;` let it",
    ),
    When(&[In(Path), In(Sign)]),
    Help(MADE_OF),
    When(&[At("\"")]),
    Note(NO_SIGN),
    Help("a string stands in apostrophes, as in 'taken'"),
    When(&[At("!")]),
    Help("`x <> y` says that two values differ, and `not` turns a condition round"),
    When(&[At("* / %"), In(Constants)]),
    Note("a constant is one number"),
    Help(SUM),
    When(&[At("* / %")]),
    Note(NO_SIGN),
    Help("values are added and subtracted alone: `x + y`, `x - y`"),
    When(&[At("& |")]),
    Help("there is no `and` and no `or`: put one `if` into another"),
    When(&[At("}")]),
    Note("no comment is open that this `}` could close"),
    Help("a comment ends at its first `}`: comments do not stand in one another"),
    When(&[
        At(".."),
        Is(Last3, "array"),
        Is(Last2, "["),
        Not(Last, "array"),
    ]),
    Note("an array has no first index: its elements are counted from 0"),
    Help("between `[` and `]` stands how many it has: `array [10]` has the elements 0 to 9"),
    When(&[At("."), In(Digit)]),
    Note(NO_SIGN),
    Help("there are no fractions: integers are 0 to 4294967295"),
    When(&[At("."), In(Letter), Is(Last, "NAME")]),
    Help(
        "nothing is reached through another object: an operation has the parts of its own object, by their names",
    ),
    When(&[At(".")]),
    Help("an object is closed by `end;`"),
    When(&[At("_")]),
    Note("`_` cannot stand here"),
    Help("a name begins with a letter, and has at most 64 bytes"),
    When(&[In(InName)]),
    Note("this name has more than 64 bytes; here is the 65th"),
    Help("choose a shorter name"),
    When(&[In(Printed)]),
    Note(NO_SIGN),
    Help(
        "outside of comments and strings there are names, numbers and ( ) [ ] , ; : := = <> < <= > >= + -",
    ),
    When(&[]),
    Note("this byte is not a part of the language"),
    Help(
        "outside of comments a source has the characters of ASCII alone, and in a string no TAB either",
    ),
];

/// What is said of a fault of the tokens.
pub(crate) fn of_tokens(fault: LexFault) -> Entries {
    match fault {
        LexFault::BadByte(_) => BAD_BYTE,
        LexFault::OpenComment(_) => &[
            Note("this comment is not closed"),
            When(&[At("{")]),
            Help("it ends at the first `}` after it"),
            When(&[]),
            Help("it ends at the first `*)` after it; the `*` of `(*` is not the one of `*)`"),
        ],
        LexFault::OpenString(_) => &[
            Note("this string has no closing apostrophe on its line, or more than 1000 bytes"),
            Help(
                "close it by an apostrophe; one that is part of the text is written twice, as in 'it''s'",
            ),
        ],
        LexFault::BadNumber(_) => &[
            Note("this number is over 4294967295"),
            Help("integers are 0 to 4294967295"),
        ],
        LexFault::TooLong | LexFault::Memory => &[
            Note("the source has more than 65536 bytes; here is the first one too many"),
            Help("put some of its objects into a file of their own"),
        ],
    }
}
