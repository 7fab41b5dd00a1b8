//! Notes on a text: what they are made of, and those that tell why a source is not taken, or an object of it is refused,
//! loses an operation, or gets stuck.
//!
//! `place::place_of` says what line and column are. `tokens` are the words of a source with their places, `name` what a
//! name in it was declared as, and `alike` which names are almost the same. `page` adds the line of a text, with a
//! caret under the place.
//!
//! Of a line of a script, or of a trace, `line_words` are the words with their places in the text, `finding` how a sentence
//! shows one of them, and `lacking` what is said of an object that the file lacks. `kept` keeps a text while it is read, and
//! `files` names the two texts of a run.
//!
//! What is found of a text is data (`diagnostic`): a place, a sentence, what helps, and what stands for the signs in both.
//! One function writes it, whoever finds it.
//!
//! `fault::push_fault` tells where the fault of a source stands, what is wrong in a sentence, and what would help. Of
//! holds that are not taken `rules::explain_held` tells it. What is said stands in tables (`misplaced`, `names`, `paths`,
//! `signs`, `rules`): a row has tests of the tokens around the fault (`seen`), a sentence and what helps, and the first row
//! that fits is said (`rows`).
//!
//! Of what is accepted `pairs::explain_pairs` tells for each `a; b` that could be held and is not what a client leaves that
//! dies between, and by which words calls before a `;` (`trap`), and what ends a hold (`undone`), can be refused: one walk
//! over a body (`refused`) with what it has shown so far (`shown_parts`).
//!
//! `explain::explain` gives the text for the fault of a source, and for each object that is refused: where it stands, what
//! is wrong in a sentence, the line of the source with a caret under the place, and what would help. `stuck_explain` gives
//! it for each accepted object that loses an operation: after which calls that is, where in the paths each lost
//! operation waits then and for whose end, the lines with which `pathserve paths` shows it, and small changes that
//! would do. A path that is proposed was put into the source, and the source was read, analysed and, for what is lost,
//! searched again: with it the object is accepted, or every operation of it kept.
//!
//! That the texts are safe to make, and end, is proved, and `place_of` is exact; what notes say is tested by the cases
//! of `cases/check`, `cases/run` and `cases/audit`.
#![tactic(auto)]

pub mod alike;
mod around;
mod case;
mod change;
pub mod diagnostic;
pub mod explain;
pub mod fault;
pub mod files;
pub mod finding;
pub mod kept;
pub mod lacking;
pub mod line_words;
mod misplaced;
pub mod name;
mod names;
pub mod nodes;
mod op_set;
pub mod page;
pub mod pairs;
mod paths;
pub mod place;
mod proposal;
mod refusal;
mod refused;
mod rows;
pub mod rules;
pub mod said;
mod seen;
mod shown;
mod shown_parts;
mod signs;
pub mod span;
pub mod stuck_explain;
pub mod tokens;
mod touch;
mod trap;
mod undone;
mod waiting;
mod ways;
