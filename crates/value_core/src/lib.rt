//! Texts, the lines of a text, and the values of a part.
//!
//! A text has at most 1,000 bytes from 32 to 126. A `text::Text` has room for the longest one and is copied without
//! memory; a `row::Row` has memory of its own length. A contract sees each as the list of its bytes.
//!
//! A `Machine` answers one line at a time, from any reader to any writer. `run_lines` reads a text in pieces, cuts it
//! into lines and writes the answers, all those of a piece before the next read. A line ends with LF; the last one may
//! lack it; a CR before LF is dropped. Bytes that are no text are harmless: a line is bytes. `next_line` cuts a text
//! that is whole into the same lines, and `words` parts a line at its spaces. `reply` has the texts that answers are
//! made of: a word and a name or a number, and the number, the name and the place of a fault.
//!
//! A value is an array, a queue or a table of integers or texts. A contract sees a `value::Value` as its `Contents`: an
//! array and a queue are lists, a table is a finite map. Its bytes are in `value_bytes`; here stands only for which
//! values a `format::Format` has room. An operation that is refused says so by a word (`refusal::Refusal`) and changes
//! nothing; one that changes a value answers what takes that back without memory (`undo::Undo`). How a value is kept
//! (`value::Body`) is shown to its bytes alone.
#![tactic(auto)]

pub mod arithmetic;
pub mod cells;
pub mod datum;
mod engine;
pub mod format;
pub mod kind;
pub mod limits;
mod machine;
mod next;
pub mod queue;
pub mod refusal;
pub mod reply;
pub mod row;
pub mod rows;
mod send;
pub mod sorted;
pub mod text;
pub mod undo;
pub mod value;
pub mod words;

pub use engine::{MOST_READS, run_lines};
pub use machine::{LinesEnd, LinesFault, Machine};
pub use next::next_line;
pub use send::write_whole;
