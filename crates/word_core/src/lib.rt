//! The words of a line, and the lines that are made of them: of traces, and of scripts.
//!
//! Words are parted by spaces. A word stands bare, as its bytes, or is a text between apostrophes, in which each
//! apostrophe is doubled. `specs/Words.antt` says which words a line has; `words::words_of` reads these, and
//! `line::push_words` writes them. What words stand for (integers, sessions, data, how a call ended) are functions on
//! lists of words, read by `number`, `words` and `ending`; values are shown by `show`. A line can also be read word by
//! word, where it lies: `next`, `front` and `arguments` give what these functions give of its words, and something only
//! where all of the line is words (`specs/Reads.antt`).
//!
//! A trace tells what happened to the calls of an object (`specs/Events.antt`). Its first line is `object NAME`; then
//! each part stands with the bytes of its opening value, `part NAME HEX`; then each event, the oldest first: `start N
//! sK OP ARG ..` or `end N` and how the call ended. `specs/Text.antt` has the words of each line. It is written in
//! pieces: `trace_front::push_front`, and then a line for each event, `event::push_start` and `event::push_end`.
//!
//! A script tells what clients of one object do, a line each: calls, the device steps of their runs, finishes, cancels,
//! sessions that leave and are back. `said::read_line` reads a line; what it says is a function of its words
//! (`specs/Said.antt`), and `script_laws::said_exact` has the words that say each thing. `said::is_skipped` tells blank
//! lines and remarks, and `first::first_object` the object that the first line names. `answers` writes the lines that
//! answer, whose texts `specs/Answers.antt` has. Nothing here knows what a line does: that is its desk's.
#![tactic(auto)]

pub mod answers;
pub mod arguments;
pub mod ending;
pub mod event;
pub mod first;
pub mod front;
pub mod laws;
pub mod line;
pub mod names;
pub mod next;
pub mod number;
mod operation;
pub mod print;
mod quote;
pub mod reply;
pub mod said;
pub mod script_laws;
pub mod show;
pub mod trace_front;
pub mod trace_laws;
pub mod uncalled;
pub mod word;
pub mod words;
