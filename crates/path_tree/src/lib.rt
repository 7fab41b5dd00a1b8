//! Path expressions: their tokens, their trees, their canonical text, and the traces that they allow.
//!
//! `lex::lex` gives the tokens of a source, or its first fault from the left. `read::parse_path` reads the
//! path that stands at a token, exactly where one stands. `print::print_path` writes a path as its
//! canonical text, which derives this path and no other. `specs/` has the definitions of traces, of the
//! counts of a node and of what a path allows; `laws` has what holds of them. Nothing here counts at run
//! time: that is `path_count`.
#![tactic(auto)]

mod front;
pub mod laws;
pub mod lex;
pub mod lookup;
pub mod name;
mod nest;
pub mod node;
mod parts;
pub mod path_fault;
pub mod print;
pub mod read;
mod scope;
mod small;
pub mod token;
pub mod tree;
