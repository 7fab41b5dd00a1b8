//! Bodies over what is known of their parts.
//!
//! Of an array of integers some pages may be known and others not (`Pages`). `evaluate` does the body of an operation
//! over what is known: it is done, it is refused, or it comes to an element that is not known and names it. In the
//! place of such an element stands any, so that what a body is done on are values like any others. `specs/Partly.antt`
//! says what a body means over what is known, and `laws` ties that to what it means on whole contents.
//!
//! Each change is noted with what takes it back (`log`). Runs, which drop the values of a refused body, need none of
//! that; `apply_all` does a body on whole values in place, and takes back what a refused one changed.
#![tactic(auto)]

pub mod act;
pub mod apply;
mod eval;
pub mod evaluate;
pub mod laws;
mod log;
mod logged;
pub mod pages;
pub mod parts;
pub mod stop_word;
mod whole;
