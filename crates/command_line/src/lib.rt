//! The command line of `pathserve`: what it asks for, and the help that it shows.
//!
//! `request` says what words ask for: `commands` tells the parser what there is, `matched` reads what it found, and
//! `mistakes` has the errors of words that are not what they should be. `past` reads a value of `--past`, `belief` those of
//! `--accept-cut` and `--known`, and `watching` takes words of `keep` out that the parser does not see.
#![tactic(auto)]

pub mod belief;
mod commands;
pub mod help;
pub mod laws;
mod matched;
pub mod mistakes;
pub mod past;
pub mod request;
pub mod watching;
