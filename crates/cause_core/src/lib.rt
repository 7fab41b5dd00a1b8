//! Why a call of the system failed, and what could not be done with a file: as it is told, everywhere in the same words.
//!
//! `cause::Cause` is why, as far as the system says: of an error of it (`cause_of`), or of its kind alone. `fault::FileFault`
//! is what could not be done with a file, and why; `push_fault` adds the line that tells it.
#![tactic(auto)]

pub mod cause;
pub mod fault;
