//! The reader of objects: the grammar of operations, of objects and of files, and the objects that a source has by it.
//!
//! `read::read_objects` reads a source, and `fault` is what is said of it where it has no objects. Of an object
//! `decl_parts` reads what is declared before its operations, and of an operation `body_read` reads the statements.
//!
//! What an object says of clients that are gone and of time stands behind its operations, and is no part of the object:
//! `held_read::read_held` reads it from the tokens of a source, and has `read` read the objects from the source
//! without it, in which spaces stand in its place (`cut`). So places of faults stay as they are, and nothing that an
//! object is made of, or stands on, knows of holds.
#![tactic(auto)]

mod catalog;
mod collect;
mod cut;
mod entry;
mod everies;
pub mod fault;
mod faults;
pub mod held_laws;
pub mod held_read;
mod holds;
pub mod laws;
mod objects;
pub mod read;
pub mod rules;
mod sections;
mod words;
