//! What the readers of a source's objects read with.
//!
//! `front` reads what stands at the front of some tokens, `lookup` finds a name among those that are declared, and
//! `scope::BodyScope` is all that the text of an operation is read with. `text_fault::TextFault` tells why tokens are no
//! objects, and `text_fault::TextRead` is what was read, with the tokens behind.
#![tactic(auto)]

pub mod front;
pub mod lookup;
pub mod scope;
pub mod text_fault;
