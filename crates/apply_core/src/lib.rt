//! On what a body is done, and what it leaves, in each form in which that lies; and what a call means: the sequential
//! object. No device stands here: an audit needs none. `known_core` does the bodies.
//!
//! `arguments_fit` and `parts_fit` say on which values a body can be done, and a `Reply` tells what a call is answered.
//! `specs/History.antt` says when the ends of calls are a history of the sequential object; `laws` has what holds of
//! histories.
//!
//! `short` and `slim` are texts, data and replies in memory of their own length: a `Datum` has room for the longest
//! text, so that it is copied without memory, and of thousands of calls an integer takes four bytes, and a text its
//! own.
//!
//! `spelled::Spelled` is a value in the bytes that spell it: they are walked once, to see that they spell one
//! (`strip`), an entry is found where it lies (`find`, `skip`), and a change puts other bytes in the place of some
//! (`splice`; `queue`, `table`, `array`). `specs/There.antt` says which value bytes spell, `specs/Remade.antt` what an
//! operation leaves of them.
//!
//! An array of integers may be read by pages of 1,024 bytes: behind its header all bytes are integers, so that its
//! header and its length tell whether its bytes spell one (`page`, `need`). `specs/Pages.antt` says what a page is, and
//! in which one an element stands; `piece_laws` has what holds of them.
#![tactic(auto)]

pub mod array;
mod find;
pub mod fits;
mod header;
pub mod laws;
pub mod need;
mod order;
pub mod page;
pub mod piece_laws;
mod plain;
pub mod queue;
pub mod reply;
pub mod short;
mod skip;
pub mod slim;
pub mod spelled;
pub mod spelled_laws;
mod splice;
mod strip;
pub mod table;
