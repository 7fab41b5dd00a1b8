//! What a start recovers of the journal of a kept object, from its texts to what was held.
//!
//! The text of a journal is a front, which says what the epoch began with, and the lines of what happened since.
//! `text_recover::recover` reads the front (`front_read`), and `recover::recover_behind` plays the lines behind it up
//! to the last at which no call runs, and gives what the epoch came to: the contents, what the paths have counted, the
//! clients with their keys and last calls, and the greatest number. `specs/Recovered.antt` says what is recovered of a
//! text, `specs/Clients.antt` what lines make of the clients.
//!
//! `chain::follows` says whether a front is one with which the next epoch may begin. `epochs::Epochs` reads one text
//! after another, the oldest first, and says whether each may follow the one before it: so a folder is audited. `said`
//! has the lines that tell of it.
//!
//! The front of an object with holds has a line `held sK N OP DATA ..` for each call that is held when it begins, the
//! oldest first, behind all others. `front_read::hold_lines` writes them, and `text` reads a front with them, and cuts
//! them out of a journal, which is then read as that of an object without holds. `past` says what is held at the end: what happened
//! since is told by the lines behind the front, and nothing else is stored. `laws` says that what is held can be told
//! so, and in one way. `changed` says in what an object is declared otherwise than before, for who tells of it.
#![tactic(auto)]

pub mod chain;
pub mod changed;
mod clients;
pub mod epochs;
pub mod laws;
pub mod lines;
mod numbers;
pub mod past;
mod playing;
mod read;
pub mod recover;
pub mod said;
pub mod text;
pub mod text_recover;
