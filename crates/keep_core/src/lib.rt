//! One object of a server, from its start to its end, of both kinds of servers.
//!
//! Of `serve`: `open::open_one` opens the parts of an object from a folder into an office. `close::Closing` closes an
//! office with what its sessions left, saves the parts of its object and writes its trace. `trouble` has what went
//! wrong while the rest was still done.
//!
//! Of `keep`: where the object has a journal, `start` goes on behind what that tells. Else its parts are those of a
//! folder, or of their kinds where nothing is there; what its paths counted is told by no part, so an object whose
//! paths have a `;` begins so only where it has no part yet, or where it is told what was done before. Its parts are
//! saved (`save`) as `serve` saves them when it ends.
#![tactic(auto)]

pub mod close;
pub mod ending;
pub mod laws;
pub mod marks;
pub mod open;
pub mod opening;
mod save;
pub mod start;
pub mod trouble;
