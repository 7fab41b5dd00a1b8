//! Audits of traces, and the lines of an epoch of a kept object, played again: both read the lines of a trace, and do
//! each call once more.
//!
//! `audit` says of a trace whether it is legal: every prefix of its starts and ends satisfies every path, and each
//! reply is that of the sequential object; or which line is the first that is not.
//!
//! An epoch begins with values, behind a past. Its lines are `start N sK OP ARG ..` and at once `end N` with the reply,
//! `cancel N sK OP ARG ..` where a call that waited was cancelled, and `name sK CLIENT` where a session got a name.
//! `epoch_said` reads a line; `epoch_replay` plays the lines, one after the other. What is played is sound
//! (`specs/Sound.antt`), as a legal trace is, behind the past and on the contents then. Of a line that is refused the
//! fault is told in the words of an audit.
#![tactic(auto)]

pub mod audit;
pub mod calls;
pub mod carried;
pub mod counters;
mod counts;
pub mod epoch_laws;
pub mod epoch_replay;
pub mod epoch_said;
pub mod laws;
mod numbers;
mod part;
pub mod replay;
pub mod said;
mod same;
pub mod start;
mod state;
pub mod told;
pub mod verdict;
