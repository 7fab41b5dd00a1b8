//! What is outside of a loop, for real: connections by epoll, standard input as a stop, a clock, and journals in a folder.
//!
//! `wires::Wires` implements `keep_loop::Outside`. No clause says what a socket, a clock or a file does: that they do what
//! `Outside` says is a premise of what is proved of the loop.
#![tactic(auto)]

pub mod ahead;
pub mod clock;
pub mod journals;
pub mod others;
pub mod own;
mod places;
pub mod stream;
pub mod traces;
pub mod wires;
