//! The desk of an object: which calls wait and which run, what happened, and the history of those that finished.
//!
//! To whoever drives it a desk is a board (`board_core`): its calls, what happened to them, and what each event makes of
//! that. Each call of a desk makes of the board what the event makes, and admission follows, so that no waiting call may
//! start between two calls of a desk. What a call will need is made room for when it is submitted: no other call of a desk
//! takes memory, and none does work that grows with the history.
//!
//! `queue_core` has the calls that wait, and finds the first that can start. `find` is what is looked up of a board to give
//! an answer. What a program holds of a desk can be told by lines (`held`).
#![tactic(auto)]

pub mod desk;
pub mod find;
pub mod held;
mod marks;
mod roster;
mod text;
