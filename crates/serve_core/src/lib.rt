//! A server of the objects of a source, over a folder and a listener.
//!
//! `serve::serve_on` opens the parts of each object in a folder, serves so many connections, each on threads of its
//! own, and then closes each object, saves its parts and writes its trace. It does so by a `Host`, whose verbs are
//! `open`, `listen`, `serve` and `close`. What a connection says and hears is `session_core`'s; what becomes of one object,
//! from its start to its end, `keep_core`'s.
//!
//! `folder` says which files of a folder are value files, and with which number a run begins; `found` has the numbers
//! that an earlier run left. `values` is what is asked of these files: which are there, and that one is removed or
//! moved. `clear` moves away those that an earlier run left, and removes those of a run that has ended;
//! `specs/Deeds.antt` says what each asks, and so that it asks nothing else.
#![tactic(auto)]

pub mod backed;
pub mod clear;
pub mod folder;
pub mod found;
pub mod gate;
pub mod gather;
mod host;
pub mod listen;
pub mod open;
pub mod serve;
pub mod values;
