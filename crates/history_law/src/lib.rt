//! Laws of one object's history, of what is stored of it, and of what is read back, over the definitions alone. No
//! program calls them, but `keep` and `anew`, which say so of a journal.
//!
//! - `named_laws`: an object that the reader accepts has names, and each operation its own.
//! - `audit_laws`, `saved_laws`: the trace of a desk is legal where its history is, and so is the trace that is saved.
//! - `crash_laws`: what a crash leaves of a legal trace is a legal trace. `keep::keep` adds lines and stores them, and
//!   a crash at any moment of it leaves a legal trace, which has each end that was stored and no end that was not made;
//!   `anew::begin_anew` begins the next epoch, and a crash leaves such a trace of the old one, or the front of the new
//!   one.
//! - `year_laws`: an epoch begins behind a short past that leaves the counters with which the one before it ended, and
//!   with its contents. So all epochs together, however many, are as one: their starts and ends are one trace, each
//!   prefix of which satisfies every path, and the ends of all calls one history of the sequential object. In it the
//!   key of a call stands once, as long as its name stays known.
//! - `written_laws`: what an object with its clients adds to its journal (`live_core`) is what recovery reads
//!   (`audit_core`): wherever a crash has cut the lines, they tell the first steps of what happened, and nothing else.
//! - `front_laws`: the front of an epoch that a start reads is the one that was written; no line behind it is taken for
//!   one of it.
//! - `keyed_laws`: each key of a name stands once at each moment of an object that is served, from what was read, or
//!   from nothing, on.
//!
//! And laws of all turns of `keep`, and of what its connections are told, over the definitions alone: no program calls
//! them.
//!
//! `client_core` says what each turn of a table does, and tells to whom; `keep_loop` which turns a connection may have
//! read the answers of, and that a crash keeps their lines; the laws of one object's history what is read back
//! of its lines. Here they meet.
//!
//! - `said_laws`: each reply that a turn tells is that of a call which ran in it, or is remembered.
//! - `kept_laws`: over all turns an object goes by steps; what a crash leaves of it is read back, all of it that a
//!   connection was answered of, and is one history.
//! - `repeat_laws`, `asked_laws`: what is told of a call that was made before has the reply of a call in that history;
//!   and the call that ran under a key is the one that its client had asked.
//! - `asker_laws`, `order_laws`: each reply that a connection is told is that of the call for which a line of it asked;
//!   and its lines and what it is told are one talk, in their order.
//! - `talk_laws`: no two connections are told how one call ended; what one is written are the texts of its talk; and
//!   what a line is answered in its turn is what it asks for.
//! - `hold_laws`: what is held is what just the calls have left that ended; what not everybody may give back is given
//!   back once; and a start plays what was held.
//! - `life_laws`: what was written is read, and lives on, from life to life.
#![tactic(auto)]

pub mod anew;
pub mod asked_laws;
pub mod asker_laws;
pub mod audit_laws;
pub mod crash_laws;
pub mod front_laws;
pub mod hold_laws;
pub mod keep;
pub mod kept_laws;
pub mod keyed_laws;
pub mod life_laws;
pub mod named_laws;
pub mod order_laws;
pub mod repeat_laws;
pub mod said_laws;
pub mod saved_laws;
pub mod talk_laws;
pub mod text;
pub mod written_laws;
pub mod year_laws;
