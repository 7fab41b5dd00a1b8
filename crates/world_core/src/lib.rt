//! A world: an object, its desk, the runs of its calls, and one device in memory under them all.
//!
//! Whatever can happen to an object is an event of a world: a call, also under a key, one step of one run, which works
//! or fails, a finish, a cancel, a session that leaves or is back, a look at the contents. Events come in any order,
//! and `Answers` says what each one is answered and what it leaves. `World::play` states what holds of every list of
//! events.
//!
//! `question::question_of` reads a line `why N`, `who` or `list`, and `answer::push_answer` adds what it is answered of
//! a desk: which paths refuse a call that waits, at which nodes, and which calls run there. For a question the trace of
//! the desk is counted again (`replay`), so nothing is kept for it while calls are made. `specs/Told.antt` says what is
//! answered.
//!
//! The engines of `pathserve run` and `pathserve try`: the lines of a script, or of a prompt, each answered by what it
//! does to the world of one object, whatever reader and writer.
//!
//! `script::run_script` answers the lines of a script. A line is an event of a world or, with `steps N`, several;
//! `word_core` reads it and has the texts of the answers. `specs/Writes.antt` says what each line is answered,
//! and which world it leaves.
//!
//! `hold_script::run_held_script` does so for an object with holds, with three rules more: a session that is gone gives
//! back what it held, the newest first, each by a call that the answers show; an operation that ends a hold is called
//! only by who holds it, else `no NotHeld`; and what is held follows from the ends of calls alone (`guest_core`).
//! Nothing is called by the clock. `specs/HoldDoes.antt` says what a line does, `specs/HoldAsked.antt` what it is
//! answered where it asks.
//!
//! `prompt::run_prompt` answers lines at a prompt: they are those of a script, and do what they do there, but no line
//! names an object, and none ends the lines: one that says nothing is told as bad. `why N` and `who` are answered of
//! the desk, `help` and `list` with texts that the caller gives. `specs/Tries.antt` says what each line is answered,
//! and which world it leaves.
#![tactic(auto)]

mod acts;
pub mod answer;
mod asked;
mod back;
pub mod event;
mod first;
pub mod hold_script;
pub mod laws;
mod machine;
mod noted;
pub mod pens;
pub mod prompt;
pub mod question;
mod read;
mod refused;
mod replay;
pub mod script;
pub mod script_laws;
mod slot;
mod stage;
pub mod uncalled;
pub mod world;
