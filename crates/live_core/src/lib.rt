//! One object that is kept: one value in one hand; the lines with which an epoch of it begins; and the object with its
//! clients, as it is served.
//!
//! A call that is taken and may start is started, done and ended in one step, and behind it each waiting call that may
//! start then, in the order of their numbers. Nothing runs between two steps, so each moment is one at which the object
//! may be stopped and begun again: an epoch ends with the contents, the calls that wait and what the paths have
//! counted, and the next one begins with them (`live::Live::behind`).
//!
//! The type `live::Live` keeps by itself that there is a history behind it (`specs/Hall.antt`, `IsHeld`): every prefix
//! of its starts and ends satisfies every path, each reply is that of the sequential object, it leads to the contents
//! now, no call runs, and no waiting call may start. `specs/Settles.antt` says what one step does, `specs/Answers.antt`
//! which calls are refused. `lines` writes the lines of the calls that ran; `laws` says that they are those of the
//! trace.
//!
//! The front of an epoch says which object it is of, the values of its parts, a past that leaves what the paths have
//! counted, the calls that wait, the names of clients, and the last calls of each name. `specs/Text.antt` has the words
//! of each line, `specs/Front.antt` what a front is. `write` adds the lines piece by piece; `front_read` reads them.
//!
//! `hosted::Hosted` gives a client its session and knows by its key a call that was made before; `calls` lets a client come
//! in, makes a call and cancels one, and adds the lines that tell of it. What each does is a step (`specs/HostedSteps.antt`):
//! to the object as `live` says it, and to what is known of its clients as `guest_core` says it (`specs/Calls.antt`).
//! `epoch` writes the front of the next epoch and begins it; `start` begins an object again behind what its journal told.
#![tactic(auto)]

mod body;
pub mod call;
pub mod calls;
mod data;
pub mod epoch;
pub mod event;
pub mod front;
pub mod hall;
pub mod hosted;
pub mod laws;
pub mod lines;
pub mod live;
pub mod past;
mod runs;
pub mod size;
pub mod source;
pub mod start;
mod waiters;
mod waiting;
pub mod write;
