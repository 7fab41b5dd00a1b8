//! What a loop has outside of it, with a log and a status.
//!
//! `logged::Logged` and `shown::Showing` are connections, a clock and journals as another one has them: the loop sees
//! of them what it sees of that. The first adds a line to a log where a client is let go that did not leave by itself,
//! where an epoch begins or cannot, and where a journal fails. The second counts connections, bytes and syncs, and puts
//! a status where a `sink::Sink` has it, which may fail.
//!
//! `log::Log` is the log: each of its functions writes a front of the line of its event, and all of it where the writer
//! takes it. `event` has a function for each event of a kept server, which adds its line. `line` is what such a line is
//! made of: the `moment` in UTC, how much it matters, the event, and what is told of it; as text or as JSON. What a
//! line says is a function of its moment and its event: `specs/Events.antt` has the whole of it.
#![tactic(auto)]

pub mod event;
pub mod line;
pub mod log;
pub mod logged;
pub mod moment;
pub mod shown;
pub mod sink;
