//! An object that threads share: a desk under a lock, and the seats, slips and advice that it hands out.
//!
//! An [`inside::Inside`] is what lies under the lock: a desk, how many sessions were given out, and the names of some
//! of them. All that is proved of calls is said of it. An [`office::Office`] is an inside under a lock, with waiters
//! that are woken when their call moves; its clauses say what a caller can know without seeing the inside. The lock is
//! held for a call of the inside alone, never while a body runs.
//!
//! A `client_seat::Seat` is a session that was given out, with what its holder has seen of the history.
//! `clients::ClientPlaces` is the table of names: a seat that was given out under a name can be parked, and is given out
//! again under that name. `seats::are_seats` answers whether seats, with those that are parked, are those of all
//! sessions, each once.
//!
//! A receipt holds the outcome of a run as the run made it, with a place for each byte of the longest text. A slip
//! tells the same of the entry in less, for as long as a session lasts: texts lie apart, and it has the pins of the
//! parts that the call read and the new page lists of those that it changed, each row of its own size.
//!
//! Calls that exclude each other run one after another, so what lasts is what lies between the start of one and the
//! start of the next. A count of the calls that run ([`turns`]) tells when a call that would only wait is better
//! submitted later.
#![tactic(auto)]

pub mod client_seat;
pub mod clients;
pub mod deadline;
mod find;
pub mod inside;
pub mod keyed;
pub mod laws;
mod made;
pub mod named;
pub mod office;
pub mod room;
pub mod seat;
pub mod seats;
pub mod slip;
pub mod turns;
pub mod uncalled;
