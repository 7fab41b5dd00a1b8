//! The lines of sessions: what each asks for, what is done for it, the lines that answer, and what reads them.
//!
//! A client of a served object writes a line for each thing it asks for: `open NAME`, `call OP ARG ..`, `cancel N`,
//! `quit`. One that has a name writes `open NAME as CLIENT`, and `call #J OP ARG ..` for its call under the key J.
//! `request::read_line` reads a line; what it asks for is a function of its words (`specs/Requests.antt`), and
//! `laws::request_exact` has the words that ask for each thing. `session::Session` tells what is done for a line, by
//! whether an object is opened (`specs/Table.antt`). `line` writes the lines that answer, whose texts
//! `specs/Lines.antt` has, and `specs/Answers.antt` says which of them may answer which request.
//!
//! `reader` cuts what is read into lines, `ear` tells what each asks for, and `reading` is the reading side as the
//! first thread of a session has it: in its hands, or lent to the second thread, which hands over what it heard by
//! `relay`. `bell` tells sessions to end, and `fault` says why nothing more is heard. What is done for the lines is
//! `session_core`'s.
#![tactic(auto)]

pub mod bell;
pub mod ear;
pub mod fault;
pub mod laws;
pub mod line;
pub mod reader;
pub mod reading;
pub mod relay;
pub mod request;
pub mod session;
