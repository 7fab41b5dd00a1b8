//! What `pathserve check` prints of a source, and what a source is to a script and to a server.
//!
//! `report::check_report` reads the objects of a source and says of each one whether it is accepted, with the
//! certificate of every pair, or why not (`specs/Report.antt`). `stuck_report` says behind each accepted one of every
//! operation whether it can be lost, where it can wait while nothing runs, and whether the object can get stuck
//! (`specs/StuckReport.antt`). `hold_report` says behind the pairs of each accepted one what it says of clients that
//! are gone and of time; `held::push_held_call` is the line of a call that is held, for who asks `who`.
//!
//! `head::read_head` reads a script or a trace until its first line, `object NAME`, is whole; `open::open_script` finds
//! that object, and where there is none to run on, it gives the line that says why. Nothing here knows what the lines
//! behind it say. `judge::judge` gives a server the objects of a source where each of them is accepted, and else the
//! lines that say why it is not served.
#![tactic(auto)]

pub mod head;
pub mod held;
mod hold_lines;
pub mod hold_report;
pub mod judge;
mod lines;
pub mod open;
pub mod report;
pub mod stuck_report;
mod text;
pub mod uncalled;
