//! Sessions: lines from a reader, answers to a writer, calls on offices.
//!
//! `serve::serve_session` serves one client. The calling thread (`work`) reads lines, submits, awaits, performs and
//! completes the calls, keeps their receipts, and retires the files that they leave. Where a call has to wait, it lends
//! the reading side to a second thread (`listen`), which answers cancels at once, hands the rest over in order, and
//! gives the reading side back when the first thread has nothing else to do; and a third thread (`sender`) sends what
//! is held back. `entered` has the object that is opened, and parks the seat of a client that has a name when all
//! threads have ended. `end` compares the notes of what was written with the receipts and tells the fault.
//!
//! What is written goes through `output`, under a lock: whole lines, each noted (`note`) where it is the last line of a
//! receipt. `mouth` is the writing side as the threads of a session share it, and `held` has the lines that it holds
//! back. `fault` says why a session ended. Which lines there are, and what is heard, is `session_text`'s.
#![tactic(auto)]

pub mod end;
mod entered;
pub mod fault;
pub mod held;
pub mod laws;
mod listen;
pub mod mouth;
pub mod note;
pub mod order;
pub mod output;
pub mod patient;
pub mod room;
mod sender;
pub mod serve;
pub mod stage;
pub mod uncalled;
mod work;
