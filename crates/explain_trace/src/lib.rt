//! What a person is told who asks why a trace is not legal, or why a line of a script is not taken.
//!
//! `trace::explain_trace` says of the first faulty line of a trace why it is one: which reply the object gives, which
//! path a start breaks and who is active then, and so on. `script::explain_script` says of the line that ended a script
//! what it comes closest to, and of calls that the object does not take what it would take (`called`). Each gets the
//! whole text, and finds the lines again. At a prompt (`prompt`) the same is told of each line, when it has been
//! answered; `listed` tells the objects of a source.
//!
//! That the texts are safe to make, and end, is proved; what they say is tested by the cases of `cases/run` and
//! `cases/audit`.
#![tactic(auto)]

mod bad;
mod breach;
mod called;
mod forms;
pub mod listed;
pub mod prompt;
mod reply;
mod rules;
pub mod script;
mod story;
pub mod trace;
