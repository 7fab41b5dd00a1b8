//! The front of an epoch of a kept object, read from its text.
//!
//! `read::read_front` takes the front at the beginning of a text, and tells how many bytes it has. Nothing but what
//! `live_core` writes is read: each row is written again and compared. A row is read in three steps: `text` cuts its
//! line, `word_core` makes words of it, and the module of the row takes these for what they stand for.
//!
//! The front of an object with holds has a line `held sK N OP DATA ..` for each call that is held when it begins, behind
//! all others. `hold_lines` writes them; `recover_core` reads them.
#![tactic(auto)]

mod answer;
pub mod call;
mod carried;
mod client;
mod head;
pub mod hold_lines;
mod kept;
pub mod number;
pub mod read;
mod run;
pub mod text;
