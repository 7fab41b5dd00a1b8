//! The subcommands that know no kept object: `paths`, `check`, `run`, `try`, `audit` and `serve`, over files and streams.
//!
//! What `paths` and `check` answer over any reader and writer `answer_core` says; `script_answer`, `try_answer` and
//! `audit_answer` say it of `run`, `try` and `audit`, `run_explanation` what they tell of why something is refused, and
//! `laws` what follows from the definitions alone. What else stands here opens their files, hands them the streams, and
//! tells what is lacking (`paths`, `check`, `script`, `attempt`, `audit`). `holds` has the answers of `check` and `run`
//! where the objects of a source have holds.
//!
//! `folder_audit` audits a folder of kept objects: for each object its epochs, the oldest one first. The epoch that
//! goes on is `NAME.journal`; ended ones are `NAME.NNNNNN.trace`, with the number of the epoch in six digits at least.
//! `files` reads them, and `recover_core` says whether each may follow the one before it. No clause can say what a
//! folder holds; that texts are told as whole only where they can be such epochs is proved.
//!
//! Of `pathserve serve` `start` takes what a server needs, before any thread is started: it tells what is lacking, and
//! refuses the folder of a server that stays (`kept`). `gates` has the gate where clients connect. `serve` serves over
//! any runtime, and gives the exit status: that of how `serve_core` says that the server ended.
#![tactic(auto)]

pub mod attempt;
pub mod audit;
pub mod audit_answer;
pub mod check;
pub mod files;
pub mod folder_audit;
pub mod gates;
mod holds;
pub mod kept;
pub mod laws;
pub mod paths;
pub mod run_explanation;
pub mod script;
pub mod script_answer;
pub mod serve;
pub mod start;
pub mod try_answer;
mod untaken;
