//! What all subcommands share; and what `paths` and `check` answer, over any reader and writer.
//!
//! `answer` and `stuck` say what `paths` and `check` do, `source` reads a source, and `explanation` tells why an object of
//! it is refused. `failure` says what the program ends with where it has no answer.
//!
//! `inputs` opens the files and folders that a command names, and `socket` listens at a path; where that fails `lack`
//! says what is lacking, and `said` tells it, as it tells that standard output took no more (`noting`). `sources` gives a
//! source whose objects may have holds to a command that follows them, or that does not, and `holds` says why one is
//! refused. No clause says what the system does.
#![tactic(auto)]

pub mod answer;
pub mod explanation;
pub mod failure;
pub mod holds;
pub mod inputs;
pub mod lack;
pub mod noting;
pub mod said;
pub mod socket;
pub mod source;
pub mod sources;
pub mod stuck;
