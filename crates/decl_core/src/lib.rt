//! Objects: their parts, the trees of their operations, what the body of an operation means, which parts it reads and
//! writes, and which objects are accepted.
//!
//! `object`, `hold`, `stmt`, `expr` and `kinds` are what an object declares. What the words of its holds
//! (`hold::Rules`) mean is in `guest_core`, how they are read in `decl_read`; nothing of an object's operations, paths
//! or parts knows of them.
//!
//! `footprint` tells the parts that an operation reads and writes, `analyse` whether every pair of operations that
//! conflict is separated by a node of a path, with a certificate that `check_certificate` checks.
//! `specs/Separates.antt` says when a node separates two operations, `specs/Exclusive.antt` which objects are accepted;
//! `exclude_laws` says that separated operations never meet.
#![tactic(auto)]

pub mod analyse;
pub mod certificate;
mod conflict;
pub mod exclude_footprint;
pub mod exclude_laws;
pub mod expr;
pub mod footprint;
pub mod hold;
pub mod id;
mod kinds;
pub mod laws;
pub mod object;
pub mod same;
mod same_body;
mod same_text;
mod search;
pub mod stmt;
mod sum_rows;
mod touched;
pub mod uncalled;
mod walk;
pub mod word;
