//! The reader of bodies: the grammar of expressions, conditions and statements, and the trees that it gives, resolved
//! by the names that are declared around them.
//!
//! `block::body` reads the statements of an operation, `terms` its expressions, `condition` its conditions.
#![tactic(auto)]

pub mod block;
mod condition;
mod kinds;
mod terms;
