//! The reader of what an object declares before its operations: constants, paths and parts, and of the parameters of an
//! operation.
//!
//! `constants`, `paths`, `parts` and `params` each read a series of them, and `kind_text` what parts and parameters hold.
//! `group` reads names up to a colon, and tells whether a series goes on.
#![tactic(auto)]

pub mod constants;
pub mod group;
pub mod kind_text;
pub mod params;
pub mod parts;
pub mod paths;
