//! The bytes of values.
//!
//! Each value has one spelling in bytes in each `Format` of `value_core` that has room for it: `encode::encode`
//! writes the second one, `decode::decode` reads exactly the spellings of that, `decode::decode_v1` exactly
//! those of the first, and `decode::decode_kept` those of either.
#![tactic(auto)]

pub mod decode;
pub mod encode;
mod header;
pub mod laws;
mod queue;
mod reader;
mod room;
mod rows;
