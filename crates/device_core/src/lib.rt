//! Devices: files in memory and in folders, and hands that fail.
//!
//! `memory` and `mem_shelf` are devices of which everything is proved, `dir` and `dir_shelf` those of a folder, and
//! `fuse` hands that fail from some call on.
//!
//! What a device is: hands that write files, and shelves that keep bytes under names.
//!
//! A `Hand` writes files once, under numbers that it gives itself, and reads them; a `Shelf` keeps bytes
//! under names. `specs/Device.antt` says what is assumed of them: what was written is what is read. `specs/Made.antt`
//! has the calls of a hand: what a wrapper does is said by the calls that the hand inside it makes.
//!
//! Files made ahead and shared, over the files of a folder.
//!
//! A hand that has its next file ready ([`ahead`]) takes the making of a file out of the time between two calls that
//! exclude each other, and hands that share what they sealed last ([`sealed`]) the reading. What a hand itself read
//! last it keeps ([`reads`]).
#![tactic(auto)]

pub mod ahead;
pub mod dir;
pub mod dir_shelf;
pub mod failing;
pub mod file;
mod folder;
pub mod fuse;
pub mod hand;
pub mod mem_shelf;
pub mod memory;
pub mod numbers;
pub(crate) mod reads;
pub mod retire;
pub mod sealed;
pub mod shelf;
pub mod uncalled;
pub mod whole;
