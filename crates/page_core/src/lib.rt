//! Parts as lists of pages, from a shelf to the files of a hand and back; and what a call is, without how it is run.
//!
//! The bytes of a part are cut into at most 8 pages, each in a file of its own. A `PageList` names the files of one
//! part, `Pins` those of each part of an object, and `PartPins` those of the parts that a call reads or changes, in
//! memory that is taken ahead. `plan_part` says which pages of a changed part are written, without a device;
//! `read_list` and `write_pages` read and write whole lists. `specs/Cut.antt` says what a cut is, `specs/Plans.antt`
//! what a plan is.
//!
//! `open_parts` reads each part from its shelf, in either format, and writes the pages of its value, in the second
//! format, into files of a hand; `save_parts` stores the bytes of the pages that published pins name.
//! `specs/Opened.antt` and `specs/Saved.antt` say what of that is done where a device fails.
//!
//! A `Call` is one that was accepted: whose it is, of which operation, with which arguments. A `Ticket` says over which
//! pins it runs. An `Outcome` tells how its run ended: its reply, the new page lists, and the files that nobody needs. An
//! `Entry` is what a history has of it. Who shares an object needs no more of a call.
//! `specs/CallPins.antt` says what a call is, `specs/Given.antt` what a body gives on bytes, and `specs/Truths.antt` when
//! an outcome is true.
#![tactic(auto)]

pub mod call;
pub mod cut;
pub mod entry;
pub mod fault;
pub mod file_bytes;
pub mod laws;
pub mod open;
pub mod outcome;
pub mod page_list;
pub mod pages;
pub mod part_at;
pub mod part_pins;
pub mod pins;
pub mod plan;
pub mod read;
pub mod save;
pub mod store_laws;
pub mod ticket;
pub mod uncalled;
pub mod write;
