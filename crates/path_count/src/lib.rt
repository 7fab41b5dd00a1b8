//! Counters that stand for a trace of paths, and the engine of `pathserve paths` over them.
//!
//! `counters::compile` walks the paths once. From then on a start, a finish and each question of `counters` take no
//! memory, and a time that the length of the trace does not change: each path keeps a few counters, and each operation
//! a list of steps over them for each path that names it (Campbell and Habermann, 1974). `paths::run_paths` answers the
//! lines of `paths`.
//!
//! `compile` makes these steps, of all paths or of a part of them, and `program` and `object` take them on counters
//! that anybody lends; `nodes` is what is asked of the nodes of a path on the way. Crates above use them too.
//!
//! `past` plays calls that started and ended, and gives their counters where the paths let it happen; `finder` looks
//! for a short past that leaves the same counters as a long one, and gives only such a one. What may follow the one may
//! follow the other, so a file that begins an epoch of an object needs no history.
//!
//! `path_laws` are laws over the definitions alone, which no program calls: two traces that leave the same counters
//! have the same future; where the paths of an object let each operation start again, whatever was done before; and the
//! end of which operations alone can let a refused start go.
#![tactic(auto)]

pub mod compile;
pub mod counters;
pub mod finder;
pub mod laws;
pub mod nodes;
pub mod object;
pub mod past;
pub mod path_laws;
pub mod paths;
pub mod program;
mod walk;
