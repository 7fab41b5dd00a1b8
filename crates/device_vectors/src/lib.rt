//! What every hand and every shelf does, what theirs are told of folders, and what journals and their files do, over the
//! public calls of `device_core` and `keep_loop`. Above each test stands the edit of `wrong-by-test/`
//! that it catches, or what no case can show.
#![tactic(auto)]

#[cfg(test)]
mod folder;
#[cfg(test)]
mod hand_calls;
#[cfg(test)]
mod hands;
#[cfg(test)]
mod journals;
#[cfg(test)]
mod numbers;
#[cfg(test)]
mod places;
#[cfg(test)]
mod scratch;
#[cfg(test)]
mod shelf_calls;
#[cfg(test)]
mod shelves;
#[cfg(test)]
mod taken;
