//! What no case shows of the engine of `paths`, which those of `run` and `audit` share, and of what stands below: readers
//! and writers that fail at a place of their own, the room that the bytes of a value take, pasts, and public calls that
//! no program makes, those of kept objects among them. Above each test stands the edit of `wrong-by-test/` that it
//! catches, or what no case can show.
#![tactic(auto)]

#[cfg(test)]
mod engines;
#[cfg(test)]
mod fakes;
#[cfg(test)]
mod kept;
#[cfg(test)]
mod kept_clients;
#[cfg(test)]
mod pasts;
#[cfg(test)]
mod uncalled;
#[cfg(test)]
mod values;
