//! Devices below a desk, and offices, over the public calls of `page_core`, `run_core`, `desk_core` and `office_core`,
//! where no case shows it: a device that fails at one call, an office that refuses, and threads. Above each test stands
//! the edit of `wrong-by-test/` that it catches, or what no case can show.
#![tactic(auto)]

#[cfg(test)]
mod devices;
#[cfg(test)]
mod faults;
#[cfg(test)]
mod make;
#[cfg(test)]
mod offices;
#[cfg(test)]
mod threads;
