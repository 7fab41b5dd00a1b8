//! Sessions of clients, and what a server makes of them, over the public calls of `session_core` and `serve_core`, where
//! no case shows it: readers, writers and devices that behave as a test needs, and gates. Above each test stands the
//! edit of `wrong-by-test/` that it catches, or what no case can show.
#![tactic(auto)]

#[cfg(test)]
mod deaf;
#[cfg(test)]
mod gates;
#[cfg(test)]
mod gathered;
#[cfg(test)]
mod gone;
#[cfg(test)]
mod lines;
#[cfg(test)]
mod make;
#[cfg(test)]
mod named;
#[cfg(test)]
mod patience;
#[cfg(test)]
mod slow;
#[cfg(test)]
mod streams;
#[cfg(test)]
mod turns;
