//! What a crash leaves of a file, drawn.

ghost use Rattle.std.specs.Prelude.{◌≡◌, ◌≢◌, ◌+◌, ◌≤◌, length, IfOk, IfSome};
ghost use Rattle.keep_loop.specs.Device.{with_bytes, IsTorn};
ghost use Rattle.crash_trial.specs.Kept.{Leaves};

use crate::device::{Happened, with};
use std::alloc::{AllocError, Global};

/// Which bytes that were not stored are there.
#[derive(Clone, Copy, Debug)]
pub enum SurvivingBytes {
    /// Those of the calls before this one, and so many of its bytes.
    Cut(usize, usize),
    /// Each or not, as this number draws it.
    Drawn(u64),
}

// A number that hangs on all three, and looks as if drawn.
pub(crate) fn mixed(seed: u64, call: usize, byte: usize) -> u64 {
    let first = seed
        .wrapping_add((call as u64).wrapping_mul(0x9e37_79b9_7f4a_7c15))
        .wrapping_add((byte as u64).wrapping_mul(0xbf58_476d_1ce4_e5b9));
    let second = (first ^ (first >> 30)).wrapping_mul(0xbf58_476d_1ce4_e5b9);
    let third = (second ^ (second >> 27)).wrapping_mul(0x94d0_49bb_1331_11eb);
    third ^ (third >> 31)
}

// Whether a byte that a call wrote is there.
fn is_there(how: &SurvivingBytes, call: usize, byte: usize) -> bool {
    match how {
        SurvivingBytes::Cut(last, bytes) => call < *last || (call == *last && byte < *bytes),
        SurvivingBytes::Drawn(seed) => mixed(*seed, call, byte) & 1 == 1,
    }
}

// Takes some of these bytes back to what they were.
fn tear(was: &[u8], file: &mut [u8], from: usize, to: usize, how: &SurvivingBytes, call: usize)
    requires { length was.now ≡ length file.old }
    ensures { IsTorn was.now file.old file.new }
{
    for place in from..to {
        if place < file.len() && !is_there(how, call, place - from) {
            file[place] = was[place];
        }
    }
}

// What is left behind these calls: `seen` is what a read returned before them, and `left` what a crash left of that.
fn left_behind(
    alloc: Global,
    seen: &[u8],
    left: &[u8],
    happened: &[Happened],
    how: &SurvivingBytes,
    call: usize,
) -> Result<Option<Vec<u8>>, AllocError>
    ensures { IfOk result (λ found. IfSome found (λ c. Leaves seen.now left.now happened.now c.items)) }
{
    match happened {
        [] => Ok(Some(left.to_vec(alloc)?)),
        [Happened::Wrote(at, bytes), happened @ ..] => {
            let mut torn = with(alloc, left, *at, bytes)?;
            if *at > seen.len() || bytes.len() > seen.len() - *at || torn.len() != left.len() {
                return Ok(None);
            }
            tear(
                left,
                &mut torn,
                *at,
                at.saturating_add(bytes.len()),
                how,
                call,
            );
            let seen = with(alloc, seen, *at, bytes)?;
            left_behind(alloc, &seen, &torn, happened, how, call.saturating_add(1))
        }
        [Happened::Stored, happened @ ..] => {
            left_behind(alloc, seen, seen, happened, how, call.saturating_add(1))
        }
        [Happened::Replaced(bytes), happened @ ..] => {
            left_behind(alloc, bytes, bytes, happened, how, call.saturating_add(1))
        }
        [Happened::Refused, happened @ ..] => {
            left_behind(alloc, seen, left, happened, how, call.saturating_add(1))
        }
    }
}

/// What a crash leaves of a file behind these calls, the oldest first. `None`: one of them wrote past the end of the
/// file. The error is that memory was refused.
pub fn crash(
    alloc: Global,
    file: &[u8],
    happened: &[Happened],
    how: &SurvivingBytes,
) -> Result<Option<Vec<u8>>, AllocError>
    ensures { IfOk result (λ found. IfSome found (λ c. Leaves file.now file.now happened.now c.items)) }
{
    left_behind(alloc, file, file, happened, how, 0)
}
