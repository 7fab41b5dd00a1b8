//! Numbers that several threads draw.

use device_core::numbers::Numbers;
use std::alloc::{AllocError, Global};
use std::test::Fail;
use std::thread;

// How many numbers each of two threads draws.
const DRAWS: usize = 1_000;

// Draws numbers, as long as they rise.
fn drawn(alloc: Global, numbers: &Numbers) -> Result<Vec<u64>, AllocError> {
    let mut all = Vec::with_capacity(alloc, DRAWS)?;
    let mut last = 0;
    for _ in 0..DRAWS {
        let number = numbers.draw();
        if number <= last {
            break;
        }
        last = number;
        all.push(number)?;
    }
    Ok(all)
}

// Whether these are the 2,000 numbers from 5 on, so that no two are the same.
fn are_all(numbers: &[u64]) -> bool {
    for (place, number) in numbers.iter().enumerate() {
        if *number != (place as u64).saturating_add(5) {
            return false;
        }
    }
    numbers.len() == 2 * DRAWS
}

// No case can show it: two threads draw, no number is drawn twice, and in each thread they rise.
#[test]
fn drawn_numbers_differ(rt: HostRuntime) -> Result<(), Fail> {
    let alloc = rt.alloc();
    let numbers = Numbers::new(5);
    let rows = thread::map_indices(&rt, alloc, 2, &|_| drawn(alloc, &numbers))?;
    let mut all = Vec::new(alloc);
    for row in rows {
        all.extend_from_slice(&row?)?;
    }
    all.sort_unstable();
    assert!(rt; are_all(&all));
    Ok(())
}
