//! What every shelf does: in memory here, and in a folder by a line of `folder`.

use crate::hands::many_bytes;
use crate::shelf_calls::ShelfCall::{Failures, Load, Nothing, Store};
use crate::shelf_calls::{ShelfCall, loads, play};
use device_core::mem_shelf::MemShelf;
use device_core::shelf::Shelf;
use std::alloc::Global;
use std::process::Abort;

// What was stored last under a name is loaded, and names are kept apart.
const ENTRIES: &[ShelfCall] = &[
    Failures(0),
    Nothing(b"cell.v"),
    Store(b"cell.v", b"\x01\x00\xFF"),
    Load(b"cell.v", b"\x01\x00\xFF"),
    Nothing(b"cell.w"),
    Nothing(b"cell"),
    Store(b"cell.w", b"other"),
    Load(b"cell.v", b"\x01\x00\xFF"),
    // A shorter one, a longer one and an empty one in its place.
    Store(b"cell.v", b"a"),
    Load(b"cell.v", b"a"),
    Load(b"cell.v", b"a"),
    Load(b"cell.w", b"other"),
    Store(b"cell.v", b"a longer one"),
    Load(b"cell.v", b"a longer one"),
    Load(b"cell.v", b"a longer one"),
    Load(b"cell.w", b"other"),
    Store(b"cell.v", b""),
    Load(b"cell.v", b""),
    Load(b"cell.v", b""),
    Load(b"cell.w", b"other"),
];

/// Asserts the above, and that 70,000 bytes may stand in the place of what a name has. The shelf has to be empty.
pub fn is_a_shelf<S: Shelf>(rt: &impl Abort, alloc: Global, shelf: &mut S) {
    play(rt, alloc, shelf, ENTRIES, 0);
    let many = many_bytes(rt, alloc);
    assert!(rt;
        shelf.store(b"cell.v", &many).is_ok() && loads(alloc, shelf, b"cell.v", Some(&many))
    );
    assert!(rt; shelf.failures() == 0);
}

// No case can show it: a program loads and stores each name once.
#[test]
fn a_shelf_in_memory(rt: HostRuntime) {
    let mut shelf = MemShelf::new(rt.alloc());
    is_a_shelf(&rt, rt.alloc(), &mut shelf);
}
