//! Calls of any shelf, as the rows of scripts.

use device_core::hand::HandFault;
use device_core::shelf::Shelf;
use std::alloc::Global;
use std::process::Abort;

/// Some bytes, or the name of some.
pub type Bytes = &'static [u8];

/// A call of a shelf and what it answers. Each call that fails does so for the device.
#[derive(Clone, Copy, Drop)]
pub enum ShelfCall {
    /// Under this name these bytes are stored.
    Store(Bytes, Bytes),
    /// They are not stored.
    NoStore(Bytes, Bytes),
    /// Under this name are these bytes.
    Load(Bytes, Bytes),
    /// Nothing is under this name.
    Nothing(Bytes),
    /// What is under this name is not loaded.
    NoLoad(Bytes),
    /// So many calls have failed for the device.
    Failures(u64),
}

/// Whether a shelf has these bytes under a name, or nothing.
pub fn loads<S: Shelf>(alloc: Global, shelf: &mut S, name: &[u8], want: Option<&[u8]>) -> bool {
    match shelf.load(alloc, name) {
        Ok(Some(found)) => want == Some(found.as_slice()),
        Ok(None) => want.is_none(),
        Err(_) => false,
    }
}

fn loads_none<S: Shelf>(alloc: Global, shelf: &mut S, name: &[u8]) -> bool {
    match shelf.load(alloc, name) {
        Ok(_) => false,
        Err(fault) => fault == HandFault::Device,
    }
}

// Makes a call, and tells whether it answers what the row says.
fn is_right<S: Shelf>(alloc: Global, shelf: &mut S, entry: ShelfCall) -> bool {
    match entry {
        ShelfCall::Store(name, bytes) => shelf.store(name, bytes).is_ok(),
        ShelfCall::NoStore(name, bytes) => shelf.store(name, bytes) == Err(HandFault::Device),
        ShelfCall::Load(name, bytes) => loads(alloc, shelf, name, Some(bytes)),
        ShelfCall::Nothing(name) => loads(alloc, shelf, name, None),
        ShelfCall::NoLoad(name) => loads_none(alloc, shelf, name),
        ShelfCall::Failures(count) => shelf.failures() == count,
    }
}

/// Makes calls, and asserts that each answers what its row says. They stand in this line of a script.
pub fn play<S: Shelf>(
    rt: &impl Abort,
    alloc: Global,
    shelf: &mut S,
    entries: &[ShelfCall],
    line: usize,
) {
    for (number, entry) in entries.iter().enumerate() {
        assert!(rt;
            is_right(alloc, shelf, *entry),
            "line {line}: call {number}"
        );
    }
}
