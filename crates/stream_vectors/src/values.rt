//! How much memory the bytes of a value take.

use std::alloc::Global;
use value_bytes::decode::decode;
use value_bytes::encode::encode;
use value_core::kind::{Elem, Kind};

// Values that have texts, and their bytes.
const VALUES: [(Kind, &[u8]); 3] = [
    (
        Kind::Queue(Elem::Text),
        b"\x02\x04\0\x03\0\x01a\0\x02bc\0\x03def",
    ),
    (
        Kind::Table(Elem::Integer),
        b"\x02\x05\0\x03\0\x01a\0\0\0\x01\0\x01b\0\0\0\x02\0\x01c\0\0\0\x03",
    ),
    (
        Kind::Table(Elem::Text),
        b"\x02\x06\0\x02\0\x01a\0\x03bcd\0\x02ef\0\x01g",
    ),
];

// Whether bytes are read and spelled again, in room for just these.
fn fits(alloc: Global, kind: Kind, bytes: &[u8]) -> bool {
    let Ok(value) = decode(alloc, kind, bytes) else {
        return false;
    };
    match encode(alloc, &value) {
        Ok(spelled) => spelled.as_slice() == bytes && spelled.capacity() == bytes.len(),
        Err(_) => false,
    }
}

// Catches `room_for_texts_without_their_lengths` and `room_for_rows_without_their_numbers`: bytes take memory once.
#[test]
fn values_are_spelled_in_one_growth(rt: HostRuntime) {
    for (kind, bytes) in VALUES {
        assert!(rt; fits(rt.alloc(), kind, bytes));
    }
}
