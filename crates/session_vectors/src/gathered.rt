//! What is told of how sessions ended.

use crate::make::{CELL, ZERO, offices};
use device_core::memory::MemHand;
use keep_core::trouble::Trouble;
use serve_core::backed::Backed;
use serve_core::gather::Gathering;
use serve_core::listen::{SessionLeavings, SessionResult};
use session_core::fault::SessionFault;
use std::alloc::Global;
use std::process::Abort;

// A session of the object that ended so.
fn ended(alloc: Global, hand: MemHand, fault: SessionFault) -> SessionResult<MemHand> {
    let receipts = Vec::new(alloc);
    let backed = Backed::new(receipts, hand);
    SessionResult::Session(SessionLeavings {
        object: Some(0),
        seat: None,
        backed,
        fault: Some(fault),
    })
}

// Whether this is told of such a session, and it was noted as refused where something is.
fn is_told(rt: &impl Abort, alloc: Global, fault: SessionFault, line: &[u8]) -> bool {
    let (offices, hand) = offices(rt, alloc, CELL, ZERO);
    let mut all = Vec::new(alloc);
    assert!(rt; all.push(ended(alloc, hand, fault)).is_ok());
    let mut error = Vec::new(alloc);
    let mut trouble = Trouble::none();
    match Gathering::new(alloc, 1, 1) {
        Ok(mut gathering) => gathering.gather(all, &offices, &mut error, &mut trouble),
        Err(_) => panic!(rt; "no memory"),
    }
    error.as_slice() == line && trouble.refused != line.is_empty()
}

// Catches `gather_knows_no_object` and `mixed_session_is_not_told`: the notes of a session are never others than its
// receipts.
#[test]
fn a_mixed_session_is_told_and_refused(rt: HostRuntime) {
    assert!(rt;
        is_told(
            &rt,
            rt.alloc(),
            SessionFault::LogMixed,
            b"session of cell mixed\n"
        )
    );
    assert!(rt; is_told(&rt, rt.alloc(), SessionFault::LineTooLong, b""));
}
