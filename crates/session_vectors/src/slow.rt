//! A call that runs on a slow device.

use crate::make::{ZERO, offices, tells};
use crate::streams::{CountingWriter, PacedReader, await_lines, counter, shared};
use device_core::hand::{Hand, HandFault, Pen, Stamp};
use device_core::memory::MemHand;
use device_core::whole::put;
use session_core::order::Named;
use session_core::serve::Connection;
use std::alloc::Global;
use std::process::Abort;
use std::sync::atomic::{AtomicU64, Ordering};
use std::sync::{Arc, Wait};
use std::thread;
use std::thread::Threads;
use std::time::Clock;

// An object whose calls run one at a time. Each reads its part.
const SHOP: &[u8] = b"object shop;
  path 1:(get, put) end;
  var v : array [1] of integer;
  entry function get : integer; begin get := v[0] end;
  entry procedure put(x : integer); begin v[0] := x end;
end;
";

// So often all turns are taken before a device goes on whatever was written.
const ROUNDS: u32 = 100;

// A hand that is slow to read: each read counts as a line that was written, and goes on only once there are so many.
#[derive(Drop)]
struct SlowHand<H> {
    inner: H,
    written: Arc<AtomicU64>,
    until: u64,
    // whether each read went on in time
    in_time: bool,
}

impl<H> SlowHand<H> {
    ghost use Rattle.std.specs.Prelude.{◌≡◌};

    fn stand(&mut self)
        ensures { self.new.inner ≡ self.old.inner }
    {
        self.written.fetch_add(1, Ordering::SeqCst);
        for _ in 0..ROUNDS {
            await_lines(&self.written, self.until);
        }
        if self.written.load(Ordering::SeqCst) < self.until {
            self.in_time = false;
        }
    }
}

impl<H: Hand> Hand for SlowHand<H> {
    ghost agrees = { λ h a. H.agrees h.inner a };

    ghost pending = { λ h n b. H.pending h.inner n b };

    ghost serves = { λ h s. H.serves h.inner s };

    ghost works_for = { λ h n. H.works_for h.inner n };

    ghost fails = { λ h. H.fails h.inner };

    ghost makes = { λ h call k. H.makes h.inner call k.inner };

    ghost failed = { λ h. H.failed h.inner };

    fn create(&mut self) -> Result<Pen, HandFault> {
        self.inner.create()
    }

    fn append(&mut self, pen: &mut Pen, bytes: &[u8]) -> Result<(), HandFault> {
        self.inner.append(pen, bytes)
    }

    fn seal(&mut self, pen: Pen) -> Result<Stamp, (Pen, HandFault)> {
        self.inner.seal(pen)
    }

    fn discard(&mut self, pen: Pen) {
        self.inner.discard(pen);
    }

    fn read(&mut self, stamp: &Stamp, at: usize, into: &mut [u8]) -> Result<(), HandFault> {
        self.stand();
        self.inner.read(stamp, at, into)
    }

    fn retire(&mut self, stamp: &Stamp) -> Result<(), HandFault> {
        self.inner.retire(stamp)
    }

    fn failures(&self) -> u64 {
        self.inner.failures()
    }
}

// A client: it says these lines, each once so many were `heard`, and its device goes on once there are so many. What is
// written to it counts as `written`.
#[derive(Drop)]
struct SlowClient {
    lines: &'static [(u64, &'static [u8])],
    until: u64,
    heard: Arc<AtomicU64>,
    written: Arc<AtomicU64>,
    told: &'static [u8],
}

// Whether a client is told what it has to be, and its device went on in time.
fn served<R: Abort + Threads + Wait + Clock + Sync>(
    rt: &R,
    alloc: Global,
    all: &Vec<Named>,
    client: SlowClient,
    hand: MemHand,
) -> bool {
    let SlowClient {
        lines,
        until,
        heard,
        written,
        told,
    } = client;
    let hand = SlowHand {
        inner: hand,
        written: shared(rt, &heard),
        until,
        in_time: true,
    };
    let reader = PacedReader {
        lines,
        written: heard,
    };
    let writer = CountingWriter {
        bytes: Vec::new(alloc),
        written,
    };
    match tells(rt, alloc, all, Connection { reader, writer }, hand, told) {
        Some(hand) => hand.in_time,
        None => false,
    }
}

const GETS: &[(u64, &[u8])] = &[(0, b"open shop\ncall get\nquit\n")];

const GOT: &[u8] = b"opened shop\naccepted 1\ndone 1 0\nbye\n";

// That `cancel 9` is answered shows that lines are heard while the call waits. Then the call starts, and counts as a
// line.
const RUNS: &[(u64, &[u8])] = &[
    (1, b"open shop\n"),
    (2, b"call put 8\n"),
    (3, b"cancel 9\n"),
    (5, b"cancel 2\n"),
    (7, b"quit\n"),
];

const RAN: &[u8] = b"opened shop\naccepted 2\ncancel 9 Unknown\ncancel 2 Running\ndone 2\nbye\n";

// A hand with the file of a part that is `[0]`, as the hand of its office has it.
fn copy_of(rt: &impl Abort, alloc: Global) -> MemHand {
    let mut copy = MemHand::new(alloc);
    assert!(rt; put(&mut copy, ZERO).is_ok());
    copy
}

// Catches `call_that_runs_stops_the_second_thread`: a session that cancels its own call, which runs on a slow device, is
// told so while that runs.
#[test]
fn a_slow_call_is_told_as_running(rt: HostRuntime) {
    let alloc = rt.alloc();
    let (all, hand) = offices(&rt, alloc, SHOP, ZERO);
    let copy = copy_of(&rt, alloc);
    let (count, own) = (counter(&rt, alloc), counter(&rt, alloc));
    let slow = SlowClient {
        lines: GETS,
        until: 4,
        heard: shared(&rt, &count),
        written: own,
        told: GOT,
    };
    let client = SlowClient {
        lines: RUNS,
        until: 6,
        heard: shared(&rt, &count),
        written: shared(&rt, &count),
        told: RAN,
    };
    let by = &rt;
    let (one, other) = thread::join(
        by,
        || served(by, alloc, &all, slow, hand),
        || served(by, alloc, &all, client, copy),
    );
    assert!(rt; one && other);
}
