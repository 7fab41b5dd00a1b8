//! A device that fails at one call: while the parts of an object are opened and saved, while a call is run at once, and
//! while one is run by steps.

use crate::make::{accepted, pins_of};
use board_core::answer::Collected;
use decl_core::object::Object;
use desk_core::desk::Desk;
use device_core::hand::{Hand, Stamp};
use device_core::mem_shelf::MemShelf;
use device_core::memory::MemHand;
use device_core::retire::retire_all;
use device_core::uncalled::OnceHand;
use page_core::open::{OpenFault, open_parts};
use page_core::save::{SaveFault, save_parts};
use page_core::ticket::Ticket;
use run_core::at_once::run_at_once;
use run_core::perform::perform;
use run_core::run::Run;
use std::alloc::Global;
use std::process::Abort;
use value_core::datum::Datum;

// Two parts of five pages each. Element i is on page (i + 1) / 256.
const WIDE: &[u8] = b"object wide;
  path 1:([get, sum], put, both, move, late, ends) end;
  var v : array [1024] of integer; w : array [1024] of integer;
  entry function get(i : integer) : integer; begin get := v[i] end;
  entry procedure put(i, x : integer); begin v[i] := x end;
  entry procedure both(x : integer); begin v[0] := x; v[1023] := x end;
  entry function sum(i, j : integer) : integer; begin sum := v[i] + v[j] end;
  entry procedure move(i, j : integer); begin v[v[i]] := v[j] end;
  entry procedure late(i : integer); begin v[i] := 7; refuse('late') end;
  entry procedure ends(x : integer); begin v[0] := x; w[1023] := x end;
end;
";

// So often a hand is called until both parts have their opening values: three times a page.
const OPENING: u64 = 30;

// Why the parts of an object are not opened, or why they are not saved, where the call of the hand of this number fails.
fn faults(
    rt: &impl Abort,
    alloc: Global,
    object: &Object,
    call: u64,
) -> (Option<OpenFault>, Option<SaveFault>) {
    let mut shelf = MemShelf::new(alloc);
    let mut hand = OnceHand::new(MemHand::new(alloc), call);
    match open_parts(alloc, object, &mut shelf, &mut hand) {
        Ok((pins, _values)) => {
            assert!(rt; pins.len() == object.parts.len());
            (
                None,
                save_parts(alloc, object, &pins, &mut shelf, &mut hand).err(),
            )
        }
        Err(fault) => (Some(fault), None),
    }
}

// Catches `saving_reads_each_page_twice`, and no case can show it: each call of a hand fails in turn. Saving takes one
// call a page.
#[test]
fn opening_and_saving_tell_of_a_device(rt: HostRuntime) {
    let wide = accepted(&rt, rt.alloc(), WIDE);
    for call in 1..42 {
        let want = match call {
            1..=30 => (Some(OpenFault::Device), None),
            31..=35 => (None, Some(SaveFault::Device(0))),
            36..=40 => (None, Some(SaveFault::Device(1))),
            _ => (None, None),
        };
        assert!(rt; faults(&rt, rt.alloc(), wide.object(), call) == want);
    }
}

// The desk of the wide object, whose parts have their opening values.
fn desk_over<H: Hand>(rt: &impl Abort, alloc: Global, hand: &mut H) -> Desk {
    let wide = accepted(rt, alloc, WIDE);
    let pins = pins_of(rt, alloc, wide.object(), hand);
    assert!(rt; pins.len() == wide.object().parts.len());
    match Desk::open(alloc, wide, pins) {
        Ok(desk) => desk,
        Err(_) => panic!(rt; "no memory"),
    }
}

// The number of a call with these numbers.
fn submit(rt: &impl Abort, alloc: Global, desk: &mut Desk, op: &str, numbers: &[u32]) -> u32 {
    let mut args = Vec::new(alloc);
    for number in numbers {
        assert!(rt; args.push(Datum::Integer(*number)).is_ok());
    }
    match desk.submit(1, op, &args) {
        Ok(number) => number,
        Err(_) => panic!(rt; "no call"),
    }
}

// The ticket of a call with these numbers, which starts at once.
fn start(rt: &impl Abort, alloc: Global, desk: &mut Desk, op: &str, numbers: &[u32]) -> Ticket {
    let number = submit(rt, alloc, desk, op, numbers);
    match desk.collect(number) {
        Collected::Ticket(ticket) => ticket,
        _ => panic!(rt; "no ticket"),
    }
}

// Whether a call that is run at once makes the call of the hand of this number, which fails. Whatever it comes to, it
// leaves as many files to nobody as it has sealed.
fn reaches(rt: &impl Abort, alloc: Global, op: &str, numbers: &[u32], call: u64) -> bool {
    let mut hand = OnceHand::new(MemHand::new(alloc), call);
    let mut desk = desk_over(rt, alloc, &mut hand);
    let outcome = run_at_once(alloc, start(rt, alloc, &mut desk, op, numbers), &mut hand);
    assert!(rt; outcome.free().len() == outcome.sealed().len());
    hand.failures() == 1
}

// Calls, how many pages each reads, and how many it writes.
const AT_ONCE: [(&str, &[u32], u64, u64); 13] = [
    ("get", &[254], 1, 0),
    ("get", &[255], 2, 0),
    ("get", &[1_023], 2, 0),
    // An index that is refused needs no page.
    ("get", &[1_024], 1, 0),
    // No page is read twice.
    ("sum", &[300, 310], 2, 0),
    ("sum", &[1_023, 300], 3, 0),
    // What was read before a refusal was read.
    ("sum", &[600, 1_024], 2, 0),
    ("late", &[600], 2, 0),
    ("put", &[1_023, 7], 2, 1),
    ("put", &[1_023, 0], 2, 0),
    ("both", &[3], 2, 2),
    ("move", &[900, 700], 3, 0),
    ("ends", &[3], 3, 2),
];

// Catches `call_at_once_reads_arrays_whole`, `call_at_once_reads_pages_twice` and
// `call_at_once_of_two_parts_wants_memory`: a page that is read takes one call of the hand, one that is written three,
// and no more is called.
#[test]
fn a_call_at_once_calls_the_device_no_more(rt: HostRuntime) {
    for (op, numbers, reads, writes) in AT_ONCE {
        let calls = reads.saturating_add(writes.saturating_mul(3));
        let last = calls.saturating_add(OPENING);
        assert!(rt; reaches(&rt, rt.alloc(), op, numbers, last));
        assert!(rt; !reaches(&rt, rt.alloc(), op, numbers, last.saturating_add(1)));
    }
}

// Whether the files of these numbers stand here, in this order.
fn are_files(stamps: &[Stamp], want: &[u64]) -> bool {
    for (stamp, number) in stamps.iter().zip(want) {
        if stamp.number != *number {
            return false;
        }
    }
    stamps.len() == want.len()
}

// Those of some files that are not retired.
fn kept<H: Hand>(rt: &impl Abort, alloc: Global, hand: &mut H, stamps: &[Stamp]) -> Vec<Stamp> {
    let mut all = Vec::new(alloc);
    assert!(rt; all.extend_from_slice(stamps).is_ok());
    retire_all(hand, all)
}

// Whether `both 3` by steps on a hand that fails so leaves these files to nobody, and of these are not retired those.
fn leaves(rt: &impl Abort, alloc: Global, fails: u64, free: &[u64], left: &[u64]) -> bool {
    let mut hand = MemHand::new(alloc);
    let mut desk = desk_over(rt, alloc, &mut hand);
    let mut hand = OnceHand::new(hand, fails);
    let ticket = start(rt, alloc, &mut desk, "both", &[3]);
    let outcome = perform(Run::new(alloc, ticket), &mut hand);
    let kept = kept(rt, alloc, &mut hand, outcome.free());
    are_files(outcome.free(), free) && are_files(&kept, left)
}

// Which call of the hand fails (0: none), the files that the call leaves to nobody, and those of them that are not
// retired. It reads two pages and writes them anew, and then the two old files are retired.
const BY_STEPS: [(u64, &[u64], &[u64]); 11] = [
    (0, &[1, 5], &[]),
    (1, &[], &[]),
    (2, &[], &[]),
    (3, &[], &[]),
    (4, &[], &[]),
    (5, &[], &[]),
    (6, &[11], &[]),
    (7, &[11], &[]),
    (8, &[11], &[]),
    (9, &[1, 5], &[1]),
    (10, &[1, 5], &[5]),
];

// Catches `body_always_wants_memory`, `retire_all_retires_nothing` and `retire_all_gives_nothing_back`, and no case can
// show which files are free.
#[test]
fn a_device_fails_each_call_in_turn(rt: HostRuntime) {
    for (fails, free, left) in BY_STEPS {
        assert!(rt; leaves(&rt, rt.alloc(), fails, free, left));
    }
}
