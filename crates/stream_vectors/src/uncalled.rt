//! Public calls that no program makes.

use crate::fakes::{CELL, only_object};
use apply_core::reply::Reply;
use check_core::report::CheckFault;
use decl_core::analyse::{Accepted, ObjectRefusal, analyse};
use decl_core::uncalled::check_certificate;
use path_count::counters::compile;
use std::alloc::Global;
use std::process::Abort;
use value_core::datum::Datum;
use word_core::uncalled::push_word;
use word_core::word::Word;
use world_core::event::Event;
use world_core::world::World;

// No case can show it: how many calls of an operation run.
#[test]
fn counters_tell_what_runs(rt: HostRuntime) {
    let cell = only_object(&rt, rt.alloc(), CELL);
    match compile(rt.alloc(), &cell.paths, 2) {
        Ok(mut counters) => {
            assert!(rt; counters.start(1) && counters.running(1) == 1);
        }
        Err(_) => panic!(rt; "no memory"),
    }
}

// No case can show it: a word that stands alone.
#[test]
fn a_word_is_written_alone(rt: HostRuntime) {
    let mut out = Vec::new(rt.alloc());
    let is_pushed = push_word(&mut out, &Word::Bare(b"failed")).is_ok();
    assert!(rt; is_pushed && out.as_slice() == b"failed".as_slice());
}

// No case can show it: the numbers and names of faults that programs tell in words of their own.
#[test]
fn faults_have_numbers_and_names(rt: HostRuntime) {
    assert!(rt; ObjectRefusal::Memory.number() == 2 && ObjectRefusal::Memory.name() == "Memory");
    assert!(rt;
        CheckFault::WriteFault.number() == 1 && CheckFault::WriteFault.name() == "WriteFault"
    );
}

// A cell, accepted.
fn cell(rt: &impl Abort, alloc: Global) -> Accepted {
    match analyse(alloc, only_object(rt, alloc, CELL)) {
        Ok(cell) => cell,
        Err(_) => panic!(rt; "refused"),
    }
}

// No case can show it: no subcommand takes a certificate.
#[test]
fn the_certificate_of_what_is_accepted_is_one(rt: HostRuntime) {
    let cell = cell(&rt, rt.alloc());
    assert!(rt; check_certificate(cell.object(), cell.certificate()));
}

// No case can show it: no subcommand hands over a list of events.
#[test]
fn events_are_played_in_order(rt: HostRuntime) {
    let events = [
        Event::Call(1, "put", &[Datum::Integer(7)]),
        Event::Step(1, true),
        Event::Step(1, true),
        Event::Step(1, true),
        Event::Step(1, true),
        Event::Finish(1),
    ];
    let Ok(world) = World::play(rt.alloc(), cell(&rt, rt.alloc()), &events) else {
        panic!(rt; "no memory")
    };
    let desk = world.end();
    match desk.history() {
        [entry] => assert!(rt; entry.reply() == Reply::Done(None)),
        _ => panic!(rt; "not one entry"),
    }
}
