//! Pasts that are played, and the short ones that are found in their place.

use crate::fakes::only_object;
use path_count::finder::short_past;
use path_count::past::PastEvent::{self, End, Start};
use path_count::past::counters_behind;
use path_tree::tree::PathTree;
use std::alloc::Global;
use std::process::Abort;

// Each has the operations a and b, which are 0 and 1.
const SLOTS: &[u8] = b"object slots; path 3:(a; b) end;
  entry procedure a; begin end; entry procedure b; begin end; end;
";

const READERS: &[u8] = b"object readers; path 1:([a], b) end;
  entry procedure a; begin end; entry procedure b; begin end; end;
";

const BURST: &[u8] = b"object burst; path [a; b] end;
  entry procedure a; begin end; entry procedure b; begin end; end;
";

const FREE: &[u8] = b"object free; path a, b end;
  entry procedure a; begin end; entry procedure b; begin end; end;
";

// Events that happen so many times, and others behind them; and how many the short past has that stands for all.
#[derive(Drop)]
struct PastRow {
    object: &'static [u8],
    often: &'static [PastEvent],
    times: u32,
    behind: &'static [PastEvent],
    short: usize,
}

const ROWS: &[PastRow] = &[
    PastRow {
        object: SLOTS,
        often: &[Start(0), End(0), Start(1), End(1)],
        times: 500,
        behind: &[Start(0), End(0)],
        short: 2,
    },
    PastRow {
        object: READERS,
        often: &[Start(0), Start(0), End(0), End(0)],
        times: 500,
        behind: &[Start(1), End(1)],
        short: 0,
    },
    PastRow {
        object: BURST,
        often: &[Start(0), End(0), Start(0), End(0)],
        times: 500,
        behind: &[Start(1), End(1)],
        short: 1_998,
    },
    PastRow {
        object: FREE,
        often: &[Start(0), Start(1), End(1), End(0)],
        times: 500,
        behind: &[Start(1), End(1)],
        short: 0,
    },
    // As many calls as may start in a past.
    PastRow {
        object: FREE,
        often: &[Start(0), End(0)],
        times: 65_535,
        behind: &[Start(1), End(1)],
        short: 0,
    },
];

// The events of a row.
fn long_past(rt: &impl Abort, alloc: Global, row: &PastRow) -> Vec<PastEvent> {
    let mut long = Vec::new(alloc);
    for _ in 0..row.times {
        assert!(rt; long.extend_from_slice(row.often).is_ok());
    }
    assert!(rt; long.extend_from_slice(row.behind).is_ok());
    long
}

// How many events the short past has that is found in the place of a long one, which is played.
fn found(alloc: Global, paths: &[PathTree], long: &[PastEvent]) -> Option<usize> {
    match counters_behind(alloc, paths, 2, long) {
        Ok(Some(counters)) => match short_past(alloc, paths, 2, long, &counters) {
            Ok(Some(short)) => Some(short.len()),
            _ => None,
        },
        _ => None,
    }
}

// Catches `long_past_stands_for_itself`, `finish_is_no_turn` and `no_past_is_played`.
#[test]
fn a_short_past_stands_for_a_long_one(rt: HostRuntime) {
    let alloc = rt.alloc();
    for row in ROWS {
        let object = only_object(&rt, alloc, row.object);
        let long = long_past(&rt, alloc, row);
        assert!(rt; found(alloc, &object.paths, &long) == Some(row.short));
    }
}
