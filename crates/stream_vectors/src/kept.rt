//! Calls of a kept object that no client makes, and those that it refuses.

use crate::fakes::only_object;
use guest_core::answer::SubmitFault;
use live_core::call::Limits;
use live_core::live::Live;
use path_tree::node::OpId;
use std::alloc::Global;
use std::process::Abort;
use value_core::datum::Datum;
use value_core::kind::{Elem, Kind};
use value_core::value::Value;

// At most two calls of `put`, the operation 0, are ahead of those of `get`, the operation 1.
const SLOT: &[u8] = b"object slot;
  path 2:(put; get) end; path 1:(put, get) end;
  var v : array [1] of integer;
  entry procedure put(x : integer); begin v[0] := v[0] + x end;
  entry function get : integer; begin get := v[0]; v[0] := 0 end;
end;
";

// Four sessions, of which three may wait.
const FEW: Limits = Limits {
    sessions: 4,
    waiting: 3,
};

// The opening value of its part.
fn opening(rt: &impl Abort, alloc: Global) -> Vec<Value> {
    let mut values = Vec::new(alloc);
    match Value::opening(alloc, Kind::Array(1, Elem::Integer)) {
        Ok(value) => assert!(rt; values.push(value).is_ok()),
        Err(_) => panic!(rt; "no memory"),
    }
    values
}

// It is kept, and nothing has happened.
fn kept(rt: &impl Abort, alloc: Global) -> Live {
    let object = only_object(rt, alloc, SLOT);
    match Live::behind(alloc, object, &[], opening(rt, alloc), Vec::new(alloc), FEW) {
        Ok(Some(live)) => live,
        _ => panic!(rt; "not kept"),
    }
}

// Why a call with these numbers is refused, or `None` where it is taken.
fn refusal(
    rt: &impl Abort,
    alloc: Global,
    live: &mut Live,
    session: u32,
    op: OpId,
    numbers: &[u32],
) -> Option<SubmitFault> {
    let mut args = Vec::new(alloc);
    for number in numbers {
        assert!(rt; args.push(Datum::Integer(*number)).is_ok());
    }
    live.submit(session, op, args).err()
}

// Calls, each by its session, operation and arguments, and why it is refused.
const CALLS: [(u32, OpId, &[u32], Option<SubmitFault>); 9] = [
    (0, 7, &[], Some(SubmitFault::Gone)),
    (5, 7, &[], Some(SubmitFault::Gone)),
    (1, 2, &[], Some(SubmitFault::UnknownOp)),
    (1, 0, &[], Some(SubmitFault::BadArgs)),
    (1, 1, &[], None),
    (2, 1, &[], None),
    (3, 1, &[], None),
    (1, 1, &[], Some(SubmitFault::SessionBusy)),
    (4, 1, &[], Some(SubmitFault::Full)),
];

// No case can show it: sessions that there are not, and three that wait are the most. Then one is cancelled, and the
// object ends.
#[test]
fn each_refusal_comes_in_its_order(rt: HostRuntime) {
    let alloc = rt.alloc();
    let mut live = kept(&rt, alloc);
    for (session, op, numbers, why) in CALLS {
        assert!(rt; refusal(&rt, alloc, &mut live, session, op, numbers) == why);
    }
    assert!(rt; live.cancel(2) && !live.cancel(2));
    let (_contents, waiting) = live.end();
    assert!(rt; waiting.len() == 2);
}

// No case can show it: an epoch ends before its numbers do.
#[test]
fn the_numbers_of_an_epoch_end(rt: HostRuntime) {
    let alloc = rt.alloc();
    let mut live = kept(&rt, alloc);
    for _ in 0..32_768 {
        assert!(rt; refusal(&rt, alloc, &mut live, 1, 0, &[1]).is_none());
        assert!(rt; refusal(&rt, alloc, &mut live, 2, 1, &[]).is_none());
    }
    assert!(rt; refusal(&rt, alloc, &mut live, 1, 0, &[1]) == Some(SubmitFault::HistoryFull));
}
