//! Lines that are said where they may not stand.

use crate::streams::LimitedWriter;
use apply_core::reply::Reply;
use session_core::mouth::Mouth;
use session_core::output::Health;
use session_text::line::{AnyLine, ReplyLine};
use std::alloc::Global;
use std::marker::Brand;
use std::process::Abort;
use std::sync::Wait;

// Whether all goes so, and this is written, where these lines are said, and sent after each, and then the last line of a
// call or none.
fn goes<R: Abort + Wait>(
    rt: &R,
    alloc: Global,
    lines: &[ReplyLine],
    ended: Option<u64>,
    so: Health,
    told: &[u8],
) -> bool {
    let writer = LimitedWriter {
        bytes: Vec::new(alloc),
        left: 4096,
        fails: false,
    };
    let mouth: Mouth<LimitedWriter, Brand> = Mouth::new(alloc, writer);
    assert!(rt; mouth.make_room(rt));
    for line in lines {
        let _said = mouth.say(rt, AnyLine::Told(*line));
        let _sent = mouth.flush(rt);
    }
    if let Some(number) = ended {
        let _said = mouth.say(rt, AnyLine::Ended(number, &Reply::Done(None)));
        let _sent = mouth.flush(rt);
    }
    let (writer, _notes, health) = mouth.into_parts();
    health == so && writer.bytes.as_slice() == told
}

// Catches `line_out_of_its_turn_is_not_told`, and no case can show it: a session says no line out of its turn.
#[test]
fn a_line_out_of_its_turn_is_told(rt: HostRuntime) {
    let alloc = rt.alloc();
    let one = [ReplyLine::Accepted(1)];
    let two = [ReplyLine::Accepted(1), ReplyLine::Accepted(2)];
    let late = [ReplyLine::Bye, ReplyLine::Accepted(1)];
    let mixed = Health::Mixed;
    let whole: &[u8] = b"accepted 1\ndone 1\n";
    assert!(rt; goes(&rt, alloc, &one, Some(1), Health::Fine, whole));
    assert!(rt; goes(&rt, alloc, &one, None, mixed, b"accepted 1\n"));
    assert!(rt; goes(&rt, alloc, &one, Some(2), mixed, b"accepted 1\n"));
    assert!(rt; goes(&rt, alloc, &two, Some(1), mixed, b"accepted 1\n"));
    assert!(rt; goes(&rt, alloc, &[], Some(1), mixed, b""));
    assert!(rt; goes(&rt, alloc, &late, None, mixed, b"bye\n"));
}
