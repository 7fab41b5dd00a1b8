//! The third thread of a session: it sends what is held back while a call waits.

use crate::listen::leave;
use crate::mouth::{Mouth, Wish};
use crate::order::Offices;
use crate::output::Start;
use std::io::Write;
use std::sync::Wait;

/// Sends what is held back each time that the first thread asks for it, until that has ended. Where a line cannot be
/// sent, the session leaves its object.
pub(crate) fn send<R: Wait, W: Write + Drop, J: Start, O: Offices>(
    rt: &R,
    offices: &O,
    mouth: &Mouth<W, J>,
) {
    for _ in rt.forever() {
        match mouth.wished(rt) {
            Wish::Nothing => {}
            Wish::Send(at, session) => {
                if !mouth.flush(rt) {
                    leave(rt, offices, Some((at, session)));
                }
            }
            Wish::End => break,
        }
    }
}
