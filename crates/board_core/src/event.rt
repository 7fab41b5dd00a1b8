//! What happens to the calls of an object.

use apply_core::reply::Reply;

/// What happened to a call.
#[derive(Clone, Copy, Debug, PartialEq, Eq)]
pub enum TraceEvent {
    /// The call of this number started.
    Start(u32),
    /// The call of this number ended, with this reply.
    End(u32, Reply),
}
