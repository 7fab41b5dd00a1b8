//! The calls that waited when an epoch began.

ghost use Rattle.std.specs.Prelude.{◌≡◌, ◌≤◌, ◌↔◌, IsTrue, map};
ghost use Rattle.audit_core.specs.Carried.{IsTheOne, carried_calls};

use apply_core::slim::Slims;
use path_tree::node::OpId;
use value_core::datum::Datum;

/// A call that waited when an epoch began.
#[derive(Drop)]
pub struct WaitedCall {
    /// Its number in this epoch: the calls that waited have the numbers from 1.
    pub number: u32,
    /// Its session.
    pub session: u32,
    /// Its operation, by the place in the object, from 0.
    pub operation: OpId,
    /// Its arguments, in order.
    pub arguments: Slims,
}

// Whether a carried call is of this session, operation and arguments.
fn is_of(carried: &WaitedCall, session: u32, operation: OpId, arguments: &[Datum]) -> bool
    ensures { IsTrue result ↔ ((carried.now.session ≡ session) × (carried.now.operation ≡ operation)
        × (carried.now.arguments ≡ arguments.now)) }
{
    carried.session == session && carried.operation == operation && carried.arguments.are(arguments)
}

// Whether the carried call of this number, if there is one, is of this session, operation and arguments.
pub(crate) fn is_as_carried(
    carried: &[WaitedCall],
    number: u32,
    session: u32,
    operation: OpId,
    arguments: &[Datum],
) -> bool
    requires { 1 ≤ number }
    ensures { IsTrue result ↔ IsTheOne (carried_calls carried.now) (record {
      number = number;
      session = session;
      operation = operation;
      arguments = arguments.now;
    }) }
{
    match carried.get(number as usize - 1) {
        None => true,
        Some(call) => is_of(call, session, operation, arguments),
    }
}
